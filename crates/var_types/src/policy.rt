use crate::{Guid, Key, Units};

/// When a policy locks the variables that it covers (EDK II, VariablePolicyLib).
#[derive(Debug, Drop)]
pub enum Lock {
    NoLock,
    /// At once.
    Now,
    /// Each one as soon as it is there.
    OnCreate,
    /// Once the variable of a key has one byte, and that is the value.
    OnState { key: Key, value: u8 },
}

/// What a registered policy asks of the variables that it covers (EDK II, VariablePolicyLib); sizes are in bytes.
#[derive(Debug, Drop)]
pub struct Policy {
    pub namespace: Guid,
    /// The name, in which `#` covers a digit; none covers all names of the namespace.
    pub name: Option<Units>,
    pub min: u32,
    pub max: u32,
    pub must: u32,
    pub cant: u32,
    pub lock: Lock,
}
