use crate::Guid;

/// What policies are asked: the key and the attributes of a set as it was handed in, how many bytes its payload has, whether it deletes, and
/// whether something is stored at its key.
#[derive(Clone, Copy, Debug)]
pub struct Ask<'a> {
    pub guid: &'a Guid,
    pub name: &'a [u16],
    pub attributes: u32,
    pub payload: u32,
    pub deletes: bool,
    pub stored: bool,
}

/// The rules of a policy, in the order in which they are tried (EDK II, VariablePolicyLib; the order is this project's own).
#[derive(Clone, Copy, Debug, PartialEq, Eq)]
pub enum Rule {
    /// The payload is shorter than the policy's least size.
    MinSize,
    /// The payload is longer than the policy's greatest size.
    MaxSize,
    /// The attributes lack a bit that they must have.
    Must,
    /// The attributes have a bit that they can't have.
    Cant,
    /// The policy locks at once.
    LockNow,
    /// The policy locks a variable that is there.
    LockOnCreate,
    /// The policy locks once another variable has a certain value.
    LockOnState,
}

/// A policy denies a set: its place in the order of registration, from 0, and the first of its rules that does.
#[derive(Clone, Copy, Debug, PartialEq, Eq)]
pub struct Denied {
    pub place: u32,
    pub rule: Rule,
}
