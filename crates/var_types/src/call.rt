use crate::{Bytes, Guid, PolicyCall, Units, Verdict};

/// A call of GetVariable (UEFI 2.10, 8.2.1).
#[derive(Debug, Drop)]
pub struct GetCall {
    pub guid: Guid,
    pub name: Units,
    /// How many bytes the caller's buffer has.
    pub room: u32,
}

/// A call of GetNextVariableName (UEFI 2.10, 8.2.2).
#[derive(Debug, Drop)]
pub struct NextCall {
    pub guid: Guid,
    pub name: Units,
    /// How many bytes the caller's buffer for the name has.
    pub room: u32,
}

/// A call of SetVariable (UEFI 2.10, 8.2.3).
#[derive(Debug, Drop)]
pub struct SetCall {
    pub guid: Guid,
    pub name: Units,
    pub attributes: u32,
    pub bytes: Bytes,
    /// What the signature, if there is one, was found to be.
    pub verdict: Verdict,
}

/// A call of the variable services.
#[derive(Debug, Drop)]
pub enum Call {
    Get(GetCall),
    Next(NextCall),
    Set(SetCall),
    Policy(PolicyCall),
    /// The end of the boot phase, which hides what has no runtime access (UEFI 2.10, 7.4).
    ExitBoot,
}
