use crate::{SetReason, Stamp, Store};

/// What a set comes to by the set rule (UEFI 2.10, 8.2.3).
#[derive(Clone, Copy, Debug, PartialEq, Eq)]
pub enum Decision {
    Refuse(SetReason),
    /// Change nothing, since what is stored is what the set would make.
    Same,
    /// Delete what is stored, which this store holds.
    Remove(Store),
    /// Put the variable of these attributes and this stamp, whose bytes are those of the call behind the first `skip`, put behind those
    /// that are stored where `append` is true.
    Write {
        attributes: u32,
        stamp: Stamp,
        skip: u64,
        append: bool,
    },
}
