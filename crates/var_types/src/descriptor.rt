use crate::Stamp;
use thiserror::Error;

/// What stands before the data of a time-based set: its time stamp, and how many bytes the whole of it has, the certificate's data included
/// (UEFI 2.10, 8.2, EFI_VARIABLE_AUTHENTICATION_2).
#[derive(Clone, Copy, Debug, PartialEq, Eq)]
pub struct Descriptor {
    pub stamp: Stamp,
    pub length: u64,
}

/// The field at this offset isn't whole or has a value that it may not have; those before it are right.
#[derive(Clone, Copy, Debug, PartialEq, Eq, Error)]
#[error("the descriptor is broken at {at}")]
pub struct DescriptorFault {
    pub at: u32,
}
