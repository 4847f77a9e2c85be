use thiserror::Error;

/// Bytes are no policy's entry (EDK II, VARIABLE_POLICY_ENTRY), in the order in which they are tried.
#[derive(Clone, Copy, Debug, PartialEq, Eq, Error)]
pub enum EntryFault {
    /// A header isn't whole, or Size isn't the number of bytes.
    #[error("the entry's size is wrong")]
    Size,
    #[error("the entry has another version")]
    Version,
    #[error("the entry has the lock type {value}, and 3 is the last")]
    LockType { value: u8 },
    /// A name has no NUL, or not 1 to 512 units, or something follows it.
    #[error("a name of the entry is ill-formed")]
    NameForm,
    #[error("the entry's OffsetToName is wrong")]
    Offset,
    #[error("the entry's name has {count} wildcards, of which 254 are allowed")]
    Wildcards { count: u32 },
    #[error("the entry's least size is above its greatest")]
    MinAboveMax,
    #[error("out of memory")]
    OutOfMemory,
}
