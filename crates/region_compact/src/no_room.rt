use thiserror::Error;

/// A compacted region doesn't fit its buffer; both in bytes.
#[derive(Clone, Copy, Debug, PartialEq, Eq, Error)]
#[error("{need} bytes are needed, and {have} are there")]
pub struct NoRoom {
    pub need: u32,
    pub have: u32,
}
