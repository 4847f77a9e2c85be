use var_types::{Guid, Stamp};

/// A record to be written: whose it is, and what it holds. The name is without its NUL.
#[derive(Clone, Copy, Debug)]
pub struct NewRecord<'a> {
    pub guid: Guid,
    pub name: &'a [u16],
    pub attributes: u32,
    pub stamp: Stamp,
    pub payload: &'a [u8],
}
