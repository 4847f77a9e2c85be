use thiserror::Error;

/// Why a change of the store was not made.
#[derive(Clone, Copy, Debug, PartialEq, Eq, Error)]
pub enum StoreFault {
    /// The store's variables with the new one need more room than the store has; both in bytes.
    #[error("{need} bytes are needed, and {have} are there")]
    NoRoom { need: u32, have: u32 },
    /// A call of the flash failed: the change is in doubt.
    #[error("a call of the flash failed")]
    Device,
}
