use thiserror::Error;

/// A call of a flash failed.
#[derive(Clone, Copy, Debug, PartialEq, Eq, Error)]
#[error("a call of the flash failed")]
pub struct Device;
