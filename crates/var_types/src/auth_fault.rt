use crate::Stamp;
use thiserror::Error;

/// A time-based set isn't let through (UEFI 2.10, 8.2.3).
#[derive(Clone, Copy, Debug, PartialEq, Eq, Error)]
pub enum AuthFault {
    /// The signature was found to be none that counts.
    #[error("the signature was refused")]
    Verdict,
    /// The new time stamp isn't later than the one that the variable has.
    #[error("the time stamp isn't later than the stored one")]
    Stamp { stored: Stamp, new: Stamp },
}
