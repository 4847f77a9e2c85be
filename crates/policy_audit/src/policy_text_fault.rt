use crate::PolicyLine;
use thiserror::Error;

/// Why a policy text is refused.
#[derive(Clone, Copy, Debug, PartialEq, Eq, Error)]
pub enum PolicyTextFault {
    /// There are more bytes than a policy text may have.
    #[error("more than {bytes} bytes")]
    TooLong { bytes: u32 },
    /// A line is refused; lines are numbered from 1, those passed over included.
    #[error("line {number}: {reason}")]
    Line { number: u32, reason: PolicyLine },
    #[error("out of memory")]
    OutOfMemory,
}
