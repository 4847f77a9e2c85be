ghost use Rattle.std.specs.Prelude.{◌≡◌};
ghost use Rattle.script_text.specs.declared.script_fault.ScriptFault.TheVariants.{OutOfMemory};

use crate::LineReason;
use std::alloc::{AllocError, AllocFailed};
use thiserror::Error;

/// Why a script is refused.
#[derive(Clone, Copy, Debug, PartialEq, Eq, Error)]
pub enum ScriptFault {
    /// A line is of no form; lines are numbered from 1, those passed over included.
    #[error("line {number}: {reason}")]
    Line { number: u32, reason: LineReason },
    /// There are more bytes than a script may have.
    #[error("more than {bytes} bytes")]
    TooLong { bytes: u32 },
    /// A processor has more calls than it may have.
    #[error("processor {processor} has more than {limit} calls")]
    TooManyCalls { processor: u8, limit: u32 },
    #[error("out of memory")]
    OutOfMemory,
}

impl From<AllocError> for ScriptFault {
    ghost from_gives = { λ _ e. e ≡ OutOfMemory };

    fn from(_: AllocError) -> Self {
        ScriptFault::OutOfMemory
    }
}

impl<T: Drop> From<AllocFailed<T>> for ScriptFault {
    ghost from_gives = { λ _ e. e ≡ OutOfMemory };

    fn from(_: AllocFailed<T>) -> Self {
        ScriptFault::OutOfMemory
    }
}
