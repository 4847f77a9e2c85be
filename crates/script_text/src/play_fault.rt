ghost use Rattle.std.specs.Prelude.{◌≡◌};
ghost use Rattle.script_text.specs.declared.play_fault.PlayFault.TheVariants.{OutOfMemory};
ghost use Rattle.script_text.specs.PlayFaults.{as_play_fault};

use crate::{LineReason, ScriptFault};
use std::alloc::{AllocError, AllocFailed};
use thiserror::Error;

/// Why a script with a schedule is refused.
#[derive(Clone, Copy, Debug, PartialEq, Eq, Error)]
pub enum PlayFault {
    /// A line is of no form; lines are numbered from 1, those passed over included.
    #[error("line {number}: {reason}")]
    Line { number: u32, reason: LineReason },
    /// There are more bytes than a script may have.
    #[error("more than {bytes} bytes")]
    TooLong { bytes: u32 },
    /// A processor has more calls than it may have.
    #[error("processor {processor} has more than {limit} calls")]
    TooManyCalls { processor: u8, limit: u32 },
    /// A line of the schedule is for a processor that the script doesn't have.
    #[error("line {line}: the script has no such processor")]
    Actor { line: u32 },
    #[error("out of memory")]
    OutOfMemory,
}

impl From<ScriptFault> for PlayFault {
    ghost from_gives = { λ fault e. e ≡ as_play_fault fault };

    fn from(fault: ScriptFault) -> Self {
        match fault {
            ScriptFault::Line { number, reason } => PlayFault::Line { number, reason },
            ScriptFault::TooLong { bytes } => PlayFault::TooLong { bytes },
            ScriptFault::TooManyCalls { processor, limit } => {
                PlayFault::TooManyCalls { processor, limit }
            }
            ScriptFault::OutOfMemory => PlayFault::OutOfMemory,
        }
    }
}

impl From<AllocError> for PlayFault {
    ghost from_gives = { λ _ e. e ≡ OutOfMemory };

    fn from(_: AllocError) -> Self {
        PlayFault::OutOfMemory
    }
}

impl<T: Drop> From<AllocFailed<T>> for PlayFault {
    ghost from_gives = { λ _ e. e ≡ OutOfMemory };

    fn from(_: AllocFailed<T>) -> Self {
        PlayFault::OutOfMemory
    }
}
