ghost use Rattle.std.specs.Prelude.{◌≡◌};
ghost use Rattle.script_text.specs.declared.line_fault.LineFault.TheVariants.{OutOfMemory, Reason};

use crate::LineReason;
use std::alloc::{AllocError, AllocFailed};

/// Why a line was not read.
#[derive(Clone, Copy, Debug, PartialEq, Eq)]
pub enum LineFault {
    Reason(LineReason),
    OutOfMemory,
}

impl From<LineReason> for LineFault {
    ghost from_gives = { λ reason e. e ≡ Reason reason };

    fn from(reason: LineReason) -> Self {
        LineFault::Reason(reason)
    }
}

impl From<AllocError> for LineFault {
    ghost from_gives = { λ _ e. e ≡ OutOfMemory };

    fn from(_: AllocError) -> Self {
        LineFault::OutOfMemory
    }
}

impl<T: Drop> From<AllocFailed<T>> for LineFault {
    ghost from_gives = { λ _ e. e ≡ OutOfMemory };

    fn from(_: AllocFailed<T>) -> Self {
        LineFault::OutOfMemory
    }
}
