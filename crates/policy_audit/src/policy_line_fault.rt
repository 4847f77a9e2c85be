ghost use Rattle.std.specs.Prelude.{◌≡◌};
ghost use Rattle.policy_audit.specs.declared.policy_line_fault.PolicyLineFault.TheVariants.{OutOfMemory as LacksMemory, Reason};

use crate::PolicyLine;
use std::alloc::{AllocError, AllocFailed};
use var_types::OutOfMemory;

/// Why a line was not read.
#[derive(Clone, Copy, Debug, PartialEq, Eq)]
pub enum PolicyLineFault {
    Reason(PolicyLine),
    OutOfMemory,
}

impl From<PolicyLine> for PolicyLineFault {
    ghost from_gives = { λ reason e. e ≡ Reason reason };

    fn from(reason: PolicyLine) -> Self {
        PolicyLineFault::Reason(reason)
    }
}

impl From<OutOfMemory> for PolicyLineFault {
    ghost from_gives = { λ _ e. e ≡ LacksMemory };

    fn from(_: OutOfMemory) -> Self {
        PolicyLineFault::OutOfMemory
    }
}

impl From<AllocError> for PolicyLineFault {
    ghost from_gives = { λ _ e. e ≡ LacksMemory };

    fn from(_: AllocError) -> Self {
        PolicyLineFault::OutOfMemory
    }
}

impl<T: Drop> From<AllocFailed<T>> for PolicyLineFault {
    ghost from_gives = { λ _ e. e ≡ LacksMemory };

    fn from(_: AllocFailed<T>) -> Self {
        PolicyLineFault::OutOfMemory
    }
}
