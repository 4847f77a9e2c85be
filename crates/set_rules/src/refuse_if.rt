ghost use Rattle.std.specs.Prelude.{◌≡◌};
ghost use Rattle.var_types.specs.SetCases.{refuse_if};

use var_types::{Decision, SetReason};

/// A refusal, where a test holds.
pub(crate) fn refuse_if(holds: bool, reason: SetReason) -> Option<Decision>
    ensures { result ≡ refuse_if holds reason }
{
    if holds {
        Some(Decision::Refuse(reason))
    } else {
        None
    }
}
