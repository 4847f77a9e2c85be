ghost use Rattle.std.specs.Prelude.{◌≡◌, ◌==◌};
ghost use Rattle.std.specs.List.{list_any};
ghost use Rattle.flash_dev.specs.MemFlash.{fate_of, is_stop, is_stopped};

use crate::fault_plan::{FaultPlan, Torn};

/// What becomes of a call of a flash in memory.
#[derive(Clone, Copy, Debug, PartialEq, Eq)]
pub(crate) enum Fate {
    /// It is done.
    Done,
    /// It fails, and leaves what a torn call leaves.
    Torn(Torn),
    /// It fails with no effect.
    Lost,
}

fn is_stopped(stop_at: Option<u32>, call: u32) -> bool
    ensures { result ≡ is_stopped stop_at call }
{
    match stop_at {
        Some(stop) => stop < call,
        None => false,
    }
}

fn is_stop(stop_at: Option<u32>, call: u32) -> bool
    ensures { result ≡ is_stop stop_at call }
{
    match stop_at {
        Some(stop) => stop == call,
        None => false,
    }
}

fn is_listed(fails: &[u32], call: u32) -> bool
    ensures { result ≡ list_any (λ n. n == call) fails.now }
{
    fails.iter().any(|n| *n == call)
}

/// What becomes of the call of this number.
pub(crate) fn fate_of(plan: &FaultPlan, call: u32) -> Fate
    ensures { result ≡ fate_of plan.now call }
{
    if is_stopped(plan.stop_at, call) {
        return Fate::Lost;
    }
    if is_stop(plan.stop_at, call) || is_listed(&plan.fails, call) {
        return Fate::Torn(plan.torn);
    }
    Fate::Done
}
