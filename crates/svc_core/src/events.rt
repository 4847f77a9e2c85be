//! When a processor's step changes nothing, and what a loss of power does to the machine.
ghost use Rattle.std.specs.Prelude.{◌≡◌, ◌<◌, ◌∷◌, true, false, length, List};
ghost use Rattle.var_types.specs.declared.call.Call as declared_call;
ghost use Rattle.std.specs.Option.{option_copied};
ghost use Rattle.svc_core.specs.Events.{IsToEnter};
ghost use Rattle.svc_core.specs.Power.{step_at};
ghost use Rattle.svc_core.specs.Machine.{IsPowerLost, IsReady, IsStillOf, NextFits};

use crate::FlashStep;
use crate::look::is_read;
use crate::machine::Machine;
use crate::point::Point;
use flash_dev::Torn;
use var_types::Call;

// Whether a processor at a point is to take the writer's lock in this call.
fn is_to_enter(point: &Point, call: &Call) -> bool
    ensures yes { result ≡ true → (later : List declared_call.Call) → IsToEnter point.now (call.now ∷ later) }
    ensures no { result ≡ false → (later : List declared_call.Call) → IsToEnter point.now (call.now ∷ later) → ⊥ }
{
    match point {
        Point::Start => !is_read(call),
        Point::MergeEnter { .. } | Point::AskEnter { .. } => true,
        _ => false,
    }
}

impl Machine {
    /// Whether a processor's step changes nothing.
    pub(crate) fn is_still(&self, p: u8) -> bool
        ensures still { result ≡ true → IsStillOf self.now p }
        ensures within { result ≡ false → p < length self.now.progress.processors }
        ensures ready { result ≡ false → IsReady self.now p }
    {
        (p as usize) >= self.progress.len() || self.is_stuck(p)
    }

    fn is_stuck(&self, p: u8) -> bool
        requires { p < length self.now.progress.processors }
        ensures still { result ≡ true → IsStillOf self.now p }
        ensures ready { result ≡ false → IsReady self.now p }
    {
        match self.progress.call(p as usize) {
            None => true,
            Some(call) => {
                self.writer_lock != 0 && is_to_enter(self.progress.point(p as usize), call)
            }
        }
    }

    /// Loses power: the flash step that comes next is torn this way.
    pub(crate) fn lose_power(&mut self, torn: Torn)
        requires { NextFits self.old }
        ensures { IsPowerLost self.old torn self.new }
    {
        if self.writer_lock == 0 {
            return;
        }
        if self.writer_lock as usize > self.progress.len() {
            return;
        }
        match step_at(self.progress.point(self.writer_lock as usize - 1)) {
            None => (),
            Some(step) => self.flash.tear(torn, step),
        }
    }
}

// The flash step that a point is before.
fn step_at(point: &Point) -> Option<&FlashStep>
    ensures { option_copied result ≡ step_at point.now }
{
    match point {
        Point::Write { steps, .. } => steps.first(),
        _ => None,
    }
}
