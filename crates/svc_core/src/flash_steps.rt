ghost use Rattle.std.specs.Prelude.{◌≡◌, ◌≢◌, ◌==◌, drop, length, slice_get};
ghost use Rattle.std.specs.Option.{option_copied};

use crate::FlashStep;
use std::marker::Model;

/// The flash steps of a write that are left, in their order.
#[derive(Debug, Drop)]
pub struct FlashSteps {
    steps: Vec<FlashStep>,
    done: usize,
}

impl Model for FlashSteps {
    ghost use Rattle.std.specs.Prelude.{◌≤◌, List, drop, vec_len};
    ghost use Rattle.svc_core.specs.declared.flash_step.FlashStep.{FlashStep};

    ghost Value = { List FlashStep };

    ghost view = { λ s. drop s.done s.steps.items };

    ghost invariant = { λ s. s.done ≤ vec_len s.steps };
}

impl FlashSteps {
    pub(crate) fn new(steps: Vec<FlashStep>) -> FlashSteps
        ensures { result ≡ steps.items }
    {
        FlashSteps { steps, done: 0 }
    }

    /// How many they are.
    pub fn len(&self) -> usize
        ensures { result ≡ length self.now }
    {
        self.steps.len() - self.done
    }

    /// Whether none is left.
    pub fn is_empty(&self) -> bool
        ensures { result ≡ (length self.now == 0) }
    {
        self.len() == 0
    }

    /// The step that comes next.
    pub(crate) fn first(&self) -> Option<&FlashStep>
        ensures { option_copied result ≡ slice_get self.now 0 }
    {
        self.steps.get(self.done)
    }

    /// Counts one step as done.
    pub(crate) fn advance(&mut self)
        requires { length self.old ≢ 0 }
        ensures { self.new ≡ drop 1 self.old }
    {
        self.done += 1;
    }
}
