ghost use Rattle.std.specs.Prelude.{◌≡◌, ◌<◌, ◌≤◌, [], ◌∷◌, ◌++◌, length, slice_get, IfSome};
ghost use Rattle.var_trace.specs.Session.{calls_answered, with_answered};

use crate::{Answers, Change, Trace};
use std::marker::Model;
use var_types::Answered;

/// What happened: the history, and for each processor its answered calls.
#[derive(Debug, Drop)]
pub struct Session {
    pub entries: Trace,
    pub processors: Vec<Answers>,
}

impl Model for Session {
    ghost use Rattle.var_trace.specs.Session.{SessionParts};

    ghost Value = { SessionParts };

    ghost view = { λ s. record { entries = s.entries; processors = s.processors.items } };
}

impl Session {
    /// How many changes there are.
    pub fn made(&self) -> u64
        ensures made { result ≡ length self.now.entries.log }
        ensures room { length self.now.entries.log ≤ self.now.entries.limit }
    {
        self.entries.len()
    }

    /// The answered calls of a processor.
    pub fn answered(&self, processor: usize) -> &[Answered]
        requires { processor < length self.now.processors }
        ensures { result.now ≡ calls_answered self.now.processors processor }
    {
        self.processors[processor].as_slice()
    }

    /// Records a change; takes no memory.
    pub fn push(&mut self, change: Change)
        requires { length self.old.entries.log < self.old.entries.limit }
        ensures { self.new ≡ record self.old { entries = record self.old.entries { log = self.old.entries.log ++ change ∷ [] } } }
    {
        self.entries.push(change.entry, change.delta);
    }

    /// Puts an answered call behind a processor's others; takes no memory.
    pub fn answer(&mut self, processor: usize, answered: Answered)
        requires known { processor < length self.old.processors }
        requires room { IfSome (slice_get self.old.processors processor) (λ answers. length answers.answered < answers.limit) }
        ensures { self.new ≡ record self.old { processors = with_answered self.old.processors processor answered } }
    {
        push_answer(&mut self.processors, processor, answered);
    }
}

fn push_answer(processors: &mut [Answers], processor: usize, answered: Answered)
    requires known { processor < length processors.old }
    requires room { IfSome (slice_get processors.old processor) (λ answers. length answers.answered < answers.limit) }
    ensures { processors.new ≡ with_answered processors.old processor answered }
{
    processors[processor].push(answered);
}
