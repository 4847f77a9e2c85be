ghost use Rattle.std.specs.Prelude.{◌≡◌, ◌<◌, ◌≤◌, [], ◌∷◌, ◌++◌, length, IfOk};

use std::alloc::Global;
use std::marker::Model;
use var_types::{Answered, OutOfMemory};

/// The answered calls of one processor, in order: it takes the memory for as many as its limit when it is made, and none later.
#[derive(Debug, Drop)]
pub struct Answers {
    answered: Vec<Answered>,
    limit: u64,
}

impl Model for Answers {
    ghost use Rattle.std.specs.Prelude.{◌≤◌, vec_capacity, vec_len};
    ghost use Rattle.var_trace.specs.Answers.{AnsweredCalls};

    ghost Value = { AnsweredCalls };

    ghost view = { λ a. record { answered = a.answered.items; limit = a.limit } };

    ghost invariant = { λ a. (a.limit ≤ vec_capacity a.answered) × (vec_len a.answered ≤ a.limit) };
}

impl Answers {
    /// No answered call, with memory for as many as the limit.
    pub fn with_room(alloc: Global, limit: u64) -> Result<Answers, OutOfMemory>
        ensures { IfOk result (λ answers. answers ≡ record { answered = []; limit = limit }) }
    {
        Ok(Answers {
            answered: Vec::with_capacity(alloc, limit as usize)?,
            limit,
        })
    }

    pub fn as_slice(&self) -> &[Answered]
        ensures answered { result.now ≡ self.now.answered }
        ensures room { length self.now.answered ≤ self.now.limit }
    {
        self.answered.as_slice()
    }

    /// One more answered call; takes no memory.
    pub fn push(&mut self, answered: Answered)
        requires { length self.old.answered < self.old.limit }
        ensures { self.new ≡ record self.old { answered = self.old.answered ++ answered ∷ [] } }
    {
        self.answered.push_reserved(answered);
    }
}
