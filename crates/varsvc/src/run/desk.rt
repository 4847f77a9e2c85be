ghost use Rattle.std.specs.Prelude.{◌≡◌, ◌<◌, [], ◌∷◌, ◌++◌, length, IfOk};
ghost use Rattle.var_trace.specs.Session.{answers_of};

use std::alloc::Global;
use std::marker::Model;
use var_trace::{Answers, Session, Trace};
use var_types::OutOfMemory;

/// How many processors may make calls.
const PROCESSORS: usize = 8;

/// What a run takes of memory beside the services and the room for answers: room for what a read finds, and for the answered calls of each
/// processor behind its turn.
#[derive(Drop)]
pub struct Desk {
    pub bytes: Vec<u8>,
    pub units: Vec<u16>,
    pub processors: Vec<Answers>,
}

impl Model for Desk {
    ghost use Rattle.std.specs.Prelude.{◌≡◌, ◌≤◌, List, length, map, vec_capacity};
    ghost use Rattle.var_types.specs.declared.answered.Answered.{Answered};

    // The answered calls of the processors whose turn is over.
    ghost Value = { List (List Answered) };

    ghost view = { λ d. map (λ answers. answers.answered) d.processors.items };

    ghost invariant = { λ d. (length d.bytes.items ≡ 65536) × (length d.units.items ≡ 513) × (8 ≤ vec_capacity d.processors) };
}

impl Desk {
    pub fn new(alloc: Global) -> Result<Desk, OutOfMemory>
        ensures { IfOk result (λ desk. desk ≡ []) }
    {
        Ok(Desk {
            bytes: vec![in alloc; 0u8; 65_536]?,
            units: vec![in alloc; 0u16; 513]?,
            processors: Vec::with_capacity(alloc, PROCESSORS)?,
        })
    }

    /// The processor whose turn it is.
    pub fn processor(&self) -> u8
        requires { length self.now < 8 }
        ensures { result ≡ length self.now }
    {
        self.processors.len() as u8
    }

    /// Ends the turn of the next processor; takes no memory.
    pub fn put(&mut self, answers: Answers)
        requires { length self.old < 8 }
        ensures { self.new ≡ self.old ++ answers.answered ∷ [] }
    {
        self.processors.push_reserved(answers);
    }

    /// The session of all that was answered, with its history; takes no memory.
    pub fn into_session(self, entries: Trace) -> Session
        ensures entries { result.entries ≡ entries }
        ensures answers { answers_of result ≡ self }
    {
        Session {
            entries,
            processors: self.processors,
        }
    }
}
