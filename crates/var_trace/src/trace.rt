ghost use Rattle.std.specs.Prelude.{◌≡◌, ◌==◌, ◌<◌, ◌≤◌, [], ◌∷◌, ◌++◌, length, slice_get, IfOk, Some};
ghost use Rattle.std.specs.Option.{option_map};

use crate::{Change, Delta, Entry};
use std::alloc::Global;
use std::marker::Model;
use var_types::OutOfMemory;

/// The changes so far, which only grow: it takes the memory for as many as its limit when it is made, and none later.
#[derive(Debug, Drop)]
pub struct Trace {
    changes: Vec<Change>,
    limit: u64,
}

impl Model for Trace {
    ghost use Rattle.std.specs.Prelude.{◌≤◌, vec_capacity, vec_len};
    ghost use Rattle.var_trace.specs.Recorded.{Recorded};

    ghost Value = { Recorded };

    ghost view = { λ t. record { log = t.changes.items; limit = t.limit } };

    ghost invariant = { λ t. (t.limit ≤ vec_capacity t.changes) × (vec_len t.changes ≤ t.limit) };
}

impl Trace {
    /// No change, with memory for as many as the limit.
    pub fn with_room(alloc: Global, limit: u64) -> Result<Trace, OutOfMemory>
        ensures { IfOk result (λ trace. trace ≡ record { log = []; limit = limit }) }
    {
        Ok(Trace {
            changes: Vec::with_capacity(alloc, limit as usize)?,
            limit,
        })
    }

    pub fn len(&self) -> u64
        ensures len { result ≡ length self.now.log }
        ensures room { length self.now.log ≤ self.now.limit }
    {
        self.changes.len() as u64
    }

    pub fn is_empty(&self) -> bool
        ensures { result ≡ (length self.now.log == 0) }
    {
        self.changes.is_empty()
    }

    /// How many changes it may have.
    pub fn limit(&self) -> u64
        ensures { result ≡ self.now.limit }
    {
        self.limit
    }

    pub fn changes(&self) -> &[Change]
        ensures { result.now ≡ self.now.log }
    {
        self.changes.as_slice()
    }

    /// The entry of the change of this number.
    pub fn entry(&self, number: u64) -> &Entry
        requires { number < length self.now.log }
        ensures { Some result.now ≡ option_map (λ change. change.entry) (slice_get self.now.log number) }
    {
        &self.changes[number as usize].entry
    }

    /// What the change of this number turned in the stores' bytes.
    pub fn delta(&self, number: u64) -> &Delta
        requires { number < length self.now.log }
        ensures { Some result.now ≡ option_map (λ change. change.delta) (slice_get self.now.log number) }
    {
        &self.changes[number as usize].delta
    }

    /// Records one more change; takes no memory.
    pub fn push(&mut self, entry: Entry, delta: Delta)
        requires { length self.old.log < self.old.limit }
        ensures { self.new ≡ record self.old { log = self.old.log ++ record { entry = entry; delta = delta } ∷ [] } }
    {
        self.changes.push_reserved(Change { entry, delta });
    }
}
