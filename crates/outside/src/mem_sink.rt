ghost use Rattle.std.specs.Prelude.{◌≡◌, ◌≤◌, ◌<◌, ◌-◌, ◌++◌, [], ◌⊎◌, ◌↔◌, Some, length, take, is_some, vec_len, IsErr, OnOk, OnErr, Contains};
ghost use Rattle.std.specs.Io.KnownBytes.{Appends};
ghost use Rattle.outside.specs.Faults.{HasCause, one_more};
ghost use Rattle.outside.specs.Written.{AppendsPart};

use crate::call_numbers::is_listed;
use crate::{Failed, Sink};
use std::marker::Model;

/// A sink in memory of a fixed room, whose calls fail at given numbers.
#[derive(Debug, Drop)]
pub struct MemSink {
    room: Vec<u8>,
    filled: usize,
    fails: Vec<u32>,
    calls: u64,
    faults: u64,
}

impl Model for MemSink {
    ghost use Rattle.std.specs.Prelude.{◌≤◌, ◌-◌, take, vec_len};
    ghost use Rattle.outside.specs.MemSink.{Shelf};

    ghost Value = { Shelf };

    ghost view = { λ s. record {
      held = take s.filled s.room.items;
      space = vec_len s.room - s.filled;
      fails = s.fails.items;
      calls = s.calls;
      faults = s.faults;
    } };

    ghost invariant = { λ s. s.filled ≤ vec_len s.room };
}

impl MemSink {
    /// A sink that fills this room from its front, whose calls fail at the numbers listed, counted from 0.
    pub fn new(room: Vec<u8>, fails: Vec<u32>) -> Self
        ensures { result ≡ record { held = []; space = vec_len room; fails = fails.items; calls = 0; faults = 0 } }
    {
        MemSink {
            room,
            filled: 0,
            fails,
            calls: 0,
            faults: 0,
        }
    }

    /// The bytes that it holds.
    pub fn bytes(&self) -> &[u8]
        ensures { result.now ≡ self.now.held }
    {
        &self.room[..self.filled]
    }
}

impl Sink for MemSink {
    ghost holds = { λ s. Some s.held };

    ghost fault_count = { λ s. s.faults };

    /// Appends the bytes, and fails exactly where this call's number is listed or they don't fit; then it holds what it held.
    fn write(&mut self, bytes: &[u8]) -> Result<(), Failed>
        ensures causes { IsErr result ↔ (Contains self.old.fails self.old.calls ⊎ (self.old.space < length bytes.now)) }
        ensures gained { OnOk result (self.new ≡ record self.old { held = self.old.held ++ bytes.now; space = self.old.space - length bytes.now; calls = one_more self.old.calls }) }
        ensures err { OnErr result (self.new ≡ record self.old { calls = one_more self.old.calls; faults = one_more self.old.faults }) }

        ensures ok { OnOk result (Appends (Some self.old.held) (Some self.new.held) bytes.now) }
        ensures part { OnErr result (AppendsPart (Some self.old.held) (Some self.new.held) bytes.now) }
        ensures told { is_some (Some self.new.held) ≡ is_some (Some self.old.held) }
        ensures cause { HasCause self.old.faults self.new.faults result }
    {
        let call = self.calls;
        self.calls = call.saturating_add(1);
        let space = self.room.len() - self.filled;
        if is_listed(&self.fails, call) || space < bytes.len() {
            self.faults = self.faults.saturating_add(1);
            return Err(Failed);
        }
        let end = self.filled + bytes.len();
        self.room[self.filled..end].copy_from_slice(bytes);
        self.filled = end;
        Ok(())
    }
}
