ghost use Rattle.std.specs.Prelude.{◌≡◌, ◌≤◌, ◌<◌, ◌↔◌, Some, length, take, drop, min, is_some, IsErr, IfOk, OnErr, Contains};
ghost use Rattle.std.specs.Io.KnownBytes.{Consumes, IsAtEnd};
ghost use Rattle.outside.specs.Faults.{HasCause, one_more};

use crate::call_numbers::is_listed;
use crate::{Failed, Source};
use std::marker::Model;

/// A source in memory, whose calls fail at given numbers.
#[derive(Debug, Drop)]
pub struct MemSource {
    bytes: Vec<u8>,
    at: usize,
    fails: Vec<u32>,
    calls: u64,
    faults: u64,
}

impl Model for MemSource {
    ghost use Rattle.std.specs.Prelude.{◌≤◌, drop, vec_len};
    ghost use Rattle.outside.specs.MemSource.{Supply};

    ghost Value = { Supply };

    ghost view = { λ s. record {
      left = drop s.at s.bytes.items;
      fails = s.fails.items;
      calls = s.calls;
      faults = s.faults;
    } };

    ghost invariant = { λ s. s.at ≤ vec_len s.bytes };
}

impl MemSource {
    /// A source of these bytes, whose calls fail at the numbers listed, counted from 0.
    pub fn new(bytes: Vec<u8>, fails: Vec<u32>) -> Self
        ensures { result ≡ record { left = bytes.items; fails = fails.items; calls = 0; faults = 0 } }
    {
        MemSource {
            bytes,
            at: 0,
            fails,
            calls: 0,
            faults: 0,
        }
    }
}

impl Source for MemSource {
    ghost left = { λ s. Some s.left };

    ghost fault_count = { λ s. s.faults };

    /// Reads as much as there is and fits, and fails exactly where this call's number is listed.
    fn read(&mut self, into: &mut [u8]) -> Result<usize, Failed>
        ensures listed { IsErr result ↔ Contains self.old.fails self.old.calls }
        ensures full { IfOk result (λ n. n ≡ min (length into.new) (length self.old.left)) }
        ensures ok { IfOk result (λ n. self.new ≡ record self.old { left = drop n self.old.left; calls = one_more self.old.calls }) }
        ensures err { OnErr result (self.new ≡ record self.old { calls = one_more self.old.calls; faults = one_more self.old.faults }) }

        ensures bound { IfOk result (λ n. n ≤ length into.new) }
        ensures bytes { IfOk result (λ n. Consumes (Some self.old.left) (Some self.new.left) (take n into.new)) }
        ensures end { IfOk result (λ n. n ≡ 0 → 0 < length into.new → IsAtEnd (Some self.new.left)) }
        ensures kept { OnErr result (Some self.new.left ≡ Some self.old.left) }
        ensures told { is_some (Some self.new.left) ≡ is_some (Some self.old.left) }
        ensures cause { HasCause self.old.faults self.new.faults result }
    {
        let call = self.calls;
        self.calls = call.saturating_add(1);
        if is_listed(&self.fails, call) {
            self.faults = self.faults.saturating_add(1);
            return Err(Failed);
        }
        let left = &self.bytes[self.at..];
        let count = left.len().min(into.len());
        into[..count].copy_from_slice(&left[..count]);
        self.at += count;
        Ok(count)
    }
}
