ghost use Rattle.std.specs.Prelude.{◌≡◌, ◌+◌, ◌/◌, ◌≤◌, length, min, IfOk, Some};
ghost use Rattle.var_types.specs.Answers.{get_answer, next_answer};
ghost use Rattle.var_types.specs.Get.{get_reply};
ghost use Rattle.var_types.specs.Layout.{longest_region, volatile_size, volume_size};
ghost use Rattle.var_types.specs.Next.{next_reply};
ghost use Rattle.var_types.specs.Placed.{placed};
ghost use Rattle.var_types.specs.Stores.{HaveSizes, bytes_in, map_in, state_in, store_region, with_store};
ghost use Rattle.var_types.specs.TwoRegions.{AreApart};
ghost use Rattle.var_types.specs.declared.store.Store.TheVariants.{NonVolatile, Volatile};
ghost use Rattle.runtime_cache.specs.Merged.{merged};

use crate::get_variable::get;
use crate::next_variable_name::next;
use pending_range::Ranges;
use std::alloc::Global;
use std::marker::Model;
use var_region::{Region, region_in};
use var_types::{GetAnswer, Guid, NextAnswer, OutOfMemory, Store};

/// A copy of both stores and the phase, from which reads are answered while the writer changes its own. It takes memory when it is made, and
/// none later.
#[derive(Debug, Drop)]
pub struct Cache {
    pub(crate) non_volatile: Vec<u8>,
    pub(crate) volatile: Vec<u8>,
    runtime: bool,
}

impl Model for Cache {
    ghost use Rattle.var_types.specs.Stores.{HaveSizes, Stores};

    ghost Value = { Stores };

    ghost view = { λ c. record { non_volatile = c.non_volatile.items; volatile = c.volatile.items; runtime = c.runtime } };

    ghost invariant = { λ c. HaveSizes (record { non_volatile = c.non_volatile.items; volatile = c.volatile.items; runtime = c.runtime }) };
}

impl Cache {
    /// Copies the volume of 57,344 bytes and the volatile store of 65,536 bytes, headers included.
    pub fn make(
        alloc: Global,
        non_volatile: &[u8],
        volatile: &[u8],
        runtime: bool,
    ) -> Result<Cache, OutOfMemory>
        requires non_volatile { length non_volatile.now ≡ volume_size }
        requires volatile { length volatile.now ≡ volatile_size }
        ensures { IfOk result (λ cache. cache ≡ record { non_volatile = non_volatile.now; volatile = volatile.now; runtime = runtime }) }
    {
        Ok(Cache {
            non_volatile: non_volatile.to_vec(alloc)?,
            volatile: volatile.to_vec(alloc)?,
            runtime,
        })
    }

    fn non_volatile(&self) -> Region
        ensures { result ≡ store_region NonVolatile self.now.non_volatile }
    {
        region_in(Store::NonVolatile, &self.non_volatile)
    }

    fn volatile(&self) -> Region
        ensures { result ≡ store_region Volatile self.now.volatile }
    {
        region_in(Store::Volatile, &self.volatile)
    }

    /// Answers GetVariable; the buffer takes the data, and stays where there are none.
    #[tactic(auto, unfolding(var_types::specs::Stores::state_in))]
    pub fn get(&self, guid: &Guid, name: &[u16], room: u32, into: &mut [u8]) -> GetAnswer
        requires { min room longest_region ≤ length into.old }
        ensures { Some (result, into.new)
            ≡ get_answer (get_reply (state_in self.now) (record { guid = guid.now; name = name.now; room = room })) into.old }
    {
        get(
            &self.non_volatile(),
            &self.volatile(),
            self.runtime,
            guid,
            name,
            room,
            into,
        )
    }

    /// Answers GetNextVariableName where the stores have no key in common; the buffer takes the units of the next name, without a NUL, and stays
    /// where there is none.
    #[tactic(auto, unfolding(var_types::specs::Stores::state_in, var_types::specs::Stores::map_in))]
    pub fn next(&self, guid: &Guid, name: &[u16], room: u32, into: &mut [u16]) -> NextAnswer
        requires { min (room / 2) 513 ≤ length into.old }
        ensures { AreApart (map_in NonVolatile self.now.non_volatile) (map_in Volatile self.now.volatile)
            → Some (result, into.new)
            ≡ next_answer (next_reply (state_in self.now) (record { guid = guid.now; name = name.now; room = room })) into.old }
    {
        next(
            &self.non_volatile(),
            &self.volatile(),
            self.runtime,
            guid,
            name,
            room,
            into,
        )
    }

    pub fn non_volatile_bytes(&self) -> &[u8]
        ensures bytes { result.now ≡ self.now.non_volatile }
        ensures size { length self.now.non_volatile ≡ volume_size }
    {
        &self.non_volatile
    }

    pub fn volatile_bytes(&self) -> &[u8]
        ensures bytes { result.now ≡ self.now.volatile }
        ensures size { length self.now.volatile ≡ volatile_size }
    {
        &self.volatile
    }

    /// Whether the phase is runtime.
    pub fn runtime(&self) -> bool
        ensures { result ≡ self.now.runtime }
    {
        self.runtime
    }

    /// Writes bytes over those of one of its stores at an offset.
    pub fn write(&mut self, store: Store, at: u32, bytes: &[u8])
        requires { at + length bytes.now ≤ length (bytes_in self.old store) }
        ensures is { self.new ≡ with_store self.old store (placed at bytes.now (bytes_in self.old store)) }
        ensures sizes { HaveSizes self.new }
    {
        match store {
            Store::NonVolatile => write_at(&mut self.non_volatile, at, bytes),
            Store::Volatile => write_at(&mut self.volatile, at, bytes),
        }
    }

    /// Turns the phase.
    pub fn turn(&mut self, phase: bool)
        ensures is { self.new ≡ record self.old { runtime = phase } }
        ensures sizes { HaveSizes self.new }
    {
        self.runtime = phase;
    }

    /// Takes from the stores the bytes that the ranges cover, and the phase; it looks at no record.
    pub fn merge(&mut self, non_volatile: &[u8], volatile: &[u8], runtime: bool, ranges: &Ranges)
        requires non_volatile { length non_volatile.now ≡ volume_size }
        requires volatile { length volatile.now ≡ volatile_size }
        ensures is { self.new
            ≡ merged ranges.now self.old (record { non_volatile = non_volatile.now; volatile = volatile.now; runtime = runtime }) }
        ensures sizes { HaveSizes self.new }
    {
        ranges.copy_covered(Store::NonVolatile, non_volatile, &mut self.non_volatile);
        ranges.copy_covered(Store::Volatile, volatile, &mut self.volatile);
        self.runtime = runtime;
    }
}

// Writes bytes over others at an offset.
#[tactic(auto, unfolding(var_types::specs::Placed::placed))]
fn write_at(into: &mut [u8], at: u32, bytes: &[u8])
    requires { at + length bytes.now ≤ length into.old }
    ensures is { into.new ≡ placed at bytes.now into.old }
    ensures len { length into.new ≡ length into.old }
{
    let from = at as usize;
    into[from..from + bytes.len()].copy_from_slice(bytes);
}
