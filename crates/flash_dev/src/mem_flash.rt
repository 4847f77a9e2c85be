ghost use Rattle.std.specs.Prelude.{◌≡◌, ◌↔◌, ◌+◌, ◌*◌, ◌≤◌, Some, IfSome, IsOk, length, take, drop, refl, OnOk, OnErr};
ghost use Rattle.outside.specs.Faults.{HasCause, one_more};
ghost use Rattle.flash_dev.specs.declared.fate.Fate.TheVariants.{Done};
ghost use Rattle.flash_dev.specs.MemFlash.{StaysInMemory, fate_of, fated_erase, fated_program, next_call};
ghost use Rattle.flash_dev.specs.Rules.{IsEraseLeft, IsKept, IsProgramLeft, Leaves, block_filled, programmed};
ghost use Rattle.flash_dev.specs.Told.{bytes_told};
ghost use Rattle.var_types.specs.Layout.{block_size};

use crate::fate::{Fate, fate_of};
use crate::fated_bytes::{erase_by, program_by};
use crate::fault_plan::FaultPlan;
use crate::{Device, Flash};
use std::marker::Model;

/// A flash in memory, of which calls fail and are torn by a plan. Its calls take no memory.
#[derive(Debug, Drop)]
pub struct MemFlash {
    bytes: Vec<u8>,
    plan: FaultPlan,
    calls: u32,
    faults: u64,
}

impl Model for MemFlash {
    ghost use Rattle.flash_dev.specs.MemFlash.{MemoryState};

    ghost Value = { MemoryState };

    ghost view = { λ m. record { bytes = m.bytes.items; plan = m.plan; calls = m.calls; faults = m.faults } };
}

impl MemFlash {
    /// A flash of these bytes.
    pub fn new(bytes: Vec<u8>, plan: FaultPlan) -> Self
        ensures { result ≡ record { bytes = bytes.items; plan = plan; calls = 0; faults = 0 } }
    {
        MemFlash {
            bytes,
            plan,
            calls: 0,
            faults: 0,
        }
    }

    /// How many calls of read, program and erase were made; the number stands still at the greatest `u32`.
    pub fn calls(&self) -> u32
        ensures { result ≡ self.now.calls }
    {
        self.calls
    }

    /// The bytes now.
    pub fn bytes(&self) -> &[u8]
        ensures { result.now ≡ self.now.bytes }
    {
        &self.bytes
    }

    /// The bytes now, without a copy.
    pub fn release(self) -> Vec<u8>
        ensures { result.items ≡ self.bytes }
    {
        self.bytes
    }

    // Counts a call, and a failure of it, and says what becomes of it.
    fn begin(&mut self) -> Fate
        ensures fate { result ≡ fate_of self.old.plan self.old.calls }
        ensures done { result ≡ Done → self.new ≡ record self.old { calls = next_call self.old.calls } }
        ensures fails { ¬ (result ≡ Done) → self.new ≡ record self.old { calls = next_call self.old.calls; faults = one_more self.old.faults } }
        ensures never_falls { self.old.faults ≤ self.new.faults }
    {
        let fate = fate_of(&self.plan, self.calls);
        self.calls = self.calls.saturating_add(1);
        if fate != Fate::Done {
            self.faults = self.faults.saturating_add(1);
        }
        fate
    }

    fn program_held(&mut self, fate: Fate, at: u32, bytes: &[u8])
        requires { at + length bytes.now ≤ length self.old.bytes }
        ensures changed { self.new ≡ record self.old { bytes = fated_program fate at bytes.now self.old.bytes } }
        ensures left { IsProgramLeft at bytes.now self.old.bytes self.new.bytes }
        ensures size { length self.new.bytes ≡ length self.old.bytes }
    {
        program_by(fate, &mut self.bytes, at, bytes);
    }

    fn erase_held(&mut self, fate: Fate, block: u32)
        requires { block_size * block + block_size ≤ length self.old.bytes }
        ensures changed { self.new ≡ record self.old { bytes = fated_erase fate block self.old.bytes } }
        ensures left { IsEraseLeft block self.old.bytes self.new.bytes }
    {
        erase_by(fate, &mut self.bytes, block);
    }
}

impl Flash for MemFlash {
    ghost size = { λ m. length m.bytes };

    ghost holds = { λ m. Some m.bytes };

    ghost fault_count = { λ m. m.faults };

    ghost moment = { λ _. 0 };

    // No call is kept: what a power loss may have left is told as the bytes now.
    ghost left_since = { λ m _ left. left ≡ m.bytes };

    fn len(&self) -> u64 {
        self.bytes.len() as u64
    }

    fn faults(&self) -> u64 {
        self.faults
    }

    /// Reads, or fails as planned, with the piece as it was.
    fn read(&mut self, at: u32, into: &mut [u8]) -> Result<(), Device>
        requires { at + length into.old ≤ length self.old.bytes }
        ensures planned { IsOk result ↔ (fate_of self.old.plan self.old.calls ≡ Done) }
        ensures ok { OnOk result (self.new ≡ record self.old { calls = next_call self.old.calls }) }
        ensures err { OnErr result (self.new ≡ record self.old { calls = next_call self.old.calls; faults = one_more self.old.faults }) }
        ensures piece { OnErr result (into.new ≡ into.old) }

        ensures bytes { OnOk result (IfSome (Some self.old.bytes) (λ image. into.new ≡ take (length into.old) (drop at image))) }
        ensures kept { Some self.new.bytes ≡ Some self.old.bytes }
        ensures size { length self.new.bytes ≡ length self.old.bytes }
        ensures at_any_moment { StaysInMemory IsKept self.old self.new }
        ensures cause { HasCause self.old.faults self.new.faults result }
    {
        match self.begin() {
            Fate::Done => {
                into.copy_from_slice(&self.bytes[at as usize..][..into.len()]);
                Ok(())
            }
            Fate::Torn(_) | Fate::Lost => Err(Device),
        }
    }

    /// Programs, or fails as planned, with what a torn call leaves.
    fn program(&mut self, at: u32, bytes: &[u8]) -> Result<(), Device>
        requires { at + length bytes.now ≤ length self.old.bytes }
        ensures planned { IsOk result ↔ (fate_of self.old.plan self.old.calls ≡ Done) }
        ensures fated { self.new.bytes ≡ fated_program (fate_of self.old.plan self.old.calls) at bytes.now self.old.bytes }
        ensures plan { self.new.plan ≡ self.old.plan }
        ensures calls { self.new.calls ≡ next_call self.old.calls }
        ensures faults { OnErr result (self.new.faults ≡ one_more self.old.faults) }

        ensures programmed { OnOk result (Leaves (λ image left. left ≡ programmed at bytes.now image) (Some self.old.bytes) (Some self.new.bytes)) }
        ensures size { length self.new.bytes ≡ length self.old.bytes }
        ensures at_any_moment { StaysInMemory (IsProgramLeft at bytes.now) self.old self.new }
        ensures cause { HasCause self.old.faults self.new.faults result }
    {
        let fate = self.begin();
        self.program_held(fate, at, bytes);
        answer_of(fate)
    }

    /// Erases, or fails as planned, with what a torn call leaves.
    fn erase(&mut self, block: u32) -> Result<(), Device>
        requires { block_size * block + block_size ≤ length self.old.bytes }
        ensures planned { IsOk result ↔ (fate_of self.old.plan self.old.calls ≡ Done) }
        ensures fated { self.new.bytes ≡ fated_erase (fate_of self.old.plan self.old.calls) block self.old.bytes }
        ensures plan { self.new.plan ≡ self.old.plan }
        ensures calls { self.new.calls ≡ next_call self.old.calls }
        ensures faults { OnErr result (self.new.faults ≡ one_more self.old.faults) }

        ensures erased { OnOk result (Leaves (λ image left. left ≡ block_filled block 0xFF image) (Some self.old.bytes) (Some self.new.bytes)) }
        ensures size { length self.new.bytes ≡ length self.old.bytes }
        ensures at_any_moment { StaysInMemory (IsEraseLeft block) self.old self.new }
        ensures cause { HasCause self.old.faults self.new.faults result }
    {
        let fate = self.begin();
        self.erase_held(fate, block);
        answer_of(fate)
    }

    ghost sized = { λ m. refl };

    ghost counts_now = { λ m t left early now. bytes_told m.bytes left now };

    ghost only_now = { λ m left since. since };
}

// A call that isn't done has failed.
fn answer_of(fate: Fate) -> Result<(), Device>
    ensures { IsOk result ↔ (fate ≡ Done) }
{
    match fate {
        Fate::Done => Ok(()),
        Fate::Torn(_) | Fate::Lost => Err(Device),
    }
}
