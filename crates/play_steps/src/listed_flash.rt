ghost use Rattle.std.specs.Prelude.{◌≡◌, ◌+◌, ◌*◌, ◌≤◌, [], ◌∷◌, ◌++◌, Some, IfSome, length, take, drop, refl, OnOk, OnErr, IsOk};
ghost use Rattle.outside.specs.Faults.{HasCause, one_more};
ghost use Rattle.flash_dev.specs.Rules.{IsEraseLeft, IsKept, IsProgramLeft, Leaves, block_filled, programmed};
ghost use Rattle.play_steps.specs.ListedFlash.{GivesList, IsLeftSince, StaysListed, bytes_of, listed, moment_of};
ghost use Rattle.play_steps.specs.Told.{now_left, only_now_left};
ghost use Rattle.svc_core.specs.declared.flash_step.FlashStep.TheVariants.{Erase, Program};
ghost use Rattle.var_types.specs.Layout.{block_size, image_size};

use flash_dev::{Device, Flash, fill_block, program_at};
use nv_store::Lists;
use std::alloc::Global;
use std::marker::Model;
use std::mem::replace;
use std::snapshot::Snapshot;
use svc_core::FlashStep;
use var_types::{Bytes, OutOfMemory};

/// A flash in memory that lists its steps, for each of which it takes the memory before it takes the step. No call fails but for want of that
/// memory.
#[derive(Drop)]
pub struct ListedFlash {
    bytes: Vec<u8>,
    steps: Vec<FlashStep>,
    faults: u64,
    first: Snapshot<Vec<u8>>,
}

impl Model for ListedFlash {
    ghost use Rattle.play_steps.specs.ListedFlash.{IsListed, ListedState};

    ghost Value = { ListedState };

    ghost view = { λ f. record { first = f.first.value.items; steps = f.steps.items; faults = f.faults } };

    ghost invariant = { λ f. IsListed f.bytes.items f.first.value.items f.steps.items };
}

fn list_program(steps: &mut Vec<FlashStep>, at: u32, bytes: &[u8]) -> Result<(), OutOfMemory>
    ensures done { OnOk result (steps.new.items ≡ steps.old.items ++ Program at bytes.now ∷ []) }
    ensures fails { OnErr result (steps.new.items ≡ steps.old.items) }
{
    let bytes = Bytes::copy(*steps.allocator(), bytes)?;
    steps.push(FlashStep::Program { at, bytes })?;
    Ok(())
}

fn list_erase(steps: &mut Vec<FlashStep>, block: u32) -> Result<(), OutOfMemory>
    ensures done { OnOk result (steps.new.items ≡ steps.old.items ++ Erase block ∷ []) }
    ensures fails { OnErr result (steps.new.items ≡ steps.old.items) }
{
    steps.push(FlashStep::Erase { block })?;
    Ok(())
}

fn program_held(held: &mut Vec<u8>, at: u32, bytes: &[u8])
    requires { at + length bytes.now ≤ length held.old.items }
    ensures changed { held.new.items ≡ programmed at bytes.now held.old.items }
    ensures left { IsProgramLeft at bytes.now held.old.items held.new.items }
    ensures size { length held.new.items ≡ length held.old.items }
{
    program_at(held, at, bytes);
}

fn erase_held(held: &mut Vec<u8>, block: u32)
    requires { block_size * block + block_size ≤ length held.old.items }
    ensures changed { held.new.items ≡ block_filled block 0xFF held.old.items }
    ensures left { IsEraseLeft block held.old.items held.new.items }
    ensures size { length held.new.items ≡ length held.old.items }
{
    fill_block(held, block, 0xFF);
}

impl ListedFlash {
    /// A flash of these bytes, with nothing listed.
    pub fn new(alloc: Global, bytes: Vec<u8>) -> Self
        requires { length bytes.items ≡ image_size }
        ensures { result ≡ record { first = bytes.items; steps = []; faults = 0 } }
    {
        let first = Snapshot::of(&bytes);
        ListedFlash {
            bytes,
            steps: Vec::new(alloc),
            faults: 0,
            first,
        }
    }

    /// The bytes now.
    pub fn bytes(&self) -> &[u8]
        ensures bytes { result.now ≡ bytes_of self.now }
        ensures size { length result.now ≡ image_size }
    {
        &self.bytes
    }
}

impl Flash for ListedFlash {
    ghost size = { λ f. length (bytes_of f) };

    ghost holds = { λ f. Some (bytes_of f) };

    ghost fault_count = { λ f. f.faults };

    ghost moment = { moment_of };

    ghost left_since = { IsLeftSince };

    fn len(&self) -> u64 {
        self.bytes.len() as u64
    }

    fn faults(&self) -> u64 {
        self.faults
    }

    /// Reads; never fails.
    fn read(&mut self, at: u32, into: &mut [u8]) -> Result<(), Device>
        requires { at + length into.old ≤ length (bytes_of self.old) }
        ensures done { IsOk result }
        ensures same { self.new ≡ self.old }

        ensures bytes { OnOk result (IfSome (Some (bytes_of self.old)) (λ image. into.new ≡ take (length into.old) (drop at image))) }
        ensures kept { Some (bytes_of self.new) ≡ Some (bytes_of self.old) }
        ensures size { length (bytes_of self.new) ≡ length (bytes_of self.old) }
        ensures at_any_moment { StaysListed IsKept self.old self.new }
        ensures cause { HasCause self.old.faults self.new.faults result }
    {
        into.copy_from_slice(&self.bytes[at as usize..][..into.len()]);
        Ok(())
    }

    /// Programs and lists it, or, out of memory for the list, fails and changes nothing.
    fn program(&mut self, at: u32, bytes: &[u8]) -> Result<(), Device>
        requires { at + length bytes.now ≤ length (bytes_of self.old) }
        ensures done { OnOk result (self.new ≡ listed self.old (Program at bytes.now)) }
        ensures fails { OnErr result (self.new ≡ record self.old { faults = one_more self.old.faults }) }

        ensures programmed { OnOk result (Leaves (λ image left. left ≡ programmed at bytes.now image) (Some (bytes_of self.old)) (Some (bytes_of self.new))) }
        ensures size { length (bytes_of self.new) ≡ length (bytes_of self.old) }
        ensures at_any_moment { StaysListed (IsProgramLeft at bytes.now) self.old self.new }
        ensures cause { HasCause self.old.faults self.new.faults result }
    {
        match list_program(&mut self.steps, at, bytes) {
            Ok(()) => {
                program_held(&mut self.bytes, at, bytes);
                Ok(())
            }
            Err(OutOfMemory) => {
                self.faults = self.faults.saturating_add(1);
                Err(Device)
            }
        }
    }

    /// Erases and lists it, or, out of memory for the list, fails and changes nothing.
    fn erase(&mut self, block: u32) -> Result<(), Device>
        requires { block_size * block + block_size ≤ length (bytes_of self.old) }
        ensures done { OnOk result (self.new ≡ listed self.old (Erase block)) }
        ensures fails { OnErr result (self.new ≡ record self.old { faults = one_more self.old.faults }) }

        ensures erased { OnOk result (Leaves (λ image left. left ≡ block_filled block 0xFF image) (Some (bytes_of self.old)) (Some (bytes_of self.new))) }
        ensures size { length (bytes_of self.new) ≡ length (bytes_of self.old) }
        ensures at_any_moment { StaysListed (IsEraseLeft block) self.old self.new }
        ensures cause { HasCause self.old.faults self.new.faults result }
    {
        match list_erase(&mut self.steps, block) {
            Ok(()) => {
                erase_held(&mut self.bytes, block);
                Ok(())
            }
            Err(OutOfMemory) => {
                self.faults = self.faults.saturating_add(1);
                Err(Device)
            }
        }
    }

    ghost sized = { λ f. refl };

    ghost counts_now = { λ f t left early now. now_left f t left now };

    ghost only_now = { λ f left since. only_now_left f left since };
}

impl Lists for ListedFlash {
    type List = Vec<FlashStep>;

    ghost gives = { λ old list new. GivesList old list.items new };

    fn give_list(&mut self) -> Vec<FlashStep> {
        let empty = Vec::new(*self.steps.allocator());
        self.first = Snapshot::of(&self.bytes);
        replace(&mut self.steps, empty)
    }
}
