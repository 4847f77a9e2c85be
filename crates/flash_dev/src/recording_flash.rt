ghost use Rattle.std.specs.Prelude.{◌≡◌, ◌+◌, ◌*◌, ◌≤◌, [], ◌∷◌, ◌++◌, Some, IfSome, length, take, drop, refl, OnOk, OnErr, IsOk};
ghost use Rattle.std.specs.List.{Contains};
ghost use Rattle.outside.specs.Faults.{HasCause, one_more};
ghost use Rattle.flash_dev.specs.RecordingFlash.{StaysRecorded, images_since};
ghost use Rattle.flash_dev.specs.Rules.{IsEraseLeft, IsKept, IsProgramLeft, Leaves, block_filled, programmed};
ghost use Rattle.flash_dev.specs.Told.{now_recorded, only_recorded};
ghost use Rattle.var_types.specs.Layout.{block_size};

use crate::held_bytes::{fill_block, program_at};
use crate::{Device, Flash};
use std::alloc::Global;
use std::marker::Model;
use var_types::{Bytes, OutOfMemory};

/// A flash in memory that records its bytes before each program and each erase, for tests of what a power loss leaves: each of these images
/// is one at which power may have been lost. A call is done at once and as a whole.
#[derive(Debug, Drop)]
pub struct RecordingFlash {
    bytes: Vec<u8>,
    past: Vec<Bytes>,
    faults: u64,
}

impl Model for RecordingFlash {
    ghost use Rattle.flash_dev.specs.RecordingFlash.{RecordedState};

    ghost Value = { RecordedState };

    ghost view = { λ f. record { bytes = f.bytes.items; past = f.past.items; faults = f.faults } };
}

impl RecordingFlash {
    /// A flash of these bytes, without a past.
    pub fn new(alloc: Global, bytes: Vec<u8>) -> Self
        ensures { result ≡ record { bytes = bytes.items; past = []; faults = 0 } }
    {
        RecordingFlash {
            bytes,
            past: Vec::new(alloc),
            faults: 0,
        }
    }

    /// The bytes now.
    pub fn bytes(&self) -> &[u8]
        ensures { result.now ≡ self.now.bytes }
    {
        &self.bytes
    }

    /// The bytes before each program and each erase that was done, the oldest first.
    pub fn past(&self) -> &[Bytes]
        ensures { result.now ≡ self.now.past }
    {
        &self.past
    }

    // Records the bytes now; a call that can't has failed.
    fn begin(&mut self) -> Result<(), Device>
        ensures done { OnOk result (self.new ≡ record self.old { past = self.old.past ++ self.old.bytes ∷ [] }) }
        ensures fails { OnErr result (self.new ≡ record self.old { faults = one_more self.old.faults }) }
        ensures cause { HasCause self.old.faults self.new.faults result }
    {
        match push_copy(&mut self.past, &self.bytes) {
            Ok(()) => Ok(()),
            Err(OutOfMemory) => {
                self.faults = self.faults.saturating_add(1);
                Err(Device)
            }
        }
    }

    fn program_held(&mut self, at: u32, bytes: &[u8])
        requires { at + length bytes.now ≤ length self.old.bytes }
        ensures changed { self.new ≡ record self.old { bytes = programmed at bytes.now self.old.bytes } }
        ensures left { IsProgramLeft at bytes.now self.old.bytes self.new.bytes }
        ensures size { length self.new.bytes ≡ length self.old.bytes }
    {
        program_at(&mut self.bytes, at, bytes);
    }

    fn erase_held(&mut self, block: u32)
        requires { block_size * block + block_size ≤ length self.old.bytes }
        ensures changed { self.new ≡ record self.old { bytes = block_filled block 0xFF self.old.bytes } }
        ensures left { IsEraseLeft block self.old.bytes self.new.bytes }
    {
        fill_block(&mut self.bytes, block, 0xFF);
    }
}

fn push_copy(past: &mut Vec<Bytes>, bytes: &[u8]) -> Result<(), OutOfMemory>
    ensures done { OnOk result (past.new.items ≡ past.old.items ++ bytes.now ∷ []) }
    ensures fails { OnErr result (past.new.items ≡ past.old.items) }
{
    let image = Bytes::copy(*past.allocator(), bytes)?;
    past.push(image)?;
    Ok(())
}

impl Flash for RecordingFlash {
    ghost size = { λ f. length f.bytes };

    ghost holds = { λ f. Some f.bytes };

    ghost fault_count = { λ f. f.faults };

    // How many images are past.
    ghost moment = { λ f. length f.past };

    ghost left_since = { λ f moment left. Contains (images_since moment f) left };

    fn len(&self) -> u64 {
        self.bytes.len() as u64
    }

    fn faults(&self) -> u64 {
        self.faults
    }

    /// Reads; never fails.
    fn read(&mut self, at: u32, into: &mut [u8]) -> Result<(), Device>
        requires { at + length into.old ≤ length self.old.bytes }
        ensures done { IsOk result }
        ensures same { self.new ≡ self.old }

        ensures bytes { OnOk result (IfSome (Some self.old.bytes) (λ image. into.new ≡ take (length into.old) (drop at image))) }
        ensures kept { Some self.new.bytes ≡ Some self.old.bytes }
        ensures size { length self.new.bytes ≡ length self.old.bytes }
        ensures at_any_moment { StaysRecorded IsKept self.old self.new }
        ensures cause { HasCause self.old.faults self.new.faults result }
    {
        into.copy_from_slice(&self.bytes[at as usize..][..into.len()]);
        Ok(())
    }

    /// Programs, or, out of memory for the image before it, fails and changes nothing.
    fn program(&mut self, at: u32, bytes: &[u8]) -> Result<(), Device>
        requires { at + length bytes.now ≤ length self.old.bytes }
        ensures done { OnOk result (self.new ≡ record self.old { bytes = programmed at bytes.now self.old.bytes; past = self.old.past ++ self.old.bytes ∷ [] }) }
        ensures fails { OnErr result (self.new ≡ record self.old { faults = one_more self.old.faults }) }

        ensures programmed { OnOk result (Leaves (λ image left. left ≡ programmed at bytes.now image) (Some self.old.bytes) (Some self.new.bytes)) }
        ensures size { length self.new.bytes ≡ length self.old.bytes }
        ensures at_any_moment { StaysRecorded (IsProgramLeft at bytes.now) self.old self.new }
        ensures cause { HasCause self.old.faults self.new.faults result }
    {
        self.begin()?;
        self.program_held(at, bytes);
        Ok(())
    }

    /// Erases, or, out of memory for the image before it, fails and changes nothing.
    fn erase(&mut self, block: u32) -> Result<(), Device>
        requires { block_size * block + block_size ≤ length self.old.bytes }
        ensures done { OnOk result (self.new ≡ record self.old { bytes = block_filled block 0xFF self.old.bytes; past = self.old.past ++ self.old.bytes ∷ [] }) }
        ensures fails { OnErr result (self.new ≡ record self.old { faults = one_more self.old.faults }) }

        ensures erased { OnOk result (Leaves (λ image left. left ≡ block_filled block 0xFF image) (Some self.old.bytes) (Some self.new.bytes)) }
        ensures size { length self.new.bytes ≡ length self.old.bytes }
        ensures at_any_moment { StaysRecorded (IsEraseLeft block) self.old self.new }
        ensures cause { HasCause self.old.faults self.new.faults result }
    {
        self.begin()?;
        self.erase_held(block);
        Ok(())
    }

    ghost sized = { λ f. refl };

    ghost counts_now = { λ f t left early now. now_recorded f.past f.bytes t left early now };

    ghost only_now = { λ f left since. only_recorded f.past f.bytes left since };
}
