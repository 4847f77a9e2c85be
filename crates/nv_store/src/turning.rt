//! Single steps of a write in place: a piece that is programmed, and one bit, on the flash and in the bytes that mirror its volume.
ghost use Rattle.std.specs.Prelude.{◌≡◌, ◌≤◌, ◌<◌, ◌+◌, ℕ, length, slice_index, slice_set, IfSome, OnOk};
ghost use Rattle.flash_dev.specs.Moments.{Stays};
ghost use Rattle.flash_dev.specs.Rules.{IsProgramLeft, Leaves, programmed};
ghost use Rattle.nv_store.specs.Mirror.{IsMirrored};
ghost use Rattle.nv_store.specs.StepsLeft.{IsEither, IsStepLeft};
ghost use Rattle.outside.specs.Faults.{HasCause};
ghost use Rattle.var_region.specs.StateSteps.{IsOneBit};
ghost use Rattle.var_types.specs.Layout.{headers_size, image_size, volume_size};

use flash_dev::{Device, Flash};

/// Programs a piece of a record.
pub(crate) fn program_piece<F: Flash>(flash: &mut F, at: u32, piece: &[u8]) -> Result<(), Device>
    requires { at + length piece.now ≤ F.size flash.old }
    ensures programmed { OnOk result (Leaves (λ image left. left ≡ programmed at piece.now image) (F.holds flash.old) (F.holds flash.new)) }
    ensures bytes { (k : ℕ) → slice_index piece.now k < 256 }
    ensures at_any_moment { Stays (IsProgramLeft at piece.now) F.moment F.left_since F.holds flash.old flash.new }
    ensures same_size { F.size flash.new ≡ F.size flash.old }
    ensures cause { HasCause (F.fault_count flash.old) (F.fault_count flash.new) result }
{
    flash.program(at, piece)
}

/// Turns one byte into another that differs in one bit, which is cleared: on the flash, and then in the bytes. A power loss leaves the one or
/// the other.
pub(crate) fn turn_both<F: Flash>(
    flash: &mut F,
    bytes: &mut [u8],
    at: u32,
    old: u8,
    new: u8,
) -> Result<(), Device>
    requires size { F.size flash.old ≡ image_size }
    requires len { length bytes.old ≡ volume_size }
    requires low { headers_size ≤ at }
    requires high { at < volume_size }
    requires one_bit { IsOneBit old new }
    requires byte { slice_index bytes.old at ≡ old }
    requires mirrored { IfSome (F.holds flash.old) (IsMirrored bytes.old) }
    ensures turned { OnOk result (bytes.new ≡ slice_set bytes.old at new) }
    ensures mirrored { OnOk result (IfSome (F.holds flash.new) (IsMirrored bytes.new)) }
    ensures at_any_moment { Stays (IsStepLeft (IsEither bytes.old (slice_set bytes.old at new))) F.moment F.left_since F.holds flash.old flash.new }
    ensures same_size { F.size flash.new ≡ F.size flash.old }
    ensures cause { HasCause (F.fault_count flash.old) (F.fault_count flash.new) result }
{
    flash.program(at, &[new])?;
    bytes[at as usize] = new;
    Ok(())
}
