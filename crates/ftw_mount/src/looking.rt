//! What an image keeps, read without a change of it.
ghost use Rattle.std.specs.Prelude.{◌≡◌, ◌⊎◌, drop, length, take, IfOk, IfSome, List, OnOk, ℕ};
ghost use Rattle.flash_dev.specs.Moments.{Stays};
ghost use Rattle.flash_dev.specs.Rules.{IsKept};
ghost use Rattle.ftw_mount.specs.Mount.{Describes};
ghost use Rattle.outside.specs.Faults.{HasCause};
ghost use Rattle.var_types.specs.Kept.{content};
ghost use Rattle.var_types.specs.Layout.{block_size, image_size, volume_size};
ghost use Rattle.var_types.specs.WorkArea.{HasFewSlots};

use crate::Kept;
use flash_dev::{Device, Flash};
use ftw_spare::{SPARE_OFFSET, blank};
use ftw_work::{WORK_AREA_BYTES, WORK_AREA_OFFSET, state};
use var_types::WorkState;

// What spare and work area say; the buffer may hold anything afterwards.
fn look<F: Flash>(flash: &mut F, buffer: &mut [u8]) -> Result<Kept, Device>
    requires size { F.size flash.old ≡ image_size }
    requires buffer { length buffer.old ≡ block_size }
    ensures describes { IfOk result (λ kept. IfSome (F.holds flash.old) (Describes kept)) }
    ensures slots { IfOk result (λ kept. HasFewSlots kept.state) }
    ensures kept { F.holds flash.new ≡ F.holds flash.old }
    ensures at_any_moment { Stays IsKept F.moment F.left_since F.holds flash.old flash.new }
    ensures same_size { F.size flash.new ≡ F.size flash.old }
    ensures cause { HasCause (F.fault_count flash.old) (F.fault_count flash.new) result }
{
    let is_blank = blank(flash, buffer)?;
    flash.read(WORK_AREA_OFFSET, buffer)?;
    Ok(Kept {
        state: state(buffer),
        blank: is_blank,
    })
}

/// What spare and work area say, read into the front of a volume's buffer.
pub(crate) fn look_over<F: Flash>(flash: &mut F, buffer: &mut [u8]) -> Result<Kept, Device>
    requires size { F.size flash.old ≡ image_size }
    requires buffer { length buffer.old ≡ volume_size }
    ensures describes { IfOk result (λ kept. IfSome (F.holds flash.old) (Describes kept)) }
    ensures slots { IfOk result (λ kept. HasFewSlots kept.state) }
    ensures kept { F.holds flash.new ≡ F.holds flash.old }
    ensures at_any_moment { Stays IsKept F.moment F.left_since F.holds flash.old flash.new }
    ensures same_size { F.size flash.new ≡ F.size flash.old }
    ensures cause { HasCause (F.fault_count flash.old) (F.fault_count flash.new) result }
{
    look(flash, &mut buffer[..WORK_AREA_BYTES])
}

// The offset of the part that counts.
fn content_offset(kept: Kept) -> u32
    ensures part { (image : List ℕ) → Describes kept image → take volume_size (drop result image) ≡ content image }
    ensures within { (result ≡ 0) ⊎ (result ≡ 65536) }
{
    if kept.blank {
        return 0;
    }
    match kept.state {
        WorkState::Pending { .. } => SPARE_OFFSET,
        WorkState::Clean { .. } | WorkState::Unclean => 0,
    }
}

/// Leaves what an image keeps in the buffer, as the bytes of a volume: those of the spare where a write is pending, else of the volume.
/// Writes nothing.
pub fn read_kept<F: Flash>(flash: &mut F, into: &mut [u8]) -> Result<Kept, Device>
    requires size { F.size flash.old ≡ image_size }
    requires into { length into.old ≡ volume_size }
    ensures content { OnOk result (IfSome (F.holds flash.old) (λ image. into.new ≡ content image)) }
    ensures describes { IfOk result (λ kept. IfSome (F.holds flash.old) (Describes kept)) }
    ensures slots { IfOk result (λ kept. HasFewSlots kept.state) }
    ensures kept { F.holds flash.new ≡ F.holds flash.old }
    ensures at_any_moment { Stays IsKept F.moment F.left_since F.holds flash.old flash.new }
    ensures same_size { F.size flash.new ≡ F.size flash.old }
    ensures cause { HasCause (F.fault_count flash.old) (F.fault_count flash.new) result }
{
    let kept = look_over(flash, into)?;
    flash.read(content_offset(kept), into)?;
    Ok(kept)
}
