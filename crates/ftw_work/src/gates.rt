//! The steps that turn a work area. A power loss between any two of them, or within one, leaves a work area that says where the variables stand.
ghost use Rattle.std.specs.Prelude.{◌≡◌, ◌+◌, ◌<◌, false, true, IfSome, OnOk};
ghost use Rattle.flash_dev.specs.Moments.{Stays};
ghost use Rattle.flash_dev.specs.Rules.{Leaves};
ghost use Rattle.ftw_work.specs.Work.{IsSpareTaken, IsWorkLeft};
ghost use Rattle.outside.specs.Faults.{HasCause};
ghost use Rattle.var_types.specs.Kept.{IsContentKept, spare, spare_volume, volume, work_area};
ghost use Rattle.var_types.specs.Layout.{image_size};
ghost use Rattle.var_types.specs.WorkArea.{is_blank, work_state};
ghost use Rattle.var_types.specs.declared.work_state.WorkState.TheVariants.{Clean, Pending};

use crate::layout::{OPEN, SIGNATURE, SLOT_BYTES, WORK_AREA_BLOCK, WORK_AREA_OFFSET};
use flash_dev::{Device, Flash};

// The offset of the header's gate.
const HEADER_GATE: u32 = WORK_AREA_OFFSET + SIGNATURE.len() as u32;

// The offset of the first slot, which begins with its spare gate; its destination gate is the next byte.
const FIRST_SLOT: u32 = WORK_AREA_OFFSET + SLOT_BYTES as u32;

/// Makes the work area anew, with no slot used. The spare is to be blank, so that nothing that the work area says meanwhile counts.
pub fn make<F: Flash>(flash: &mut F) -> Result<(), Device>
    requires size { F.size flash.old ≡ image_size }
    requires blank { IfSome (F.holds flash.old) (λ image. is_blank (spare image) ≡ true) }
    ensures made { OnOk result (Leaves (IsWorkLeft (Clean 0)) (F.holds flash.old) (F.holds flash.new)) }
    ensures at_any_moment { Stays IsContentKept F.moment F.left_since F.holds flash.old flash.new }
    ensures same_size { F.size flash.new ≡ F.size flash.old }
    ensures cause { HasCause (F.fault_count flash.old) (F.fault_count flash.new) result }
{
    flash.erase(WORK_AREA_BLOCK)?;
    flash.program(WORK_AREA_OFFSET, &SIGNATURE)?;
    flash.program(HEADER_GATE, &[OPEN])
}

/// Opens the spare gate of a slot: from then on the spare's content counts, and the slot's write is pending.
pub fn spare_done<F: Flash>(flash: &mut F, slot: u32) -> Result<(), Device>
    requires size { F.size flash.old ≡ image_size }
    requires slot { slot < 255 }
    requires clean { IfSome (F.holds flash.old) (λ image. work_state (work_area image) ≡ Clean slot) }
    requires used { IfSome (F.holds flash.old) (λ image. is_blank (spare image) ≡ false) }
    ensures opened { OnOk result (Leaves (IsWorkLeft (Pending slot)) (F.holds flash.old) (F.holds flash.new)) }
    // It is one bit: the volume's content counts, or the spare's.
    ensures at_any_moment { Stays IsSpareTaken F.moment F.left_since F.holds flash.old flash.new }
    ensures same_size { F.size flash.new ≡ F.size flash.old }
    ensures cause { HasCause (F.fault_count flash.old) (F.fault_count flash.new) result }
{
    flash.program(FIRST_SLOT + SLOT_BYTES as u32 * slot, &[OPEN])
}

/// Opens the destination gate of a slot: its write is done, and the volume counts, which is to be equal to the spare by then.
pub fn dest_done<F: Flash>(flash: &mut F, slot: u32) -> Result<(), Device>
    requires size { F.size flash.old ≡ image_size }
    requires slot { slot < 255 }
    requires pending { IfSome (F.holds flash.old) (λ image. work_state (work_area image) ≡ Pending slot) }
    requires copied { IfSome (F.holds flash.old) (λ image. volume image ≡ spare_volume image) }
    ensures opened { OnOk result (Leaves (IsWorkLeft (Clean (slot + 1))) (F.holds flash.old) (F.holds flash.new)) }
    ensures at_any_moment { Stays IsContentKept F.moment F.left_since F.holds flash.old flash.new }
    ensures same_size { F.size flash.new ≡ F.size flash.old }
    ensures cause { HasCause (F.fault_count flash.old) (F.fault_count flash.new) result }
{
    flash.program(FIRST_SLOT + SLOT_BYTES as u32 * slot + 1, &[OPEN])
}
