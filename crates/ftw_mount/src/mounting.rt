//! The mount: a write that was interrupted is finished, or the work area is made.
ghost use Rattle.std.specs.Prelude.{◌≡◌, ◌≢◌, ◌<◌, ◌≤◌, true, length, Err, IfOk, IfSome};
ghost use Rattle.flash_dev.specs.Moments.{Stays};
ghost use Rattle.flash_dev.specs.Rules.{Leaves};
ghost use Rattle.ftw_mount.specs.Mount.{Describes, IsMountLeft, HasUsedSlots, IsWritePending};
ghost use Rattle.ftw_mount.specs.declared.mount_fault.MountFault.{MountFault};
ghost use Rattle.outside.specs.Faults.{HasCause, HasCauseAt};
ghost use Rattle.var_types.specs.Kept.{IsForeign, spare, work_area};
ghost use Rattle.var_types.specs.Layout.{image_size, volume_size};
ghost use Rattle.var_types.specs.WorkArea.{HasFewSlots, IsClean, is_blank, work_state};

use crate::looking::look_over;
use crate::{Kept, MountFault};
use flash_dev::{Device, Flash};
use ftw_spare::{SPARE_OFFSET, copy_to_dest};
use ftw_work::{dest_done, make};
use var_types::WorkState;

// Makes the work area; while the spare is blank nothing depends on it.
fn remake<F: Flash>(flash: &mut F) -> Result<u32, Device>
    requires size { F.size flash.old ≡ image_size }
    requires blank { IfSome (F.holds flash.old) (λ image. is_blank (spare image) ≡ true) }
    requires unmade { IfSome (F.holds flash.old) (λ image. ¬ IsClean (work_state (work_area image))) }
    ensures mounted { IfOk result (λ slots. Leaves (HasUsedSlots slots) (F.holds flash.old) (F.holds flash.new)) }
    ensures slots { IfOk result (λ slots. slots ≤ 255) }
    ensures at_any_moment { Stays IsMountLeft F.moment F.left_since F.holds flash.old flash.new }
    ensures same_size { F.size flash.new ≡ F.size flash.old }
    ensures cause { HasCause (F.fault_count flash.old) (F.fault_count flash.new) result }
{
    make(flash)?;
    Ok(0)
}

// Finishes a pending write: copies the spare's content to the volume, and opens the slot's destination gate.
fn finish<F: Flash>(flash: &mut F, buffer: &mut [u8], slot: u32) -> Result<u32, Device>
    requires size { F.size flash.old ≡ image_size }
    requires buffer { length buffer.old ≡ volume_size }
    requires slot { slot < 255 }
    requires pending { IfSome (F.holds flash.old) (IsWritePending slot) }
    ensures mounted { IfOk result (λ slots. Leaves (HasUsedSlots slots) (F.holds flash.old) (F.holds flash.new)) }
    ensures slots { IfOk result (λ slots. slots ≤ 255) }
    ensures at_any_moment { Stays IsMountLeft F.moment F.left_since F.holds flash.old flash.new }
    ensures same_size { F.size flash.new ≡ F.size flash.old }
    ensures cause { HasCause (F.fault_count flash.old) (F.fault_count flash.new) result }
{
    flash.read(SPARE_OFFSET, buffer)?;
    copy_to_dest(flash, buffer)?;
    dest_done(flash, slot)?;
    Ok(slot + 1)
}

/// Mounts an image by what was read of its spare and its work area; all as `mount` does.
pub fn mount_by<F: Flash>(flash: &mut F, buffer: &mut [u8], kept: Kept) -> Result<u32, MountFault>
    requires size { F.size flash.old ≡ image_size }
    requires buffer { length buffer.old ≡ volume_size }
    requires describes { IfSome (F.holds flash.old) (Describes kept) }
    requires few { HasFewSlots kept.state }
    ensures mounted { IfOk result (λ slots. Leaves (HasUsedSlots slots) (F.holds flash.old) (F.holds flash.new)) }
    ensures slots { IfOk result (λ slots. slots ≤ 255) }
    ensures foreign { result ≡ Err MountFault.ForeignWork → IfSome (F.holds flash.old) IsForeign }
    ensures only { result ≢ Err MountFault.Device → IfSome (F.holds flash.old) (λ image. IsForeign image → result ≡ Err MountFault.ForeignWork) }
    ensures at_any_moment { Stays IsMountLeft F.moment F.left_since F.holds flash.old flash.new }
    ensures same_size { F.size flash.new ≡ F.size flash.old }
    ensures cause { HasCauseAt MountFault.Device (F.fault_count flash.old) (F.fault_count flash.new) result }
{
    match (kept.state, kept.blank) {
        (WorkState::Clean { slots }, _) => Ok(slots),
        (_, true) => Ok(remake(flash)?),
        (WorkState::Pending { slot }, false) => Ok(finish(flash, buffer, slot)?),
        (WorkState::Unclean, false) => Err(MountFault::ForeignWork),
    }
}

/// Mounts an image, and gives the number of used slots: finishes a pending write, or makes the work area where the spare is blank and the
/// work area isn't Clean. What the image keeps stays at any moment of it, so it may be made again after a device fault, or after a power loss,
/// however often. The buffer may hold anything afterwards.
pub fn mount<F: Flash>(flash: &mut F, buffer: &mut [u8]) -> Result<u32, MountFault>
    requires size { F.size flash.old ≡ image_size }
    requires buffer { length buffer.old ≡ volume_size }
    ensures mounted { IfOk result (λ slots. Leaves (HasUsedSlots slots) (F.holds flash.old) (F.holds flash.new)) }
    ensures slots { IfOk result (λ slots. slots ≤ 255) }

    // It is foreign work exactly where no call of the flash failed and the image is that.
    ensures foreign { result ≡ Err MountFault.ForeignWork → IfSome (F.holds flash.old) IsForeign }
    ensures only { result ≢ Err MountFault.Device → IfSome (F.holds flash.old) (λ image. IsForeign image → result ≡ Err MountFault.ForeignWork) }

    ensures at_any_moment { Stays IsMountLeft F.moment F.left_since F.holds flash.old flash.new }
    ensures same_size { F.size flash.new ≡ F.size flash.old }
    ensures cause { HasCauseAt MountFault.Device (F.fault_count flash.old) (F.fault_count flash.new) result }
{
    let kept = look_over(flash, buffer)?;
    mount_by(flash, buffer, kept)
}
