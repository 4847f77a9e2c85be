//! The write of a volume's content through the spare. A power loss at any step of it leaves the content from before it, or the new one.
ghost use Rattle.std.specs.Prelude.{◌≡◌, ◌+◌, ◌<◌, ◌≤◌, false, length, IfOk, IfSome, OnOk};
ghost use Rattle.flash_dev.specs.Moments.{Stays};
ghost use Rattle.flash_dev.specs.Rules.{Leaves};
ghost use Rattle.ftw_mount.specs.Mount.{HasUsedSlots, IsPrepared, IsReady, IsWritten, next_slot};
ghost use Rattle.outside.specs.Faults.{HasCause};
ghost use Rattle.var_types.specs.Kept.{IsContentKept, IsContentOr, work_area};
ghost use Rattle.var_types.specs.Layout.{image_size, volume_size};
ghost use Rattle.var_types.specs.WorkArea.{IsClean, is_blank, work_state};
ghost use Rattle.var_types.specs.declared.work_state.WorkState.TheVariants.{Clean};

use flash_dev::{Device, Flash};
use ftw_spare::{copy_to_dest, erase_spare, fill_spare};
use ftw_work::{allot, dest_done, make, spare_done};
use var_types::WorkState;

// Makes the work area anew while no write is pending: the whole spare is erased first.
fn renew<F: Flash>(flash: &mut F) -> Result<u32, Device>
    requires size { F.size flash.old ≡ image_size }
    requires clean { IfSome (F.holds flash.old) (λ image. IsClean (work_state (work_area image))) }
    ensures slot { IfOk result (λ slot. slot ≡ 0) }
    ensures freed { IfOk result (λ slot. Leaves (HasUsedSlots slot) (F.holds flash.old) (F.holds flash.new)) }
    ensures at_any_moment { Stays IsContentKept F.moment F.left_since F.holds flash.old flash.new }
    ensures same_size { F.size flash.new ≡ F.size flash.old }
    ensures cause { HasCause (F.fault_count flash.old) (F.fault_count flash.new) result }
{
    erase_spare(flash)?;
    make(flash)?;
    Ok(0)
}

/// The slot that the next write takes, where so many are used. Where all are, the spare is erased and the work area made anew.
pub fn free_slot<F: Flash>(flash: &mut F, slots: u32) -> Result<u32, Device>
    requires size { F.size flash.old ≡ image_size }
    requires slots { slots ≤ 255 }
    requires clean { IfSome (F.holds flash.old) (λ image. work_state (work_area image) ≡ Clean slots) }
    ensures slot { IfOk result (λ slot. slot ≡ next_slot slots) }
    ensures freed { IfOk result (λ slot. Leaves (HasUsedSlots slot) (F.holds flash.old) (F.holds flash.new)) }
    ensures at_any_moment { Stays IsContentKept F.moment F.left_since F.holds flash.old flash.new }
    ensures same_size { F.size flash.new ≡ F.size flash.old }
    ensures cause { HasCause (F.fault_count flash.old) (F.fault_count flash.new) result }
{
    match allot(WorkState::Clean { slots }) {
        Ok(slot) => Ok(slot),
        Err(_) => renew(flash),
    }
}

// Puts a content into the spare while no write is pending.
fn prepare<F: Flash>(flash: &mut F, content: &[u8]) -> Result<(), Device>
    requires size { F.size flash.old ≡ image_size }
    requires content { length content.now ≡ volume_size }
    requires clean { IfSome (F.holds flash.old) (λ image. IsClean (work_state (work_area image))) }
    ensures prepared { OnOk result (Leaves (IsPrepared content.now) (F.holds flash.old) (F.holds flash.new)) }
    ensures at_any_moment { Stays IsContentKept F.moment F.left_since F.holds flash.old flash.new }
    ensures same_size { F.size flash.new ≡ F.size flash.old }
    ensures cause { HasCause (F.fault_count flash.old) (F.fault_count flash.new) result }
{
    erase_spare(flash)?;
    fill_spare(flash, content)
}

// Makes the content that stands in the spare that of the volume.
fn commit<F: Flash>(flash: &mut F, slot: u32, content: &[u8]) -> Result<(), Device>
    requires size { F.size flash.old ≡ image_size }
    requires slot { slot < 255 }
    requires content { length content.now ≡ volume_size }
    requires used { is_blank content.now ≡ false }
    requires ready { IfSome (F.holds flash.old) (IsReady slot content.now) }
    ensures written { OnOk result (Leaves (IsWritten content.now (slot + 1)) (F.holds flash.old) (F.holds flash.new)) }
    ensures at_any_moment { Stays (IsContentOr content.now) F.moment F.left_since F.holds flash.old flash.new }
    ensures same_size { F.size flash.new ≡ F.size flash.old }
    ensures cause { HasCause (F.fault_count flash.old) (F.fault_count flash.new) result }
{
    spare_done(flash, slot)?;
    copy_to_dest(flash, content)?;
    dest_done(flash, slot)
}

/// Writes a volume's bytes through the spare, where so many slots are used, and gives the number that is used afterwards. The content may not
/// be blank as a whole, since a blank spare counts for nothing.
pub fn write_volume<F: Flash>(flash: &mut F, slots: u32, content: &[u8]) -> Result<u32, Device>
    requires size { F.size flash.old ≡ image_size }
    requires slots { slots ≤ 255 }
    requires content { length content.now ≡ volume_size }
    requires used { is_blank content.now ≡ false }
    requires clean { IfSome (F.holds flash.old) (λ image. work_state (work_area image) ≡ Clean slots) }
    ensures slots { IfOk result (λ used. used ≡ next_slot slots + 1) }
    ensures written { IfOk result (λ used. Leaves (IsWritten content.now used) (F.holds flash.old) (F.holds flash.new)) }
    ensures at_any_moment { Stays (IsContentOr content.now) F.moment F.left_since F.holds flash.old flash.new }
    ensures same_size { F.size flash.new ≡ F.size flash.old }
    ensures cause { HasCause (F.fault_count flash.old) (F.fault_count flash.new) result }
{
    let slot = free_slot(flash, slots)?;
    prepare(flash, content)?;
    commit(flash, slot, content)?;
    Ok(slot + 1)
}
