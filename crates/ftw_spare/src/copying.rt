//! The steps of a write that go to the spare and to the volume. Meanwhile the other of the two counts, so what an image keeps stays.
ghost use Rattle.std.specs.Prelude.{◌≡◌, false, length, IfSome, OnOk};
ghost use Rattle.flash_dev.specs.Moments.{Stays};
ghost use Rattle.flash_dev.specs.Rules.{Leaves, programmed};
ghost use Rattle.ftw_spare.specs.Spare.{IsCopied, IsSpareErased, IsSpareFilled};
ghost use Rattle.outside.specs.Faults.{HasCause};
ghost use Rattle.var_types.specs.Kept.{IsContentKept, spare, spare_volume, work_area};
ghost use Rattle.var_types.specs.Layout.{image_size, spare_offset, volume_size};
ghost use Rattle.var_types.specs.WorkArea.{IsClean, IsPending, is_blank, work_state};

use crate::blocks::erase_blocks;
use crate::layout::{SPARE_BLOCK, SPARE_OFFSET, VOLUME_BLOCKS};
use flash_dev::{BLOCKS, Device, Flash};

/// Erases the spare, all of its 16 blocks. Where no write is pending the volume counts meanwhile.
pub fn erase_spare<F: Flash>(flash: &mut F) -> Result<(), Device>
    requires size { F.size flash.old ≡ image_size }
    requires clean { IfSome (F.holds flash.old) (λ image. IsClean (work_state (work_area image))) }
    ensures erased { OnOk result (Leaves IsSpareErased (F.holds flash.old) (F.holds flash.new)) }
    ensures at_any_moment { Stays IsContentKept F.moment F.left_since F.holds flash.old flash.new }
    ensures same_size { F.size flash.new ≡ F.size flash.old }
    ensures cause { HasCause (F.fault_count flash.old) (F.fault_count flash.new) result }
{
    erase_blocks(flash, SPARE_BLOCK, BLOCKS)
}

/// Programs a volume's 57,344 bytes into the spare, which takes them as they are where it is blank. Where no write is pending the volume
/// counts meanwhile.
pub fn fill_spare<F: Flash>(flash: &mut F, content: &[u8]) -> Result<(), Device>
    requires size { F.size flash.old ≡ image_size }
    requires content { length content.now ≡ volume_size }
    requires clean { IfSome (F.holds flash.old) (λ image. IsClean (work_state (work_area image))) }
    ensures programmed { OnOk result (Leaves (λ image left. left ≡ programmed spare_offset content.now image) (F.holds flash.old) (F.holds flash.new)) }
    ensures filled { OnOk result (Leaves (IsSpareFilled content.now) (F.holds flash.old) (F.holds flash.new)) }
    ensures at_any_moment { Stays IsContentKept F.moment F.left_since F.holds flash.old flash.new }
    ensures same_size { F.size flash.new ≡ F.size flash.old }
    ensures cause { HasCause (F.fault_count flash.old) (F.fault_count flash.new) result }
{
    flash.program(SPARE_OFFSET, content)
}

/// Copies the spare's content, which is handed in, to the volume: erases its 14 blocks and programs the content. While the write is pending the
/// spare counts.
pub fn copy_to_dest<F: Flash>(flash: &mut F, content: &[u8]) -> Result<(), Device>
    requires size { F.size flash.old ≡ image_size }
    requires content { length content.now ≡ volume_size }
    requires pending { IfSome (F.holds flash.old) (λ image. IsPending (work_state (work_area image))) }
    requires used { IfSome (F.holds flash.old) (λ image. is_blank (spare image) ≡ false) }
    requires same { IfSome (F.holds flash.old) (λ image. content.now ≡ spare_volume image) }
    ensures copied { OnOk result (Leaves (IsCopied content.now) (F.holds flash.old) (F.holds flash.new)) }
    ensures at_any_moment { Stays IsContentKept F.moment F.left_since F.holds flash.old flash.new }
    ensures same_size { F.size flash.new ≡ F.size flash.old }
    ensures cause { HasCause (F.fault_count flash.old) (F.fault_count flash.new) result }
{
    erase_blocks(flash, 0, VOLUME_BLOCKS)?;
    flash.program(0, content)
}
