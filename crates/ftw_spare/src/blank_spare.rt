ghost use Rattle.std.specs.Prelude.{◌≡◌, ◌*◌, ◌<◌, drop, length, take, IfOk, IfSome};
ghost use Rattle.flash_dev.specs.Moments.{Stays};
ghost use Rattle.flash_dev.specs.Rules.{IsKept};
ghost use Rattle.outside.specs.Faults.{HasCause};
ghost use Rattle.var_types.specs.Kept.{spare};
ghost use Rattle.var_types.specs.Layout.{block_size, image_size};
ghost use Rattle.var_types.specs.WorkArea.{is_blank};

use crate::layout::SPARE_BLOCK;
use flash_dev::{BLOCK_BYTES, BLOCKS, Device, Flash};
use var_types::is_blank;

// Whether a block is blank, which is read into the buffer.
fn is_block_blank<F: Flash>(flash: &mut F, block: u32, buffer: &mut [u8]) -> Result<bool, Device>
    requires size { F.size flash.old ≡ image_size }
    requires block { block < 32 }
    requires buffer { length buffer.old ≡ block_size }
    ensures blank { IfOk result (λ blank. IfSome (F.holds flash.old) (λ image. blank ≡ is_blank (take block_size (drop (block_size * block) image)))) }
    ensures kept { F.holds flash.new ≡ F.holds flash.old }
    ensures at_any_moment { Stays IsKept F.moment F.left_since F.holds flash.old flash.new }
    ensures same_size { F.size flash.new ≡ F.size flash.old }
    ensures cause { HasCause (F.fault_count flash.old) (F.fault_count flash.new) result }
{
    flash.read(BLOCK_BYTES as u32 * block, buffer)?;
    Ok(is_blank(buffer))
}

/// Whether the spare is blank. It is read block by block, up to the first that isn't blank; the buffer may hold anything afterwards.
pub fn blank<F: Flash>(flash: &mut F, buffer: &mut [u8]) -> Result<bool, Device>
    requires size { F.size flash.old ≡ image_size }
    requires buffer { length buffer.old ≡ block_size }
    ensures blank { IfOk result (λ blank. IfSome (F.holds flash.old) (λ image. blank ≡ is_blank (spare image))) }
    ensures kept { F.holds flash.new ≡ F.holds flash.old }
    ensures at_any_moment { Stays IsKept F.moment F.left_since F.holds flash.old flash.new }
    ensures same_size { F.size flash.new ≡ F.size flash.old }
    ensures cause { HasCause (F.fault_count flash.old) (F.fault_count flash.new) result }
{
    for block in SPARE_BLOCK..BLOCKS {
        if !is_block_blank(flash, block, buffer)? {
            return Ok(false);
        }
    }
    Ok(true)
}
