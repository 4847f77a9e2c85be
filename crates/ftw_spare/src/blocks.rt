ghost use Rattle.std.specs.Prelude.{◌≡◌, ◌*◌, ◌-◌, ◌≤◌, OnOk};
ghost use Rattle.flash_dev.specs.Moments.{Stays};
ghost use Rattle.flash_dev.specs.Rules.{Leaves, filled};
ghost use Rattle.outside.specs.Faults.{HasCause};
ghost use Rattle.var_types.specs.Placed.{IsOutsideKept};
ghost use Rattle.var_types.specs.Layout.{block_size, image_size};

use flash_dev::{Device, Flash};

/// Erases the blocks from one on and before another, in order.
pub(crate) fn erase_blocks<F: Flash>(flash: &mut F, from: u32, to: u32) -> Result<(), Device>
    requires size { F.size flash.old ≡ image_size }
    requires from { from ≤ to }
    requires to { to ≤ 32 }
    ensures erased { OnOk result (Leaves (λ image left. left ≡ filled (block_size * from) (block_size * to - block_size * from) 0xFF image) (F.holds flash.old) (F.holds flash.new)) }
    ensures at_any_moment { Stays (IsOutsideKept (block_size * from) (block_size * to)) F.moment F.left_since F.holds flash.old flash.new }
    ensures same_size { F.size flash.new ≡ F.size flash.old }
    ensures cause { HasCause (F.fault_count flash.old) (F.fault_count flash.new) result }
{
    for block in from..to {
        flash.erase(block)?;
    }
    Ok(())
}
