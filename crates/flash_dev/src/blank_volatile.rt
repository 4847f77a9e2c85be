ghost use Rattle.std.specs.Prelude.{◌≡◌, ◌-◌, ◌≤◌, ◌++◌, length, replicate, take};
ghost use Rattle.flash_dev.specs.Blank.{blank_volatile};
ghost use Rattle.var_types.specs.Layout.{volatile_size};

use crate::headers::write_store;

/// How many bytes the volatile store has, its header counted.
pub const VOLATILE_BYTES: usize = 65_536;

// Erases all bytes from an offset on.
fn erase_from(into: &mut [u8], at: usize)
    requires { at ≤ length into.old }
    ensures { into.new ≡ take at into.old ++ replicate (length into.old - at) 0xFF }
{
    into[at..].fill(0xFF);
}

/// Makes a buffer the volatile store without variables, as it stands in memory at a start.
pub fn write_blank_volatile(into: &mut [u8])
    requires { length into.old ≡ volatile_size }
    ensures { into.new ≡ blank_volatile }
{
    write_store(into, 0, VOLATILE_BYTES as u32);
    erase_from(into, 28);
}
