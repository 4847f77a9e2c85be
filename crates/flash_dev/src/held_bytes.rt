//! The bytes that a flash holds, changed by a call that is done.
ghost use Rattle.std.specs.Prelude.{◌≡◌, ◌+◌, ◌*◌, ◌≤◌, length};
ghost use Rattle.flash_dev.specs.Rules.{AreBytesLeft, IsEraseLeft, IsProgramLeft, block_filled, cleared, programmed};
ghost use Rattle.var_types.specs.Layout.{block_size};

use crate::layout::BLOCK_BYTES;

/// Clears the bits that are clear in other bytes, from the first on.
pub(crate) fn clear_bits(held: &mut [u8], bytes: &[u8])
    requires { length bytes.now ≤ length held.old }
    ensures changed { held.new ≡ cleared held.old bytes.now }
    ensures left { AreBytesLeft held.old bytes.now held.new }
{
    for (offset, byte) in bytes.iter().enumerate() {
        held[offset] &= *byte;
    }
}

/// Clears those at an offset.
pub fn program_at(held: &mut [u8], at: u32, bytes: &[u8])
    requires { at + length bytes.now ≤ length held.old }
    ensures changed { held.new ≡ programmed at bytes.now held.old }
    ensures left { IsProgramLeft at bytes.now held.old held.new }
{
    clear_bits(&mut held[at as usize..], bytes);
}

/// Fills a block with one byte.
pub fn fill_block(held: &mut [u8], block: u32, byte: u8)
    requires { block_size * block + block_size ≤ length held.old }
    ensures changed { held.new ≡ block_filled block byte held.old }
    ensures left { IsEraseLeft block held.old held.new }
{
    let from = block as usize * BLOCK_BYTES;
    held[from..from + BLOCK_BYTES].fill(byte);
}
