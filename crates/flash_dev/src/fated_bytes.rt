//! The bytes of a flash in memory, changed by the fate of a call.
ghost use Rattle.std.specs.Prelude.{◌≡◌, ◌+◌, ◌*◌, ◌≤◌, length};
ghost use Rattle.flash_dev.specs.MemFlash.{even_bytes, fated_erase, fated_program, torn_erase, torn_program};
ghost use Rattle.flash_dev.specs.Rules.{AreBytesLeft, IsEraseLeft, IsProgramLeft, cleared, programmed};
ghost use Rattle.var_types.specs.Layout.{block_size};

use crate::fate::Fate;
use crate::fault_plan::Torn;
use crate::held_bytes::{fill_block, program_at};

// Clears the bits that are clear in other bytes, at even offsets alone.
fn clear_even_bits(held: &mut [u8], bytes: &[u8])
    requires { length bytes.now ≤ length held.old }
    ensures changed { held.new ≡ cleared held.old (even_bytes bytes.now) }
    ensures left { AreBytesLeft held.old bytes.now held.new }
{
    for (offset, even) in bytes.iter().enumerate() {
        if offset % 2 == 0 {
            held[offset] &= *even;
        }
    }
}

fn program_half(held: &mut [u8], at: u32, bytes: &[u8])
    requires { at + length bytes.now ≤ length held.old }
    ensures changed { held.new ≡ programmed at (even_bytes bytes.now) held.old }
    ensures left { IsProgramLeft at bytes.now held.old held.new }
{
    clear_even_bits(&mut held[at as usize..], bytes);
}

/// What a program of bytes at an offset leaves where it is torn this way.
#[tactic(auto, using(crate::proofs::Left::none_leaves))]
pub fn program_torn(held: &mut [u8], torn: Torn, at: u32, bytes: &[u8])
    requires { at + length bytes.now ≤ length held.old }
    ensures changed { held.new ≡ torn_program torn at bytes.now held.old }
    ensures left { IsProgramLeft at bytes.now held.old held.new }
{
    match torn {
        Torn::Before => {}
        Torn::Half => program_half(held, at, bytes),
        Torn::After => program_at(held, at, bytes),
    }
}

/// Programs bytes at an offset, as far as the call's fate lets it.
#[tactic(auto, using(crate::proofs::Left::none_leaves))]
pub(crate) fn program_by(fate: Fate, held: &mut [u8], at: u32, bytes: &[u8])
    requires { at + length bytes.now ≤ length held.old }
    ensures changed { held.new ≡ fated_program fate at bytes.now held.old }
    ensures left { IsProgramLeft at bytes.now held.old held.new }
{
    match fate {
        Fate::Done => program_at(held, at, bytes),
        Fate::Torn(torn) => program_torn(held, torn, at, bytes),
        Fate::Lost => {}
    }
}

/// What an erase of a block leaves where it is torn this way.
pub fn erase_torn(held: &mut [u8], torn: Torn, block: u32)
    requires { block_size * block + block_size ≤ length held.old }
    ensures changed { held.new ≡ torn_erase torn block held.old }
    ensures left { IsEraseLeft block held.old held.new }
{
    match torn {
        Torn::Before => {}
        Torn::Half => fill_block(held, block, 0xA5),
        Torn::After => fill_block(held, block, 0xFF),
    }
}

/// Erases a block, as far as the call's fate lets it.
pub(crate) fn erase_by(fate: Fate, held: &mut [u8], block: u32)
    requires { block_size * block + block_size ≤ length held.old }
    ensures changed { held.new ≡ fated_erase fate block held.old }
    ensures left { IsEraseLeft block held.old held.new }
{
    match fate {
        Fate::Done => fill_block(held, block, 0xFF),
        Fate::Torn(torn) => erase_torn(held, torn, block),
        Fate::Lost => {}
    }
}
