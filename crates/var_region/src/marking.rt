ghost use Rattle.std.specs.Prelude.{◌≡◌, ◌+◌, bit_and, slice_index};
ghost use Rattle.var_region.specs.Written.{HasWholeRecord, state_set};

use var_header::clear;

/// Clears, in the state of the whole record at an offset, the bits that a mask lacks: VAR_IN_DELETED_TRANSITION or VAR_DELETED.
pub fn mark(bytes: &mut [u8], at: u32, mask: u8)
    requires { HasWholeRecord bytes.old at }
    ensures { bytes.new ≡ state_set at (bit_and (slice_index bytes.old (at + 2)) mask) bytes.old }
{
    let state = at as usize + 2;
    bytes[state] = clear(bytes[state], mask);
}
