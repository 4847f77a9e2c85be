//! The state byte of a record, as EDK II numbers it (MdeModulePkg, VariableFormat.h): 0xFF when erased, and bits are cleared one by one.
ghost use Rattle.std.specs.Prelude.{◌≡◌, bit_and};

/// The state of a record of which the header alone is written.
pub const VAR_HEADER_VALID_ONLY: u8 = 0x7F;

/// The state of a record that is written whole.
pub const VAR_ADDED: u8 = 0x3F;

/// The mask that clears a state's bit as the record is about to be deleted.
pub const VAR_IN_DELETED_TRANSITION: u8 = 0xFE;

/// The mask that clears a state's bit as the record is deleted.
pub const VAR_DELETED: u8 = 0xFD;

/// A state in which the bits that a mask lacks are cleared.
pub fn clear(state: u8, mask: u8) -> u8
    ensures { result ≡ bit_and state mask }
{
    state & mask
}
