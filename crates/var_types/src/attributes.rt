//! The attribute bits of a variable (UEFI 2.10, 8.2), and what they say.
ghost use Rattle.std.specs.Prelude.{◌≡◌};
ghost use Rattle.var_types.specs.Attributes.{has, has_access, is_append, is_time_based, without_append};

/// The variable is kept over a power cycle.
pub const NON_VOLATILE: u32 = 0x01;

/// The variable can be seen before the operating system takes over.
pub const BOOTSERVICE_ACCESS: u32 = 0x02;

/// The variable can be seen after the operating system took over.
pub const RUNTIME_ACCESS: u32 = 0x04;

/// The variable is a hardware error record.
pub const HARDWARE_ERROR_RECORD: u32 = 0x08;

/// The variable is changed by authenticated writes alone, of a kind that the standard deprecates.
pub const AUTHENTICATED_WRITE_ACCESS: u32 = 0x10;

/// The variable is changed by time-based authenticated writes alone.
pub const TIME_BASED_AUTHENTICATED_WRITE_ACCESS: u32 = 0x20;

/// The bytes are put behind those that are stored.
pub const APPEND_WRITE: u32 = 0x40;

/// The variable is changed by enhanced authenticated writes alone.
pub const ENHANCED_AUTHENTICATED_ACCESS: u32 = 0x80;

/// Whether attributes have a bit, or one of several.
pub fn has(attributes: u32, bits: u32) -> bool
    ensures { result ≡ has attributes bits }
{
    attributes & bits != 0
}

/// Whether a set is time-based: its bytes begin with a descriptor (UEFI 2.10, 8.2).
pub fn is_time_based(attributes: u32) -> bool
    ensures { result ≡ is_time_based attributes }
{
    has(attributes, TIME_BASED_AUTHENTICATED_WRITE_ACCESS)
}

/// Whether a set appends (UEFI 2.10, 8.2.3).
pub fn is_append(attributes: u32) -> bool
    ensures { result ≡ is_append attributes }
{
    has(attributes, APPEND_WRITE)
}

/// The attributes that a set leaves, which are without the bit of an append (UEFI 2.10, 8.2.3).
pub fn without_append(attributes: u32) -> u32
    ensures { result ≡ without_append attributes }
{
    attributes & !APPEND_WRITE
}

/// Whether attributes have an access bit; a set without one deletes (UEFI 2.10, 8.2.3).
pub fn has_access(attributes: u32) -> bool
    ensures { result ≡ has_access attributes }
{
    has(attributes, BOOTSERVICE_ACCESS) || has(attributes, RUNTIME_ACCESS)
}
