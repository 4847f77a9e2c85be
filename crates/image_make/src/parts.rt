//! What the calls of a generated script are made of.
ghost use Rattle.std.specs.Prelude.{◌≡◌, ◌+◌, ◌<◌, ◌%◌, ◌/◌, replicate};
ghost use Rattle.image_make.specs.Generated.{bytes_at, global_variable, name_at, numbered_name, script_calls};

use var_types::Guid;

/// How many calls a generated script has.
pub const SCRIPT_CALLS: u32 = 4000;

/// How many bytes a set has at most.
pub(crate) const MOST_BYTES: usize = 200;

/// The attributes of a set: non-volatile, with boot service and runtime access.
pub(crate) const SET_ATTRIBUTES: u32 = 7;

/// The room of a get, which is enough for each set's bytes.
pub(crate) const GET_ROOM: u32 = 256;

/// The room of a next, which is enough for each name.
pub(crate) const NEXT_ROOM: u32 = 64;

/// The GUID of the variables that UEFI itself defines, 8be4df61-93ca-11d2-aa0d-00e098032b8c.
#[tactic(auto, unfolding(crate::specs::Generated::global_variable))]
pub(crate) fn global_variable() -> Guid
    ensures { result ≡ global_variable }
{
    Guid {
        bytes: [
            0x61, 0xdf, 0xe4, 0x8b, 0xca, 0x93, 0xd2, 0x11, 0xaa, 0x0d, 0x00, 0xe0, 0x98, 0x03,
            0x2b, 0x8c,
        ],
    }
}

fn numbered_name(n: u32) -> [u16; 3]
    requires { n < 100 }
    ensures { result ≡ numbered_name n }
{
    [0x56, 0x30 + (n / 10) as u16, 0x30 + (n % 10) as u16]
}

/// The name of a set at an index.
pub(crate) fn name_at(number: u32, index: u32) -> [u16; 3]
    ensures { result ≡ name_at number index }
{
    numbered_name((index % 64 + number % 64) % 64)
}

/// How many bytes a set at an index has.
pub(crate) fn count_at(index: u32) -> usize
    ensures count { result ≡ 1 + index % 200 }
{
    1 + (index % 200) as usize
}

/// Each byte of a set at an index.
pub(crate) fn byte_at(number: u32, index: u32) -> u8
    ensures { result ≡ (index + number) % 256 }
{
    ((index % 256 + number % 256) % 256) as u8
}
