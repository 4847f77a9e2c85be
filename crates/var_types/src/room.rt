//! The room that a variable's record takes, in bytes.
ghost use Rattle.std.specs.Prelude.{◌≡◌, ◌+◌, ◌-◌, ◌^◌, ◌<◌};
ghost use Rattle.var_types.specs.Room.{align4, record_size, room_of};

use crate::{Key, Units, Variable};
use var_header::HEADER_BYTES;

/// The most bytes of a record, its header and its name counted.
pub const LARGEST_RECORD: u32 = 33_792;

/// The least multiple of 4 that isn't below a number (EDK II, HEADER_ALIGNMENT).
pub fn align4(n: u64) -> u64
    requires { n < 2 ^ 64 - 3 }
    ensures { result ≡ align4 n }
{
    (n + 3) / 4 * 4
}

/// The bytes of an authenticated record: its header, the name with its NUL, and the data.
pub fn record_size(name: &Units, bytes: &[u8]) -> u64
    ensures size { result ≡ record_size name.now bytes.now }
    ensures small { result < 2 ^ 63 + 4096 }
{
    let name_size = 2 * name.as_slice().len() as u64 + 2;
    HEADER_BYTES as u64 + name_size + bytes.len() as u64
}

/// The bytes of a variable's record with the gap behind it.
pub fn room_of(key: &Key, variable: &Variable) -> u64
    ensures { result ≡ room_of key.now variable.now }
{
    align4(record_size(&key.name, variable.bytes.as_slice()))
}
