ghost use Rattle.std.specs.Prelude.{◌≡◌, ◌≤◌, length};
ghost use Rattle.var_types.specs.Layout.{longest_region};
ghost use Rattle.var_types.specs.Stores.{first_offset, store_region};

use crate::Region;
use var_types::Store;

/// The offset of the non-volatile store's first record: behind the volume's header of 72 bytes and the store's of 28.
const FIRST_NON_VOLATILE: u32 = 100;

/// The offset of the volatile store's first record: behind the store's header.
const FIRST_VOLATILE: u32 = 28;

/// The region that a store's bytes are, headers included.
pub fn region_in<'a>(store: Store, bytes: &'a [u8]) -> Region<'a>
    requires first { first_offset store ≤ length bytes.now }
    requires few { length bytes.now ≤ longest_region }
    ensures { result ≡ store_region store bytes.now }
{
    match store {
        Store::NonVolatile => Region::over(bytes, FIRST_NON_VOLATILE, true),
        Store::Volatile => Region::over(bytes, FIRST_VOLATILE, false),
    }
}
