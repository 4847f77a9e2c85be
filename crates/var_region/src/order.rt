ghost use Rattle.std.specs.Prelude.{◌≡◌};
ghost use Rattle.var_types.specs.Key.{key_cmp};
ghost use Rattle.var_region.specs.Found.{seen_key};

use crate::found::Found;
use crate::wanted::Wanted;
use std::cmp::Ordering;

/// How the keys of two records that were found compare, as their names stand in the regions.
pub fn order_of(found: &Found, other: &Found) -> Ordering
    ensures { result ≡ key_cmp (seen_key found.now) (seen_key other.now) }
{
    Wanted::of(found).order(other)
}
