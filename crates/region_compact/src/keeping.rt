//! Which live records a compaction keeps.
ghost use Rattle.std.specs.Prelude.{◌≡◌};
ghost use Rattle.var_types.specs.Region.{region_lives};
ghost use Rattle.var_region.specs.Found.{seen, seen_key};
ghost use Rattle.region_compact.specs.Compacted.{is_kept};
ghost use Rattle.region_compact.specs.Replace.{is_replaced, replaced_key};

use crate::Replace;
use var_region::{Found, Region, has_key};

fn is_replaced(replace: &Replace, found: &Found) -> bool
    ensures { result ≡ is_replaced (replaced_key replace.now) (seen_key found.now) }
{
    match replace {
        Replace::None => false,
        Replace::Put(new) => has_key(found, &new.guid, new.name),
        Replace::Drop { guid, name } => has_key(found, guid, name),
    }
}

/// Whether a live record of a region is kept.
pub(crate) fn is_kept(region: &Region, replace: &Replace, found: &Found) -> bool
    ensures { result ≡ is_kept (region_lives region.now) (replaced_key replace.now) (seen found.now) }
{
    !is_replaced(replace, found) && region.counts(found)
}
