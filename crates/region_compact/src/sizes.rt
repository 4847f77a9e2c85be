//! How many bytes a compacted region has.
ghost use Rattle.std.specs.Prelude.{◌≡◌, ◌≤◌, if◌then◌else◌};
ghost use Rattle.var_types.specs.Region.{region_lives};
ghost use Rattle.var_types.specs.Room.{align4};
ghost use Rattle.var_region.specs.Found.{seen};
ghost use Rattle.region_compact.specs.Compacted.{is_kept, kept_lives, live_room, live_size, rooms, size_after};
ghost use Rattle.region_compact.specs.Replace.{CanReplace, added_room, replaced_key};

use crate::Replace;
use crate::keeping::is_kept;
use var_header::HEADER_BYTES;
use var_region::{Found, Region};

/// The least multiple of 4 that isn't below a size.
pub(crate) fn align4(size: u32) -> u32
    requires { size ≤ 1048576 }
    ensures { result ≡ align4 size }
{
    (size + 3) / 4 * 4
}

/// The bytes of a live record, as an authenticated one.
#[tactic(auto, using(var_region::proofs::LentNames::length_units))]
pub(crate) fn size_of(found: &Found) -> u32
    requires { live_size (seen found.now) ≤ 65536 }
    ensures { result ≡ live_size (seen found.now) }
{
    let name_size = 2 * (found.name.len() / 2) + 2;
    (HEADER_BYTES + name_size + found.payload.len()) as u32
}

// The room of a live record, where it is kept.
fn kept_room(region: &Region, replace: &Replace, found: &Found) -> u32
    requires { live_size (seen found.now) ≤ 65536 }
    ensures { result ≡ (if is_kept (region_lives region.now) (replaced_key replace.now) (seen found.now) then live_room (seen found.now) else 0) }
{
    if !is_kept(region, replace, found) {
        return 0;
    }
    align4(size_of(found))
}

#[tactic(auto, unfolding(crate::specs::Compacted::kept_lives), using(crate::proofs::Kept::rooms_first, crate::proofs::Kept::rooms_few, crate::proofs::StoredSizes::inside_region))]
fn kept_size(region: &Region, replace: &Replace) -> u32
    ensures size { result ≡ rooms (kept_lives region.now (replaced_key replace.now)) }
    ensures few { result ≤ 131078 }
{
    let mut size = 0;
    for found in region.lives() {
        size += kept_room(region, replace, &found);
    }
    size
}

// The room of all live records, in one pass.
#[tactic(auto, using(crate::proofs::Kept::every_few, crate::proofs::StoredSizes::inside_region))]
fn every_size(region: &Region) -> u32
    ensures size { result ≡ rooms (region_lives region.now) }
    ensures few { result ≤ 131078 }
{
    let mut size = 0;
    for found in region.lives() {
        size += align4(size_of(&found));
    }
    size
}

fn added_room(replace: &Replace) -> u32
    requires { CanReplace replace.now }
    ensures room { result ≡ added_room replace.now }
    ensures few { result ≤ 131072 }
{
    match replace {
        Replace::None => 0,
        Replace::Put(new) => {
            align4((HEADER_BYTES + 2 * new.name.len() + 2 + new.payload.len()) as u32)
        }
        Replace::Drop { guid: _, name: _ } => 0,
    }
}

/// A size that a compaction doesn't exceed, in one pass.
#[tactic(auto, unfolding(crate::specs::Compacted::size_after, crate::specs::Compacted::kept_lives), using(crate::proofs::Kept::kept_fewer))]
pub(crate) fn size_at_most(region: &Region, replace: &Replace) -> u32
    requires { CanReplace replace.now }
    ensures { size_after region.now replace.now ≤ result }
{
    every_size(region) + added_room(replace)
}

/// The size that a compaction has.
#[tactic(auto, unfolding(crate::specs::Compacted::size_after))]
pub(crate) fn size_with(region: &Region, replace: &Replace) -> u32
    requires { CanReplace replace.now }
    ensures { result ≡ size_after region.now replace.now }
{
    kept_size(region, replace) + added_room(replace)
}

/// The bytes of a region's variables after a replacement, as authenticated records, each up to the next multiple of 4.
pub fn size_after(region: &Region, replace: Replace) -> u32
    requires { CanReplace replace }
    ensures { result ≡ size_after region.now replace.entry }
{
    size_with(region, &replace)
}
