//! Searches over two regions as one map.
ghost use Rattle.std.specs.Prelude.{◌≡◌, ◌≤◌, ◌&&◌, length, find, IfSome, Some};
ghost use Rattle.std.specs.BTreeMap.{is_at};
ghost use Rattle.std.specs.Map.{lookup};
ghost use Rattle.std.specs.Option.{option_map, option_or};
ghost use Rattle.var_types.specs.Key.{key_cmp, key_of};
ghost use Rattle.var_types.specs.Layout.{longest_name, longest_region};
ghost use Rattle.var_types.specs.Least.{is_shown};
ghost use Rattle.var_types.specs.Live.{units_in};
ghost use Rattle.var_types.specs.Next.{is_above};
ghost use Rattle.var_types.specs.Region.{region_map};
ghost use Rattle.var_types.specs.State.{seen_at, visible_at};
ghost use Rattle.var_types.specs.Stores.{state_seen};
ghost use Rattle.var_types.specs.TwoRegions.{AreApart, joined, lesser};
ghost use Rattle.var_region.specs.Found.{seen_entry, seen_variable};
ghost use Rattle.var_region.specs.Wanted.{bound_of};

use var_region::{Found, Region, order_of};
use var_types::Guid;
use var_types::attributes::{RUNTIME_ACCESS, has};

/// The record that counts for a key in the first of two regions that has one for it.
pub fn stored<'a>(
    non_volatile: &Region<'a>,
    volatile: &Region<'a>,
    guid: &Guid,
    name: &[u16],
) -> Option<Found<'a>>
    ensures variable { option_map seen_variable result
        ≡ lookup (is_at (key_cmp (key_of guid.now name.now))) (joined (region_map non_volatile.now) (region_map volatile.now)) }
    ensures payload { IfSome result (λ f. length f.payload.now ≤ longest_region) }
{
    let found = non_volatile.find(guid, name);
    if found.is_some() {
        return found;
    }
    volatile.find(guid, name)
}

/// A record, where callers see its variable: at runtime only one with runtime access.
fn shown<'a>(runtime: bool, found: Found<'a>) -> Option<Found<'a>>
    ensures variable { option_map seen_variable result ≡ seen_at runtime (Some (seen_variable found.entry)) }
    ensures payload { length found.entry.payload.now ≤ longest_region → IfSome result (λ f. length f.payload.now ≤ longest_region) }
{
    if runtime && !has(found.attributes, RUNTIME_ACCESS) {
        return None;
    }
    Some(found)
}

/// What callers see at a key of two regions.
#[tactic(auto, unfolding(var_types::specs::Stores::state_seen))]
pub(crate) fn visible<'a>(
    non_volatile: &Region<'a>,
    volatile: &Region<'a>,
    runtime: bool,
    guid: &Guid,
    name: &[u16],
) -> Option<Found<'a>>
    ensures variable { option_map seen_variable result
        ≡ visible_at (state_seen non_volatile.now volatile.now runtime) (key_of guid.now name.now) }
    ensures payload { IfSome result (λ f. length f.payload.now ≤ longest_region) }
{
    let found = stored(non_volatile, volatile, guid, name)?;
    shown(runtime, found)
}

/// Of two records that may be there the one of the lesser key.
fn lesser<'a>(first: Option<Found<'a>>, second: Option<Found<'a>>) -> Option<Found<'a>>
    ensures entry { option_map seen_entry result ≡ lesser (option_map seen_entry first.entry) (option_map seen_entry second.entry) }
{
    let Some(one) = first else {
        return second;
    };
    let Some(other) = second else {
        return Some(one);
    };
    if order_of(&other, &one).is_lt() {
        return Some(other);
    }
    Some(one)
}

/// The record that counts for the least key that callers see in either of two regions which have no key in common: strictly above a key, or of
/// all where the name is empty.
pub fn above<'a>(
    non_volatile: &Region<'a>,
    volatile: &Region<'a>,
    runtime: bool,
    guid: &Guid,
    name: &[u16],
) -> Option<Found<'a>>
    ensures entry { AreApart (region_map non_volatile.now) (region_map volatile.now)
        → option_map seen_entry result
        ≡ find (λ entry. is_shown runtime entry.1 && is_above (bound_of guid.now name.now) entry.0)
        (joined (region_map non_volatile.now) (region_map volatile.now)) }
    ensures name { IfSome result (λ f. length (units_in f.name.now) ≤ longest_name) }
{
    lesser(
        non_volatile.above(guid, name, runtime),
        volatile.above(guid, name, runtime),
    )
}
