//! The least key above a bound that callers see: a pass for the least key, one for its record, and on only from one that is not seen.
ghost use Rattle.std.specs.Prelude.{◌≡◌, ◌≤◌, length, Some, None, IfSome};
ghost use Rattle.std.specs.Option.{option_map};
ghost use Rattle.var_types.specs.Chosen.{chosen};
ghost use Rattle.var_types.specs.Key.{key_cmp};
ghost use Rattle.var_types.specs.Layout.{longest_region};
ghost use Rattle.var_types.specs.Least.{is_shown, least_from, lower, lower_above, shown};
ghost use Rattle.var_types.specs.Next.{is_above};
ghost use Rattle.var_types.specs.Region.{entry_above, region_lives};
ghost use Rattle.var_region.specs.Found.{seen, seen_entry, seen_key, seen_variable};
ghost use Rattle.var_region.specs.Wanted.{bound_of, wanted_key};

use crate::Region;
use crate::find::search;
use crate::found::Found;
use crate::wanted::Wanted;
use var_types::Guid;
use var_types::attributes::{RUNTIME_ACCESS, has};

fn is_above(bound: &Option<Wanted>, found: &Found) -> bool
    ensures { result ≡ is_above (option_map wanted_key bound.now) (seen_key found.now) }
{
    match bound {
        Some(bound) => bound.order(found).is_lt(),
        None => true,
    }
}

fn lower<'a>(held: Option<Found<'a>>, found: Found<'a>) -> Found<'a>
    ensures { Some (seen_key result) ≡ lower key_cmp (option_map seen_key held.entry) (Some (seen_key found.entry)) }
{
    let Some(held) = held else {
        return found;
    };
    if Wanted::of(&found).order(&held).is_lt() {
        return found;
    }
    held
}

fn lower_above<'a>(
    bound: &Option<Wanted>,
    held: Option<Found<'a>>,
    found: Found<'a>,
) -> Option<Found<'a>>
    ensures { option_map seen_key result
        ≡ lower_above (option_map wanted_key bound.now) (option_map seen_key held.entry) (seen_key found.entry) }
{
    if !is_above(bound, &found) {
        return held;
    }
    Some(lower(held, found))
}

/// A record of the least live key above a bound.
fn least<'a>(region: &Region<'a>, bound: &Option<Wanted>) -> Option<Found<'a>>
    ensures { option_map seen_key result ≡ least_from (option_map wanted_key bound.now) None (region_lives region.now) }
{
    let mut held = None;
    for found in region.lives() {
        held = lower_above(bound, held, found);
    }
    held
}

fn is_shown(runtime: bool, found: &Found) -> bool
    ensures { result ≡ is_shown runtime (seen_variable found.now) }
{
    !runtime || has(found.attributes, RUNTIME_ACCESS)
}

/// The record that counts for a key, where callers see its variable.
fn shown<'a>(region: &Region<'a>, wanted: &Wanted, runtime: bool) -> Option<Found<'a>>
    ensures counts { option_map seen result ≡ shown runtime (chosen (wanted_key wanted.now) (region_lives region.now)) }
    ensures payload { IfSome result (λ f. length f.payload.now ≤ longest_region) }
{
    let found = search(region, wanted)?;
    if !is_shown(runtime, &found) {
        return None;
    }
    Some(found)
}

/// The record of the least key above a bound that callers see.
#[tactic(auto, unfolding(var_types::specs::Region::entry_above, var_types::specs::Region::region_map))]
pub(crate) fn above<'a>(
    region: &Region<'a>,
    bound: &Option<Wanted>,
    runtime: bool,
) -> Option<Found<'a>>
    ensures entry { option_map seen_entry result ≡ entry_above region.now runtime (option_map wanted_key bound.now) }
    ensures counts { IfSome result (λ f. chosen (seen_key f) (region_lives region.now) ≡ Some (seen f)) }
    ensures payload { IfSome result (λ f. length f.payload.now ≤ longest_region) }
{
    let mut low = least(region, bound);
    'keys: while let Some(next) = low {
        let wanted = Wanted::of(&next);
        if let Some(found) = shown(region, &wanted, runtime) {
            return Some(found);
        }
        low = least(region, &Some(wanted));
    }
    None
}

/// The bound that a GUID and a name are: none by an empty name, whatever the GUID.
pub(crate) fn bound_of<'k>(guid: &Guid, name: &'k [u16]) -> Option<Wanted<'k>>
    ensures { option_map wanted_key result ≡ bound_of guid.now name.now }
{
    match name {
        [] => None,
        [..] => Some(Wanted::new(guid, name)),
    }
}
