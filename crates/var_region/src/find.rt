//! The record that counts for a key, in one pass over a region.
ghost use Rattle.std.specs.Prelude.{◌≡◌, ◌≤◌, length, IfSome};
ghost use Rattle.std.specs.Option.{option_map};
ghost use Rattle.var_types.specs.Chosen.{chosen, chosen_after, counting, is_settled};
ghost use Rattle.var_types.specs.Layout.{longest_region};
ghost use Rattle.var_types.specs.Region.{region_lives};
ghost use Rattle.var_region.specs.Found.{seen};
ghost use Rattle.var_region.specs.Wanted.{wanted_key};

use crate::Region;
use crate::found::Found;
use crate::wanted::Wanted;
use var_types::RecordState;

fn is_settled(held: &Option<Found>) -> bool
    ensures { result ≡ is_settled (option_map seen held.now) }
{
    match held {
        Some(held) => held.state == RecordState::Added,
        None => false,
    }
}

/// Of the record held for a key, where there is one, and a later one of that key the one that counts so far: an ADDED one that is held, else
/// the later one.
pub fn counting<'a>(held: Option<Found<'a>>, later: Found<'a>) -> Found<'a>
    ensures { seen result ≡ counting (option_map seen held.entry) (seen later.entry) }
{
    match held {
        Some(held) => match held.state {
            RecordState::Added => held,
            RecordState::InDeletedTransition => later,
        },
        None => later,
    }
}

fn chosen_after<'a>(wanted: &Wanted, held: Option<Found<'a>>, later: Found<'a>) -> Option<Found<'a>>
    ensures { option_map seen result ≡ chosen_after (wanted_key wanted.now) (option_map seen held.entry) (seen later.entry) }
{
    if wanted.order(&later).is_ne() {
        return held;
    }
    Some(counting(held, later))
}

/// The record that counts for a key; the search ends at the first ADDED one.
#[tactic(auto, using(crate::proofs::LiveRecords::small_found, var_types::proofs::Chosen::chosen_in_one_pass, var_types::proofs::Chosen::settled_stays))]
pub(crate) fn search<'a>(region: &Region<'a>, wanted: &Wanted) -> Option<Found<'a>>
    ensures counts { option_map seen result ≡ chosen (wanted_key wanted.now) (region_lives region.now) }
    ensures payload { IfSome result (λ f. length f.payload.now ≤ longest_region) }
{
    let mut held = None;
    for found in region.lives() {
        held = chosen_after(wanted, held, found);
        if is_settled(&held) {
            return held;
        }
    }
    held
}
