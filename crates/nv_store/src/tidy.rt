//! Whether writes that were interrupted have left something over.
ghost use Rattle.std.specs.Prelude.{◌≡◌, true, false};
ghost use Rattle.std.specs.List.{list_any};
ghost use Rattle.var_types.specs.Region.{region_lives};
ghost use Rattle.var_region.specs.Found.{seen, seen_key};
ghost use Rattle.nv_store.specs.Places.{stands_in};
ghost use Rattle.nv_store.specs.Tidy.{IsTidy, are_single};

use var_region::{Found, Lives, Region, order_of};
use var_types::RecordState;

fn is_alike(found: &Found, other: &Found) -> bool
    ensures { result ≡ stands_in found.now.state (seen_key found.now) (seen other.now) }
{
    match found.state {
        RecordState::Added => other.state == RecordState::Added && order_of(found, other).is_eq(),
        RecordState::InDeletedTransition => {
            other.state != RecordState::Added && order_of(found, other).is_eq()
        }
    }
}

// Whether a record of the same key in the same state is left in a walk.
fn is_left(left: &mut Lives, found: &Found) -> bool
    ensures { result ≡ list_any (stands_in found.now.state (seen_key found.now)) left.old }
{
    while let Some(other) = left.next() {
        if is_alike(found, &other) {
            return true;
        }
    }
    false
}

fn is_single(region: &Region) -> bool
    ensures { result ≡ are_single (region_lives region.now) }
{
    let mut left = region.lives();
    while let Some(found) = left.next() {
        let mut rest = left.rest();
        if is_left(&mut rest, &found) {
            return false;
        }
    }
    true
}

/// Whether a region's tail is clean, and no key has two ADDED records or two in transition to deleted.
#[tactic(auto, using(crate::proofs::Singles::single_true, crate::proofs::Singles::single_false))]
pub fn is_tidy(region: &Region) -> bool
    ensures tidy { result ≡ true → IsTidy region.now }
    ensures untidy { result ≡ false → ¬ IsTidy region.now }
{
    region.tail().clean && is_single(region)
}
