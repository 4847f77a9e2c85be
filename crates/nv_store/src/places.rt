//! The first record of a key in a state.
ghost use Rattle.std.specs.Prelude.{◌≡◌, ◌+◌, ◌≤◌, IfSome, length};
ghost use Rattle.std.specs.Option.{option_map};
ghost use Rattle.var_types.specs.Key.{key_of};
ghost use Rattle.var_types.specs.Layout.{longest_region};
ghost use Rattle.var_types.specs.Region.{region_lives};
ghost use Rattle.var_region.specs.Found.{seen};
ghost use Rattle.nv_store.specs.Places.{first_in, stands_in};

use var_region::{Found, Region, has_key};
use var_types::{Guid, RecordState};

fn stands_in(state: RecordState, found: &Found, guid: &Guid, name: &[u16]) -> bool
    ensures { result ≡ stands_in state (key_of guid.now name.now) (seen found.now) }
{
    match state {
        RecordState::Added => found.state == RecordState::Added && has_key(found, guid, name),
        RecordState::InDeletedTransition => {
            found.state != RecordState::Added && has_key(found, guid, name)
        }
    }
}

/// The offset of the first record of a key in a state.
pub fn first_in(region: &Region, state: RecordState, guid: &Guid, name: &[u16]) -> Option<u32>
    ensures first { result ≡ option_map (λ live. live.at) (first_in state (key_of guid.now name.now) (region_lives region.now)) }
    ensures place { IfSome result (λ at. at + 60 ≤ length region.now.bytes) }
    ensures few { length region.now.bytes ≤ longest_region }
{
    for found in region.lives() {
        if stands_in(state, &found, guid, name) {
            return Some(found.at);
        }
    }
    None
}
