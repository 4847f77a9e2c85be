//! The records of a key whose state bytes a write in place turns, and the turns in memory.
ghost use Rattle.std.specs.Prelude.{◌≡◌, ◌≤◌, length, IfSome, count_by};
ghost use Rattle.std.specs.Option.{option_map};
ghost use Rattle.var_types.specs.Key.{key_of};
ghost use Rattle.var_types.specs.Layout.{longest_region};
ghost use Rattle.var_types.specs.Stores.{first_offset};
ghost use Rattle.var_region.specs.WritingLaws.{state_byte};
ghost use Rattle.nv_store.specs.Changes.{lives_in};
ghost use Rattle.nv_store.specs.Places.{first_in};
ghost use Rattle.nv_store.specs.Steps.{IsPlace, twin_of};

use crate::places::first_in;
use var_region::region_in;
use var_types::{Guid, RecordState, Store};

/// The offset of the first record of a key in a state.
pub fn place_of(
    store: Store,
    bytes: &[u8],
    state: RecordState,
    guid: &Guid,
    name: &[u16],
) -> Option<u32>
    requires first { first_offset store ≤ length bytes.now }
    requires few { length bytes.now ≤ longest_region }
    ensures first { result ≡ option_map (λ live. live.at) (first_in state (key_of guid.now name.now) (lives_in store bytes.now)) }
    ensures place { IfSome result (IsPlace store bytes.now (state_byte state)) }
{
    first_in(&region_in(store, bytes), state, guid, name)
}

/// The offset of the record in transition to deleted that stands beside an ADDED one of its key.
pub fn twin_of(store: Store, bytes: &[u8], guid: &Guid, name: &[u16]) -> Option<u32>
    requires first { first_offset store ≤ length bytes.now }
    requires few { length bytes.now ≤ longest_region }
    ensures twin { result ≡ option_map (λ live. live.at) (twin_of (key_of guid.now name.now) (lives_in store bytes.now)) }
    ensures place { IfSome result (IsPlace store bytes.now 0x3E) }
{
    if place_of(store, bytes, RecordState::Added, guid, name).is_none() {
        return None;
    }
    place_of(store, bytes, RecordState::InDeletedTransition, guid, name)
}
