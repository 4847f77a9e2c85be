//! The cases of the set rule that read the variable that a set makes, and how much the stores and the history hold.
ghost use Rattle.std.specs.Prelude.{◌≡◌, ◌≤◌, ◌==◌, ◌++◌, [], false, if◌then◌else◌, IfSome, Some};
ghost use Rattle.set_rules.specs.Seen.{reading, seen};
ghost use Rattle.var_types.specs.Reading.{deletes, made_of};
ghost use Rattle.var_types.specs.Room.{record_size, room_limit, room_needed};
ghost use Rattle.var_types.specs.SetCases.{history_case, room_case, same_case, same_variable};
ghost use Rattle.var_types.specs.Attributes.{store_of};
ghost use Rattle.var_types.specs.Reading.{set_key};
ghost use Rattle.var_types.specs.State.{State};
ghost use lib.Pointwise.{pointwise};

use crate::reading::Reading;
use crate::refuse_if::refuse_if;
use crate::view::{Stored, View};
use var_types::attributes::{NON_VOLATILE, has, is_append, without_append};
use var_types::{Decision, SetReason, Store, align4, record_size};

/// Whether bytes that are stored are those that a set leaves: an append leaves more, where its payload isn't empty.
#[tactic(auto, using(crate::proofs::Joined::same_longer))]
fn same_bytes(append: bool, stored: &[u8], payload: &[u8]) -> bool
    ensures { result ≡ pointwise ◌==◌ stored.now ((if append then stored.now else []) ++ payload.now) }
{
    if append {
        payload.is_empty()
    } else {
        stored == payload
    }
}

/// Whether what is stored is the variable that the set makes.
#[tactic(auto, unfolding(var_types::specs::Reading::made_of))]
fn is_same(set: &Reading, stored: &Stored) -> bool
    requires { seen set.now.stored ≡ seen (Some stored.now) }
    ensures { IfSome (seen (Some stored.now)) (λ variable. result ≡ same_variable variable (made_of (reading set.now))) }
{
    let attributes = set.call.attributes;
    stored.attributes == without_append(attributes)
        && same_bytes(is_append(attributes), stored.payload, set.payload)
        && stored.stamp == set.made_stamp()
}

#[tactic(auto, unfolding(var_types::specs::SetCases::same_case))]
pub(crate) fn same_case(set: &Reading) -> Option<Decision>
    ensures { result ≡ same_case (deletes (reading set.now)) (seen set.now.stored) (made_of (reading set.now)) }
{
    match &set.stored {
        None => None,
        Some(stored) => {
            if !set.deletes() && is_same(set, stored) {
                Some(Decision::Same)
            } else {
                None
            }
        }
    }
}

/// The store of the variable that the set makes.
#[tactic(auto, unfolding(var_types::specs::Reading::made_of))]
fn made_store(set: &Reading) -> Store
    ensures { result ≡ store_of (made_of (reading set.now)).attributes }
{
    Store::of(without_append(set.call.attributes))
}

/// The bytes of the record of the variable that the set makes.
#[tactic(auto, unfolding(var_types::specs::Reading::made_of))]
fn made_size(set: &Reading) -> u64
    requires { record_size set.now.call.now.name set.now.payload.now ≤ 33792 }
    ensures { result ≡ record_size set.now.call.now.name (made_of (reading set.now)).bytes }
{
    record_size(&set.call.name, set.kept_bytes()) + set.payload.len() as u64
}

/// The room that the store of the variable needs once the set has made it.
#[tactic(auto, unfolding(var_types::specs::Room::room_needed))]
fn room_needed<V: View>(view: &V, set: &Reading) -> u32
    requires knows { V.knows view.now (set_key set.now.call.now) }
    requires payload { record_size set.now.call.now.name set.now.payload.now ≤ 33792 }
    requires made { record_size set.now.call.now.name (made_of (reading set.now)).bytes ≤ 33792 }
    ensures { (state : State) → V.is_of view.now state
        → result ≡ room_needed state (set_key set.now.call.now) (made_of (reading set.now)) }
{
    let non_volatile = has(without_append(set.call.attributes), NON_VOLATILE);
    let name = set.call.name.as_slice();
    let used = view.used_without(non_volatile, &set.call.guid, name);
    used + align4(made_size(set)) as u32
}

/// Whether the store has less room than it needs.
#[tactic(auto, unfolding(var_types::specs::SetCases::room_case))]
pub(crate) fn room_case<V: View>(view: &V, set: &Reading) -> Option<Decision>
    requires knows { V.knows view.now (set_key set.now.call.now) }
    requires payload { record_size set.now.call.now.name set.now.payload.now ≤ 33792 }
    requires made { deletes (reading set.now) ≡ false → record_size set.now.call.now.name (made_of (reading set.now)).bytes ≤ 33792 }
    ensures { (state : State) → V.is_of view.now state
        → result
        ≡ room_case (deletes (reading set.now)) (room_needed state (set_key set.now.call.now) (made_of (reading set.now)))
        (room_limit (store_of (made_of (reading set.now)).attributes)) }
{
    if set.deletes() {
        return None;
    }
    let need = room_needed(view, set);
    let have = made_store(set).room_limit();
    refuse_if(need > have, SetReason::Room { need, have })
}

#[tactic(auto, unfolding(var_types::specs::SetCases::history_case))]
pub(crate) fn history_case(made: u64, limit: u64) -> Option<Decision>
    ensures { result ≡ history_case made limit }
{
    refuse_if(made >= limit, SetReason::HistoryFull { made })
}
