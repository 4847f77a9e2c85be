//! The decision: the first case of the set rule that holds, else the change.
ghost use Rattle.std.specs.Prelude.{◌≡◌, ◌≤◌, false};
ghost use Rattle.set_rules.specs.Chain.{rest};
ghost use Rattle.set_rules.specs.Seen.{reading};
ghost use Rattle.var_types.specs.Reading.{deletes, made_of, reading_of, set_key};
ghost use Rattle.var_types.specs.Room.{record_size};
ghost use Rattle.var_types.specs.Set.{decision};
ghost use Rattle.var_types.specs.State.{State};

use crate::call_cases::call_case;
use crate::front_cases::front_case;
use crate::reading::Reading;
use crate::room_cases::{history_case, room_case, same_case};
use crate::stored_cases::{denied_case, stored_case};
use crate::view::View;
use var_types::{Decision, SetCall};

/// What a set comes to: the first case of the set rule that holds, else its change (UEFI 2.10, 8.2.3). It takes one look at what is stored
/// and one at the room that is used.
#[tactic(auto, unfolding(var_types::specs::Set::decision))]
pub fn decide<V: View>(view: &V, call: &SetCall) -> Decision
    requires { V.knows view.now (set_key call.now) }
    ensures { (state : State) → V.is_of view.now state → result ≡ decision state call.now }
{
    match call_case(call) {
        Some(decision) => decision,
        None => decide_named(view, call),
    }
}

/// Behind the cases that read the call alone: what is stored is looked up.
fn decide_named<V: View>(view: &V, call: &SetCall) -> Decision
    requires { V.knows view.now (set_key call.now) }
    ensures { (state : State) → V.is_of view.now state → result ≡ rest 4 state (reading_of state call.now) }
{
    let stored = view.stored(&call.guid, call.name.as_slice());
    decide_read(view, &Reading::of(call, stored))
}

/// The same of a set with what is stored.
fn decide_read<V: View>(view: &V, set: &Reading) -> Decision
    requires { V.knows view.now (set_key set.now.call.now) }
    ensures { (state : State) → V.is_of view.now state → result ≡ rest 4 state (reading set.now) }
{
    match front_case(view.runtime(), set) {
        Some(decision) => decision,
        None => decide_sized(view, set),
    }
}

/// Behind the cases of phase, descriptor and size: policies are asked.
fn decide_sized<V: View>(view: &V, set: &Reading) -> Decision
    requires knows { V.knows view.now (set_key set.now.call.now) }
    requires payload { record_size set.now.call.now.name set.now.payload.now ≤ 33792 }
    ensures { (state : State) → V.is_of view.now state → result ≡ rest 9 state (reading set.now) }
{
    match denied_case(view.denied(&set.ask())) {
        Some(decision) => decision,
        None => decide_allowed(view, set),
    }
}

/// Behind the policies.
fn decide_allowed<V: View>(view: &V, set: &Reading) -> Decision
    requires knows { V.knows view.now (set_key set.now.call.now) }
    requires payload { record_size set.now.call.now.name set.now.payload.now ≤ 33792 }
    ensures { (state : State) → V.is_of view.now state → result ≡ rest 10 state (reading set.now) }
{
    match stored_case(set) {
        Some(decision) => decision,
        None => decide_fitting(view, set),
    }
}

/// Behind the cases that compare the set with what is stored.
fn decide_fitting<V: View>(view: &V, set: &Reading) -> Decision
    requires knows { V.knows view.now (set_key set.now.call.now) }
    requires payload { record_size set.now.call.now.name set.now.payload.now ≤ 33792 }
    requires made { deletes (reading set.now) ≡ false → record_size set.now.call.now.name (made_of (reading set.now)).bytes ≤ 33792 }
    ensures { (state : State) → V.is_of view.now state → result ≡ rest 16 state (reading set.now) }
{
    match same_case(set) {
        Some(decision) => decision,
        None => decide_new(view, set),
    }
}

/// Behind the case of an equal variable: the room is looked up.
fn decide_new<V: View>(view: &V, set: &Reading) -> Decision
    requires knows { V.knows view.now (set_key set.now.call.now) }
    requires payload { record_size set.now.call.now.name set.now.payload.now ≤ 33792 }
    requires made { deletes (reading set.now) ≡ false → record_size set.now.call.now.name (made_of (reading set.now)).bytes ≤ 33792 }
    ensures { (state : State) → V.is_of view.now state → result ≡ rest 17 state (reading set.now) }
{
    match room_case(view, set) {
        Some(decision) => decision,
        None => decide_change(view, set),
    }
}

/// Behind the case of the room.
fn decide_change<V: View>(view: &V, set: &Reading) -> Decision
    ensures { (state : State) → V.is_of view.now state → result ≡ rest 18 state (reading set.now) }
{
    match history_case(view.made(), view.limit()) {
        Some(decision) => decision,
        None => set.change(),
    }
}
