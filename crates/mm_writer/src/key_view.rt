//! What the writer's side keeps, as the set rule sees it for one key.
ghost use Rattle.std.specs.Prelude.{◌≡◌, ◌≤◌, IfSome, length};
ghost use Rattle.std.specs.Option.{option_map};
ghost use Rattle.mm_writer.specs.Stands.{IsTotalWithout, Knows, Stands};
ghost use Rattle.set_rules.specs.RoomTotals.{totals_without};
ghost use Rattle.set_rules.specs.Seen.{store_if};
ghost use Rattle.var_region.specs.Found.{seen_variable};
ghost use Rattle.var_types.specs.declared.guid.Guid.{Guid as AnyGuid};
ghost use Rattle.var_types.specs.declared.key.Key.{Key as AnyKey};
ghost use Rattle.var_types.specs.Key.{key_of};
ghost use Rattle.var_types.specs.Layout.{longest_region};
ghost use Rattle.var_types.specs.State.{State};

use crate::view::EngineView;
use set_rules::{RoomTotals, Stored, View};
use std::cmp::min;
use var_region::Found;
use var_types::{Ask, Denied, Guid, Store, align4};

/// The most that a view answers for the room that is used.
const MOST_ROOM: u32 = 1_000_000;

/// What the writer's side keeps, with what was found at one key, and the room totals of all other variables.
#[derive(Drop)]
pub(crate) struct KeyView<'a> {
    view: EngineView<'a>,
    found: Option<Found<'a>>,
    rest: RoomTotals,
}

// The totals without what was found at a key of a name.
fn totals_without(totals: RoomTotals, name: &[u16], found: &Option<Found>) -> RoomTotals
    requires { IfSome found.now (λ f. length f.payload.now ≤ longest_region) }
    ensures { (guid : AnyGuid) → result ≡ totals_without totals (key_of guid name.now) (option_map seen_variable found.now) }
{
    match found {
        None => totals,
        Some(found) => {
            let room = align4(62 + 2 * name.len() as u64 + found.payload.len() as u64);
            let store = Store::of(found.attributes);
            let rest = u64::from(totals.of(store)).saturating_sub(room);
            totals.with(store, rest as u32)
        }
    }
}

impl<'a> EngineView<'a> {
    /// The view for the key of a GUID and a name, with one look at what is stored there.
    pub(crate) fn at(self, guid: &Guid, name: &[u16]) -> KeyView<'a>
        ensures view { result.view ≡ self.entry }
        ensures knows { Knows result (key_of guid.now name.now) }
    {
        let found = self.find(guid, name);
        let rest = totals_without(self.totals, name, &found);
        KeyView {
            view: self,
            found,
            rest,
        }
    }
}

impl<'a> KeyView<'a> {
    /// The room totals of the variables of all other keys.
    pub(crate) fn rest(&self) -> RoomTotals
        ensures { (state : State) (key : AnyKey) → Stands self.now.view state → Knows self.now key → IsTotalWithout result key state.variables }
    {
        self.rest
    }
}

fn store_if(non_volatile: bool) -> Store
    ensures { result ≡ store_if non_volatile }
{
    if non_volatile {
        Store::NonVolatile
    } else {
        Store::Volatile
    }
}

impl<'a> View for KeyView<'a> {
    ghost is_of = { λ view state. Stands view.view state };

    ghost knows = { Knows };

    fn stored(&self, _guid: &Guid, _name: &[u16]) -> Option<Stored<'_>> {
        let found = self.found?;
        Some(Stored {
            attributes: found.attributes,
            stamp: found.stamp,
            payload: found.payload,
        })
    }

    fn runtime(&self) -> bool {
        self.view.runtime
    }

    fn denied(&self, ask: &Ask<'_>) -> Option<Denied> {
        self.view.policies.judge(&self.view, ask)
    }

    fn used_without(&self, non_volatile: bool, _guid: &Guid, _name: &[u16]) -> u32 {
        min(self.rest.of(store_if(non_volatile)), MOST_ROOM)
    }

    fn made(&self) -> u64 {
        self.view.made
    }

    fn limit(&self) -> u64 {
        self.view.limit
    }
}
