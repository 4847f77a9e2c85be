ghost use Rattle.std.specs.Prelude.{◌≡◌};
ghost use Rattle.set_rules.specs.Seen.{seen, store_if};
ghost use Rattle.svc_plain.specs.Stands.{Stands};
ghost use Rattle.set_rules.specs.RoomTotals.{total_of};

use crate::map_view::MapView;
use policy_table::PolicyTable;
use set_rules::{RoomTotals, Stored, View};
use std::cmp::min;
use std::collections::BTreeMap;
use var_types::{Ask, Denied, Guid, Key, Store, Variable};

/// The most that a view answers for the room that is used.
const MOST_ROOM: u32 = 1_000_000;

/// What the service keeps, as the set rule sees it, for one key: what was found at it, the room totals of all other variables, and all
/// variables and policies for what these say of a set.
#[derive(Clone, Copy)]
pub(crate) struct KeyView<'a> {
    pub(crate) key: &'a Key,
    pub(crate) found: Option<&'a Variable>,
    pub(crate) rest: RoomTotals,
    pub(crate) variables: &'a BTreeMap<Key, Variable>,
    pub(crate) table: &'a PolicyTable,
    pub(crate) runtime: bool,
    pub(crate) made: u64,
    pub(crate) limit: u64,
}

impl<'a> View for KeyView<'a> {
    ghost is_of = { Stands };

    ghost knows = { λ view key. key ≡ view.key.now };

    fn stored(&self, _guid: &Guid, _name: &[u16]) -> Option<Stored<'_>> {
        let variable = self.found?;
        Some(Stored {
            attributes: variable.attributes,
            stamp: variable.stamp,
            payload: variable.bytes.as_slice(),
        })
    }

    fn runtime(&self) -> bool {
        self.runtime
    }

    fn denied(&self, ask: &Ask<'_>) -> Option<Denied> {
        let view = MapView {
            variables: self.variables,
        };
        self.table.judge(&view, ask)
    }

    fn used_without(&self, non_volatile: bool, _guid: &Guid, _name: &[u16]) -> u32 {
        let store = if non_volatile {
            Store::NonVolatile
        } else {
            Store::Volatile
        };
        min(self.rest.of(store), MOST_ROOM)
    }

    fn made(&self) -> u64 {
        self.made
    }

    fn limit(&self) -> u64 {
        self.limit
    }
}
