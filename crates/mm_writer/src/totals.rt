//! The room totals after an edit.
ghost use Rattle.std.specs.Prelude.{◌≡◌, ◌≤◌};
ghost use Rattle.mm_writer.specs.Edit.{CanWriteEdit, MayEdit, edit_key, edited};
ghost use Rattle.mm_writer.specs.Stands.{IsTotalWithout};
ghost use Rattle.set_rules.specs.RoomTotals.{IsTotalOf};
ghost use Rattle.var_region.specs.NewRecord.{CanWrite, new_key, new_variable};
ghost use Rattle.var_types.specs.declared.store.Store.{Store as AnyStore};
ghost use Rattle.var_types.specs.Room.{room_of};
ghost use Rattle.var_types.specs.State.{State};
ghost use Rattle.var_types.specs.TwoRegionsLaws.{AreOrdered};

use crate::edit::Edit;
use set_rules::RoomTotals;
use std::cmp::min;
use var_region::NewRecord;
use var_types::{Store, align4};

// The room that a new record takes.
fn room_of(new: &NewRecord) -> u64
    requires { CanWrite new.now }
    ensures is { result ≡ room_of (new_key new.now) (new_variable new.now) }
    ensures small { result ≤ 100000 }
{
    align4(62 + 2 * new.name.len() as u64 + new.payload.len() as u64)
}

/// The totals after an edit that a set may come to, by those of the variables of all other keys.
pub(crate) fn totals_after(rest: RoomTotals, edit: &Edit) -> RoomTotals
    requires { CanWriteEdit edit.now }
    ensures { (state : State) (store : AnyStore) → AreOrdered state.variables → IsTotalWithout rest (edit_key edit.now) state.variables
        → MayEdit state store edit.now → IsTotalOf result (edited edit.now state.variables) }
{
    match edit {
        Edit::Put(new) => {
            let store = Store::of(new.attributes);
            let sum = min(
                u64::from(rest.of(store)) + room_of(new),
                u64::from(u32::MAX),
            );
            rest.with(store, sum as u32)
        }
        Edit::Remove { guid: _, name: _ } => rest,
    }
}
