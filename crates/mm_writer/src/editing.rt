//! Edits of the non-volatile store.
ghost use Rattle.std.specs.Prelude.{◌≡◌, ◌≢◌, Err, IfSome, IsSome, None, OnErr, OnOk, length};
ghost use Rattle.flash_dev.specs.Moments.{Stays};
ghost use Rattle.mm_writer.specs.Edit.{CanEdit, IsEdited, edit_spans, edited};
ghost use Rattle.mm_writer.specs.Editing.{IsEditLeft, IsStillInDoubt};
ghost use Rattle.nv_store.specs.Mirror.{IsTold};
ghost use Rattle.nv_store.specs.Outcome.{IsChangeLeft, IsLeftInDoubt};
ghost use Rattle.outside.specs.Faults.{HasCause};
ghost use Rattle.var_types.specs.declared.store.Store.TheVariants.{NonVolatile};
ghost use Rattle.var_types.specs.Kept.{IsContentOr};
ghost use Rattle.var_types.specs.Spans.{AreWithin};

use crate::changes::ChangeFault;
use crate::edit::Edit;
use flash_dev::{Device, Flash};
use nv_store::{NvStore, StoreFault};
use var_types::Span;

const NOWHERE: Span = Span { from: 0, to: 0 };

/// Where an edit will write in the mirror.
#[tactic(auto, unfolding(crate::specs::Edit::edit_spans))]
pub(crate) fn spans_of<F: Flash>(store: &NvStore<F>, edit: &Edit) -> [Span; 3]
    requires { CanEdit NonVolatile store.now.1.0 edit.now }
    ensures spans { result ≡ edit_spans NonVolatile store.now.1.0 edit.now }
    ensures within { AreWithin result (length store.now.1.0) }
{
    match edit {
        Edit::Put(new) => store.put_spans(new),
        Edit::Remove { guid, name } => {
            let [first, second] = store.remove_spans(guid, name);
            [first, second, NOWHERE]
        }
    }
}

// Makes an edit of a store that isn't in doubt.
fn edit_sure<F: Flash>(store: &mut NvStore<F>, edit: &Edit) -> Result<(), Device>
    requires sure { store.old.1.1 ≡ None }
    requires can { CanEdit NonVolatile store.old.1.0 edit.now }
    ensures edited { OnOk result (IsEdited NonVolatile edit.now store.old.1.0 store.new.1.0) }
    ensures sure { OnOk result (store.new.1.1 ≡ None) }
    ensures failed { OnErr result (IsLeftInDoubt (edited edit.now) store.old.1 store.new.1) }
    ensures at_any_moment { Stays (IsChangeLeft (edited edit.now)) F.moment F.left_since F.holds store.old.0 store.new.0 }
    ensures cause { HasCause (F.fault_count store.old.0) (F.fault_count store.new.0) result }
{
    match edit {
        Edit::Put(new) => match store.put(new) {
            Ok(()) => Ok(()),
            Err(StoreFault::Device) => Err(Device),
            // The set rule has found room.
            Err(StoreFault::NoRoom { need: _, have: _ }) => Err(Device),
        },
        Edit::Remove { guid, name } => match store.remove(guid, name) {
            Ok(()) => Ok(()),
            Err(_) => Err(Device),
        },
    }
}

// The same, where what the flash keeps is told by the mirror.
fn edit_undoubted<F: Flash>(store: &mut NvStore<F>, edit: &Edit) -> Result<(), ChangeFault>
    requires sure { store.old.1.1 ≡ None }
    requires can { CanEdit NonVolatile store.old.1.0 edit.now }
    ensures edited { OnOk result (IsEdited NonVolatile edit.now store.old.1.0 store.new.1.0) }
    ensures sure { OnOk result (store.new.1.1 ≡ None) }
    ensures memory { result ≢ Err ChangeFault.OutOfMemory }
    ensures unhealed { result ≢ Err ChangeFault.Unhealed }
    ensures failed { result ≡ Err ChangeFault.Device → IsLeftInDoubt (edited edit.now) store.old.1 store.new.1 }
    ensures at_any_moment { Stays (IsEditLeft (edited edit.now) store.old.1) F.moment F.left_since F.holds store.old.0 store.new.0 }
    ensures cause { HasCause (F.fault_count store.old.0) (F.fault_count store.new.0) result }
{
    let _mirror = store.mirror();
    match edit_sure(store, edit) {
        Ok(()) => Ok(()),
        Err(Device) => Err(ChangeFault::Device),
    }
}

// Ends a doubt: the flash keeps what it may have kept, and once it is done the mirror's variables.
fn end_doubt<F: Flash>(store: &mut NvStore<F>) -> Result<(), Device>
    requires doubt { IsSome store.old.1.1 }
    ensures mirror { store.new.1.0 ≡ store.old.1.0 }
    ensures sure { OnOk result (store.new.1.1 ≡ None) }
    ensures same { OnErr result (store.new.1 ≡ store.old.1) }
    ensures told { IfSome (F.holds store.old.0) (IsTold store.old.1.0 store.old.1.1) }
    ensures at_any_moment { Stays (IsContentOr store.old.1.0) F.moment F.left_since F.holds store.old.0 store.new.0 }
    ensures cause { HasCause (F.fault_count store.old.0) (F.fault_count store.new.0) result }
{
    let _mirror = store.mirror();
    match store.heal() {
        Ok(()) => Ok(()),
        Err(Device) => Err(Device),
    }
}

/// Makes an edit, once a doubt has ended. It takes no memory.
pub(crate) fn edit_surely<F: Flash>(store: &mut NvStore<F>, edit: &Edit) -> Result<(), ChangeFault>
    requires { CanEdit NonVolatile store.old.1.0 edit.now }
    ensures edited { OnOk result (IsEdited NonVolatile edit.now store.old.1.0 store.new.1.0) }
    ensures sure { OnOk result (store.new.1.1 ≡ None) }
    ensures memory { result ≢ Err ChangeFault.OutOfMemory }
    ensures unhealed { result ≡ Err ChangeFault.Unhealed → IsStillInDoubt F.moment F.left_since F.holds store.old store.new }
    ensures failed { result ≡ Err ChangeFault.Device → IsLeftInDoubt (edited edit.now) store.old.1 store.new.1 }
    ensures at_any_moment { Stays (IsEditLeft (edited edit.now) store.old.1) F.moment F.left_since F.holds store.old.0 store.new.0 }
    ensures cause { HasCause (F.fault_count store.old.0) (F.fault_count store.new.0) result }
{
    if !store.in_doubt() {
        return edit_undoubted(store, edit);
    }
    match end_doubt(store) {
        Ok(()) => edit_undoubted(store, edit),
        Err(Device) => Err(ChangeFault::Unhealed),
    }
}
