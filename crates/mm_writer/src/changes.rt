//! Changes of one store with the books: all memory is taken before the store is written.
ghost use Rattle.std.specs.Prelude.{◌≡◌, ◌≢◌, ◌<◌, None, Err, OnErr, OnOk, length};
ghost use Rattle.flash_dev.specs.Moments.{Stays};
ghost use Rattle.mm_writer.specs.Books.{Enters};
ghost use Rattle.mm_writer.specs.Changes.{IsEntered, entry_by};
ghost use Rattle.mm_writer.specs.Edit.{CanEdit, edited};
ghost use Rattle.mm_writer.specs.Editing.{IsEditLeft, IsStillInDoubt};
ghost use Rattle.nv_store.specs.Outcome.{IsLeftInDoubt};
ghost use Rattle.outside.specs.Faults.{HasCause};
ghost use Rattle.var_types.specs.declared.store.Store.TheVariants.{NonVolatile, Volatile};

use crate::books::Books;
use crate::edit::Edit;
use crate::editing::{edit_surely, spans_of};
use crate::prepared::Caller;
use crate::volatile_store::VolatileStore;
use flash_dev::Flash;
use nv_store::NvStore;
use std::alloc::Global;
use var_types::{OutOfMemory, SetCall, Store};

/// Why a change was not made: memory is wanting, the heal before it failed, or the change itself did.
#[derive(Clone, Copy, Debug)]
pub(crate) enum ChangeFault {
    OutOfMemory,
    Unhealed,
    Device,
}

impl From<OutOfMemory> for ChangeFault {
    ghost use Rattle.std.specs.Prelude.{◌≡◌};
    ghost use Rattle.mm_writer.specs.declared.changes.ChangeFault.TheVariants as fault;

    ghost from_gives = { λ _ e. e ≡ fault.OutOfMemory };

    fn from(_: OutOfMemory) -> Self {
        ChangeFault::OutOfMemory
    }
}

/// Makes an edit of the volatile store, and enters it.
pub(crate) fn change_volatile(
    alloc: Global,
    volatile: &mut VolatileStore,
    books: &mut Books,
    edit: &Edit,
    caller: Caller,
    call: &SetCall,
) -> Result<(), OutOfMemory>
    requires can { CanEdit Volatile volatile.old edit.now }
    requires room { length books.old.trace.log < books.old.trace.limit }
    ensures done { OnOk result (IsEntered Volatile edit.now volatile.old volatile.new (entry_by caller call.now books.old) books.old books.new) }
    ensures store { OnErr result (volatile.new ≡ volatile.old) }
    ensures books { OnErr result (books.new ≡ books.old) }
{
    let spans = volatile.spans(edit);
    let prepared = books.prepare_set(
        alloc,
        caller,
        call,
        Store::Volatile,
        volatile.bytes(),
        &spans,
    )?;
    volatile.edit(edit);
    books.enter(
        prepared.entry,
        prepared.delta,
        Store::Volatile,
        &spans,
        volatile.bytes(),
    );
    Ok(())
}

/// Makes an edit of the non-volatile store, once a doubt of it has ended, and enters it.
pub(crate) fn change_non_volatile<F: Flash>(
    alloc: Global,
    store: &mut NvStore<F>,
    books: &mut Books,
    edit: &Edit,
    caller: Caller,
    call: &SetCall,
) -> Result<(), ChangeFault>
    requires can { CanEdit NonVolatile store.old.1.0 edit.now }
    requires room { length books.old.trace.log < books.old.trace.limit }
    ensures done { OnOk result (IsEntered NonVolatile edit.now store.old.1.0 store.new.1.0 (entry_by caller call.now books.old) books.old books.new) }
    ensures sure { OnOk result (store.new.1.1 ≡ None) }
    ensures books { OnErr result (books.new ≡ books.old) }
    ensures memory { result ≡ Err ChangeFault.OutOfMemory → store.new ≡ store.old }
    ensures unhealed { result ≡ Err ChangeFault.Unhealed → IsStillInDoubt F.moment F.left_since F.holds store.old store.new }
    ensures failed { result ≡ Err ChangeFault.Device → IsLeftInDoubt (edited edit.now) store.old.1 store.new.1 }
    ensures at_any_moment { result ≢ Err ChangeFault.OutOfMemory
        → Stays (IsEditLeft (edited edit.now) store.old.1) F.moment F.left_since F.holds store.old.0 store.new.0 }
    ensures cause { result ≢ Err ChangeFault.OutOfMemory → HasCause (F.fault_count store.old.0) (F.fault_count store.new.0) result }
{
    let spans = spans_of(store, edit);
    let prepared = books.prepare_set(
        alloc,
        caller,
        call,
        Store::NonVolatile,
        store.mirror(),
        &spans,
    )?;
    match edit_surely(store, edit) {
        Ok(()) => {
            books.enter(
                prepared.entry,
                prepared.delta,
                Store::NonVolatile,
                &spans,
                store.mirror(),
            );
            Ok(())
        }
        Err(fault) => Err(fault),
    }
}
