ghost use Rattle.std.specs.Prelude.{◌≡◌, ◌<◌, ◌≤◌, ◌^◌, ◌++◌, drop, true, false, IfOk, IfSome, List, length};
ghost use Rattle.mm_writer.specs.Doubt.{IsInDoubt};
ghost use Rattle.mm_writer.specs.Edit.{MayEdit, MayWrite, edit_key, edited};
ghost use Rattle.mm_writer.specs.Outcome.{AnswersSet, IsKeptBut};
ghost use Rattle.mm_writer.specs.Side.{IsConsistent, first_state, state_of};
ghost use Rattle.mm_writer.specs.Stands.{IsTotalWithout, Stands};
ghost use Rattle.policy_table.specs.PolicyState.{policies_of};
ghost use Rattle.var_trace.specs.StoresAfter.{history_in};
ghost use Rattle.var_types.specs.declared.decision.Decision.TheVariants.{Remove as Removing, Write as Writing};
ghost use Rattle.var_types.specs.declared.reply.SetReply.TheVariants.{Ok as Changed};
ghost use Rattle.var_types.specs.declared.store.Store.TheVariants.{NonVolatile, Volatile};
ghost use Rattle.var_types.specs.Reading.{kept_bytes, set_key};
ghost use Rattle.var_types.specs.Set.{changed, decision, set_step};
ghost use Rattle.var_types.specs.State.{stored_at};
ghost use Rattle.var_types.specs.Stores.{HaveSizes, state_in, state_seen};

use crate::books::Books;
use crate::changes::{ChangeFault, change_non_volatile, change_volatile};
use crate::edit::Edit;
use crate::failed_set::FailedSet;
use crate::prepared::Caller;
use crate::totals::totals_after;
use crate::view::EngineView;
use crate::volatile_store::VolatileStore;
use flash_dev::Flash;
use nv_store::NvStore;
use pending_range::agreement_grows_with_the_ranges as ranges_agree;
use policy_table::PolicyTable;
use set_rules::{RoomTotals, View, decide};
use std::alloc::Global;
use std::marker::Model;
use std::snapshot::Snapshot;
use var_region::{NewRecord, region_in};
use var_types::{Bytes, Decision, OutOfMemory, SetCall, SetReply, Stamp, Store, decisions_decide};

/// The management-mode side of the variable services on one thread: the non-volatile store on its flash, the volatile store in memory, the
/// policies, the phase, and the history of the changes.
#[derive(Drop)]
pub struct Engine<F: Flash> {
    pub(crate) alloc: Global,
    pub(crate) store: NvStore<F>,
    pub(crate) volatile: VolatileStore,
    pub(crate) books: Books,
    pub(crate) totals: RoomTotals,
    pub(crate) policies: PolicyTable,
    pub(crate) opened: Snapshot<NvStore<F>>,
    pub(crate) failed: FailedSet,
}

impl<F: Flash> Model for Engine<F> {
    ghost use Rattle.std.specs.Prelude.{Option};
    ghost use Rattle.mm_writer.specs.Doubt.{SetInDoubt, doubt_by};
    ghost use Rattle.mm_writer.specs.Engine.{IsEngine, side_by};
    ghost use Rattle.mm_writer.specs.Side.{Side};

    // The flash, and with it the set in doubt and the side.
    ghost Value = { F × (Option SetInDoubt × Side) };

    ghost view = { λ e. (e.store.0, (doubt_by e.store.1.1 e.failed, side_by e.opened.value.1.0 e.store.1.0 e.volatile e.books)) };

    ghost invariant = { λ e. IsEngine (side_by e.opened.value.1.0 e.store.1.0 e.volatile e.books) e.totals e.policies e.failed e.store.1.1 };
}

impl<F: Flash> Engine<F> {
    fn policies(&self) -> &PolicyTable
        ensures { policies_of (state_of self.now.1.1) ≡ result.now }
    {
        &self.policies
    }

    pub(crate) fn view(&self) -> EngineView<'_>
        ensures stands { Stands result (state_of self.now.1.1) }
        ensures seen { state_seen result.non_volatile result.volatile result.runtime ≡ state_in self.now.1.1.stores }
        ensures consistent { IsConsistent self.now.1.1 }
        ensures sizes { HaveSizes self.now.1.1.stores }
        ensures keeps { IfSome (F.holds self.now.0) (IsKeptBut self.now.1.1 self.now.1.0) }
        ensures doubt { IfSome self.now.1.0 (IsInDoubt (first_state self.now.1.1) (history_in self.now.1.1.log)) }
    {
        EngineView {
            non_volatile: region_in(Store::NonVolatile, self.store.mirror()),
            volatile: region_in(Store::Volatile, self.volatile.bytes()),
            totals: self.totals,
            policies: self.policies(),
            runtime: self.books.runtime,
            made: self.books.trace.len(),
            limit: self.books.trace.limit(),
        }
    }

    // What a set comes to, and the room totals of all variables but its own.
    fn decision(&self, call: &SetCall) -> (Decision, RoomTotals)
        ensures decision { result.0 ≡ decision (state_of self.now.1.1) call.now }
        ensures rest { IsTotalWithout result.1 (set_key call.now) (state_of self.now.1.1).variables }
        ensures keeps { IfSome (F.holds self.now.0) (IsKeptBut self.now.1.1 self.now.1.0) }
    {
        let view = self.view().at(&call.guid, call.name.as_slice());
        (decide(&view, call), view.rest())
    }

    // Makes an edit of the volatile store that a set comes to.
    fn edit_volatile(
        &mut self,
        edit: &Edit,
        caller: Caller,
        call: &SetCall,
        rest: RoomTotals,
    ) -> SetReply
        requires may { MayEdit (state_of self.old.1.1) Volatile edit.now }
        requires key { edit_key edit.now ≡ set_key call.now }
        requires step { set_step (state_of self.old.1.1) call.now
            ≡ (Changed, changed (state_of self.old.1.1) (edited edit.now (state_of self.old.1.1).variables)) }
        requires more { (state_of self.old.1.1).made < (state_of self.old.1.1).limit }
        requires rest { IsTotalWithout rest (set_key call.now) (state_of self.old.1.1).variables }
        ensures { AnswersSet F.moment F.left_since F.holds F.fault_count self.old self.new caller.processor caller.index call.now result }
    {
        ranges_agree();
        let _view = self.view();
        let totals = totals_after(rest, edit);
        match change_volatile(
            self.alloc,
            &mut self.volatile,
            &mut self.books,
            edit,
            caller,
            call,
        ) {
            Ok(()) => {
                self.totals = totals;
                SetReply::Ok
            }
            Err(_) => SetReply::OutOfMemory,
        }
    }

    // Makes an edit of the non-volatile store that a set comes to, once a doubt has ended. Where the edit fails, the set is in doubt.
    fn edit_non_volatile(
        &mut self,
        edit: &Edit,
        caller: Caller,
        call: &SetCall,
        rest: RoomTotals,
    ) -> SetReply
        requires may { MayEdit (state_of self.old.1.1) NonVolatile edit.now }
        requires key { edit_key edit.now ≡ set_key call.now }
        requires step { set_step (state_of self.old.1.1) call.now
            ≡ (Changed, changed (state_of self.old.1.1) (edited edit.now (state_of self.old.1.1).variables)) }
        requires more { (state_of self.old.1.1).made < (state_of self.old.1.1).limit }
        requires rest { IsTotalWithout rest (set_key call.now) (state_of self.old.1.1).variables }
        ensures { AnswersSet F.moment F.left_since F.holds F.fault_count self.old self.new caller.processor caller.index call.now result }
    {
        ranges_agree();
        let _view = self.view();
        let totals = totals_after(rest, edit);
        let failed = FailedSet::of(caller, self.books.trace.len(), call);
        match change_non_volatile(
            self.alloc,
            &mut self.store,
            &mut self.books,
            edit,
            caller,
            call,
        ) {
            Ok(()) => {
                self.totals = totals;
                SetReply::Ok
            }
            Err(ChangeFault::OutOfMemory) => SetReply::OutOfMemory,
            Err(ChangeFault::Unhealed) => SetReply::Device,
            Err(ChangeFault::Device) => {
                self.failed = failed;
                SetReply::Device
            }
        }
    }

    // Makes an edit that a set comes to.
    fn edit(
        &mut self,
        store: Store,
        edit: &Edit,
        caller: Caller,
        call: &SetCall,
        rest: RoomTotals,
    ) -> SetReply
        requires may { MayEdit (state_of self.old.1.1) store edit.now }
        requires key { edit_key edit.now ≡ set_key call.now }
        requires step { set_step (state_of self.old.1.1) call.now
            ≡ (Changed, changed (state_of self.old.1.1) (edited edit.now (state_of self.old.1.1).variables)) }
        requires more { (state_of self.old.1.1).made < (state_of self.old.1.1).limit }
        requires rest { IsTotalWithout rest (set_key call.now) (state_of self.old.1.1).variables }
        ensures { AnswersSet F.moment F.left_since F.holds F.fault_count self.old self.new caller.processor caller.index call.now result }
    {
        match store {
            Store::NonVolatile => self.edit_non_volatile(edit, caller, call, rest),
            Store::Volatile => self.edit_volatile(edit, caller, call, rest),
        }
    }

    // What is stored at a set's key, with its payload behind it.
    fn joined(&self, call: &SetCall, payload: &[u8]) -> Result<Bytes, OutOfMemory>
        ensures bytes { IfOk result (λ bytes. bytes ≡ kept_bytes true (stored_at (state_of self.now.1.1) (set_key call.now)) ++ payload.now) }
        ensures keeps { IfSome (F.holds self.now.0) (IsKeptBut self.now.1.1 self.now.1.0) }
    {
        let mut bytes = Bytes::new(self.alloc);
        let view = self.view().at(&call.guid, call.name.as_slice());
        if let Some(stored) = view.stored(&call.guid, call.name.as_slice()) {
            bytes.append(stored.payload)?;
        }
        bytes.append(payload)?;
        Ok(bytes)
    }

    // Puts a variable with these parts, to which a set comes.
    fn put(
        &mut self,
        attributes: u32,
        stamp: Stamp,
        bytes: &[u8],
        caller: Caller,
        call: &SetCall,
        rest: RoomTotals,
    ) -> SetReply
        requires may { MayWrite (state_of self.old.1.1) call.now (record { attributes = attributes; bytes = bytes.now; stamp = stamp }) }
        requires rest { IsTotalWithout rest (set_key call.now) (state_of self.old.1.1).variables }
        ensures { AnswersSet F.moment F.left_since F.holds F.fault_count self.old self.new caller.processor caller.index call.now result }
    {
        let new = NewRecord {
            guid: call.guid,
            name: call.name.as_slice(),
            attributes,
            stamp,
            payload: bytes,
        };
        self.edit(Store::of(attributes), &Edit::Put(new), caller, call, rest)
    }

    // Writes what a set comes to: its payload.
    fn write(
        &mut self,
        attributes: u32,
        stamp: Stamp,
        skip: u64,
        caller: Caller,
        call: &SetCall,
        rest: RoomTotals,
    ) -> SetReply
        requires write { Writing attributes stamp skip false ≡ decision (state_of self.old.1.1) call.now }
        requires rest { IsTotalWithout rest (set_key call.now) (state_of self.old.1.1).variables }
        ensures { AnswersSet F.moment F.left_since F.holds F.fault_count self.old self.new caller.processor caller.index call.now result }
    {
        decisions_decide();
        let payload = payload_of(call, skip);
        self.put(attributes, stamp, payload, caller, call, rest)
    }

    // Writes what a set that appends comes to: its payload, behind what is stored.
    fn append(
        &mut self,
        attributes: u32,
        stamp: Stamp,
        skip: u64,
        caller: Caller,
        call: &SetCall,
        rest: RoomTotals,
    ) -> SetReply
        requires append { Writing attributes stamp skip true ≡ decision (state_of self.old.1.1) call.now }
        requires rest { IsTotalWithout rest (set_key call.now) (state_of self.old.1.1).variables }
        ensures { AnswersSet F.moment F.left_since F.holds F.fault_count self.old self.new caller.processor caller.index call.now result }
    {
        decisions_decide();
        let payload = payload_of(call, skip);
        match self.joined(call, payload) {
            Ok(bytes) => self.put(attributes, stamp, bytes.as_slice(), caller, call, rest),
            Err(_) => SetReply::OutOfMemory,
        }
    }

    // Deletes what is stored at a set's key, in its store.
    fn remove(&mut self, store: Store, caller: Caller, call: &SetCall, rest: RoomTotals) -> SetReply
        requires remove { Removing store ≡ decision (state_of self.old.1.1) call.now }
        requires rest { IsTotalWithout rest (set_key call.now) (state_of self.old.1.1).variables }
        ensures { AnswersSet F.moment F.left_since F.holds F.fault_count self.old self.new caller.processor caller.index call.now result }
    {
        decisions_decide();
        let edit = Edit::Remove {
            guid: call.guid,
            name: call.name.as_slice(),
        };
        self.edit(store, &edit, caller, call, rest)
    }

    /// Answers SetVariable, as the one-thread service does after the history so far (UEFI 2.10, 8.2.3). A set that is to change a non-volatile
    /// variable ends a doubt first; all memory is taken before the first step of the flash. `Device` where a step of the flash failed, in the set or in
    /// ending the doubt before it.
    pub fn set(&mut self, processor: u8, index: u32, call: &SetCall) -> SetReply
        ensures { AnswersSet F.moment F.left_since F.holds F.fault_count self.old self.new processor index call.now result }
    {
        decisions_decide();
        let caller = Caller { processor, index };
        let (decision, rest) = self.decision(call);
        match decision {
            Decision::Refuse(reason) => SetReply::Refused(reason),
            Decision::Same => SetReply::Same,
            Decision::Remove(store) => self.remove(store, caller, call, rest),
            Decision::Write {
                attributes,
                stamp,
                skip,
                append,
            } => {
                if append {
                    self.append(attributes, stamp, skip, caller, call, rest)
                } else {
                    self.write(attributes, stamp, skip, caller, call, rest)
                }
            }
        }
    }
}

// What stands behind a set's first bytes.
fn payload_of(call: &SetCall, skip: u64) -> &[u8]
    requires { skip ≤ length call.now.bytes }
    ensures payload { result.now ≡ drop skip call.now.bytes }
    ensures attributes { call.now.attributes < 2 ^ 32 }
{
    let _attributes = call.attributes;
    &call.bytes.as_slice()[skip as usize..]
}
