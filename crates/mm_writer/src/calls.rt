//! The calls that write no bytes: reads of variables, calls about the policies, and the end of the boot phase; and what the engine lends.
ghost use Rattle.std.specs.Prelude.{◌≡◌, ◌<◌, ◌≤◌, ◌/◌, IfOk, IfSome, None, OnErr, Some, is_some, length, min, true};
ghost use Rattle.mm_writer.specs.Doubt.{IsInDoubt};
ghost use Rattle.mm_writer.specs.Outcome.{IsAnswered, IsKeptBut, entry_after};
ghost use Rattle.mm_writer.specs.Side.{IsConsistent, first_state, state_of};
ghost use Rattle.var_trace.specs.StoresAfter.{history_in};
ghost use Rattle.var_types.specs.Answers.{get_answer, next_answer};
ghost use Rattle.var_types.specs.declared.call.Call.TheVariants.{ExitBoot as ExitCalled, Policy as PolicyCalled};
ghost use Rattle.var_types.specs.declared.reply.Reply.TheVariants.{Exit as ExitReplied, Policy as PolicyReplied};
ghost use Rattle.var_types.specs.Get.{get_reply};
ghost use Rattle.var_types.specs.Kept.{volume};
ghost use Rattle.var_types.specs.Layout.{image_size, longest_region, volatile_size, volume_size};
ghost use Rattle.var_types.specs.Next.{next_reply};
ghost use Rattle.var_types.specs.PolicyStep.{takes_memory};
ghost use Rattle.var_types.specs.Step.{is_change};

use crate::engine::Engine;
use crate::prepared::Caller;
use flash_dev::Flash;
use nv_store::Lists;
use pending_range::agreement_grows_with_the_ranges as ranges_agree;
use runtime_cache::{get, next};
use var_region::region_in;
use var_trace::{Entry, Trace};
use var_types::{
    Call, ExitReply, GetAnswer, Guid, NextAnswer, OutOfMemory, PolicyCall, PolicyReply, Store,
    stores_answer_for_their_state,
};

fn copy_of(call: &PolicyCall) -> Result<PolicyCall, OutOfMemory>
    ensures copy { IfOk result (λ copy. copy ≡ call.now) }
    ensures memory { OnErr result (takes_memory call.now ≡ true) }
{
    Ok(match call {
        PolicyCall::Register(entry) => PolicyCall::Register(entry.clone()?),
        PolicyCall::Lock => PolicyCall::Lock,
        PolicyCall::Disable => PolicyCall::Disable,
        PolicyCall::Enabled => PolicyCall::Enabled,
        PolicyCall::At(place) => PolicyCall::At(*place),
    })
}

fn is_change(reply: &PolicyReply) -> bool
    ensures { result ≡ is_change (PolicyReplied reply.now) }
{
    match reply {
        PolicyReply::Ok => true,
        PolicyReply::On
        | PolicyReply::Off
        | PolicyReply::Entry(_)
        | PolicyReply::Refused(_)
        | PolicyReply::OutOfMemory => false,
    }
}

impl<F: Flash> Engine<F> {
    /// Answers GetVariable from the two stores, in one pass over each at most (UEFI 2.10, 8.2.1); the buffer takes the data, and stays where
    /// there are none.
    pub fn get(&self, guid: &Guid, name: &[u16], room: u32, into: &mut [u8]) -> GetAnswer
        requires { min room longest_region ≤ length into.old }
        ensures { Some (result, into.new)
            ≡ get_answer (get_reply (state_of self.now.1.1) (record { guid = guid.now; name = name.now; room = room })) into.old }
    {
        stores_answer_for_their_state();
        let view = self.view();
        get(
            &view.non_volatile,
            &view.volatile,
            view.runtime,
            guid,
            name,
            room,
            into,
        )
    }

    /// Answers GetNextVariableName from the two stores (UEFI 2.10, 8.2.2); the buffer takes the name without its NUL, and stays where there is
    /// none.
    pub fn next(&self, guid: &Guid, name: &[u16], room: u32, into: &mut [u16]) -> NextAnswer
        requires { min (room / 2) 513 ≤ length into.old }
        ensures { Some (result, into.new)
            ≡ next_answer (next_reply (state_of self.now.1.1) (record { guid = guid.now; name = name.now; room = room })) into.old }
    {
        stores_answer_for_their_state();
        let view = self.view();
        next(
            &view.non_volatile,
            &view.volatile,
            view.runtime,
            guid,
            name,
            room,
            into,
        )
    }

    // The entry of a change, if a call is one.
    fn entry(&self, caller: Caller, call: Call) -> Entry
        ensures { result ≡ entry_after self.now.1.1 caller.processor caller.index call }
    {
        Entry {
            number: self.books.trace.len(),
            processor: caller.processor,
            index: caller.index,
            call,
        }
    }

    // Answers a call about the policies, and enters it where it is a change.
    fn answer_policy(&mut self, caller: Caller, call: &PolicyCall, entry: Entry) -> PolicyReply
        requires { entry ≡ entry_after self.old.1.1 caller.processor caller.index (PolicyCalled call.now) }
        ensures answered { IsAnswered self.old.1.1 self.new.1.1 caller.processor caller.index (PolicyCalled call.now) (PolicyReplied result) }
        ensures untouched { self.new.0 ≡ self.old.0 }
        ensures same_doubt { self.new.1.0 ≡ self.old.1.0 }
    {
        ranges_agree();
        let mut made = self.books.trace.len();
        let limit = self.books.trace.limit();
        let reply = self.policies.answer(call, &mut made, limit);
        if !is_change(&reply) {
            return reply;
        }
        let runtime = self.books.runtime;
        self.books.enter_in(self.alloc, entry, runtime);
        reply
    }

    /// Answers a call about the policies, as the one-thread service does after the history so far; the flash stays. All memory is taken before
    /// the policies change; a call to lock them, to turn policy off, or whether it is on, takes none.
    pub fn policy(&mut self, processor: u8, index: u32, call: &PolicyCall) -> PolicyReply
        ensures answered { IsAnswered self.old.1.1 self.new.1.1 processor index (PolicyCalled call.now) (PolicyReplied result) }
        ensures untouched { self.new.0 ≡ self.old.0 }
        ensures same_doubt { self.new.1.0 ≡ self.old.1.0 }
    {
        let caller = Caller { processor, index };
        match copy_of(call) {
            Ok(copy) => {
                let entry = self.entry(caller, Call::Policy(copy));
                self.answer_policy(caller, call, entry)
            }
            Err(_) => PolicyReply::OutOfMemory,
        }
    }

    /// Ends the boot phase (UEFI 2.10, 7.4), as the one-thread service does after the history so far; the flash stays. It takes no memory.
    pub fn exit_boot(&mut self, processor: u8, index: u32) -> ExitReply
        ensures answered { IsAnswered self.old.1.1 self.new.1.1 processor index ExitCalled (ExitReplied result) }
        ensures untouched { self.new.0 ≡ self.old.0 }
        ensures same_doubt { self.new.1.0 ≡ self.old.1.0 }
    {
        ranges_agree();
        if self.books.runtime {
            return ExitReply::Same;
        }
        let made = self.books.trace.len();
        if self.books.trace.limit() <= made {
            return ExitReply::HistoryFull { made };
        }
        let entry = self.entry(Caller { processor, index }, Call::ExitBoot);
        self.books.enter_in(self.alloc, entry, true);
        ExitReply::Ok
    }

    /// How many changes were made.
    pub fn made(&self) -> u64
        ensures { result ≡ length self.now.1.1.log }
    {
        self.books.trace.len()
    }

    /// The volume of the non-volatile store, of 57,344 bytes, headers included; no set being in doubt it is the flash's.
    pub fn non_volatile(&self) -> &[u8]
        ensures bytes { result.now ≡ self.now.1.1.stores.non_volatile }
        ensures size { length result.now ≡ volume_size }
        ensures flash { F.size self.now.0 ≡ image_size }
        ensures volume { self.now.1.0 ≡ None → IfSome (F.holds self.now.0) (λ image. volume image ≡ result.now) }
    {
        self.store.mirror()
    }

    /// The volatile store, of 65,536 bytes, its header included.
    pub fn volatile(&self) -> &[u8]
        ensures bytes { result.now ≡ self.now.1.1.stores.volatile }
        ensures size { length result.now ≡ volatile_size }
    {
        self.volatile.bytes()
    }

    /// Whether the phase is runtime.
    pub fn runtime(&self) -> bool
        ensures { result ≡ self.now.1.1.stores.runtime }
    {
        self.books.runtime
    }

    /// Whether a set that failed is in doubt: it is not known whether the flash keeps its change.
    pub fn in_doubt(&self) -> bool
        ensures { result ≡ is_some self.now.1.0 }
    {
        self.store.in_doubt()
    }

    /// The flash, for reads of what it counts.
    pub fn flash(&self) -> &F
        ensures { result.now ≡ self.now.0 }
    {
        self.store.flash()
    }

    /// The history. The side is consistent, and the flash keeps the history's non-volatile variables, or those that the set in doubt would have left
    /// at its place.
    pub fn trace(&self) -> &Trace
        ensures log { result.now ≡ record { log = self.now.1.1.log; limit = self.now.1.1.limit } }
        ensures consistent { IsConsistent self.now.1.1 }
        ensures keeps { IfSome (F.holds self.now.0) (IsKeptBut self.now.1.1 self.now.1.0) }
        ensures doubt { IfSome self.now.1.0 (IsInDoubt (first_state self.now.1.1) (history_in self.now.1.1.log)) }
    {
        let _view = self.view();
        &self.books.trace
    }

    /// Gives back the flash and the history.
    pub fn release(self) -> (F, Trace)
        ensures flash { result.0 ≡ self.0 }
        ensures trace { result.1 ≡ record { log = self.1.1.log; limit = self.1.1.limit } }
        ensures consistent { IsConsistent self.1.1 }
    {
        (self.store.release(), self.books.trace)
    }
}

impl<F: Lists> Engine<F> {
    /// Gives out what the flash has listed.
    pub fn give_list(&mut self) -> F::List
        ensures gives { F.gives self.old.0 result self.new.0 }
        ensures rest { self.new.1 ≡ self.old.1 }
    {
        self.store.give_list()
    }
}
