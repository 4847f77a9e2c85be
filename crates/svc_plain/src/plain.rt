ghost use Rattle.std.specs.Prelude.{◌≡◌, ◌+◌, ◌<◌, ◌≤◌, true, false, [], length, IfSome, Some};
ghost use Rattle.std.specs.BTreeMap.{insert_entry, is_at};
ghost use Rattle.std.specs.Map.{lookup, remove_entry};
ghost use Rattle.std.specs.Option.{option_copied};
ghost use Rattle.set_rules.specs.RoomTotals.{HasRoom, IsTotalOf, total_of, totals_and, totals_without};
ghost use Rattle.svc_plain.specs.Written.{written};
ghost use Rattle.var_types.specs.Attributes.{store_of};
ghost use Rattle.var_types.specs.Exit.{exit_step};
ghost use Rattle.var_types.specs.Get.{get_found, get_reply};
ghost use Rattle.var_types.specs.Key.{key_cmp, key_of};
ghost use Rattle.var_types.specs.Next.{next_reply, next_named, next_behind, next_above};
ghost use Rattle.var_types.specs.PolicyStep.{policy_step};
ghost use Rattle.var_types.specs.Reading.{set_key};
ghost use Rattle.var_types.specs.Room.{room_of};
ghost use Rattle.var_types.specs.Set.{changed, decision, set_step};
ghost use Rattle.var_types.specs.SetLaws.{Follows};
ghost use Rattle.var_types.specs.State.{start, stored_at, visible_at};
ghost use Rattle.var_types.specs.Step.{step, lacks_memory};
ghost use Rattle.var_types.specs.declared.decision.Decision.TheVariants.{Remove as Removing, Write as Writing};
ghost use Rattle.var_types.specs.declared.reply.SetReply.TheVariants.{Ok as Changed};

use crate::gets::{get_stored, shown_at};
use crate::key_view::KeyView;
use crate::next::{key_above, next_found};
use crate::puts::{Write, put};
use policy_table::PolicyTable;
use set_rules::{RoomTotals, decide};
use std::alloc::Global;
use std::collections::BTreeMap;
use std::marker::Model;
use std::mem::replace;
use var_types::{
    Call, Decision, ExitReply, GetCall, GetReply, Key, NameFault, NextCall, NextReply, PolicyCall,
    PolicyReply, Reply, SetCall, SetReply, Store, Variable, check_name, decisions_decide, room_of,
};

/// The variable service on one thread, which starts with no variable.
#[derive(Drop)]
pub struct Plain {
    alloc: Global,
    variables: BTreeMap<Key, Variable>,
    /// The key of the present call, so that a look-up takes no memory where an earlier one took as much.
    probe: Key,
    totals: RoomTotals,
    table: PolicyTable,
    runtime: bool,
    made: u64,
    limit: u64,
}

impl Model for Plain {
    ghost use Rattle.std.specs.Prelude.{true, false, []};
    ghost use Rattle.var_types.specs.State.{State};
    ghost use Rattle.set_rules.specs.RoomTotals.{IsTotalOf};

    ghost Value = { State };

    ghost view = { λ p. record {
      variables = p.variables.entries;
      policies = p.table.policies;
      policy_on = p.table.policy_on;
      locked = p.table.locked;
      runtime = p.runtime;
      made = p.made;
      limit = p.limit;
    } };

    ghost invariant = { λ p. IsTotalOf p.totals p.variables.entries };
}

impl Plain {
    /// A service with no variable, which makes at most `limit` changes.
    pub fn new(alloc: Global, limit: u64) -> Self
        ensures { result ≡ start [] limit }
    {
        Plain {
            alloc,
            variables: BTreeMap::new(alloc),
            probe: Key::empty(alloc),
            totals: RoomTotals {
                non_volatile: 0,
                volatile: 0,
            },
            table: PolicyTable::new(alloc),
            runtime: false,
            made: 0,
            limit,
        }
    }

    /// Answers a call as the one-thread service does; a call that was out of memory changes nothing.
    #[tactic(auto, unfolding(var_types::specs::Step::step))]
    pub fn step(&mut self, call: &Call) -> Reply
        ensures done { lacks_memory call.now result ≡ false → (result, self.new) ≡ step self.old call.now }
        ensures memory { lacks_memory call.now result ≡ true → self.new ≡ self.old }
    {
        match call {
            Call::Get(get) => Reply::Get(self.get_reply(get)),
            Call::Next(next) => Reply::Next(self.next_reply(next)),
            Call::Set(set) => Reply::Set(self.set_step(set)),
            Call::Policy(policy) => Reply::Policy(self.policy_step(policy)),
            Call::ExitBoot => Reply::Exit(self.exit_step()),
        }
    }

    /// How many changes were made.
    pub fn made(&self) -> u64
        ensures { result ≡ self.now.made }
    {
        self.made
    }

    /// A get, by its name.
    #[tactic(auto, unfolding(var_types::specs::Get::get_reply))]
    fn get_reply(&mut self, call: &GetCall) -> GetReply
        ensures done { lacks_memory (Call.Get call.now) (Reply.Get result) ≡ false → result ≡ get_reply self.old call.now }
        ensures same { self.new ≡ self.old }
    {
        match check_name(call.name.as_slice()) {
            Err(_) => GetReply::NotFound,
            Ok(()) => self.get_visible(call),
        }
    }

    /// A get under a well-formed name.
    fn get_visible(&mut self, call: &GetCall) -> GetReply
        ensures done { lacks_memory (Call.Get call.now) (Reply.Get result) ≡ false
            → result ≡ get_found (visible_at self.old (key_of call.now.guid call.now.name)) call.now.room }
        ensures same { self.new ≡ self.old }
    {
        get_stored(
            self.alloc,
            &self.variables,
            self.runtime,
            &mut self.probe,
            call,
        )
    }

    /// A call for the next name, by the name that it goes on from.
    #[tactic(auto, unfolding(var_types::specs::Next::next_reply))]
    fn next_reply(&mut self, call: &NextCall) -> NextReply
        ensures done { lacks_memory (Call.Next call.now) (Reply.Next result) ≡ false → result ≡ next_reply self.old call.now }
        ensures same { self.new ≡ self.old }
    {
        self.next_named(call, check_name(call.name.as_slice()))
    }

    /// A call for the next name, by what the check of the name that it goes on from says.
    #[tactic(auto, unfolding(var_types::specs::Next::next_named))]
    fn next_named(&mut self, call: &NextCall, named: Result<(), NameFault>) -> NextReply
        ensures done { lacks_memory (Call.Next call.now) (Reply.Next result) ≡ false → result ≡ next_named self.old call.now named }
        ensures same { self.new ≡ self.old }
    {
        match named {
            Err(NameFault::Empty) => next_found(call, self.next_above(None)),
            Err(NameFault::TooLong { .. } | NameFault::InnerNul { .. }) => NextReply::NoSuch,
            Ok(()) => self.next_behind(call),
        }
    }

    /// The answer behind a key, which must be that of a variable that callers see.
    fn next_behind(&mut self, call: &NextCall) -> NextReply
        ensures done { lacks_memory (Call.Next call.now) (Reply.Next result) ≡ false
            → result ≡ next_behind self.old call.now (visible_at self.old (key_of call.now.guid call.now.name)) }
        ensures same { self.new ≡ self.old }
    {
        if self.probe.assign(call.guid, &call.name).is_err() {
            return NextReply::OutOfMemory;
        }
        match shown_at(&self.variables, self.runtime, &self.probe) {
            None => NextReply::NoSuch,
            Some(_) => next_found(call, self.next_above(Some(&self.probe))),
        }
    }

    /// The least key above a bound that callers see, where there is one.
    fn next_above(&self, bound: Option<&Key>) -> Option<&Key>
        ensures { option_copied result ≡ next_above self.now (option_copied bound.entry) }
    {
        key_above(&self.variables, self.runtime, bound)
    }

    /// The end of the boot phase.
    #[tactic(auto, unfolding(var_types::specs::Exit::exit_step))]
    fn exit_step(&mut self) -> ExitReply
        ensures { (result, self.new) ≡ exit_step self.old }
    {
        if self.runtime {
            return ExitReply::Same;
        }
        if self.limit <= self.made {
            return ExitReply::HistoryFull { made: self.made };
        }
        self.runtime = true;
        self.made += 1;
        ExitReply::Ok
    }

    /// A call about the policies.
    fn policy_step(&mut self, call: &PolicyCall) -> PolicyReply
        ensures done { lacks_memory (Call.Policy call.now) (Reply.Policy result) ≡ false → (result, self.new) ≡ policy_step self.old call.now }
        ensures memory { lacks_memory (Call.Policy call.now) (Reply.Policy result) ≡ true → self.new ≡ self.old }
    {
        self.table.answer(call, &mut self.made, self.limit)
    }

    /// A set, whose key is made in the memory of the one before.
    fn set_step(&mut self, call: &SetCall) -> SetReply
        ensures done { lacks_memory (Call.Set call.now) (Reply.Set result) ≡ false → (result, self.new) ≡ set_step self.old call.now }
        ensures memory { lacks_memory (Call.Set call.now) (Reply.Set result) ≡ true → self.new ≡ self.old }
    {
        let mut key = replace(&mut self.probe, Key::empty(self.alloc));
        let reply = if key.assign(call.guid, &call.name).is_ok() {
            self.set_at(&key, call)
        } else {
            SetReply::OutOfMemory
        };
        self.probe = key;
        reply
    }

    /// A set at its key, by what the set rule decides.
    fn set_at(&mut self, key: &Key, call: &SetCall) -> SetReply
        requires { key.now ≡ set_key call.now }
        ensures done { lacks_memory (Call.Set call.now) (Reply.Set result) ≡ false → (result, self.new) ≡ set_step self.old call.now }
        ensures memory { lacks_memory (Call.Set call.now) (Reply.Set result) ≡ true → self.new ≡ self.old }
    {
        decisions_decide();
        match self.decision(key, call) {
            Decision::Refuse(reason) => SetReply::Refused(reason),
            Decision::Same => SetReply::Same,
            Decision::Remove(_) => self.removed(key),
            Decision::Write {
                attributes,
                stamp,
                skip,
                append,
            } => {
                let write = Write {
                    attributes,
                    stamp,
                    skip,
                    append,
                };
                self.written(key, call, &write)
            }
        }
    }

    /// What a set comes to.
    fn decision(&self, key: &Key, call: &SetCall) -> Decision
        requires { key.now ≡ set_key call.now }
        ensures { result ≡ decision self.now call.now }
    {
        let found = self.variables.get(key);
        let view = KeyView {
            key,
            found,
            rest: totals_without(self.totals, key, found),
            variables: &self.variables,
            table: &self.table,
            runtime: self.runtime,
            made: self.made,
            limit: self.limit,
        };
        decide(&view, call)
    }

    /// Deletes what is stored at a key.
    fn removed(&mut self, key: &Key) -> SetReply
        requires { self.old.made < self.old.limit }
        ensures reply { result ≡ Changed }
        ensures state { self.new ≡ changed self.old (remove_entry (is_at (key_cmp key.now)) self.old.variables) }
    {
        let rest = totals_without(self.totals, key, self.variables.get(key));
        self.variables.remove(key);
        self.totals = rest;
        self.made += 1;
        SetReply::Ok
    }

    /// Puts the variable of a write at a key.
    fn written(&mut self, key: &Key, call: &SetCall, write: &Write) -> SetReply
        requires more { self.old.made < self.old.limit }
        requires within { write.now.skip ≤ length call.now.bytes }
        requires room { HasRoom self.old.variables key.now (written call.now (stored_at self.old key.now) write.now) }
        ensures reply { lacks_memory (Call.Set call.now) (Reply.Set result) ≡ false → result ≡ Changed }
        ensures state { lacks_memory (Call.Set call.now) (Reply.Set result) ≡ false
            → self.new
            ≡ changed self.old
            (insert_entry key_cmp self.old.variables key.now (written call.now (stored_at self.old key.now) write.now)) }
        ensures memory { lacks_memory (Call.Set call.now) (Reply.Set result) ≡ true → self.new ≡ self.old }
    {
        let rest = totals_without(self.totals, key, self.variables.get(key));
        if put(self.alloc, &mut self.variables, key, call, write).is_err() {
            return SetReply::OutOfMemory;
        }
        self.totals = totals_with(rest, key, self.variables.get(key));
        self.made += 1;
        SetReply::Ok
    }
}

/// The totals without what is stored at a key.
fn totals_without(totals: RoomTotals, key: &Key, found: Option<&Variable>) -> RoomTotals
    requires { IfSome (option_copied found)
        (λ variable. room_of key.now variable ≤ total_of totals (store_of variable.attributes)) }
    ensures { result ≡ totals_without totals key.now (option_copied found.entry) }
{
    match found {
        None => totals,
        Some(variable) => {
            let store = Store::of(variable.attributes);
            totals.with(store, totals.of(store) - room_of(key, variable) as u32)
        }
    }
}

/// The totals with what is stored at a key besides.
fn totals_with(totals: RoomTotals, key: &Key, found: Option<&Variable>) -> RoomTotals
    requires { IfSome (option_copied found)
        (λ variable. total_of totals (store_of variable.attributes) + room_of key.now variable ≤ 65508) }
    ensures { result ≡ totals_and totals key.now (option_copied found.entry) }
{
    match found {
        None => totals,
        Some(variable) => {
            let store = Store::of(variable.attributes);
            totals.with(store, totals.of(store) + room_of(key, variable) as u32)
        }
    }
}
