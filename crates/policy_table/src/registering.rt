//! Registering a policy, and handing out its entry.
ghost use Rattle.std.specs.Prelude.{◌≡◌, ◌<◌, IfOk, IfErr, OnOk, OnErr, IsOk, length, Ok, [], ◌∷◌, ◌++◌};
ghost use Rattle.policy_table.specs.Answers.{AppendsEntryAt, RefusesEntryAt, RefusesRegister, Registers, reason_of};
ghost use Rattle.var_types.specs.PolicyStep.{if_new, if_read, registered};

use crate::table::{MOST_POLICIES, PolicyTable, place_of};
use policy_entry::{read_entry, write_entry};
use policy_match::CountedPolicy;
use var_types::{Bytes, EntryFault, Policy, PolicyReason};

fn reason_of(fault: EntryFault) -> PolicyReason
    ensures { result ≡ reason_of fault }
{
    match fault {
        EntryFault::OutOfMemory => PolicyReason::OutOfMemory,
        fault => PolicyReason::Entry(fault),
    }
}

impl PolicyTable {
    /// A policy that was read, if it may be put behind the others.
    fn if_new(&self, policy: Policy) -> Result<Policy, PolicyReason>
        ensures ok { IfOk result (λ p. if_read self.now.policies (Ok policy) ≡ Ok p) }
        ensures room { OnOk result (length self.now.policies < 1024) }
        ensures err { IfErr result (λ reason. if_read self.now.policies (Ok policy) ≡ Err reason) }
    {
        if let Some(place) = place_of(self.policies.as_slice(), &policy) {
            return Err(PolicyReason::Already {
                place: place as u32,
            });
        }
        if self.policies.len() as u32 >= MOST_POLICIES {
            let entries = MOST_POLICIES;
            return Err(PolicyReason::TableFull { entries });
        }
        Ok(policy)
    }

    /// The policy of an entry, if it may be put behind the others.
    #[tactic(auto, unfolding(var_types::specs::PolicyStep::registered))]
    pub(crate) fn admit(&self, entry: &[u8]) -> Result<Policy, PolicyReason>
        ensures ok { IfOk result (λ policy. registered self.now.policies self.now.locked entry.now ≡ Ok policy) }
        ensures room { OnOk result (length self.now.policies < 1024) }
        ensures err { IfErr result (RefusesRegister self.now entry.now) }
    {
        if self.locked {
            return Err(PolicyReason::Locked);
        }
        match read_entry(self.alloc, entry) {
            Err(fault) => Err(reason_of(fault)),
            Ok(policy) => self.if_new(policy),
        }
    }

    /// Puts a policy behind the others; out of memory, nothing changes.
    pub(crate) fn put(&mut self, policy: Policy) -> Result<(), PolicyReason>
        requires { length self.old.policies < 1024 }
        ensures ok { OnOk result (self.new ≡ record self.old { policies = self.old.policies ++ policy ∷ [] }) }
        ensures err { OnErr result (self.new ≡ self.old) }
        ensures memory { IfErr result (λ reason. reason ≡ PolicyReason.OutOfMemory) }
    {
        match self.policies.push(CountedPolicy::new(policy)) {
            Ok(()) => Ok(()),
            Err(_) => Err(PolicyReason::OutOfMemory),
        }
    }

    /// Registers the policy of an entry behind the others.
    pub fn register(&mut self, entry: &[u8]) -> Result<(), PolicyReason>
        ensures ok { OnOk result (Registers self.old entry.now self.new) }
        ensures err { IfErr result (RefusesRegister self.old entry.now) }
        ensures kept { OnErr result (self.new ≡ self.old) }
    {
        match self.admit(entry) {
            Err(reason) => Err(reason),
            Ok(policy) => self.put(policy),
        }
    }

    /// What `register` would answer; nothing changes.
    pub fn would_register(&self, entry: &[u8]) -> Result<(), PolicyReason>
        ensures ok { OnOk result (IsOk (registered self.now.policies self.now.locked entry.now)) }
        ensures err { IfErr result (RefusesRegister self.now entry.now) }
    {
        match self.admit(entry) {
            Err(reason) => Err(reason),
            Ok(_) => Ok(()),
        }
    }

    /// Appends the entry of the policy at a place; where there is none, or out of memory, nothing is appended.
    pub fn entry(&self, place: u32, out: &mut Bytes) -> Result<(), PolicyReason>
        ensures ok { OnOk result (AppendsEntryAt self.now place out.old out.new) }
        ensures err { IfErr result (RefusesEntryAt self.now place) }
        ensures kept { OnErr result (out.new ≡ out.old) }
    {
        match self.policies.get(place as usize) {
            None => {
                let entries = self.entries();
                Err(PolicyReason::NoEntry { entries })
            }
            Some(policy) => match write_entry(policy.policy(), out) {
                Ok(()) => Ok(()),
                Err(_) => Err(PolicyReason::OutOfMemory),
            },
        }
    }
}
