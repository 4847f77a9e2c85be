ghost use Rattle.std.specs.Prelude.{◌≡◌, ◌≤◌, true, false, length, position, OnOk, OnErr};
ghost use Rattle.policy_table.specs.PolicyState.{no_policies};
ghost use Rattle.var_types.specs.PolicyStep.{is_same_entry, is_same_name, may_disable, may_lock};

use policy_match::CountedPolicy;
use std::alloc::Global;
use std::marker::Model;
use var_types::{Policy, PolicyReason, Units};

/// How many policies there may be.
pub(crate) const MOST_POLICIES: u32 = 1024;

/// The policies in order of registration, at most 1,024, whether policy is on, and whether they are locked.
#[derive(Drop)]
pub struct PolicyTable {
    pub(crate) alloc: Global,
    pub(crate) policies: Vec<CountedPolicy>,
    pub(crate) policy_on: bool,
    pub(crate) locked: bool,
}

impl Model for PolicyTable {
    ghost use Rattle.std.specs.Prelude.{length, ◌≤◌};
    ghost use Rattle.policy_table.specs.PolicyState.{PolicyState};

    ghost Value = { PolicyState };

    ghost view = { λ t. record { policies = t.policies.items; policy_on = t.policy_on; locked = t.locked } };

    ghost invariant = { λ t. length t.policies.items ≤ 1024 };
}

fn is_same_name(name: &Option<Units>, other: &Option<Units>) -> bool
    ensures { result ≡ is_same_name name.now other.now }
{
    match (name, other) {
        (None, None) => true,
        (Some(units), Some(others)) => units == others,
        _ => false,
    }
}

#[tactic(auto, unfolding(var_types::specs::PolicyStep::is_same_entry))]
fn is_same_entry(policy: &Policy, other: &Policy) -> bool
    ensures { result ≡ is_same_entry policy.now other.now }
{
    policy.namespace == other.namespace && is_same_name(&policy.name, &other.name)
}

/// The place of the policy that has the namespace and the name of another.
pub(crate) fn place_of(policies: &[CountedPolicy], policy: &Policy) -> Option<usize>
    ensures { result ≡ position (is_same_entry policy.now) policies.now }
{
    policies
        .iter()
        .position(|other| is_same_entry(policy, other.policy()))
}

impl PolicyTable {
    /// A table of no policies, with policy on; takes no memory.
    pub fn new(alloc: Global) -> Self
        ensures { result ≡ no_policies }
    {
        PolicyTable {
            alloc,
            policies: Vec::new(alloc),
            policy_on: true,
            locked: false,
        }
    }

    /// Whether policy is on.
    pub fn enabled(&self) -> bool
        ensures { result ≡ self.now.policy_on }
    {
        self.policy_on
    }

    pub fn locked(&self) -> bool
        ensures { result ≡ self.now.locked }
    {
        self.locked
    }

    pub(crate) fn policies(&self) -> &[CountedPolicy]
        ensures items { result.now ≡ self.now.policies }
        ensures few { length self.now.policies ≤ 1024 }
    {
        self.policies.as_slice()
    }

    /// How many policies there are.
    pub fn entries(&self) -> u32
        ensures { result ≡ length self.now.policies }
    {
        self.policies.len() as u32
    }

    /// Locks the policies.
    pub fn lock(&mut self) -> Result<(), PolicyReason>
        ensures reply { result ≡ may_lock self.old.locked }
        ensures ok { OnOk result (self.new ≡ record self.old { locked = true }) }
        ensures err { OnErr result (self.new ≡ self.old) }
    {
        if self.locked {
            return Err(PolicyReason::Locked);
        }
        self.locked = true;
        Ok(())
    }

    /// Turns policy off.
    pub fn disable(&mut self) -> Result<(), PolicyReason>
        ensures reply { result ≡ may_disable self.old.policy_on self.old.locked }
        ensures ok { OnOk result (self.new ≡ record self.old { policy_on = false }) }
        ensures err { OnErr result (self.new ≡ self.old) }
    {
        if !self.policy_on {
            return Err(PolicyReason::AlreadyOff);
        }
        if self.locked {
            return Err(PolicyReason::Locked);
        }
        self.policy_on = false;
        Ok(())
    }
}
