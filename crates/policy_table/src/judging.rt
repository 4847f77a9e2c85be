//! What the policy that counts says of a set.
ghost use Rattle.std.specs.Prelude.{◌≡◌, ◌≤◌, length, Some};
ghost use Rattle.policy_table.specs.PolicyState.{with_policies};
ghost use Rattle.var_types.specs.Key.{key_of};
ghost use Rattle.var_types.specs.Policies.{best, denied, denied_by, denying_rule, has_cant, has_value, is_above_max, is_below_min, lacks_must, lock_rule, question_of};
ghost use Rattle.var_types.specs.State.{State, stored_at};

use crate::state_view::StateView;
use crate::table::PolicyTable;
use policy_match::{CountedPolicy, best};
use var_types::{Ask, Denied, Key, Lock, Policy, Rule, best_is_best};

/// A greatest size that is no limit (EDK II, VARIABLE_POLICY_NO_MAX_SIZE).
const NO_MAX_SIZE: u32 = 0xFFFF_FFFF;

fn is_below_min(policy: &Policy, ask: &Ask) -> bool
    ensures { result ≡ is_below_min policy.now (question_of ask.now) }
{
    !ask.deletes && ask.payload < policy.min
}

fn is_above_max(policy: &Policy, ask: &Ask) -> bool
    ensures { result ≡ is_above_max policy.now (question_of ask.now) }
{
    !ask.deletes && policy.max != NO_MAX_SIZE && policy.max < ask.payload
}

fn lacks_must(policy: &Policy, ask: &Ask) -> bool
    ensures { result ≡ lacks_must policy.now (question_of ask.now) }
{
    !ask.deletes && ask.attributes & policy.must != policy.must
}

fn has_cant(policy: &Policy, ask: &Ask) -> bool
    ensures { result ≡ has_cant policy.now (question_of ask.now) }
{
    !ask.deletes && ask.attributes & policy.cant != 0
}

fn has_value<V: StateView>(view: &V, key: &Key, value: u8) -> bool
    ensures { (state : State) → V.is_of view.now state → result ≡ has_value (stored_at state key.now) value }
{
    match view.one_byte(key) {
        None => false,
        Some(byte) => byte == value,
    }
}

fn lock_rule<V: StateView>(view: &V, stored: bool, lock: &Lock) -> Option<Rule>
    ensures { (state : State) → V.is_of view.now state → result ≡ lock_rule state stored lock.now }
{
    match lock {
        Lock::NoLock => None,
        Lock::Now => Some(Rule::LockNow),
        Lock::OnCreate => {
            if stored {
                Some(Rule::LockOnCreate)
            } else {
                None
            }
        }
        Lock::OnState { key, value } => {
            if has_value(view, key, *value) {
                Some(Rule::LockOnState)
            } else {
                None
            }
        }
    }
}

/// The first rule of a policy that denies.
#[tactic(auto, unfolding(var_types::specs::Policies::denying_rule))]
fn denying_rule<V: StateView>(view: &V, ask: &Ask, policy: &Policy) -> Option<Rule>
    ensures { (state : State) → V.is_of view.now state → result ≡ denying_rule state (question_of ask.now) policy.now }
{
    if is_below_min(policy, ask) {
        return Some(Rule::MinSize);
    }
    if is_above_max(policy, ask) {
        return Some(Rule::MaxSize);
    }
    if lacks_must(policy, ask) {
        return Some(Rule::Must);
    }
    if has_cant(policy, ask) {
        return Some(Rule::Cant);
    }
    lock_rule(view, ask.stored, &policy.lock)
}

/// Whether the policy at a place denies, and by which rule.
fn denied_at<V: StateView>(view: &V, ask: &Ask, place: u32, policy: &Policy) -> Option<Denied>
    ensures { (state : State) → V.is_of view.now state → result ≡ denied_by state (question_of ask.now) (Some (place, policy.now)) }
{
    match denying_rule(view, ask, policy) {
        None => None,
        Some(rule) => Some(Denied { place, rule }),
    }
}

/// Whether the policy that counts denies, and by which rule.
fn denial<V: StateView>(view: &V, ask: &Ask, policies: &[CountedPolicy]) -> Option<Denied>
    requires { length policies.now ≤ 1024 }
    ensures { (state : State) → V.is_of view.now state
        → result ≡ denied_by state (question_of ask.now) (best policies.now (key_of ask.now.guid.now ask.now.name.now)) }
{
    best_is_best();
    match best(policies, ask.guid, ask.name) {
        None => None,
        Some(place) => denied_at(view, ask, place, policies[place as usize].policy()),
    }
}

impl PolicyTable {
    /// Whether the policy that counts denies a set, and by which rule; with policy off none is denied.
    #[tactic(auto, unfolding(var_types::specs::Policies::denied))]
    pub fn judge<V: StateView>(&self, view: &V, ask: &Ask) -> Option<Denied>
        ensures { (state : State) → V.is_of view.now state → result ≡ denied (with_policies state self.now) (question_of ask.now) }
    {
        if self.enabled() {
            denial(view, ask, self.policies())
        } else {
            None
        }
    }
}
