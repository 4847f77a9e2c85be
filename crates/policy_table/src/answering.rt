//! The calls about the policies, each answered by the policy rule.
ghost use Rattle.std.specs.Prelude.{◌≡◌, ℕ, true, false};
ghost use Rattle.policy_table.specs.Answers.{refused_reply, state_with};
ghost use Rattle.var_types.specs.PolicyStep.{policy_step};
ghost use Rattle.var_types.specs.State.{State};
ghost use Rattle.var_types.specs.Step.{lacks_memory};

use crate::table::PolicyTable;
use var_types::{Bytes, Call, PolicyCall, PolicyReason, PolicyReply, Reply};

/// The reply to a refusal: want of memory is a reply of its own.
fn refused(reason: PolicyReason) -> PolicyReply
    ensures { result ≡ refused_reply reason }
{
    match reason {
        PolicyReason::OutOfMemory => PolicyReply::OutOfMemory,
        reason => PolicyReply::Refused(reason),
    }
}

impl PolicyTable {
    /// Registers the policy of an entry, where one more change may be made.
    fn answer_register(&mut self, entry: &Bytes, made: &mut u64, limit: u64) -> PolicyReply
        ensures done { (state : State) → lacks_memory (Call.Policy (PolicyCall.Register entry.now)) (Reply.Policy result) ≡ false
            → policy_step (state_with state self.old made.old limit) (PolicyCall.Register entry.now)
            ≡ (result, state_with state self.new made.new limit) }
        ensures memory { lacks_memory (Call.Policy (PolicyCall.Register entry.now)) (Reply.Policy result) ≡ true → (self.new ≡ self.old) × (made.new ≡ made.old) }
    {
        match self.admit(entry.as_slice()) {
            Err(reason) => refused(reason),
            Ok(policy) => {
                if limit <= *made {
                    return PolicyReply::Refused(PolicyReason::HistoryFull { made: *made });
                }
                match self.put(policy) {
                    Err(_) => PolicyReply::OutOfMemory,
                    Ok(()) => {
                        *made += 1;
                        PolicyReply::Ok
                    }
                }
            }
        }
    }

    /// Locks the policies, where one more change may be made.
    #[tactic(auto, unfolding(var_types::specs::PolicyStep::policy_step))]
    fn answer_lock(&mut self, made: &mut u64, limit: u64) -> PolicyReply
        ensures { (state : State) → policy_step (state_with state self.old made.old limit) PolicyCall.Lock
            ≡ (result, state_with state self.new made.new limit) }
    {
        if self.locked {
            return PolicyReply::Refused(PolicyReason::Locked);
        }
        if limit <= *made {
            return PolicyReply::Refused(PolicyReason::HistoryFull { made: *made });
        }
        self.locked = true;
        *made += 1;
        PolicyReply::Ok
    }

    /// Turns policy off, where one more change may be made.
    #[tactic(auto, unfolding(var_types::specs::PolicyStep::policy_step))]
    fn answer_disable(&mut self, made: &mut u64, limit: u64) -> PolicyReply
        ensures { (state : State) → policy_step (state_with state self.old made.old limit) PolicyCall.Disable
            ≡ (result, state_with state self.new made.new limit) }
    {
        if !self.policy_on {
            return PolicyReply::Refused(PolicyReason::AlreadyOff);
        }
        if self.locked {
            return PolicyReply::Refused(PolicyReason::Locked);
        }
        if limit <= *made {
            return PolicyReply::Refused(PolicyReason::HistoryFull { made: *made });
        }
        self.policy_on = false;
        *made += 1;
        PolicyReply::Ok
    }

    /// Whether policy is on.
    #[tactic(auto, unfolding(var_types::specs::PolicyStep::policy_step))]
    fn answer_enabled(&self) -> PolicyReply
        ensures { (state : State) (made limit : ℕ) → policy_step (state_with state self.now made limit) PolicyCall.Enabled
            ≡ (result, state_with state self.now made limit) }
    {
        if self.policy_on {
            PolicyReply::On
        } else {
            PolicyReply::Off
        }
    }

    /// The entry of the policy at a place.
    #[tactic(auto, unfolding(var_types::specs::PolicyStep::policy_step))]
    fn answer_at(&self, place: u32) -> PolicyReply
        ensures { (state : State) (made limit : ℕ) → lacks_memory (Call.Policy (PolicyCall.At place)) (Reply.Policy result) ≡ false
            → policy_step (state_with state self.now made limit) (PolicyCall.At place) ≡ (result, state_with state self.now made limit) }
    {
        let mut bytes = Bytes::new(self.alloc);
        match self.entry(place, &mut bytes) {
            Err(reason) => refused(reason),
            Ok(()) => PolicyReply::Entry(bytes),
        }
    }

    /// Answers a call about the policies by the policy rule, where so many changes are made and allowed; a change is counted. A call that
    /// was out of memory changes nothing.
    pub fn answer(&mut self, call: &PolicyCall, made: &mut u64, limit: u64) -> PolicyReply
        ensures done { (state : State) → lacks_memory (Call.Policy call.now) (Reply.Policy result) ≡ false
            → policy_step (state_with state self.old made.old limit) call.now ≡ (result, state_with state self.new made.new limit) }
        ensures memory { lacks_memory (Call.Policy call.now) (Reply.Policy result) ≡ true → (self.new ≡ self.old) × (made.new ≡ made.old) }
    {
        match call {
            PolicyCall::Register(entry) => self.answer_register(entry, made, limit),
            PolicyCall::Lock => self.answer_lock(made, limit),
            PolicyCall::Disable => self.answer_disable(made, limit),
            PolicyCall::Enabled => self.answer_enabled(),
            PolicyCall::At(place) => self.answer_at(*place),
        }
    }
}
