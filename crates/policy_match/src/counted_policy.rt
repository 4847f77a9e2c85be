ghost use Rattle.std.specs.Prelude.{◌≡◌};
ghost use Rattle.var_types.specs.Policies.{wildcards};

use crate::matching::wildcards;
use std::marker::Model;
use var_types::Policy;

/// A policy, with how many wildcards it has counted once.
#[derive(Debug, Drop)]
pub struct CountedPolicy {
    policy: Policy,
    count: u32,
}

impl Model for CountedPolicy {
    ghost use Rattle.std.specs.Prelude.{◌≡◌};
    ghost use Rattle.var_types.specs.declared.policy.Policy.{Policy};
    ghost use Rattle.var_types.specs.Policies.{wildcards};

    ghost Value = { Policy };

    ghost view = { λ c. c.policy };

    ghost invariant = { λ c. c.count ≡ wildcards c.policy };
}

impl CountedPolicy {
    /// Counts a policy's wildcards.
    pub fn new(policy: Policy) -> CountedPolicy
        ensures { result ≡ policy }
    {
        let count = wildcards(&policy);
        CountedPolicy { policy, count }
    }

    /// The policy alone.
    pub fn policy(&self) -> &Policy
        ensures { result.now ≡ self.now }
    {
        &self.policy
    }

    /// How many wildcards it has; one without a name counts as 255.
    pub fn wildcards(&self) -> u32
        ensures { result ≡ wildcards self.now }
    {
        self.count
    }
}
