ghost use Rattle.std.specs.Prelude.{◌≡◌, ◌≤◌, length};

use policy_match::CountedPolicy;
use std::marker::Model;

/// Policies in their order, at most 1,024.
#[derive(Debug, Drop)]
pub struct Policies {
    items: Vec<CountedPolicy>,
}

impl Model for Policies {
    ghost use Rattle.std.specs.Prelude.{List, length, ◌≤◌};
    ghost use Rattle.var_types.specs.declared.policy.Policy.{Policy};

    ghost Value = { List Policy };

    ghost view = { λ p. p.items.items };

    ghost invariant = { λ p. length p.items.items ≤ 1024 };
}

impl Policies {
    /// The policies of a vector, without a copy.
    pub fn from_vec(items: Vec<CountedPolicy>) -> Self
        requires { length items.items ≤ 1024 }
        ensures { result ≡ items.items }
    {
        Policies { items }
    }

    pub fn as_slice(&self) -> &[CountedPolicy]
        ensures items { result.now ≡ self.now }
        ensures few { length self.now ≤ 1024 }
    {
        self.items.as_slice()
    }

    /// The vector of the policies, without a copy.
    pub fn into_vec(self) -> Vec<CountedPolicy>
        ensures { result.items ≡ self }
    {
        self.items
    }
}
