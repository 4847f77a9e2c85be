//! The namespaces and names of the policies so far, so that a second one is found by a look-up.
ghost use Rattle.std.specs.Prelude.{◌≡◌, not, [], ◌∷◌, ◌++◌, IfOk, List};
ghost use Rattle.std.specs.List.{list_any};
ghost use Rattle.var_types.specs.declared.policy.Policy.{Policy};
ghost use Rattle.var_types.specs.PolicyEntry.{CanSpell};
ghost use Rattle.var_types.specs.PolicyStep.{is_same_entry};
ghost use Rattle.policy_audit.specs.Names.{HoldsNames, policy_key, units_of};

use std::alloc::{AllocError, Global};
use std::collections::BTreeSet;
use var_types::{Key, OutOfMemory, Policy, Units};

fn units_of(alloc: Global, name: &Option<Units>) -> Result<Units, AllocError>
    ensures { IfOk result (λ units. units ≡ units_of name.now) }
{
    match name {
        None => Ok(Units::from_vec(Vec::new(alloc))),
        Some(units) => units.clone(),
    }
}

fn policy_key(alloc: Global, policy: &Policy) -> Result<Key, AllocError>
    ensures { IfOk result (λ key. key ≡ policy_key policy.now) }
{
    let name = units_of(alloc, &policy.name)?;
    Ok(Key {
        guid: policy.namespace,
        name,
    })
}

/// Puts the namespace and the name of a policy to those of the policies so far; whether they are new.
pub fn add_name(
    alloc: Global,
    names: &mut BTreeSet<Key>,
    policy: &Policy,
) -> Result<bool, OutOfMemory>
    requires { CanSpell policy.now }
    ensures new { IfOk result (λ is_new. (before : List Policy) → HoldsNames names.old.keys before → is_new ≡ not (list_any (is_same_entry policy.now) before)) }
    ensures held { IfOk result (λ is_new. (before : List Policy) → HoldsNames names.old.keys before → HoldsNames names.new.keys (before ++ policy.now ∷ [])) }
{
    let key = policy_key(alloc, policy)?;
    let is_new = names.insert(key)?;
    Ok(is_new)
}
