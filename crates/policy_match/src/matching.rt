//! Whether a policy covers a variable, and by how many wildcards.
ghost use Rattle.std.specs.Prelude.{◌≡◌, ◌≤◌, length, count_by, true, false};
ghost use Rattle.var_types.specs.Key.{key_of};
ghost use Rattle.var_types.specs.Policies.{covers, covers_name, covers_unit, is_digit, is_wildcard, wildcards, wildcards_in};
ghost use lib.Pointwise.{pointwise};

use var_types::{Guid, Policy, Units};

/// The wildcard `#`.
const WILDCARD: u16 = 0x23;

/// How many wildcards a policy without a name counts as.
const NO_NAME: u32 = 255;

fn count_wildcards(units: &[u16]) -> usize
    ensures { result ≡ count_by is_wildcard units.now }
{
    units.iter().filter(|unit| **unit == WILDCARD).count()
}

fn wildcards_in(name: &Option<Units>) -> u32
    ensures { result ≡ wildcards_in name.now }
{
    match name {
        None => NO_NAME,
        Some(units) => count_wildcards(units.as_slice()) as u32,
    }
}

/// How many wildcards a policy has; one without a name counts as 255.
#[tactic(auto, unfolding(var_types::specs::Policies::wildcards))]
pub fn wildcards(policy: &Policy) -> u32
    ensures { result ≡ wildcards policy.now }
{
    wildcards_in(&policy.name)
}

fn is_digit(unit: u16) -> bool
    ensures { result ≡ is_digit unit }
{
    0x30 <= unit && unit <= 0x39
}

fn covers_unit(unit: u16, other: u16) -> bool
    ensures { result ≡ covers_unit unit other }
{
    unit == other || unit == WILDCARD && is_digit(other)
}

/// Whether as many units cover others, one by one; the rest is not looked at from the first on that doesn't.
fn covers_units(units: &[u16], name: &[u16]) -> bool
    ensures { result ≡ pointwise covers_unit units.now name.now }
{
    if units.len() != name.len() {
        return false;
    }
    for at in 0..units.len() {
        if !covers_unit(units[at], name[at]) {
            return false;
        }
    }
    true
}

fn covers_name(own: &Option<Units>, name: &[u16]) -> bool
    ensures { result ≡ covers_name own.now name.now }
{
    match own {
        None => true,
        Some(units) => covers_units(units.as_slice(), name),
    }
}

/// Whether a policy covers the variable of a GUID and a name: the namespace is the GUID, and its name, if it has one, has as many units,
/// each of them equal or `#` over a digit.
#[tactic(auto, unfolding(var_types::specs::Policies::covers))]
pub fn matches(policy: &Policy, guid: &Guid, name: &[u16]) -> bool
    ensures { result ≡ covers policy.now (key_of guid.now name.now) }
{
    policy.namespace == *guid && covers_name(&policy.name, name)
}
