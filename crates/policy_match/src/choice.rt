//! The policy that counts for a variable.
ghost use Rattle.std.specs.Prelude.{◌≡◌, ◌<◌, ◌≤◌, length, IfSome};
ghost use Rattle.policy_match.specs.Places.{best_from, best_place, counting, found_at, is_exact};
ghost use Rattle.var_types.specs.Key.{key_of};

use crate::CountedPolicy;
use crate::matching::matches;
use var_types::{Guid, best_is_best};

/// The place and the wildcards of the policy at a place, if it covers the variable.
fn found_at(place: u32, policy: &CountedPolicy, guid: &Guid, name: &[u16]) -> Option<(u32, u32)>
    ensures { result ≡ found_at place policy.now (key_of guid.now name.now) }
{
    if matches(policy.policy(), guid, name) {
        Some((place, policy.wildcards()))
    } else {
        None
    }
}

/// Of the policy that counts among those before a place and the one at the place the one that counts so far. The latter is compared
/// with the variable only where it has fewer wildcards.
fn counting(
    found: Option<(u32, u32)>,
    place: u32,
    policy: &CountedPolicy,
    guid: &Guid,
    name: &[u16],
) -> Option<(u32, u32)>
    ensures { result ≡ counting found (found_at place policy.now (key_of guid.now name.now)) }
{
    let Some(best) = found else {
        return found_at(place, policy, guid, name);
    };
    let count = policy.wildcards();
    if best.1 <= count || !matches(policy.policy(), guid, name) {
        return found;
    }
    Some((place, count))
}

/// Whether what was found has no wildcards, so that no policy has fewer.
fn is_exact(found: &Option<(u32, u32)>) -> bool
    ensures { result ≡ is_exact found.now }
{
    match found {
        Some(best) => best.1 == 0,
        None => false,
    }
}

/// The place and the wildcards of the policy that counts, in one pass that ends at the first policy without wildcards that covers the variable.
fn best_of(policies: &[CountedPolicy], guid: &Guid, name: &[u16]) -> Option<(u32, u32)>
    requires { length policies.now ≤ 1024 }
    ensures { result ≡ best_from policies.now (key_of guid.now name.now) 0 }
{
    let mut found = None;
    for place in 0..policies.len() as u32 {
        found = counting(found, place, &policies[place as usize], guid, name);
        if is_exact(&found) {
            return found;
        }
    }
    found
}

/// The place of the policy that counts for the variable of a GUID and a name: of those that cover it the first with the fewest wildcards.
pub fn best(policies: &[CountedPolicy], guid: &Guid, name: &[u16]) -> Option<u32>
    requires { length policies.now ≤ 1024 }
    ensures place { result ≡ best_place policies.now (key_of guid.now name.now) }
    ensures within { IfSome result (λ place. place < length policies.now) }
{
    best_is_best();
    match best_of(policies, guid, name) {
        None => None,
        Some((place, _)) => Some(place),
    }
}
