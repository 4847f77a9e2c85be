//! Which variables of a region break the policy that counts for them.
ghost use Rattle.std.specs.Option.{option_map, option_to_list};
ghost use Rattle.std.specs.Prelude.{◌≡◌, ◌≤◌, [], ◌∷◌, ◌++◌, decimal, map, flat_map, length, IfOk, OnOk, OnErr, Some};
ghost use Rattle.report_text.specs.Line.{line_text};
ghost use Rattle.report_text.specs.Held.{entry_of};
ghost use Rattle.var_region.specs.Found.{seen_variable};
ghost use Rattle.var_types.specs.Policies.{best};
ghost use Rattle.var_types.specs.Region.{region_map};
ghost use Rattle.var_types.specs.Texts.{spaced};
ghost use Rattle.policy_audit.specs.Audit.{audit_of, audit_text, break_by, break_line, break_of, breaks_text, broken_rule, own_set, seen_break};

use crate::values::NO_MAX_SIZE;
use crate::{Policies, Violation};
use policy_match::{CountedPolicy, best};
use report_text::{Part, variables_of, write_line};
use std::alloc::Global;
use std::collections::BTreeMap;
use var_region::{Found, Region};
use var_types::text::write_number;
use var_types::{Key, OutOfMemory, Policy, Put, Rule, best_is_best};

/// The first rule of a policy's sizes and attributes that a variable breaks.
#[tactic(auto, unfolding(crate::specs::Audit::broken_rule))]
fn broken_rule(policy: &Policy, key: &Key, found: &Found) -> Option<Rule>
    ensures { result ≡ broken_rule policy.now (own_set (key.now, seen_variable found.now)) }
{
    let size = found.payload.len();
    if size < policy.min as usize {
        return Some(Rule::MinSize);
    }
    if policy.max != NO_MAX_SIZE && (policy.max as usize) < size {
        return Some(Rule::MaxSize);
    }
    if found.attributes & policy.must != policy.must {
        return Some(Rule::Must);
    }
    if found.attributes & policy.cant != 0 {
        return Some(Rule::Cant);
    }
    None
}

fn violation_by<'a>(
    place: u32,
    policy: &Policy,
    key: &'a Key,
    found: &Found,
) -> Option<Violation<'a>>
    ensures { option_map seen_break result ≡ break_by (key.now, seen_variable found.now) (Some (place, policy.now)) }
{
    match broken_rule(policy, key, found) {
        None => None,
        Some(rule) => Some(Violation { key, rule, place }),
    }
}

/// How a variable breaks the policy that counts for it, if it does.
#[tactic(auto, unfolding(crate::specs::Audit::break_of))]
fn violation_of<'a>(
    policies: &[CountedPolicy],
    key: &'a Key,
    found: &Found,
) -> Option<Violation<'a>>
    requires { length policies.now ≤ 1024 }
    ensures { option_map seen_break result ≡ break_of policies.now (key.now, seen_variable found.now) }
{
    best_is_best();
    match best(policies, &key.guid, key.name.as_slice()) {
        None => None,
        Some(place) => violation_by(place, policies[place as usize].policy(), key, found),
    }
}

fn add_violation<'a>(
    violations: &mut Vec<Violation<'a>>,
    violation: Option<Violation<'a>>,
) -> Result<(), OutOfMemory>
    ensures { OnOk result (map seen_break violations.new.items ≡ map seen_break violations.old.items ++ option_to_list (option_map seen_break violation.entry)) }
{
    if let Some(violation) = violation {
        violations.push(violation)?;
    }
    Ok(())
}

/// The variables that break the policy that counts for them, in key order, of those that were found.
fn violations_among<'a>(
    alloc: Global,
    policies: &[CountedPolicy],
    held: &'a BTreeMap<Key, Found>,
) -> Result<Vec<Violation<'a>>, OutOfMemory>
    requires { length policies.now ≤ 1024 }
    ensures { IfOk result (λ violations. map seen_break violations.items ≡ audit_of policies.now (map entry_of held.now.entries)) }
{
    let mut violations = Vec::new(alloc);
    for (key, found) in held {
        add_violation(&mut violations, violation_of(policies, key, found))?;
    }
    Ok(violations)
}

#[tactic(auto, unfolding(crate::specs::Audit::break_line))]
fn write_violation<P: Put>(violation: &Violation, out: &mut P)
    ensures { P.Puts out.old out.new (break_line (seen_break violation.now)) }
{
    let guid = Part::Guid(&violation.key.guid);
    let name = Part::Name(violation.key.name.as_slice());
    let rule = Part::Rule(violation.rule);
    let place = Part::Number(u64::from(violation.place));
    write_line(&[guid, name, rule, place], out);
}

fn write_lines<P: Put>(violations: &[Violation], out: &mut P)
    ensures { P.Puts out.old out.new (flat_map break_line (map seen_break violations.now)) }
{
    for violation in violations {
        write_violation(violation, out);
    }
}

fn write_words<P: Put>(word: &[u8], count: u64, out: &mut P)
    ensures { P.Puts out.old out.new (spaced (word.now ∷ decimal count ∷ [])) }
{
    out.put(word);
    out.put(b" ");
    write_number(count, out);
}

fn write_count<P: Put>(word: &[u8], count: u64, out: &mut P)
    ensures { P.Puts out.old out.new (line_text (word.now ∷ decimal count ∷ [])) }
{
    write_words(word, count, out);
    out.put(b"\n");
}

/// Puts an audit by so many policies.
#[tactic(auto, unfolding(crate::specs::Audit::breaks_text))]
fn write_violations<P: Put>(count: usize, violations: &[Violation], out: &mut P)
    ensures { P.Puts out.old out.new (breaks_text count (map seen_break violations.now)) }
{
    write_count(b"policies", count as u64, out);
    write_count(b"violations", violations.len() as u64, out);
    write_lines(violations, out);
    out.put(b"end\n");
}

/// Puts the audit of a region's variables, found in one pass over the region: how many policies there are, how many variables break the policy
/// that counts for them, and each of these in key order with the first rule that it breaks and the policy's place; `Err` where they take more
/// memory than there is. Locks are not audited.
pub fn write_audit<P: Put>(
    alloc: Global,
    policies: &Policies,
    region: &Region,
    out: &mut P,
) -> Result<(), OutOfMemory>
    ensures ok { OnOk result (P.Puts out.old out.new (audit_text policies.now (region_map region.now))) }
    ensures err { OnErr result (out.new ≡ out.old) }
{
    let held = variables_of(alloc, region)?;
    let policies = policies.as_slice();
    let violations = violations_among(alloc, policies, &held)?;
    write_violations(policies.len(), violations.as_slice(), out);
    Ok(())
}
