//! The policies of a text, in one pass.
ghost use Rattle.std.specs.Prelude.{◌≡◌, ◌<◌, ◌≤◌, true, false, [], ◌∷◌, ◌++◌, All, length, Ok, IfOk, IfErr, OnOk};
ghost use Rattle.std.specs.Str.Lines.{lines};
ghost use Rattle.script_text.specs.Lines.{is_comment, is_text};
ghost use Rattle.var_types.specs.PolicyEntry.{CanSpell};
ghost use Rattle.policy_audit.specs.Gives.{GivesText, IsLineRefusal, IsTextRefusal, fault_at};
ghost use Rattle.policy_audit.specs.Names.{HoldsNames};
ghost use Rattle.policy_audit.specs.Text.{added, after_line, most_text_bytes, policies_from, policies_of};
ghost use Rattle.policy_audit.specs.Words.{line_policy};

use crate::line_policy::line_policy;
use crate::names::add_name;
use crate::policy_line_fault::PolicyLineFault;
use crate::{Policies, PolicyLine, PolicyTextFault};
use policy_match::CountedPolicy;
use script_text::text_line;
use std::alloc::Global;
use std::collections::BTreeSet;
use var_types::{Key, Policy};

/// How many bytes a policy text may have.
const MOST_BYTES: usize = 1_048_576;

/// How many policies there may be.
const MOST_POLICIES: usize = 1024;

// Puts a policy behind the others, if its namespace and name are new and there is room for one more.
#[tactic(auto, unfolding(crate::specs::Text::added))]
fn add_policy(
    alloc: Global,
    policies: &mut Vec<CountedPolicy>,
    names: &mut BTreeSet<Key>,
    policy: Policy,
) -> Result<(), PolicyLineFault>
    requires spelled { CanSpell policy }
    requires names { HoldsNames names.old.keys policies.old.items }
    ensures ok { OnOk result (added policies.old.items policy ≡ Ok policies.new.items) }
    ensures names { OnOk result (HoldsNames names.new.keys policies.new.items) }
    ensures few { OnOk result (length policies.new.items ≤ 1024) }
    ensures spelled { OnOk result (All CanSpell policies.old.items → All CanSpell policies.new.items) }
    ensures err { IfErr result (λ e. IsLineRefusal e (added policies.old.items policy)) }
{
    if !add_name(alloc, names, &policy)? {
        return Err(PolicyLineFault::Reason(PolicyLine::Duplicate));
    }
    if policies.len() >= MOST_POLICIES {
        return Err(PolicyLineFault::Reason(PolicyLine::Table));
    }
    policies.push(CountedPolicy::new(policy))?;
    Ok(())
}

// The fault of a text whose line of this number was not read.
fn at_line(number: u32, fault: PolicyLineFault) -> PolicyTextFault
    ensures { result ≡ fault_at number fault }
{
    match fault {
        PolicyLineFault::Reason(reason) => PolicyTextFault::Line { number, reason },
        PolicyLineFault::OutOfMemory => PolicyTextFault::OutOfMemory,
    }
}

fn read_line(
    alloc: Global,
    number: u32,
    line: &[u8],
    policies: &mut Vec<CountedPolicy>,
    names: &mut BTreeSet<Key>,
) -> Result<(), PolicyTextFault>
    requires text { is_comment line.now ≡ false → is_text line.now ≡ true }
    requires names { HoldsNames names.old.keys policies.old.items }
    requires few { length policies.old.items ≤ 1024 }
    ensures ok { OnOk result (after_line number policies.old.items (line_policy line.now) ≡ Ok policies.new.items) }
    ensures names { OnOk result (HoldsNames names.new.keys policies.new.items) }
    ensures few { OnOk result (length policies.new.items ≤ 1024) }
    ensures spelled { OnOk result (All CanSpell policies.old.items → All CanSpell policies.new.items) }
    ensures err { IfErr result (λ e. IsTextRefusal e (after_line number policies.old.items (line_policy line.now))) }
{
    match line_policy(alloc, line) {
        Ok(None) => Ok(()),
        Ok(Some(policy)) => match add_policy(alloc, policies, names, policy) {
            Ok(()) => Ok(()),
            Err(fault) => Err(at_line(number, fault)),
        },
        Err(fault) => Err(at_line(number, fault)),
    }
}

#[tactic(auto, unfolding(crate::specs::Text::policies_from))]
fn read_lines(alloc: Global, text: &[u8]) -> Result<Vec<CountedPolicy>, PolicyTextFault>
    requires { length text.now ≤ most_text_bytes }
    ensures ok { IfOk result (λ policies. policies_from 1 [] (lines text.now) ≡ Ok policies.items) }
    ensures few { IfOk result (λ policies. length policies.items ≤ 1024) }
    ensures spelled { IfOk result (λ policies. All CanSpell policies.items) }
    ensures err { IfErr result (λ e. IsTextRefusal e (policies_from 1 [] (lines text.now))) }
{
    let mut policies = Vec::new(alloc);
    let mut names = BTreeSet::new(alloc);
    let mut rest = text;
    let mut number = 1;
    'lines: while !rest.is_empty() {
        let Some((line, behind)) = text_line(rest) else {
            let reason = PolicyLine::Text;
            return Err(PolicyTextFault::Line { number, reason });
        };
        read_line(alloc, number, line, &mut policies, &mut names)?;
        rest = behind;
        number += 1;
    }
    Ok(policies)
}

/// The policies of a text of at most 1,048,576 bytes, at most 1,024 of them, in the order of its lines; else its first refusal. Lines and
/// words are those of scripts; a line has the words `GUID NAME MIN MAX MUST CANT LOCK`.
#[tactic(auto, unfolding(crate::specs::Text::policies_of))]
pub fn read_policies(alloc: Global, bytes: &[u8]) -> Result<Policies, PolicyTextFault>
    ensures policies { GivesText result (policies_of bytes.now) }
    ensures spelled { IfOk result (λ policies. All CanSpell policies) }
{
    if bytes.len() > MOST_BYTES {
        return Err(PolicyTextFault::TooLong {
            bytes: MOST_BYTES as u32,
        });
    }
    let policies = read_lines(alloc, bytes)?;
    Ok(Policies::from_vec(policies))
}
