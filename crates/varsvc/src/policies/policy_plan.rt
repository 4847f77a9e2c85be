//! The reading of a policy text, and what is to be printed of it.
ghost use Rattle.std.specs.Prelude.{◌≡◌, ◌≢◌, ◌<◌, length, List, Option, ℕ};
ghost use Rattle.flash_dev.specs.Moments.{Stays};
ghost use Rattle.flash_dev.specs.Rules.{IsKept};
ghost use Rattle.policy_audit.specs.Entries.{entries_text};
ghost use Rattle.policy_audit.specs.Refusal.{refusal_line};
ghost use Rattle.varsvc.specs.Input.{most_read};
ghost use Rattle.varsvc.specs.Outcome.{FailsAt, IsText, ReadsInput, audit_row, entries_row};
ghost use Rattle.varsvc.specs.Plan.{PlansLine, status_of, text_of};
ghost use Rattle.varsvc.specs.PolicyTexts.{ReadsSame};

use crate::image::{Inspection, plan_inspection};
use crate::input::{InputFault, read_input};
use crate::output::{Plan, Planned, plan_text};
use flash_dev::Flash;
use outside::Source;
use policy_audit::{Policies, PolicyTextFault, read_policies, write_entries, write_refusal};
use std::alloc::Global;
use var_types::TextBuffer;

fn plan_refusal(alloc: Global, fault: PolicyTextFault) -> Plan
    ensures { PlansLine 3 (refusal_line fault) result }
{
    let mut text = TextBuffer::new(alloc);
    write_refusal(fault, &mut text);
    plan_text(3, text)
}

fn plan_registers(alloc: Global, policies: &Policies) -> Plan
    ensures { PlansLine 0 (entries_text policies.now) result }
{
    let mut text = TextBuffer::new(alloc);
    match write_entries(alloc, policies, &mut text) {
        Ok(()) => plan_text(0, text),
        Err(_) => Plan::NoMemory,
    }
}

fn plan_text_entries(alloc: Global, input: &[u8]) -> Plan
    ensures text { (told : Option (List ℕ)) → ReadsSame told input.now → IsText (entries_row told) (status_of result) (text_of result) }
    ensures was_read { status_of result ≢ 6 }
    ensures device { status_of result ≢ 7 }
    ensures short { status_of result ≡ 0 → length input.now < most_read }
{
    match read_policies(alloc, input) {
        Ok(policies) => plan_registers(alloc, &policies),
        Err(PolicyTextFault::OutOfMemory) => Plan::NoMemory,
        Err(fault) => plan_refusal(alloc, fault),
    }
}

/// Reads a policy text to its end, and plans the script that registers its policies.
pub fn plan_entries<S: Source>(alloc: Global, source: &mut S) -> Plan
    ensures text { IsText (entries_row (S.left source.old)) (status_of result) (text_of result) }
    ensures cause { FailsAt 6 (status_of result) (S.fault_count source.old) (S.fault_count source.new) }
    ensures device { status_of result ≢ 7 }
    ensures reads { ReadsInput (entries_row (S.left source.old)) (status_of result) (S.left source.old) (S.left source.new) }
{
    match read_input(alloc, source) {
        Ok(input) => plan_text_entries(alloc, input.as_slice()),
        Err(InputFault::Failed) => Plan::InputFault,
        Err(InputFault::OutOfMemory) => Plan::NoMemory,
    }
}

fn plan_text_audit<F: Flash>(alloc: Global, input: &[u8], image: &mut F) -> Plan
    ensures text { (told : Option (List ℕ)) → ReadsSame told input.now → IsText (audit_row told (F.holds image.old) (F.size image.old)) (status_of result) (text_of result) }
    ensures was_read { status_of result ≢ 6 }
    ensures short { status_of result ≡ 0 → length input.now < most_read }
    ensures cause { FailsAt 7 (status_of result) (F.fault_count image.old) (F.fault_count image.new) }
    ensures kept { F.holds image.new ≡ F.holds image.old }
    ensures at_any_moment { Stays IsKept F.moment F.left_since F.holds image.old image.new }
    ensures size { F.size image.new ≡ F.size image.old }
{
    match read_policies(alloc, input) {
        Ok(policies) => plan_inspection(alloc, Inspection::Audit(&policies), image),
        Err(PolicyTextFault::OutOfMemory) => Plan::NoMemory,
        Err(fault) => plan_refusal(alloc, fault),
    }
}

/// Reads a policy text to its end, then holds an image against its policies, and plans the audit; the image keeps its bytes.
pub fn plan_audit<S: Source, F: Flash>(alloc: Global, source: &mut S, image: &mut F) -> Plan
    ensures text { IsText (audit_row (S.left source.old) (F.holds image.old) (F.size image.old)) (status_of result) (text_of result) }
    ensures source { FailsAt 6 (status_of result) (S.fault_count source.old) (S.fault_count source.new) }
    ensures reads { ReadsInput (audit_row (S.left source.old) (F.holds image.old) (F.size image.old)) (status_of result) (S.left source.old) (S.left source.new) }
    ensures cause { FailsAt 7 (status_of result) (F.fault_count image.old) (F.fault_count image.new) }
    ensures kept { F.holds image.new ≡ F.holds image.old }
    ensures at_any_moment { Stays IsKept F.moment F.left_since F.holds image.old image.new }
    ensures size { F.size image.new ≡ F.size image.old }
{
    match read_input(alloc, source) {
        Ok(input) => plan_text_audit(alloc, input.as_slice(), image),
        Err(InputFault::Failed) => Plan::InputFault,
        Err(InputFault::OutOfMemory) => Plan::NoMemory,
    }
}
