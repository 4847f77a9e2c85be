//! The policy of a line.
ghost use Rattle.std.specs.Prelude.{◌≡◌, true, false, IfOk, IfSome, Result, Ok, Err};
ghost use Rattle.script_text.specs.Lines.{is_comment, is_text, words_of};
ghost use Rattle.var_types.specs.PolicyEntry.{CanSpell};
ghost use Rattle.policy_audit.specs.Gives.{GivesLine};
ghost use Rattle.policy_audit.specs.Words.{checked, line_policy, lock_words, policy_words, spelled, state_words, through_entry, words_policy};

use crate::PolicyLine;
use crate::line_words::{LineWords, has_lock_words, seven_words};
use crate::policy_line_fault::PolicyLineFault;
use crate::values::{guid_or, policy_max, policy_name, policy_number, state_lock};
use policy_entry::{read_entry, write_entry};
use script_text::{is_comment, is_wordless, three_words};
use std::alloc::Global;
use var_types::{Bytes, EntryFault, Lock, Policy};

#[tactic(auto, using(crate::proofs::WordCounts::other_state_words))]
fn state_words(alloc: Global, rest: &[u8]) -> Result<Lock, PolicyLineFault>
    ensures { GivesLine result (state_words (words_of rest.now)) }
{
    match three_words(rest) {
        Some((guid, name, value)) => state_lock(alloc, guid, name, value),
        None => Err(PolicyLineFault::Reason(PolicyLine::Lock)),
    }
}

#[tactic(auto, unfolding(crate::specs::Words::lock_words))]
fn lock_words(alloc: Global, word: &[u8], rest: &[u8]) -> Result<Lock, PolicyLineFault>
    ensures { GivesLine result (lock_words word.now (words_of rest.now)) }
{
    if word == b"none".as_slice() {
        return Ok(Lock::NoLock);
    }
    if word == b"now".as_slice() {
        return Ok(Lock::Now);
    }
    if word == b"create".as_slice() {
        return Ok(Lock::OnCreate);
    }
    if word == b"state".as_slice() {
        return state_words(alloc, rest);
    }
    Err(PolicyLineFault::Reason(PolicyLine::Lock))
}

#[tactic(auto, unfolding(crate::specs::Words::spelled))]
fn spelled(alloc: Global, words: &LineWords) -> Result<Policy, PolicyLineFault>
    ensures { GivesLine result (spelled words.now.guid.now words.now.name.now words.now.min.now words.now.max.now words.now.must.now
        words.now.cant.now (lock_words words.now.lock.now (words_of words.now.rest.now))) }
{
    let namespace = guid_or(PolicyLine::Guid, words.guid)?;
    let name = policy_name(alloc, words.name)?;
    let min = policy_number(words.min)?;
    let max = policy_max(words.max)?;
    let must = policy_number(words.must)?;
    let cant = policy_number(words.cant)?;
    let lock = lock_words(alloc, words.lock, words.rest)?;
    Ok(Policy {
        namespace,
        name,
        min,
        max,
        must,
        cant,
        lock,
    })
}

/// The policy that is read of a policy's entry.
#[tactic(auto, unfolding(crate::specs::Words::through_entry))]
fn through_entry(alloc: Global, policy: &Policy) -> Result<Policy, PolicyLineFault>
    ensures policy { GivesLine result (through_entry policy.now) }
    ensures spelled { IfOk result CanSpell }
{
    let mut entry = Bytes::new(alloc);
    write_entry(policy, &mut entry)?;
    match read_entry(alloc, entry.as_slice()) {
        Ok(policy) => Ok(policy),
        Err(EntryFault::OutOfMemory) => Err(PolicyLineFault::OutOfMemory),
        Err(_) => Err(PolicyLineFault::Reason(PolicyLine::Entry)),
    }
}

// The policy of as many words as their lock asks for.
fn entry_policy(alloc: Global, words: &LineWords) -> Result<Policy, PolicyLineFault>
    ensures policy { GivesLine result (checked (spelled words.now.guid.now words.now.name.now words.now.min.now words.now.max.now words.now.must.now
        words.now.cant.now (lock_words words.now.lock.now (words_of words.now.rest.now)))) }
    ensures spelled { IfOk result CanSpell }
{
    let policy = spelled(alloc, words)?;
    through_entry(alloc, &policy)
}

fn policy_words(alloc: Global, line: &[u8]) -> Result<Policy, PolicyLineFault>
    ensures policy { GivesLine result (policy_words (words_of line.now)) }
    ensures spelled { IfOk result CanSpell }
{
    let Some(words) = seven_words(line) else {
        return Err(PolicyLineFault::Reason(PolicyLine::Words));
    };
    if !has_lock_words(words.lock, words.rest) {
        return Err(PolicyLineFault::Reason(PolicyLine::Words));
    }
    entry_policy(alloc, &words)
}

#[tactic(auto, unfolding(crate::specs::Words::words_policy))]
fn words_policy(alloc: Global, line: &[u8]) -> Result<Option<Policy>, PolicyLineFault>
    ensures policy { GivesLine result (words_policy (words_of line.now)) }
    ensures spelled { IfOk result (λ policy. IfSome policy CanSpell) }
{
    if is_wordless(line) {
        return Ok(None);
    }
    let policy = policy_words(alloc, line)?;
    Ok(Some(policy))
}

/// The policy of a line, if it has one. Its bytes may stand in a line, but those of a comment.
#[tactic(auto, unfolding(crate::specs::Words::line_policy))]
pub fn line_policy(alloc: Global, line: &[u8]) -> Result<Option<Policy>, PolicyLineFault>
    requires { is_comment line.now ≡ false → is_text line.now ≡ true }
    ensures policy { GivesLine result (line_policy line.now) }
    ensures spelled { IfOk result (λ policy. IfSome policy CanSpell) }
{
    if is_comment(line) {
        return Ok(None);
    }
    words_policy(alloc, line)
}
