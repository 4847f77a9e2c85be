//! The values that the words of a line spell.
ghost use Rattle.std.specs.Prelude.{◌≡◌, Result, Ok, Err};
ghost use Rattle.script_text.specs.Names.{name_of};
ghost use Rattle.script_text.specs.Numbers.{number_of};
ghost use Rattle.script_text.specs.Words.{guid_word};
ghost use Rattle.policy_audit.specs.Gives.{GivesLine};
ghost use Rattle.policy_audit.specs.Words.{if_byte, or_reason, policy_max, policy_name, policy_number, state_lock};

use crate::PolicyLine;
use crate::policy_line_fault::PolicyLineFault;
use script_text::{LineFault, guid_word, name_of, number_of};
use std::alloc::Global;
use var_types::{Guid, Key, Lock, Units};

/// A greatest size that is no limit (EDK II, VARIABLE_POLICY_NO_MAX_SIZE).
pub const NO_MAX_SIZE: u32 = 0xFFFF_FFFF;

/// The GUID of a word.
pub fn guid_or(reason: PolicyLine, word: &[u8]) -> Result<Guid, PolicyLine>
    ensures { result ≡ or_reason reason (guid_word word.now) }
{
    match guid_word(word) {
        Ok(guid) => Ok(guid),
        Err(_) => Err(reason),
    }
}

/// The name of a word.
fn name_or(alloc: Global, reason: PolicyLine, word: &[u8]) -> Result<Units, PolicyLineFault>
    ensures { GivesLine result (or_reason reason (name_of word.now)) }
{
    match name_of(alloc, word) {
        Ok(units) => Ok(units),
        Err(LineFault::Reason(_)) => Err(PolicyLineFault::Reason(reason)),
        Err(LineFault::OutOfMemory) => Err(PolicyLineFault::OutOfMemory),
    }
}

/// The number of a word.
fn number_or(reason: PolicyLine, word: &[u8]) -> Result<u32, PolicyLine>
    ensures { result ≡ or_reason reason (number_of word.now) }
{
    match number_of(word) {
        Ok(number) => Ok(number),
        Err(_) => Err(reason),
    }
}

/// The name of a word; `-` is none.
#[tactic(auto, unfolding(crate::specs::Words::policy_name))]
pub fn policy_name(alloc: Global, word: &[u8]) -> Result<Option<Units>, PolicyLineFault>
    ensures { GivesLine result (policy_name word.now) }
{
    if word == b"-".as_slice() {
        return Ok(None);
    }
    let units = name_or(alloc, PolicyLine::Name, word)?;
    Ok(Some(units))
}

/// The size or the attributes of a word.
#[tactic(auto, unfolding(crate::specs::Words::policy_number))]
pub fn policy_number(word: &[u8]) -> Result<u32, PolicyLine>
    ensures { result ≡ policy_number word.now }
{
    number_or(PolicyLine::Number, word)
}

/// The greatest size of a word; `-` is no limit.
#[tactic(auto, unfolding(crate::specs::Words::policy_max))]
pub fn policy_max(word: &[u8]) -> Result<u32, PolicyLine>
    ensures { result ≡ policy_max word.now }
{
    if word == b"-".as_slice() {
        return Ok(NO_MAX_SIZE);
    }
    policy_number(word)
}

fn if_byte(number: u32) -> Result<u8, PolicyLine>
    ensures { result ≡ if_byte number }
{
    if number < 256 {
        return Ok(number as u8);
    }
    Err(PolicyLine::Lock)
}

/// The lock of the three words behind `state`.
#[tactic(auto, unfolding(crate::specs::Words::state_lock))]
pub fn state_lock(
    alloc: Global,
    guid: &[u8],
    name: &[u8],
    value: &[u8],
) -> Result<Lock, PolicyLineFault>
    ensures { GivesLine result (state_lock guid.now name.now value.now) }
{
    let guid = guid_or(PolicyLine::Lock, guid)?;
    let name = name_or(alloc, PolicyLine::Lock, name)?;
    let number = number_or(PolicyLine::Lock, value)?;
    let value = if_byte(number)?;
    Ok(Lock::OnState {
        key: Key { guid, name },
        value,
    })
}
