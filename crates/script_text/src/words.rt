ghost use Rattle.std.specs.Prelude.{◌≡◌, ◌≢◌, ◌<◌, [], ◌∷◌, length, MatchOption, true, false};
ghost use Rattle.script_text.specs.GivesLine.{GivesLine};
ghost use Rattle.script_text.specs.Lines.{is_comment, is_text, words_of};
ghost use Rattle.script_text.specs.Words.{last_verdict, verb_of, guid_word, verdict_of, get_call, next_call, set_call, get_words, next_words, set_words, register_call, register_words, policy_call, policy_words, bare_words, words_behind, call_words, words_call, line_call};

use crate::line_fault::LineFault;
use crate::lines::{first_word, is_comment, is_wordless};
use crate::names::name_of;
use crate::numbers::{bytes_of, number_of, processor_of};
use crate::{LineReason, Verb};
use std::alloc::Global;
use var_types::{Call, GetCall, Guid, NextCall, PolicyCall, SetCall, Verdict};

#[tactic(auto, unfolding(crate::specs::Words::verb_of))]
fn verb_of(word: &[u8]) -> Result<Verb, LineReason>
    ensures { result ≡ verb_of word.now }
{
    if word == b"get".as_slice() {
        return Ok(Verb::Get);
    }
    if word == b"next".as_slice() {
        return Ok(Verb::Next);
    }
    if word == b"set".as_slice() {
        return Ok(Verb::Set);
    }
    if word == b"register".as_slice() {
        return Ok(Verb::Register);
    }
    if word == b"lock".as_slice() {
        return Ok(Verb::Lock);
    }
    if word == b"disable".as_slice() {
        return Ok(Verb::Disable);
    }
    if word == b"enabled".as_slice() {
        return Ok(Verb::Enabled);
    }
    if word == b"policy".as_slice() {
        return Ok(Verb::Policy);
    }
    if word == b"exitboot".as_slice() {
        return Ok(Verb::ExitBoot);
    }
    Err(LineReason::Verb)
}

/// The GUID of a word.
#[tactic(auto, unfolding(crate::specs::Words::guid_word))]
pub fn guid_word(word: &[u8]) -> Result<Guid, LineReason>
    ensures { result ≡ guid_word word.now }
{
    match Guid::read_bytes(word) {
        Ok(guid) => Ok(guid),
        Err(_) => Err(LineReason::Guid),
    }
}

#[tactic(auto, unfolding(crate::specs::Words::get_call))]
fn get_call(alloc: Global, guid: &[u8], name: &[u8], room: &[u8]) -> Result<Call, LineFault>
    ensures { GivesLine result (get_call guid.now name.now room.now) }
{
    let guid = guid_word(guid)?;
    let name = name_of(alloc, name)?;
    let room = number_of(room)?;
    Ok(Call::Get(GetCall { guid, name, room }))
}

#[tactic(auto, unfolding(crate::specs::Words::next_call))]
fn next_call(alloc: Global, guid: &[u8], name: &[u8], room: &[u8]) -> Result<Call, LineFault>
    ensures { GivesLine result (next_call guid.now name.now room.now) }
{
    let guid = guid_word(guid)?;
    let name = name_of(alloc, name)?;
    let room = number_of(room)?;
    Ok(Call::Next(NextCall { guid, name, room }))
}

#[tactic(auto, unfolding(crate::specs::Words::verdict_of))]
fn verdict_of(word: &[u8]) -> Result<Verdict, LineReason>
    ensures { result ≡ verdict_of word.now }
{
    if word == b"good".as_slice() {
        return Ok(Verdict::Good);
    }
    if word == b"bad".as_slice() {
        return Ok(Verdict::Bad);
    }
    Err(LineReason::Verdict)
}

// The verdict is the last word of the line, so what was read of it counts only behind the others.
#[tactic(auto, unfolding(crate::specs::Words::set_call))]
fn set_call(
    alloc: Global,
    guid: &[u8],
    name: &[u8],
    attributes: &[u8],
    bytes: &[u8],
    verdict: Result<Verdict, LineReason>,
) -> Result<Call, LineFault>
    ensures { GivesLine result (set_call guid.now name.now attributes.now bytes.now verdict) }
{
    let guid = guid_word(guid)?;
    let name = name_of(alloc, name)?;
    let attributes = number_of(attributes)?;
    let bytes = bytes_of(alloc, bytes)?;
    let verdict = verdict?;
    Ok(Call::Set(SetCall {
        guid,
        name,
        attributes,
        bytes,
        verdict,
    }))
}

/// The words of a line, if they are three.
pub fn three_words(line: &[u8]) -> Option<(&[u8], &[u8], &[u8])>
    ensures { MatchOption result (length (words_of line.now) ≢ 3) (λ x. words_of line.now ≡ x.0.now ∷ x.1.now ∷ x.2.now ∷ []) }
{
    let (first, rest) = first_word(line)?;
    let (second, rest) = first_word(rest)?;
    let (third, rest) = first_word(rest)?;
    if is_wordless(rest) {
        Some((first, second, third))
    } else {
        None
    }
}

#[tactic(auto, using(crate::proofs::WordCounts::other_get_words))]
fn get_words(alloc: Global, line: &[u8]) -> Result<Call, LineFault>
    ensures { GivesLine result (get_words (words_of line.now)) }
{
    match three_words(line) {
        Some((guid, name, room)) => get_call(alloc, guid, name, room),
        None => Err(LineFault::Reason(LineReason::Words)),
    }
}

#[tactic(auto, using(crate::proofs::WordCounts::other_next_words))]
fn next_words(alloc: Global, line: &[u8]) -> Result<Call, LineFault>
    ensures { GivesLine result (next_words (words_of line.now)) }
{
    match three_words(line) {
        Some((guid, name, room)) => next_call(alloc, guid, name, room),
        None => Err(LineFault::Reason(LineReason::Words)),
    }
}

// The words of a set behind its verb: four, and what stands behind them.
#[derive(Drop)]
struct SetWords<'a> {
    guid: &'a [u8],
    name: &'a [u8],
    attributes: &'a [u8],
    bytes: &'a [u8],
    rest: &'a [u8],
}

fn four_words(line: &[u8]) -> Option<SetWords<'_>>
    ensures { MatchOption result (length (words_of line.now) < 4) (λ x. words_of line.now ≡ x.guid.now ∷ x.name.now ∷ x.attributes.now ∷ x.bytes.now ∷ words_of x.rest.now) }
{
    let (guid, rest) = first_word(line)?;
    let (name, rest) = first_word(rest)?;
    let (attributes, rest) = first_word(rest)?;
    let (bytes, rest) = first_word(rest)?;
    Some(SetWords {
        guid,
        name,
        attributes,
        bytes,
        rest,
    })
}

// The verdict that stands behind the words of a set, if one does and nothing behind it.
fn last_verdict(line: &[u8]) -> Result<Result<Verdict, LineReason>, LineReason>
    ensures { result ≡ last_verdict (words_of line.now) }
{
    match first_word(line) {
        None => Ok(Ok(Verdict::Good)),
        Some((word, rest)) => {
            if is_wordless(rest) {
                Ok(verdict_of(word))
            } else {
                Err(LineReason::Words)
            }
        }
    }
}

fn set_words(alloc: Global, line: &[u8]) -> Result<Call, LineFault>
    ensures { GivesLine result (set_words (words_of line.now)) }
{
    let Some(words) = four_words(line) else {
        return Err(LineFault::Reason(LineReason::Words));
    };
    match last_verdict(words.rest) {
        Ok(verdict) => {
            let (guid, name) = (words.guid, words.name);
            set_call(alloc, guid, name, words.attributes, words.bytes, verdict)
        }
        Err(reason) => Err(LineFault::Reason(reason)),
    }
}

/// The word of a line, if it is one.
pub fn one_word(line: &[u8]) -> Option<&[u8]>
    ensures { MatchOption result (length (words_of line.now) ≢ 1) (λ word. words_of line.now ≡ word.now ∷ []) }
{
    let (word, rest) = first_word(line)?;
    if is_wordless(rest) { Some(word) } else { None }
}

#[tactic(auto, unfolding(crate::specs::Words::register_call))]
fn register_call(alloc: Global, bytes: &[u8]) -> Result<Call, LineFault>
    ensures { GivesLine result (register_call bytes.now) }
{
    let bytes = bytes_of(alloc, bytes)?;
    Ok(Call::Policy(PolicyCall::Register(bytes)))
}

#[tactic(auto, using(crate::proofs::WordCounts::other_register_words))]
fn register_words(alloc: Global, line: &[u8]) -> Result<Call, LineFault>
    ensures { GivesLine result (register_words (words_of line.now)) }
{
    match one_word(line) {
        Some(bytes) => register_call(alloc, bytes),
        None => Err(LineFault::Reason(LineReason::Words)),
    }
}

#[tactic(auto, unfolding(crate::specs::Words::policy_call))]
fn policy_call(place: &[u8]) -> Result<Call, LineFault>
    ensures { GivesLine result (policy_call place.now) }
{
    let place = number_of(place)?;
    Ok(Call::Policy(PolicyCall::At(place)))
}

#[tactic(auto, using(crate::proofs::WordCounts::other_policy_words))]
fn policy_words(line: &[u8]) -> Result<Call, LineFault>
    ensures { GivesLine result (policy_words (words_of line.now)) }
{
    match one_word(line) {
        Some(place) => policy_call(place),
        None => Err(LineFault::Reason(LineReason::Words)),
    }
}

#[tactic(auto, unfolding(crate::specs::Words::bare_words))]
fn bare_words(call: Call, line: &[u8]) -> Result<Call, LineFault>
    ensures { GivesLine result (bare_words call (words_of line.now)) }
{
    match first_word(line) {
        None => Ok(call),
        Some(_) => Err(LineFault::Reason(LineReason::Words)),
    }
}

#[tactic(auto, unfolding(crate::specs::Words::words_behind))]
fn words_behind(alloc: Global, verb: Verb, rest: &[u8]) -> Result<Call, LineFault>
    ensures { GivesLine result (words_behind verb (words_of rest.now)) }
{
    match verb {
        Verb::Get => get_words(alloc, rest),
        Verb::Next => next_words(alloc, rest),
        Verb::Set => set_words(alloc, rest),
        Verb::Register => register_words(alloc, rest),
        Verb::Lock => bare_words(Call::Policy(PolicyCall::Lock), rest),
        Verb::Disable => bare_words(Call::Policy(PolicyCall::Disable), rest),
        Verb::Enabled => bare_words(Call::Policy(PolicyCall::Enabled), rest),
        Verb::Policy => policy_words(rest),
        Verb::ExitBoot => bare_words(Call::ExitBoot, rest),
    }
}

#[tactic(auto, unfolding(crate::specs::Words::call_words))]
fn call_words(alloc: Global, line: &[u8]) -> Result<Call, LineFault>
    ensures { GivesLine result (call_words (words_of line.now)) }
{
    match first_word(line) {
        None => Err(LineFault::Reason(LineReason::Verb)),
        Some((word, rest)) => {
            let verb = verb_of(word)?;
            words_behind(alloc, verb, rest)
        }
    }
}

#[tactic(auto, unfolding(crate::specs::Words::words_call))]
fn words_call(alloc: Global, line: &[u8]) -> Result<Option<(u8, Call)>, LineFault>
    ensures { GivesLine result (words_call (words_of line.now)) }
{
    match first_word(line) {
        None => Ok(None),
        Some((word, rest)) => {
            let processor = processor_of(word)?;
            let call = call_words(alloc, rest)?;
            Ok(Some((processor, call)))
        }
    }
}

/// The call of a line with its processor, if the line has one, or the first reason to refuse it. Its bytes may stand in a line, but those of
/// a comment.
#[tactic(auto, unfolding(crate::specs::Words::line_call))]
pub fn line_call(alloc: Global, line: &[u8]) -> Result<Option<(u8, Call)>, LineFault>
    requires { is_comment line.now ≡ false → is_text line.now ≡ true }
    ensures { GivesLine result (line_call line.now) }
{
    if is_comment(line) {
        return Ok(None);
    }
    words_call(alloc, line)
}
