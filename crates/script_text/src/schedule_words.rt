ghost use Rattle.std.specs.Prelude.{◌≡◌, ◌≢◌, [], ◌∷◌, length, MatchOption, true, false};
ghost use Rattle.script_text.specs.Lines.{is_comment, is_text, words_of};
ghost use Rattle.script_text.specs.Numbers.{number_of};
ghost use Rattle.script_text.specs.Schedule.{begins_schedule, is_passed, loss_of, schedule_line, schedule_number, schedule_words, turn_of, two_words};

use crate::lines::{first_word, is_comment, is_wordless};
use crate::numbers::number_of;
use crate::words::one_word;
use crate::{LineReason, PowerLoss, ScheduleLine};

/// Whether a schedule begins behind a line: it has the one word `schedule`.
#[tactic(auto, using(crate::proofs::WordCounts::no_schedule_word), unfolding(crate::specs::Schedule::begins_schedule))]
pub fn begins_schedule(line: &[u8]) -> bool
    ensures { result ≡ begins_schedule line.now }
{
    match one_word(line) {
        Some(word) => word == b"schedule".as_slice(),
        None => false,
    }
}

/// Whether a line is passed over: a comment, or one without words.
pub fn is_passed(line: &[u8]) -> bool
    ensures { result ≡ is_passed line.now }
{
    is_comment(line) || is_wordless(line)
}

#[tactic(auto, unfolding(crate::specs::Schedule::loss_of))]
fn loss_of(word: &[u8]) -> Result<PowerLoss, LineReason>
    ensures { result ≡ loss_of word.now }
{
    if word == b"before".as_slice() {
        return Ok(PowerLoss::Before);
    }
    if word == b"half".as_slice() {
        return Ok(PowerLoss::Half);
    }
    if word == b"after".as_slice() {
        return Ok(PowerLoss::After);
    }
    Err(LineReason::Schedule)
}

// The number of a word of a schedule.
fn schedule_number(word: &[u8]) -> Result<u32, LineReason>
    ensures { result ≡ schedule_number (number_of word.now) }
{
    match number_of(word) {
        Ok(number) => Ok(number),
        Err(_) => Err(LineReason::Schedule),
    }
}

#[tactic(auto, unfolding(crate::specs::Schedule::turn_of))]
fn turn_of(processor: u32, word: &[u8]) -> Result<ScheduleLine, LineReason>
    ensures { result ≡ turn_of processor word.now }
{
    if word == b"end".as_slice() {
        return Ok(ScheduleLine::End { processor });
    }
    let count = schedule_number(word)?;
    Ok(ScheduleLine::Steps { processor, count })
}

#[tactic(auto, unfolding(crate::specs::Schedule::two_words))]
fn two_words(first: &[u8], second: &[u8]) -> Result<ScheduleLine, LineReason>
    ensures { result ≡ two_words first.now second.now }
{
    if first == b"power".as_slice() {
        let loss = loss_of(second)?;
        return Ok(ScheduleLine::Power { loss });
    }
    let processor = schedule_number(first)?;
    turn_of(processor, second)
}

// The words of a line of a schedule, if they are two.
fn word_pair(line: &[u8]) -> Option<(&[u8], &[u8])>
    ensures { MatchOption result (length (words_of line.now) ≢ 2) (λ x. words_of line.now ≡ x.0.now ∷ x.1.now ∷ []) }
{
    let (first, rest) = first_word(line)?;
    let second = one_word(rest)?;
    Some((first, second))
}

#[tactic(auto, using(crate::proofs::WordCounts::other_schedule_words), unfolding(crate::specs::Schedule::schedule_words))]
fn schedule_words(line: &[u8]) -> Result<Option<ScheduleLine>, LineReason>
    ensures { result ≡ schedule_words (words_of line.now) }
{
    if is_wordless(line) {
        return Ok(None);
    }
    match word_pair(line) {
        Some((first, second)) => {
            let said = two_words(first, second)?;
            Ok(Some(said))
        }
        None => Err(LineReason::Schedule),
    }
}

/// What a line of a schedule says, if it says something. Its bytes may stand in a line, but those of a comment.
#[tactic(auto, unfolding(crate::specs::Schedule::schedule_line))]
pub fn schedule_line(line: &[u8]) -> Result<Option<ScheduleLine>, LineReason>
    requires { is_comment line.now ≡ false → is_text line.now ≡ true }
    ensures { result ≡ schedule_line line.now }
{
    if is_comment(line) {
        return Ok(None);
    }
    schedule_words(line)
}
