//! The words of a line, cut one by one.
ghost use Rattle.std.specs.Prelude.{◌≡◌, ◌<◌, ◌∷◌, length, MatchOption};
ghost use Rattle.script_text.specs.Lines.{words_of};
ghost use Rattle.policy_audit.specs.Words.{has_lock_words};

use script_text::{first_word, is_wordless, three_words};

/// The first seven words of a line, and what stands behind them.
#[derive(Drop)]
pub struct LineWords<'a> {
    pub guid: &'a [u8],
    pub name: &'a [u8],
    pub min: &'a [u8],
    pub max: &'a [u8],
    pub must: &'a [u8],
    pub cant: &'a [u8],
    pub lock: &'a [u8],
    pub rest: &'a [u8],
}

/// The first seven words of a line, if it has as many.
pub fn seven_words(line: &[u8]) -> Option<LineWords<'_>>
    ensures { MatchOption result (length (words_of line.now) < 7)
        (λ x. words_of line.now ≡ x.guid.now ∷ x.name.now ∷ x.min.now ∷ x.max.now ∷ x.must.now ∷ x.cant.now ∷ x.lock.now ∷ words_of x.rest.now) }
{
    let (guid, rest) = first_word(line)?;
    let (name, rest) = first_word(rest)?;
    let (min, rest) = first_word(rest)?;
    let (max, rest) = first_word(rest)?;
    let (must, rest) = first_word(rest)?;
    let (cant, rest) = first_word(rest)?;
    let (lock, rest) = first_word(rest)?;
    Some(LineWords {
        guid,
        name,
        min,
        max,
        must,
        cant,
        lock,
        rest,
    })
}

/// Whether as many words stand behind the word of a lock as it asks for.
#[tactic(auto, unfolding(crate::specs::Words::has_lock_words))]
pub fn has_lock_words(lock: &[u8], rest: &[u8]) -> bool
    ensures { result ≡ has_lock_words lock.now (words_of rest.now) }
{
    if lock == b"state".as_slice() {
        return three_words(rest).is_some();
    }
    is_wordless(rest)
}
