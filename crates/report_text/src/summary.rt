//! What calls come to, in numbers.
ghost use Rattle.std.specs.Prelude.{◌≡◌, count_by};
ghost use Rattle.var_types.specs.Step.{is_change};
ghost use Rattle.report_text.specs.Summary.{is_refused, replies_of, summary_line, summary_of};

use crate::{Part, Sizes, Word, write_line};
use var_types::{Answered, ExitReply, GetReply, NextReply, PolicyReply, Put, Reply, SetReply};

/// How many calls were made, made a change, and did not come to what they asked for; how many variables they leave, and how many bytes
/// these have.
#[derive(Clone, Copy, Debug, PartialEq, Eq)]
pub struct Summary {
    pub calls: u64,
    pub changes: u64,
    pub refused: u64,
    pub variables: u64,
    pub bytes: u64,
}

fn is_refused(reply: &Reply) -> bool
    ensures { result ≡ is_refused reply.now }
{
    match reply {
        Reply::Get(GetReply::Ok { .. })
        | Reply::Next(NextReply::Ok { .. })
        | Reply::Set(SetReply::Ok | SetReply::Same)
        | Reply::Policy(
            PolicyReply::Ok | PolicyReply::On | PolicyReply::Off | PolicyReply::Entry(_),
        )
        | Reply::Exit(ExitReply::Ok | ExitReply::Same) => false,
        _ => true,
    }
}

// How many answered calls made a change.
fn count_changes(answered: &[Answered]) -> usize
    ensures { result ≡ count_by is_change (replies_of answered.now) }
{
    let mut count = 0;
    for a in answered {
        if a.reply.is_change() {
            count += 1;
        }
    }
    count
}

// How many did not come to what they asked for.
fn count_refused(answered: &[Answered]) -> usize
    ensures { result ≡ count_by is_refused (replies_of answered.now) }
{
    let mut count = 0;
    for a in answered {
        if is_refused(&a.reply) {
            count += 1;
        }
    }
    count
}

/// The summary of answered calls, which leave variables of these sizes.
pub fn summary_of(answered: &[Answered], sizes: Sizes) -> Summary
    ensures { result ≡ summary_of (replies_of answered.now) sizes }
{
    Summary {
        calls: answered.len() as u64,
        changes: count_changes(answered) as u64,
        refused: count_refused(answered) as u64,
        variables: sizes.variables,
        bytes: sizes.bytes,
    }
}

/// Puts the line of a summary.
#[tactic(auto, unfolding(crate::specs::Summary::summary_line))]
pub fn write_summary<P: Put>(summary: &Summary, out: &mut P)
    ensures { P.Puts out.old out.new (summary_line summary.now) }
{
    let parts = [
        Part::Word(Word::Calls),
        Part::Number(summary.calls),
        Part::Word(Word::Changes),
        Part::Number(summary.changes),
        Part::Word(Word::Refused),
        Part::Number(summary.refused),
        Part::Word(Word::Variables),
        Part::Number(summary.variables),
        Part::Word(Word::Bytes),
        Part::Number(summary.bytes),
    ];
    write_line(&parts, out);
}
