//! The report of a session: its history, and each processor's answered calls.
ghost use Rattle.std.specs.Prelude.{◌≡◌, ◌^◌, ◌<◌, [], ◌∷◌, length, decimal, flat_map, map, All};
ghost use Rattle.report_text.specs.Report.{answer_line, entry_line, history_lines, indexed, processor_lines, route_text, session_text};
ghost use Rattle.report_text.specs.Values.{AnswerHasValues, HasValuesOfRoute, HaveValues};
ghost use Rattle.var_trace.specs.Session.{answers_of};
ghost use Rattle.var_trace.specs.StoresAfter.{history_in};
ghost use Rattle.var_types.specs.Texts.{spaced};

use crate::replies::write_reply;
use crate::{Part, Word, write_line, write_parts};
use var_trace::{Answers, Change, Entry, Session};
use var_types::{Answered, Put, Route};

#[tactic(auto, unfolding(crate::specs::Report::entry_line))]
fn write_entry<P: Put>(entry: &Entry, out: &mut P)
    ensures { P.Puts out.old out.new (entry_line entry.now) }
{
    let number = Part::Number(entry.number);
    let processor = Part::Number(u64::from(entry.processor));
    let index = Part::Number(u64::from(entry.index));
    write_line(&[number, processor, index, Part::Call(&entry.call)], out);
}

fn write_entries<P: Put>(changes: &[Change], out: &mut P)
    ensures { P.Puts out.old out.new (flat_map entry_line (history_in changes.now)) }
{
    for change in changes {
        write_entry(&change.entry, out);
    }
}

#[tactic(auto, unfolding(crate::specs::Report::history_lines))]
fn write_history<P: Put>(changes: &[Change], out: &mut P)
    ensures { P.Puts out.old out.new (history_lines (history_in changes.now)) }
{
    let count = Part::Number(changes.len() as u64);
    write_line(&[Part::Word(Word::History), count], out);
    write_entries(changes, out);
}

#[tactic(auto, unfolding(crate::specs::Report::route_text))]
/// Puts the route of a reply.
pub(crate) fn write_route<P: Put>(route: Route, out: &mut P)
    ensures text { P.Puts out.old out.new (route_text route) }
    ensures values { HasValuesOfRoute route }
{
    match route {
        Route::Plain => write_parts(&[Part::Word(Word::Plain)], out),
        Route::Cache => write_parts(&[Part::Word(Word::Cache)], out),
        Route::Merged { made, held } => write_parts(
            &[
                Part::Word(Word::Merged),
                Part::Number(made),
                Part::Number(held),
            ],
            out,
        ),
        Route::Writer { holder } => {
            write_parts(&[Part::Word(Word::Writer), Part::Number(holder)], out)
        }
        Route::Flushed => write_parts(&[Part::Word(Word::Flushed)], out),
        Route::Deferred { holder } => {
            write_parts(&[Part::Word(Word::Deferred), Part::Number(holder)], out)
        }
    }
}

// Puts the front of an answered call's line: its index, its place and its route.
fn write_answer_front<P: Put>(index: usize, place: u64, route: Route, out: &mut P)
    ensures text { P.Puts out.old out.new (spaced (decimal index ∷ decimal place ∷ route_text route ∷ [])) }
    ensures place { place < 2 ^ 64 }
    ensures route { HasValuesOfRoute route }
{
    write_parts(&[Part::Number(index as u64), Part::Number(place)], out);
    out.put(b" ");
    write_route(route, out);
}

fn write_answer<P: Put>(index: usize, a: &Answered, out: &mut P)
    ensures text { P.Puts out.old out.new (answer_line index a.now) }
    ensures values { AnswerHasValues a.now }
{
    write_answer_front(index, a.place, a.route, out);
    out.put(b" ");
    write_reply(&a.reply, out);
    out.put(b"\n");
}

fn write_answers<P: Put>(answered: &[Answered], out: &mut P)
    ensures text { P.Puts out.old out.new (indexed answer_line 0 answered.now) }
    ensures values { All AnswerHasValues answered.now }
{
    for (index, a) in answered.iter().enumerate() {
        write_answer(index, a, out);
    }
}

#[tactic(auto, unfolding(crate::specs::Report::processor_lines))]
fn write_processor<P: Put>(processor: u64, answered: &[Answered], out: &mut P)
    ensures text { P.Puts out.old out.new (processor_lines processor answered.now) }
    ensures values { All AnswerHasValues answered.now }
{
    let number = Part::Number(processor);
    let count = Part::Number(answered.len() as u64);
    let processor = Part::Word(Word::Processor);
    write_line(&[processor, number, Part::Word(Word::Calls), count], out);
    write_answers(answered, out);
}

fn write_processors<P: Put>(processors: &[Answers], out: &mut P)
    ensures text { P.Puts out.old out.new (indexed processor_lines 0 (map (λ answers. answers.answered) processors.now)) }
    ensures values { HaveValues (map (λ answers. answers.answered) processors.now) }
{
    for (processor, answers) in processors.iter().enumerate() {
        write_processor(processor as u64, answers.as_slice(), out);
    }
}

/// Puts the report of a session.
#[tactic(auto, unfolding(crate::specs::Report::session_text))]
pub fn write_session<P: Put>(session: &Session, out: &mut P)
    ensures text { P.Puts out.old out.new (session_text (history_in session.now.entries.log) (answers_of session.now)) }
    ensures values { HaveValues (answers_of session.now) }
{
    write_history(session.entries.changes(), out);
    write_processors(&session.processors, out);
    write_line(&[Part::Word(Word::End)], out);
}
