ghost use Rattle.std.specs.Prelude.{◌≡◌, ◌⊎◌, ◌<◌, ◌≤◌, ◌+◌, ◌++◌, true, false, [], ◌∷◌, length, map, Ok, IfOk, IfErr, OnOk};
ghost use Rattle.std.specs.Str.Lines.{lines};
ghost use Rattle.script_text.specs.declared.script_fault.ScriptFault.TheVariants.{OutOfMemory, TooManyCalls};
ghost use Rattle.script_text.specs.CallLines.{calls_until, ends_at, lines_before, lines_behind};
ghost use Rattle.script_text.specs.Gives.{IsRefusal};
ghost use Rattle.script_text.specs.Lines.{is_comment, is_text};
ghost use Rattle.script_text.specs.Reached.{reached};
ghost use Rattle.script_text.specs.Script.{after_call, after_line, calls_from, most_calls, most_script_bytes};
ghost use Rattle.script_text.specs.Words.{line_call};

use crate::calls_end::CallsEnd;
use crate::line_fault::LineFault;
use crate::lines::text_line;
use crate::schedule_words::begins_schedule;
use crate::words::line_call;
use crate::{LineReason, ScriptFault};
use std::alloc::Global;
use var_types::Call;

/// How many bytes a script may have.
const MOST_BYTES: usize = 1_048_576;

/// How many calls a processor may have.
const MOST_CALLS: usize = 20_000;

/// The calls of a text's lines, up to the line at which they end; the text behind that line, and the number of its first line.
#[derive(Drop)]
pub struct CallLines<'a> {
    pub calls: Vec<Vec<Call>>,
    pub number: u32,
    pub rest: &'a [u8],
}

// Makes a list for each processor up to this one.
fn reach(
    alloc: Global,
    processors: &mut Vec<Vec<Call>>,
    processor: usize,
) -> Result<(), ScriptFault>
    requires { processor < 8 }
    ensures ok { OnOk result (map (λ v. v.items) processors.new.items ≡ reached (map (λ v. v.items) processors.old.items) processor) }
    ensures within { OnOk result (processor < length processors.new.items) }
    ensures err { IfErr result (λ e. e ≡ OutOfMemory) }
{
    'reached: while processors.len() <= processor {
        processors.push(Vec::new(alloc))?;
    }
    Ok(())
}

// Puts a call at the end of its processor's, if that may have one more.
fn push_call(calls: &mut Vec<Call>, processor: u8, call: Call) -> Result<(), ScriptFault>
    ensures ok { OnOk result ((length calls.old.items < most_calls) × (calls.new.items ≡ calls.old.items ++ call ∷ [])) }
    ensures err { IfErr result (λ e. (e ≡ OutOfMemory) ⊎ ((most_calls ≤ length calls.old.items) × (e ≡ TooManyCalls processor most_calls))) }
{
    if calls.len() >= MOST_CALLS {
        return Err(ScriptFault::TooManyCalls {
            processor,
            limit: MOST_CALLS as u32,
        });
    }
    calls.push(call)?;
    Ok(())
}

fn add_call(
    alloc: Global,
    calls: &mut Vec<Vec<Call>>,
    processor: u8,
    call: Call,
) -> Result<(), ScriptFault>
    requires { processor < 8 }
    ensures ok { OnOk result (after_call (map (λ v. v.items) calls.old.items) processor call ≡ Ok (map (λ v. v.items) calls.new.items)) }
    ensures err { IfErr result (λ e. IsRefusal e (after_call (map (λ v. v.items) calls.old.items) processor call)) }
{
    let place = usize::from(processor);
    reach(alloc, calls, place)?;
    push_call(&mut calls[place], processor, call)
}

fn read_line(
    alloc: Global,
    number: u32,
    line: &[u8],
    calls: &mut Vec<Vec<Call>>,
) -> Result<(), ScriptFault>
    requires { is_comment line.now ≡ false → is_text line.now ≡ true }
    ensures ok { OnOk result (after_line number (map (λ v. v.items) calls.old.items) (line_call line.now) ≡ Ok (map (λ v. v.items) calls.new.items)) }
    ensures err { IfErr result (λ e. IsRefusal e (after_line number (map (λ v. v.items) calls.old.items) (line_call line.now))) }
{
    match line_call(alloc, line) {
        Ok(None) => Ok(()),
        Ok(Some((processor, call))) => add_call(alloc, calls, processor, call),
        Err(LineFault::Reason(reason)) => Err(ScriptFault::Line { number, reason }),
        Err(LineFault::OutOfMemory) => Err(ScriptFault::OutOfMemory),
    }
}

// Whether the lines of calls end at a line.
fn ends_at(end: CallsEnd, line: &[u8]) -> bool
    ensures { result ≡ ends_at end line.now }
{
    match end {
        CallsEnd::Text => false,
        CallsEnd::Schedule => begins_schedule(line),
    }
}

#[tactic(auto, unfolding(crate::specs::Script::calls_from, crate::specs::CallLines::lines_before, crate::specs::CallLines::lines_behind))]
fn calls_in(alloc: Global, end: CallsEnd, text: &[u8]) -> Result<CallLines<'_>, ScriptFault>
    requires { length text.now ≤ most_script_bytes }
    ensures calls { IfOk result (λ read. calls_from 1 ([] ∷ []) (lines_before end (lines text.now)) ≡ Ok (map (λ v. v.items) read.calls.items)) }
    ensures behind { IfOk result (λ read. lines read.rest.now ≡ lines_behind end (lines text.now)) }
    ensures numbered { IfOk result (λ read. read.number ≡ length (lines_before end (lines text.now)) + 2) }
    ensures bounded { IfOk result (λ read. read.number + length read.rest.now ≤ most_script_bytes + 2) }
    ensures err { IfErr result (λ e. IsRefusal e (calls_from 1 ([] ∷ []) (lines_before end (lines text.now)))) }
{
    let mut calls = Vec::new(alloc);
    calls.push(Vec::new(alloc))?;
    let mut rest = text;
    let mut number = 1;
    'lines: while !rest.is_empty() {
        let Some((line, behind)) = text_line(rest) else {
            let reason = LineReason::Text;
            return Err(ScriptFault::Line { number, reason });
        };
        if ends_at(end, line) {
            let (number, rest) = (number + 1, behind);
            return Ok(CallLines {
                calls,
                number,
                rest,
            });
        }
        read_line(alloc, number, line, &mut calls)?;
        rest = behind;
        number += 1;
    }
    number += 1;
    Ok(CallLines {
        calls,
        number,
        rest,
    })
}

/// The calls of the lines of a text of at most 1,048,576 bytes, at most 20,000 of a processor, or the first refusal from its front.
#[tactic(auto, unfolding(crate::specs::CallLines::calls_until))]
pub fn read_calls(alloc: Global, end: CallsEnd, text: &[u8]) -> Result<CallLines<'_>, ScriptFault>
    ensures calls { IfOk result (λ read. calls_until end text.now ≡ Ok (map (λ v. v.items) read.calls.items)) }
    ensures behind { IfOk result (λ read. lines read.rest.now ≡ lines_behind end (lines text.now)) }
    ensures numbered { IfOk result (λ read. read.number ≡ length (lines_before end (lines text.now)) + 2) }
    ensures bounded { IfOk result (λ read. read.number + length read.rest.now ≤ most_script_bytes + 2) }
    ensures err { IfErr result (λ e. IsRefusal e (calls_until end text.now)) }
{
    if text.len() > MOST_BYTES {
        return Err(ScriptFault::TooLong {
            bytes: MOST_BYTES as u32,
        });
    }
    calls_in(alloc, end, text)
}
