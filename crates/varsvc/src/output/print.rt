//! The printing of a plan.
ghost use Rattle.std.specs.Prelude.{◌≡◌, ◌≢◌, ℕ, List, [], true, IfOk, OnOk, OnErr, Some};
ghost use Rattle.std.specs.Io.KnownBytes.{Appends};
ghost use Rattle.outside.specs.Written.{AppendsPart};
ghost use Rattle.report_text.specs.Flow.{PutsThrough, empty};
ghost use Rattle.varsvc.specs.Outcome.{FailsAt};
ghost use Rattle.varsvc.specs.declared.output.streamed.Streamed.TheVariants.{Listing, Play, Report, Script};
ghost use Rattle.varsvc.specs.Plan.{ComesTo, Gains, IsOutcome, IsPrintable, lacks_in, report_status, text_of};
ghost use Rattle.varsvc.specs.Runs.{lacks_one};

use crate::image::Content;
use crate::output::{Plan, Streamed, write_memory_line};
use flash_dev::HEADERS_BYTES;
use image_make::make_script;
use outside::{Failed, Sink};
use report_text::{
    Outlet, Page, Part, Word, variables_of, write_found, write_line, write_listing, write_session,
};
use std::alloc::Global;
use var_region::Region;
use var_trace::{Answers, Session};
use var_types::Put;

// These lines are constants, so that they are printed also where there is no memory.
const INPUT_LINE: &[u8] = b"input fault\n";

const DEVICE_LINE: &[u8] = b"device fault\n";

const MEMORY_LINE: &[u8] = b"no memory\n";

// Writes a text, and answers its status, or 5 where the sink fails. A text without bytes is not written.
fn print_text<K: Sink>(status: u8, text: &[u8], out: &mut K) -> u8
    requires { status ≢ 5 }
    ensures sink { FailsAt 5 result (K.fault_count out.old) (K.fault_count out.new) }
    ensures gains { Gains (λ s t. (s ≡ status) × (t ≡ text.now)) result (K.holds out.old) (K.holds out.new) }
    ensures quiet { text.now ≡ [] → out.new ≡ out.old }
{
    if text.is_empty() {
        return status;
    }
    match out.write(text) {
        Ok(()) => status,
        Err(_) => 5,
    }
}

/// Whether some call of a processor was out of memory.
pub fn lacks_one(answers: &Answers) -> bool
    ensures { result ≡ lacks_one answers.now.answered }
{
    answers.as_slice().iter().any(|a| a.lacks_memory())
}

/// Whether some call of a session was out of memory.
pub fn lacks_memory(session: &Session) -> bool
    ensures { result ≡ lacks_in session.now }
{
    session.processors.iter().any(|answers| lacks_one(answers))
}

fn report_status(session: &Session) -> u8
    ensures { result ≡ report_status session.now }
{
    if lacks_memory(session) { 8 } else { 0 }
}

// Puts the listing of a content's variables, and answers 0; where they take more memory than there is, the line that says so, and 8.
fn write_variables<P: Put>(alloc: Global, content: &Content, out: &mut P) -> u8
    ensures { (text : List ℕ) × ComesTo (Listing content.now) result text × P.Puts out.old out.new text }
{
    let region = Region::over(content.as_slice(), HEADERS_BYTES as u32, true);
    match write_listing(alloc, &region, out) {
        Ok(()) => 0,
        Err(_) => {
            write_memory_line(out);
            8
        }
    }
}

// Puts the report of a session, and answers its status.
fn write_report<P: Put>(session: &Session, out: &mut P) -> u8
    ensures { (text : List ℕ) × ComesTo (Report session.now) result text × P.Puts out.old out.new text }
{
    write_session(session, out);
    report_status(session)
}

// Puts the report of a session that was played, and behind it what a loss of power left, and answers 0; where the variables of that take more
// memory than there is, the line that says so, and 8.
fn write_lost<P: Put>(alloc: Global, session: &Session, left: &Content, out: &mut P) -> u8
    ensures { (text : List ℕ) × ComesTo (Play session.now (Some left.now)) result text × P.Puts out.old out.new text }
{
    let region = Region::over(left.as_slice(), HEADERS_BYTES as u32, true);
    match variables_of(alloc, &region) {
        Ok(variables) => {
            write_session(session, out);
            write_line(&[Part::Word(Word::Power)], out);
            write_found(&variables, out);
            0
        }
        Err(_) => {
            write_memory_line(out);
            8
        }
    }
}

// Puts the report of a session that was played, and what a loss of power left, if it was lost; and answers its status.
fn write_play<P: Put>(alloc: Global, session: &Session, left: &Option<Content>, out: &mut P) -> u8
    ensures { (text : List ℕ) × ComesTo (Play session.now left.now) result text × P.Puts out.old out.new text }
{
    match left {
        Some(left) => write_lost(alloc, session, left, out),
        None => {
            write_session(session, out);
            0
        }
    }
}

// Puts the script of a number, and answers 0.
fn write_script<P: Put>(number: u32, out: &mut P) -> u8
    ensures { (text : List ℕ) × ComesTo (Script number) result text × P.Puts out.old out.new text }
{
    make_script(number, out);
    0
}

fn write_streamed<P: Put>(alloc: Global, streamed: &Streamed, out: &mut P) -> u8
    ensures { (text : List ℕ) × ComesTo streamed.now result text × P.Puts out.old out.new text }
{
    match streamed {
        Streamed::Report { session } => write_report(session, out),
        Streamed::Play { session, left } => write_play(alloc, session, left, out),
        Streamed::Listing { content } => write_variables(alloc, content, out),
        Streamed::Script { number } => write_script(*number, out),
    }
}

// Puts all of it to a sink behind a page, and hands the page's rest to the sink.
fn put_streamed<K: Sink>(
    alloc: Global,
    streamed: &Streamed,
    outlet: &mut Outlet<K>,
) -> Result<u8, Failed>
    ensures text { (status : ℕ) × (text : List ℕ) × ComesTo streamed.now status text × IfOk result (λ s. s ≡ status) × PutsThrough (record { held = K.holds outlet.old.sink.now; faults = K.fault_count outlet.old.sink.now; kept = outlet.old.page.now }) (record { held = K.holds outlet.new.sink.now; faults = K.fault_count outlet.new.sink.now; kept = outlet.new.page.now }) text }
    ensures ok { OnOk result (outlet.new.page.now ≡ empty) }
    ensures err { OnErr result (outlet.new.page.now.broken ≡ true) }
    ensures same_sink { outlet.new.sink.ghost_name ≡ outlet.old.sink.ghost_name }
    ensures same_page { outlet.new.page.ghost_name ≡ outlet.old.page.ghost_name }
{
    let status = write_streamed(alloc, streamed, outlet);
    match outlet.finish() {
        Ok(()) => Ok(status),
        Err(failed) => Err(failed),
    }
}

// The same through an empty page.
fn stream_through<K: Sink>(
    alloc: Global,
    streamed: &Streamed,
    page: &mut Page,
    out: &mut K,
) -> Result<u8, Failed>
    requires { page.old ≡ empty }
    ensures text { (status : ℕ) × (text : List ℕ) × ComesTo streamed.now status text × IfOk result (λ s. s ≡ status) × PutsThrough (record { held = K.holds out.old; faults = K.fault_count out.old; kept = page.old }) (record { held = K.holds out.new; faults = K.fault_count out.new; kept = page.new }) text }
    ensures ok { OnOk result (page.new ≡ empty) }
    ensures err { OnErr result (page.new.broken ≡ true) }
{
    let mut outlet = Outlet { sink: out, page };
    put_streamed(alloc, streamed, &mut outlet)
}

// Writes what is streamed, and answers its status, or 5 where the sink fails. All memory is taken before the first byte.
fn stream<K: Sink>(alloc: Global, streamed: &Streamed, page: &mut Page, out: &mut K) -> u8
    requires { page.old ≡ empty }
    ensures sink { FailsAt 5 result (K.fault_count out.old) (K.fault_count out.new) }
    ensures gains { Gains (ComesTo streamed.now) result (K.holds out.old) (K.holds out.new) }
{
    match stream_through(alloc, streamed, page, out) {
        Ok(status) => status,
        Err(_) => 5,
    }
}

// Writes what is streamed through a page of its own.
#[tactic(auto, unfolding(crate::specs::FaultLines::memory_line, report_text::specs::Word::word_text))]
fn print_streamed<K: Sink>(alloc: Global, streamed: &Streamed, out: &mut K) -> u8
    ensures sink { FailsAt 5 result (K.fault_count out.old) (K.fault_count out.new) }
    ensures gains { Gains (ComesTo streamed.now) result (K.holds out.old) (K.holds out.new) }
{
    match Page::new(alloc) {
        Ok(mut page) => stream(alloc, streamed, &mut page, out),
        Err(_) => print_text(8, MEMORY_LINE, out),
    }
}

/// Prints what a plan comes to, and answers its status, or 5 where the sink fails. A text without bytes is not written.
#[tactic(auto, unfolding(crate::specs::FaultLines::input_line, crate::specs::FaultLines::device_line, crate::specs::FaultLines::memory_line, report_text::specs::Word::word_text))]
pub fn print_plan<K: Sink>(alloc: Global, plan: &Plan, out: &mut K) -> u8
    requires { IsPrintable plan.now }
    ensures sink { FailsAt 5 result (K.fault_count out.old) (K.fault_count out.new) }
    ensures gains { Gains (IsOutcome plan.now) result (K.holds out.old) (K.holds out.new) }
    ensures quiet { text_of plan.now ≡ [] → out.new ≡ out.old }
{
    match plan {
        Plan::Print { status, text } => print_text(*status, text.as_slice(), out),
        Plan::Stream { streamed } => print_streamed(alloc, streamed, out),
        Plan::InputFault => print_text(6, INPUT_LINE, out),
        Plan::DeviceFault => print_text(7, DEVICE_LINE, out),
        Plan::NoMemory => print_text(8, MEMORY_LINE, out),
    }
}
