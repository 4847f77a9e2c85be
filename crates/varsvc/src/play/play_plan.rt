//! The playing of a script with a schedule, and what is to be printed of it.
ghost use Rattle.std.specs.Prelude.{◌≡◌, ◌≢◌, ◌<◌, length, List, Option, ℕ, IfSome};
ghost use Rattle.var_types.specs.Layout.{volume_size};
ghost use Rattle.varsvc.specs.FaultLines.{play_line};
ghost use Rattle.varsvc.specs.Input.{most_read};
ghost use Rattle.varsvc.specs.Outcome.{FailsAt, IsText, ReadsInput, play_row};
ghost use Rattle.varsvc.specs.Plan.{HasPlanValues, PlansLine, status_of, text_of};
ghost use Rattle.varsvc.specs.Plays.{PlansPlay, PlaysSame};

use crate::image::Content;
use crate::input::{InputFault, read_input};
use crate::output::{Plan, Streamed, lacks_memory, plan_text, write_play_line};
use outside::Source;
use play_steps::{Played, play};
use script_text::PlayFault;
use std::alloc::Global;
use var_types::{Bytes, TextBuffer};

fn plan_play_fault(alloc: Global, fault: PlayFault) -> Plan
    ensures { PlansLine 3 (play_line fault) result }
{
    let mut text = TextBuffer::new(alloc);
    write_play_line(fault, &mut text);
    plan_text(3, text)
}

// The content that a loss of power left, if it was lost.
fn content_of(kept: Option<Bytes>) -> Option<Content>
    requires { IfSome kept (λ bytes. length bytes ≡ volume_size) }
    ensures { result ≡ kept }
{
    match kept {
        Some(bytes) => Some(Content::new(bytes.into_vec())),
        None => None,
    }
}

// Plans the report of a session that was played. None of its replies is out of memory, since a play that is has no session.
fn plan_session(played: Played) -> Plan
    requires { IfSome played.kept (λ bytes. length bytes ≡ volume_size) }
    ensures { PlansPlay played.session played.kept result }
{
    if lacks_memory(&played.session) {
        return Plan::NoMemory;
    }
    Plan::Stream {
        streamed: Streamed::Play {
            session: played.session,
            left: content_of(played.kept),
        },
    }
}

fn plan_schedule(alloc: Global, input: &[u8]) -> Plan
    ensures text { (told : Option (List ℕ)) → PlaysSame told input.now → HasPlanValues result → IsText (play_row told) (status_of result) (text_of result) }
    ensures was_read { status_of result ≢ 6 }
    ensures device { status_of result ≢ 7 }
    ensures short { status_of result ≡ 0 → length input.now < most_read }
{
    match play(alloc, input) {
        Ok(played) => plan_session(played),
        Err(PlayFault::OutOfMemory) => Plan::NoMemory,
        Err(fault) => plan_play_fault(alloc, fault),
    }
}

/// Reads a script with a schedule to its end, plays it on a blank image in memory, and plans what is to be printed.
pub fn plan_play<S: Source>(alloc: Global, source: &mut S) -> Plan
    ensures text { HasPlanValues result → IsText (play_row (S.left source.old)) (status_of result) (text_of result) }
    ensures cause { FailsAt 6 (status_of result) (S.fault_count source.old) (S.fault_count source.new) }
    ensures device { status_of result ≢ 7 }
    ensures reads { ReadsInput (play_row (S.left source.old)) (status_of result) (S.left source.old) (S.left source.new) }
{
    match read_input(alloc, source) {
        Ok(input) => plan_schedule(alloc, input.as_slice()),
        Err(InputFault::Failed) => Plan::InputFault,
        Err(InputFault::OutOfMemory) => Plan::NoMemory,
    }
}
