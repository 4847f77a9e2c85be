ghost use Rattle.std.specs.Prelude.{◌≡◌, ◌+◌, ◌≤◌, ◌<◌, true, false, length, Ok, Some, IfOk, IfErr};
ghost use Rattle.std.specs.List.{list_all};
ghost use Rattle.std.specs.Str.Lines.{lines};
ghost use Rattle.script_text.specs.declared.play_fault.PlayFault.TheVariants.{Actor, Line};
ghost use Rattle.script_text.specs.GivesPlay.{GivesPlay};
ghost use Rattle.script_text.specs.Lines.{is_comment, is_text};
ghost use Rattle.script_text.specs.Schedule.{is_passed, schedule_from, schedule_line};
ghost use Rattle.script_text.specs.Script.{most_script_bytes};
ghost use Rattle.script_text.specs.TurnRead.{IsLineRefused, IsTurnRead};

use crate::lines::{first_line, text_line};
use crate::schedule_words::{is_passed, schedule_line};
use crate::{LineReason, PlayFault, PowerLoss, Schedule, ScheduleLine, Turn};
use std::alloc::Global;

// The processor of a line's turn, where there is such a processor.
fn actor(number: u32, processors: usize, processor: u32) -> Result<u8, PlayFault>
    requires { processors ≤ 8 }
    ensures ok { IfOk result (λ p. (p ≡ processor) × (processor < processors)) }
    ensures err { IfErr result (λ e. (processors ≤ processor) × (e ≡ Actor number)) }
{
    if (processor as usize) < processors {
        Ok(processor as u8)
    } else {
        Err(PlayFault::Actor { line: number })
    }
}

// Puts the turn of a line behind those before it, or tells the loss of power.
fn add_turn(
    number: u32,
    processors: usize,
    said: ScheduleLine,
    turns: &mut Vec<Turn>,
) -> Result<Option<PowerLoss>, PlayFault>
    requires { processors ≤ 8 }
    ensures ok { IfOk result (IsTurnRead number processors (Ok (Some said)) turns.old.items turns.new.items) }
    ensures err { IfErr result (IsLineRefused number processors (Ok (Some said))) }
{
    match said {
        ScheduleLine::Steps { processor, count } => {
            let processor = actor(number, processors, processor)?;
            turns.push(Turn::Steps { processor, count })?;
            Ok(None)
        }
        ScheduleLine::End { processor } => {
            let processor = actor(number, processors, processor)?;
            turns.push(Turn::End { processor })?;
            Ok(None)
        }
        ScheduleLine::Power { loss } => Ok(Some(loss)),
    }
}

fn read_turn(
    number: u32,
    processors: usize,
    line: &[u8],
    turns: &mut Vec<Turn>,
) -> Result<Option<PowerLoss>, PlayFault>
    requires few { processors ≤ 8 }
    requires text { is_comment line.now ≡ false → is_text line.now ≡ true }
    ensures ok { IfOk result (IsTurnRead number processors (schedule_line line.now) turns.old.items turns.new.items) }
    ensures err { IfErr result (IsLineRefused number processors (schedule_line line.now)) }
{
    match schedule_line(line) {
        Ok(None) => Ok(None),
        Ok(Some(said)) => add_turn(number, processors, said, turns),
        Err(reason) => Err(PlayFault::Line { number, reason }),
    }
}

// Whether all lines of a text are passed over.
fn all_passed(text: &[u8]) -> bool
    ensures { result ≡ list_all is_passed (lines text.now) }
{
    let mut rest = text;
    'passed: while !rest.is_empty() {
        let (line, behind) = first_line(rest);
        if !is_passed(line) {
            return false;
        }
        rest = behind;
    }
    true
}

/// The schedule of a text's lines, which are numbered from here on, for so many processors, or the first refusal from its front.
#[tactic(auto, unfolding(crate::specs::Schedule::schedule_from))]
pub fn read_schedule(
    alloc: Global,
    first: u32,
    processors: usize,
    text: &[u8],
) -> Result<Schedule, PlayFault>
    requires few { processors ≤ 8 }
    requires bounded { first + length text.now ≤ most_script_bytes + 2 }
    ensures { GivesPlay result (schedule_from first processors (lines text.now)) }
{
    let mut turns = Vec::new(alloc);
    let mut rest = text;
    let mut number = first;
    'lines: while !rest.is_empty() {
        let Some((line, behind)) = text_line(rest) else {
            let reason = LineReason::Schedule;
            return Err(PlayFault::Line { number, reason });
        };
        if let Some(loss) = read_turn(number, processors, line, &mut turns)? {
            if all_passed(behind) {
                let power = Some(loss);
                return Ok(Schedule { turns, power });
            }
            let reason = LineReason::Schedule;
            return Err(PlayFault::Line { number, reason });
        }
        rest = behind;
        number += 1;
    }
    let power = None;
    Ok(Schedule { turns, power })
}
