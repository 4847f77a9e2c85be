ghost use Rattle.std.specs.Prelude.{◌≤◌, All, length, IfOk};
ghost use Rattle.script_text.specs.GivesPlay.{GivesPlay};
ghost use Rattle.script_text.specs.Schedule.{play_of};
ghost use Rattle.script_text.specs.Script.{most_calls};

use crate::call_lines::read_calls;
use crate::calls_end::CallsEnd;
use crate::schedule_lines::read_schedule;
use crate::{PlayFault, PlayScript, Script};
use std::alloc::Global;

/// The calls of each processor that a text of at most 1,048,576 bytes spells, at most 20,000 of a processor, and the schedule of their steps
/// behind a line with the one word `schedule`; else the first refusal from its front.
#[tactic(auto, unfolding(crate::specs::Schedule::play_of))]
pub fn read_play(alloc: Global, bytes: &[u8]) -> Result<PlayScript, PlayFault>
    ensures play { GivesPlay result (play_of bytes.now) }
    ensures some { IfOk result (λ play. 1 ≤ length play.calls) }
    ensures few { IfOk result (λ play. length play.calls ≤ 8) }
    ensures short { IfOk result (λ play. All (λ calls. length calls ≤ most_calls) play.calls) }
{
    let read = read_calls(alloc, CallsEnd::Schedule, bytes)?;
    let schedule = read_schedule(alloc, read.number, read.calls.len(), read.rest)?;
    let script = Script::new(read.calls);
    Ok(PlayScript { script, schedule })
}
