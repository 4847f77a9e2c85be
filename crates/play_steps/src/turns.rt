//! The turns of a schedule, and the loss of power behind them.
ghost use Rattle.std.specs.Prelude.{◌≡◌, true, false, length, IfOk, IfSome, OnOk};
ghost use Rattle.svc_core.specs.declared.event.Event.TheVariants as events;
ghost use Rattle.svc_core.specs.Events.{Happens};
ghost use Rattle.play_steps.specs.Play.{AreTurns, Ends, GoesOn, IsScheduled, IsTurn, Takes, answered_by, torn_of};
ghost use Rattle.svc_core.specs.Scene.{powered};

use crate::EngineWriter;
use flash_dev::Torn;
use script_text::{PowerLoss, Schedule, Turn};
use svc_core::{Event, Stepped, World};
use var_types::OutOfMemory;

// How many calls a processor has answered.
fn count_of(world: &World<EngineWriter>, processor: u8) -> usize
    ensures { result ≡ length (answered_by (powered world.now) processor) }
{
    match world.session().processors.get(usize::from(processor)) {
        Some(answers) => answers.as_slice().len(),
        None => 0,
    }
}

// A processor takes so many steps, or fewer, up to the first that changes nothing.
fn take_steps(world: &mut World<EngineWriter>, processor: u8, count: u32) -> Result<(), OutOfMemory>
    ensures { OnOk result (Takes processor (powered world.old) count (powered world.new)) }
{
    for step in 0..count {
        match world.step(&Event::Step { processor }) {
            Stepped::Moved => (),
            Stepped::Still => return Ok(()),
            Stepped::OutOfMemory => return Err(OutOfMemory),
        }
    }
    Ok(())
}

// A processor takes a step: whether it changed nothing or answered a call.
fn has_ended(world: &mut World<EngineWriter>, processor: u8) -> Result<bool, OutOfMemory>
    ensures ends { IfOk result (λ ended. ended ≡ true → Ends processor (powered world.old) (powered world.new)) }
    ensures goes_on { IfOk result (λ ended. ended ≡ false → GoesOn processor (powered world.old) (powered world.new)) }
{
    let before = count_of(world, processor);
    match world.step(&Event::Step { processor }) {
        Stepped::Moved => Ok(count_of(world, processor) != before),
        Stepped::Still => Ok(true),
        Stepped::OutOfMemory => Err(OutOfMemory),
    }
}

// A processor takes steps until its current call is answered, or a step changes nothing. Behind two steps it is neither before its call nor before
// the writer's plan, and from there on each step brings it nearer to its answer.
fn end_call(world: &mut World<EngineWriter>, processor: u8) -> Result<(), OutOfMemory>
    ensures { OnOk result (Ends processor (powered world.old) (powered world.new)) }
{
    if has_ended(world, processor)? {
        return Ok(());
    }
    if has_ended(world, processor)? {
        return Ok(());
    }
    'steps: while !has_ended(world, processor)? {}
    Ok(())
}

fn take_turn(world: &mut World<EngineWriter>, turn: Turn) -> Result<(), OutOfMemory>
    ensures { OnOk result (IsTurn turn (powered world.old) (powered world.new)) }
{
    match turn {
        Turn::Steps { processor, count } => take_steps(world, processor, count),
        Turn::End { processor } => end_call(world, processor),
    }
}

fn take_turns(world: &mut World<EngineWriter>, turns: &[Turn]) -> Result<(), OutOfMemory>
    ensures { OnOk result (AreTurns turns.now (powered world.old) (powered world.new)) }
{
    for turn in turns {
        take_turn(world, *turn)?;
    }
    Ok(())
}

fn torn_of(loss: PowerLoss) -> Torn
    ensures { result ≡ torn_of loss }
{
    match loss {
        PowerLoss::Before => Torn::Before,
        PowerLoss::Half => Torn::Half,
        PowerLoss::After => Torn::After,
    }
}

fn lose_power(world: &mut World<EngineWriter>, loss: PowerLoss) -> Result<(), OutOfMemory>
    ensures power { OnOk result (Happens (powered world.old) (events.Power (torn_of loss)) (powered world.new)) }
    ensures lost { OnOk result (world.new.lost ≡ true) }
{
    match world.step(&Event::Power {
        torn: torn_of(loss),
    }) {
        Stepped::Moved | Stepped::Still => Ok(()),
        Stepped::OutOfMemory => Err(OutOfMemory),
    }
}

/// Takes the turns of a schedule, and loses power behind them, if it does.
pub(crate) fn run_schedule(
    world: &mut World<EngineWriter>,
    schedule: &Schedule,
) -> Result<(), OutOfMemory>
    ensures ran { OnOk result (IsScheduled schedule.now (powered world.old) (powered world.new)) }
    ensures lost { OnOk result (IfSome schedule.now.power (λ _. world.new.lost ≡ true)) }
{
    take_turns(world, &schedule.turns)?;
    match schedule.power {
        Some(loss) => lose_power(world, loss),
        None => Ok(()),
    }
}
