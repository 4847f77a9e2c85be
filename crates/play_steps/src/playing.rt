//! A script with a schedule, played on a blank image in memory.
ghost use Rattle.std.specs.Prelude.{◌≡◌, ◌≤◌, true, All, IfErr, IfOk, IfSome, Ok, length, map};
ghost use Rattle.play_steps.specs.Play.{IsBegun, IsPlayed, content_left, play_limit};
ghost use Rattle.script_text.specs.GivesPlay.{IsPlayRefusal};
ghost use Rattle.script_text.specs.Schedule.{PlayParts, play_of};
ghost use Rattle.svc_core.specs.Power.{Keeps};
ghost use Rattle.svc_core.specs.Progress.{most_calls};
ghost use Rattle.var_trace.specs.LegalSession.{IsLegalSoFar};
ghost use Rattle.var_trace.specs.Session.{answers_of};
ghost use Rattle.var_trace.specs.StoresAfter.{history_in};
ghost use Rattle.var_types.specs.Kept.{content};
ghost use Rattle.var_types.specs.Layout.{image_size, volume_size};

use crate::turns::run_schedule;
use crate::{EngineWriter, Played, begin_world};
use flash_dev::{Device, VOLUME_BYTES};
use ftw_mount::read_kept;
use image_make::{SureFlash, blank_flash};
use nv_store::LoadWhy;
use script_text::{PlayFault, PowerLoss, Schedule, read_play};
use std::alloc::Global;
use svc_core::World;
use var_types::{Bytes, Call, OutOfMemory};

// How many changes a play may make.
fn limit_of(calls: &[Vec<Call>]) -> u64
    requires few { length calls.now ≤ 8 }
    requires short { All (λ v. length v.items ≤ most_calls) calls.now }
    ensures { result ≡ play_limit (map (λ v. v.items) calls.now) }
{
    let mut all = 0;
    for list in calls {
        all += list.len() as u64;
    }
    all.max(1)
}

// A world with these calls on a blank image.
fn begin(alloc: Global, calls: Vec<Vec<Call>>) -> Result<World<EngineWriter>, OutOfMemory>
    requires some { 1 ≤ length calls.items }
    requires few { length calls.items ≤ 8 }
    requires short { All (λ v. length v.items ≤ most_calls) calls.items }
    ensures { IfOk result (IsBegun (map (λ v. v.items) calls.items)) }
{
    let image = blank_flash(alloc)?.release();
    let limit = limit_of(&calls);
    match begin_world(alloc, image, calls, limit) {
        Ok(world) => Ok(world),
        Err(why) => match why {
            LoadWhy::OutOfMemory => Err(OutOfMemory),
            LoadWhy::Image(_) | LoadWhy::ForeignWork | LoadWhy::Device => unreachable!(),
        },
    }
}

// The part of a flash that holds the non-volatile variables.
fn content_of(alloc: Global, flash: Bytes) -> Result<Bytes, OutOfMemory>
    requires { length flash ≡ image_size }
    ensures content { IfOk result (λ bytes. bytes ≡ content flash) }
    ensures size { IfOk result (λ bytes. length bytes ≡ volume_size) }
{
    let mut flash = SureFlash::new(flash.into_vec());
    let mut bytes = vec![in alloc; 0u8; VOLUME_BYTES]?;
    match read_kept(&mut flash, &mut bytes) {
        Ok(_) => Ok(Bytes::from_vec(bytes)),
        Err(Device) => unreachable!(),
    }
}

// What a world comes to.
fn finish(
    alloc: Global,
    world: World<EngineWriter>,
    power: Option<PowerLoss>,
) -> Result<Played, OutOfMemory>
    ensures log { IfOk result (λ played. played.session.entries.log ≡ world.world.writer.log) }
    ensures answers { IfOk result (λ played. answers_of played.session ≡ map (λ a. a.answered) world.world.processors) }
    ensures left { IfOk result (λ played. played.kept ≡ content_left power world.world.writer.flash) }
    ensures size { IfOk result (λ played. IfSome played.kept (λ bytes. length bytes ≡ volume_size)) }
    ensures legal { IsLegalSoFar world.world.opening.start (history_in world.world.writer.log) (map (λ a. a.answered) world.world.processors) }
    ensures keeps { world.lost ≡ true → Keeps world.world world.world.writer.flash }
{
    let _session = world.session();
    let _image = world.image();
    let (session, flash, _writer) = world.release();
    let kept = match power {
        Some(_) => Some(content_of(alloc, flash)?),
        None => None,
    };
    Ok(Played { session, kept })
}

// Plays these calls by a schedule.
fn play_calls(
    alloc: Global,
    calls: Vec<Vec<Call>>,
    schedule: &Schedule,
) -> Result<Played, OutOfMemory>
    requires some { 1 ≤ length calls.items }
    requires few { length calls.items ≤ 8 }
    requires short { All (λ v. length v.items ≤ most_calls) calls.items }
    ensures played { let play : PlayParts = record { calls = map (λ v. v.items) calls.items; schedule = schedule.now } in IfOk result (λ played. IsPlayed play played.session played.kept) }
    ensures size { IfOk result (λ played. IfSome played.kept (λ bytes. length bytes ≡ volume_size)) }
{
    let mut world = begin(alloc, calls)?;
    run_schedule(&mut world, schedule)?;
    finish(alloc, world, schedule.power)
}

/// Plays a script with a schedule on a blank image in memory: its processors take their steps in the schedule's order, and power is lost behind the
/// last, if the schedule says so.
pub fn play(alloc: Global, bytes: &[u8]) -> Result<Played, PlayFault>
    ensures played { IfOk result (λ played. (parts : PlayParts) × (play_of bytes.now ≡ Ok parts) × IsPlayed parts played.session played.kept) }
    ensures size { IfOk result (λ played. IfSome played.kept (λ bytes. length bytes ≡ volume_size)) }
    ensures refused { IfErr result (λ e. IsPlayRefusal e (play_of bytes.now)) }
{
    let play = read_play(alloc, bytes)?;
    match play_calls(alloc, play.script.into_processors(), &play.schedule) {
        Ok(played) => Ok(played),
        Err(OutOfMemory) => Err(PlayFault::OutOfMemory),
    }
}
