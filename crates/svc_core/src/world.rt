ghost use Rattle.std.specs.Prelude.{◌≡◌, ◌≢◌, ◌<◌, ◌≤◌, true, false, length, map, All, IfOk, OnOk, Some};
ghost use Rattle.std.specs.Option.{option_copied};
ghost use Rattle.var_trace.specs.LegalSession.{IsLegalSoFar};
ghost use Rattle.var_trace.specs.Session.{answers_of};
ghost use Rattle.var_trace.specs.StoresAfter.{history_in};
ghost use Rattle.var_types.specs.Layout.{image_size};
ghost use Rattle.svc_core.specs.declared.event.Event.TheVariants as events;
ghost use Rattle.svc_core.specs.declared.event.Stepped.TheVariants as stepped;
ghost use Rattle.svc_core.specs.declared.point.Point.TheVariants as points;
ghost use Rattle.svc_core.specs.Power.{Keeps};
ghost use Rattle.svc_core.specs.Progress.{most_calls, point_at};
ghost use Rattle.svc_core.specs.Scene.{CanGo, IsOpening, IsRun, IsStepped, first_world, own_at_first};

use crate::event::{Event, Stepped};
use crate::machine::Machine;
use crate::point::Point;
use crate::standing::Standing;
use crate::writes::Writes;
use flash_dev::Torn;
use std::alloc::Global;
use std::marker::Model;
use var_trace::Session;
use var_types::{Bytes, Call, OutOfMemory};

/// A world of up to eight processors, which takes one event after the other.
#[derive(Drop)]
pub struct World<W: Writes> {
    writer: W,
    machine: Machine,
    standing: Standing,
}

impl<W: Writes> Model for World<W> {
    ghost use Rattle.svc_core.specs.Scene.{IsSceneOf, Scene, scene_of};

    ghost Value = { Scene };

    ghost view = { λ s. scene_of s.standing (W.opening s.writer) (W.own s.writer) s.machine };

    ghost invariant = { λ s. IsSceneOf s.standing (W.opening s.writer) (W.own s.writer) s.machine };
}

impl<W: Writes> World<W> {
    /// A world before its first event, with a list of calls for each processor, and room for as many changes as the limit says.
    pub fn begin(
        alloc: Global,
        writer: W,
        image: Bytes,
        calls: Vec<Vec<Call>>,
        limit: u64,
    ) -> Result<World<W>, OutOfMemory>
        requires some { 1 ≤ length calls.items }
        requires few { length calls.items ≤ 8 }
        requires short { All (λ v. length v.items ≤ most_calls) calls.items }
        requires opening { IsOpening (W.opening writer) image limit }
        requires own { W.own writer ≡ own_at_first (W.opening writer) image }
        ensures { IfOk result (λ s. s ≡ record { lost = false; over = false; world = first_world (W.opening writer) image (map (λ v. v.items) calls.items) }) }
    {
        let machine = Machine::begin(alloc, image, calls, limit)?;
        Ok(World {
            writer,
            machine,
            standing: Standing::Running,
        })
    }

    // Lets the writer plan a call.
    fn decide(&mut self, p: u8) -> Stepped
        requires live { self.old.lost ≡ false }
        requires running { self.old.over ≡ false }
        requires within { p < length self.old.world.processors }
        requires at { point_at self.old.world.processors p ≡ Some points.Decide }
        ensures { IsStepped self.old (events.Step p) result self.new }
    {
        let index = self.machine.progress.index(p as usize);
        match self.machine.progress.call(p as usize) {
            None => unreachable!(),
            Some(call) => match self.writer.plan(p, index, call) {
                Err(_) => {
                    self.standing = Standing::Spoiled;
                    Stepped::OutOfMemory
                }
                Ok(planned) => {
                    self.machine.decided(p, planned);
                    Stepped::Moved
                }
            },
        }
    }

    // Takes a processor's step, which isn't a decision.
    fn go(&mut self, p: u8) -> Stepped
        requires live { self.old.lost ≡ false }
        requires running { self.old.over ≡ false }
        requires ready { CanGo self.old.world p }
        ensures { IsStepped self.old (events.Step p) result self.new }
    {
        match self.machine.advance(p) {
            Err(_) => {
                self.standing = Standing::GivenUp;
                Stepped::OutOfMemory
            }
            Ok(()) => Stepped::Moved,
        }
    }

    // A processor takes its step.
    fn advance(&mut self, p: u8) -> Stepped
        requires live { self.old.lost ≡ false }
        requires running { self.old.over ≡ false }
        ensures { IsStepped self.old (events.Step p) result self.new }
    {
        if self.machine.is_still(p) {
            return Stepped::Still;
        }
        if is_decide(self.machine.progress.point(p as usize)) {
            self.decide(p)
        } else {
            self.go(p)
        }
    }

    // Power is lost.
    fn lose_power(&mut self, torn: Torn)
        requires live { self.old.lost ≡ false }
        requires running { self.old.over ≡ false }
        ensures { IsStepped self.old (events.Power torn) stepped.Moved self.new }
    {
        self.machine.lose_power(torn);
        self.standing = Standing::PowerLost;
    }

    /// Takes an event. Behind a loss of power none changes anything; out of memory the world is given up, and takes no further event.
    pub fn step(&mut self, event: &Event) -> Stepped
        ensures { IsStepped self.old event.now result self.new }
    {
        match self.standing {
            Standing::GivenUp | Standing::Spoiled => Stepped::OutOfMemory,
            Standing::PowerLost => Stepped::Still,
            Standing::Running => match event {
                Event::Step { processor } => self.advance(*processor),
                Event::Power { torn } => {
                    self.lose_power(*torn);
                    Stepped::Moved
                }
            },
        }
    }

    /// Takes events, one after the other, until the memory is used up.
    pub fn run(&mut self, events: &[Event]) -> Result<(), OutOfMemory>
        ensures ran { IsRun self.old events.now self.new }
        ensures all { OnOk result (self.old.over ≡ false → self.new.over ≡ false) }
    {
        for event in events {
            match self.step(event) {
                Stepped::OutOfMemory => return Err(OutOfMemory),
                Stepped::Moved | Stepped::Still => (),
            }
        }
        Ok(())
    }

    /// The session so far.
    pub fn session(&self) -> &Session
        ensures log { result.now.entries.log ≡ self.now.world.writer.log }
        ensures answers { answers_of result.now ≡ map (λ a. a.answered) self.now.world.processors }
        ensures legal { IsLegalSoFar self.now.world.opening.start (history_in result.now.entries.log) (answers_of result.now) }
    {
        self.machine.progress.session()
    }

    /// Where a processor stands in its call, if the world has it.
    pub fn point(&self, processor: usize) -> Option<&Point>
        ensures { option_copied result ≡ point_at self.now.world.processors processor }
    {
        if processor < self.machine.progress.len() {
            Some(self.machine.progress.point(processor))
        } else {
            None
        }
    }

    /// The bytes of the flash now; behind a loss of power those that it left.
    pub fn image(&self) -> &[u8]
        ensures bytes { result.now ≡ self.now.world.writer.flash }
        ensures size { length result.now ≡ image_size }
        ensures keeps { self.now.lost ≡ true → Keeps self.now.world result.now }
    {
        self.machine.flash.as_slice()
    }

    /// The session, the bytes of the flash, and the writer.
    pub fn release(self) -> (Session, Bytes, W)
        ensures log { result.0.entries.log ≡ self.world.writer.log }
        ensures answers { answers_of result.0 ≡ map (λ a. a.answered) self.world.processors }
        ensures image { result.1 ≡ self.world.writer.flash }
        ensures opening { W.opening result.2 ≡ self.world.opening }
    {
        let World {
            writer,
            machine,
            ..
        } = self;
        let Machine {
            progress,
            flash,
            ..
        } = machine;
        (progress.into_session(), flash.into_bytes(), writer)
    }
}

fn is_decide(point: &Point) -> bool
    ensures yes { result ≡ true → point.now ≡ points.Decide }
    ensures no { result ≡ false → point.now ≢ points.Decide }
{
    matches!(point, Point::Decide)
}
