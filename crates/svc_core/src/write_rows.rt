//! The steps of a call that is no read, behind its decision.
ghost use Rattle.std.specs.Prelude.{◌≡◌, ◌+◌, ◌<◌, [], length, All, IsSome};
ghost use Rattle.svc_core.specs.declared.point.Point.TheVariants as point;
ghost use Rattle.svc_core.specs.FlashSteps.{StepsFit};
ghost use Rattle.svc_core.specs.Machine.{IsStep};
ghost use Rattle.svc_core.specs.Plan.{IsInStore};
ghost use Rattle.var_types.specs.Stores.{HaveSizes};
ghost use Rattle.svc_core.specs.Progress.{call_at};

use crate::apply::{apply, cover};
use crate::flash_steps::FlashSteps;
use crate::machine::Machine;
use crate::point::Point;
use var_trace::Change;
use var_types::{Reply, Route};

/// The lock word while the writer's side holds it.
const WRITER_HOLD: u64 = 255;

impl Machine {
    /// Makes the next flash step, or behind the last of them takes the change.
    pub(crate) fn write(
        &mut self,
        p: u8,
        place: u64,
        reply: Reply,
        mut steps: FlashSteps,
        change: Change,
    )
        requires within { p < length self.old.progress.processors }
        requires fit { StepsFit steps }
        requires sizes { HaveSizes self.old.stores }
        requires inside { All IsInStore change.delta.pieces }
        requires room { length self.old.progress.log < self.old.progress.limit }
        ensures { IsStep self.old p (point.Write place reply steps change) self.new }
    {
        match steps.first() {
            None => self.take_change(p, place, reply, change),
            Some(step) => {
                self.flash.take(step);
                steps.advance();
                self.put(
                    p,
                    Point::Write {
                        place,
                        reply,
                        steps,
                        change,
                    },
                );
            }
        }
    }

    // The writer's stores, ranges and history take the change.
    fn take_change(&mut self, p: u8, place: u64, reply: Reply, change: Change)
        requires within { p < length self.old.progress.processors }
        requires sizes { HaveSizes self.old.stores }
        requires inside { All IsInStore change.delta.pieces }
        requires room { length self.old.progress.log < self.old.progress.limit }
        ensures { IsStep self.old p (point.Write place reply [] change) self.new }
    {
        apply(&mut self.stores, &change.delta);
        cover(&mut self.ranges, &change.delta);
        self.progress.push_change(change);
        self.put(p, Point::TryLock { place, reply });
    }

    pub(crate) fn try_lock(&mut self, p: u8, place: u64, reply: Reply)
        requires within { p < length self.old.progress.processors }
        ensures { IsStep self.old p (point.TryLock place reply) self.new }
    {
        let holder = self.lock;
        if holder == 0 {
            self.lock = WRITER_HOLD;
            self.put(p, Point::FlushTakeCache { place, reply });
        } else {
            self.put(
                p,
                Point::Defer {
                    place,
                    reply,
                    holder,
                },
            );
        }
    }

    pub(crate) fn flush_take_cache(&mut self, p: u8, place: u64, reply: Reply)
        requires within { p < length self.old.progress.processors }
        ensures { IsStep self.old p (point.FlushTakeCache place reply) self.new }
    {
        self.home = false;
        self.put(p, Point::Flush { place, reply });
    }

    pub(crate) fn flush(&mut self, p: u8, place: u64, reply: Reply)
        requires within { p < length self.old.progress.processors }
        requires clear { length self.old.progress.log ≡ self.old.made + 1 }
        ensures { IsStep self.old p (point.Flush place reply) self.new }
    {
        self.take_ranges();
        self.made = self.progress.made();
        self.put(p, Point::FlushSwapHeld { place, reply });
    }

    pub(crate) fn flush_swap_held(&mut self, p: u8, place: u64, reply: Reply)
        requires within { p < length self.old.progress.processors }
        ensures { IsStep self.old p (point.FlushSwapHeld place reply) self.new }
    {
        self.held = self.made;
        self.put(p, Point::FlushPutCache { place, reply });
    }

    pub(crate) fn flush_put_cache(&mut self, p: u8, place: u64, reply: Reply)
        requires within { p < length self.old.progress.processors }
        ensures { IsStep self.old p (point.FlushPutCache place reply) self.new }
    {
        self.home = true;
        self.put(p, Point::FlushUnlock { place, reply });
    }

    pub(crate) fn flush_unlock(&mut self, p: u8, place: u64, reply: Reply)
        requires within { p < length self.old.progress.processors }
        ensures { IsStep self.old p (point.FlushUnlock place reply) self.new }
    {
        self.lock = 0;
        let route = Route::Flushed;
        self.put(
            p,
            Point::Leave {
                place,
                reply,
                route,
            },
        );
    }

    pub(crate) fn defer(&mut self, p: u8, place: u64, reply: Reply, holder: u64)
        requires within { p < length self.old.progress.processors }
        requires clear { length self.old.progress.log ≡ self.old.made + 1 }
        ensures { IsStep self.old p (point.Defer place reply holder) self.new }
    {
        self.made = self.progress.made();
        let route = Route::Deferred { holder };
        self.put(
            p,
            Point::Leave {
                place,
                reply,
                route,
            },
        );
    }

    pub(crate) fn leave(&mut self, p: u8, place: u64, reply: Reply, route: Route)
        requires within { p < length self.old.progress.processors }
        requires some { IsSome (call_at self.old.progress.processors p) }
        ensures { IsStep self.old p (point.Leave place reply route) self.new }
    {
        self.writer_lock = 0;
        self.answer(p, place, route, reply);
    }
}
