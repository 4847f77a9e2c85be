ghost use Rattle.std.specs.Prelude.{◌≡◌, ◌+◌, ◌<◌, length, slice_get, true, false, OnOk, OnErr, IfSome, IsSome, Some};
ghost use Rattle.std.specs.Option.{option_copied};
ghost use Rattle.svc_core.specs.Events.{IsStillFor, IsStuck};
ghost use Rattle.svc_core.specs.Machine.{IsAdvance, IsClear, IsStep, decided_by, put_back, with_answered, world_of};
ghost use Rattle.svc_core.specs.Progress.{answered_at, call_at, point_at};

use crate::Planned;
use crate::buffers::Buffers;
use crate::flash_steps::FlashSteps;
use crate::image::Image;
use crate::look::is_read;
use crate::point::Point;
use crate::progress::Progress;
use pending_range::Ranges;
use runtime_cache::Cache;
use std::alloc::Global;
use var_types::{OutOfMemory, Reply, Route};

/// The world but for the writer: the words, the cache, the writer's side, and the processors.
#[derive(Drop)]
pub(crate) struct Machine {
    pub(crate) alloc: Global,
    pub(crate) count: u8,
    pub(crate) lock: u64,
    pub(crate) held: u64,
    pub(crate) home: bool,
    pub(crate) cache: Cache,
    pub(crate) writer_lock: u64,
    pub(crate) made: u64,
    pub(crate) stores: Cache,
    pub(crate) ranges: Ranges,
    pub(crate) flushed: u64,
    pub(crate) flash: Image,
    pub(crate) progress: Progress,
    pub(crate) buffers: Buffers,
}

impl Machine {
    pub(crate) fn put(&mut self, p: u8, point: Point)
        requires within { p < length self.old.progress.processors }
        ensures { self.new ≡ put_back self.old p point }
    {
        self.progress.put_point(p as usize, point);
    }

    pub(crate) fn answer(&mut self, p: u8, place: u64, route: Route, reply: Reply)
        requires within { p < length self.old.progress.processors }
        requires some { IsSome (call_at self.old.progress.processors p) }
        ensures { self.new ≡ with_answered self.old p place route reply }
    {
        self.progress.answer(p as usize, place, route, reply);
    }

    /// Puts the point behind a decision.
    pub(crate) fn decided(&mut self, p: u8, planned: Planned)
        requires within { p < length self.old.progress.processors }
        ensures { self.new ≡ put_back self.old p (decided_by self.old.made planned planned.change) }
    {
        let Planned {
            reply,
            steps,
            change,
        } = planned;
        let place = self.made;
        match change {
            None => {
                let route = Route::Plain;
                self.put(
                    p,
                    Point::Leave {
                        place,
                        reply,
                        route,
                    },
                );
            }
            Some(change) => {
                let steps = FlashSteps::new(steps);
                self.put(
                    p,
                    Point::Write {
                        place,
                        reply,
                        steps,
                        change,
                    },
                );
            }
        }
    }

    // Takes the step from a point that was taken out of its place; out of memory, the point is put back.
    fn go(&mut self, p: u8, point: Point) -> Result<(), OutOfMemory>
        requires within { p < length self.old.progress.processors }
        requires some { IsSome (call_at self.old.progress.processors p) }
        requires clear { IsClear (call_at self.old.progress.processors p) self.old point }
        ensures ok { OnOk result (IsStep self.old p point self.new) }
        ensures err { OnErr result (self.new ≡ put_back self.old p point) }
    {
        match point {
            Point::Start => self.start(p),
            Point::LoadMade => self.load_made(p),
            Point::LoadHeld { made } => self.load_held(p, made),
            Point::TakeCache { place } => self.take_cache(p, place),
            Point::Look { place } => return self.look(p, place),
            Point::Unlock { place, reply } => self.unlock(p, place, reply),
            Point::MergeEnter { made, held } => self.merge_enter(p, made, held),
            Point::MergeLoadMade { made, held } => self.merge_load_made(p, made, held),
            Point::MergeTakeCache { made, held, place } => {
                self.merge_take_cache(p, made, held, place);
            }
            Point::Merge { made, held, place } => return self.merge(p, made, held, place),
            Point::MergePutCache {
                made,
                held,
                place,
                reply,
            } => {
                self.merge_put_cache(p, made, held, place, reply);
            }
            Point::MergeLeave {
                made,
                held,
                place,
                reply,
            } => {
                self.merge_leave(p, made, held, place, reply);
            }
            Point::MergeUnlock {
                made,
                held,
                place,
                reply,
            } => {
                self.merge_unlock(p, made, held, place, reply);
            }
            Point::AskEnter { holder } => self.ask_enter(p, holder),
            Point::AskLook { holder } => return self.ask_look(p, holder),
            Point::AskLeave {
                holder,
                place,
                reply,
            } => self.ask_leave(p, holder, place, reply),
            Point::Decide => unreachable!(),
            Point::Write {
                place,
                reply,
                steps,
                change,
            } => {
                self.write(p, place, reply, steps, change);
            }
            Point::TryLock { place, reply } => self.try_lock(p, place, reply),
            Point::FlushTakeCache { place, reply } => self.flush_take_cache(p, place, reply),
            Point::Flush { place, reply } => self.flush(p, place, reply),
            Point::FlushSwapHeld { place, reply } => self.flush_swap_held(p, place, reply),
            Point::FlushPutCache { place, reply } => self.flush_put_cache(p, place, reply),
            Point::FlushUnlock { place, reply } => self.flush_unlock(p, place, reply),
            Point::Defer {
                place,
                reply,
                holder,
            } => self.defer(p, place, reply, holder),
            Point::Leave {
                place,
                reply,
                route,
            } => self.leave(p, place, reply, route),
        }
        Ok(())
    }

    /// Takes a processor's step, which isn't a decision; out of memory, nothing changes.
    pub(crate) fn advance(&mut self, p: u8) -> Result<(), OutOfMemory>
        requires within { p < length self.old.progress.processors }
        requires some { IsSome (call_at self.old.progress.processors p) }
        requires clear { IfSome (point_at self.old.progress.processors p) (λ x. IsClear (call_at self.old.progress.processors p) self.old x) }
        ensures ok { OnOk result (IsAdvance self.old p self.new) }
        ensures err { OnErr result (self.new ≡ self.old) }
    {
        let point = self.progress.take_point(p as usize);
        self.go(p, point)
    }
}
