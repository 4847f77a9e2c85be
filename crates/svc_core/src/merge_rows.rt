//! The steps of a read that merges.
ghost use Rattle.std.specs.Prelude.{◌≡◌, ◌<◌, length, IsSome, OnOk, OnErr};
ghost use Rattle.runtime_cache.specs.Merged.{merged};
ghost use Rattle.svc_core.specs.declared.point.Point.TheVariants as point;
ghost use Rattle.svc_core.specs.Machine.{CanLook, IsStep, merged_machine, put_back};
ghost use Rattle.svc_core.specs.Progress.{call_at};

use crate::look::look;
use crate::machine::Machine;
use crate::point::Point;
use var_types::{OutOfMemory, Reply, Route};

impl Machine {
    pub(crate) fn merge_enter(&mut self, p: u8, made: u64, held: u64)
        requires within { p < length self.old.progress.processors }
        ensures { IsStep self.old p (point.MergeEnter made held) self.new }
    {
        self.writer_lock = p as u64 + 1;
        self.put(p, Point::MergeLoadMade { made, held });
    }

    pub(crate) fn merge_load_made(&mut self, p: u8, made: u64, held: u64)
        requires within { p < length self.old.progress.processors }
        ensures { IsStep self.old p (point.MergeLoadMade made held) self.new }
    {
        let place = self.made;
        self.put(p, Point::MergeTakeCache { made, held, place });
    }

    pub(crate) fn merge_take_cache(&mut self, p: u8, made: u64, held: u64, place: u64)
        requires within { p < length self.old.progress.processors }
        ensures { IsStep self.old p (point.MergeTakeCache made held place) self.new }
    {
        self.home = false;
        self.put(p, Point::Merge { made, held, place });
    }

    /// Takes what the ranges cover into the cache, which is then the stores.
    pub(crate) fn take_ranges(&mut self)
        ensures { self.new ≡ merged_machine self.old }
    {
        self.cache.merge(
            self.stores.non_volatile_bytes(),
            self.stores.volatile_bytes(),
            self.stores.runtime(),
            &self.ranges,
        );
        self.ranges.clear();
        self.flushed = self.progress.made();
    }

    pub(crate) fn merge(
        &mut self,
        p: u8,
        made: u64,
        held: u64,
        place: u64,
    ) -> Result<(), OutOfMemory>
        requires within { p < length self.old.progress.processors }
        requires look { CanLook self.old.stores (call_at self.old.progress.processors p) }
        requires same { merged self.old.ranges self.old.cache self.old.stores ≡ self.old.stores }
        ensures ok { OnOk result (IsStep self.old p (point.Merge made held place) self.new) }
        ensures err { OnErr result (self.new ≡ put_back self.old p (point.Merge made held place)) }
    {
        let Some(call) = self.progress.call(p as usize) else {
            return Ok(());
        };
        match look(self.alloc, &self.stores, call, &mut self.buffers) {
            Err(fault) => {
                self.put(p, Point::Merge { made, held, place });
                Err(fault)
            }
            Ok(reply) => {
                self.take_ranges();
                self.home = false;
                self.held = place;
                self.put(
                    p,
                    Point::MergePutCache {
                        made,
                        held,
                        place,
                        reply,
                    },
                );
                Ok(())
            }
        }
    }

    pub(crate) fn merge_put_cache(&mut self, p: u8, made: u64, held: u64, place: u64, reply: Reply)
        requires within { p < length self.old.progress.processors }
        ensures { IsStep self.old p (point.MergePutCache made held place reply) self.new }
    {
        self.home = true;
        self.put(
            p,
            Point::MergeLeave {
                made,
                held,
                place,
                reply,
            },
        );
    }

    pub(crate) fn merge_leave(&mut self, p: u8, made: u64, held: u64, place: u64, reply: Reply)
        requires within { p < length self.old.progress.processors }
        ensures { IsStep self.old p (point.MergeLeave made held place reply) self.new }
    {
        self.writer_lock = 0;
        self.put(
            p,
            Point::MergeUnlock {
                made,
                held,
                place,
                reply,
            },
        );
    }

    pub(crate) fn merge_unlock(&mut self, p: u8, made: u64, held: u64, place: u64, reply: Reply)
        requires within { p < length self.old.progress.processors }
        requires some { IsSome (call_at self.old.progress.processors p) }
        ensures { IsStep self.old p (point.MergeUnlock made held place reply) self.new }
    {
        self.lock = 0;
        self.answer(p, place, Route::Merged { made, held }, reply);
    }
}
