//! The steps of a read that is answered from the cache.
ghost use Rattle.std.specs.Prelude.{◌≡◌, ◌<◌, length, IsSome, OnOk, OnErr};
ghost use Rattle.svc_core.specs.declared.point.Point.TheVariants as point;
ghost use Rattle.svc_core.specs.Machine.{CanLook, IsStep, put_back};
ghost use Rattle.svc_core.specs.Progress.{call_at};

use crate::look::look;
use crate::machine::Machine;
use crate::point::Point;
use var_types::{OutOfMemory, Reply, Route};

impl Machine {
    pub(crate) fn load_made(&mut self, p: u8)
        requires within { p < length self.old.progress.processors }
        ensures { IsStep self.old p point.LoadMade self.new }
    {
        let made = self.made;
        self.put(p, Point::LoadHeld { made });
    }

    pub(crate) fn load_held(&mut self, p: u8, made: u64)
        requires within { p < length self.old.progress.processors }
        ensures { IsStep self.old p (point.LoadHeld made) self.new }
    {
        let held = self.held;
        if held == made {
            self.put(p, Point::TakeCache { place: made });
        } else {
            self.put(p, Point::MergeEnter { made, held });
        }
    }

    pub(crate) fn take_cache(&mut self, p: u8, place: u64)
        requires within { p < length self.old.progress.processors }
        ensures { IsStep self.old p (point.TakeCache place) self.new }
    {
        self.home = false;
        self.put(p, Point::Look { place });
    }

    pub(crate) fn look(&mut self, p: u8, place: u64) -> Result<(), OutOfMemory>
        requires within { p < length self.old.progress.processors }
        requires clear { CanLook self.old.cache (call_at self.old.progress.processors p) }
        ensures ok { OnOk result (IsStep self.old p (point.Look place) self.new) }
        ensures err { OnErr result (self.new ≡ put_back self.old p (point.Look place)) }
    {
        let Some(call) = self.progress.call(p as usize) else {
            return Ok(());
        };
        match look(self.alloc, &self.cache, call, &mut self.buffers) {
            Err(fault) => {
                self.put(p, Point::Look { place });
                Err(fault)
            }
            Ok(reply) => {
                self.home = true;
                self.put(p, Point::Unlock { place, reply });
                Ok(())
            }
        }
    }

    pub(crate) fn unlock(&mut self, p: u8, place: u64, reply: Reply)
        requires within { p < length self.old.progress.processors }
        requires some { IsSome (call_at self.old.progress.processors p) }
        ensures { IsStep self.old p (point.Unlock place reply) self.new }
    {
        self.lock = 0;
        self.answer(p, place, Route::Cache, reply);
    }
}
