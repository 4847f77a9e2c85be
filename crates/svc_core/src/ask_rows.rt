//! The steps of a read that the writer's side answers.
ghost use Rattle.std.specs.Prelude.{◌≡◌, ◌<◌, length, IsSome, OnOk, OnErr};
ghost use Rattle.svc_core.specs.declared.point.Point.TheVariants as point;
ghost use Rattle.svc_core.specs.Machine.{CanLook, IsStep, put_back};
ghost use Rattle.svc_core.specs.Progress.{call_at};

use crate::look::look;
use crate::machine::Machine;
use crate::point::Point;
use var_types::{OutOfMemory, Reply, Route};

impl Machine {
    pub(crate) fn ask_enter(&mut self, p: u8, holder: u64)
        requires within { p < length self.old.progress.processors }
        ensures { IsStep self.old p (point.AskEnter holder) self.new }
    {
        self.writer_lock = p as u64 + 1;
        self.put(p, Point::AskLook { holder });
    }

    pub(crate) fn ask_look(&mut self, p: u8, holder: u64) -> Result<(), OutOfMemory>
        requires within { p < length self.old.progress.processors }
        requires clear { CanLook self.old.stores (call_at self.old.progress.processors p) }
        ensures ok { OnOk result (IsStep self.old p (point.AskLook holder) self.new) }
        ensures err { OnErr result (self.new ≡ put_back self.old p (point.AskLook holder)) }
    {
        let Some(call) = self.progress.call(p as usize) else {
            return Ok(());
        };
        match look(self.alloc, &self.stores, call, &mut self.buffers) {
            Err(fault) => {
                self.put(p, Point::AskLook { holder });
                Err(fault)
            }
            Ok(reply) => {
                let place = self.made;
                self.put(
                    p,
                    Point::AskLeave {
                        holder,
                        place,
                        reply,
                    },
                );
                Ok(())
            }
        }
    }

    pub(crate) fn ask_leave(&mut self, p: u8, holder: u64, place: u64, reply: Reply)
        requires within { p < length self.old.progress.processors }
        requires some { IsSome (call_at self.old.progress.processors p) }
        ensures { IsStep self.old p (point.AskLeave holder place reply) self.new }
    {
        self.writer_lock = 0;
        self.answer(p, place, Route::Writer { holder }, reply);
    }
}
