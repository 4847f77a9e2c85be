//! The first step of a call.
ghost use Rattle.std.specs.Prelude.{◌≡◌, ◌<◌, true, false, length, IfSome};
ghost use Rattle.var_trace.specs.Routes.{is_read};
ghost use Rattle.svc_core.specs.declared.point.Point.TheVariants as point;
ghost use Rattle.svc_core.specs.Machine.{IsStep};
ghost use Rattle.svc_core.specs.Progress.{call_at};

use crate::look::is_read;
use crate::machine::Machine;
use crate::point::Point;

impl Machine {
    /// Begins the first call of a processor, if it has one.
    pub(crate) fn start(&mut self, p: u8)
        requires within { p < length self.old.progress.processors }
        ensures { IsStep self.old p point.Start self.new }
    {
        if let Some(call) = self.progress.call(p as usize) {
            let reads = is_read(call);
            self.start_call(p, reads);
        }
    }

    fn start_call(&mut self, p: u8, reads: bool)
        requires within { p < length self.old.progress.processors }
        requires clear { IfSome (call_at self.old.progress.processors p) (λ call. is_read call ≡ reads) }
        ensures { IsStep self.old p point.Start self.new }
    {
        if reads {
            self.start_read(p);
        } else {
            self.enter(p);
        }
    }

    // A read tries the lock word.
    fn start_read(&mut self, p: u8)
        requires within { p < length self.old.progress.processors }
        requires clear { IfSome (call_at self.old.progress.processors p) (λ call. is_read call ≡ true) }
        ensures { IsStep self.old p point.Start self.new }
    {
        let holder = self.lock;
        if holder == 0 {
            self.lock = p as u64 + 1;
            self.put(p, Point::LoadMade);
        } else {
            self.put(p, Point::AskEnter { holder });
        }
    }

    // Any other call takes the writer's lock.
    fn enter(&mut self, p: u8)
        requires within { p < length self.old.progress.processors }
        requires clear { IfSome (call_at self.old.progress.processors p) (λ call. is_read call ≡ false) }
        ensures { IsStep self.old p point.Start self.new }
    {
        self.writer_lock = p as u64 + 1;
        self.put(p, Point::Decide);
    }
}
