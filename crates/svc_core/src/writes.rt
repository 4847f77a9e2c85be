ghost use Rattle.std.specs.Prelude.{◌≡◌, IfOk};
ghost use Rattle.svc_core.specs.Plan.{IsPlan};
ghost use Rattle.svc_core.specs.Writer.{Opening, Writer};

use crate::Planned;
use var_types::{Call, OutOfMemory};

/// A writer: it decides what a call that is no read does, from its own history, stores and image.
pub trait Writes: Drop {
    /// From where it starts.
    ghost opening: { Self → Opening };

    /// Its own history, stores and image.
    ghost own: { Self → Writer };

    /// Plans what a processor's call does, and does it to what is its own. After `Err` that may hold anything.
    fn plan(&mut self, processor: u8, index: u32, call: &Call) -> Result<Planned, OutOfMemory>
        ensures plan { IfOk result (λ p. IsPlan (opening self.old) (own self.old) processor index call.now p (own self.new)) }
        ensures opening { opening self.new ≡ opening self.old };
}
