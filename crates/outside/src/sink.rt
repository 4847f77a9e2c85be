ghost use Rattle.std.specs.Prelude.{◌≡◌, ℕ, List, Option, is_some, OnOk, OnErr};
ghost use Rattle.std.specs.Io.KnownBytes.{Appends};
ghost use Rattle.outside.specs.Faults.{HasCause};
ghost use Rattle.outside.specs.Written.{AppendsPart};

use crate::Failed;

/// Where bytes go.
pub trait Sink {
    /// The bytes that it holds, where this sink tells them.
    ghost holds: { Self → Option (List ℕ) };

    /// How many of its calls have failed.
    ghost fault_count: { Self → ℕ };

    /// Appends all the bytes, or, where it fails, a front of them.
    fn write(&mut self, bytes: &[u8]) -> Result<(), Failed>
        ensures ok { OnOk result (Appends (holds self.old) (holds self.new) bytes.now) }
        ensures part { OnErr result (AppendsPart (holds self.old) (holds self.new) bytes.now) }

        // Whether a sink tells its bytes is changed by no call.
        ensures told { is_some (holds self.new) ≡ is_some (holds self.old) }

        ensures cause { HasCause (fault_count self.old) (fault_count self.new) result };
}
