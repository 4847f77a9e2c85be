ghost use Rattle.std.specs.Prelude.{◌≡◌, ◌<◌, ◌≤◌, ℕ, List, Option, length, take, is_some, IfOk, OnErr};
ghost use Rattle.std.specs.Io.KnownBytes.{Consumes, IsAtEnd};
ghost use Rattle.outside.specs.Faults.{HasCause};

use crate::Failed;

/// Where bytes come from.
pub trait Source {
    /// The bytes that are left to read, where this source tells them.
    ghost left: { Self → Option (List ℕ) };

    /// How many of its calls have failed.
    ghost fault_count: { Self → ℕ };

    /// Reads some bytes into the front of a piece, and says how many. At `Ok` the rest of the piece may hold anything.
    fn read(&mut self, into: &mut [u8]) -> Result<usize, Failed>
        ensures bound { IfOk result (λ n. n ≤ length into.new) }
        ensures bytes { IfOk result (λ n. Consumes (left self.old) (left self.new) (take n into.new)) }
        ensures end { IfOk result (λ n. n ≡ 0 → 0 < length into.new → IsAtEnd (left self.new)) }
        ensures kept { OnErr result (left self.new ≡ left self.old) }

        // Whether a source tells its bytes is changed by no call.
        ensures told { is_some (left self.new) ≡ is_some (left self.old) }

        ensures cause { HasCause (fault_count self.old) (fault_count self.new) result };
}
