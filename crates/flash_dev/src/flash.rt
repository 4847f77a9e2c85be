ghost use Rattle.std.specs.Prelude.{◌≡◌, ◌+◌, ◌*◌, ◌≤◌, ℕ, List, Option, Some, IfSome, length, take, drop, OnOk};
ghost use Rattle.outside.specs.Faults.{HasCause};
ghost use Rattle.flash_dev.specs.Moments.{Stays};
ghost use Rattle.flash_dev.specs.Rules.{IsEraseLeft, IsKept, IsProgramLeft, Leaves, block_filled, programmed};
ghost use Rattle.var_types.specs.Layout.{block_size};

use crate::Device;

/// A flash: programming clears bits, erasing a block sets them all, and power may be lost at any moment.
pub trait Flash: Drop {
    /// How many bytes it has.
    ghost size: { Self → ℕ };

    /// The bytes now, where this flash tells them.
    ghost holds: { Self → Option (List ℕ) };

    /// How many of its calls have failed.
    ghost fault_count: { Self → ℕ };

    /// The present moment, as a number that doesn't fall.
    ghost moment: { Self → ℕ };

    /// The images that a power loss at some moment since an earlier one may have left; it may tell of more than there are.
    ghost left_since: { Self → ℕ → List ℕ → Type 0 };

    /// How many bytes it has, which no call changes.
    fn len(&self) -> u64
        ensures { result ≡ size self.now };

    /// How many of its calls have failed; the count stands still at the greatest `u64`.
    fn faults(&self) -> u64
        ensures { result ≡ fault_count self.now };

    /// Reads the bytes from an offset on, as many as the piece has. After `Err` the piece may hold anything.
    fn read(&mut self, at: u32, into: &mut [u8]) -> Result<(), Device>
        requires { at + length into.old ≤ size self.old }
        ensures bytes { OnOk result (IfSome (holds self.old) (λ image. into.new ≡ take (length into.old) (drop at image))) }
        ensures kept { holds self.new ≡ holds self.old }
        ensures size { size self.new ≡ size self.old }
        ensures at_any_moment { Stays IsKept moment left_since holds self.old self.new }
        ensures cause { HasCause (fault_count self.old) (fault_count self.new) result };

    /// Clears the bits of the range from an offset on that are clear in the bytes; where it fails or power is lost, any of them.
    fn program(&mut self, at: u32, bytes: &[u8]) -> Result<(), Device>
        requires { at + length bytes.now ≤ size self.old }
        ensures programmed { OnOk result (Leaves (λ image left. left ≡ programmed at bytes.now image) (holds self.old) (holds self.new)) }
        ensures size { size self.new ≡ size self.old }
        ensures at_any_moment { Stays (IsProgramLeft at bytes.now) moment left_since holds self.old self.new }
        ensures cause { HasCause (fault_count self.old) (fault_count self.new) result };

    /// Fills a block of 4,096 bytes with 0xFF; where it fails or power is lost, the block may hold anything.
    fn erase(&mut self, block: u32) -> Result<(), Device>
        requires { block_size * block + block_size ≤ size self.old }
        ensures erased { OnOk result (Leaves (λ image left. left ≡ block_filled block 0xFF image) (holds self.old) (holds self.new)) }
        ensures size { size self.new ≡ size self.old }
        ensures at_any_moment { Stays (IsEraseLeft block) moment left_since holds self.old self.new }
        ensures cause { HasCause (fault_count self.old) (fault_count self.new) result };

    /// The bytes that are told are as many as it has.
    ghost sized: { (flash : Self) → IfSome (holds flash) (λ image. length image ≡ size flash) };

    /// The bytes now are among what a power loss may have left.
    ghost counts_now: { (flash : Self) (t : ℕ) (left : List ℕ) → t ≤ moment flash → holds flash ≡ Some left → left_since flash t left };

    /// A power loss between two calls leaves the bytes now.
    ghost only_now: { (flash : Self) (left : List ℕ) → left_since flash (moment flash) left → IfSome (holds flash) (λ image. left ≡ image) };
}
