ghost use Rattle.std.specs.Prelude.{◌≡◌, ◌==◌, [], ◌++◌, length, take, IfOk, OnOk, OnErr};
ghost use Rattle.std.proofs.Common.{rules};
ghost use Rattle.hex.specs.Hex.{encode_lower};
ghost use Rattle.std.specs.Cmp.Rules.{comparing};
ghost use Rattle.var_types.specs.Values.{AreBytes};
ghost use lib.Pointwise.{pointwise};

use crate::OutOfMemory;
use std::alloc::{AllocError, Global};
use std::marker::Model;

/// A list of bytes that grows at its end.
#[derive(Debug, Drop)]
pub struct Bytes {
    items: Vec<u8>,
}

impl Model for Bytes {
    ghost use Rattle.std.specs.Prelude.{ℕ, List};

    ghost Value = { List ℕ };

    ghost view = { λ b. b.items.items };
}

impl Bytes {
    /// No bytes; takes no memory.
    pub fn new(alloc: Global) -> Self
        ensures { result ≡ [] }
    {
        Bytes {
            items: Vec::new(alloc),
        }
    }

    /// The bytes of a vector, without a copy.
    pub fn from_vec(items: Vec<u8>) -> Self
        ensures { result ≡ items.items }
    {
        Bytes { items }
    }

    pub fn copy(alloc: Global, bytes: &[u8]) -> Result<Self, OutOfMemory>
        ensures { IfOk result (λ b. b ≡ bytes.now) }
    {
        Ok(Bytes {
            items: bytes.to_vec(alloc)?,
        })
    }

    /// Appends the bytes in amortised time; where it is out of memory, the list stays as it was.
    pub fn append(&mut self, bytes: &[u8]) -> Result<(), OutOfMemory>
        ensures ok { OnOk result (self.new ≡ self.old ++ bytes.now) }
        ensures err { OnErr result (self.new ≡ self.old) }
    {
        self.items.extend_from_slice(bytes)?;
        Ok(())
    }

    /// Becomes other bytes, as many as it has; takes no memory.
    pub fn overwrite(&mut self, bytes: &[u8])
        requires { length bytes.now ≡ length self.old }
        ensures { self.new ≡ bytes.now }
    {
        self.items.copy_from_slice(bytes);
    }

    /// Keeps the first bytes, at most as many as there are.
    pub fn truncate(&mut self, length: usize)
        ensures { self.new ≡ take length self.old }
    {
        self.items.truncate(length);
    }

    /// Appends the lower-case hexadecimal digits of bytes; where it is out of memory, the list stays as it was.
    pub fn append_hex(&mut self, bytes: &[u8]) -> Result<(), OutOfMemory>
        ensures ok { OnOk result (self.new ≡ self.old ++ encode_lower bytes.now) }
        ensures err { OnErr result (self.new ≡ self.old) }
    {
        let digits = hex::encode(*self.items.allocator(), bytes)?;
        self.items.extend_from_slice(digits.as_bytes())?;
        Ok(())
    }

    pub fn as_slice(&self) -> &[u8]
        ensures items { result.now ≡ self.now }
        ensures values { AreBytes self.now }
    {
        let items = self.items.as_slice();
        items
    }

    /// The vector behind the list, without a copy.
    pub fn into_vec(self) -> Vec<u8>
        ensures { result.items ≡ self }
    {
        self.items
    }
}

impl Clone for Bytes {
    ghost is_clone = { λ b c. c ≡ b };

    fn clone(&self) -> Result<Self, AllocError> {
        Ok(Bytes {
            items: self.items.to_vec(*self.items.allocator())?,
        })
    }
}

impl PartialEq for Bytes {
    ghost eq = { pointwise ◌==◌ };

    ghost laws = { Prim.search (comparing, rules) };

    fn eq(&self, other: &Self) -> bool {
        self.items.as_slice() == other.items.as_slice()
    }
}

impl Eq for Bytes {
    ghost laws = { Prim.search (comparing, rules) };
}
