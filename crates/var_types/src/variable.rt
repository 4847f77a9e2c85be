ghost use Rattle.std.specs.Prelude.{◌≡◌};

use crate::attributes::{RUNTIME_ACCESS, has};
use crate::{Bytes, Stamp};

/// A variable without its key: its attributes, its data and the stamp of its last time-based write.
#[derive(Debug, PartialEq, Eq, Drop)]
pub struct Variable {
    pub attributes: u32,
    pub bytes: Bytes,
    pub stamp: Stamp,
}

impl Variable {
    ghost use Rattle.var_types.specs.Least.{is_shown};

    /// Whether callers see the variable, at runtime or before (UEFI 2.10, 8.2.1).
    pub fn is_shown(&self, runtime: bool) -> bool
        ensures { result ≡ is_shown runtime self.now }
    {
        !runtime || has(self.attributes, RUNTIME_ACCESS)
    }
}
