ghost use Rattle.std.specs.Prelude.{◌≡◌, OnOk};
ghost use Rattle.var_types.specs.Key.{key_of};

use crate::{Guid, Units};
use std::alloc::{AllocError, Global};

/// What names a variable: a vendor's GUID and a name; keys are ordered by the stored GUID bytes, then by the name's units.
#[derive(Clone, Debug, PartialEq, Eq, PartialOrd, Ord, Drop)]
pub struct Key {
    pub guid: Guid,
    pub name: Units,
}

impl Key {
    /// The key of no name, which takes no memory.
    pub fn empty(alloc: Global) -> Key {
        Key {
            guid: Guid { bytes: [0; 16] },
            name: Units::from_vec(Vec::new(alloc)),
        }
    }

    /// Becomes the key of a GUID and a name, in the same memory where that is enough.
    pub fn assign(&mut self, guid: Guid, name: &Units) -> Result<(), AllocError>
        ensures { OnOk result (self.new ≡ key_of guid name.now) }
    {
        self.guid = guid;
        self.name.assign(name)
    }
}
