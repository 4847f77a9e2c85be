ghost use Rattle.std.specs.Prelude.{◌≡◌};
ghost use Rattle.std.specs.BTreeMap.{is_at};
ghost use Rattle.var_types.specs.Key.{key_cmp, key_of};
ghost use Rattle.var_region.specs.Found.{seen_key};
ghost use Rattle.var_region.specs.Wanted.{wanted_key};

use crate::found::Found;
use crate::name::{Name, order_name};
use std::cmp::Ordering;
use var_types::Guid;

/// The key that a search wants, lent by a caller or by a record that was found.
#[derive(Clone, Copy, Debug)]
pub(crate) struct Wanted<'k> {
    pub(crate) guid: Guid,
    pub(crate) name: Name<'k>,
}

impl<'k> Wanted<'k> {
    /// The key of a GUID and a name.
    pub(crate) fn new(guid: &Guid, name: &'k [u16]) -> Wanted<'k>
        ensures { wanted_key result ≡ key_of guid.now name.now }
    {
        Wanted {
            guid: *guid,
            name: Name::Units(name),
        }
    }

    /// The key of a record that was found.
    pub(crate) fn of(found: &Found<'k>) -> Wanted<'k>
        ensures { wanted_key result ≡ seen_key found.now }
    {
        Wanted {
            guid: found.guid,
            name: Name::Bytes(found.name),
        }
    }

    /// How the key compares to that of a record that was found.
    pub(crate) fn order(&self, found: &Found) -> Ordering
        ensures { result ≡ key_cmp (wanted_key self.now) (seen_key found.now) }
    {
        self.guid
            .cmp(&found.guid)
            .then(order_name(&self.name, found.name))
    }
}

/// Whether a record that was found has the key of a GUID and a name.
pub fn has_key(found: &Found, guid: &Guid, name: &[u16]) -> bool
    ensures { result ≡ is_at (key_cmp (key_of guid.now name.now)) (seen_key found.now) }
{
    Wanted::new(guid, name).order(found).is_eq()
}
