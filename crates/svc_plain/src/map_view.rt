ghost use Rattle.std.specs.Prelude.{◌≡◌};
ghost use Rattle.var_types.specs.Policies.{only_byte};
ghost use Rattle.svc_plain.specs.Stands.{Keeps};

use policy_table::StateView;
use std::collections::BTreeMap;
use var_types::{Key, Variable};

/// The variables of the service, as a lock on a variable's state sees them.
#[derive(Clone, Copy)]
pub(crate) struct MapView<'a> {
    pub(crate) variables: &'a BTreeMap<Key, Variable>,
}

fn only_byte(bytes: &[u8]) -> Option<u8>
    ensures { result ≡ only_byte bytes.now }
{
    match bytes {
        [byte] => Some(*byte),
        _ => None,
    }
}

impl<'a> StateView for MapView<'a> {
    ghost is_of = { Keeps };

    fn one_byte(&self, key: &Key) -> Option<u8> {
        match self.variables.get(key) {
            None => None,
            Some(variable) => only_byte(variable.bytes.as_slice()),
        }
    }
}
