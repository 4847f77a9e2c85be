ghost use Rattle.std.specs.Prelude.{◌≡◌, ◌≤◌, IfSome, length};
ghost use Rattle.std.specs.BTreeMap.{is_at};
ghost use Rattle.std.specs.Map.{lookup};
ghost use Rattle.std.specs.Option.{option_map};
ghost use Rattle.mm_writer.specs.Stands.{Stands};
ghost use Rattle.var_region.specs.Found.{seen_variable};
ghost use Rattle.var_types.specs.Key.{key_cmp, key_of};
ghost use Rattle.var_types.specs.Layout.{longest_region};
ghost use Rattle.var_types.specs.Policies.{only_byte};
ghost use Rattle.var_types.specs.Region.{region_map};
ghost use Rattle.var_types.specs.TwoRegions.{joined};

use policy_table::{PolicyTable, StateView};
use runtime_cache::stored;
use set_rules::RoomTotals;
use var_region::{Found, Region};
use var_types::{Guid, Key};

/// What the writer's side keeps, as calls read it.
#[derive(Drop)]
pub(crate) struct EngineView<'a> {
    pub(crate) non_volatile: Region<'a>,
    pub(crate) volatile: Region<'a>,
    pub(crate) totals: RoomTotals,
    pub(crate) policies: &'a PolicyTable,
    pub(crate) runtime: bool,
    pub(crate) made: u64,
    pub(crate) limit: u64,
}

impl<'a> EngineView<'a> {
    /// The record that counts for a key.
    pub(crate) fn find(&self, guid: &Guid, name: &[u16]) -> Option<Found<'a>>
        ensures variable { option_map seen_variable result
            ≡ lookup (is_at (key_cmp (key_of guid.now name.now))) (joined (region_map self.now.non_volatile) (region_map self.now.volatile)) }
        ensures payload { IfSome result (λ f. length f.payload.now ≤ longest_region) }
    {
        stored(&self.non_volatile, &self.volatile, guid, name)
    }
}

fn only_byte(bytes: &[u8]) -> Option<u8>
    ensures { result ≡ only_byte bytes.now }
{
    match bytes {
        [byte] => Some(*byte),
        _ => None,
    }
}

impl<'a> StateView for EngineView<'a> {
    ghost is_of = { Stands };

    fn one_byte(&self, key: &Key) -> Option<u8> {
        match self.find(&key.guid, key.name.as_slice()) {
            None => None,
            Some(found) => only_byte(found.payload),
        }
    }
}
