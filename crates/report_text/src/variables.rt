//! The variables of a region, each by the record that counts for its key, found in one pass.
ghost use Rattle.std.specs.Prelude.{◌≡◌, ◌≤◌, length, map, IfOk, OnOk};
ghost use Rattle.var_region.specs.Found.{seen, seen_key};
ghost use Rattle.var_types.specs.Census.{records_room};
ghost use Rattle.var_types.specs.Layout.{most_units};
ghost use Rattle.var_types.specs.Region.{region_map};
ghost use Rattle.report_text.specs.Held.{entry_of, held_after, held_entry};

use std::alloc::Global;
use std::collections::BTreeMap;
use var_region::{Found, Region, counting};
use var_types::{Key, OutOfMemory, Units};

fn key_of(alloc: Global, found: &Found) -> Result<Key, OutOfMemory>
    requires { length (seen_key found.now).name ≤ most_units }
    ensures { IfOk result (λ key. key ≡ seen_key found.now) }
{
    Ok(Key {
        guid: found.guid,
        name: Units::from_le_bytes(alloc, found.name)?,
    })
}

/// Holds under a record's key the record that counts for it so far.
fn hold<'a>(
    alloc: Global,
    held: &mut BTreeMap<Key, Found<'a>>,
    found: Found<'a>,
) -> Result<(), OutOfMemory>
    requires { length (seen_key found).name ≤ most_units }
    ensures { OnOk result (map held_entry held.new.entries ≡ held_after (map held_entry held.old.entries) (seen found.entry)) }
{
    let key = key_of(alloc, &found)?;
    let counted = counting(held.get(&key).copied(), found);
    held.insert(key, counted)?;
    Ok(())
}

/// The record that counts for each key of a region: its first ADDED one, else its last in transition to deleted.
#[tactic(auto, using(var_types::proofs::Bounds::short_names))]
pub fn variables_of<'a>(
    alloc: Global,
    region: &Region<'a>,
) -> Result<BTreeMap<Key, Found<'a>>, OutOfMemory>
    ensures map { IfOk result (λ held. map entry_of held.entries ≡ region_map region.now) }
    ensures room { IfOk result (λ held. records_room (map entry_of held.entries) ≤ 131078) }
{
    let mut held = BTreeMap::new(alloc);
    for found in region.lives() {
        hold(alloc, &mut held, found)?;
    }
    Ok(held)
}
