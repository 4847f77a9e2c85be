ghost use Rattle.std.specs.Prelude.{◌≡◌, map, flat_map, OnOk, OnErr};
ghost use Rattle.var_region.specs.Found.{seen_variable};
ghost use Rattle.var_types.specs.Region.{region_map};
ghost use Rattle.report_text.specs.Held.{entry_of};
ghost use Rattle.report_text.specs.Listing.{listing_text, variable_line};

use crate::part::{Part, write_line};
use crate::variables::variables_of;
use crate::word::Word;
use std::alloc::Global;
use std::collections::BTreeMap;
use var_region::{Found, Region};
use var_types::{Key, OutOfMemory, Put};

#[tactic(auto, unfolding(crate::specs::Listing::variable_line))]
fn write_variable<'a, P: Put>(key: &'a Key, found: &'a Found<'a>, out: &mut P)
    ensures { P.Puts out.old out.new (variable_line (key.now, seen_variable found.now)) }
{
    let guid = Part::Guid(&key.guid);
    let name = Part::Name(key.name.as_slice());
    let attributes = Part::Attributes(found.attributes);
    let stamp = Part::Stamp(&found.stamp);
    let data = Part::Bytes(found.payload);
    write_line(&[guid, name, attributes, stamp, data], out);
}

fn write_entries<P: Put>(held: &BTreeMap<Key, Found>, out: &mut P)
    ensures { P.Puts out.old out.new (flat_map variable_line (map entry_of held.now.entries)) }
{
    for (key, found) in held {
        write_variable(key, found, out);
    }
}

/// Puts the listing of variables that were found in a region; takes no memory.
#[tactic(auto, unfolding(crate::specs::Listing::listing_text))]
pub fn write_found<P: Put>(held: &BTreeMap<Key, Found>, out: &mut P)
    ensures { P.Puts out.old out.new (listing_text (map entry_of held.now.entries)) }
{
    let count = held.len() as u64;
    write_line(&[Part::Word(Word::Variables), Part::Number(count)], out);
    write_entries(held, out);
    write_line(&[Part::Word(Word::End)], out);
}

/// Puts the listing of a region's variables in key order, found in one pass over the region; `Err` where they take more memory than there is.
pub fn write_listing<P: Put>(alloc: Global, region: &Region, out: &mut P) -> Result<(), OutOfMemory>
    ensures ok { OnOk result (P.Puts out.old out.new (listing_text (region_map region.now))) }
    ensures err { OnErr result (out.new ≡ out.old) }
{
    let variables = variables_of(alloc, region)?;
    write_found(&variables, out);
    Ok(())
}
