//! How many variables a region has, and how many bytes these have.
ghost use Rattle.std.specs.Prelude.{◌≡◌, ◌<◌, ◌≤◌, ◌^◌, IfOk, map};
ghost use Rattle.var_types.specs.Region.{region_map};
ghost use Rattle.report_text.specs.Held.{entry_of};
ghost use Rattle.report_text.specs.Sizes.{data_bytes, sizes_of};

use crate::variables::variables_of;
use std::alloc::Global;
use std::collections::BTreeMap;
use var_region::{Found, Region};
use var_types::{Key, OutOfMemory};

/// How many variables there are, and how many bytes they have, their names not counted.
#[derive(Clone, Copy, Debug, PartialEq, Eq)]
pub struct Sizes {
    pub variables: u64,
    pub bytes: u64,
}

// The bytes of the variables that are held.
fn held_bytes(held: &BTreeMap<Key, Found>) -> u64
    requires { data_bytes (map entry_of held.now.entries) < 2 ^ 32 }
    ensures { result ≡ data_bytes (map entry_of held.now.entries) }
{
    let mut bytes = 0;
    for (_, found) in held {
        bytes += found.payload.len() as u64;
    }
    bytes
}

/// The sizes of a region's variables; `Err` where these take more memory than there is.
pub fn variable_sizes(alloc: Global, region: &Region) -> Result<Sizes, OutOfMemory>
    ensures sizes { IfOk result (λ sizes. sizes ≡ sizes_of (region_map region.now)) }
    ensures small { IfOk result (λ sizes. (sizes.variables ≤ 131078) × (sizes.bytes ≤ 131078)) }
{
    let held = variables_of(alloc, region)?;
    Ok(Sizes {
        variables: held.len() as u64,
        bytes: held_bytes(&held),
    })
}
