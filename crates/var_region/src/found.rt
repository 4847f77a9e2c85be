//! What a record holds: which variable of which key, lent from the region's bytes.
ghost use Rattle.std.specs.Prelude.{◌≡◌, ◌+◌, ◌≤◌, true, length};
ghost use Rattle.std.specs.Option.{option_map};
ghost use Rattle.var_types.specs.Live.{data_bytes, live_in_state, live_named, live_of, name_bytes};
ghost use Rattle.var_types.specs.Record.{Authenticated, whole_size};
ghost use Rattle.var_types.specs.RecordState.{record_state};
ghost use Rattle.var_region.specs.Found.{seen};
ghost use Rattle.var_region.specs.Names.{lent_units};

use crate::name_bytes::name_of;
use var_header::HEADER_BYTES;
use var_types::attributes::{NON_VOLATILE, has};
use var_types::{Guid, Record, RecordState, Stamp};

/// A record that is a variable's: its offset, its state, and what it holds, lent from the region's bytes; the name is without its NUL.
#[derive(Clone, Copy, Debug)]
pub struct Found<'a> {
    pub at: u32,
    pub state: RecordState,
    pub guid: Guid,
    pub attributes: u32,
    pub stamp: Stamp,
    pub name: &'a [u8],
    pub payload: &'a [u8],
}

fn name_bytes<'a>(bytes: &'a [u8], held: &Record) -> &'a [u8]
    requires { held.now.at + whole_size Authenticated held.now.header ≤ length bytes.now }
    ensures is { result.now ≡ name_bytes Authenticated bytes.now held.now }
    ensures size { length result.now ≡ held.now.header.name_size }
{
    let from = held.at as usize + HEADER_BYTES;
    &bytes[from..][..held.header.name_size as usize]
}

fn data_bytes<'a>(bytes: &'a [u8], held: &Record) -> &'a [u8]
    requires { held.now.at + whole_size Authenticated held.now.header ≤ length bytes.now }
    ensures { result.now ≡ data_bytes Authenticated bytes.now held.now }
{
    let from = held.at as usize + HEADER_BYTES + held.header.name_size as usize;
    &bytes[from..][..held.header.data_size as usize]
}

fn found_named<'a>(
    bytes: &'a [u8],
    held: &Record,
    state: RecordState,
    name: Option<&'a [u8]>,
) -> Option<Found<'a>>
    requires { held.now.at + whole_size Authenticated held.now.header ≤ length bytes.now }
    ensures { option_map seen result ≡ live_named Authenticated bytes.now held.now state (option_map lent_units name.entry) }
{
    let name = name?;
    Some(Found {
        at: held.at,
        state,
        guid: Guid {
            bytes: held.header.vendor_guid,
        },
        attributes: held.header.attributes,
        stamp: Stamp {
            bytes: held.header.time_stamp,
        },
        name,
        payload: data_bytes(bytes, held),
    })
}

fn found_in_state<'a>(bytes: &'a [u8], held: &Record) -> Option<Found<'a>>
    requires { held.now.at + whole_size Authenticated held.now.header ≤ length bytes.now }
    ensures { option_map seen result
        ≡ live_in_state Authenticated bytes.now held.now (record_state held.now.header.state) }
{
    let state = RecordState::of(held.header.state)?;
    let name = name_of(name_bytes(bytes, held));
    found_named(bytes, held, state, name)
}

/// What a record holds, if it is a variable's, in a store that is the non-volatile one or not.
#[tactic(auto, unfolding(var_types::specs::Live::live_of))]
pub(crate) fn found_of<'a>(non_volatile: bool, bytes: &'a [u8], held: &Record) -> Option<Found<'a>>
    requires { held.now.whole ≡ true → held.now.at + whole_size Authenticated held.now.header ≤ length bytes.now }
    ensures { option_map seen result ≡ live_of Authenticated non_volatile bytes.now held.now }
{
    if !held.whole {
        return None;
    }
    if non_volatile && !has(held.header.attributes, NON_VOLATILE) {
        return None;
    }
    found_in_state(bytes, held)
}
