//! GetNextVariableName over two regions.
ghost use Rattle.std.specs.Prelude.{◌≡◌, ◌/◌, ◌≤◌, ◌<◌, length, min, IfSome, Some, Ok};
ghost use Rattle.std.specs.Option.{option_map};
ghost use Rattle.var_types.specs.Answers.{at_front, next_answer};
ghost use Rattle.var_types.specs.Key.{key_of};
ghost use Rattle.var_types.specs.Layout.{longest_name};
ghost use Rattle.var_types.specs.Live.{units_in};
ghost use Rattle.var_types.specs.Next.{next_behind, next_found, next_reply};
ghost use Rattle.var_types.specs.Region.{region_map};
ghost use Rattle.var_types.specs.State.{visible_at};
ghost use Rattle.var_types.specs.Stores.{state_seen};
ghost use Rattle.var_types.specs.TwoRegions.{AreApart};
ghost use Rattle.var_region.specs.Found.{seen_key};

use crate::search::{above, visible};
use var_region::{Found, Region};
use var_types::{Guid, NameFault, NextAnswer, check_name};

/// Puts the units that bytes are at the front of a buffer.
#[tactic(auto, using(var_region::proofs::LentNames::length_units))]
fn put_units(bytes: &[u8], into: &mut [u16])
    requires { length (units_in bytes.now) ≤ length into.old }
    ensures { into.new ≡ at_front (units_in bytes.now) into.old }
{
    let (pairs, _) = bytes.as_chunks::<2>();
    for (i, pair) in pairs.iter().enumerate() {
        into[i] = u16::from_le_bytes(*pair);
    }
}

/// The answer from the next variable: there is none, its name doesn't fit, or here it is.
#[tactic(auto, using(var_region::proofs::LentNames::length_units), unfolding(var_types::specs::Answers::next_answer))]
fn answer(found: Option<Found>, room: u32, into: &mut [u16]) -> NextAnswer
    requires room { min (room / 2) 513 ≤ length into.old }
    requires name { IfSome found (λ f. length (units_in f.name.now) ≤ longest_name) }
    ensures { Some (result, into.new) ≡ next_answer (next_found (option_map seen_key found.entry) room) into.old }
{
    let Some(found) = found else {
        return NextAnswer::End;
    };
    let units = (found.name.len() / 2) as u32;
    let needed = 2 * units + 2;
    if room < needed {
        return NextAnswer::TooSmall { needed };
    }
    put_units(found.name, into);
    NextAnswer::Ok {
        guid: found.guid,
        units,
    }
}

/// Answers GetNextVariableName from two regions that have no key in common, in a phase; the buffer takes the units of the next name, without a
/// NUL, and stays where there is none.
#[tactic(auto, unfolding(var_types::specs::Next::next_reply, var_types::specs::Next::next_named, var_types::specs::Answers::next_answer))]
pub fn next(
    non_volatile: &Region,
    volatile: &Region,
    runtime: bool,
    guid: &Guid,
    name: &[u16],
    room: u32,
    into: &mut [u16],
) -> NextAnswer
    requires { min (room / 2) 513 ≤ length into.old }
    ensures { AreApart (region_map non_volatile.now) (region_map volatile.now)
        → Some (result, into.new)
        ≡ next_answer (next_reply (state_seen non_volatile.now volatile.now runtime) (record { guid = guid.now; name = name.now; room = room })) into.old }
{
    match check_name(name) {
        Err(NameFault::Empty) => answer(
            above(non_volatile, volatile, runtime, guid, name),
            room,
            into,
        ),
        Err(NameFault::TooLong { .. } | NameFault::InnerNul { .. }) => NextAnswer::NoSuch,
        Ok(()) => next_behind(non_volatile, volatile, runtime, guid, name, room, into),
    }
}

/// The answer behind a key, which callers must see.
fn next_behind(
    non_volatile: &Region,
    volatile: &Region,
    runtime: bool,
    guid: &Guid,
    name: &[u16],
    room: u32,
    into: &mut [u16],
) -> NextAnswer
    requires room { min (room / 2) 513 ≤ length into.old }
    requires name { 0 < length name.now }
    ensures { AreApart (region_map non_volatile.now) (region_map volatile.now)
        → Some (result, into.new)
        ≡ next_answer (next_behind (state_seen non_volatile.now volatile.now runtime) (record { guid = guid.now; name = name.now; room = room })
        (visible_at (state_seen non_volatile.now volatile.now runtime) (key_of guid.now name.now))) into.old }
{
    match visible(non_volatile, volatile, runtime, guid, name) {
        None => NextAnswer::NoSuch,
        Some(_) => answer(
            above(non_volatile, volatile, runtime, guid, name),
            room,
            into,
        ),
    }
}
