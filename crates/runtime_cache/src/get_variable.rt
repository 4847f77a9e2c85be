//! GetVariable over two regions.
ghost use Rattle.std.specs.Prelude.{◌≡◌, ◌≤◌, length, min, IfSome, Some};
ghost use Rattle.std.specs.Option.{option_map};
ghost use Rattle.var_types.specs.Answers.{at_front, get_answer};
ghost use Rattle.var_types.specs.Get.{get_found, get_reply};
ghost use Rattle.var_types.specs.Layout.{longest_region};
ghost use Rattle.var_types.specs.Stores.{state_seen};
ghost use Rattle.var_region.specs.Found.{seen_variable};

use crate::search::visible;
use var_region::{Found, Region};
use var_types::{GetAnswer, Guid, check_name};

/// Puts bytes at the front of a buffer.
fn put_front(bytes: &[u8], into: &mut [u8])
    requires { length bytes.now ≤ length into.old }
    ensures { into.new ≡ at_front bytes.now into.old }
{
    into[..bytes.len()].copy_from_slice(bytes);
}

/// The answer from what callers see: there is nothing, it doesn't fit, or here it is.
#[tactic(auto, unfolding(var_types::specs::Answers::get_answer))]
fn answer(found: Option<Found>, room: u32, into: &mut [u8]) -> GetAnswer
    requires room { min room longest_region ≤ length into.old }
    requires payload { IfSome found (λ f. length f.payload.now ≤ longest_region) }
    ensures { Some (result, into.new) ≡ get_answer (get_found (option_map seen_variable found.entry) room) into.old }
{
    let Some(found) = found else {
        return GetAnswer::NotFound;
    };
    let length = found.payload.len() as u32;
    if room < length {
        return GetAnswer::TooSmall {
            attributes: found.attributes,
            needed: length,
        };
    }
    put_front(found.payload, into);
    GetAnswer::Ok {
        attributes: found.attributes,
        length,
    }
}

/// Answers GetVariable from two regions in a phase, in one pass over each at most; the buffer takes the data, and stays where there are none.
#[tactic(auto, unfolding(var_types::specs::Get::get_reply, var_types::specs::Answers::get_answer))]
pub fn get(
    non_volatile: &Region,
    volatile: &Region,
    runtime: bool,
    guid: &Guid,
    name: &[u16],
    room: u32,
    into: &mut [u8],
) -> GetAnswer
    requires { min room longest_region ≤ length into.old }
    ensures { Some (result, into.new)
        ≡ get_answer (get_reply (state_seen non_volatile.now volatile.now runtime) (record { guid = guid.now; name = name.now; room = room })) into.old }
{
    match check_name(name) {
        Err(_) => GetAnswer::NotFound,
        Ok(()) => answer(
            visible(non_volatile, volatile, runtime, guid, name),
            room,
            into,
        ),
    }
}
