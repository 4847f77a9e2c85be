//! The set of a message's body.
ghost use Rattle.std.specs.Prelude.{◌≡◌, ◌≤◌, ◌+◌, ◌*◌, true, length, drop, take, IfOk, OnErr, IsSome, slice_index};
ghost use Rattle.mm_message.specs.Messages.{is_set, set_call, set_in, set_units, verdict_of};
ghost use Rattle.var_types.specs.Layout.{most_units};
ghost use Rattle.var_types.specs.Live.{units_in};

use crate::bodies::{front_guid, read_name};
use byteorder::{ByteOrder, LittleEndian};
use std::alloc::{AllocError, Global};
use var_types::{Bytes, Call, MOST_UNITS, OutOfMemory, SetCall, Units, Verdict};

/// How many bytes stand before the name.
const SET_BYTES: usize = 23;

/// How many units the name has.
fn set_units(body: &[u8]) -> usize
    requires { 23 ≤ length body.now }
    ensures { result ≡ set_units body.now }
{
    usize::from(LittleEndian::read_u16(&body[21..]))
}

fn is_set(body: &[u8]) -> bool
    ensures form { result ≡ is_set body.now }
    ensures front { result ≡ true → 23 ≤ length body.now }
    ensures few { result ≡ true → set_units body.now ≤ most_units }
    ensures whole { result ≡ true → 23 + 2 * set_units body.now ≤ length body.now }
{
    SET_BYTES <= body.len()
        && body[20] <= 1
        && set_units(body) <= MOST_UNITS
        && SET_BYTES + 2 * set_units(body) <= body.len()
}

fn verdict_of(byte: u8) -> Verdict
    ensures { result ≡ verdict_of byte }
{
    if byte == 0 {
        Verdict::Good
    } else {
        Verdict::Bad
    }
}

/// The name of a set, at whose end the data begin.
fn set_name(alloc: Global, body: &[u8], end: usize) -> Result<Units, AllocError>
    requires end { end ≡ 23 + 2 * set_units body.now }
    requires few { set_units body.now ≤ most_units }
    requires whole { end ≤ length body.now }
    ensures { IfOk result (λ name. name ≡ units_in (take (2 * set_units body.now) (drop 23 body.now))) }
{
    read_name(alloc, &body[SET_BYTES..end])
}

#[tactic(auto, unfolding(crate::specs::Messages::set_call))]
fn set_call(alloc: Global, body: &[u8]) -> Result<SetCall, OutOfMemory>
    requires front { 23 ≤ length body.now }
    requires few { set_units body.now ≤ most_units }
    requires whole { 23 + 2 * set_units body.now ≤ length body.now }
    ensures { IfOk result (λ call. call ≡ set_call body.now) }
{
    let end = SET_BYTES + 2 * set_units(body);
    Ok(SetCall {
        guid: front_guid(body),
        name: set_name(alloc, body, end)?,
        attributes: LittleEndian::read_u32(&body[16..]),
        bytes: Bytes::copy(alloc, &body[end..])?,
        verdict: verdict_of(body[20]),
    })
}

#[tactic(auto, unfolding(crate::specs::Messages::set_in))]
pub(crate) fn read_set(alloc: Global, body: &[u8]) -> Result<Option<Call>, OutOfMemory>
    ensures ok { IfOk result (λ call. call ≡ set_in body.now) }
    ensures err { OnErr result (IsSome (set_in body.now)) }
{
    if !is_set(body) {
        return Ok(None);
    }
    Ok(Some(Call::Set(set_call(alloc, body)?)))
}
