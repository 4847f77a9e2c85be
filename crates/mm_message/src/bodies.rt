//! The calls of messages' bodies, by kind.
ghost use Rattle.std.specs.Prelude.{◌≡◌, ◌≤◌, true, length, drop, IfOk, OnErr, IsSome};
ghost use Rattle.mm_message.specs.Messages.{alone, call_in, get_call, get_in, is_find, is_name, next_call, next_in, other_in, place_in};
ghost use Rattle.var_types.specs.Layout.{most_units};
ghost use Rattle.var_types.specs.Live.{units_in};
ghost use Rattle.var_types.specs.PolicyEntry.{guid_at};

use crate::set_body::read_set;
use byteorder::{ByteOrder, LittleEndian};
use std::alloc::{AllocError, Global};
use var_types::{Bytes, Call, GetCall, Guid, MOST_UNITS, NextCall, OutOfMemory, PolicyCall, Units};

/// How many bytes the GUID and the room of a get or a next have.
const FIND_BYTES: usize = 20;

/// The GUID at the front of a body.
pub(crate) fn front_guid(body: &[u8]) -> Guid
    requires { 16 ≤ length body.now }
    ensures { result ≡ guid_at body.now 0 }
{
    let mut bytes = [0; 16];
    bytes.copy_from_slice(&body[..16]);
    Guid { bytes }
}

/// The units of a name's bytes.
#[tactic(auto, using(crate::proofs::Names::name_units))]
pub(crate) fn read_name(alloc: Global, bytes: &[u8]) -> Result<Units, AllocError>
    requires { length bytes.now ≤ 2048 }
    ensures { IfOk result (λ name. name ≡ units_in bytes.now) }
{
    Units::from_le_bytes(alloc, bytes)
}

fn is_name(bytes: &[u8]) -> bool
    ensures { result ≡ is_name bytes.now }
{
    bytes.len() % 2 == 0 && bytes.len() <= 2 * MOST_UNITS
}

fn is_find(body: &[u8]) -> bool
    ensures form { result ≡ is_find body.now }
    ensures whole { result ≡ true → 20 ≤ length body.now }
    ensures few { result ≡ true → length (drop 20 body.now) ≤ 2048 }
{
    FIND_BYTES <= body.len() && is_name(&body[FIND_BYTES..])
}

/// The name of a body that is a get's or a next's.
fn find_name(alloc: Global, body: &[u8]) -> Result<Units, AllocError>
    requires whole { 20 ≤ length body.now }
    requires few { length (drop 20 body.now) ≤ 2048 }
    ensures { IfOk result (λ name. name ≡ units_in (drop 20 body.now)) }
{
    read_name(alloc, &body[FIND_BYTES..])
}

#[tactic(auto, unfolding(crate::specs::Messages::get_call))]
fn get_call(alloc: Global, body: &[u8]) -> Result<GetCall, AllocError>
    requires whole { 20 ≤ length body.now }
    requires few { length (drop 20 body.now) ≤ 2048 }
    ensures { IfOk result (λ call. call ≡ get_call body.now) }
{
    Ok(GetCall {
        guid: front_guid(body),
        name: find_name(alloc, body)?,
        room: LittleEndian::read_u32(&body[16..]),
    })
}

#[tactic(auto, unfolding(crate::specs::Messages::next_call))]
fn next_call(alloc: Global, body: &[u8]) -> Result<NextCall, AllocError>
    requires whole { 20 ≤ length body.now }
    requires few { length (drop 20 body.now) ≤ 2048 }
    ensures { IfOk result (λ call. call ≡ next_call body.now) }
{
    Ok(NextCall {
        guid: front_guid(body),
        name: find_name(alloc, body)?,
        room: LittleEndian::read_u32(&body[16..]),
    })
}

#[tactic(auto, unfolding(crate::specs::Messages::get_in))]
fn read_get(alloc: Global, body: &[u8]) -> Result<Option<Call>, OutOfMemory>
    ensures ok { IfOk result (λ call. call ≡ get_in body.now) }
    ensures err { OnErr result (IsSome (get_in body.now)) }
{
    if !is_find(body) {
        return Ok(None);
    }
    Ok(Some(Call::Get(get_call(alloc, body)?)))
}

#[tactic(auto, unfolding(crate::specs::Messages::next_in))]
fn read_next(alloc: Global, body: &[u8]) -> Result<Option<Call>, OutOfMemory>
    ensures ok { IfOk result (λ call. call ≡ next_in body.now) }
    ensures err { OnErr result (IsSome (next_in body.now)) }
{
    if !is_find(body) {
        return Ok(None);
    }
    Ok(Some(Call::Next(next_call(alloc, body)?)))
}

#[tactic(auto, unfolding(crate::specs::Messages::place_in))]
fn read_place(body: &[u8]) -> Option<Call>
    ensures { result ≡ place_in body.now }
{
    if body.len() == 4 {
        return Some(Call::Policy(PolicyCall::At(LittleEndian::read_u32(body))));
    }
    None
}

fn read_alone(call: Call, body: &[u8]) -> Option<Call>
    ensures { result ≡ alone call body.now }
{
    if body.is_empty() { Some(call) } else { None }
}

#[tactic(auto, unfolding(crate::specs::Messages::other_in))]
fn read_other(alloc: Global, kind: u8, body: &[u8]) -> Result<Option<Call>, OutOfMemory>
    ensures ok { IfOk result (λ call. call ≡ other_in kind body.now) }
    ensures err { OnErr result (IsSome (other_in kind body.now)) }
{
    match kind {
        3 => Ok(Some(Call::Policy(PolicyCall::Register(Bytes::copy(alloc, body)?)))),
        4 => Ok(read_alone(Call::Policy(PolicyCall::Lock), body)),
        5 => Ok(read_alone(Call::Policy(PolicyCall::Disable), body)),
        6 => Ok(read_alone(Call::Policy(PolicyCall::Enabled), body)),
        7 => Ok(read_place(body)),
        _ => Ok(read_alone(Call::ExitBoot, body)),
    }
}

/// The call of a body; none where it isn't of the kind's form. Only what is of its form takes memory.
#[tactic(auto, unfolding(crate::specs::Messages::call_in))]
pub(crate) fn read_call(alloc: Global, kind: u8, body: &[u8]) -> Result<Option<Call>, OutOfMemory>
    ensures ok { IfOk result (λ call. call ≡ call_in kind body.now) }
    ensures err { OnErr result (IsSome (call_in kind body.now)) }
{
    match kind {
        0 => read_get(alloc, body),
        1 => read_next(alloc, body),
        2 => read_set(alloc, body),
        _ => read_other(alloc, kind, body),
    }
}
