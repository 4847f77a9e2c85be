ghost use Rattle.std.specs.Prelude.{◌≡◌, ◌<◌, IfOk};
ghost use Rattle.image_make.specs.Generated.{bytes_at, generated_call, generated_calls, get_at, name_at, next_from_front, set_at};

use crate::parts::{
    GET_ROOM, MOST_BYTES, NEXT_ROOM, SCRIPT_CALLS, SET_ATTRIBUTES, byte_at, count_at,
    global_variable, name_at,
};
use std::alloc::Global;
use var_types::{Bytes, Call, GetCall, NextCall, OutOfMemory, SetCall, Units, Verdict};

// The bytes of a set at an index.
fn data_at(alloc: Global, number: u32, index: u32) -> Result<Bytes, OutOfMemory>
    ensures { IfOk result (λ bytes. bytes ≡ bytes_at number index) }
{
    let bytes = [byte_at(number, index); MOST_BYTES];
    Bytes::copy(alloc, &bytes[..count_at(index)])
}

// The name of a set at an index.
fn name_units(alloc: Global, number: u32, index: u32) -> Result<Units, OutOfMemory>
    ensures { IfOk result (λ units. units ≡ name_at number index) }
{
    let units = name_at(number, index);
    Ok(Units::from_vec(units.to_vec(alloc)?))
}

fn set_at(alloc: Global, number: u32, index: u32) -> Result<Call, OutOfMemory>
    ensures { IfOk result (λ call. call ≡ set_at number index) }
{
    let name = name_units(alloc, number, index)?;
    let bytes = data_at(alloc, number, index)?;
    Ok(Call::Set(SetCall {
        guid: global_variable(),
        name,
        attributes: SET_ATTRIBUTES,
        bytes,
        verdict: Verdict::Good,
    }))
}

fn get_at(alloc: Global, number: u32, index: u32) -> Result<Call, OutOfMemory>
    requires { 0 < index }
    ensures { IfOk result (λ call. call ≡ get_at number index) }
{
    let name = name_units(alloc, number, index - 1)?;
    Ok(Call::Get(GetCall {
        guid: global_variable(),
        name,
        room: GET_ROOM,
    }))
}

fn next_from_front(alloc: Global) -> Call
    ensures { result ≡ next_from_front }
{
    Call::Next(NextCall {
        guid: global_variable(),
        name: Units::from_vec(Vec::new(alloc)),
        room: NEXT_ROOM,
    })
}

/// The call at an index of the script of a number; want of memory is its only error.
#[tactic(auto, unfolding(crate::specs::Generated::generated_call))]
pub fn generated_call(alloc: Global, number: u32, index: u32) -> Result<Call, OutOfMemory>
    ensures { IfOk result (λ call. call ≡ generated_call number index) }
{
    match index % 4 {
        0 | 1 => set_at(alloc, number, index),
        2 => get_at(alloc, number, index),
        _ => Ok(next_from_front(alloc)),
    }
}

/// The calls of the script of a number; want of memory is its only error.
pub fn generated_calls(alloc: Global, number: u32) -> Result<Vec<Call>, OutOfMemory>
    ensures { IfOk result (λ calls. calls.items ≡ generated_calls number) }
{
    let mut calls = Vec::with_capacity(alloc, SCRIPT_CALLS as usize)?;
    for index in 0..SCRIPT_CALLS {
        calls.push(generated_call(alloc, number, index)?)?;
    }
    Ok(calls)
}
