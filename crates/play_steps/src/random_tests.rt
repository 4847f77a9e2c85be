//! Eight processors take steps in random orders, and one alone is compared with the one-thread service.
ghost use Rattle.std.specs.Prelude.{◌<◌};

use crate::EngineWriter;
use crate::kept_check::is_kept;
use crate::legal_session::{are_answered, is_legal};
use crate::same_reply::same_reply;
use crate::test_worlds::{LIMIT, begin, blank, get, next, set_with};
use flash_dev::Torn;
use std::alloc::Global;
use std::process::Abort;
use std::test::Fail;
use svc_core::{Event, Stepped, World};
use svc_plain::Plain;
use var_types::{Answered, Bytes, Call, PolicyCall, Route};

/// Each is the beginning of the random numbers of one world.
const SEEDS: [u64; 9] = [1, 2, 3, 5, 8, 13, 21, 34, 55];

const EVENTS: u32 = 2_000;

/// The names of the non-volatile variables, and those of the others.
const KEPT: [u16; 4] = [65, 66, 67, 68];

const LOST: [u16; 4] = [97, 98, 99, 100];

/// A policy of the vendor's variable `A`, by EDK II's VARIABLE_POLICY_ENTRY: at most 4 bytes, and no lock.
const ENTRY: [u8; 48] = [
    0, 0, 1, 0, 48, 0, 44, 0, 7, 7, 7, 7, 7, 7, 7, 7, 7, 7, 7, 7, 7, 7, 7, 7, 0, 0, 0, 0, 4, 0, 0,
    0, 0, 0, 0, 0, 0, 0, 0, 0, 0, 0, 0, 0, 65, 0, 0, 0,
];

/// A number below a bound, of a linear congruential generator with the numbers of Knuth's MMIX.
fn draw(state: &mut u64, bound: u64) -> u64
    requires { 0 < bound }
    ensures { result < bound }
{
    *state = state
        .wrapping_mul(6_364_136_223_846_793_005)
        .wrapping_add(1_442_695_040_888_963_407);
    (*state >> 33) % bound
}

fn name_in(names: [u16; 4], state: &mut u64) -> u16 {
    match draw(state, 4) {
        0 => names[0],
        1 => names[1],
        2 => names[2],
        _ => names[3],
    }
}

fn random_set(
    alloc: Global,
    names: [u16; 4],
    attributes: u32,
    state: &mut u64,
) -> Result<Call, Fail> {
    let name = name_in(names, state);
    let byte = draw(state, 3) as u8;
    match draw(state, 6) {
        0 => set_with(alloc, name, attributes, &[]),
        1 => set_with(alloc, name, attributes, &[byte; 5]),
        _ => set_with(alloc, name, attributes, &[byte]),
    }
}

fn random_policy(alloc: Global, state: &mut u64) -> Result<Call, Fail> {
    Ok(Call::Policy(match draw(state, 8) {
        0 | 1 => PolicyCall::Register(Bytes::copy(alloc, &ENTRY)?),
        2 => PolicyCall::Register(Bytes::copy(alloc, &ENTRY[..47])?),
        3 | 4 => PolicyCall::Enabled,
        5 | 6 => PolicyCall::At(0),
        _ => PolicyCall::Lock,
    }))
}

fn random_call(alloc: Global, state: &mut u64) -> Result<Call, Fail> {
    match draw(state, 40) {
        0..=13 => random_set(alloc, KEPT, 7, state),
        14..=20 => random_set(alloc, LOST, 6, state),
        21..=28 => get(alloc, name_in(KEPT, state)),
        29..=32 => get(alloc, name_in(LOST, state)),
        33..=35 => next(alloc),
        36..=38 => random_policy(alloc, state),
        _ => Ok(Call::ExitBoot),
    }
}

fn random_calls(alloc: Global, count: u32, state: &mut u64) -> Result<Vec<Call>, Fail> {
    let mut calls = Vec::new(alloc);
    for _ in 0..count {
        calls.push(random_call(alloc, state)?)?;
    }
    Ok(calls)
}

fn random_events(alloc: Global, state: &mut u64) -> Result<Vec<Event>, Fail> {
    let mut events = Vec::new(alloc);
    for _ in 0..EVENTS {
        let processor = draw(state, 8) as u8;
        events.push(Event::Step { processor })?;
    }
    Ok(events)
}

fn eight_lists(alloc: Global, state: &mut u64) -> Result<Vec<Vec<Call>>, Fail> {
    let mut calls = Vec::new(alloc);
    for _ in 0..8 {
        calls.push(random_calls(alloc, 40, state)?)?;
    }
    Ok(calls)
}

fn random_torn(state: &mut u64) -> Torn {
    match draw(state, 3) {
        0 => Torn::Before,
        1 => Torn::Half,
        _ => Torn::After,
    }
}

/// The session behind random events is legal.
fn judge(rt: &impl Abort, alloc: Global, world: &mut World<EngineWriter>, events: &[Event]) {
    assert!(rt; world.run(events).is_ok());
    assert!(rt; is_legal(alloc, world.session()));
    assert!(rt; world.session().made() >= 5);
}

/// What a loss of power leaves is kept.
fn lose_power(
    rt: &impl Abort,
    alloc: Global,
    world: &mut World<EngineWriter>,
    torn: Torn,
) -> Result<(), Fail> {
    assert!(rt; world.step(&Event::Power { torn }) == Stepped::Moved);
    assert!(rt; is_kept(rt, alloc, world, &KEPT)?);
    Ok(())
}

fn check(rt: &impl Abort, alloc: Global, image: &[u8], seed: u64) -> Result<(), Fail> {
    let mut state = seed;
    let mut world = begin(rt, alloc, image, eight_lists(alloc, &mut state)?)?;
    judge(rt, alloc, &mut world, &random_events(alloc, &mut state)?);
    lose_power(rt, alloc, &mut world, random_torn(&mut state))
}

#[test]
fn eight_processors_in_random_orders_are_legal(rt: HostRuntime) -> Result<(), Fail> {
    let alloc = rt.alloc();
    let image = blank(&rt, alloc)?;
    for seed in SEEDS {
        check(&rt, alloc, &image, seed)?;
    }
    Ok(())
}

/// Alone, a processor reads from the cache, and the cache takes each change at once.
fn is_plain_route(answered: &Answered) -> bool {
    let reads = matches!(answered.call, Call::Get(_) | Call::Next(_));
    match answered.route {
        Route::Cache => reads,
        Route::Flushed => answered.reply.is_change(),
        Route::Plain => !reads && !answered.reply.is_change(),
        _ => false,
    }
}

/// The answers are those of the one-thread service, one call after the other.
fn is_plain(alloc: Global, answers: &[Answered]) -> bool {
    let mut plain = Plain::new(alloc, LIMIT);
    for answered in answers {
        let place = plain.made();
        let reply = plain.step(&answered.call);
        if answered.place != place
            || !same_reply(&answered.reply, &reply)
            || !is_plain_route(answered)
        {
            return false;
        }
    }
    true
}

fn compare(rt: &impl Abort, alloc: Global, image: &[u8], seed: u64) -> Result<(), Fail> {
    let mut state = seed;
    let mut calls = Vec::new(alloc);
    calls.push(random_calls(alloc, 60, &mut state)?)?;
    let mut world: World<EngineWriter> = begin(rt, alloc, image, calls)?;
    for _ in 0..EVENTS {
        let _ = world.step(&Event::Step { processor: 0 });
    }
    assert!(rt; are_answered(world.session(), 60));
    match world.session().processors.first() {
        Some(answers) => assert!(rt; is_plain(alloc, answers.as_slice())),
        None => panic!(rt; "there is no processor"),
    }
    Ok(())
}

#[test]
fn one_processor_is_the_one_thread_service(rt: HostRuntime) -> Result<(), Fail> {
    let alloc = rt.alloc();
    let image = blank(&rt, alloc)?;
    for seed in SEEDS {
        compare(&rt, alloc, &image, seed)?;
    }
    Ok(())
}
