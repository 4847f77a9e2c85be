//! Worlds over a blank image, for tests.
use crate::{EngineWriter, begin_world};
use flash_dev::{FaultPlan, MemFlash, Torn, format_image};
use std::alloc::{AllocError, Global};
use std::process::Abort;
use std::test::Fail;
use svc_core::{Event, Stepped, World};
use var_trace::Session;
use var_types::{
    Answered, Bytes, Call, GetCall, GetReply, Guid, NextCall, Reply, Route, SetCall, SetReply,
    Units, Verdict,
};

pub(crate) const VENDOR: Guid = Guid { bytes: [7; 16] };

/// The name `X`.
pub(crate) const X: u16 = 88;

/// How many changes a history may have.
pub(crate) const LIMIT: u64 = 100;

pub(crate) const TEARS: [Torn; 3] = [Torn::Before, Torn::Half, Torn::After];

/// The bytes of a blank image.
pub(crate) fn blank(rt: &impl Abort, alloc: Global) -> Result<Vec<u8>, AllocError> {
    let plan = FaultPlan {
        fails: Vec::new(alloc),
        stop_at: None,
        torn: Torn::Before,
    };
    let mut flash = MemFlash::new(vec![in alloc; 0u8; 131_072]?, plan);
    assert!(rt; format_image(&mut flash).is_ok());
    Ok(flash.release())
}

pub(crate) fn set_with(
    alloc: Global,
    unit: u16,
    attributes: u32,
    bytes: &[u8],
) -> Result<Call, Fail> {
    Ok(Call::Set(SetCall {
        guid: VENDOR,
        name: Units::new(alloc, &[unit])?,
        attributes,
        bytes: Bytes::copy(alloc, bytes)?,
        verdict: Verdict::Good,
    }))
}

/// Sets a non-volatile variable to a byte.
pub(crate) fn set(alloc: Global, unit: u16, byte: u8) -> Result<Call, Fail> {
    set_with(alloc, unit, 7, &[byte])
}

pub(crate) fn get(alloc: Global, unit: u16) -> Result<Call, Fail> {
    Ok(Call::Get(GetCall {
        guid: VENDOR,
        name: Units::new(alloc, &[unit])?,
        room: 9,
    }))
}

/// The next variable behind no name.
pub(crate) fn next(alloc: Global) -> Result<Call, Fail> {
    Ok(Call::Next(NextCall {
        guid: VENDOR,
        name: Units::new(alloc, &[])?,
        room: 64,
    }))
}

pub(crate) fn begin(
    rt: &impl Abort,
    alloc: Global,
    image: &[u8],
    calls: Vec<Vec<Call>>,
) -> Result<World<EngineWriter>, Fail> {
    assert!(rt; image.len() == 131_072);
    let count = calls.len();
    assert!(rt; 1 <= count && count <= 8);
    assert!(rt; calls.iter().all(|list| list.len() <= 20_000));
    match begin_world(alloc, image.to_vec(alloc)?, calls, LIMIT) {
        Ok(world) => Ok(world),
        Err(_) => panic!(rt; "no world is opened"),
    }
}

/// The writer of a world over an image.
pub(crate) fn open(rt: &impl Abort, alloc: Global, image: &[u8]) -> Result<EngineWriter, Fail> {
    assert!(rt; image.len() == 131_072);
    match EngineWriter::begin(alloc, image.to_vec(alloc)?, LIMIT) {
        Ok(writer) => Ok(writer),
        Err(_) => panic!(rt; "no writer is opened"),
    }
}

/// A processor takes so many steps.
pub(crate) fn take(rt: &impl Abort, world: &mut World<EngineWriter>, processor: u8, steps: u32) {
    for _ in 0..steps {
        let stepped = world.step(&Event::Step { processor });
        assert!(rt; stepped == Stepped::Moved);
    }
}

/// How many calls a processor has answered.
pub(crate) fn count_of(world: &World<EngineWriter>, processor: u8) -> usize {
    match world.session().processors.get(usize::from(processor)) {
        Some(answers) => answers.as_slice().len(),
        None => 0,
    }
}

/// A processor takes steps until it has answered its call.
pub(crate) fn end(rt: &impl Abort, world: &mut World<EngineWriter>, processor: u8) {
    let count = count_of(world, processor);
    for _ in 0..64u32 {
        if count_of(world, processor) != count {
            return;
        }
        take(rt, world, processor, 1);
    }
    panic!(rt; "the call has no end");
}

/// The first byte that a get found, or 0 where a set is a change.
pub(crate) fn byte_in(reply: &Reply) -> Option<u8> {
    match reply {
        Reply::Get(
            GetReply::Ok {
                attributes: _,
                bytes,
            },
        ) => bytes.as_slice().first().copied(),
        Reply::Set(SetReply::Ok) => Some(0),
        _ => None,
    }
}

/// What is shown of an answered call: its place, its route, and its byte.
fn shown(answered: &Answered) -> (u64, Route, Option<u8>) {
    (answered.place, answered.route, byte_in(&answered.reply))
}

/// A processor's answers are these.
pub(crate) fn expect(
    rt: &impl Abort,
    session: &Session,
    processor: usize,
    want: &[(u64, Route, Option<u8>)],
) {
    let answered = match session.processors.get(processor) {
        Some(answers) => answers.as_slice(),
        None => &[],
    };
    assert_eq!(rt; answered.len(), want.len());
    for (have, want) in answered.iter().zip(want) {
        assert!(rt; shown(have) == *want);
    }
}
