//! A check of what a loss of power leaves, from its definition.
use crate::EngineWriter;
use crate::same_reply::same_reply;
use crate::test_worlds::{LIMIT, X, byte_in, get, open};
use std::alloc::Global;
use std::process::Abort;
use std::test::Fail;
use svc_core::{Point, World, Writes};
use svc_plain::Plain;
use var_trace::Change;
use var_types::Call;

/// The one-thread service after some changes, and one more if it is there.
fn after(alloc: Global, changes: &[Change], planned: Option<&Call>) -> Plain {
    let mut plain = Plain::new(alloc, LIMIT);
    for change in changes {
        plain.step(&change.entry.call);
    }
    if let Some(call) = planned {
        plain.step(call);
    }
    plain
}

/// The first byte of the variable `X` in an image, as a writer that opens it finds it.
pub(crate) fn kept_in(rt: &impl Abort, alloc: Global, image: &[u8]) -> Result<Option<u8>, Fail> {
    let mut writer = open(rt, alloc, image)?;
    let call = get(alloc, X)?;
    let planned = writer.plan(0, 0, &call)?;
    Ok(byte_in(&planned.reply))
}

/// An image keeps of these names, which are of non-volatile variables alone, what the service has.
fn keeps(
    rt: &impl Abort,
    alloc: Global,
    image: &[u8],
    names: &[u16],
    plain: &mut Plain,
) -> Result<bool, Fail> {
    let mut writer = open(rt, alloc, image)?;
    for name in names {
        let call = get(alloc, *name)?;
        let planned = writer.plan(0, 0, &call)?;
        if !same_reply(&planned.reply, &plain.step(&call)) {
            return Ok(false);
        }
    }
    Ok(true)
}

/// The change that is planned in a world.
fn planned(world: &World<EngineWriter>) -> Option<&Call> {
    for processor in 0..8 {
        if let Some(Point::Write { change, .. }) = world.point(processor) {
            return Some(&change.entry.call);
        }
    }
    None
}

/// What a loss of power left keeps the history's variables of these names, or those with the one planned change.
pub(crate) fn is_kept(
    rt: &impl Abort,
    alloc: Global,
    world: &World<EngineWriter>,
    names: &[u16],
) -> Result<bool, Fail> {
    let changes = world.session().entries.changes();
    let mut plain = after(alloc, changes, None);
    if keeps(rt, alloc, world.image(), names, &mut plain)? {
        return Ok(true);
    }
    match planned(world) {
        Some(call) => {
            let mut plain = after(alloc, changes, Some(call));
            keeps(rt, alloc, world.image(), names, &mut plain)
        }
        None => Ok(false),
    }
}
