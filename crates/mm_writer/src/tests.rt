use crate::Engine;
use flash_dev::{FaultPlan, Flash, MemFlash, Torn, format_image};
use std::alloc::{AllocError, Global};
use std::process::Abort;
use std::test::Fail;
use var_types::{Bytes, ExitReply, Guid, SetCall, SetReason, SetReply, Units, Verdict};

const VENDOR: Guid = Guid { bytes: [7; 16] };

const A: u16 = 65;

const B: u16 = 66;

/// Attributes of a non-volatile and of a volatile variable.
const KEPT: u32 = 7;

const LOST: u32 = 6;

/// What a set came to.
#[derive(Clone, Copy, Debug, PartialEq, Eq)]
enum Outcome {
    Changed,
    Same,
    Refused(SetReason),
    Device,
    OutOfMemory,
}

fn outcome_of(reply: &SetReply) -> Outcome {
    match reply {
        SetReply::Ok => Outcome::Changed,
        SetReply::Same => Outcome::Same,
        SetReply::Refused(reason) => Outcome::Refused(*reason),
        SetReply::Device => Outcome::Device,
        SetReply::OutOfMemory => Outcome::OutOfMemory,
    }
}

/// The bytes of a blank image.
fn blank(rt: &impl Abort, alloc: Global) -> Result<Vec<u8>, AllocError> {
    let mut flash = MemFlash::new(vec![in alloc; 0u8; 131_072]?, plan(alloc, &[])?);
    assert!(rt; format_image(&mut flash).is_ok());
    Ok(flash.release())
}

fn plan(alloc: Global, fails: &[u32]) -> Result<FaultPlan, AllocError> {
    Ok(FaultPlan {
        fails: fails.to_vec(alloc)?,
        stop_at: None,
        torn: Torn::Before,
    })
}

fn begin(
    rt: &impl Abort,
    alloc: Global,
    image: &[u8],
    fails: &[u32],
    limit: u64,
) -> Result<Engine<MemFlash>, AllocError> {
    let flash = MemFlash::new(image.to_vec(alloc)?, plan(alloc, fails)?);
    match Engine::begin(alloc, flash, limit) {
        Ok(engine) => Ok(engine),
        Err(_) => panic!(rt; "no engine is opened"),
    }
}

/// A set of bytes under a name of one unit.
fn set(
    engine: &mut Engine<MemFlash>,
    alloc: Global,
    unit: u16,
    attributes: u32,
    bytes: &[u8],
) -> Result<Outcome, Fail> {
    let call = SetCall {
        guid: VENDOR,
        name: Units::new(alloc, &[unit])?,
        attributes,
        bytes: Bytes::copy(alloc, bytes)?,
        verdict: Verdict::Good,
    };
    Ok(outcome_of(&engine.set(0, 0, &call)))
}

#[test]
fn equal_sets_make_no_flash_step(rt: HostRuntime) -> Result<(), Fail> {
    let alloc = rt.alloc();
    let mut engine = begin(&rt, alloc, &blank(&rt, alloc)?, &[], 10)?;
    assert_eq!(rt; set(&mut engine, alloc, A, KEPT, &[1])?, Outcome::Changed);
    let calls = engine.flash().calls();
    assert_eq!(rt; set(&mut engine, alloc, A, KEPT, &[1])?, Outcome::Same);
    assert_eq!(rt; set(&mut engine, alloc, B, LOST, &[1])?, Outcome::Changed);
    assert_eq!(rt; engine.flash().calls(), calls);
    assert_eq!(rt; engine.made(), 2);
    Ok(())
}

#[test]
fn a_history_of_none_takes_no_change(rt: HostRuntime) -> Result<(), Fail> {
    let alloc = rt.alloc();
    let mut engine = begin(&rt, alloc, &blank(&rt, alloc)?, &[], 0)?;
    let full = Outcome::Refused(SetReason::HistoryFull { made: 0 });
    assert_eq!(rt; set(&mut engine, alloc, A, KEPT, &[1])?, full);
    assert!(rt; engine.trace().is_empty());
    Ok(())
}

#[test]
fn a_full_history_takes_no_change(rt: HostRuntime) -> Result<(), Fail> {
    let alloc = rt.alloc();
    let mut engine = begin(&rt, alloc, &blank(&rt, alloc)?, &[], 1)?;
    assert_eq!(rt; set(&mut engine, alloc, A, KEPT, &[1])?, Outcome::Changed);
    assert_eq!(rt; engine.exit_boot(0, 1), ExitReply::HistoryFull { made: 1 });
    assert!(rt; !engine.runtime());
    assert_eq!(rt; engine.made(), 1);
    Ok(())
}

/// Sets a volatile variable to 1,000 bytes, 70 times with others: more than the store has.
fn overfill(engine: &mut Engine<MemFlash>, alloc: Global) -> Result<(), Fail> {
    for byte in 0u8..70 {
        let data = vec![in alloc; byte; 1000]?;
        set(engine, alloc, A, LOST, &data)?;
    }
    Ok(())
}

#[test]
fn the_volatile_store_is_compacted(rt: HostRuntime) -> Result<(), Fail> {
    let alloc = rt.alloc();
    let mut engine = begin(&rt, alloc, &blank(&rt, alloc)?, &[], 100)?;
    overfill(&mut engine, alloc)?;
    assert_eq!(rt; engine.made(), 70);
    Ok(())
}
