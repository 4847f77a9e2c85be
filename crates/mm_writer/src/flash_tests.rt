use crate::Engine;
use flash_dev::{FaultPlan, MemFlash, Torn, format_image};
use std::alloc::{AllocError, Global};
use std::process::Abort;
use std::test::Fail;
use var_types::{Bytes, GetAnswer, Guid, SetCall, SetReply, Units, Verdict};

const VENDOR: Guid = Guid { bytes: [7; 16] };

pub(crate) const A: u16 = 65;

pub(crate) const B: u16 = 66;

pub(crate) const KEPT: u32 = 7;

const APPEND: u32 = 0x47;

pub(crate) const TEARS: [Torn; 3] = [Torn::Before, Torn::Half, Torn::After];

/// A set of a name of one unit: its attributes, how many bytes, and what they all are.
#[derive(Clone, Copy)]
pub(crate) struct Set(
    pub(crate) u16,
    pub(crate) u32,
    pub(crate) u16,
    pub(crate) u8,
);

/// What the variables A and B have: how many bytes, and the first and the last of them.
#[derive(Clone, Copy, Debug, PartialEq, Eq)]
pub(crate) struct Shown {
    pub(crate) a: (u32, u8, u8),
    pub(crate) b: (u32, u8, u8),
}

pub(crate) fn flash_of(
    alloc: Global,
    image: &[u8],
    fails: &[u32],
    stop_at: Option<u32>,
    torn: Torn,
) -> Result<MemFlash, AllocError> {
    let fails = fails.to_vec(alloc)?;
    let plan = FaultPlan {
        fails,
        stop_at,
        torn,
    };
    Ok(MemFlash::new(image.to_vec(alloc)?, plan))
}

pub(crate) fn begin(rt: &impl Abort, alloc: Global, flash: MemFlash) -> Engine<MemFlash> {
    match Engine::begin(alloc, flash, 20) {
        Ok(engine) => engine,
        Err(_) => panic!(rt; "no engine is opened"),
    }
}

pub(crate) fn begin_whole(
    rt: &impl Abort,
    alloc: Global,
    image: &[u8],
) -> Result<Engine<MemFlash>, AllocError> {
    Ok(begin(rt, alloc, flash_of(alloc, image, &[], None, Torn::Before)?))
}

pub(crate) fn call_of(alloc: Global, set: Set) -> Result<SetCall, Fail> {
    let data = vec![in alloc; set.3; usize::from(set.2)]?;
    Ok(SetCall {
        guid: VENDOR,
        name: Units::new(alloc, &[set.0])?,
        attributes: set.1,
        bytes: Bytes::copy(alloc, &data)?,
        verdict: Verdict::Good,
    })
}

pub(crate) fn make(
    engine: &mut Engine<MemFlash>,
    alloc: Global,
    set: Set,
) -> Result<SetReply, Fail> {
    let call = call_of(alloc, set)?;
    Ok(engine.set(0, 0, &call))
}

fn seen(engine: &Engine<MemFlash>, unit: u16, into: &mut [u8]) -> (u32, u8, u8) {
    if into.len() < 65_536 {
        return (0, 0, 0);
    }
    match engine.get(&VENDOR, &[unit], 65_536, into) {
        GetAnswer::Ok {
            attributes: _,
            length,
        } => {
            let last = (length as usize).saturating_sub(1);
            let last = into.get(last).copied().unwrap_or(0);
            (length, into[0], last)
        }
        GetAnswer::NotFound | GetAnswer::TooSmall { .. } => (0, 0, 0),
    }
}

pub(crate) fn show(engine: &Engine<MemFlash>, alloc: Global) -> Result<Shown, AllocError> {
    let mut into = vec![in alloc; 0u8; 65_536]?;
    let a = seen(engine, A, &mut into);
    let b = seen(engine, B, &mut into);
    Ok(Shown { a, b })
}

/// An image with these variables, which an engine has set.
pub(crate) fn image(rt: &impl Abort, alloc: Global, sets: &[Set]) -> Result<Vec<u8>, Fail> {
    let blank = vec![in alloc; 0u8; 131_072]?;
    let mut flash = flash_of(alloc, &blank, &[], None, Torn::Before)?;
    assert!(rt; format_image(&mut flash).is_ok());
    let mut engine = begin(rt, alloc, flash);
    for set in sets {
        assert!(rt; matches!(make(&mut engine, alloc, *set)?, SetReply::Ok));
    }
    let (flash, _) = engine.release();
    Ok(flash.release())
}

/// What an image shows once it is opened again.
pub(crate) fn show_again(
    rt: &impl Abort,
    alloc: Global,
    engine: Engine<MemFlash>,
) -> Result<Shown, AllocError> {
    let (flash, _) = engine.release();
    let again = begin_whole(rt, alloc, &flash.release())?;
    show(&again, alloc)
}

/// A set that is to fail.
pub(crate) fn fail(
    rt: &impl Abort,
    alloc: Global,
    engine: &mut Engine<MemFlash>,
    set: Set,
) -> Result<(), Fail> {
    assert!(rt; matches!(make(engine, alloc, set)?, SetReply::Device));
    assert!(rt; engine.in_doubt());
    Ok(())
}

/// A set that is to be done.
pub(crate) fn change(
    rt: &impl Abort,
    alloc: Global,
    engine: &mut Engine<MemFlash>,
    set: Set,
) -> Result<(), Fail> {
    assert!(rt; matches!(make(engine, alloc, set)?, SetReply::Ok));
    assert!(rt; !engine.in_doubt());
    Ok(())
}

/// A set is stopped: the engine shows what was before, and the image opened again that or what is after.
fn stop_once(
    rt: &impl Abort,
    alloc: Global,
    flash: MemFlash,
    set: Set,
    before: Shown,
    after: Shown,
) -> Result<(), Fail> {
    let mut stopped = begin(rt, alloc, flash);
    fail(rt, alloc, &mut stopped, set)?;
    assert_eq!(rt; show(&stopped, alloc)?, before);
    let left = show_again(rt, alloc, stopped)?;
    assert!(rt; left == before || left == after);
    Ok(())
}

/// A set fails once: the engine shows what was before, and the next set is kept.
fn fail_once(
    rt: &impl Abort,
    alloc: Global,
    flash: MemFlash,
    set: Set,
    before: Shown,
) -> Result<(), Fail> {
    let mut engine = begin(rt, alloc, flash);
    fail(rt, alloc, &mut engine, set)?;
    assert_eq!(rt; show(&engine, alloc)?, before);
    change(rt, alloc, &mut engine, Set(A, KEPT, 2, 9))?;
    let now = Shown {
        a: (2, 9, 9),
        b: before.b,
    };
    assert_eq!(rt; show(&engine, alloc)?, now);
    assert_eq!(rt; show_again(rt, alloc, engine)?, now);
    Ok(())
}

/// The call of the flash that a set begins with, and what is shown before and after it; it is to take so many flash steps.
pub(crate) fn whole(
    rt: &impl Abort,
    alloc: Global,
    bytes: &[u8],
    set: Set,
    steps: u32,
) -> Result<(u32, Shown, Shown), Fail> {
    let mut engine = begin_whole(rt, alloc, bytes)?;
    let opening = engine.flash().calls();
    let before = show(&engine, alloc)?;
    change(rt, alloc, &mut engine, set)?;
    assert_eq!(rt; engine.flash().calls().wrapping_sub(opening), steps);
    let after = show(&engine, alloc)?;
    Ok((opening, before, after))
}

fn check_stopped(
    rt: &impl Abort,
    alloc: Global,
    bytes: &[u8],
    set: Set,
    steps: u32,
) -> Result<(), Fail> {
    let (opening, before, after) = whole(rt, alloc, bytes, set, steps)?;
    for stop in 0..steps {
        for torn in TEARS {
            let stop_at = Some(opening.wrapping_add(stop));
            let flash = flash_of(alloc, bytes, &[], stop_at, torn)?;
            stop_once(rt, alloc, flash, set, before, after)?;
        }
    }
    Ok(())
}

fn check_failing(
    rt: &impl Abort,
    alloc: Global,
    bytes: &[u8],
    set: Set,
    steps: u32,
) -> Result<(), Fail> {
    let (opening, before, _) = whole(rt, alloc, bytes, set, steps)?;
    for fail in 0..steps {
        for torn in TEARS {
            let at = opening.wrapping_add(fail);
            let flash = flash_of(alloc, bytes, &[at], None, torn)?;
            fail_once(rt, alloc, flash, set, before)?;
        }
    }
    Ok(())
}

/// What was set before, a set, and how many flash steps it takes.
struct Case {
    before: &'static [Set],
    set: Set,
    steps: u32,
}

const CASES: [Case; 4] = [
    Case {
        before: &[Set(A, KEPT, 1, 1), Set(B, KEPT, 1, 5)],
        set: Set(A, KEPT, 1, 2),
        steps: 6,
    },
    Case {
        before: &[Set(A, KEPT, 1, 1), Set(B, KEPT, 1, 5)],
        set: Set(A, APPEND, 1, 2),
        steps: 6,
    },
    Case {
        before: &[Set(A, KEPT, 1, 1), Set(B, KEPT, 1, 5)],
        set: Set(A, KEPT, 0, 0),
        steps: 1,
    },
    Case {
        before: &[Set(A, KEPT, 30_000, 1), Set(B, KEPT, 27_116, 5)],
        set: Set(B, KEPT, 27_116, 6),
        steps: 34,
    },
];

#[test]
fn a_set_is_whole_at_each_flash_step(rt: HostRuntime) -> Result<(), Fail> {
    let alloc = rt.alloc();
    for case in &CASES {
        let bytes = image(&rt, alloc, case.before)?;
        check_stopped(&rt, alloc, &bytes, case.set, case.steps)?;
    }
    Ok(())
}

#[test]
fn a_set_after_one_that_failed_is_kept(rt: HostRuntime) -> Result<(), Fail> {
    let alloc = rt.alloc();
    for case in &CASES {
        let bytes = image(&rt, alloc, case.before)?;
        check_failing(&rt, alloc, &bytes, case.set, case.steps)?;
    }
    Ok(())
}
