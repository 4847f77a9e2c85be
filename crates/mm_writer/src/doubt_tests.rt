use crate::Engine;
use crate::flash_tests::{
    A, B, KEPT, Set, TEARS, begin, begin_whole, change, fail, flash_of, image, make, show,
    show_again,
};
use flash_dev::{MemFlash, Torn};
use std::alloc::{AllocError, Global};
use std::process::Abort;
use std::test::Fail;
use var_types::{ExitReply, PolicyCall, PolicyReply, SetReply};

const LOST: u32 = 6;

const FIRST: Set = Set(A, KEPT, 1, 1);

const SECOND: Set = Set(A, KEPT, 1, 2);

const THIRD: Set = Set(A, KEPT, 1, 3);

/// The step of a put in place from which on its variable may be kept: its record is made to count.
const COUNTS: u32 = 4;

/// Calls of the flash that fail in a set of A to 2 and in what comes behind it, counted from the set's first.
fn doubted(
    rt: &impl Abort,
    alloc: Global,
    bytes: &[u8],
    torn: Torn,
    failing: [u32; 2],
) -> Result<Engine<MemFlash>, Fail> {
    let opening = begin_whole(rt, alloc, bytes)?.flash().calls();
    let fails = [
        opening.wrapping_add(failing[0]),
        opening.wrapping_add(failing[1]),
    ];
    let mut engine = begin(rt, alloc, flash_of(alloc, bytes, &fails, None, torn)?);
    fail(rt, alloc, &mut engine, SECOND)?;
    assert_eq!(rt; show(&engine, alloc)?.a, (1, 1, 1));
    Ok(engine)
}

/// The byte of A that the image keeps, which is opened twice.
fn kept(rt: &impl Abort, alloc: Global, engine: Engine<MemFlash>) -> Result<u8, AllocError> {
    let (flash, _) = engine.release();
    let once = begin_whole(rt, alloc, &flash.release())?;
    let byte = show(&once, alloc)?.a.1;
    assert_eq!(rt; show_again(rt, alloc, once)?.a.1, byte);
    Ok(byte)
}

#[test]
fn a_set_that_failed_is_kept_by_the_step_that_failed(rt: HostRuntime) -> Result<(), Fail> {
    let alloc = rt.alloc();
    let bytes = image(&rt, alloc, &[FIRST])?;
    for step in 0..6 {
        for torn in TEARS {
            let engine = doubted(&rt, alloc, &bytes, torn, [step, step])?;
            let byte = kept(&rt, alloc, engine)?;
            assert!(rt; step > COUNTS || byte == 1 || (step == COUNTS && byte == 2));
            assert!(rt; step <= COUNTS || byte == 2);
        }
    }
    Ok(())
}

/// Calls that neither end a doubt nor fail: of volatile variables, of the policies, and the end of the boot phase.
fn go_on(rt: &impl Abort, alloc: Global, engine: &mut Engine<MemFlash>) -> Result<(), Fail> {
    assert!(rt; matches!(make(engine, alloc, Set(B, LOST, 1, 1))?, SetReply::Ok));
    assert!(rt; matches!(make(engine, alloc, Set(B, LOST, 0, 0))?, SetReply::Ok));
    assert!(rt; matches!(make(engine, alloc, FIRST)?, SetReply::Same));
    assert!(rt; matches!(engine.policy(0, 4, &PolicyCall::Lock), PolicyReply::Ok));
    assert_eq!(rt; engine.exit_boot(0, 5), ExitReply::Ok);
    Ok(())
}

#[test]
fn a_set_stays_in_doubt_over_calls_that_need_no_flash(rt: HostRuntime) -> Result<(), Fail> {
    let alloc = rt.alloc();
    let bytes = image(&rt, alloc, &[FIRST])?;
    for torn in TEARS {
        let mut engine = doubted(&rt, alloc, &bytes, torn, [COUNTS, COUNTS])?;
        let calls = engine.flash().calls();
        go_on(&rt, alloc, &mut engine)?;
        assert!(rt; engine.in_doubt());
        assert_eq!(rt; engine.flash().calls(), calls);
        assert_eq!(rt; show(&engine, alloc)?.a, (1, 1, 1));
        change(&rt, alloc, &mut engine, Set(B, KEPT, 1, 5))?;
        assert_eq!(rt; show(&engine, alloc)?.b, (1, 5, 5));
        assert_eq!(rt; kept(&rt, alloc, engine)?, 1);
    }
    Ok(())
}

/// How many calls of the flash the heal makes that a set behind a failed one begins with; its own are six.
fn calls_of_heal(rt: &impl Abort, alloc: Global, bytes: &[u8]) -> Result<u32, Fail> {
    let mut engine = doubted(rt, alloc, bytes, Torn::Half, [COUNTS, COUNTS])?;
    let calls = engine.flash().calls();
    change(rt, alloc, &mut engine, THIRD)?;
    let all = engine.flash().calls().wrapping_sub(calls);
    assert_eq!(rt; kept(rt, alloc, engine)?, 3);
    Ok(all.saturating_sub(6))
}

/// The byte that is kept where a set fails, and then the set behind it at a call of the flash.
fn fail_twice(
    rt: &impl Abort,
    alloc: Global,
    bytes: &[u8],
    torn: Torn,
    call: u32,
) -> Result<u8, Fail> {
    let second = call.saturating_add(COUNTS + 1);
    let mut engine = doubted(rt, alloc, bytes, torn, [COUNTS, second])?;
    fail(rt, alloc, &mut engine, THIRD)?;
    assert_eq!(rt; show(&engine, alloc)?.a, (1, 1, 1));
    Ok(kept(rt, alloc, engine)?)
}

#[test]
fn a_failed_heal_leaves_the_first_set_in_doubt(rt: HostRuntime) -> Result<(), Fail> {
    let alloc = rt.alloc();
    let bytes = image(&rt, alloc, &[FIRST])?;
    for call in 0..calls_of_heal(&rt, alloc, &bytes)? {
        for torn in TEARS {
            let byte = fail_twice(&rt, alloc, &bytes, torn, call)?;
            assert!(rt; byte == 1 || byte == 2, "call {call}");
        }
    }
    Ok(())
}

#[test]
fn a_set_that_fails_behind_a_heal_is_the_one_in_doubt(rt: HostRuntime) -> Result<(), Fail> {
    let alloc = rt.alloc();
    let bytes = image(&rt, alloc, &[FIRST])?;
    let heal = calls_of_heal(&rt, alloc, &bytes)?;
    for call in 0..6 {
        for torn in TEARS {
            let byte = fail_twice(&rt, alloc, &bytes, torn, heal.saturating_add(call))?;
            assert!(rt; byte == 1 || (call >= COUNTS && byte == 3), "call {call}");
        }
    }
    Ok(())
}
