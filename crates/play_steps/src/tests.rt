use crate::EngineWriter;
use crate::test_worlds::{X, begin, blank, end, expect, get, set, take};
use std::alloc::Global;
use std::process::Abort;
use std::test::Fail;
use svc_core::World;
use var_trace::Session;
use var_types::{Call, Route};

/// Sets a variable, and gets it twice.
fn set_and_get_twice(alloc: Global) -> Result<Vec<Call>, Fail> {
    let mut calls = Vec::new(alloc);
    calls.push(set(alloc, X, 1)?)?;
    calls.push(get(alloc, X)?)?;
    calls.push(get(alloc, X)?)?;
    Ok(calls)
}

fn one(alloc: Global, call: Call) -> Result<Vec<Call>, Fail> {
    let mut calls = Vec::new(alloc);
    calls.push(call)?;
    Ok(calls)
}

/// The calls of the three processors.
fn three(alloc: Global) -> Result<Vec<Vec<Call>>, Fail> {
    let mut calls = Vec::new(alloc);
    calls.push(set_and_get_twice(alloc)?)?;
    calls.push(one(alloc, set(alloc, X, 2)?)?)?;
    calls.push(one(alloc, get(alloc, X)?)?)?;
    Ok(calls)
}

/// The world in which the third reads while the first holds the cache, and the second writes.
fn overlap(rt: &impl Abort, world: &mut World<EngineWriter>) {
    end(rt, world, 0);
    take(rt, world, 0, 2);
    end(rt, world, 1);
    end(rt, world, 2);
    end(rt, world, 0);
    end(rt, world, 0);
}

/// What the three have answered behind it.
pub(crate) fn expect_overlap(rt: &impl Abort, session: &Session) {
    let first = [
        (0, Route::Flushed, Some(0)),
        (1, Route::Cache, Some(1)),
        (2, Route::Merged { made: 2, held: 1 }, Some(2)),
    ];
    expect(rt, session, 0, &first);
    expect(
        rt,
        session,
        1,
        &[(1, Route::Deferred { holder: 1 }, Some(0))],
    );
    expect(rt, session, 2, &[(2, Route::Writer { holder: 1 }, Some(2))]);
    assert_eq!(rt; session.made(), 2);
}

#[test]
fn three_processors_interleave(rt: HostRuntime) -> Result<(), Fail> {
    let alloc = rt.alloc();
    let mut world = begin(&rt, alloc, &blank(&rt, alloc)?, three(alloc)?)?;
    overlap(&rt, &mut world);
    expect_overlap(&rt, world.session());
    Ok(())
}
