//! Two processors of two calls each take their steps in every order: each state that an order comes to is visited once, and left by every step
//! that its processors may take. In each of them power is lost, and each session is judged.
use crate::EngineWriter;
use crate::kept_check::is_kept;
use crate::legal_session::{are_answered, is_legal};
use crate::state_sign::sign_of;
use crate::test_worlds::{TEARS, X, begin, blank, get, next, set};
use flash_dev::Torn;
use std::alloc::{AllocError, Global};
use std::process::Abort;
use std::test::Fail;
use svc_core::{Event, Point, Stepped, World};
use var_types::Call;

/// More states than two processors of two calls come to.
const MOST_STATES: u32 = 2_000;

/// What the second of a processor's two calls is; the first is a set.
#[derive(Clone, Copy)]
enum Second {
    Get,
    Set,
    Next,
}

fn two_calls(alloc: Global, byte: u8, second: Second) -> Result<Vec<Call>, Fail> {
    let mut calls = Vec::new(alloc);
    calls.push(set(alloc, X, byte)?)?;
    calls.push(match second {
        Second::Get => get(alloc, X)?,
        Second::Set => set(alloc, X, byte.wrapping_add(1))?,
        Second::Next => next(alloc)?,
    })?;
    Ok(calls)
}

fn calls(alloc: Global, second: Second) -> Result<Vec<Vec<Call>>, Fail> {
    let mut calls = Vec::new(alloc);
    calls.push(two_calls(alloc, 1, second)?)?;
    calls.push(two_calls(alloc, 3, second)?)?;
    Ok(calls)
}

/// The states that were visited, by their signs, and the orders that lead to those which are still to be left.
#[derive(Drop)]
struct Visits {
    signs: Vec<Vec<u64>>,
    orders: Vec<Vec<u8>>,
}

impl Visits {
    /// Visits a state to which an order leads, if it is new.
    fn visit(&mut self, sign: Vec<u64>, order: Vec<u8>) -> Result<(), Fail> {
        if !self.signs.iter().any(|s| s.as_slice() == sign.as_slice()) {
            self.signs.push(sign)?;
            self.orders.push(order)?;
        }
        Ok(())
    }
}

/// The worlds of one test begin alike.
#[derive(Drop)]
struct Beginning<'a> {
    image: &'a [u8],
    second: Second,
}

impl Beginning<'_> {
    /// A world behind the steps of an order.
    fn behind(
        &self,
        rt: &impl Abort,
        alloc: Global,
        order: &[u8],
    ) -> Result<World<EngineWriter>, Fail> {
        let mut world = begin(rt, alloc, self.image, calls(alloc, self.second)?)?;
        for processor in order {
            let event = Event::Step {
                processor: *processor,
            };
            assert!(rt; world.step(&event) == Stepped::Moved);
        }
        Ok(world)
    }
}

fn longer(alloc: Global, order: &[u8], processor: u8) -> Result<Vec<u8>, Fail> {
    let mut longer = order.to_vec(alloc)?;
    longer.push(processor)?;
    Ok(longer)
}

/// A processor takes a step in the world behind an order, and the state that it leads to is visited: whether it moved.
fn step(
    alloc: Global,
    world: &mut World<EngineWriter>,
    order: &[u8],
    processor: u8,
    visits: &mut Visits,
) -> Result<bool, Fail> {
    if world.step(&Event::Step { processor }) != Stepped::Moved {
        return Ok(false);
    }
    visits.visit(sign_of(alloc, world)?, longer(alloc, order, processor)?)?;
    Ok(true)
}

/// Whether the step that comes next on the writer's side is one of the flash.
fn writes(world: &World<EngineWriter>) -> bool {
    for processor in 0..2 {
        if let Some(Point::Write { steps, .. }) = world.point(processor) {
            return !steps.is_empty();
        }
    }
    false
}

/// Power is lost, the next flash step torn this way.
fn cut(rt: &impl Abort, world: &mut World<EngineWriter>, torn: Torn) {
    assert!(rt; world.step(&Event::Power { torn }) == Stepped::Moved);
}

/// No event changes anything.
fn expect_still(rt: &impl Abort, world: &mut World<EngineWriter>, torn: Torn) {
    for processor in 0..2 {
        assert!(rt; world.step(&Event::Step { processor }) == Stepped::Still);
    }
    assert!(rt; world.step(&Event::Power { torn }) == Stepped::Still);
}

/// The session is legal, and what the loss of power left is kept.
fn judge(rt: &impl Abort, alloc: Global, world: &World<EngineWriter>) -> Result<(), Fail> {
    assert!(rt; is_legal(alloc, world.session()));
    assert!(rt; is_kept(rt, alloc, world, &[X])?);
    Ok(())
}

/// Power is lost behind an order, the next flash step torn this way, and nothing moves behind it.
fn lose_power(
    rt: &impl Abort,
    alloc: Global,
    beginning: &Beginning<'_>,
    order: &[u8],
    torn: Torn,
) -> Result<(), Fail> {
    let mut world = beginning.behind(rt, alloc, order)?;
    cut(rt, &mut world, torn);
    expect_still(rt, &mut world, torn);
    judge(rt, alloc, &world)
}

fn is_writing(
    rt: &impl Abort,
    alloc: Global,
    beginning: &Beginning<'_>,
    order: &[u8],
) -> Result<bool, Fail> {
    let world = beginning.behind(rt, alloc, order)?;
    Ok(writes(&world))
}

/// Power is lost behind an order, torn in each way where that makes a difference.
fn lose_power_each_way(
    rt: &impl Abort,
    alloc: Global,
    beginning: &Beginning<'_>,
    order: &[u8],
) -> Result<(), Fail> {
    if !is_writing(rt, alloc, beginning, order)? {
        return lose_power(rt, alloc, beginning, order, Torn::Before);
    }
    for torn in TEARS {
        lose_power(rt, alloc, beginning, order, torn)?;
    }
    Ok(())
}

/// A processor takes a step behind an order: whether it moved.
fn leave_by(
    rt: &impl Abort,
    alloc: Global,
    beginning: &Beginning<'_>,
    order: &[u8],
    processor: u8,
    visits: &mut Visits,
) -> Result<bool, Fail> {
    let mut world = beginning.behind(rt, alloc, order)?;
    step(alloc, &mut world, order, processor, visits)
}

/// Behind an order the session is at its end, and legal.
fn judge_end(
    rt: &impl Abort,
    alloc: Global,
    beginning: &Beginning<'_>,
    order: &[u8],
) -> Result<(), Fail> {
    let world = beginning.behind(rt, alloc, order)?;
    assert!(rt; is_legal(alloc, world.session()));
    assert!(rt; are_answered(world.session(), 2));
    Ok(())
}

/// Leaves the state behind an order by every step, and judges the session where there is none.
fn leave(
    rt: &impl Abort,
    alloc: Global,
    beginning: &Beginning<'_>,
    order: &[u8],
    visits: &mut Visits,
) -> Result<(), Fail> {
    let first = leave_by(rt, alloc, beginning, order, 0, visits)?;
    let second = leave_by(rt, alloc, beginning, order, 1, visits)?;
    if !first && !second {
        judge_end(rt, alloc, beginning, order)?;
    }
    lose_power_each_way(rt, alloc, beginning, order)
}

fn first_visit(rt: &impl Abort, alloc: Global, beginning: &Beginning<'_>) -> Result<Visits, Fail> {
    let mut visits = Visits {
        signs: Vec::new(alloc),
        orders: Vec::new(alloc),
    };
    let world = beginning.behind(rt, alloc, &[])?;
    visits.visit(sign_of(alloc, &world)?, Vec::new(alloc))?;
    Ok(visits)
}

/// Leaves every state that is visited.
fn leave_all(
    rt: &impl Abort,
    alloc: Global,
    beginning: &Beginning<'_>,
    visits: &mut Visits,
) -> Result<(), Fail> {
    for _ in 0..MOST_STATES {
        let Some(order) = visits.orders.pop() else {
            return Ok(());
        };
        leave(rt, alloc, beginning, &order, visits)?;
    }
    panic!(rt; "there are too many states")
}

fn check(rt: &impl Abort, alloc: Global, second: Second) -> Result<(), Fail> {
    let image = blank(rt, alloc)?;
    let beginning = Beginning {
        image: &image,
        second,
    };
    let mut visits = first_visit(rt, alloc, &beginning)?;
    leave_all(rt, alloc, &beginning, &mut visits)
}

#[test]
fn a_set_and_a_get_in_any_order_are_legal(rt: HostRuntime) -> Result<(), Fail> {
    check(&rt, rt.alloc(), Second::Get)
}

#[test]
fn two_sets_in_any_order_are_legal(rt: HostRuntime) -> Result<(), Fail> {
    check(&rt, rt.alloc(), Second::Set)
}

#[test]
fn a_set_and_a_next_in_any_order_are_legal(rt: HostRuntime) -> Result<(), Fail> {
    check(&rt, rt.alloc(), Second::Next)
}
