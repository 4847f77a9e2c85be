//! What tells a state of a world from all others that the same calls come to.
use crate::EngineWriter;
use std::alloc::{AllocFailed, Global};
use svc_core::{Point, World};
use var_types::Route;

type Parts = [u64; 5];

fn route_parts(route: Route) -> [u64; 3] {
    match route {
        Route::Plain => [0, 0, 0],
        Route::Cache => [1, 0, 0],
        Route::Merged { made, held } => [2, made, held],
        Route::Writer { holder } => [3, holder, 0],
        Route::Flushed => [4, 0, 0],
        Route::Deferred { holder } => [5, holder, 0],
    }
}

fn cache_parts(point: &Point) -> Option<Parts> {
    match point {
        Point::Start => Some([1, 0, 0, 0, 0]),
        Point::LoadMade => Some([2, 0, 0, 0, 0]),
        Point::LoadHeld { made } => Some([3, *made, 0, 0, 0]),
        Point::TakeCache { place } => Some([4, *place, 0, 0, 0]),
        Point::Look { place } => Some([5, *place, 0, 0, 0]),
        Point::Unlock { place, .. } => Some([6, *place, 0, 0, 0]),
        _ => None,
    }
}

fn merge_parts(point: &Point) -> Option<Parts> {
    match point {
        Point::MergeEnter { made, held } => Some([7, *made, *held, 0, 0]),
        Point::MergeLoadMade { made, held } => Some([8, *made, *held, 0, 0]),
        Point::MergeTakeCache { made, held, place } => Some([9, *made, *held, *place, 0]),
        Point::Merge { made, held, place } => Some([10, *made, *held, *place, 0]),
        Point::MergePutCache {
            made,
            held,
            place,
            ..
        } => Some([11, *made, *held, *place, 0]),
        Point::MergeLeave {
            made,
            held,
            place,
            ..
        } => Some([12, *made, *held, *place, 0]),
        Point::MergeUnlock {
            made,
            held,
            place,
            ..
        } => Some([13, *made, *held, *place, 0]),
        _ => None,
    }
}

fn ask_parts(point: &Point) -> Option<Parts> {
    match point {
        Point::AskEnter { holder } => Some([14, *holder, 0, 0, 0]),
        Point::AskLook { holder } => Some([15, *holder, 0, 0, 0]),
        Point::AskLeave { holder, place, .. } => Some([16, *holder, *place, 0, 0]),
        _ => None,
    }
}

fn flush_parts(point: &Point) -> Option<Parts> {
    match point {
        Point::FlushTakeCache { place, .. } => Some([17, *place, 0, 0, 0]),
        Point::Flush { place, .. } => Some([18, *place, 0, 0, 0]),
        Point::FlushSwapHeld { place, .. } => Some([19, *place, 0, 0, 0]),
        Point::FlushPutCache { place, .. } => Some([20, *place, 0, 0, 0]),
        Point::FlushUnlock { place, .. } => Some([21, *place, 0, 0, 0]),
        _ => None,
    }
}

fn write_parts(point: &Point) -> Parts {
    match point {
        Point::Decide => [22, 0, 0, 0, 0],
        Point::Write { place, steps, .. } => [23, *place, steps.len() as u64, 0, 0],
        Point::TryLock { place, .. } => [24, *place, 0, 0, 0],
        Point::Defer { place, holder, .. } => [25, *place, *holder, 0, 0],
        Point::Leave { place, route, .. } => {
            let [code, first, second] = route_parts(*route);
            [26, *place, code, first, second]
        }
        _ => [0, 0, 0, 0, 0],
    }
}

fn point_parts(point: &Point) -> Parts {
    match cache_parts(point)
        .or(merge_parts(point))
        .or(ask_parts(point))
        .or(flush_parts(point))
    {
        Some(parts) => parts,
        None => write_parts(point),
    }
}

/// A state's sign: where each processor stands, how it has answered, and which calls made the history. The words, the stores, the cache and the
/// flash follow from these.
pub(crate) fn sign_of(
    alloc: Global,
    world: &World<EngineWriter>,
) -> Result<Vec<u64>, AllocFailed<u64>> {
    let mut sign = Vec::new(alloc);
    let mut processor: usize = 0;
    for answers in &world.session().processors {
        if let Some(point) = world.point(processor) {
            push_all(&mut sign, &point_parts(point))?;
        }
        sign.push(answers.as_slice().len() as u64)?;
        for answered in answers.as_slice() {
            sign.push(answered.place)?;
            push_all(&mut sign, &route_parts(answered.route))?;
        }
        processor = processor.saturating_add(1);
    }
    for change in world.session().entries.changes() {
        sign.push(u64::from(change.entry.processor))?;
        sign.push(u64::from(change.entry.index))?;
    }
    Ok(sign)
}

fn push_all(sign: &mut Vec<u64>, parts: &[u64]) -> Result<(), AllocFailed<u64>> {
    for part in parts {
        sign.push(*part)?;
    }
    Ok(())
}
