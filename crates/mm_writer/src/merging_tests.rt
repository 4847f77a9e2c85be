ghost use Rattle.std.specs.Prelude.{IfOk};
ghost use Rattle.mm_writer.specs.Behind.{IsBehind};

use crate::Engine;
use crate::flash_tests::{A, B, KEPT, Set, call_of, flash_of, image};
use flash_dev::{MemFlash, Torn};
use runtime_cache::Cache;
use std::alloc::Global;
use std::process::Abort;
use std::test::Fail;

const LOST: u32 = 6;

/// An engine over an image, with a cache of its stores.
fn opened(rt: &impl Abort, alloc: Global, image: &[u8]) -> Result<(Engine<MemFlash>, Cache), Fail>
    ensures { IfOk result (λ both. IsBehind both.0.1.1 both.1) }
{
    match Engine::begin(alloc, flash_of(alloc, image, &[], None, Torn::Before)?, 20) {
        Ok(engine) => {
            let cache = Cache::make(
                alloc,
                engine.non_volatile(),
                engine.volatile(),
                engine.runtime(),
            )?;
            Ok((engine, cache))
        }
        Err(_) => panic!(rt; "no engine is opened"),
    }
}

/// A set, behind which the cache lacks more.
fn make(
    engine: &mut Engine<MemFlash>,
    cache: &mut Cache,
    alloc: Global,
    set: Set,
) -> Result<(), Fail>
    requires { IsBehind engine.old.1.1 cache.old }
    ensures { IsBehind engine.new.1.1 cache.new }
{
    let call = call_of(alloc, set)?;
    engine.set(0, 0, &call);
    Ok(())
}

/// The cache takes what it lacks, and no change is left that it lacks.
fn merge(rt: &impl Abort, engine: &mut Engine<MemFlash>, cache: &mut Cache)
    requires { IsBehind engine.old.1.1 cache.old }
    ensures { IsBehind engine.new.1.1 cache.new }
{
    engine.merge_into(cache);
    assert!(rt; cache.non_volatile_bytes() == engine.non_volatile());
    assert!(rt; cache.volatile_bytes() == engine.volatile());
}

#[test]
fn a_cache_takes_all_that_it_lacks(rt: HostRuntime) -> Result<(), Fail> {
    let alloc = rt.alloc();
    let bytes = image(&rt, alloc, &[Set(A, KEPT, 30_000, 1)])?;
    let (mut engine, mut cache) = opened(&rt, alloc, &bytes)?;
    make(&mut engine, &mut cache, alloc, Set(B, LOST, 9, 2))?;
    make(&mut engine, &mut cache, alloc, Set(A, KEPT, 30_000, 3))?;
    merge(&rt, &mut engine, &mut cache);
    make(&mut engine, &mut cache, alloc, Set(B, LOST, 0, 0))?;
    make(&mut engine, &mut cache, alloc, Set(A, KEPT, 1, 4))?;
    merge(&rt, &mut engine, &mut cache);
    Ok(())
}
