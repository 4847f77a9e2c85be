ghost use Rattle.std.specs.Prelude.{◌≡◌, ◌≢◌, ◌≤◌, All, IfErr, IfOk, None, OnOk, Some, false, length, map};
ghost use Rattle.nv_store.specs.Opening.{refusal_of};
ghost use Rattle.nv_store.specs.declared.load_fault.LoadWhy.TheVariants as why;
ghost use Rattle.svc_core.specs.Progress.{most_calls};
ghost use Rattle.svc_core.specs.Scene.{IsOpening, first_world, own_at_first};
ghost use Rattle.var_types.specs.Kept.{kept};
ghost use Rattle.var_types.specs.Layout.{image_size};
ghost use Rattle.var_types.specs.State.{start};

use crate::EngineWriter;
use nv_store::LoadWhy;
use std::alloc::Global;
use svc_core::World;
use var_types::{Bytes, Call, OutOfMemory};

// A writer over an image, and the bytes of its flash.
fn open(alloc: Global, image: Vec<u8>, limit: u64) -> Result<(EngineWriter, Bytes), LoadWhy>
    requires { length image.items ≡ image_size }
    ensures image { IfOk result (λ both. both.1 ≡ both.0.own.image) }
    ensures opening { IfOk result (λ both. IsOpening both.0.opening both.1 limit) }
    ensures own { IfOk result (λ both. both.0.own ≡ own_at_first both.0.opening both.1) }
    ensures state { IfOk result (λ both. both.0.opening.start ≡ start (kept image.items) limit) }
    ensures accepted { OnOk result (refusal_of image.items ≡ None) }
    ensures refused { IfErr result (λ fault. fault ≢ why.OutOfMemory → refusal_of image.items ≡ Some fault) }
{
    let writer = match EngineWriter::begin(alloc, image, limit) {
        Ok(writer) => writer,
        Err(fault) => return Err(fault),
    };
    match writer.image() {
        Ok(bytes) => Ok((writer, bytes)),
        Err(OutOfMemory) => Err(LoadWhy::OutOfMemory),
    }
}

/// A world over an image of 131,072 bytes, before its first event, with a list of calls for each processor, and room for so many changes. Refused
/// as the non-volatile store is.
pub fn begin_world(
    alloc: Global,
    image: Vec<u8>,
    calls: Vec<Vec<Call>>,
    limit: u64,
) -> Result<World<EngineWriter>, LoadWhy>
    requires size { length image.items ≡ image_size }
    requires some { 1 ≤ length calls.items }
    requires few { length calls.items ≤ 8 }
    requires short { All (λ v. length v.items ≤ most_calls) calls.items }
    ensures live { IfOk result (λ s. s.lost ≡ false) }
    ensures running { IfOk result (λ s. s.over ≡ false) }
    ensures begun { IfOk result (λ s. s.world ≡ first_world s.world.opening s.world.writer.flash (map (λ v. v.items) calls.items)) }
    ensures opening { IfOk result (λ s. IsOpening s.world.opening s.world.writer.flash limit) }
    ensures state { IfOk result (λ s. s.world.opening.start ≡ start (kept image.items) limit) }
    ensures accepted { OnOk result (refusal_of image.items ≡ None) }
    ensures refused { IfErr result (λ fault. fault ≢ why.OutOfMemory → refusal_of image.items ≡ Some fault) }
{
    let (writer, bytes) = match open(alloc, image, limit) {
        Ok(both) => both,
        Err(fault) => return Err(fault),
    };
    match World::begin(alloc, writer, bytes, calls, limit) {
        Ok(world) => Ok(world),
        Err(OutOfMemory) => Err(LoadWhy::OutOfMemory),
    }
}
