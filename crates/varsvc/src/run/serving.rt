//! The calls of a script, answered by the writer's side.
ghost use Rattle.std.specs.Prelude.{◌≡◌, ◌≤◌, length};
ghost use Rattle.var_types.specs.declared.call.Call.TheVariants.{ExitBoot as ExitCalled, Get as GetCalled, Next as NextCalled, Policy as PolicyCalled, Set as SetCalled};
ghost use Rattle.var_types.specs.declared.reply.Reply.TheVariants.{Get as GetReplied, Next as NextReplied};
ghost use Rattle.var_types.specs.DeviceErrors.{IsReplyIn};
ghost use Rattle.mm_writer.specs.Side.{state_of};
ghost use Rattle.varsvc.specs.Running.{Serves};

use flash_dev::Flash;
use mm_writer::Engine;
use runtime_cache::{copied_get, copied_next};
use std::alloc::Global;
use var_types::{Call, GetCall, GetReply, NextCall, NextReply, PolicyCall, Reply, SetCall};

fn get_reply<F: Flash>(
    alloc: Global,
    engine: &Engine<F>,
    call: &GetCall,
    buffer: &mut [u8],
) -> GetReply
    requires { 65536 ≤ length buffer.old }
    ensures { IsReplyIn (state_of engine.now.1.1) (GetCalled call.now) (GetReplied result) }
{
    let answer = engine.get(&call.guid, call.name.as_slice(), call.room, buffer);
    match copied_get(alloc, answer, buffer) {
        Ok(reply) => reply,
        Err(_) => GetReply::OutOfMemory,
    }
}

fn next_reply<F: Flash>(
    alloc: Global,
    engine: &Engine<F>,
    call: &NextCall,
    buffer: &mut [u16],
) -> NextReply
    requires { length buffer.old ≡ 513 }
    ensures { IsReplyIn (state_of engine.now.1.1) (NextCalled call.now) (NextReplied result) }
{
    let answer = engine.next(&call.guid, call.name.as_slice(), call.room, buffer);
    match copied_next(alloc, answer, buffer) {
        Ok(reply) => reply,
        Err(_) => NextReply::OutOfMemory,
    }
}

fn serve_get<F: Flash>(
    alloc: Global,
    engine: &mut Engine<F>,
    processor: u8,
    index: u32,
    call: &GetCall,
    buffer: &mut [u8],
) -> Reply
    requires { 65536 ≤ length buffer.old }
    ensures { Serves F.fault_count F.moment F.left_since F.holds engine.old engine.new processor index (GetCalled call.now) result }
{
    let _trace = engine.trace();
    Reply::Get(get_reply(alloc, engine, call, buffer))
}

fn serve_next<F: Flash>(
    alloc: Global,
    engine: &mut Engine<F>,
    processor: u8,
    index: u32,
    call: &NextCall,
    buffer: &mut [u16],
) -> Reply
    requires { length buffer.old ≡ 513 }
    ensures { Serves F.fault_count F.moment F.left_since F.holds engine.old engine.new processor index (NextCalled call.now) result }
{
    let _trace = engine.trace();
    Reply::Next(next_reply(alloc, engine, call, buffer))
}

fn serve_set<F: Flash>(engine: &mut Engine<F>, processor: u8, index: u32, call: &SetCall) -> Reply
    ensures { Serves F.fault_count F.moment F.left_since F.holds engine.old engine.new processor index (SetCalled call.now) result }
{
    let _trace = engine.trace();
    Reply::Set(engine.set(processor, index, call))
}

fn serve_policy<F: Flash>(
    engine: &mut Engine<F>,
    processor: u8,
    index: u32,
    call: &PolicyCall,
) -> Reply
    ensures { Serves F.fault_count F.moment F.left_since F.holds engine.old engine.new processor index (PolicyCalled call.now) result }
{
    let _trace = engine.trace();
    Reply::Policy(engine.policy(processor, index, call))
}

fn serve_exit<F: Flash>(engine: &mut Engine<F>, processor: u8, index: u32) -> Reply
    ensures { Serves F.fault_count F.moment F.left_since F.holds engine.old engine.new processor index ExitCalled result }
{
    let _trace = engine.trace();
    Reply::Exit(engine.exit_boot(processor, index))
}

/// Answers a call of a processor, the one of this index; the buffers take what a read finds.
pub fn serve<F: Flash>(
    alloc: Global,
    engine: &mut Engine<F>,
    processor: u8,
    index: u32,
    call: &Call,
    bytes: &mut [u8],
    units: &mut [u16],
) -> Reply
    requires bytes { 65536 ≤ length bytes.old }
    requires units { length units.old ≡ 513 }
    ensures { Serves F.fault_count F.moment F.left_since F.holds engine.old engine.new processor index call.now result }
{
    match call {
        Call::Get(call) => serve_get(alloc, engine, processor, index, call, bytes),
        Call::Next(call) => serve_next(alloc, engine, processor, index, call, units),
        Call::Set(call) => serve_set(engine, processor, index, call),
        Call::Policy(call) => serve_policy(engine, processor, index, call),
        Call::ExitBoot => serve_exit(engine, processor, index),
    }
}
