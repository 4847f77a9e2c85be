//! Reads that an engine answers, with the reply copied.
ghost use Rattle.std.specs.Prelude.{◌≡◌, ◌≤◌, length, IfOk};
ghost use Rattle.mm_writer.specs.Side.{state_of};
ghost use Rattle.var_types.specs.Get.{get_reply};
ghost use Rattle.var_types.specs.Next.{next_reply};

use crate::ListedFlash;
use mm_writer::Engine;
use runtime_cache::{copied_get, copied_next};
use std::alloc::Global;
use var_types::{GetCall, GetReply, NextCall, NextReply, OutOfMemory};

fn get_in(
    alloc: Global,
    engine: &Engine<ListedFlash>,
    call: &GetCall,
    buffer: &mut [u8],
) -> Result<GetReply, OutOfMemory>
    requires { 65536 ≤ length buffer.old }
    ensures { IfOk result (λ reply. reply ≡ get_reply (state_of engine.now.1.1) call.now) }
{
    let answer = engine.get(&call.guid, call.name.as_slice(), call.room, buffer);
    copied_get(alloc, answer, buffer)
}

fn next_in(
    alloc: Global,
    engine: &Engine<ListedFlash>,
    call: &NextCall,
    buffer: &mut [u16],
) -> Result<NextReply, OutOfMemory>
    requires { length buffer.old ≡ 513 }
    ensures { IfOk result (λ reply. reply ≡ next_reply (state_of engine.now.1.1) call.now) }
{
    let answer = engine.next(&call.guid, call.name.as_slice(), call.room, buffer);
    copied_next(alloc, answer, buffer)
}

/// Answers GetVariable.
pub(crate) fn get(
    alloc: Global,
    engine: &Engine<ListedFlash>,
    call: &GetCall,
) -> Result<GetReply, OutOfMemory>
    ensures { IfOk result (λ reply. reply ≡ get_reply (state_of engine.now.1.1) call.now) }
{
    let mut buffer = vec![in alloc; 0u8; 65_536]?;
    get_in(alloc, engine, call, &mut buffer)
}

/// Answers GetNextVariableName.
pub(crate) fn next(
    alloc: Global,
    engine: &Engine<ListedFlash>,
    call: &NextCall,
) -> Result<NextReply, OutOfMemory>
    ensures { IfOk result (λ reply. reply ≡ next_reply (state_of engine.now.1.1) call.now) }
{
    let mut buffer = vec![in alloc; 0u16; 513]?;
    next_in(alloc, engine, call, &mut buffer)
}
