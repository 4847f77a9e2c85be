//! Copies of calls and changes.
ghost use Rattle.std.specs.Prelude.{◌≡◌, IfOk};

use std::alloc::Global;
use var_trace::{Change, Entry};
use var_types::{Call, GetCall, NextCall, OutOfMemory, PolicyCall, SetCall};

fn copy_of_get(call: &GetCall) -> Result<GetCall, OutOfMemory>
    ensures { IfOk result (λ copy. copy ≡ call.now) }
{
    Ok(GetCall {
        guid: call.guid,
        name: call.name.clone()?,
        room: call.room,
    })
}

fn copy_of_next(call: &NextCall) -> Result<NextCall, OutOfMemory>
    ensures { IfOk result (λ copy. copy ≡ call.now) }
{
    Ok(NextCall {
        guid: call.guid,
        name: call.name.clone()?,
        room: call.room,
    })
}

fn copy_of_set(call: &SetCall) -> Result<SetCall, OutOfMemory>
    ensures { IfOk result (λ copy. copy ≡ call.now) }
{
    Ok(SetCall {
        guid: call.guid,
        name: call.name.clone()?,
        attributes: call.attributes,
        bytes: call.bytes.clone()?,
        verdict: call.verdict,
    })
}

fn copy_of_policy(call: &PolicyCall) -> Result<PolicyCall, OutOfMemory>
    ensures { IfOk result (λ copy. copy ≡ call.now) }
{
    Ok(match call {
        PolicyCall::Register(entry) => PolicyCall::Register(entry.clone()?),
        PolicyCall::Lock => PolicyCall::Lock,
        PolicyCall::Disable => PolicyCall::Disable,
        PolicyCall::Enabled => PolicyCall::Enabled,
        PolicyCall::At(place) => PolicyCall::At(*place),
    })
}

fn copy_of_call(call: &Call) -> Result<Call, OutOfMemory>
    ensures { IfOk result (λ copy. copy ≡ call.now) }
{
    Ok(match call {
        Call::Get(call) => Call::Get(copy_of_get(call)?),
        Call::Next(call) => Call::Next(copy_of_next(call)?),
        Call::Set(call) => Call::Set(copy_of_set(call)?),
        Call::Policy(call) => Call::Policy(copy_of_policy(call)?),
        Call::ExitBoot => Call::ExitBoot,
    })
}

fn copy_of_entry(entry: &Entry) -> Result<Entry, OutOfMemory>
    ensures { IfOk result (λ copy. copy ≡ entry.now) }
{
    Ok(Entry {
        number: entry.number,
        processor: entry.processor,
        index: entry.index,
        call: copy_of_call(&entry.call)?,
    })
}

pub(crate) fn copy_of_change(alloc: Global, change: &Change) -> Result<Change, OutOfMemory>
    ensures { IfOk result (λ copy. copy ≡ change.now) }
{
    Ok(Change {
        entry: copy_of_entry(&change.entry)?,
        delta: change.delta.copy(alloc)?,
    })
}
