//! What an engine answers to a call, and what it lists of it.
ghost use Rattle.std.specs.Prelude.{◌≡◌, ◌≢◌, ℕ, ◌-◌, ◌<◌, length, slice_get, IfOk, OnOk, Some};
ghost use Rattle.play_steps.specs.EngineWriter.{IsDone, IsReady, IsWhole, opening_of, own_of};
ghost use Rattle.svc_core.specs.Plan.{IsPlan};
ghost use Rattle.var_types.specs.declared.call.Call.TheVariants as calls;
ghost use Rattle.var_types.specs.declared.policy_reply.PolicyReply.TheVariants as policies;
ghost use Rattle.var_types.specs.declared.reply.Reply.TheVariants as replies;
ghost use Rattle.var_types.specs.declared.reply.SetReply.TheVariants as sets;

use crate::ListedFlash;
use crate::copies::copy_of_change;
use crate::reads::{get, next};
use mm_writer::Engine;
use std::alloc::Global;
use svc_core::Planned;
use var_trace::{Change, Trace};
use var_types::{
    Call, GetCall, NextCall, OutOfMemory, PolicyCall, PolicyReply, Reply, SetCall, SetReply,
};

/// The engine's history.
pub(crate) fn history(engine: &Engine<ListedFlash>) -> &Trace
    ensures log { result.now ≡ record { log = engine.now.1.1.log; limit = engine.now.1.1.limit } }
    ensures whole { IsWhole engine.now }
{
    let _bytes = engine.flash().bytes();
    let _non_volatile = engine.non_volatile();
    let _volatile = engine.volatile();
    let trace = engine.trace();
    let _made = trace.len();
    trace
}

// The flash fails for want of memory alone.
fn told_set(reply: SetReply) -> Result<SetReply, OutOfMemory>
    ensures same { IfOk result (λ told. told ≡ reply) }
    ensures memory { IfOk result (λ told. told ≢ sets.OutOfMemory) }
    ensures device { IfOk result (λ told. told ≢ sets.Device) }
{
    match reply {
        SetReply::Ok => Ok(SetReply::Ok),
        SetReply::Same => Ok(SetReply::Same),
        SetReply::Refused(reason) => Ok(SetReply::Refused(reason)),
        SetReply::Device | SetReply::OutOfMemory => Err(OutOfMemory),
    }
}

fn told_policy(reply: PolicyReply) -> Result<PolicyReply, OutOfMemory>
    ensures same { IfOk result (λ told. told ≡ reply) }
    ensures memory { IfOk result (λ told. told ≢ policies.OutOfMemory) }
{
    match reply {
        PolicyReply::Ok => Ok(PolicyReply::Ok),
        PolicyReply::On => Ok(PolicyReply::On),
        PolicyReply::Off => Ok(PolicyReply::Off),
        PolicyReply::Entry(bytes) => Ok(PolicyReply::Entry(bytes)),
        PolicyReply::Refused(reason) => Ok(PolicyReply::Refused(reason)),
        PolicyReply::OutOfMemory => Err(OutOfMemory),
    }
}

fn answer_set(
    engine: &mut Engine<ListedFlash>,
    processor: u8,
    index: u32,
    call: &SetCall,
) -> Result<SetReply, OutOfMemory>
    requires { IsReady engine.old }
    ensures opening { opening_of engine.new ≡ opening_of engine.old }
    ensures done { IfOk result (λ reply. IsDone engine.old engine.new processor index (calls.Set call.now) (replies.Set reply)) }
{
    let _history = history(engine);
    let reply = engine.set(processor, index, call);
    told_set(reply)
}

fn answer_policy(
    engine: &mut Engine<ListedFlash>,
    processor: u8,
    index: u32,
    call: &PolicyCall,
) -> Result<PolicyReply, OutOfMemory>
    requires { IsReady engine.old }
    ensures opening { opening_of engine.new ≡ opening_of engine.old }
    ensures done { IfOk result (λ reply. IsDone engine.old engine.new processor index (calls.Policy call.now) (replies.Policy reply)) }
{
    let _history = history(engine);
    let reply = engine.policy(processor, index, call);
    told_policy(reply)
}

fn answer_exit(engine: &mut Engine<ListedFlash>, processor: u8, index: u32) -> Reply
    requires { IsReady engine.old }
    ensures opening { opening_of engine.new ≡ opening_of engine.old }
    ensures done { IsDone engine.old engine.new processor index calls.ExitBoot result }
{
    let _history = history(engine);
    Reply::Exit(engine.exit_boot(processor, index))
}

// A get changes nothing.
fn answer_get(
    alloc: Global,
    engine: &Engine<ListedFlash>,
    call: &GetCall,
) -> Result<Reply, OutOfMemory>
    requires { IsReady engine.now }
    ensures { (processor index : ℕ) → IfOk result (λ reply. IsDone engine.now engine.now processor index (calls.Get call.now) reply) }
{
    let _history = history(engine);
    let reply = get(alloc, engine, call)?;
    Ok(Reply::Get(reply))
}

// Nor does a next.
fn answer_next(
    alloc: Global,
    engine: &Engine<ListedFlash>,
    call: &NextCall,
) -> Result<Reply, OutOfMemory>
    requires { IsReady engine.now }
    ensures { (processor index : ℕ) → IfOk result (λ reply. IsDone engine.now engine.now processor index (calls.Next call.now) reply) }
{
    let _history = history(engine);
    let reply = next(alloc, engine, call)?;
    Ok(Reply::Next(reply))
}

// Answers a call.
fn answer(
    alloc: Global,
    engine: &mut Engine<ListedFlash>,
    processor: u8,
    index: u32,
    call: &Call,
) -> Result<Reply, OutOfMemory>
    requires { IsReady engine.old }
    ensures opening { opening_of engine.new ≡ opening_of engine.old }
    ensures done { IfOk result (λ reply. IsDone engine.old engine.new processor index call.now reply) }
{
    match call {
        Call::Get(call) => answer_get(alloc, engine, call),
        Call::Next(call) => answer_next(alloc, engine, call),
        Call::Set(call) => {
            let reply = answer_set(engine, processor, index, call)?;
            Ok(Reply::Set(reply))
        }
        Call::Policy(call) => {
            let reply = answer_policy(engine, processor, index, call)?;
            Ok(Reply::Policy(reply))
        }
        Call::ExitBoot => Ok(answer_exit(engine, processor, index)),
    }
}

// A copy of the last change of the history.
fn last_change(alloc: Global, engine: &Engine<ListedFlash>) -> Result<Change, OutOfMemory>
    requires { 0 < length engine.now.1.1.log }
    ensures last { IfOk result (λ change. slice_get engine.now.1.1.log (length engine.now.1.1.log - 1) ≡ Some change) }
    ensures whole { IsWhole engine.now }
{
    let changes = history(engine).changes();
    copy_of_change(alloc, &changes[changes.len() - 1])
}

/// Plans a call: answers it, and gives out the steps that were listed and the change that was entered.
pub(crate) fn plan(
    alloc: Global,
    engine: &mut Engine<ListedFlash>,
    processor: u8,
    index: u32,
    call: &Call,
) -> Result<Planned, OutOfMemory>
    requires { IsReady engine.old }
    ensures opening { opening_of engine.new ≡ opening_of engine.old }
    ensures plan { IfOk result (λ p. IsPlan (opening_of engine.old) (own_of engine.old) processor index call.now p (own_of engine.new)) }
    ensures ready { OnOk result (IsReady engine.new) }
{
    let _history = history(engine);
    let reply = answer(alloc, engine, processor, index, call)?;
    if !reply.is_change() {
        return Ok(Planned {
            reply,
            steps: Vec::new(alloc),
            change: None,
        });
    }
    let change = last_change(alloc, engine)?;
    let steps = engine.give_list();
    Ok(Planned {
        reply,
        steps,
        change: Some(change),
    })
}
