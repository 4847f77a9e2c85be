//! The script of a number, run on a blank image in memory, and what it comes to.
ghost use Rattle.std.specs.Prelude.{◌≡◌, ◌≤◌, [], None, false, IfOk, OnOk, length};
ghost use Rattle.image_make.specs.Generated.{generated_calls, script_calls};
ghost use Rattle.mm_writer.specs.Side.{first_state, state_of};
ghost use Rattle.report_text.specs.Sizes.{sizes_of};
ghost use Rattle.report_text.specs.Summary.{replies_of, summary_line, summary_of};
ghost use Rattle.var_types.specs.Layout.{longest_region};
ghost use Rattle.var_types.specs.State.{start};
ghost use Rattle.var_types.specs.Stores.{first_offset, map_in};
ghost use Rattle.varsvc.specs.Plan.{PlansLine};
ghost use Rattle.varsvc.specs.Runs.{lacks_one};
ghost use Rattle.varsvc.specs.Work.{work_summary};

use crate::output::{Plan, lacks_one, plan_text};
use crate::run::{Desk, Queue, run_calls};
use flash_dev::Flash;
use image_make::{SCRIPT_CALLS, blank_flash, generated_calls};
use mm_writer::Engine;
use report_text::{Sizes, Summary, summary_of, variable_sizes, write_summary};
use std::alloc::Global;
use var_region::region_in;
use var_trace::Answers;
use var_types::{OutOfMemory, Store, TextBuffer};

// The sizes of the variables in a store's bytes.
#[tactic(auto, unfolding(var_types::specs::Stores::map_in))]
fn store_sizes(alloc: Global, store: Store, bytes: &[u8]) -> Result<Sizes, OutOfMemory>
    requires first { first_offset store ≤ length bytes.now }
    requires few { length bytes.now ≤ longest_region }
    ensures sizes { IfOk result (λ sizes. sizes ≡ sizes_of (map_in store bytes.now)) }
    ensures small { IfOk result (λ sizes. (sizes.variables ≤ 131078) × (sizes.bytes ≤ 131078)) }
{
    variable_sizes(alloc, &region_in(store, bytes))
}

// The sizes of all variables of the services.
fn engine_sizes<F: Flash>(alloc: Global, engine: &Engine<F>) -> Result<Sizes, OutOfMemory>
    ensures { IfOk result (λ sizes. sizes ≡ sizes_of (state_of engine.now.1.1).variables) }
{
    let _consistent = engine.trace();
    let kept = store_sizes(alloc, Store::NonVolatile, engine.non_volatile())?;
    let lost = store_sizes(alloc, Store::Volatile, engine.volatile())?;
    Ok(Sizes {
        variables: kept.variables + lost.variables,
        bytes: kept.bytes + lost.bytes,
    })
}

// What answered calls come to, none of which was out of memory.
fn summed<F: Flash>(
    alloc: Global,
    engine: &Engine<F>,
    answers: &Answers,
) -> Result<Summary, OutOfMemory>
    ensures able { OnOk result (lacks_one answers.now.answered ≡ false) }
    ensures summary { IfOk result (λ summary. summary ≡ summary_of (replies_of answers.now.answered) (sizes_of (state_of engine.now.1.1).variables)) }
{
    if lacks_one(answers) {
        return Err(OutOfMemory);
    }
    let sizes = engine_sizes(alloc, engine)?;
    Ok(summary_of(answers.as_slice(), sizes))
}

// What the calls of a script come to on services without variables, over a flash that never fails.
fn worked_on<F: Flash>(
    alloc: Global,
    engine: Engine<F>,
    queue: Queue,
    desk: Desk,
) -> Result<Summary, OutOfMemory>
    requires sure { (f : F) → F.fault_count f ≡ 0 }
    requires first { first_state engine.1.1 ≡ start [] script_calls }
    requires unchanged { engine.1.1.log ≡ [] }
    requires undoubted { engine.1.0 ≡ None }
    ensures { (number : _) → queue ≡ generated_calls number → IfOk result (λ summary. summary ≡ work_summary number) }
{
    let mut engine = engine;
    let mut desk = desk;
    let _opened = engine.trace();
    let answers = run_calls(alloc, &mut engine, 0, queue, &mut desk);
    summed(alloc, &engine, &answers)
}

fn worked(alloc: Global, number: u32) -> Result<Summary, OutOfMemory>
    ensures { IfOk result (λ summary. summary ≡ work_summary number) }
{
    let queue = Queue::new(alloc, generated_calls(alloc, number)?)?;
    let desk = Desk::new(alloc)?;
    let flash = blank_flash(alloc)?;
    match Engine::begin(alloc, flash, u64::from(SCRIPT_CALLS)) {
        Ok(engine) => worked_on(alloc, engine, queue, desk),
        Err(_) => Err(OutOfMemory),
    }
}

fn plan_summary(alloc: Global, summary: &Summary) -> Plan
    ensures { PlansLine 0 (summary_line summary.now) result }
{
    let mut text = TextBuffer::new(alloc);
    write_summary(summary, &mut text);
    plan_text(0, text)
}

/// Runs the script of a number on a blank image in memory, and plans the line of what it comes to.
pub fn plan_work(alloc: Global, number: u32) -> Plan
    ensures { PlansLine 0 (summary_line (work_summary number)) result }
{
    match worked(alloc, number) {
        Ok(summary) => plan_summary(alloc, &summary),
        Err(_) => Plan::NoMemory,
    }
}
