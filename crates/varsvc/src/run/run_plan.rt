//! The running of a script on an image, and what is to be printed of it.
ghost use Rattle.std.specs.Prelude.{◌≡◌, ◌≢◌, ◌<◌, ◌≤◌, [], length, map, sum_by, All, IfOk, List, Option, ℕ};
ghost use Rattle.script_text.specs.Script.{most_calls};
ghost use Rattle.varsvc.specs.FaultLines.{script_line};
ghost use Rattle.varsvc.specs.Input.{most_read};
ghost use Rattle.varsvc.specs.Opened.{IsOpened, PlansUnopened};
ghost use Rattle.varsvc.specs.Outcome.{FailsAt, FlashFails, IsText, ReadsInput, run_row};
ghost use Rattle.varsvc.specs.Plan.{HasPlanValues, IsStreamed, PlansLine, status_of, text_of};
ghost use Rattle.varsvc.specs.RunPlan.{PlansRun};
ghost use Rattle.varsvc.specs.Runs.{Runs, SaysSame};
ghost use Rattle.varsvc.specs.Told.{told_of};

use crate::image::{plan_foreign, plan_refused};
use crate::input::{InputFault, read_input};
use crate::output::{Plan, Planned, Streamed, plan_text, write_script_line};
use crate::run::{Desk, Queue, queues_of, run_queues};
use flash_dev::Flash;
use mm_writer::Engine;
use nv_store::LoadWhy;
use outside::Source;
use script_text::{ScriptFault, read_script};
use std::alloc::Global;
use var_types::{Call, OutOfMemory, TextBuffer};

fn plan_script_fault(alloc: Global, fault: ScriptFault) -> Plan
    ensures { PlansLine 3 (script_line fault) result }
{
    let mut text = TextBuffer::new(alloc);
    write_script_line(fault, &mut text);
    plan_text(3, text)
}

// The refusal of an image, or of its flash.
fn plan_unopened(alloc: Global, why: LoadWhy) -> Plan
    ensures { PlansUnopened why result }
{
    match why {
        LoadWhy::Image(fault) => plan_refused(alloc, fault),
        LoadWhy::ForeignWork => plan_foreign(alloc),
        LoadWhy::Device => Plan::DeviceFault,
        LoadWhy::OutOfMemory => Plan::NoMemory,
    }
}

// Runs the calls of processors on an image that was opened, and closes it.
fn run_opened<F: Flash>(
    alloc: Global,
    engine: Engine<F>,
    queues: Vec<Queue>,
    desk: Desk,
) -> Planned<F>
    requires empty { desk ≡ [] }
    requires few { length queues.items ≤ 8 }
    ensures run { (input : Option (List ℕ)) (flash : F) → IsOpened F.fault_count F.moment F.left_since F.holds flash (sum_by length queues.items) engine
        → PlansRun (told_of F.holds F.size F.fault_count F.moment F.left_since input flash result.image) queues.items result.plan }
    ensures size { F.size result.image ≡ F.size engine.0 }
{
    let mut engine = engine;
    let mut desk = desk;
    let _size = engine.non_volatile();
    let _opened = engine.trace();
    run_queues(alloc, &mut engine, queues, &mut desk);
    let _closed = engine.trace();
    let _same_size = engine.non_volatile();
    let (image, entries) = engine.release();
    Planned {
        plan: Plan::Stream {
            streamed: Streamed::Report {
                session: desk.into_session(entries),
            },
        },
        image,
    }
}

// How many calls there are.
fn count_calls(queues: &[Queue]) -> u64
    requires { length queues.now ≤ 8 }
    ensures { result ≡ sum_by length queues.now }
{
    let mut count = 0;
    for queue in queues {
        count += queue.len();
    }
    count
}

// Opens the image, and runs the calls of processors on it. At least one change is allowed, so that the limit is none for an empty script.
fn run_on<F: Flash>(alloc: Global, image: F, queues: Vec<Queue>, desk: Desk) -> Planned<F>
    requires empty { desk ≡ [] }
    requires few { length queues.items ≤ 8 }
    ensures run { (input : Option (List ℕ)) → PlansRun (told_of F.holds F.size F.fault_count F.moment F.left_since input image result.image) queues.items result.plan }
    ensures size { F.size result.image ≡ F.size image }
{
    let limit = count_calls(queues.as_slice()).max(1);
    match Engine::begin(alloc, image, limit) {
        Ok(engine) => run_opened(alloc, engine, queues, desk),
        Err(fault) => Planned {
            plan: plan_unopened(alloc, fault.why),
            image: fault.flash,
        },
    }
}

// Takes all memory that the answers need, before the image is opened.
fn prepare(alloc: Global, script: Vec<Vec<Call>>) -> Result<(Vec<Queue>, Desk), OutOfMemory>
    requires { All (λ calls. length calls ≤ most_calls) (map (λ v. v.items) script.items) }
    ensures { IfOk result (λ ready. (ready.0.items ≡ map (λ v. v.items) script.items) × (ready.1 ≡ [])) }
{
    Ok((queues_of(alloc, script)?, Desk::new(alloc)?))
}

fn plan_calls<F: Flash>(alloc: Global, image: F, script: Vec<Vec<Call>>) -> Planned<F>
    requires few { length (map (λ v. v.items) script.items) ≤ 8 }
    requires short { All (λ calls. length calls ≤ most_calls) (map (λ v. v.items) script.items) }
    ensures run { (input : Option (List ℕ)) → PlansRun (told_of F.holds F.size F.fault_count F.moment F.left_since input image result.image) (map (λ v. v.items) script.items) result.plan }
    ensures size { F.size result.image ≡ F.size image }
{
    match prepare(alloc, script) {
        Ok((queues, desk)) => run_on(alloc, image, queues, desk),
        Err(_) => Planned {
            plan: Plan::NoMemory,
            image,
        },
    }
}

fn plan_script<F: Flash>(alloc: Global, input: &[u8], image: F) -> Planned<F>
    ensures text { (left : Option (List ℕ)) → SaysSame left input.now → HasPlanValues result.plan
        → IsText (run_row (told_of F.holds F.size F.fault_count F.moment F.left_since left image result.image)) (status_of result.plan) (text_of result.plan) }
    ensures unprinted { (left : Option (List ℕ)) → SaysSame left input.now → IsStreamed result.plan
        → Runs (told_of F.holds F.size F.fault_count F.moment F.left_since left image result.image) }
    ensures flash { (left : Option (List ℕ))
        → FlashFails (run_row (told_of F.holds F.size F.fault_count F.moment F.left_since left image result.image)) (status_of result.plan) (F.fault_count image) (F.fault_count result.image) }
    ensures was_read { status_of result.plan ≢ 6 }
    ensures short { status_of result.plan ≡ 0 → length input.now < most_read }
    ensures size { F.size result.image ≡ F.size image }
{
    match read_script(alloc, input) {
        Ok(script) => plan_calls(alloc, image, script.into_processors()),
        Err(ScriptFault::OutOfMemory) => Planned {
            plan: Plan::NoMemory,
            image,
        },
        Err(fault) => Planned {
            plan: plan_script_fault(alloc, fault),
            image,
        },
    }
}

/// Reads a script to its end, runs it on an image, and plans what is to be printed. Words and script are read before the image is opened.
pub fn plan_run<S: Source, F: Flash>(alloc: Global, source: &mut S, image: F) -> Planned<F>
    ensures text { HasPlanValues result.plan → IsText (run_row (told_of F.holds F.size F.fault_count F.moment F.left_since (S.left source.old) image result.image)) (status_of result.plan) (text_of result.plan) }
    ensures unprinted { IsStreamed result.plan → Runs (told_of F.holds F.size F.fault_count F.moment F.left_since (S.left source.old) image result.image) }
    ensures cause { FailsAt 6 (status_of result.plan) (S.fault_count source.old) (S.fault_count source.new) }
    ensures flash { FlashFails (run_row (told_of F.holds F.size F.fault_count F.moment F.left_since (S.left source.old) image result.image)) (status_of result.plan) (F.fault_count image) (F.fault_count result.image) }
    ensures reads { ReadsInput (run_row (told_of F.holds F.size F.fault_count F.moment F.left_since (S.left source.old) image result.image)) (status_of result.plan) (S.left source.old) (S.left source.new) }
    ensures size { F.size result.image ≡ F.size image }
{
    match read_input(alloc, source) {
        Ok(input) => plan_script(alloc, input.as_slice(), image),
        Err(InputFault::Failed) => Planned {
            plan: Plan::InputFault,
            image,
        },
        Err(InputFault::OutOfMemory) => Planned {
            plan: Plan::NoMemory,
            image,
        },
    }
}
