//! A run of the calls of processors, one processor after the other, on the writer's side.
ghost use Rattle.std.specs.Prelude.{◌≡◌, ◌+◌, ◌<◌, ◌≤◌, List, [], ◌∷◌, ◌++◌, length, map};
ghost use Rattle.script_text.specs.Script.{most_calls};
ghost use Rattle.var_types.specs.declared.answered.Answered.{Answered as AnsweredCall};
ghost use Rattle.var_types.specs.Session.{calls_of};
ghost use Rattle.var_types.specs.State.{State};
ghost use Rattle.varsvc.specs.Running.{HasRun};

use crate::run::{Desk, Queue, serve};
use flash_dev::Flash;
use mm_writer::Engine;
use std::alloc::Global;
use var_trace::Answers;
use var_types::{Answered, Call, Route, legal_sessions_grow};

// Answers one call of a processor, and puts it behind its others.
fn step_call<F: Flash>(
    alloc: Global,
    engine: &mut Engine<F>,
    processor: u8,
    call: Call,
    answers: &mut Answers,
    desk: &mut Desk,
)
    requires room { length answers.old.answered < answers.old.limit }
    requires few { answers.old.limit ≤ most_calls }
    ensures run { (first : State) (flash : F) (front : List (List AnsweredCall)) → processor ≡ length front
        → HasRun F.fault_count F.moment F.left_since F.holds first flash engine.old (front ++ answers.old.answered ∷ [])
        → HasRun F.fault_count F.moment F.left_since F.holds first flash engine.new (front ++ answers.new.answered ∷ []) }
    ensures calls { calls_of answers.new.answered ≡ calls_of answers.old.answered ++ call ∷ [] }
    ensures limit { answers.new.limit ≡ answers.old.limit }
    ensures desk { desk.new ≡ desk.old }
{
    legal_sessions_grow();
    let index = answers.as_slice().len() as u32;
    let place = engine.made();
    let reply = serve(
        alloc,
        engine,
        processor,
        index,
        &call,
        &mut desk.bytes,
        &mut desk.units,
    );
    answers.push(Answered {
        call,
        place,
        route: Route::Plain,
        reply,
    });
}

/// Answers the calls of a processor in order; takes no memory but for the replies and for what the services keep of the changes.
pub fn run_calls<F: Flash>(
    alloc: Global,
    engine: &mut Engine<F>,
    processor: u8,
    queue: Queue,
    desk: &mut Desk,
) -> Answers
    ensures run { (first : State) (flash : F) (front : List (List AnsweredCall)) → processor ≡ length front
        → HasRun F.fault_count F.moment F.left_since F.holds first flash engine.old front
        → HasRun F.fault_count F.moment F.left_since F.holds first flash engine.new (front ++ result.answered ∷ []) }
    ensures calls { calls_of result.answered ≡ queue }
    ensures desk { desk.new ≡ desk.old }
{
    let mut answers = queue.answers;
    for call in queue.calls {
        step_call(alloc, engine, processor, call, &mut answers, desk);
    }
    answers
}

/// Answers all calls of processor 0, then all of processor 1, and so on.
pub fn run_queues<F: Flash>(
    alloc: Global,
    engine: &mut Engine<F>,
    queues: Vec<Queue>,
    desk: &mut Desk,
)
    requires empty { desk.old ≡ [] }
    requires few { length queues.items ≤ 8 }
    ensures run { (first : State) (flash : F) → HasRun F.fault_count F.moment F.left_since F.holds first flash engine.old []
        → HasRun F.fault_count F.moment F.left_since F.holds first flash engine.new desk.new }
    ensures calls { map calls_of desk.new ≡ queues.items }
{
    for queue in queues {
        let processor = desk.processor();
        let answers = run_calls(alloc, engine, processor, queue, desk);
        desk.put(answers);
    }
}
