ghost use Rattle.std.specs.Prelude.{◌≡◌, ◌≤◌, [], length, map, All, IfOk};
ghost use Rattle.script_text.specs.Script.{most_calls};

use std::alloc::Global;
use std::marker::Model;
use var_trace::Answers;
use var_types::{Call, OutOfMemory};

/// The calls that a processor is to make, and room for their answers.
#[derive(Drop)]
pub struct Queue {
    pub calls: Vec<Call>,
    pub answers: Answers,
}

impl Model for Queue {
    ghost use Rattle.std.specs.Prelude.{◌≡◌, ◌≤◌, List, [], length};
    ghost use Rattle.script_text.specs.Script.{most_calls};
    ghost use Rattle.var_types.specs.declared.call.Call.{Call};

    ghost Value = { List Call };

    ghost view = { λ q. q.calls.items };

    ghost invariant = { λ q. (q.answers ≡ record { answered = []; limit = length q.calls.items }) × (length q.calls.items ≤ most_calls) };
}

impl Queue {
    pub fn new(alloc: Global, calls: Vec<Call>) -> Result<Queue, OutOfMemory>
        requires { length calls.items ≤ most_calls }
        ensures { IfOk result (λ queue. queue ≡ calls.items) }
    {
        let answers = Answers::with_room(alloc, calls.len() as u64)?;
        Ok(Queue { calls, answers })
    }

    /// How many calls there are.
    pub fn len(&self) -> u64
        ensures count { result ≡ length self.now }
        ensures few { length self.now ≤ most_calls }
    {
        self.calls.len() as u64
    }
}

/// The queues of a script's processors: room for all answers is taken here.
pub fn queues_of(alloc: Global, script: Vec<Vec<Call>>) -> Result<Vec<Queue>, OutOfMemory>
    requires { All (λ calls. length calls ≤ most_calls) (map (λ v. v.items) script.items) }
    ensures { IfOk result (λ queues. queues.items ≡ map (λ v. v.items) script.items) }
{
    let mut queues = Vec::with_capacity(alloc, script.len())?;
    for calls in script {
        queues.push(Queue::new(alloc, calls)?)?;
    }
    Ok(queues)
}
