ghost use Rattle.std.specs.Prelude.{◌≡◌, ◌≤◌, All, length, map, IfOk};
ghost use Rattle.script_text.specs.Gives.{Gives};
ghost use Rattle.script_text.specs.Script.{most_calls, script_of};

use crate::ScriptFault;
use crate::call_lines::read_calls;
use crate::calls_end::CallsEnd;
use std::alloc::Global;
use std::marker::Model;
use var_types::Call;

/// The calls of each processor, in the order in which it makes them.
#[derive(Debug, Drop)]
pub struct Script {
    processors: Vec<Vec<Call>>,
}

impl Model for Script {
    ghost use Rattle.std.specs.Prelude.{List, map};
    ghost use Rattle.var_types.specs.declared.call.Call.{Call};

    ghost Value = { List (List Call) };

    ghost view = { λ s. map (λ v. v.items) s.processors.items };
}

impl Script {
    /// The script of these calls.
    pub fn new(processors: Vec<Vec<Call>>) -> Self
        ensures { result ≡ map (λ v. v.items) processors.items }
    {
        Script { processors }
    }

    /// How many processors the script has.
    pub fn processors(&self) -> usize
        ensures { result ≡ length self.now }
    {
        self.processors.len()
    }

    /// The calls of each processor, without a copy.
    pub fn into_processors(self) -> Vec<Vec<Call>>
        ensures { map (λ v. v.items) result.items ≡ self }
    {
        self.processors
    }
}

/// The calls of each processor that a text of at most 1,048,576 bytes spells, at most 20,000 of a processor; else the first refusal from its
/// front.
#[tactic(auto, unfolding(crate::specs::Script::script_of))]
pub fn read_script(alloc: Global, bytes: &[u8]) -> Result<Script, ScriptFault>
    ensures script { Gives result (script_of bytes.now) }
    ensures some { IfOk result (λ script. 1 ≤ length script) }
    ensures few { IfOk result (λ script. length script ≤ 8) }
    ensures short { IfOk result (λ script. All (λ calls. length calls ≤ most_calls) script) }
{
    let read = read_calls(alloc, CallsEnd::Text, bytes)?;
    Ok(Script::new(read.calls))
}
