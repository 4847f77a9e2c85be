//! The parts of the next rule that read the map or a key alone.
ghost use Rattle.std.specs.Prelude.{◌≡◌, ◌&&◌, false, find};
ghost use Rattle.std.specs.Option.{option_copied, option_map};
ghost use Rattle.std.specs.Range.Bound.{bound_map};
ghost use Rattle.svc_plain.specs.Above.{start_above};
ghost use Rattle.var_types.specs.Least.{is_shown};
ghost use Rattle.var_types.specs.Next.{is_above, next_found};
ghost use Rattle.var_types.specs.Step.{lacks_memory};
ghost use Rattle.var_types.specs.declared.call.Call.TheVariants.{Next as NextCalled};
ghost use Rattle.var_types.specs.declared.reply.Reply.TheVariants.{Next as NextReplied};

use std::collections::BTreeMap;
use std::ops::Bound;
use var_types::{Key, NextCall, NextReply, Variable};

/// The least key of a map above a bound that callers see, where there is one.
#[tactic(auto, using(crate::proofs::Nexts::find_above_range))]
pub(crate) fn key_above<'a>(
    variables: &'a BTreeMap<Key, Variable>,
    runtime: bool,
    bound: Option<&Key>,
) -> Option<&'a Key>
    ensures { option_copied result
        ≡ option_map (λ e. e.0) (find (λ e. is_shown runtime e.1 && is_above (option_copied bound.entry) e.0) variables.now.entries) }
{
    for (key, variable) in variables.range((start_above(bound), Bound::Unbounded)) {
        if variable.is_shown(runtime) {
            return Some(key);
        }
    }
    None
}

/// Where a range of the keys above a bound starts.
fn start_above(bound: Option<&Key>) -> Bound<&Key>
    ensures { bound_map (λ key. key.now) result ≡ start_above (option_copied bound.entry) }
{
    match bound {
        None => Bound::Unbounded,
        Some(key) => Bound::Excluded(key),
    }
}

/// The answer from the next key, which is copied.
pub(crate) fn next_found(call: &NextCall, key: Option<&Key>) -> NextReply
    ensures { lacks_memory (NextCalled call.now) (NextReplied result) ≡ false
        → result ≡ next_found (option_copied key.entry) call.now.room }
{
    match key {
        None => NextReply::End,
        Some(key) => next_key(call, key),
    }
}

fn next_key(call: &NextCall, key: &Key) -> NextReply
    ensures { lacks_memory (NextCalled call.now) (NextReplied result) ≡ false → result ≡ next_found (Some key.now) call.now.room }
{
    let needed = 2 * key.name.as_slice().len() as u32 + 2;
    if call.room < needed {
        return NextReply::TooSmall { needed };
    }
    match key.clone() {
        Err(_) => NextReply::OutOfMemory,
        Ok(key) => NextReply::Ok { key },
    }
}
