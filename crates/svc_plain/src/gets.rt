//! The parts of the get rule that read the map or a variable alone.
ghost use Rattle.std.specs.Prelude.{◌≡◌, ◌^◌, ◌<◌, false, length, IfSome, Some};
ghost use Rattle.std.specs.BTreeMap.{get};
ghost use Rattle.std.specs.Option.{option_copied};
ghost use Rattle.var_types.specs.Get.{get_found};
ghost use Rattle.var_types.specs.Key.{key_cmp, key_of};
ghost use Rattle.var_types.specs.State.{seen_at};
ghost use Rattle.var_types.specs.Step.{lacks_memory};
ghost use Rattle.var_types.specs.declared.key.Key.{Key as AnyKey};

use std::alloc::Global;
use std::collections::BTreeMap;
use var_types::{Bytes, Call, GetCall, GetReply, Key, Reply, Variable};

/// What callers see at a key.
#[tactic(auto, using(crate::proofs::Seen::shown_is_seen, crate::proofs::Seen::hidden_is_unseen))]
pub(crate) fn shown_at<'a>(
    variables: &'a BTreeMap<Key, Variable>,
    runtime: bool,
    key: &Key,
) -> Option<&'a Variable>
    ensures { option_copied result ≡ seen_at runtime (get key_cmp variables.now key.now) }
{
    let variable = variables.get(key)?;
    if variable.is_shown(runtime) {
        Some(variable)
    } else {
        None
    }
}

/// The answer from what callers see at a call's key, which is made in `probe`.
pub(crate) fn get_stored(
    alloc: Global,
    variables: &BTreeMap<Key, Variable>,
    runtime: bool,
    probe: &mut Key,
    call: &GetCall,
) -> GetReply
    requires { (key : AnyKey) → IfSome (get key_cmp variables.now key) (λ variable. length variable.bytes < 2 ^ 32) }
    ensures { lacks_memory (Call.Get call.now) (Reply.Get result) ≡ false
        → result ≡ get_found (seen_at runtime (get key_cmp variables.now (key_of call.now.guid call.now.name))) call.now.room }
{
    if probe.assign(call.guid, &call.name).is_err() {
        return GetReply::OutOfMemory;
    }
    match shown_at(variables, runtime, probe) {
        None => GetReply::NotFound,
        Some(variable) => get_found(alloc, call, variable),
    }
}

/// The answer from a variable.
fn get_found(alloc: Global, call: &GetCall, variable: &Variable) -> GetReply
    requires { length variable.now.bytes < 2 ^ 32 }
    ensures { lacks_memory (Call.Get call.now) (Reply.Get result) ≡ false → result ≡ get_found (Some variable.now) call.now.room }
{
    let bytes = variable.bytes.as_slice();
    let needed = bytes.len() as u32;
    if call.room < needed {
        return GetReply::TooSmall {
            attributes: variable.attributes,
            needed,
        };
    }
    match Bytes::copy(alloc, bytes) {
        Err(_) => GetReply::OutOfMemory,
        Ok(bytes) => GetReply::Ok {
            attributes: variable.attributes,
            bytes,
        },
    }
}
