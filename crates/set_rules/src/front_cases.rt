//! The cases of the set rule that read the phase, what is stored and the descriptor.
ghost use Rattle.std.specs.Prelude.{◌≡◌};
ghost use Rattle.std.specs.Option.{option_or};
ghost use Rattle.set_rules.specs.Seen.{reading, seen};
ghost use Rattle.var_types.specs.Reading.{deletes};
ghost use Rattle.var_types.specs.SetCases.{descriptor_case, hidden_case, runtime_new_case, size_case, stored_lacks, volatile_case};

use crate::reading::Reading;
use crate::refuse_if::refuse_if;
use crate::view::Stored;
use var_types::attributes::{NON_VOLATILE, RUNTIME_ACCESS, has};
use var_types::{
    Decision, Descriptor, DescriptorFault, LARGEST_RECORD, SetReason, Units, record_size,
};

fn stored_lacks(stored: Option<Stored>, bit: u32) -> bool
    ensures { result ≡ stored_lacks (seen stored.entry) bit }
{
    match stored {
        None => false,
        Some(stored) => !has(stored.attributes, bit),
    }
}

#[tactic(auto, unfolding(var_types::specs::SetCases::hidden_case))]
fn hidden_case(runtime: bool, stored: Option<Stored>) -> Option<Decision>
    ensures { result ≡ hidden_case runtime (seen stored.entry) }
{
    let holds = runtime && stored_lacks(stored, RUNTIME_ACCESS);
    refuse_if(holds, SetReason::Hidden)
}

#[tactic(auto, unfolding(var_types::specs::SetCases::volatile_case))]
fn volatile_case(runtime: bool, stored: Option<Stored>) -> Option<Decision>
    ensures { result ≡ volatile_case runtime (seen stored.entry) }
{
    let holds = runtime && stored_lacks(stored, NON_VOLATILE);
    refuse_if(holds, SetReason::VolatileAtRuntime)
}

#[tactic(auto, unfolding(var_types::specs::SetCases::runtime_new_case))]
fn runtime_new_case(
    runtime: bool,
    stored: Option<Stored>,
    attributes: u32,
    deletion: bool,
) -> Option<Decision>
    ensures { result ≡ runtime_new_case runtime (seen stored.entry) attributes deletion }
{
    let kept_and_seen = has(attributes, NON_VOLATILE) && has(attributes, RUNTIME_ACCESS);
    let holds = runtime && !stored.is_some() && !deletion && !kept_and_seen;
    refuse_if(holds, SetReason::RuntimeNeedsNonVolatile)
}

#[tactic(auto, unfolding(var_types::specs::SetCases::descriptor_case))]
fn descriptor_case(front: Result<Descriptor, DescriptorFault>) -> Option<Decision>
    ensures { result ≡ descriptor_case front }
{
    match front {
        Ok(_) => None,
        Err(fault) => Some(Decision::Refuse(SetReason::Descriptor { at: fault.at })),
    }
}

#[tactic(auto, unfolding(var_types::specs::SetCases::size_case))]
fn size_case(name: &Units, payload: &[u8]) -> Option<Decision>
    ensures { result ≡ size_case name.now payload.now }
{
    let have = record_size(name, payload);
    let limit = LARGEST_RECORD;
    refuse_if(have > u64::from(limit), SetReason::Size { have, limit })
}

/// The first of these cases that holds.
pub(crate) fn front_case(runtime: bool, set: &Reading) -> Option<Decision>
    ensures { result
        ≡ option_or
        (option_or
        (option_or
        (option_or (hidden_case runtime (seen set.now.stored)) (volatile_case runtime (seen set.now.stored)))
        (runtime_new_case runtime (seen set.now.stored) set.now.call.now.attributes (deletes (reading set.now))))
        (descriptor_case set.now.front))
        (size_case set.now.call.now.name set.now.payload.now) }
{
    hidden_case(runtime, set.stored)
        .or(volatile_case(runtime, set.stored))
        .or(runtime_new_case(runtime, set.stored, set.call.attributes, set.deletes()))
        .or(descriptor_case(set.front))
        .or(size_case(&set.call.name, set.payload))
}
