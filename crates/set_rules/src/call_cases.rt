//! The cases of the set rule that read the call alone.
ghost use Rattle.std.specs.Prelude.{◌≡◌};
ghost use Rattle.std.specs.Option.{option_or};
ghost use Rattle.var_types.specs.Name.{name_check};
ghost use Rattle.var_types.specs.SetCases.{name_case, runtime_without_boot_case, unknown_case, unsupported_case};

use crate::refuse_if::refuse_if;
use var_types::attributes::{
    AUTHENTICATED_WRITE_ACCESS, BOOTSERVICE_ACCESS, ENHANCED_AUTHENTICATED_ACCESS,
    HARDWARE_ERROR_RECORD, RUNTIME_ACCESS, has,
};
use var_types::{Decision, NameFault, SetCall, SetReason, check_name};

/// The bits of writes that this service doesn't do.
const UNSUPPORTED: u32 = HARDWARE_ERROR_RECORD
    | AUTHENTICATED_WRITE_ACCESS
    | ENHANCED_AUTHENTICATED_ACCESS;

/// The bits that no attribute has.
const UNKNOWN: u32 = 0xFFFF_FF00;

#[tactic(auto, unfolding(var_types::specs::SetCases::name_case))]
fn name_case(named: Result<(), NameFault>) -> Option<Decision>
    ensures { result ≡ name_case named }
{
    match named {
        Ok(()) => None,
        Err(fault) => Some(Decision::Refuse(SetReason::Name(fault))),
    }
}

#[tactic(auto, unfolding(var_types::specs::SetCases::unsupported_case))]
fn unsupported_case(attributes: u32) -> Option<Decision>
    ensures { result ≡ unsupported_case attributes }
{
    let bits = attributes & UNSUPPORTED;
    refuse_if(
        has(attributes, UNSUPPORTED),
        SetReason::Unsupported { bits },
    )
}

#[tactic(auto, unfolding(var_types::specs::SetCases::unknown_case))]
fn unknown_case(attributes: u32) -> Option<Decision>
    ensures { result ≡ unknown_case attributes }
{
    let bits = attributes & UNKNOWN;
    refuse_if(has(attributes, UNKNOWN), SetReason::Unknown { bits })
}

#[tactic(auto, unfolding(var_types::specs::SetCases::runtime_without_boot_case))]
fn runtime_without_boot_case(attributes: u32) -> Option<Decision>
    ensures { result ≡ runtime_without_boot_case attributes }
{
    let holds = has(attributes, RUNTIME_ACCESS) && !has(attributes, BOOTSERVICE_ACCESS);
    refuse_if(holds, SetReason::RuntimeWithoutBoot)
}

/// The first of these cases that holds.
pub(crate) fn call_case(call: &SetCall) -> Option<Decision>
    ensures { result
        ≡ option_or
        (option_or (option_or (name_case (name_check call.now.name)) (unsupported_case call.now.attributes))
        (unknown_case call.now.attributes))
        (runtime_without_boot_case call.now.attributes) }
{
    name_case(check_name(call.name.as_slice()))
        .or(unsupported_case(call.attributes))
        .or(unknown_case(call.attributes))
        .or(runtime_without_boot_case(call.attributes))
}
