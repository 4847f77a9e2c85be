//! The cases of the set rule that read a payload of a size that a record may have, and what is stored.
ghost use Rattle.std.specs.Prelude.{◌≡◌, ◌≤◌, ◌++◌};
ghost use Rattle.std.specs.Option.{option_or};
ghost use Rattle.set_rules.specs.Seen.{reading, seen};
ghost use Rattle.var_types.specs.Reading.{deletes, stamp_of};
ghost use Rattle.var_types.specs.Room.{record_size};
ghost use Rattle.var_types.specs.SetCases.{append_size_case, authentication_case, denied_case, differ_case, is_bad, missing_case, needs_authentication, stamp_case, verdict_case};

use crate::reading::Reading;
use crate::refuse_if::refuse_if;
use crate::view::Stored;
use auth_rules::is_later;
use var_types::attributes::{
    AUTHENTICATED_WRITE_ACCESS, ENHANCED_AUTHENTICATED_ACCESS,
    TIME_BASED_AUTHENTICATED_WRITE_ACCESS, has, has_access, is_append, is_time_based,
    without_append,
};
use var_types::{Decision, Denied, LARGEST_RECORD, SetReason, Stamp, Units, Verdict, record_size};

/// The bits of a variable that only an authenticated write of a kind that isn't done here may change.
const AUTHENTICATED: u32 = AUTHENTICATED_WRITE_ACCESS | ENHANCED_AUTHENTICATED_ACCESS;

#[tactic(auto, unfolding(var_types::specs::SetCases::denied_case))]
pub(crate) fn denied_case(denial: Option<Denied>) -> Option<Decision>
    ensures { result ≡ denied_case denial }
{
    match denial {
        None => None,
        Some(denial) => Some(Decision::Refuse(SetReason::Denied {
            place: denial.place,
            rule: denial.rule,
        })),
    }
}

#[tactic(auto, unfolding(var_types::specs::SetCases::missing_case))]
fn missing_case(stored: Option<Stored>, deletion: bool, payload: &[u8]) -> Option<Decision>
    ensures { result ≡ missing_case (seen stored.entry) deletion payload.now }
{
    let holds = !stored.is_some() && (deletion || payload.is_empty());
    refuse_if(holds, SetReason::Missing)
}

fn needs_authentication(stored: Option<Stored>, attributes: u32) -> bool
    ensures { result ≡ needs_authentication (seen stored.entry) attributes }
{
    match stored {
        None => false,
        Some(stored) => {
            has(stored.attributes, AUTHENTICATED)
                || has(stored.attributes, TIME_BASED_AUTHENTICATED_WRITE_ACCESS)
                    && !is_time_based(attributes)
        }
    }
}

#[tactic(auto, unfolding(var_types::specs::SetCases::authentication_case))]
fn authentication_case(stored: Option<Stored>, attributes: u32) -> Option<Decision>
    ensures { result ≡ authentication_case (seen stored.entry) attributes }
{
    let holds = needs_authentication(stored, attributes);
    refuse_if(holds, SetReason::NeedsAuthentication)
}

#[tactic(auto, unfolding(var_types::specs::SetCases::differ_case))]
fn differ_case(stored: Option<Stored>, attributes: u32) -> Option<Decision>
    ensures { result ≡ differ_case (seen stored.entry) attributes }
{
    match stored {
        None => None,
        Some(stored) => {
            let stored = stored.attributes;
            let asked = without_append(attributes);
            let holds = has_access(attributes) && asked != stored;
            refuse_if(holds, SetReason::AttributesDiffer { stored, asked })
        }
    }
}

fn is_bad(verdict: Verdict) -> bool
    ensures { result ≡ is_bad verdict }
{
    match verdict {
        Verdict::Good => false,
        Verdict::Bad => true,
    }
}

#[tactic(auto, unfolding(var_types::specs::SetCases::verdict_case))]
fn verdict_case(attributes: u32, verdict: Verdict) -> Option<Decision>
    ensures { result ≡ verdict_case attributes verdict }
{
    refuse_if(
        is_time_based(attributes) && is_bad(verdict),
        SetReason::Verdict,
    )
}

#[tactic(auto, unfolding(var_types::specs::SetCases::stamp_case))]
fn stamp_case(attributes: u32, stored: Option<Stored>, new: Stamp) -> Option<Decision>
    ensures { result ≡ stamp_case attributes (seen stored.entry) new }
{
    match stored {
        None => None,
        Some(stored) => {
            let stored = stored.stamp;
            let holds = is_time_based(attributes)
                && !is_append(attributes)
                && !is_later(&new, &stored);
            refuse_if(holds, SetReason::Stamp { stored, new })
        }
    }
}

/// The bytes of a record with this name, these bytes, and a payload behind them.
fn joined_size(name: &Units, bytes: &[u8], payload: &[u8]) -> u64
    requires { record_size name.now payload.now ≤ 33792 }
    ensures { result ≡ record_size name.now (bytes.now ++ payload.now) }
{
    record_size(name, bytes) + payload.len() as u64
}

#[tactic(auto, unfolding(var_types::specs::SetCases::append_size_case))]
fn append_size_case(
    name: &Units,
    attributes: u32,
    deletion: bool,
    stored: Option<Stored>,
    payload: &[u8],
) -> Option<Decision>
    requires { record_size name.now payload.now ≤ 33792 }
    ensures { result ≡ append_size_case name.now attributes deletion (seen stored.entry) payload.now }
{
    match stored {
        None => None,
        Some(stored) => {
            let have = joined_size(name, stored.payload, payload);
            let limit = LARGEST_RECORD;
            let holds = !deletion && is_append(attributes) && have > u64::from(limit);
            refuse_if(holds, SetReason::AppendSize { have, limit })
        }
    }
}

/// The first of these cases that holds.
pub(crate) fn stored_case(set: &Reading) -> Option<Decision>
    requires { record_size set.now.call.now.name set.now.payload.now ≤ 33792 }
    ensures { result
        ≡ option_or
        (option_or
        (option_or
        (option_or
        (option_or
        (missing_case (seen set.now.stored) (deletes (reading set.now)) set.now.payload.now)
        (authentication_case (seen set.now.stored) set.now.call.now.attributes))
        (differ_case (seen set.now.stored) set.now.call.now.attributes))
        (verdict_case set.now.call.now.attributes set.now.call.now.verdict))
        (stamp_case set.now.call.now.attributes (seen set.now.stored) (stamp_of set.now.front)))
        (append_size_case set.now.call.now.name set.now.call.now.attributes (deletes (reading set.now)) (seen set.now.stored)
        set.now.payload.now) }
{
    let attributes = set.call.attributes;
    missing_case(set.stored, set.deletes(), set.payload)
        .or(authentication_case(set.stored, attributes))
        .or(differ_case(set.stored, attributes))
        .or(verdict_case(attributes, set.call.verdict))
        .or(stamp_case(attributes, set.stored, set.stamp()))
        .or(append_size_case(
            &set.call.name,
            attributes,
            set.deletes(),
            set.stored,
            set.payload,
        ))
}
