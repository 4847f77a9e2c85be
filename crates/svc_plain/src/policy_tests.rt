//! Policies, as the steps of one service.
use crate::Plain;
use std::alloc::Global;
use std::test::Fail;
use var_types::{
    Bytes, Call, EntryFault, Guid, PolicyCall, PolicyReason, PolicyReply, Reply, Rule, SetCall,
    SetReason, SetReply, Units, Verdict,
};

const VENDOR: Guid = Guid { bytes: [7; 16] };

/// `D` is locked once the variable `S` of the same namespace is the byte 1.
const ENTRY: [u8; 70] = [
    0, 0, 1, 0, 70, 0, 66, 0, 7, 7, 7, 7, 7, 7, 7, 7, 7, 7, 7, 7, 7, 7, 7, 7, 0, 0, 0, 0, 0xFF,
    0xFF, 0xFF, 0xFF, 0, 0, 0, 0, 0, 0, 0, 0, 3, 0, 0, 0, 7, 7, 7, 7, 7, 7, 7, 7, 7, 7, 7, 7, 7, 7,
    7, 7, 1, 0, 0x53, 0, 0, 0, 0x44, 0, 0, 0,
];

const D: u16 = 0x44;

const S: u16 = 0x53;

#[derive(Clone, Copy, Debug, PartialEq, Eq)]
enum Outcome {
    Changed,
    Refused(SetReason),
    Other,
}

fn set(service: &mut Plain, alloc: Global, unit: u16, bytes: &[u8]) -> Result<Outcome, Fail> {
    let call = Call::Set(SetCall {
        guid: VENDOR,
        name: Units::new(alloc, &[unit])?,
        attributes: 6,
        bytes: Bytes::copy(alloc, bytes)?,
        verdict: Verdict::Good,
    });
    Ok(match service.step(&call) {
        Reply::Set(SetReply::Ok) => Outcome::Changed,
        Reply::Set(SetReply::Refused(reason)) => Outcome::Refused(reason),
        _ => Outcome::Other,
    })
}

fn register(alloc: Global, entry: &[u8]) -> Result<Call, Fail> {
    let bytes = Bytes::copy(alloc, entry)?;
    Ok(Call::Policy(PolicyCall::Register(bytes)))
}

/// Why a call about the policies is refused, where it is.
fn refusal(service: &mut Plain, call: &Call) -> Option<PolicyReason> {
    match service.step(call) {
        Reply::Policy(PolicyReply::Refused(reason)) => Some(reason),
        _ => None,
    }
}

#[test]
fn a_lock_on_state_needs_exactly_one_byte(rt: HostRuntime) -> Result<(), Fail> {
    let alloc = rt.alloc();
    let mut service = Plain::new(alloc, 100);
    let entry = register(alloc, &ENTRY)?;
    assert_eq!(rt; refusal(&mut service, &entry), None);
    let place = 0;
    let rule = Rule::LockOnState;
    let denied = Outcome::Refused(SetReason::Denied { place, rule });
    let changed = Outcome::Changed;
    // A variable, its bytes, and what the set comes to.
    let cases: [(u16, &[u8], Outcome); 10] = [
        (D, &[1], changed),
        (S, &[2], changed),
        (D, &[2], changed),
        (S, &[1], changed),
        (D, &[3], denied),
        (D, &[], denied),
        (S, &[1, 1], changed),
        (D, &[3], changed),
        (S, &[], changed),
        (D, &[], changed),
    ];
    for (unit, bytes, want) in cases {
        let have = set(&mut service, alloc, unit, bytes)?;
        assert_eq!(rt; have, want);
    }
    Ok(())
}

#[test]
fn a_full_history_comes_behind_the_tables_refusals(rt: HostRuntime) -> Result<(), Fail> {
    let alloc = rt.alloc();
    let mut service = Plain::new(alloc, 1);
    let entry = register(alloc, &ENTRY)?;
    let short = register(alloc, &[])?;
    let nameless = register(alloc, &ENTRY[..66])?;
    let lock = Call::Policy(PolicyCall::Lock);
    let disable = Call::Policy(PolicyCall::Disable);
    let full = Some(PolicyReason::HistoryFull { made: 1 });
    let already = Some(PolicyReason::Already { place: 0 });
    let size = Some(PolicyReason::Entry(EntryFault::Size));
    let none = Some(PolicyReason::NoEntry { entries: 1 });
    let cases = [
        (&entry, None),
        (&entry, already),
        (&short, size),
        (&nameless, size),
        (&lock, full),
        (&disable, full),
        (&Call::Policy(PolicyCall::At(1)), none),
        (&Call::Policy(PolicyCall::At(0)), None),
        (&Call::Policy(PolicyCall::Enabled), None),
    ];
    for (call, want) in cases {
        assert_eq!(rt; refusal(&mut service, call), want);
    }
    Ok(())
}
