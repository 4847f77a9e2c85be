//! Appends, the runtime phase and time-based sets, each as the steps of one service.
use crate::Plain;
use std::alloc::Global;
use std::process::Abort;
use std::test::Fail;
use var_types::{
    Bytes, Call, ExitReply, GetCall, GetReply, Guid, NextCall, NextReply, Reply, SetCall,
    SetReason, SetReply, Stamp, Units, Verdict,
};

const VENDOR: Guid = Guid { bytes: [7; 16] };

/// Attributes: NV 1, BS 2, RT 4, TIME 0x20, APPEND 0x40.
const KEPT: u32 = 7;

const LOST: u32 = 6;

const BOOT: u32 = 3;

const TIMED: u32 = 0x27;

const APPEND: u32 = 0x40;

/// What a time-based set hands in before its payload: Year 2026 and this month, dwLength 24, wRevision 0x0200, wCertificateType 0x0EF1, and the
/// GUID of PKCS #7.
const fn descriptor(month: u8) -> [u8; 40] {
    [
        0xEA, 0x07, month, 1, 0, 0, 0, 0, 0, 0, 0, 0, 0, 0, 0, 0, 24, 0, 0, 0, 0, 2, 0xF1, 0x0E,
        0x9D, 0xD2, 0xAF, 0x4A, 0xDF, 0x68, 0xEE, 0x49, 0x8A, 0xA9, 0x34, 0x7D, 0x37, 0x56, 0x65,
        0xA7,
    ]
}

const fn stamp(month: u8) -> Stamp {
    Stamp {
        bytes: [0xEA, 0x07, month, 1, 0, 0, 0, 0, 0, 0, 0, 0, 0, 0, 0, 0],
    }
}

/// A call and its answer.
#[derive(Clone, Copy)]
enum Step<'a> {
    /// A set of these bytes behind a descriptor of this month, where there is one.
    Set(u16, u32, Option<u8>, &'a [u8], Answer),
    /// A set with a bad verdict.
    Bad(u16, u32, u8, Answer),
    /// A get, and the data that it answers.
    Get(u16, Option<&'a [u8]>),
    /// The name behind this one, or the first one behind none.
    Next(u16, Option<u16>),
    Exit(ExitReply),
}

#[derive(Clone, Copy, Debug, PartialEq, Eq)]
enum Answer {
    Changed,
    Same,
    Refused(SetReason),
    NoMemory,
}

fn units(alloc: Global, unit: u16) -> Result<Units, Fail> {
    if unit == 0 {
        return Ok(Units::new(alloc, &[])?);
    }
    Ok(Units::new(alloc, &[unit])?)
}

fn set(
    service: &mut Plain,
    alloc: Global,
    unit: u16,
    attributes: u32,
    month: Option<u8>,
    payload: &[u8],
    verdict: Verdict,
) -> Result<Option<Answer>, Fail> {
    let mut bytes = Bytes::new(alloc);
    if let Some(month) = month {
        bytes.append(&descriptor(month))?;
    }
    bytes.append(payload)?;
    let call = Call::Set(SetCall {
        guid: VENDOR,
        name: units(alloc, unit)?,
        attributes,
        bytes,
        verdict,
    });
    Ok(match service.step(&call) {
        Reply::Set(SetReply::Ok) => Some(Answer::Changed),
        Reply::Set(SetReply::Same) => Some(Answer::Same),
        Reply::Set(SetReply::Refused(reason)) => Some(Answer::Refused(reason)),
        Reply::Set(SetReply::OutOfMemory) => Some(Answer::NoMemory),
        _ => None,
    })
}

/// Whether a get answers these data.
fn gets(service: &mut Plain, alloc: Global, unit: u16, want: Option<&[u8]>) -> Result<bool, Fail> {
    let call = Call::Get(GetCall {
        guid: VENDOR,
        name: units(alloc, unit)?,
        room: 65_536,
    });
    Ok(match (service.step(&call), want) {
        (Reply::Get(GetReply::NotFound), None) => true,
        (Reply::Get(GetReply::Ok { bytes, .. }), Some(want)) => bytes.as_slice() == want,
        _ => false,
    })
}

/// Whether a next answers this name.
fn goes_on(service: &mut Plain, alloc: Global, unit: u16, want: Option<u16>) -> Result<bool, Fail> {
    let call = Call::Next(NextCall {
        guid: VENDOR,
        name: units(alloc, unit)?,
        room: 64,
    });
    Ok(match (service.step(&call), want) {
        (Reply::Next(NextReply::End), None) => true,
        (Reply::Next(NextReply::Ok { key }), Some(want)) => {
            key.name.as_slice() == [want].as_slice()
        }
        _ => false,
    })
}

/// Whether a step is answered as it says.
fn steps(service: &mut Plain, alloc: Global, step: &Step) -> Result<bool, Fail> {
    match *step {
        Step::Set(unit, attributes, month, payload, answer) => {
            let have = set(
                service,
                alloc,
                unit,
                attributes,
                month,
                payload,
                Verdict::Good,
            )?;
            Ok(have == Some(answer))
        }
        Step::Bad(unit, attributes, month, answer) => {
            let month = Some(month);
            let have = set(service, alloc, unit, attributes, month, &[1], Verdict::Bad)?;
            Ok(have == Some(answer))
        }
        Step::Get(unit, want) => gets(service, alloc, unit, want),
        Step::Next(unit, want) => goes_on(service, alloc, unit, want),
        Step::Exit(answer) => match service.step(&Call::ExitBoot) {
            Reply::Exit(have) => Ok(have == answer),
            _ => Ok(false),
        },
    }
}

fn answers(rt: &impl Abort, alloc: Global, limit: u64, table: &[Step]) -> Result<(), Fail> {
    let mut service = Plain::new(alloc, limit);
    for (number, step) in table.iter().enumerate() {
        assert!(rt; steps(&mut service, alloc, step)?, "step {number}");
    }
    Ok(())
}

const A: u16 = 65;

const B: u16 = 66;

const C: u16 = 67;

const D: u16 = 68;

#[test]
fn appends_join(rt: HostRuntime) -> Result<(), Fail> {
    let large = vec![in rt.alloc(); 9; 33_727]?;
    let missing = Answer::Refused(SetReason::Missing);
    let differ = Answer::Refused(SetReason::AttributesDiffer {
        stored: KEPT,
        asked: LOST,
    });
    let size = |have| {
        Answer::Refused(SetReason::AppendSize {
            have,
            limit: 33_792,
        })
    };
    answers(
        &rt,
        rt.alloc(),
        9,
        &[
            Step::Set(A, KEPT | APPEND, None, &[], missing),
            Step::Set(A, KEPT | APPEND, None, &[1, 2], Answer::Changed),
            Step::Get(A, Some(&[1, 2])),
            Step::Set(A, KEPT | APPEND, None, &[], Answer::Same),
            Step::Set(A, KEPT | APPEND, None, &[3], Answer::Changed),
            Step::Get(A, Some(&[1, 2, 3])),
            Step::Set(A, KEPT, None, &[1, 2, 3], Answer::Same),
            Step::Set(A, LOST | APPEND, None, &[4], differ),
            Step::Set(A, KEPT | APPEND, None, &large, size(33_794)),
            Step::Set(A, KEPT, None, &[5], Answer::Changed),
            Step::Set(A, KEPT | APPEND, None, &large, Answer::Changed),
            Step::Set(A, KEPT | APPEND, None, &[6], size(33_793)),
            Step::Set(A, KEPT, None, &[], Answer::Changed),
            Step::Get(A, None),
        ],
    )
}

#[test]
fn the_end_of_the_boot_phase_hides_and_protects(rt: HostRuntime) -> Result<(), Fail> {
    let refused = Answer::Refused;
    answers(
        &rt,
        rt.alloc(),
        9,
        &[
            Step::Set(A, KEPT, None, &[1], Answer::Changed),
            Step::Set(B, BOOT, None, &[2], Answer::Changed),
            Step::Set(C, LOST, None, &[3], Answer::Changed),
            Step::Next(A, Some(B)),
            Step::Exit(ExitReply::Ok),
            Step::Exit(ExitReply::Same),
            Step::Get(A, Some(&[1])),
            Step::Get(B, None),
            Step::Get(C, Some(&[3])),
            Step::Next(0, Some(A)),
            Step::Next(A, Some(C)),
            Step::Next(C, None),
            Step::Set(B, BOOT, None, &[4], refused(SetReason::Hidden)),
            Step::Set(C, LOST, None, &[5], refused(SetReason::VolatileAtRuntime)),
            Step::Set(C, 0, None, &[], refused(SetReason::VolatileAtRuntime)),
            Step::Set(
                D,
                LOST,
                None,
                &[6],
                refused(SetReason::RuntimeNeedsNonVolatile),
            ),
            Step::Set(
                D,
                BOOT,
                None,
                &[6],
                refused(SetReason::RuntimeNeedsNonVolatile),
            ),
            Step::Set(D, 0, None, &[], refused(SetReason::Missing)),
            Step::Set(D, KEPT, None, &[6], Answer::Changed),
            Step::Set(A, 0, None, &[], Answer::Changed),
            Step::Next(0, Some(C)),
        ],
    )?;
    answers(
        &rt,
        rt.alloc(),
        1,
        &[
            Step::Set(A, KEPT, None, &[1], Answer::Changed),
            Step::Exit(ExitReply::HistoryFull { made: 1 }),
            Step::Set(A, KEPT, None, &[1], Answer::Same),
        ],
    )
}

#[test]
fn time_based_sets_go_on_in_time(rt: HostRuntime) -> Result<(), Fail> {
    let refused = Answer::Refused;
    let old = |stored, new| {
        Answer::Refused(SetReason::Stamp {
            stored: stamp(stored),
            new: stamp(new),
        })
    };
    answers(
        &rt,
        rt.alloc(),
        9,
        &[
            Step::Set(
                A,
                TIMED,
                None,
                &[1],
                refused(SetReason::Descriptor { at: 0 }),
            ),
            Step::Set(A, TIMED, Some(5), &[1], Answer::Changed),
            Step::Get(A, Some(&[1])),
            Step::Set(A, TIMED, Some(5), &[2], old(5, 5)),
            Step::Set(A, TIMED, Some(4), &[2], old(5, 4)),
            Step::Bad(A, TIMED, 6, refused(SetReason::Verdict)),
            Step::Set(A, KEPT, None, &[2], refused(SetReason::NeedsAuthentication)),
            Step::Set(A, TIMED | APPEND, Some(4), &[2], Answer::Changed),
            Step::Get(A, Some(&[1, 2])),
            Step::Set(A, TIMED, Some(5), &[3], old(5, 5)),
            Step::Set(A, TIMED | APPEND, Some(7), &[3], Answer::Changed),
            Step::Set(A, TIMED, Some(6), &[4], old(7, 6)),
            Step::Set(A, TIMED, Some(8), &[], Answer::Changed),
            Step::Get(A, None),
        ],
    )
}
