use crate::Plain;
use std::alloc::Global;
use std::process::Abort;
use std::test::Fail;
use var_types::{
    Bytes, Call, GetCall, GetReply, Guid, NameFault, NextCall, NextReply, Reply, SetCall,
    SetReason, SetReply, Units, Verdict,
};

const VENDOR: Guid = Guid { bytes: [7; 16] };

/// 8be4df61-93ca-11d2-aa0d-00e098032b8c.
const LOWER: Guid = Guid {
    bytes: [
        0x61, 0xdf, 0xe4, 0x8b, 0xca, 0x93, 0xd2, 0x11, 0xaa, 0x0d, 0x00, 0xe0, 0x98, 0x03, 0x2b,
        0x8c,
    ],
};

/// 414e6bdd-e47b-47cc-b244-bb61020cf516, whose text is below the other's and whose stored bytes are above.
const UPPER: Guid = Guid {
    bytes: [
        0xdd, 0x6b, 0x4e, 0x41, 0x7b, 0xe4, 0xcc, 0x47, 0xb2, 0x44, 0xbb, 0x61, 0x02, 0x0c, 0xf5,
        0x16,
    ],
};

const A: u16 = 65;

const B: u16 = 66;

const C: u16 = 67;

const Z: u16 = 90;

/// Attributes of a non-volatile and of a volatile variable.
const KEPT: u32 = 7;

const LOST: u32 = 6;

/// What a set came to.
#[derive(Clone, Copy, Debug, PartialEq, Eq)]
enum Outcome {
    Changed,
    Same,
    Refused(SetReason),
    OutOfMemory,
    OfAnotherKind,
}

fn outcome_of(reply: &Reply) -> Outcome {
    match reply {
        Reply::Set(SetReply::Ok) => Outcome::Changed,
        Reply::Set(SetReply::Same) => Outcome::Same,
        Reply::Set(SetReply::Refused(reason)) => Outcome::Refused(*reason),
        Reply::Set(SetReply::OutOfMemory) => Outcome::OutOfMemory,
        _ => Outcome::OfAnotherKind,
    }
}

/// A set of `size` equal bytes under a vendor's name.
fn set(
    service: &mut Plain,
    alloc: Global,
    (guid, name): (Guid, &[u16]),
    attributes: u32,
    size: usize,
) -> Result<Outcome, Fail> {
    let call = Call::Set(SetCall {
        guid,
        name: Units::new(alloc, name)?,
        attributes,
        bytes: Bytes::from_vec(vec![in alloc; 9; size]?),
        verdict: Verdict::Good,
    });
    Ok(outcome_of(&service.step(&call)))
}

fn get(service: &mut Plain, alloc: Global, name: &[u16], room: u32) -> Result<Reply, Fail> {
    let call = Call::Get(GetCall {
        guid: VENDOR,
        name: Units::new(alloc, name)?,
        room,
    });
    Ok(service.step(&call))
}

fn next(
    service: &mut Plain,
    alloc: Global,
    (guid, name): (Guid, &[u16]),
    room: u32,
) -> Result<Reply, Fail> {
    let call = Call::Next(NextCall {
        guid,
        name: Units::new(alloc, name)?,
        room,
    });
    Ok(service.step(&call))
}

/// A service with three variables, which were set from the last to the first.
fn three_variables(alloc: Global) -> Result<Plain, Fail> {
    let mut service = Plain::new(alloc, 9);
    for (guid, unit) in [(UPPER, Z), (LOWER, B), (LOWER, A)] {
        set(&mut service, alloc, (guid, &[unit]), LOST, 1)?;
    }
    Ok(service)
}

fn is_no_such(reply: &Reply) -> bool {
    matches!(reply, Reply::Next(NextReply::NoSuch))
}

fn is_not_found(reply: &Reply) -> bool {
    matches!(reply, Reply::Get(GetReply::NotFound))
}

/// Sets that a new service answers one after the other, each with its name, attributes and size, and how many changes they make.
#[derive(Clone, Copy)]
struct Sets<'a> {
    limit: u64,
    sets: &'a [(&'a [u16], u32, usize, Outcome)],
    made: u64,
}

fn answers(rt: &impl Abort, alloc: Global, want: &Sets) -> Result<(), Fail> {
    let mut service = Plain::new(alloc, want.limit);
    for (name, attributes, size, outcome) in want.sets {
        let have = set(&mut service, alloc, (VENDOR, name), *attributes, *size)?;
        assert_eq!(rt; have, *outcome, "{attributes} {size}");
    }
    assert_eq!(rt; service.made(), want.made);
    Ok(())
}

#[test]
fn sets_are_answered_by_the_first_case(rt: HostRuntime) -> Result<(), Fail> {
    let name = |fault| Outcome::Refused(SetReason::Name(fault));
    let differ = |stored, asked| Outcome::Refused(SetReason::AttributesDiffer { stored, asked });
    let missing = Outcome::Refused(SetReason::Missing);
    let large = SetReason::Size {
        have: 33_793,
        limit: 33_792,
    };
    for want in [
        Sets {
            limit: 9,
            sets: &[
                (&[], LOST, 1, name(NameFault::Empty)),
                (&[A; 513], LOST, 1, name(NameFault::TooLong { units: 513 })),
                (&[A, 0, B], LOST, 1, name(NameFault::InnerNul { at: 1 })),
                (&[A], LOST, 33_729, Outcome::Refused(large)),
                (&[A], LOST, 33_728, Outcome::Changed),
            ],
            made: 1,
        },
        Sets {
            limit: 9,
            sets: &[
                (&[A], KEPT, 3, Outcome::Changed),
                (&[A], KEPT, 3, Outcome::Same),
                (&[A], KEPT, 4, Outcome::Changed),
            ],
            made: 2,
        },
        Sets {
            limit: 9,
            sets: &[
                (&[A], LOST, 0, missing),
                (&[A], 0, 3, missing),
                (&[A], LOST, 2, Outcome::Changed),
                (&[A], KEPT, 0, differ(LOST, KEPT)),
                (&[A], LOST, 0, Outcome::Changed),
                (&[A], LOST, 2, Outcome::Changed),
                (&[A], 0, 3, Outcome::Changed),
                (&[A], 0, 0, missing),
            ],
            made: 4,
        },
    ] {
        answers(&rt, rt.alloc(), &want)?;
    }
    Ok(())
}

#[test]
fn stores_and_the_history_are_bounded(rt: HostRuntime) -> Result<(), Fail> {
    let room = |need, have| Outcome::Refused(SetReason::Room { need, have });
    let history = |made| Outcome::Refused(SetReason::HistoryFull { made });
    for want in [
        Sets {
            limit: 9,
            sets: &[
                (&[A], LOST, 30_000, Outcome::Changed),
                (&[B], LOST, 30_000, Outcome::Changed),
                (&[C], LOST, 5_400, room(65_592, 65_508)),
            ],
            made: 2,
        },
        Sets {
            limit: 9,
            sets: &[
                (&[A], KEPT, 33_728, Outcome::Changed),
                (&[B], KEPT, 23_388, Outcome::Changed),
                (&[B], KEPT, 23_389, room(57_248, 57_244)),
                (&[B], KEPT, 23_385, Outcome::Changed),
                (&[A], KEPT, 33_727, Outcome::Changed),
                (&[C], KEPT, 1, room(57_312, 57_244)),
                (&[C], LOST, 1, Outcome::Changed),
            ],
            made: 5,
        },
        Sets {
            limit: 2,
            sets: &[
                (&[A], KEPT, 33_728, Outcome::Changed),
                (&[B], KEPT, 23_388, Outcome::Changed),
                (&[B], KEPT, 23_389, room(57_248, 57_244)),
                (&[B], KEPT, 23_387, history(2)),
                (&[A], KEPT, 0, history(2)),
            ],
            made: 2,
        },
    ] {
        answers(&rt, rt.alloc(), &want)?;
    }
    Ok(())
}

#[test]
fn sets_are_read_back(rt: HostRuntime) -> Result<(), Fail> {
    let alloc = rt.alloc();
    for size in [3, 33_728] {
        let mut service = Plain::new(alloc, 9);
        assert!(rt; is_not_found(&get(&mut service, alloc, &[A], size)?));
        set(&mut service, alloc, (VENDOR, &[A]), KEPT, size as usize)?;
        match get(&mut service, alloc, &[A], size)? {
            Reply::Get(GetReply::Ok { attributes, bytes }) => {
                assert_eq!(rt; attributes, KEPT);
                assert_eq!(rt;
                    bytes.as_slice(),
                    vec![in alloc; 9; size as usize]?.as_slice()
                );
            }
            other => panic!(rt; "{other:?}"),
        }
        match get(&mut service, alloc, &[A], size - 1)? {
            Reply::Get(GetReply::TooSmall { attributes, needed }) => {
                assert_eq!(rt; (attributes, needed), (KEPT, size));
            }
            other => panic!(rt; "{other:?}"),
        }
        for name in [[].as_slice(), &[A; 513], &[A, 0, B], &[B]] {
            assert!(rt; is_not_found(&get(&mut service, alloc, name, size)?));
        }
    }
    Ok(())
}

#[test]
fn a_walk_answers_each_key_in_order(rt: HostRuntime) -> Result<(), Fail> {
    let alloc = rt.alloc();
    let mut service = three_variables(alloc)?;
    let steps = [
        ((UPPER, [].as_slice()), (LOWER, A)),
        ((LOWER, [A].as_slice()), (LOWER, B)),
        ((LOWER, [B].as_slice()), (UPPER, Z)),
    ];
    for (from, (guid, unit)) in steps {
        match next(&mut service, alloc, from, 4)? {
            Reply::Next(NextReply::Ok { key }) => {
                assert_eq!(rt; key.guid, guid);
                assert_eq!(rt; key.name.as_slice(), [unit].as_slice());
            }
            other => panic!(rt; "{other:?}"),
        }
    }
    let last = next(&mut service, alloc, (UPPER, &[Z]), 4)?;
    assert!(rt; matches!(last, Reply::Next(NextReply::End)));
    for name in [[C].as_slice(), &[A; 513], &[A, 0, B]] {
        assert!(rt; is_no_such(&next(&mut service, alloc, (LOWER, name), 9)?));
    }
    assert!(rt; is_no_such(&next(&mut service, alloc, (UPPER, &[A]), 9)?));
    Ok(())
}

#[test]
fn a_name_must_fit(rt: HostRuntime) -> Result<(), Fail> {
    let alloc = rt.alloc();
    for (name, size) in [([A].as_slice(), 4), (&[A; 512], 1_026)] {
        let mut service = Plain::new(alloc, 9);
        set(&mut service, alloc, (VENDOR, name), LOST, 1)?;
        match next(&mut service, alloc, (VENDOR, &[]), size)? {
            Reply::Next(NextReply::Ok { key }) => assert_eq!(rt; key.name.as_slice(), name),
            other => panic!(rt; "{other:?}"),
        }
        match next(&mut service, alloc, (VENDOR, &[]), size - 1)? {
            Reply::Next(NextReply::TooSmall { needed }) => assert_eq!(rt; needed, size),
            other => panic!(rt; "{other:?}"),
        }
    }
    Ok(())
}

#[test]
fn a_walk_leaves_out_what_was_deleted(rt: HostRuntime) -> Result<(), Fail> {
    let alloc = rt.alloc();
    let mut service = three_variables(alloc)?;
    assert_eq!(rt;
        set(&mut service, alloc, (LOWER, &[A]), 0, 0)?,
        Outcome::Changed
    );
    assert!(rt; is_no_such(&next(&mut service, alloc, (LOWER, &[A]), 9)?));
    match next(&mut service, alloc, (LOWER, &[]), 9)? {
        Reply::Next(NextReply::Ok { key }) => assert_eq!(rt; key.name.as_slice(), [B].as_slice()),
        other => panic!(rt; "{other:?}"),
    }
    Ok(())
}
