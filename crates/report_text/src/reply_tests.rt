//! The text of each reason for which a set is refused, of the end of the boot phase, and of each route.
use crate::replies::write_reply;
use crate::report::write_route;
use std::test::Fail;
use var_types::{
    Bytes, EntryFault, ExitReply, NameFault, PolicyReason, PolicyReply, Reply, Route, Rule,
    SetReason, SetReply, Stamp, TextBuffer,
};

const STORED: Stamp = Stamp {
    bytes: [0xEA, 0x07, 6, 1, 0x0F, 0, 0xFF, 0, 0, 0, 0, 0, 0, 0, 0, 0],
};

const NONE: Stamp = Stamp { bytes: [0; 16] };

const REASONS: [(SetReason, &str); 18] = [
    (
        SetReason::Name(NameFault::Empty),
        "INVALID_PARAMETER name empty",
    ),
    (
        SetReason::Name(NameFault::TooLong { units: 513 }),
        "INVALID_PARAMETER name long 513",
    ),
    (
        SetReason::Name(NameFault::InnerNul { at: 511 }),
        "INVALID_PARAMETER name nul 511",
    ),
    (
        SetReason::Unsupported { bits: 0x98 },
        "UNSUPPORTED bits 0x00000098",
    ),
    (
        SetReason::Unknown { bits: 0xFFFF_FF00 },
        "INVALID_PARAMETER bits 0xffffff00",
    ),
    (
        SetReason::RuntimeWithoutBoot,
        "INVALID_PARAMETER runtime-without-boot",
    ),
    (SetReason::Hidden, "INVALID_PARAMETER hidden"),
    (SetReason::VolatileAtRuntime, "WRITE_PROTECTED volatile"),
    (
        SetReason::RuntimeNeedsNonVolatile,
        "INVALID_PARAMETER runtime-needs-non-volatile",
    ),
    (
        SetReason::Descriptor { at: 22 },
        "SECURITY_VIOLATION descriptor 22",
    ),
    (
        SetReason::Size {
            have: 33_793,
            limit: 33_792,
        },
        "INVALID_PARAMETER size 33793 33792",
    ),
    (SetReason::Missing, "NOT_FOUND missing"),
    (
        SetReason::NeedsAuthentication,
        "WRITE_PROTECTED authentication",
    ),
    (
        SetReason::AttributesDiffer {
            stored: 7,
            asked: 3,
        },
        "INVALID_PARAMETER attributes 0x00000007 0x00000003",
    ),
    (SetReason::Verdict, "SECURITY_VIOLATION verdict"),
    (
        SetReason::Stamp {
            stored: STORED,
            new: NONE,
        },
        "SECURITY_VIOLATION stamp ea0706010f00ff000000000000000000 00000000000000000000000000000000",
    ),
    (
        SetReason::AppendSize {
            have: 33_794,
            limit: 33_792,
        },
        "INVALID_PARAMETER append-size 33794 33792",
    ),
    (
        SetReason::HistoryFull { made: 4 },
        "OUT_OF_RESOURCES history 4",
    ),
];

const DENIALS: [(Rule, &str); 7] = [
    (Rule::MinSize, "INVALID_PARAMETER denied 3 min-size"),
    (Rule::MaxSize, "INVALID_PARAMETER denied 3 max-size"),
    (Rule::Must, "INVALID_PARAMETER denied 3 must"),
    (Rule::Cant, "INVALID_PARAMETER denied 3 cant"),
    (Rule::LockNow, "WRITE_PROTECTED denied 3 lock-now"),
    (
        Rule::LockOnCreate,
        "WRITE_PROTECTED denied 3 lock-on-create",
    ),
    (Rule::LockOnState, "WRITE_PROTECTED denied 3 lock-on-state"),
];

const EXITS: [(ExitReply, &str); 3] = [
    (ExitReply::Ok, "SUCCESS"),
    (ExitReply::Same, "SUCCESS same"),
    (
        ExitReply::HistoryFull { made: 12 },
        "OUT_OF_RESOURCES history 12",
    ),
];

const ROUTES: [(Route, &str); 6] = [
    (Route::Plain, "-"),
    (Route::Cache, "cache"),
    (Route::Merged { made: 12, held: 3 }, "merged 12 3"),
    (Route::Writer { holder: 255 }, "writer 255"),
    (Route::Flushed, "flushed"),
    (Route::Deferred { holder: 8 }, "deferred 8"),
];

const POLICY_REASONS: [(PolicyReason, &str); 16] = [
    (PolicyReason::Locked, "WRITE_PROTECTED locked"),
    (
        PolicyReason::Entry(EntryFault::Size),
        "INVALID_PARAMETER entry size",
    ),
    (
        PolicyReason::Entry(EntryFault::Version),
        "INVALID_PARAMETER entry version",
    ),
    (
        PolicyReason::Entry(EntryFault::LockType { value: 4 }),
        "INVALID_PARAMETER entry lock-type 4",
    ),
    (
        PolicyReason::Entry(EntryFault::NameForm),
        "INVALID_PARAMETER entry name",
    ),
    (
        PolicyReason::Entry(EntryFault::Offset),
        "INVALID_PARAMETER entry offset",
    ),
    (
        PolicyReason::Entry(EntryFault::Wildcards { count: 255 }),
        "INVALID_PARAMETER entry wildcards 255",
    ),
    (
        PolicyReason::Entry(EntryFault::MinAboveMax),
        "INVALID_PARAMETER entry min-above-max",
    ),
    (PolicyReason::Entry(EntryFault::OutOfMemory), "NO_MEMORY"),
    (
        PolicyReason::Already { place: 3 },
        "ALREADY_STARTED entry 3",
    ),
    (
        PolicyReason::TableFull { entries: 1024 },
        "OUT_OF_RESOURCES table 1024",
    ),
    (
        PolicyReason::HistoryFull { made: 4 },
        "OUT_OF_RESOURCES history 4",
    ),
    (PolicyReason::AlreadyOff, "ALREADY_STARTED off"),
    (PolicyReason::NoEntry { entries: 0 }, "NOT_FOUND entries 0"),
    (
        PolicyReason::NoEntry { entries: 1024 },
        "NOT_FOUND entries 1024",
    ),
    (PolicyReason::OutOfMemory, "NO_MEMORY"),
];

fn prints(rt: &HostRuntime, reply: &Reply, want: &str) -> Result<bool, Fail> {
    let mut text = TextBuffer::new(rt.alloc());
    write_reply(reply, &mut text);
    Ok(text.finish()?.as_slice() == want.as_bytes())
}

#[test]
fn replies_have_their_texts(rt: HostRuntime) -> Result<(), Fail> {
    for (reason, want) in REASONS {
        let reply = Reply::Set(SetReply::Refused(reason));
        assert!(rt; prints(&rt, &reply, want)?, "{want}");
    }
    for (rule, want) in DENIALS {
        let reply = Reply::Set(SetReply::Refused(SetReason::Denied { place: 3, rule }));
        assert!(rt; prints(&rt, &reply, want)?, "{want}");
    }
    let failed = Reply::Set(SetReply::Device);
    assert!(rt; prints(&rt, &failed, "DEVICE_ERROR")?);
    for (answer, want) in EXITS {
        assert!(rt; prints(&rt, &Reply::Exit(answer), want)?, "{want}");
    }
    Ok(())
}

#[test]
fn routes_have_their_texts(rt: HostRuntime) -> Result<(), Fail> {
    for (route, want) in ROUTES {
        let mut text = TextBuffer::new(rt.alloc());
        write_route(route, &mut text);
        assert!(rt; text.finish()?.as_slice() == want.as_bytes(), "{want}");
    }
    Ok(())
}

#[test]
fn replies_about_policies_have_their_texts(rt: HostRuntime) -> Result<(), Fail> {
    for (reason, want) in POLICY_REASONS {
        let reply = Reply::Policy(PolicyReply::Refused(reason));
        assert!(rt; prints(&rt, &reply, want)?, "{want}");
    }
    let bytes = Bytes::copy(rt.alloc(), &[0, 0xFF])?;
    let cases = [
        (PolicyReply::Ok, "SUCCESS"),
        (PolicyReply::On, "SUCCESS on"),
        (PolicyReply::Off, "SUCCESS off"),
        (PolicyReply::Entry(bytes), "SUCCESS 00ff"),
        (PolicyReply::OutOfMemory, "NO_MEMORY"),
    ];
    for (reply, want) in cases {
        assert!(rt; prints(&rt, &Reply::Policy(reply), want)?, "{want}");
    }
    Ok(())
}
