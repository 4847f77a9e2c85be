use crate::{
    Outlet, Page, Part, Sizes, Word, summary_of, variable_sizes, write_line, write_listing,
    write_summary,
};
use outside::MemSink;
use std::alloc::{AllocError, Global};
use std::test::Fail;
use var_region::Region;
use var_types::{
    Answered, Bytes, Call, GetCall, Guid, OutOfMemory, Put, Reply, Route, SetCall, SetReason,
    SetReply, Stamp, TextBuffer, Units, Verdict,
};

const ADDED: u8 = 0x3F;

const IN_TRANSITION: u8 = 0x3E;

// Where the first record stands.
const FIRST: u32 = 28;

const NO_STAMP: [u8; 16] = [0; 16];

const STAMP: [u8; 16] = [
    0xe7, 0x07, 0x0c, 0x1f, 0x17, 0x3b, 0x3a, 0x00, 0x00, 0xca, 0x9a, 0x3b, 0xc4, 0xff, 0x01, 0x00,
];

const A: &[u8] = &[0x41, 0, 0, 0];

// A record as firmware has it: the variable BootOrder of the global namespace, attributes 7, the bytes 01 00, ADDED.
const RECORD: [u8; 82] = [
    0xaa, 0x55, 0x3f, 0x00, 0x07, 0x00, 0x00, 0x00, 0x00, 0x00, 0x00, 0x00, 0x00, 0x00, 0x00, 0x00,
    0x00, 0x00, 0x00, 0x00, 0x00, 0x00, 0x00, 0x00, 0x00, 0x00, 0x00, 0x00, 0x00, 0x00, 0x00, 0x00,
    0x00, 0x00, 0x00, 0x00, 0x14, 0x00, 0x00, 0x00, 0x02, 0x00, 0x00, 0x00, 0x61, 0xdf, 0xe4, 0x8b,
    0xca, 0x93, 0xd2, 0x11, 0xaa, 0x0d, 0x00, 0xe0, 0x98, 0x03, 0x2b, 0x8c, 0x42, 0x00, 0x6f, 0x00,
    0x6f, 0x00, 0x74, 0x00, 0x4f, 0x00, 0x72, 0x00, 0x64, 0x00, 0x65, 0x00, 0x72, 0x00, 0x00, 0x00,
    0x01, 0x00,
];

// A record of a region: its state, its attributes, the first two bytes of its GUID (the others are 0), its name's bytes with the NUL, its
// stamp, and its data.
#[derive(Drop)]
struct Held(
    u8,
    u8,
    [u8; 2],
    &'static [u8],
    &'static [u8; 16],
    &'static [u8],
);

fn size_of(bytes: &[u8]) -> u32 {
    u32::try_from(bytes.len()).unwrap_or(u32::MAX)
}

fn push(bytes: &mut Vec<u8>, held: &Held) -> Result<(), AllocError> {
    bytes.extend_from_slice(&[
        0xaa, 0x55, held.0, 0, held.1, 0, 0, 0, 0, 0, 0, 0, 0, 0, 0, 0,
    ])?;
    let stamp = held.4;
    bytes.extend_from_slice(stamp)?;
    bytes.extend_from_slice(&[0; 4])?;
    bytes.extend_from_slice(&size_of(held.3).to_le_bytes())?;
    bytes.extend_from_slice(&size_of(held.5).to_le_bytes())?;
    bytes.extend_from_slice(&held.2)?;
    bytes.extend_from_slice(&[0; 14])?;
    bytes.extend_from_slice(held.3)?;
    bytes.extend_from_slice(held.5)?;
    if bytes.len() % 4 != 0 {
        bytes.extend_from_slice(&[0xFF; 4][bytes.len() % 4..])?;
    }
    Ok(())
}

// The bytes of a region of these records, with erased bytes behind them.
fn region_bytes(alloc: Global, records: &[Held]) -> Result<Vec<u8>, AllocError> {
    let mut bytes = Vec::new(alloc);
    bytes.extend_from_slice(&[0; FIRST as usize])?;
    for held in records {
        push(&mut bytes, held)?;
    }
    bytes.extend_from_slice(&[0xFF; 100])?;
    Ok(bytes)
}

fn over(bytes: &[u8], first: u32, non_volatile: bool) -> Option<Region> {
    if first as usize <= bytes.len() && bytes.len() <= 65536 {
        Some(Region::over(bytes, first, non_volatile))
    } else {
        None
    }
}

fn listing_of(alloc: Global, region: &Region) -> Result<Vec<u8>, OutOfMemory> {
    let mut out = TextBuffer::new(alloc);
    write_listing(alloc, region, &mut out)?;
    Ok(out.finish()?.into_vec())
}

// Some records, whether their store is the non-volatile one, and the listing.
struct Case {
    records: &'static [Held],
    non_volatile: bool,
    listing: &'static [u8],
    why: &'static str,
}

const CASES: [Case; 11] = [
    Case {
        records: &[],
        non_volatile: true,
        listing: b"variables 0\nend\n",
        why: "no records",
    },
    Case {
        records: &[
            Held(ADDED, 7, [2, 0], A, &NO_STAMP, &[0xAB]),
            Held(ADDED, 7, [1, 1], A, &NO_STAMP, &[0xCD]),
        ],
        non_volatile: true,
        listing: b"variables 2\n\
            00000101-0000-0000-0000-000000000000 A 0x00000007 - cd\n\
            00000002-0000-0000-0000-000000000000 A 0x00000007 - ab\n\
            end\n",
        why: "in the order of the GUIDs as stored",
    },
    Case {
        records: &[
            Held(ADDED, 7, [1, 0], &[0x00, 1, 0, 0], &NO_STAMP, &[4]),
            Held(ADDED, 7, [1, 0], &[0x42, 0, 0, 0], &NO_STAMP, &[3]),
            Held(ADDED, 7, [1, 0], &[0x41, 0, 0x42, 0, 0, 0], &NO_STAMP, &[2]),
            Held(ADDED, 7, [1, 0], A, &NO_STAMP, &[1]),
        ],
        non_volatile: true,
        listing: b"variables 4\n\
            00000001-0000-0000-0000-000000000000 A 0x00000007 - 01\n\
            00000001-0000-0000-0000-000000000000 AB 0x00000007 - 02\n\
            00000001-0000-0000-0000-000000000000 B 0x00000007 - 03\n\
            00000001-0000-0000-0000-000000000000 %0100 0x00000007 - 04\n\
            end\n",
        why: "under one GUID in the order of the names' units",
    },
    Case {
        records: &[Held(ADDED, 0x27, [1, 0], A, &STAMP, &[])],
        non_volatile: true,
        listing: b"variables 1\n\
            00000001-0000-0000-0000-000000000000 A 0x00000027 e7070c1f173b3a0000ca9a3bc4ff0100 -\n\
            end\n",
        why: "a stamp, and no data",
    },
    Case {
        records: &[
            Held(ADDED, 7, [1, 0], A, &NO_STAMP, &[1]),
            Held(ADDED, 3, [1, 0], A, &STAMP, &[2]),
        ],
        non_volatile: true,
        listing: b"variables 1\n\
            00000001-0000-0000-0000-000000000000 A 0x00000007 - 01\n\
            end\n",
        why: "the first of two that are ADDED",
    },
    Case {
        records: &[
            Held(ADDED, 7, [1, 0], A, &NO_STAMP, &[1]),
            Held(IN_TRANSITION, 7, [1, 0], A, &NO_STAMP, &[2]),
        ],
        non_volatile: true,
        listing: b"variables 1\n\
            00000001-0000-0000-0000-000000000000 A 0x00000007 - 01\n\
            end\n",
        why: "an ADDED one before one in transition",
    },
    Case {
        records: &[
            Held(IN_TRANSITION, 7, [1, 0], A, &NO_STAMP, &[1]),
            Held(ADDED, 7, [1, 0], A, &NO_STAMP, &[2]),
        ],
        non_volatile: true,
        listing: b"variables 1\n\
            00000001-0000-0000-0000-000000000000 A 0x00000007 - 02\n\
            end\n",
        why: "an ADDED one behind one in transition",
    },
    Case {
        records: &[
            Held(IN_TRANSITION, 7, [1, 0], A, &NO_STAMP, &[1]),
            Held(IN_TRANSITION, 7, [1, 0], A, &NO_STAMP, &[2]),
        ],
        non_volatile: true,
        listing: b"variables 1\n\
            00000001-0000-0000-0000-000000000000 A 0x00000007 - 02\n\
            end\n",
        why: "the last of two in transition",
    },
    Case {
        records: &[
            Held(0x3D, 7, [1, 0], A, &NO_STAMP, &[1]),
            Held(ADDED, 7, [1, 0], &[0x42, 0, 0, 0], &NO_STAMP, &[2]),
        ],
        non_volatile: true,
        listing: b"variables 1\n\
            00000001-0000-0000-0000-000000000000 B 0x00000007 - 02\n\
            end\n",
        why: "a deleted one is none",
    },
    Case {
        records: &[Held(ADDED, 6, [1, 0], A, &NO_STAMP, &[1])],
        non_volatile: true,
        listing: b"variables 0\nend\n",
        why: "a volatile one is none of the non-volatile store",
    },
    Case {
        records: &[Held(ADDED, 6, [1, 0], A, &NO_STAMP, &[1])],
        non_volatile: false,
        listing: b"variables 1\n\
            00000001-0000-0000-0000-000000000000 A 0x00000006 - 01\n\
            end\n",
        why: "a volatile one in the volatile store",
    },
];

#[test]
fn variables_are_listed(rt: HostRuntime) -> Result<(), Fail> {
    for case in &CASES {
        let bytes = region_bytes(rt.alloc(), case.records)?;
        let region = over(&bytes, FIRST, case.non_volatile).expect(&rt, "the first is within");
        let listing = listing_of(rt.alloc(), &region)?;
        assert_eq!(rt; listing.as_slice(), case.listing, "{}", case.why);
    }
    let mut bytes = vec![in rt.alloc(); 0xFF; 57344]?;
    for (place, byte) in bytes.iter_mut().skip(100).zip(&RECORD) {
        *place = *byte;
    }
    let region = over(&bytes, 100, true).expect(&rt, "the first is within");
    let listing = listing_of(rt.alloc(), &region)?;
    let want =
        b"variables 1\n8be4df61-93ca-11d2-aa0d-00e098032b8c BootOrder 0x00000007 - 0100\nend\n";
    assert_eq!(rt; listing.as_slice(), want.as_slice());
    Ok(())
}

// The record of the 16-bit unit as a name, which takes 64 bytes: ADDED, with no data.
fn push_unit(bytes: &mut Vec<u8>, unit: u16) -> Result<(), AllocError> {
    let [low, high] = unit.to_le_bytes();
    bytes.extend_from_slice(&[0xaa, 0x55, ADDED, 0, 7])?;
    bytes.extend_from_slice(&[0; 31])?;
    bytes.extend_from_slice(&[4])?;
    bytes.extend_from_slice(&[0; 23])?;
    bytes.extend_from_slice(&[low, high, 0, 0])
}

#[test]
fn a_thousand_variables_are_listed(rt: HostRuntime) -> Result<(), Fail> {
    let alloc = rt.alloc();
    let mut bytes = Vec::new(alloc);
    for i in 0..1000u16 {
        push_unit(&mut bytes, 256 + i % 10 * 100 + i / 10)?;
    }
    assert_eq!(rt; bytes.len(), 64000);
    let region = over(&bytes, 0, true).expect(&rt, "the first is within");
    let listing = listing_of(alloc, &region)?;
    let lines: Vec<&[u8]> = listing.split(|byte| *byte == b'\n').collect(alloc)?;
    assert_eq!(rt; lines.len(), 1003);
    assert_eq!(rt; lines[0], b"variables 1000".as_slice());
    assert_eq!(rt;
        lines[1],
        b"00000000-0000-0000-0000-000000000000 %0100 0x00000007 - -".as_slice()
    );
    for i in 2..1001 {
        assert!(rt; lines[i - 1] < lines[i], "line {i}");
    }
    assert_eq!(rt; lines[1001], b"end".as_slice());
    assert!(rt; lines[1002].is_empty());
    Ok(())
}

#[test]
fn sizes_are_counted(rt: HostRuntime) -> Result<(), Fail> {
    let alloc = rt.alloc();
    let held = [
        Held(ADDED, 7, [1, 0], A, &NO_STAMP, &[1, 2, 3]),
        Held(ADDED, 7, [2, 0], A, &NO_STAMP, &[4]),
    ];
    let bytes = region_bytes(alloc, &held)?;
    let region = over(&bytes, FIRST, true).expect(&rt, "the first is within");
    let want = Sizes {
        variables: 2,
        bytes: 4,
    };
    assert_eq!(rt; variable_sizes(alloc, &region)?, want);
    Ok(())
}

// A set of a name without units, answered so.
fn answered(alloc: Global, reply: SetReply) -> Answered {
    let call = Call::Set(SetCall {
        guid: Guid { bytes: [1; 16] },
        name: Units::from_vec(Vec::new(alloc)),
        attributes: 7,
        bytes: Bytes::new(alloc),
        verdict: Verdict::Good,
    });
    Answered {
        call,
        place: 0,
        route: Route::Plain,
        reply: Reply::Set(reply),
    }
}

#[test]
fn answered_calls_are_counted(rt: HostRuntime) -> Result<(), Fail> {
    let alloc = rt.alloc();
    let mut calls = Vec::new(alloc);
    calls.push(answered(alloc, SetReply::Ok))?;
    calls.push(answered(alloc, SetReply::Same))?;
    calls.push(answered(alloc, SetReply::Refused(SetReason::Missing)))?;
    calls.push(answered(alloc, SetReply::Device))?;
    let sizes = Sizes {
        variables: 1,
        bytes: 9,
    };
    let mut out = TextBuffer::new(alloc);
    write_summary(&summary_of(&calls, sizes), &mut out);
    let want = b"calls 4 changes 1 refused 2 variables 1 bytes 9\n";
    assert_eq!(rt; out.finish()?.as_slice(), want.as_slice());
    Ok(())
}

#[test]
fn parts_are_printed(rt: HostRuntime) -> Result<(), Fail> {
    let alloc = rt.alloc();
    let guid = Guid { bytes: [1; 16] };
    let call = Call::Get(GetCall {
        guid,
        name: Units::new(alloc, &[0x41])?,
        room: 16,
    });
    let mut out = TextBuffer::new(alloc);
    write_line(
        &[
            Part::Word(Word::NoSuch),
            Part::Number(18446744073709551615),
            Part::Attributes(0x27),
            Part::Bytes(&[0x01, 0xFF]),
            Part::Bytes(&[]),
            Part::Guid(&guid),
            Part::Name(&[0x42, 0x20]),
            Part::Stamp(&Stamp { bytes: STAMP }),
            Part::Stamp(&Stamp { bytes: NO_STAMP }),
            Part::Call(&call),
        ],
        &mut out,
    );
    let want =
        b"no-such 18446744073709551615 0x00000027 01ff - 01010101-0101-0101-0101-010101010101 B%0020 \
        e7070c1f173b3a0000ca9a3bc4ff0100 - get 01010101-0101-0101-0101-010101010101 A 16\n";
    assert_eq!(rt; out.finish()?.as_slice(), want.as_slice());
    Ok(())
}

// What a sink holds after texts of 40,000, 70,000 and 3 bytes and the digits of 40,000 bytes, and whether all of it was taken.
fn through_a_page(alloc: Global, fails: &[u32]) -> Result<(Vec<u8>, bool), AllocError> {
    let short = vec![in alloc; b'x'; 40_000]?;
    let long = vec![in alloc; b'x'; 70_000]?;
    let mut sink = MemSink::new(vec![in alloc; 0u8; 200_000]?, fails.to_vec(alloc)?);
    let Ok(mut page) = Page::new(alloc) else {
        return Ok((Vec::new(alloc), false));
    };
    let whole = {
        let mut outlet = Outlet {
            sink: &mut sink,
            page: &mut page,
        };
        outlet.put(&short);
        outlet.put(&long);
        outlet.put(b"end");
        outlet.put_hex(&short);
        outlet.finish().is_ok()
    };
    Ok((sink.bytes().to_vec(alloc)?, whole))
}

#[test]
fn texts_go_through_a_page(rt: HostRuntime) -> Result<(), Fail> {
    // The numbers of the writes that fail, whether all was taken, and how many bytes were.
    let cases: [(&[u32], bool, usize); 5] = [
        (&[], true, 190_003),
        (&[0], false, 0),
        (&[1], false, 40_000),
        (&[2], false, 110_000),
        (&[3], false, 173_491),
    ];
    for (fails, whole, count) in cases {
        let (bytes, all) = through_a_page(rt.alloc(), fails)?;
        assert_eq!(rt; all, whole, "{fails:?}");
        assert_eq!(rt; bytes.len(), count, "{fails:?}");
        let front = bytes.len().min(110_000);
        assert!(rt;
            bytes[..front].iter().all(|byte| *byte == b'x'),
            "{fails:?}"
        );
    }
    let (bytes, _) = through_a_page(rt.alloc(), &[])?;
    let middle = bytes.get(110_000..110_007);
    assert_eq!(rt; middle, Some(b"end7878".as_slice()));
    assert!(rt; bytes.ends_with(b"7878"));
    Ok(())
}
