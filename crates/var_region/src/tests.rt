use crate::{Found, Region, Tail};
use std::alloc::{AllocError, Global};
use std::test::Fail;
use var_header::{Header, VAR_ADDED, write_header};
use var_types::{Guid, RecordState, Stamp};

pub(crate) const ADDED: u8 = 0x3F;

pub(crate) const IN_TRANSITION: u8 = 0x3E;

// The offset of the first record.
pub(crate) const FIRST: u32 = 28;

// A record of a region: its state, its attributes, the first byte of its GUID (the others are 0), its name's bytes with the NUL, and its data.
pub(crate) struct Part(
    pub(crate) u8,
    pub(crate) u32,
    pub(crate) u8,
    pub(crate) &'static [u8],
    pub(crate) &'static [u8],
);

pub(crate) fn guid(first: u8) -> Guid {
    let mut bytes = [0; 16];
    bytes[0] = first;
    Guid { bytes }
}

fn size_of(bytes: &[u8]) -> u32 {
    u32::try_from(bytes.len()).unwrap_or(u32::MAX)
}

fn push(bytes: &mut Vec<u8>, part: &Part) -> Result<(), AllocError> {
    let owner = guid(part.2);
    let owner = owner.bytes;
    let header = Header {
        state: part.0,
        attributes: part.1,
        time_stamp: [9; 16],
        name_size: size_of(part.3),
        data_size: size_of(part.4),
        vendor_guid: owner,
    };
    let mut written = [0; 60];
    write_header(&header, &mut written);
    bytes.extend_from_slice(&written)?;
    bytes.extend_from_slice(part.3)?;
    bytes.extend_from_slice(part.4)?;
    if bytes.len() % 4 != 0 {
        bytes.extend_from_slice(&[0xFF; 4][bytes.len() % 4..])?;
    }
    Ok(())
}

// The bytes of a region of these records.
pub(crate) fn region_bytes(alloc: Global, parts: &[Part]) -> Result<Vec<u8>, AllocError> {
    let mut bytes = Vec::new(alloc);
    bytes.extend_from_slice(&[0; 28])?;
    for part in parts {
        push(&mut bytes, part)?;
    }
    bytes.extend_from_slice(&[0xFF; 100])?;
    Ok(bytes)
}

pub(crate) fn over(bytes: &[u8], first: u32, non_volatile: bool) -> Option<Region> {
    if first as usize <= bytes.len() && bytes.len() <= 65536 {
        Some(Region::over(bytes, first, non_volatile))
    } else {
        None
    }
}

fn first_byte(found: Option<Found>) -> Option<u8> {
    found.and_then(|found| found.payload.first().copied())
}

// What a search for the name A under the GUID 1 finds, by the first byte of its data.
struct Search {
    parts: &'static [Part],
    non_volatile: bool,
    found: Option<u8>,
    why: &'static str,
}

pub(crate) const NAME: &[u8] = &[0x41, 0, 0, 0];

const SEARCHES: [Search; 14] = [
    Search {
        parts: &[Part(ADDED, 7, 1, NAME, &[1]), Part(ADDED, 7, 1, NAME, &[2])],
        non_volatile: true,
        found: Some(1),
        why: "the first of two that are ADDED",
    },
    Search {
        parts: &[
            Part(IN_TRANSITION, 7, 1, NAME, &[1]),
            Part(IN_TRANSITION, 7, 1, NAME, &[2]),
        ],
        non_volatile: true,
        found: Some(2),
        why: "the last of two in transition",
    },
    Search {
        parts: &[
            Part(IN_TRANSITION, 7, 1, NAME, &[1]),
            Part(ADDED, 7, 1, NAME, &[2]),
        ],
        non_volatile: true,
        found: Some(2),
        why: "an ADDED one behind one in transition",
    },
    Search {
        parts: &[
            Part(ADDED, 7, 1, NAME, &[1]),
            Part(IN_TRANSITION, 7, 1, NAME, &[2]),
        ],
        non_volatile: true,
        found: Some(1),
        why: "an ADDED one before one in transition",
    },
    Search {
        parts: &[
            Part(0x3D, 7, 1, NAME, &[1]),
            Part(0x3C, 7, 1, NAME, &[2]),
            Part(0x7F, 7, 1, NAME, &[3]),
        ],
        non_volatile: true,
        found: None,
        why: "deleted, or only its header valid",
    },
    Search {
        parts: &[Part(ADDED, 7, 1, &[0x41, 0, 0, 0, 0], &[1])],
        non_volatile: true,
        found: None,
        why: "a name of 5 bytes",
    },
    Search {
        parts: &[Part(ADDED, 7, 1, &[0x41, 0, 0, 0, 0x42, 0, 0, 0], &[1])],
        non_volatile: true,
        found: None,
        why: "a NUL within the name",
    },
    Search {
        parts: &[Part(ADDED, 7, 1, &[0x41, 0], &[1])],
        non_volatile: true,
        found: None,
        why: "a name without NUL",
    },
    Search {
        parts: &[Part(ADDED, 6, 1, NAME, &[1]), Part(ADDED, 7, 1, NAME, &[2])],
        non_volatile: true,
        found: Some(2),
        why: "a volatile one in the non-volatile store is passed over",
    },
    Search {
        parts: &[Part(ADDED, 6, 1, NAME, &[1]), Part(ADDED, 7, 1, NAME, &[2])],
        non_volatile: false,
        found: Some(1),
        why: "a volatile one in the other store",
    },
    Search {
        parts: &[Part(ADDED, 7, 2, NAME, &[1])],
        non_volatile: true,
        found: None,
        why: "another GUID",
    },
    Search {
        parts: &[Part(ADDED, 7, 1, &[0x41, 0, 0x41, 0, 0, 0], &[1])],
        non_volatile: true,
        found: None,
        why: "a longer name",
    },
    Search {
        parts: &[Part(ADDED, 7, 1, &[0x41, 1, 0, 0], &[1])],
        non_volatile: true,
        found: None,
        why: "a unit with another high byte",
    },
    Search {
        parts: &[],
        non_volatile: true,
        found: None,
        why: "no records",
    },
];

#[test]
fn the_record_that_counts_is_found(rt: HostRuntime) -> Result<(), Fail> {
    let alloc = rt.alloc();
    for search in &SEARCHES {
        let bytes = region_bytes(alloc, search.parts)?;
        let region = over(&bytes, FIRST, search.non_volatile).expect(
            &rt,
            "the first record is within",
        );
        let found = first_byte(region.find(&guid(1), &[0x41]));
        assert_eq!(rt; found, search.found, "{}", search.why);
    }
    Ok(())
}

#[test]
fn a_record_is_lent_field_by_field(rt: HostRuntime) -> Result<(), Fail> {
    let bytes = region_bytes(
        rt.alloc(),
        &[
            Part(ADDED, 3, 2, NAME, &[1, 2, 3]),
            Part(IN_TRANSITION, 7, 1, &[0x42, 0, 0x43, 1, 0, 0], &[4, 5]),
        ],
    )?;
    let region = over(&bytes, FIRST, true).expect(&rt, "the first record is within");
    let found = region
        .find(&guid(1), &[0x42, 0x143])
        .expect(&rt, "it is there");
    assert_eq!(rt; found.at, 96);
    assert_eq!(rt; found.state, RecordState::InDeletedTransition);
    assert_eq!(rt; found.guid, guid(1));
    assert_eq!(rt; found.attributes, 7);
    assert_eq!(rt; found.stamp, Stamp { bytes: [9; 16] });
    assert_eq!(rt; found.name, [0x42, 0, 0x43, 1].as_slice());
    assert_eq!(rt; found.payload, [4, 5].as_slice());
    Ok(())
}

// The keys of two GUIDs, not in key order: by the GUID 1 the names A, AA, B and Ā, of which A and Ā are hidden at runtime, since the record that
// counts has no runtime access; by the GUID 2 the name A.
const KEYS: [Part; 7] = [
    Part(ADDED, 7, 2, NAME, &[50]),
    Part(ADDED, 7, 1, &[0x42, 0, 0, 0], &[30]),
    Part(IN_TRANSITION, 7, 1, &[0, 1, 0, 0], &[41]),
    Part(ADDED, 3, 1, NAME, &[10]),
    Part(ADDED, 7, 1, &[0x41, 0, 0x41, 0, 0, 0], &[20]),
    Part(ADDED, 3, 1, &[0, 1, 0, 0], &[40]),
    Part(0x3D, 7, 1, &[0x43, 0, 0, 0], &[35]),
];

// The GUID and the name that come before, whether the phase is runtime, and the first byte of the data found above them.
const STEPS: [(u8, &[u16], bool, Option<u8>); 12] = [
    (9, &[], false, Some(10)),
    (1, &[0x41], false, Some(20)),
    (1, &[0x41, 0x41], false, Some(30)),
    (1, &[0x42], false, Some(40)),
    (1, &[0x100], false, Some(50)),
    (2, &[0x41], false, None),
    (9, &[], true, Some(20)),
    (1, &[0x41, 0x41], true, Some(30)),
    (1, &[0x42], true, Some(50)),
    (2, &[0x41], true, None),
    (1, &[0x41, 0x40], false, Some(20)),
    (0, &[0x7F], true, Some(20)),
];

#[test]
fn keys_follow_in_order(rt: HostRuntime) -> Result<(), Fail> {
    let bytes = region_bytes(rt.alloc(), &KEYS)?;
    let region = over(&bytes, FIRST, true).expect(&rt, "the first record is within");
    for (step, (first, name, runtime, want)) in STEPS.iter().enumerate() {
        let found = first_byte(region.above(&guid(*first), name, *runtime));
        assert_eq!(rt; found, *want, "step {step}");
    }
    Ok(())
}

// A region of erased bytes in which records of 82 bytes and then other bytes stand at offsets, and what a walk finds there.
struct Walked {
    length: usize,
    first: u32,
    whole: &'static [usize],
    bytes: &'static [(usize, &'static [u8])],
    records: &'static [(u32, bool)],
    tail: Tail,
}

const WALKS: [Walked; 9] = [
    // the record alone
    Walked {
        length: 57344,
        first: 100,
        whole: &[100],
        bytes: &[],
        records: &[(100, true)],
        tail: Tail {
            at: 184,
            clean: true,
        },
    },
    // a header whose state is erased, and the record behind it
    Walked {
        length: 400,
        first: 100,
        whole: &[100, 160],
        bytes: &[(102, &[0xFF])],
        records: &[(100, false), (160, true)],
        tail: Tail {
            at: 244,
            clean: true,
        },
    },
    // a header whose data size is erased, and the record behind it
    Walked {
        length: 400,
        first: 28,
        whole: &[28, 88],
        bytes: &[(68, &[0xFF, 0xFF, 0xFF, 0xFF])],
        records: &[(28, false), (88, true)],
        tail: Tail {
            at: 172,
            clean: true,
        },
    },
    // two records, the second past the end by one byte
    Walked {
        length: 265,
        first: 100,
        whole: &[100, 184],
        bytes: &[],
        records: &[(100, true)],
        tail: Tail {
            at: 184,
            clean: false,
        },
    },
    // the second up to the end, which is no multiple of 4
    Walked {
        length: 266,
        first: 100,
        whole: &[100, 184],
        bytes: &[],
        records: &[(100, true), (184, true)],
        tail: Tail {
            at: 268,
            clean: true,
        },
    },
    // a byte behind the record
    Walked {
        length: 265,
        first: 100,
        whole: &[100],
        bytes: &[(264, &[0])],
        records: &[(100, true)],
        tail: Tail {
            at: 184,
            clean: false,
        },
    },
    // no record at the first offset
    Walked {
        length: 400,
        first: 100,
        whole: &[104],
        bytes: &[],
        records: &[],
        tail: Tail {
            at: 100,
            clean: false,
        },
    },
    // no room for a record
    Walked {
        length: 100,
        first: 100,
        whole: &[],
        bytes: &[],
        records: &[],
        tail: Tail {
            at: 100,
            clean: true,
        },
    },
    // no bytes
    Walked {
        length: 0,
        first: 0,
        whole: &[],
        bytes: &[],
        records: &[],
        tail: Tail { at: 0, clean: true },
    },
];

pub(crate) fn put(into: &mut [u8], at: usize, bytes: &[u8]) {
    for (old, new) in into.iter_mut().skip(at).zip(bytes) {
        *old = *new;
    }
}

// The offsets of a region's records, and whether each is whole.
pub(crate) fn offsets(alloc: Global, region: &Region) -> Result<Vec<(u32, bool)>, AllocError> {
    region
        .walk()
        .map(|record| (record.at, record.whole))
        .collect(alloc)
}

// An ADDED record of 82 bytes, with a name of 20 and 2 of data.
fn whole_record() -> [u8; 82] {
    let mut bytes = [0; 82];
    let header = Header {
        state: VAR_ADDED,
        attributes: 7,
        time_stamp: [0; 16],
        name_size: 20,
        data_size: 2,
        vendor_guid: [0; 16],
    };
    write_header(&header, &mut bytes);
    bytes
}

#[test]
fn regions_are_walked(rt: HostRuntime) -> Result<(), Fail> {
    let alloc = rt.alloc();
    for case in &WALKS {
        let mut bytes = vec![in alloc; 0xFF; case.length]?;
        for at in case.whole {
            put(&mut bytes, *at, &whole_record());
        }
        for (at, part) in case.bytes {
            put(&mut bytes, *at, part);
        }
        let region = over(&bytes, case.first, true).expect(&rt, "the first record is within");
        let found = offsets(alloc, &region)?;
        assert_eq!(rt; found.as_slice(), case.records, "{} bytes", case.length);
        assert_eq!(rt; region.tail(), case.tail, "{} bytes", case.length);
        assert_eq!(rt;
            region.tally().records as usize,
            case.records.len(),
            "{} bytes",
            case.length
        );
    }
    Ok(())
}
