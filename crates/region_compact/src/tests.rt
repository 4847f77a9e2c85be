use crate::{NoRoom, Replace, compact, size_after};
use std::alloc::{AllocError, Global};
use std::test::Fail;
use var_header::{Header, write_header};
use var_region::{NewRecord, Region};
use var_types::{Guid, Stamp, check_name};

// A record of a region: its state, its attributes, the first byte of its GUID (the others are 0), and its one byte of data. Its name is A.
#[derive(Clone, Copy)]
struct Part(u8, u32, u8, u8);

// What is replaced, by the first byte of a GUID; a new record has this one byte of data.
enum Change {
    None,
    Put(u8, u8),
    Drop(u8),
}

const NAME: [u16; 1] = [0x41];

fn guid(first: u8) -> Guid {
    let mut bytes = [0; 16];
    bytes[0] = first;
    Guid { bytes }
}

fn over(bytes: &[u8], first: u32) -> Option<Region> {
    if first as usize <= bytes.len() && bytes.len() <= 65536 {
        Some(Region::over(bytes, first, true))
    } else {
        None
    }
}

// The bytes of a record. Its reserved byte, its MonotonicCount and its PubKeyIndex are 0x11; of one in the erased state the header is all.
fn push(bytes: &mut Vec<u8>, part: &Part) -> Result<(), AllocError> {
    let owner = guid(part.2);
    let owner = owner.bytes;
    let header = Header {
        state: part.0,
        attributes: part.1,
        time_stamp: [9; 16],
        name_size: 4,
        data_size: 1,
        vendor_guid: owner,
    };
    let mut written = [0; 60];
    write_header(&header, &mut written);
    written[3] = 0x11;
    for at in 8usize..16 {
        written[at] = 0x11;
    }
    for at in 32usize..36 {
        written[at] = 0x11;
    }
    bytes.extend_from_slice(&written)?;
    if part.0 != 0xFF {
        bytes.extend_from_slice(&[0x41, 0, 0, 0, part.3, 0xFF, 0xFF, 0xFF])?;
    }
    Ok(())
}

fn region_bytes(alloc: Global, parts: &[Part]) -> Result<Vec<u8>, AllocError> {
    let mut bytes = Vec::new(alloc);
    bytes.extend_from_slice(&[0; 100])?;
    for part in parts {
        push(&mut bytes, part)?;
    }
    bytes.extend_from_slice(&[0xFF; 70])?;
    Ok(bytes)
}

fn new_record(first: u8, payload: &[u8]) -> NewRecord {
    NewRecord {
        guid: guid(first),
        name: &NAME,
        attributes: 7,
        stamp: Stamp { bytes: [9; 16] },
        payload,
    }
}

// The size and the answer of a compaction into a buffer; none where the buffer or a new record is no such.
fn compacted(
    region: &Region,
    change: &Change,
    into: &mut [u8],
) -> Option<(u32, Result<u32, NoRoom>)> {
    if into.len() > 65536 {
        return None;
    }
    match change {
        Change::None => {
            let replace = Replace::None;
            Some((size_after(region, replace), compact(region, replace, into)))
        }
        Change::Put(first, byte) => compacted_with(region, &new_record(*first, &[*byte]), into),
        Change::Drop(first) => {
            let replace = Replace::Drop {
                guid: guid(*first),
                name: &NAME,
            };
            Some((size_after(region, replace), compact(region, replace, into)))
        }
    }
}

fn compacted_with(
    region: &Region,
    new: &NewRecord,
    into: &mut [u8],
) -> Option<(u32, Result<u32, NoRoom>)> {
    if into.len() > 65536 || new.attributes > 0xFF || new.payload.len() > 65536 {
        return None;
    }
    match check_name(new.name) {
        Ok(()) => {
            let replace = Replace::Put(*new);
            Some((size_after(region, replace), compact(region, replace, into)))
        }
        Err(_) => None,
    }
}

// Records, what is replaced, and of those that are left the first byte of the GUID and the data, in order; each takes 68 bytes: a header of 60, 4
// of name, one of data and a gap of 3.
struct Case {
    parts: &'static [Part],
    change: Change,
    left: &'static [(u8, u8)],
    size: u32,
    why: &'static str,
}

const CASES: [Case; 12] = [
    Case {
        parts: &[],
        change: Change::None,
        left: &[],
        size: 0,
        why: "no record",
    },
    Case {
        parts: &[],
        change: Change::Put(1, 9),
        left: &[(1, 9)],
        size: 68,
        why: "the new record alone",
    },
    Case {
        parts: &[Part(0x3D, 7, 1, 1), Part(0x3C, 7, 2, 2)],
        change: Change::None,
        left: &[],
        size: 0,
        why: "deleted records alone",
    },
    Case {
        parts: &[Part(0x3F, 7, 1, 1), Part(0x3F, 7, 1, 2)],
        change: Change::None,
        left: &[(1, 1)],
        size: 68,
        why: "two ADDED of one key",
    },
    Case {
        parts: &[Part(0x3E, 7, 1, 1), Part(0x3E, 7, 1, 2)],
        change: Change::None,
        left: &[(1, 2)],
        size: 68,
        why: "two in transition of one key",
    },
    Case {
        parts: &[Part(0x3E, 7, 1, 1)],
        change: Change::None,
        left: &[(1, 1)],
        size: 68,
        why: "a lone one in transition",
    },
    Case {
        parts: &[
            Part(0x3F, 7, 3, 1),
            Part(0xFF, 7, 1, 2),
            Part(0x3F, 6, 1, 3),
            Part(0x7F, 7, 1, 4),
            Part(0x3E, 7, 1, 5),
            Part(0x3E, 7, 3, 6),
            Part(0x3F, 7, 2, 7),
        ],
        change: Change::None,
        left: &[(3, 1), (1, 5), (2, 7)],
        size: 204,
        why: "records that are none of the store's between, and not in key order",
    },
    Case {
        parts: &[Part(0x3F, 7, 2, 1)],
        change: Change::Put(1, 9),
        left: &[(2, 1), (1, 9)],
        size: 136,
        why: "a new key behind the others",
    },
    Case {
        parts: &[
            Part(0x3F, 7, 1, 1),
            Part(0x3F, 7, 2, 2),
            Part(0x3E, 7, 1, 3),
        ],
        change: Change::Put(1, 9),
        left: &[(2, 2), (1, 9)],
        size: 136,
        why: "a key that is there, put behind the others",
    },
    Case {
        parts: &[Part(0x3F, 7, 1, 1), Part(0x3F, 7, 2, 2)],
        change: Change::Drop(1),
        left: &[(2, 2)],
        size: 68,
        why: "a key that is there goes",
    },
    Case {
        parts: &[Part(0x3F, 7, 1, 1), Part(0x3F, 7, 2, 2)],
        change: Change::Drop(3),
        left: &[(1, 1), (2, 2)],
        size: 136,
        why: "a key that isn't there goes",
    },
    Case {
        parts: &[Part(0x3E, 7, 1, 1), Part(0x3F, 7, 1, 2)],
        change: Change::None,
        left: &[(1, 2)],
        size: 68,
        why: "an ADDED one behind its twin",
    },
];

// The first byte of the GUID and the data of each live record.
fn walked(alloc: Global, region: &Region) -> Result<Vec<(u8, u8)>, AllocError> {
    region
        .lives()
        .map(|found| (
            found.guid.bytes[0],
            found.payload.first().copied().unwrap_or(0),
        ))
        .collect(alloc)
}

// The state byte of each record.
fn states(alloc: Global, region: &Region) -> Result<Vec<u8>, AllocError> {
    region
        .walk()
        .map(|record| record.header.state)
        .collect(alloc)
}

#[test]
fn records_that_count_are_kept(rt: HostRuntime) -> Result<(), Fail> {
    let alloc = rt.alloc();
    for case in &CASES {
        let bytes = region_bytes(alloc, case.parts)?;
        let region = over(&bytes, 100).expect(&rt, "the first record is within");
        let size = case.size as usize;
        let mut into = vec![in alloc; 0x77; size.saturating_add(12)]?;
        let need = case.size;
        let answer = compacted(&region, &case.change, &mut into);
        assert_eq!(rt; answer, Some((need, Ok(need))), "{}", case.why);
        assert!(rt;
            into.iter().skip(size).all(|byte| *byte == 0xFF),
            "the rest: {}",
            case.why
        );
        let new = over(&into, 0).expect(&rt, "the first record is within");
        let left = walked(alloc, &new)?;
        assert_eq!(rt; left.as_slice(), case.left, "{}", case.why);
        let states = states(alloc, &new)?;
        assert!(rt;
            states.iter().all(|state| *state == 0x3F),
            "ADDED: {}",
            case.why
        );
        assert_eq!(rt;
            states.len(),
            case.left.len(),
            "no other record: {}",
            case.why
        );
    }
    Ok(())
}

#[test]
fn exactly_the_room_is_enough(rt: HostRuntime) -> Result<(), Fail> {
    let alloc = rt.alloc();
    for case in &CASES {
        let bytes = region_bytes(alloc, case.parts)?;
        let region = over(&bytes, 100).expect(&rt, "the first record is within");
        let size = case.size as usize;
        let need = case.size;
        let mut exact = vec![in alloc; 0x77; size]?;
        let answer = compacted(&region, &case.change, &mut exact);
        assert_eq!(rt;
            answer,
            Some((need, Ok(need))),
            "exactly the room: {}",
            case.why
        );
        if size > 0 {
            let have = need.saturating_sub(1);
            let mut short = vec![in alloc; 0x77; size.saturating_sub(1)]?;
            let answer = compacted(&region, &case.change, &mut short);
            assert_eq!(rt;
                answer,
                Some((need, Err(NoRoom { need, have }))),
                "a byte less: {}",
                case.why
            );
            assert!(rt;
                short.iter().all(|byte| *byte == 0x77),
                "the buffer: {}",
                case.why
            );
        }
    }
    Ok(())
}

#[test]
fn headers_stay_as_they_were(rt: HostRuntime) -> Result<(), Fail> {
    let alloc = rt.alloc();
    let bytes = region_bytes(alloc, &[Part(0x3E, 7, 1, 5)])?;
    let region = over(&bytes, 100).expect(&rt, "the first record is within");
    let mut into = [0; 68];
    let answer = compacted(&region, &Change::None, &mut into);
    assert_eq!(rt; answer, Some((68, Ok(68))), "one record");
    assert!(rt;
        into.iter().take(4).eq([0xAA, 0x55, 0x3F, 0].iter()),
        "ADDED, and a reserved byte 0"
    );
    assert!(rt;
        into.iter().skip(4).eq(bytes.iter().skip(104).take(64)),
        "all else, the counts too"
    );
    Ok(())
}
