use crate::records::record_at;
use crate::tests::{guid, offsets, over, put};
use crate::{NewRecord, Region, append, append_body, append_header, mark};
use std::alloc::{AllocError, Global};
use std::test::Fail;
use var_header::{VAR_DELETED, VAR_HEADER_VALID_ONLY, VAR_IN_DELETED_TRANSITION};
use var_types::{Guid, Stamp, check_name};

// Appends a record where it may be written and has the room.
fn try_append(bytes: &mut [u8], at: u32, new: &NewRecord) -> bool {
    if new.attributes > 0xFF || new.payload.len() > 65536 || new.name.len() > 512 {
        return false;
    }
    if at as usize + 62 + 2 * new.name.len() + new.payload.len() > bytes.len() {
        return false;
    }
    match check_name(new.name) {
        Ok(()) => {
            append(bytes, at, new);
            true
        }
        Err(_) => false,
    }
}

// Writes a record's header in a state, and behind it its name and data, where it may be written and has the room.
fn try_begin(bytes: &mut [u8], at: u32, state: u8, new: &NewRecord) -> bool {
    if new.attributes > 0xFF || new.payload.len() > 65536 || new.name.len() > 512 {
        return false;
    }
    if at as usize + 62 + 2 * new.name.len() + new.payload.len() > bytes.len() {
        return false;
    }
    match check_name(new.name) {
        Ok(()) => {
            append_header(bytes, at, state, new);
            append_body(bytes, at, new);
            true
        }
        Err(_) => false,
    }
}

// Marks the record at an offset, where a whole one stands there.
fn try_mark(bytes: &mut [u8], at: u32, mask: u8) -> bool {
    if bytes.len() > 65536 {
        return false;
    }
    let Some(found) = record_at(bytes, at) else {
        return false;
    };
    if !found.whole {
        return false;
    }
    mark(bytes, at, mask);
    true
}

const GLOBAL: Guid = Guid {
    bytes: [
        0x61, 0xDF, 0xE4, 0x8B, 0xCA, 0x93, 0xD2, 0x11, 0xAA, 0x0D, 0x00, 0xE0, 0x98, 0x03, 0x2B,
        0x8C,
    ],
};

const NO_STAMP: Stamp = Stamp { bytes: [0; 16] };

// The name BootOrder.
const BOOT_ORDER: [u16; 9] = [0x42, 0x6F, 0x6F, 0x74, 0x4F, 0x72, 0x64, 0x65, 0x72];

// The record of BootOrder, attributes 7, with the data 01 00, as firmware writes it.
const BOOT_RECORD: [u8; 82] = [
    0xAA, 0x55, 0x3F, 0x00, 0x07, 0x00, 0x00, 0x00, 0, 0, 0, 0, 0, 0, 0, 0, 0, 0, 0, 0, 0, 0, 0, 0,
    0, 0, 0, 0, 0, 0, 0, 0, 0, 0, 0, 0, 0x14, 0x00, 0x00, 0x00, 0x02, 0x00, 0x00, 0x00, 0x61, 0xDF,
    0xE4, 0x8B, 0xCA, 0x93, 0xD2, 0x11, 0xAA, 0x0D, 0x00, 0xE0, 0x98, 0x03, 0x2B, 0x8C, 0x42, 0x00,
    0x6F, 0x00, 0x6F, 0x00, 0x74, 0x00, 0x4F, 0x00, 0x72, 0x00, 0x64, 0x00, 0x65, 0x00, 0x72, 0x00,
    0x00, 0x00, 0x01, 0x00,
];

fn boot_order() -> NewRecord<'static> {
    NewRecord {
        guid: GLOBAL,
        name: &BOOT_ORDER,
        attributes: 7,
        stamp: NO_STAMP,
        payload: &[1, 0],
    }
}

// An append behind a first offset in a region of erased bytes: how many units the name and bytes the data have, the region's length, whether the
// record fits, and where the tail is then.
struct Appended {
    units: u16,
    payload: u32,
    first: u32,
    length: u32,
    fits: bool,
    tail: u32,
}

const APPENDS: [Appended; 9] = [
    // exactly the room, and one byte less
    Appended {
        units: 9,
        payload: 2,
        first: 100,
        length: 182,
        fits: true,
        tail: 184,
    },
    Appended {
        units: 9,
        payload: 2,
        first: 100,
        length: 181,
        fits: false,
        tail: 100,
    },
    // a first offset three past a multiple of 4: the next record stands at one again
    Appended {
        units: 9,
        payload: 2,
        first: 103,
        length: 185,
        fits: true,
        tail: 188,
    },
    Appended {
        units: 9,
        payload: 2,
        first: 103,
        length: 184,
        fits: false,
        tail: 103,
    },
    // no data, and a size that is a multiple of 4
    Appended {
        units: 1,
        payload: 0,
        first: 28,
        length: 400,
        fits: true,
        tail: 92,
    },
    // the longest name, with and without the room
    Appended {
        units: 512,
        payload: 1,
        first: 28,
        length: 1115,
        fits: true,
        tail: 1116,
    },
    Appended {
        units: 512,
        payload: 1,
        first: 28,
        length: 1114,
        fits: false,
        tail: 28,
    },
    // the largest record of a store, 33,792 bytes
    Appended {
        units: 1,
        payload: 33728,
        first: 100,
        length: 57344,
        fits: true,
        tail: 33892,
    },
    // the most data that a region has room for
    Appended {
        units: 1,
        payload: 65472,
        first: 0,
        length: 65536,
        fits: true,
        tail: 65536,
    },
];

#[test]
fn appends_are_read_again(rt: HostRuntime) -> Result<(), Fail> {
    let alloc = rt.alloc();
    for (number, case) in APPENDS.iter().enumerate() {
        let mut bytes = vec![in alloc; 0xFF; case.length as usize]?;
        let name = vec![in alloc; 0x41u16; usize::from(case.units)]?;
        let payload = vec![in alloc; 7; case.payload as usize]?;
        let new = NewRecord {
            guid: guid(1),
            name: &name,
            attributes: 7,
            stamp: NO_STAMP,
            payload: &payload,
        };
        let size = 62 + 2 * u64::from(case.units) + u64::from(case.payload);
        let region = over(&bytes, case.first, true).expect(&rt, "the first record is within");
        let tail = region.tail();
        let fits = region.fits(u32::try_from(size).unwrap_or(u32::MAX));
        assert_eq!(rt; fits, case.fits, "append {number}");
        if fits {
            let done = try_append(&mut bytes, tail.at, &new);
            assert!(rt; done, "append {number}");
        }
        let region = over(&bytes, case.first, true).expect(&rt, "the first record is within");
        assert_eq!(rt; region.tail().at, case.tail, "append {number}");
        assert!(rt; region.tail().clean, "append {number}");
        let found = region
            .find(&guid(1), &name)
            .map(|found| found.payload.len());
        let want = if fits {
            Some(case.payload as usize)
        } else {
            None
        };
        assert_eq!(rt; found, want, "append {number}");
    }
    Ok(())
}

#[test]
fn bytes_are_those_of_firmware(rt: HostRuntime) -> Result<(), Fail> {
    let mut bytes = [0xFF; 84];
    let done = try_append(&mut bytes, 1, &boot_order());
    assert!(rt; done, "an append");
    assert!(rt;
        bytes.iter().skip(1).take(82).eq(BOOT_RECORD.iter()),
        "the record"
    );
    assert!(rt;
        bytes.first() == Some(&0xFF) && bytes.last() == Some(&0xFF),
        "around it"
    );
    let mut begun = [0xFF; 82];
    let done = try_begin(&mut begun, 0, VAR_HEADER_VALID_ONLY, &boot_order());
    assert!(rt; done, "a header with its state, and the name and data");
    assert_eq!(rt; begun.get(2), Some(&0x7F), "the state");
    put(&mut begun, 2, &[0x3F]);
    assert!(rt;
        begun.iter().eq(BOOT_RECORD.iter()),
        "the record, in the other state"
    );
    Ok(())
}

// The states that marks leave, one after the other, from an ADDED record on.
const MARKS: [(&[u8], u8); 4] = [
    (&[VAR_IN_DELETED_TRANSITION], 0x3E),
    (&[VAR_IN_DELETED_TRANSITION, VAR_DELETED], 0x3C),
    (&[VAR_DELETED], 0x3D),
    (&[VAR_DELETED, VAR_DELETED], 0x3D),
];

#[test]
fn marks_clear_a_bit(rt: HostRuntime) -> Result<(), Fail> {
    for (masks, want) in &MARKS {
        let mut bytes = BOOT_RECORD;
        for mask in *masks {
            let done = try_mark(&mut bytes, 0, *mask);
            assert!(rt; done, "a mark of a whole record");
        }
        assert_eq!(rt; bytes.get(2), Some(want), "to {want}");
        put(&mut bytes, 2, &[0x3F]);
        assert!(rt; bytes.iter().eq(BOOT_RECORD.iter()), "all else, to {want}");
    }
    let mut bare = BOOT_RECORD;
    put(&mut bare, 2, &[0xFF]);
    assert!(rt;
        !try_mark(&mut bare, 0, VAR_DELETED),
        "a record that is its header only"
    );
    Ok(())
}

// The bytes of a region with the record of BootOrder at 100, and behind it, at 184, a header in the erased state of which some bytes were
// programmed: those from one on and before another.
fn torn(alloc: Global, from: usize, to: usize) -> Result<Vec<u8>, AllocError> {
    let mut part = [0xFF; 60];
    for (at, (into, byte)) in part.iter_mut().zip(&BOOT_RECORD).enumerate() {
        if from <= at && at < to && at != 2 {
            *into = *byte;
        }
    }
    let mut bytes = vec![in alloc; 0xFF; 400]?;
    put(&mut bytes, 100, &BOOT_RECORD);
    put(&mut bytes, 184, &part);
    Ok(bytes)
}

fn live_offsets(alloc: Global, region: &Region) -> Result<Vec<u32>, AllocError> {
    region.lives().map(|found| found.at).collect(alloc)
}

#[test]
fn torn_headers_are_no_variables(rt: HostRuntime) -> Result<(), Fail> {
    let alloc = rt.alloc();
    for cut in 0usize..61 {
        let bytes = torn(alloc, 0, cut)?;
        let region = over(&bytes, 100, true).expect(&rt, "the first record is within");
        let found = offsets(alloc, &region)?;
        let want: &[(u32, bool)] = if cut < 2 {
            &[(100, true)]
        } else {
            &[(100, true), (184, false)]
        };
        assert_eq!(rt; found.as_slice(), want, "the first {cut} bytes");
        assert_eq!(rt;
            region.tail().clean,
            cut != 1,
            "the tail behind {cut} bytes"
        );
        let live = live_offsets(alloc, &region)?;
        assert_eq!(rt; live.as_slice(), [100].as_slice(), "the first {cut} bytes");
        let bytes = torn(alloc, cut, 60)?;
        let region = over(&bytes, 100, true).expect(&rt, "the first record is within");
        let live = live_offsets(alloc, &region)?;
        assert_eq!(rt; live.as_slice(), [100].as_slice(), "those from {cut} on");
    }
    Ok(())
}
