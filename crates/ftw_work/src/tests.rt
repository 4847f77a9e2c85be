use crate::{Full, allot, dest_done, make, spare_done, state};
use flash_dev::{FileFlash, Flash};
use std::alloc::{AllocError, Global};
use std::process::Abort;
use std::test::Fail;
use std::{fs, process};
use var_types::WorkState;

const MARK: [u8; 16] = [
    0x56, 0x41, 0x52, 0x53, 0x56, 0x43, 0x2d, 0x46, 0x54, 0x57, 0x2d, 0x30, 0x30, 0x30, 0x31, 0xfe,
];

const CLEAN: WorkState = WorkState::Clean { slots: 0 };

const PENDING: WorkState = WorkState::Pending { slot: 0 };

fn put(into: &mut [u8], at: usize, bytes: &[u8]) {
    for (place, byte) in into.iter_mut().skip(at).zip(bytes) {
        *place = *byte;
    }
}

// A work area of which so many slots are used, with other bytes at some offsets.
fn area(alloc: Global, used: usize, bytes: &[(usize, u8)]) -> Result<Vec<u8>, AllocError> {
    let mut area = vec![in alloc; 0xFFu8; 4096]?;
    put(&mut area, 0, &MARK);
    for slot in area.chunks_mut(16).skip(1).take(used) {
        put(slot, 0, &[0xfe, 0xfe]);
    }
    for (at, byte) in bytes {
        put(&mut area, *at, &[*byte]);
    }
    Ok(area)
}

fn says(rt: &impl Abort, bytes: &[u8]) -> WorkState {
    assert!(rt; bytes.len() == 4096);
    state(bytes)
}

#[test]
fn work_areas_say_what_their_slots_are(rt: HostRuntime) -> Result<(), Fail> {
    let alloc = rt.alloc();
    let unclean = WorkState::Unclean;
    let cases: [(usize, &[(usize, u8)], WorkState); 25] = [
        (0, &[], CLEAN),
        (1, &[], WorkState::Clean { slots: 1 }),
        (254, &[], WorkState::Clean { slots: 254 }),
        (255, &[], WorkState::Clean { slots: 255 }),
        (0, &[(16, 0xfe)], PENDING),
        (1, &[(32, 0xfe)], WorkState::Pending { slot: 1 }),
        (254, &[(4080, 0xfe)], WorkState::Pending { slot: 254 }),
        // the header's gate is closed, or a letter is another
        (0, &[(15, 0xff)], unclean),
        (3, &[(15, 0xff)], unclean),
        (0, &[(0, 0x57)], unclean),
        (0, &[(14, 0x32)], unclean),
        // a destination gate without its spare gate
        (0, &[(17, 0xfe)], unclean),
        (254, &[(4081, 0xfe)], unclean),
        // a slot that is used behind a closed one, and behind a pending one
        (0, &[(32, 0xfe), (33, 0xfe)], unclean),
        (1, &[(32, 0xfe), (48, 0xfe), (49, 0xfe)], unclean),
        // two that are pending
        (0, &[(16, 0xfe), (32, 0xfe)], unclean),
        // another byte of a slot that is closed, pending and used
        (0, &[(18, 0)], unclean),
        (0, &[(31, 0xfe)], unclean),
        (0, &[(16, 0xfe), (18, 0xfe)], unclean),
        (0, &[(16, 0xfe), (31, 0)], unclean),
        (1, &[(18, 0xfe)], unclean),
        (1, &[(31, 0xfe)], unclean),
        (255, &[(4095, 0xfe)], unclean),
        // a byte of a slot behind
        (1, &[(40, 0)], unclean),
        (1, &[(32, 0xfe), (4095, 0)], unclean),
    ];
    for (used, bytes, said) in cases {
        let bytes = area(alloc, used, bytes)?;
        assert_eq!(rt; says(&rt, &bytes), said, "{used}");
    }
    assert_eq!(rt; says(&rt, &vec![in alloc; 0xFF; 4096]?), unclean);
    assert_eq!(rt; says(&rt, &vec![in alloc; 0; 4096]?), unclean);
    Ok(())
}

#[test]
fn gates_are_open_or_closed_and_nothing_else(rt: HostRuntime) -> Result<(), Fail> {
    let alloc = rt.alloc();
    for value in 0..=255u8 {
        let unclean = WorkState::Unclean;
        let (header, spare, destination) = match value {
            0xfe => (CLEAN, PENDING, WorkState::Clean { slots: 1 }),
            0xff => (unclean, CLEAN, PENDING),
            _ => (unclean, unclean, unclean),
        };
        assert_eq!(rt;
            says(&rt, &area(alloc, 0, &[(15, value)])?),
            header,
            "{value}"
        );
        assert_eq!(rt;
            says(&rt, &area(alloc, 0, &[(16, value)])?),
            spare,
            "{value}"
        );
        let pending = area(alloc, 0, &[(16, 0xfe), (17, value)])?;
        assert_eq!(rt; says(&rt, &pending), destination, "{value}");
    }
    Ok(())
}

// The work area of Debian's OVMF_VARS.fd: its header, and erased behind it.
#[test]
fn a_work_area_of_edk2_is_none(rt: HostRuntime) -> Result<(), Fail> {
    let alloc = rt.alloc();
    let header = [
        0x2b, 0x29, 0x58, 0x9e, 0x68, 0x7c, 0x7d, 0x49, 0xa0, 0xce, 0x65, 0x00, 0xfd, 0x9f, 0x1b,
        0x95, 0x2c, 0xaf, 0x2c, 0x64, 0xfe, 0xff, 0xff, 0xff, 0xe0, 0x0f, 0x00, 0x00, 0x00, 0x00,
        0x00, 0x00,
    ];
    let mut bytes = vec![in alloc; 0xFFu8; 4096]?;
    put(&mut bytes, 0, &header);
    assert_eq!(rt; says(&rt, &bytes), WorkState::Unclean);
    Ok(())
}

#[test]
fn slots_are_taken_until_all_are_used(rt: HostRuntime) {
    for slots in [0, 1, 254] {
        assert_eq!(rt; allot(WorkState::Clean { slots }), Ok(slots));
    }
    let full = allot(WorkState::Clean { slots: 255 });
    assert_eq!(rt; full, Err(Full { slots: 255 }));
}

// A file of this process alone, in its folder, of an image's length.
fn scratch_image(rt: &HostRuntime, name: &str) -> Result<String, Fail> {
    let id = process::id(rt.process());
    let path = format!(in rt.alloc(); "work-{name}-{id}")?;
    let bytes = vec![in rt.alloc(); 0xFFu8; 131_072]?;
    fs::write(rt, path.as_str(), bytes.as_slice())?;
    Ok(path)
}

// The work area is as it is told, and all else is erased.
fn is_work_area(rt: &HostRuntime, path: &str, area: &[u8]) -> Result<bool, Fail> {
    let mut image = vec![in rt.alloc(); 0xFFu8; 131_072]?;
    put(&mut image, 61_440, area);
    Ok(fs::read(rt, path)?.as_slice() == image.as_slice())
}

#[test]
fn a_work_area_is_made_and_turned(rt: HostRuntime) -> Result<(), Fail> {
    let alloc = rt.alloc();
    let path = scratch_image(&rt, "area")?;
    let mut flash = FileFlash::on(&rt, path.as_str());
    assert!(rt; flash.len() == 131_072);
    assert!(rt; make(&mut flash).is_ok());
    assert!(rt; is_work_area(&rt, path.as_str(), &area(alloc, 0, &[])?)?);
    assert!(rt; flash.len() == 131_072);
    assert!(rt; spare_done(&mut flash, 0).is_ok());
    assert!(rt; is_work_area(&rt, path.as_str(), &area(alloc, 0, &[(16, 0xfe)])?)?);
    assert!(rt; flash.len() == 131_072);
    assert!(rt; dest_done(&mut flash, 0).is_ok());
    assert!(rt; is_work_area(&rt, path.as_str(), &area(alloc, 1, &[])?)?);
    assert!(rt; flash.len() == 131_072);
    assert!(rt; make(&mut flash).is_ok());
    assert!(rt; flash.len() == 131_072);
    assert!(rt; spare_done(&mut flash, 254).is_ok());
    assert!(rt; is_work_area(&rt, path.as_str(), &area(alloc, 0, &[(4080, 0xfe)])?)?);
    assert_eq!(rt; flash.faults(), 0);
    fs::remove_file(&rt, path.as_str())?;
    Ok(())
}
