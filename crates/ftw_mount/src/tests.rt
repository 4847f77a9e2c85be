ghost use Rattle.std.specs.Prelude.{◌≡◌, ◌+◌, ◌*◌, ◌≤◌, None, length};
ghost use Rattle.outside.specs.Faults.{HasCause};
ghost use Rattle.var_types.specs.Layout.{block_size};

use crate::{MountFault, mount, read_kept, write_volume};
use flash_dev::{Device, FaultPlan, Flash, MemFlash, Torn};
use std::alloc::{AllocError, Global};
use std::process::Abort;
use std::test::Fail;
use var_types::{WorkState, is_blank};

const IMAGE: usize = 131_072;

const VOLUME: usize = 57_344;

const MARK: [u8; 16] = *b"VARSVC-FTW-0001\xFE";

const TEARS: [Torn; 3] = [Torn::Before, Torn::Half, Torn::After];

// The bytes of a spare gate and of the header's gate, and one of the spare.
const PENDING: (usize, u8) = (61_504, 0xFE);

const CLOSED: (usize, u8) = (61_455, 0xFF);

const USED: (usize, u8) = (131_071, 0);

// A flash in memory that tells no bytes, so that it may be called whatever it holds.
#[derive(Drop)]
struct Hidden {
    flash: MemFlash,
}

impl Hidden {
    fn release(self) -> Vec<u8> {
        self.flash.release()
    }
}

impl Flash for Hidden {
    ghost size = { λ h. length h.flash.bytes };

    ghost holds = { λ _. None };

    ghost fault_count = { λ h. h.flash.faults };

    ghost moment = { λ _. 0 };

    ghost left_since = { λ _ _ _. Unit {0} };

    fn len(&self) -> u64 {
        self.flash.len()
    }

    fn faults(&self) -> u64 {
        self.flash.faults()
    }

    fn read(&mut self, at: u32, into: &mut [u8]) -> Result<(), Device>
        requires { at + length into.old ≤ length self.old.flash.bytes }
        ensures size { length self.new.flash.bytes ≡ length self.old.flash.bytes }
        ensures cause { HasCause self.old.flash.faults self.new.flash.faults result }
    {
        self.flash.read(at, into)
    }

    fn program(&mut self, at: u32, bytes: &[u8]) -> Result<(), Device>
        requires { at + length bytes.now ≤ length self.old.flash.bytes }
        ensures size { length self.new.flash.bytes ≡ length self.old.flash.bytes }
        ensures cause { HasCause self.old.flash.faults self.new.flash.faults result }
    {
        self.flash.program(at, bytes)
    }

    fn erase(&mut self, block: u32) -> Result<(), Device>
        requires { block_size * block + block_size ≤ length self.old.flash.bytes }
        ensures size { length self.new.flash.bytes ≡ length self.old.flash.bytes }
        ensures cause { HasCause self.old.flash.faults self.new.flash.faults result }
    {
        self.flash.erase(block)
    }

    ghost sized = { λ h. tt };

    ghost counts_now = { λ h t left early now. tt };

    ghost only_now = { λ h left since. tt };
}

// A flash of these bytes that stops at a call, which is torn.
fn stopping(alloc: Global, bytes: Vec<u8>, stop_at: Option<u32>, torn: Torn) -> Hidden {
    let plan = FaultPlan {
        fails: Vec::new(alloc),
        stop_at,
        torn,
    };
    Hidden {
        flash: MemFlash::new(bytes, plan),
    }
}

fn whole(alloc: Global, bytes: Vec<u8>) -> Hidden {
    stopping(alloc, bytes, None, Torn::Before)
}

fn put(into: &mut [u8], at: usize, bytes: &[u8]) {
    for (place, byte) in into.iter_mut().skip(at).zip(bytes) {
        *place = *byte;
    }
}

// The bytes of a volume, no two of which are alike for two steps; no real volume is, but any bytes are kept.
fn volume(alloc: Global, step: u8) -> Result<Vec<u8>, AllocError> {
    let mut bytes = Vec::new(alloc);
    let mut byte: u8 = step;
    for _ in 0..VOLUME {
        bytes.push(byte)?;
        byte = byte.wrapping_add(step);
    }
    Ok(bytes)
}

// A volume's bytes, 0x5A up to the work area, of which so many slots are used, and a blank spare; with other bytes at some offsets.
fn image(
    alloc: Global,
    volume: &[u8],
    used: usize,
    others: &[(usize, u8)],
) -> Result<Vec<u8>, AllocError> {
    let mut bytes = vec![in alloc; 0xFFu8; IMAGE]?;
    put(&mut bytes, 0, volume);
    for byte in bytes.iter_mut().skip(VOLUME).take(4096) {
        *byte = 0x5A;
    }
    put(&mut bytes, 61_440, &MARK);
    for slot in bytes.chunks_mut(16).skip(3841).take(used) {
        put(slot, 0, &[0xFE, 0xFE]);
    }
    for (at, byte) in others {
        put(&mut bytes, *at, &[*byte]);
    }
    Ok(bytes)
}

fn mounts(rt: &impl Abort, flash: &mut Hidden, buffer: &mut [u8]) -> Result<u32, MountFault> {
    assert!(rt; flash.len() == 131_072);
    assert!(rt; buffer.len() == VOLUME);
    mount(flash, buffer)
}

fn writes(rt: &impl Abort, flash: &mut Hidden, slots: u32, content: &[u8]) -> Result<u32, Device> {
    assert!(rt; flash.len() == 131_072);
    assert!(rt; content.len() == VOLUME);
    assert!(rt; slots <= 255);
    assert!(rt; !is_blank(content));
    write_volume(flash, slots, content)
}

// Whether the bytes that are read as those that an image keeps are these.
fn keeps(rt: &impl Abort, alloc: Global, bytes: &[u8], content: &[u8]) -> Result<bool, AllocError> {
    let mut flash = whole(alloc, bytes.to_vec(alloc)?);
    let mut buffer = vec![in alloc; 0u8; VOLUME]?;
    assert!(rt; flash.len() == 131_072);
    assert!(rt; buffer.len() == VOLUME);
    let is_read = read_kept(&mut flash, &mut buffer).is_ok();
    Ok(is_read && buffer.as_slice() == content && flash.flash.bytes() == bytes)
}

// Mounts an image that is to keep these bytes and have so many used slots.
fn check_mount(
    rt: &impl Abort,
    alloc: Global,
    bytes: Vec<u8>,
    content: &[u8],
    slots: u32,
) -> Result<(), AllocError> {
    assert!(rt; keeps(rt, alloc, &bytes, content)?);
    let mut buffer = vec![in alloc; 0u8; VOLUME]?;
    let mut flash = whole(alloc, bytes);
    assert_eq!(rt; mounts(rt, &mut flash, &mut buffer), Ok(slots));
    assert!(rt; flash.flash.bytes().starts_with(content));
    Ok(())
}

// The same where the mount is stopped at one of its steps, torn, and made again.
fn check_stopped_mount(
    rt: &impl Abort,
    alloc: Global,
    bytes: &[u8],
    content: &[u8],
    slots: u32,
    stop: u32,
) -> Result<(), AllocError> {
    let mut buffer = vec![in alloc; 0u8; VOLUME]?;
    for torn in TEARS {
        let mut stopped = stopping(alloc, bytes.to_vec(alloc)?, Some(stop), torn);
        assert_eq!(rt;
            mounts(rt, &mut stopped, &mut buffer),
            Err(MountFault::Device)
        );
        check_mount(rt, alloc, stopped.release(), content, slots)?;
    }
    Ok(())
}

// A write of 34 steps: 16 erase the spare, the 17th fills it, the 18th opens the spare gate, 14 erase the volume, and then it is programmed and
// the destination gate is opened. From the spare gate on the new content counts.
#[test]
fn a_write_that_is_stopped_keeps_the_old_or_the_new(rt: HostRuntime) -> Result<(), Fail> {
    let alloc = rt.alloc();
    let old = volume(alloc, 7)?;
    let new = volume(alloc, 13)?;
    let before = image(alloc, &old, 3, &[])?;
    for stop in 0..34 {
        for torn in TEARS {
            let mut flash = stopping(alloc, before.to_vec(alloc)?, Some(stop), torn);
            assert_eq!(rt; writes(&rt, &mut flash, 3, &new), Err(Device), "{stop}");
            assert_eq!(rt; flash.flash.calls(), stop + 1);
            if stop > 17 || stop == 17 && torn != Torn::Before {
                check_mount(&rt, alloc, flash.release(), &new, 4)?;
            } else {
                check_mount(&rt, alloc, flash.release(), &old, 3)?;
            }
        }
    }
    let mut flash = whole(alloc, before);
    assert_eq!(rt; writes(&rt, &mut flash, 3, &new), Ok(4));
    assert_eq!(rt; flash.flash.calls(), 34);
    check_mount(&rt, alloc, flash.release(), &new, 4)?;
    Ok(())
}

// It has 19 steps: it reads a block of the spare, the work area and the content, and does as the write would have.
#[test]
fn a_mount_that_finishes_a_write_is_made_again(rt: HostRuntime) -> Result<(), Fail> {
    let alloc = rt.alloc();
    let old = volume(alloc, 7)?;
    let new = volume(alloc, 13)?;
    let mut pending = image(alloc, &old, 3, &[PENDING])?;
    put(&mut pending, 65_536, &new);
    for stop in 0..19 {
        check_stopped_mount(&rt, alloc, &pending, &new, 4, stop)?;
    }
    Ok(())
}

// It has 20 steps: it reads the 16 blocks of the spare and the work area first.
#[test]
fn a_mount_that_makes_the_work_area_is_made_again(rt: HostRuntime) -> Result<(), Fail> {
    let alloc = rt.alloc();
    let old = volume(alloc, 7)?;
    let unmade = image(alloc, &old, 3, &[CLOSED])?;
    for stop in 0..20 {
        check_stopped_mount(&rt, alloc, &unmade, &old, 0, stop)?;
    }
    Ok(())
}

// Where all slots are used, 19 steps come first: 16 erase the spare, then the work area is erased, its 15 bytes are programmed and its gate is
// opened.
#[test]
fn a_write_where_all_slots_are_used_renews_the_work_area(rt: HostRuntime) -> Result<(), Fail> {
    let alloc = rt.alloc();
    let old = volume(alloc, 7)?;
    let new = volume(alloc, 13)?;
    let before = image(alloc, &old, 255, &[(65_536, 0), (131_071, 0)])?;
    for stop in 0..53 {
        for torn in TEARS {
            let mut flash = stopping(alloc, before.to_vec(alloc)?, Some(stop), torn);
            assert_eq!(rt; writes(&rt, &mut flash, 255, &new), Err(Device), "{stop}");
            if stop > 36 || stop == 36 && torn != Torn::Before {
                check_mount(&rt, alloc, flash.release(), &new, 1)?;
            } else if stop < 16 || stop == 16 && torn == Torn::Before {
                check_mount(&rt, alloc, flash.release(), &old, 255)?;
            } else {
                check_mount(&rt, alloc, flash.release(), &old, 0)?;
            }
        }
    }
    let mut flash = whole(alloc, before);
    assert_eq!(rt; writes(&rt, &mut flash, 255, &new), Ok(1));
    assert_eq!(rt; flash.flash.calls(), 53);
    Ok(())
}

fn spare_of(bytes: &[u8]) -> &[u8] {
    match bytes.split_at_checked(65_536) {
        Some((_, spare)) => spare,
        None => &[],
    }
}

#[test]
fn a_mount_goes_by_spare_and_work_area(rt: HostRuntime) -> Result<(), Fail> {
    let alloc = rt.alloc();
    let content = volume(alloc, 7)?;
    // what is answered, and how many steps write
    let cases: [(&[(usize, u8)], Result<u32, MountFault>, bool); 6] = [
        (&[], Ok(3), true),
        (&[PENDING], Ok(0), false),
        (&[CLOSED], Ok(0), false),
        (&[USED], Ok(3), true),
        (&[USED, PENDING], Ok(4), false),
        (&[USED, CLOSED], Err(MountFault::ForeignWork), true),
    ];
    for (others, answer, stays) in cases {
        let before = image(alloc, &content, 3, others)?;
        let mut buffer = vec![in alloc; 0u8; VOLUME]?;
        let mut flash = whole(alloc, before.to_vec(alloc)?);
        assert_eq!(rt; mounts(&rt, &mut flash, &mut buffer), answer);
        assert_eq!(rt; flash.flash.bytes() == before.as_slice(), stays);
        assert_eq!(rt; spare_of(flash.flash.bytes()), spare_of(&before));
    }
    Ok(())
}

#[test]
fn what_was_read_says_what_counts(rt: HostRuntime) -> Result<(), Fail> {
    let alloc = rt.alloc();
    let content = volume(alloc, 7)?;
    let clean = WorkState::Clean { slots: 3 };
    let pending = WorkState::Pending { slot: 3 };
    let cases: [(&[(usize, u8)], WorkState, bool, bool); 6] = [
        (&[], clean, true, false),
        (&[PENDING], pending, true, false),
        (&[CLOSED], WorkState::Unclean, true, false),
        (&[USED], clean, false, false),
        (&[USED, PENDING], pending, false, false),
        (&[USED, CLOSED], WorkState::Unclean, false, true),
    ];
    for (others, state, blank, is_foreign) in cases {
        let before = image(alloc, &content, 3, others)?;
        let mut buffer = vec![in alloc; 0u8; VOLUME]?;
        let mut flash = whole(alloc, before);
        assert!(rt; flash.len() == 131_072);
        assert!(rt; buffer.len() == VOLUME);
        let kept = read_kept(&mut flash, &mut buffer).expect(&rt, "it is read");
        assert_eq!(rt; kept.state, state);
        assert_eq!(rt; kept.blank, blank);
        assert_eq!(rt; kept.is_foreign(), is_foreign);
        let counts_spare = state == pending && !blank;
        assert_eq!(rt; buffer.as_slice() == content.as_slice(), !counts_spare);
    }
    Ok(())
}
