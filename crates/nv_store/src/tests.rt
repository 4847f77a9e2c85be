ghost use Rattle.std.specs.Prelude.{◌≡◌, ◌+◌, ◌*◌, ◌≤◌, None, length};
ghost use Rattle.outside.specs.Faults.{HasCause};
ghost use Rattle.var_types.specs.Layout.{block_size};

use crate::{LoadWhy, NvStore, StoreFault};
use flash_dev::{Device, FaultPlan, Flash, ImageFault, MemFlash, Torn, format_image};
use std::alloc::{AllocError, Global};
use std::process::Abort;
use std::test::Fail;
use var_header::{Header, write_header};
use var_region::{NewRecord, region_in};
use var_types::{Guid, Stamp, Store, check_name};

const IMAGE: usize = 131_072;

const VOLUME: usize = 57_344;

const KEYS: u8 = 40;

const NAME: [u16; 1] = [0x41];

const MARK: [u8; 16] = *b"VARSVC-FTW-0001\xFE";

const TEARS: [Torn; 3] = [Torn::Before, Torn::Half, Torn::After];

// A record as it stands in a volume: its state, its key, how many bytes of data it has, and what they all are. A key is the first byte of a GUID.
#[derive(Clone, Copy)]
struct Part(u8, u8, u16, u8);

// A put of a key with so many bytes of data, which all are this one, or a removal.
#[derive(Clone, Copy)]
enum Change {
    Put(u8, u16, u8),
    Remove(u8),
}

// A flash in memory that tells no bytes. Its work area becomes another program's just before the first record is programmed.
#[derive(Drop)]
struct Hidden {
    flash: MemFlash,
}

impl Hidden {
    // The work area's header gate is closed.
    fn spoil(&mut self) -> Result<(), Device>
        ensures size { length self.new.flash.bytes ≡ length self.old.flash.bytes }
        ensures cause { HasCause self.old.flash.faults self.new.flash.faults result }
    {
        if self.flash.len() == 131_072 {
            self.flash.program(61_455, &[0])
        } else {
            Ok(())
        }
    }
}

impl Flash for Hidden {
    ghost size = { λ h. length h.flash.bytes };

    ghost holds = { λ _. None };

    ghost fault_count = { λ h. h.flash.faults };

    ghost moment = { λ _. 0 };

    ghost left_since = { λ _ _ _. Unit {0} };

    fn len(&self) -> u64 {
        self.flash.len()
    }

    fn faults(&self) -> u64 {
        self.flash.faults()
    }

    fn read(&mut self, at: u32, into: &mut [u8]) -> Result<(), Device>
        requires { at + length into.old ≤ length self.old.flash.bytes }
        ensures size { length self.new.flash.bytes ≡ length self.old.flash.bytes }
        ensures cause { HasCause self.old.flash.faults self.new.flash.faults result }
    {
        self.flash.read(at, into)
    }

    fn program(&mut self, at: u32, bytes: &[u8]) -> Result<(), Device>
        requires { at + length bytes.now ≤ length self.old.flash.bytes }
        ensures size { length self.new.flash.bytes ≡ length self.old.flash.bytes }
        ensures cause { HasCause self.old.flash.faults self.new.flash.faults result }
    {
        if at == 100 {
            self.spoil()?;
        }
        self.flash.program(at, bytes)
    }

    fn erase(&mut self, block: u32) -> Result<(), Device>
        requires { block_size * block + block_size ≤ length self.old.flash.bytes }
        ensures size { length self.new.flash.bytes ≡ length self.old.flash.bytes }
        ensures cause { HasCause self.old.flash.faults self.new.flash.faults result }
    {
        self.flash.erase(block)
    }

    ghost sized = { λ h. tt };

    ghost counts_now = { λ h t left early now. tt };

    ghost only_now = { λ h left since. tt };
}

fn guid(key: u8) -> Guid {
    let mut bytes = [0; 16];
    bytes[0] = key;
    Guid { bytes }
}

fn flash_of(
    alloc: Global,
    bytes: &[u8],
    fails: &[u32],
    stop_at: Option<u32>,
    torn: Torn,
) -> Result<MemFlash, AllocError> {
    let fails = fails.to_vec(alloc)?;
    let plan = FaultPlan {
        fails,
        stop_at,
        torn,
    };
    Ok(MemFlash::new(bytes.to_vec(alloc)?, plan))
}

fn load<F: Flash>(rt: &impl Abort, alloc: Global, flash: F) -> NvStore<F> {
    match NvStore::load(alloc, flash) {
        Ok(store) => store,
        Err(_) => panic!(rt; "no store is opened"),
    }
}

fn load_bytes(
    rt: &impl Abort,
    alloc: Global,
    bytes: &[u8],
) -> Result<NvStore<MemFlash>, AllocError> {
    Ok(load(rt, alloc, flash_of(alloc, bytes, &[], None, Torn::Before)?))
}

fn write<F: Flash>(
    rt: &impl Abort,
    store: &mut NvStore<F>,
    key: u8,
    data: &[u8],
) -> Result<(), StoreFault> {
    assert!(rt; !store.in_doubt());
    assert!(rt; data.len() <= 65_536);
    assert!(rt; check_name(&NAME).is_ok());
    let new = NewRecord {
        guid: guid(key),
        name: &NAME,
        attributes: 7,
        stamp: Stamp { bytes: [0; 16] },
        payload: data,
    };
    store.put(&new)
}

fn remove<F: Flash>(rt: &impl Abort, store: &mut NvStore<F>, key: u8) -> Result<(), StoreFault> {
    assert!(rt; !store.in_doubt());
    assert!(rt; store.mirror().len() == VOLUME);
    let owner = guid(key);
    if region_in(Store::NonVolatile, store.mirror())
        .find(&owner, &NAME)
        .is_some()
    {
        store.remove(&owner, &NAME)
    } else {
        panic!(rt; "no variable is there to be removed")
    }
}

fn make<F: Flash>(
    rt: &impl Abort,
    alloc: Global,
    store: &mut NvStore<F>,
    change: Change,
) -> Result<Result<(), StoreFault>, AllocError> {
    match change {
        Change::Put(key, size, byte) => {
            let data = vec![in alloc; byte; usize::from(size)]?;
            Ok(write(rt, store, key, &data))
        }
        Change::Remove(key) => Ok(remove(rt, store, key)),
    }
}

// A variable as a number: 256 times the size of its data, and its first byte; one that has other bytes too is the greatest.
fn number_of(data: &[u8]) -> u32 {
    let first = data.first().copied().unwrap_or(0);
    for byte in data {
        if *byte != first {
            return u32::MAX;
        }
    }
    u32::try_from(data.len())
        .unwrap_or(0)
        .wrapping_mul(256)
        .wrapping_add(u32::from(first))
}

// What a mirror has of each key; 0 where it has nothing.
fn shown(rt: &impl Abort, alloc: Global, mirror: &[u8]) -> Result<Vec<u32>, AllocError> {
    assert!(rt; mirror.len() == VOLUME);
    let region = region_in(Store::NonVolatile, mirror);
    let mut numbers = Vec::new(alloc);
    for key in 0..KEYS {
        let number = match region.find(&guid(key), &NAME) {
            Some(found) => number_of(found.payload),
            None => 0,
        };
        numbers.push(number)?;
    }
    Ok(numbers)
}

// What is shown after a change.
fn changed(alloc: Global, before: &[u32], change: Change) -> Result<Vec<u32>, AllocError> {
    let (at, number) = match change {
        Change::Put(key, size, byte) => (
            key,
            u32::from(size)
                .wrapping_mul(256)
                .wrapping_add(u32::from(byte)),
        ),
        Change::Remove(key) => (key, 0),
    };
    let mut after = before.to_vec(alloc)?;
    if let Some(place) = after.get_mut(usize::from(at)) {
        *place = number;
    }
    Ok(after)
}

// What an image keeps, which two openings of it show alike.
fn kept(rt: &impl Abort, alloc: Global, bytes: &[u8]) -> Result<Vec<u32>, AllocError> {
    let store = load_bytes(rt, alloc, bytes)?;
    let first = shown(rt, alloc, store.mirror())?;
    let after = store.release().release();
    let again = load_bytes(rt, alloc, &after)?;
    assert_eq!(rt; shown(rt, alloc, again.mirror())?, first);
    assert!(rt; again.flash().bytes() == after.as_slice());
    Ok(first)
}

fn put_bytes(into: &mut [u8], at: usize, bytes: &[u8]) {
    for (place, byte) in into.iter_mut().skip(at).zip(bytes) {
        *place = *byte;
    }
}

// The records one behind the other, each at a multiple of 4.
fn push(bytes: &mut Vec<u8>, part: &Part) -> Result<(), AllocError> {
    let owner = guid(part.1);
    let owner = owner.bytes;
    let header = Header {
        state: part.0,
        attributes: 7,
        time_stamp: [0; 16],
        name_size: 4,
        data_size: u32::from(part.2),
        vendor_guid: owner,
    };
    let mut written = [0; 60];
    write_header(&header, &mut written);
    bytes.extend_from_slice(&written)?;
    bytes.extend_from_slice(&[0x41, 0, 0, 0])?;
    for _ in 0..part.2 {
        bytes.push(part.3)?;
    }
    for _ in 0..3 {
        if bytes.len() % 4 != 0 {
            bytes.push(0xFF)?;
        }
    }
    Ok(())
}

// An image of these records, of which so many slots are used, and a blank spare; with other bytes at some offsets.
fn image(
    rt: &impl Abort,
    alloc: Global,
    parts: &[Part],
    used: usize,
    others: &[(usize, u8)],
) -> Result<Vec<u8>, AllocError> {
    let blank = vec![in alloc; 0xFFu8; IMAGE]?;
    let mut flash = flash_of(alloc, &blank, &[], None, Torn::Before)?;
    assert!(rt; format_image(&mut flash).is_ok());
    let mut bytes = flash.release();
    let mut records = Vec::new(alloc);
    for part in parts {
        push(&mut records, part)?;
    }
    put_bytes(&mut bytes, 100, &records);
    put_bytes(&mut bytes, 61_440, &MARK);
    for slot in bytes.chunks_mut(16).skip(3841).take(used) {
        put_bytes(slot, 0, &[0xFE, 0xFE]);
    }
    for (at, byte) in others {
        put_bytes(&mut bytes, *at, &[*byte]);
    }
    Ok(bytes)
}

// How many calls an opening of an image makes.
fn opening_calls(rt: &impl Abort, alloc: Global, bytes: &[u8]) -> Result<u32, AllocError> {
    let store = load_bytes(rt, alloc, bytes)?;
    Ok(store.flash().calls())
}

// A change of an image, which takes so many steps, is stopped at each of them with each tear: the mirror stays, and the image keeps what was before or
// what is after. Gives the image after the whole change.
fn check_stopped(
    rt: &impl Abort,
    alloc: Global,
    bytes: &[u8],
    change: Change,
    steps: u32,
) -> Result<Vec<u8>, AllocError> {
    let opening = opening_calls(rt, alloc, bytes)?;
    let mut store = load_bytes(rt, alloc, bytes)?;
    let before = shown(rt, alloc, store.mirror())?;
    let after = changed(alloc, &before, change)?;
    assert_eq!(rt; make(rt, alloc, &mut store, change)?, Ok(()));
    assert_eq!(rt; store.flash().calls().wrapping_sub(opening), steps);
    assert_eq!(rt; shown(rt, alloc, store.mirror())?, after);
    let whole = store.release().release();
    assert_eq!(rt; kept(rt, alloc, &whole)?, after);
    for stop in 0..steps {
        for torn in TEARS {
            let stop_at = Some(opening.wrapping_add(stop));
            let flash = flash_of(alloc, bytes, &[], stop_at, torn)?;
            let mut stopped = load(rt, alloc, flash);
            assert_eq!(rt;
                make(rt, alloc, &mut stopped, change)?,
                Err(StoreFault::Device)
            );
            assert!(rt; stopped.in_doubt());
            assert_eq!(rt; shown(rt, alloc, stopped.mirror())?, before);
            let left = kept(rt, alloc, stopped.flash().bytes())?;
            assert!(rt; left == before || left == after, "{stop}");
        }
    }
    Ok(whole)
}

// Each step of a change fails once, and then the first call of a healing, and the next healing is done: what was before stands again.
fn check_healed(
    rt: &impl Abort,
    alloc: Global,
    bytes: &[u8],
    change: Change,
    steps: u32,
) -> Result<(), AllocError> {
    let opening = opening_calls(rt, alloc, bytes)?;
    for fail in 0..steps {
        for torn in TEARS {
            let at = opening.wrapping_add(fail);
            let flash = flash_of(alloc, bytes, &[at, at.wrapping_add(1)], None, torn)?;
            let mut store = load(rt, alloc, flash);
            let before = shown(rt, alloc, store.mirror())?;
            assert_eq!(rt;
                make(rt, alloc, &mut store, change)?,
                Err(StoreFault::Device)
            );
            assert_eq!(rt; store.heal(), Err(Device));
            assert!(rt; store.in_doubt());
            assert_eq!(rt; store.heal(), Ok(()));
            assert!(rt; !store.in_doubt());
            assert_eq!(rt; shown(rt, alloc, store.mirror())?, before);
            assert_eq!(rt; kept(rt, alloc, store.flash().bytes())?, before);
        }
    }
    Ok(())
}

// Records, a change, and how many steps it takes.
struct Case {
    parts: &'static [Part],
    change: Change,
    steps: u32,
    why: &'static str,
}

const CASES: [Case; 9] = [
    Case {
        parts: &[],
        change: Change::Put(1, 1, 5),
        steps: 4,
        why: "a first record",
    },
    Case {
        parts: &[Part(0x3F, 1, 3, 4)],
        change: Change::Put(1, 1, 5),
        steps: 6,
        why: "an ADDED record gets another value",
    },
    Case {
        parts: &[Part(0x3E, 1, 3, 4)],
        change: Change::Put(1, 1, 5),
        steps: 5,
        why: "a lone record in transition gets another value",
    },
    Case {
        parts: &[Part(0x3E, 1, 3, 4), Part(0x3F, 1, 2, 3)],
        change: Change::Put(1, 1, 5),
        steps: 7,
        why: "a twin before the ADDED record",
    },
    Case {
        parts: &[
            Part(0x3F, 1, 3, 4),
            Part(0x3F, 2, 1, 9),
            Part(0x3E, 1, 2, 3),
        ],
        change: Change::Put(1, 1, 5),
        steps: 7,
        why: "a twin behind it",
    },
    Case {
        parts: &[Part(0x3F, 1, 3, 4), Part(0x3F, 2, 1, 9)],
        change: Change::Remove(1),
        steps: 1,
        why: "a removal",
    },
    Case {
        parts: &[Part(0x3E, 1, 3, 4)],
        change: Change::Remove(1),
        steps: 1,
        why: "a removal of a lone record in transition",
    },
    Case {
        parts: &[Part(0x3E, 1, 1, 1), Part(0x3F, 1, 1, 2)],
        change: Change::Remove(1),
        steps: 2,
        why: "a removal with a twin before the ADDED record",
    },
    Case {
        parts: &[Part(0x3F, 1, 3, 4), Part(0x3E, 1, 2, 3)],
        change: Change::Remove(1),
        steps: 2,
        why: "a removal with a twin behind it",
    },
];

#[test]
fn a_change_in_place_is_whole_at_each_step(rt: HostRuntime) -> Result<(), Fail> {
    let alloc = rt.alloc();
    for case in &CASES {
        let bytes = image(&rt, alloc, case.parts, 3, &[])?;
        let after = check_stopped(&rt, alloc, &bytes, case.change, case.steps)?;
        assert!(rt; after.len() == IMAGE, "{}", case.why);
        check_healed(&rt, alloc, &bytes, case.change, case.steps)?;
    }
    Ok(())
}

// A removal with a twin makes two programs, of the twin's state byte and then of the ADDED record's.
#[test]
fn a_removal_deletes_the_twin_first(rt: HostRuntime) -> Result<(), Fail> {
    let alloc = rt.alloc();
    let parts = [Part(0x3E, 1, 1, 1), Part(0x3F, 1, 1, 2)];
    let bytes = image(&rt, alloc, &parts, 3, &[])?;
    let opening = opening_calls(&rt, alloc, &bytes)?;
    let cases: [(u32, Torn, u8, u8); 4] = [
        (0, Torn::Before, 0x3E, 0x3F),
        (0, Torn::After, 0x3C, 0x3F),
        (1, Torn::Before, 0x3C, 0x3F),
        (1, Torn::After, 0x3C, 0x3D),
    ];
    for (stop, torn, twin, added) in cases {
        let stop_at = Some(opening.wrapping_add(stop));
        let mut store = load(&rt, alloc, flash_of(alloc, &bytes, &[], stop_at, torn)?);
        assert_eq!(rt; remove(&rt, &mut store, 1), Err(StoreFault::Device));
        let mut left = bytes.to_vec(alloc)?;
        put_bytes(&mut left, 102, &[twin]);
        put_bytes(&mut left, 170, &[added]);
        assert!(rt; store.flash().bytes() == left.as_slice());
    }
    Ok(())
}

// A store whose room is full: 30,064 and 27,180 bytes of records.
const FULL: [Part; 2] = [Part(0x3F, 1, 30_000, 0xA1), Part(0x3F, 2, 27_116, 0xB2)];

// A write through the spare has 34 steps. Where all slots are used, 19 more come first.
#[test]
fn a_write_through_the_spare_is_whole_at_each_step(rt: HostRuntime) -> Result<(), Fail> {
    let alloc = rt.alloc();
    let change = Change::Put(2, 27_116, 0xB3);
    for (used, steps) in [(3, 34), (254, 34), (255, 53)] {
        let bytes = image(&rt, alloc, &FULL, used, &[])?;
        let after = check_stopped(&rt, alloc, &bytes, change, steps)?;
        check_healed(&rt, alloc, &bytes, change, steps)?;
        assert!(rt; after.len() == IMAGE);
    }
    Ok(())
}

// A change, its answer, and how many steps it takes.
#[derive(Clone, Copy)]
struct Step(Change, Result<(), StoreFault>, u32);

// Changes of a store of these records, one after the other.
fn check_steps(
    rt: &impl Abort,
    alloc: Global,
    parts: &[Part],
    steps: &[Step],
) -> Result<(), AllocError> {
    let bytes = image(rt, alloc, parts, 3, &[])?;
    let mut store = load_bytes(rt, alloc, &bytes)?;
    let mut map = shown(rt, alloc, store.mirror())?;
    for step in steps {
        let calls = store.flash().calls();
        assert_eq!(rt; make(rt, alloc, &mut store, step.0)?, step.1);
        assert_eq!(rt; store.flash().calls().wrapping_sub(calls), step.2);
        if step.1.is_ok() {
            map = changed(alloc, &map, step.0)?;
        }
        assert_eq!(rt; shown(rt, alloc, store.mirror())?, map);
        assert_eq!(rt; kept(rt, alloc, store.flash().bytes())?, map);
    }
    Ok(())
}

fn no_room(need: u32) -> Result<(), StoreFault> {
    Err(StoreFault::NoRoom { need, have: 57_244 })
}

#[test]
fn a_full_store_goes_on_where_there_is_room(rt: HostRuntime) -> Result<(), Fail> {
    let alloc = rt.alloc();
    let half = Change::Put(1, 33_728, 7);
    let first = [
        Step(half, Ok(()), 4),
        Step(Change::Put(2, 33_728, 7), no_room(67_584), 0),
        Step(half, Ok(()), 34),
    ];
    check_steps(&rt, alloc, &[], &first)?;
    let second = [
        Step(Change::Put(2, 27_116, 0xB3), Ok(()), 34),
        Step(Change::Put(2, 27_117, 0xB4), no_room(57_248), 0),
        Step(Change::Remove(1), Ok(()), 1),
        Step(Change::Put(3, 30_000, 0xC1), Ok(()), 34),
    ];
    check_steps(&rt, alloc, &FULL, &second)?;
    Ok(())
}

// What is left over is put in order by a write through the spare, each of whose steps may be the last before the next opening.
#[test]
fn an_opening_puts_in_order_what_is_left_over(rt: HostRuntime) -> Result<(), Fail> {
    let alloc = rt.alloc();
    // records, a byte at 300, what the first key has then, and whether it is in order
    let cases: [(&[Part], u8, u32, bool); 6] = [
        (&[Part(0x3F, 1, 3, 4)], 0xFF, 772, true),
        (&[Part(0x3F, 1, 3, 4), Part(0x3E, 1, 2, 3)], 0xFF, 772, true),
        (&[Part(0x3F, 1, 3, 4)], 0xFE, 772, false),
        (
            &[Part(0x3F, 1, 3, 4), Part(0x3F, 1, 2, 3)],
            0xFF,
            772,
            false,
        ),
        (
            &[Part(0x3E, 1, 3, 4), Part(0x3E, 1, 2, 3)],
            0xFF,
            515,
            false,
        ),
        (
            &[Part(0x3F, 1, 3, 4), Part(0xFF, 1, 2, 3)],
            0xFF,
            772,
            false,
        ),
    ];
    for (parts, byte, number, is_in_order) in cases {
        let bytes = image(&rt, alloc, parts, 3, &[(300, byte)])?;
        let mut map = vec![in alloc; 0u32; usize::from(KEYS)]?;
        if let Some(first) = map.get_mut(1) {
            *first = number;
        }
        assert_eq!(rt; kept(&rt, alloc, &bytes)?, map);
        let store = load_bytes(&rt, alloc, &bytes)?;
        let calls = store.flash().calls();
        assert_eq!(rt; store.flash().bytes() == bytes.as_slice(), is_in_order);
        for stop in 0..calls {
            for torn in TEARS {
                let flash = flash_of(alloc, &bytes, &[], Some(stop), torn)?;
                match NvStore::load(alloc, flash) {
                    Ok(_) => panic!(rt; "the opening goes on"),
                    Err(fault) => {
                        assert_eq!(rt; fault.why, LoadWhy::Device);
                        assert_eq!(rt; kept(&rt, alloc, fault.flash.bytes())?, map);
                    }
                }
            }
        }
    }
    Ok(())
}

#[test]
fn an_image_is_refused_for_its_length_its_headers_and_foreign_work(
    rt: HostRuntime,
) -> Result<(), Fail> {
    let alloc = rt.alloc();
    let short = LoadWhy::Image(ImageFault::ImageSize {
        have: 57_344,
        want: 131_072,
    });
    let headers = LoadWhy::Image(ImageFault::NotAVolume { at: 40 });
    let wrong = (40, 0);
    let used = (131_071, 0);
    let closed = (61_455, 0xFF);
    let cases: [(&[(usize, u8)], usize, LoadWhy); 5] = [
        (&[wrong, used, closed], 57_344, short),
        (&[wrong], IMAGE, headers),
        (&[wrong, used, closed], IMAGE, headers),
        (&[used, closed], IMAGE, LoadWhy::ForeignWork),
        (
            &[(61_504, 0xFE), used, wrong],
            IMAGE,
            LoadWhy::Image(ImageFault::NotAVolume { at: 16 }),
        ),
    ];
    for (others, size, why) in cases {
        let mut bytes = image(&rt, alloc, &[Part(0x3F, 1, 3, 4)], 3, others)?;
        bytes.truncate(size);
        match NvStore::load(alloc, flash_of(alloc, &bytes, &[], None, Torn::Before)?) {
            Ok(_) => panic!(rt; "the image is accepted"),
            Err(fault) => {
                assert_eq!(rt; fault.why, why);
                assert!(rt; fault.flash.bytes() == bytes.as_slice());
            }
        }
    }
    Ok(())
}

// A put fails at a step, and then the healing is stopped at each of its steps: what was kept after the put stands, or the mirror.
#[test]
fn a_healing_that_is_stopped_keeps_the_old_or_the_mirror(rt: HostRuntime) -> Result<(), Fail> {
    let alloc = rt.alloc();
    let bytes = image(&rt, alloc, &[Part(0x3F, 1, 3, 4)], 3, &[])?;
    let opening = opening_calls(&rt, alloc, &bytes)?;
    let change = Change::Put(1, 1, 5);
    for (step, torn) in [(1, Torn::Half), (4, Torn::Before), (4, Torn::After)] {
        let fail = opening.wrapping_add(step);
        let mut healed = 0u32;
        for more in 0..60u32 {
            let stop_at = Some(fail.wrapping_add(1).wrapping_add(more));
            let flash = flash_of(alloc, &bytes, &[fail], stop_at, torn)?;
            let mut store = load(&rt, alloc, flash);
            let mirror = shown(&rt, alloc, store.mirror())?;
            assert_eq!(rt;
                make(&rt, alloc, &mut store, change)?,
                Err(StoreFault::Device)
            );
            let entry = kept(&rt, alloc, store.flash().bytes())?;
            let answer = store.heal();
            let left = kept(&rt, alloc, store.flash().bytes())?;
            assert_eq!(rt; answer.is_err(), store.in_doubt());
            if answer.is_ok() {
                healed = healed.wrapping_add(1);
                assert_eq!(rt; left, mirror);
            } else {
                assert!(rt; left == mirror || left == entry);
            }
        }
        assert!(rt; healed > 0);
    }
    Ok(())
}

// A flash that tells no bytes, and whose spare is used, comes to hold foreign work while a put fails; a healing erases the spare and goes on.
#[test]
fn a_healing_goes_on_past_foreign_work(rt: HostRuntime) -> Result<(), Fail> {
    let alloc = rt.alloc();
    let bytes = image(&rt, alloc, &[], 3, &[(131_071, 0)])?;
    let opening = opening_calls(&rt, alloc, &bytes)?;
    let fails = [opening.wrapping_add(1)];
    let flash = flash_of(alloc, &bytes, &fails, None, Torn::Before)?;
    let mut store = load(&rt, alloc, Hidden { flash });
    assert_eq!(rt;
        make(&rt, alloc, &mut store, Change::Put(1, 1, 5))?,
        Err(StoreFault::Device)
    );
    let foreign = store.flash().flash.bytes().to_vec(alloc)?;
    match NvStore::load(alloc, flash_of(alloc, &foreign, &[], None, Torn::Before)?) {
        Ok(_) => panic!(rt; "foreign work is accepted"),
        Err(fault) => assert_eq!(rt; fault.why, LoadWhy::ForeignWork),
    }
    assert_eq!(rt; store.heal(), Ok(()));
    let before = shown(&rt, alloc, store.mirror())?;
    assert_eq!(rt; kept(&rt, alloc, store.flash().flash.bytes())?, before);
    Ok(())
}

fn next(seed: u32) -> u32 {
    seed.wrapping_mul(1_664_525).wrapping_add(1_013_904_223)
}

// A removal of a variable that is there, or a put of 1,200 to 1,999 bytes; all forty have no room.
fn change_of(seed: u32, map: &[u32]) -> Change {
    let key = (seed >> 8).checked_rem(u32::from(KEYS)).unwrap_or(0);
    let key = u8::try_from(key).unwrap_or(0);
    let is_there = map.get(usize::from(key)).copied().unwrap_or(0) != 0;
    if is_there && (seed >> 28) & 3 == 0 {
        return Change::Remove(key);
    }
    let size = u16::try_from((seed >> 12) % 800).unwrap_or(0);
    let [_, byte, _, _] = seed.to_le_bytes();
    Change::Put(key, size.saturating_add(1200), byte)
}

// 300 changes of a nearly full store, of which each tenth is stopped somewhere, and the store opened again.
#[test]
fn random_changes_are_those_of_a_map(rt: HostRuntime) -> Result<(), Fail> {
    let alloc = rt.alloc();
    let mut bytes = image(&rt, alloc, &[], 3, &[])?;
    let mut map = vec![in alloc; 0u32; usize::from(KEYS)]?;
    let mut seed = 1;
    for _ in 0..30 {
        let mut store = load_bytes(&rt, alloc, &bytes)?;
        for _ in 0..9 {
            seed = next(seed);
            let change = change_of(seed, &map);
            match make(&rt, alloc, &mut store, change)? {
                Ok(()) => map = changed(alloc, &map, change)?,
                Err(fault) => assert!(rt; fault != StoreFault::Device),
            }
            assert_eq!(rt; shown(&rt, alloc, store.mirror())?, map);
        }
        bytes = store.release().release();
        seed = next(seed);
        let change = change_of(seed, &map);
        let opening = opening_calls(&rt, alloc, &bytes)?;
        let stop_at = Some(opening.wrapping_add((seed >> 20) % 40));
        let flash = flash_of(alloc, &bytes, &[], stop_at, Torn::Half)?;
        let mut stopped = load(&rt, alloc, flash);
        let answer = make(&rt, alloc, &mut stopped, change)?;
        let after = changed(alloc, &map, change)?;
        bytes = stopped.release().release();
        let left = kept(&rt, alloc, &bytes)?;
        match answer {
            Ok(()) => assert_eq!(rt; left, after),
            Err(StoreFault::NoRoom { .. }) => assert_eq!(rt; left, map),
            Err(StoreFault::Device) => assert!(rt; left == map || left == after),
        }
        map = left;
    }
    Ok(())
}
