//! Random calls, answered by the writer's side and by the one-thread service: replies, histories and variables are the same.
ghost use Rattle.std.specs.Prelude.{◌≡◌, ◌≤◌, length};

use crate::Engine;
use flash_dev::{FaultPlan, MemFlash, Torn, format_image};
use std::alloc::Global;
use std::test::Fail;
use svc_plain::Plain;
use var_region::region_in;
use var_types::{
    Bytes, Call, GetAnswer, GetCall, GetReply, Guid, Key, NextAnswer, NextCall, NextReply,
    PolicyCall, PolicyReply, Reply, SetCall, SetReply, Store, Units, Verdict,
};

const IMAGE_BYTES: usize = 131_072;

const CALLS: u32 = 300;

const LIMIT: u64 = 400;

const SEEDS: [u64; 8] = [1, 2, 3, 5, 8, 13, 21, 34];

const VENDORS: [Guid; 2] = [Guid { bytes: [7; 16] }, Guid { bytes: [9; 16] }];

/// NV 1, BS 2, RT 4, AUTH 0x10, TIME 0x20, APPEND 0x40; a set without an access bit deletes.
const ATTRIBUTES: [u32; 16] = [
    3, 3, 2, 7, 7, 6, 6, 0x43, 0x42, 0x47, 0x46, 0x27, 0x67, 0, 4, 0x17,
];

/// The attributes that most sets of a digit have.
const OF_DIGIT: [u32; 6] = [3, 2, 7, 6, 7, 0x27];

/// How many bytes a payload has: none deletes.
const SIZES: [usize; 8] = [0, 1, 1, 2, 3, 40, 700, 3000];

const LOCKS: [u8; 8] = [0, 0, 0, 0, 1, 2, 3, 4];

/// Numbers that look random: the high bits of a linear congruence.
#[derive(Clone, Copy)]
struct Random {
    state: u64,
}

impl Random {
    fn below(&mut self, bound: u8) -> u8 {
        let next = self.state.wrapping_mul(6_364_136_223_846_793_005);
        self.state = next.wrapping_add(1_442_695_040_888_963_407);
        ((self.state >> 33) % u64::from(bound.max(1))) as u8
    }

    fn pick<T: Copy>(&mut self, items: &[T], other: T) -> T {
        let at = usize::from(self.below(240)) % items.len().max(1);
        match items.get(at) {
            Some(item) => *item,
            None => other,
        }
    }
}

/// A name of a digit or a letter, now and then an ill-formed one.
fn name(alloc: Global, random: &mut Random) -> Result<Units, Fail> {
    let unit = 0x30 + u16::from(random.below(6));
    Ok(match random.below(24) {
        0 => Units::new(alloc, &[])?,
        1 => Units::new(alloc, &[unit, 0])?,
        2 => Units::new(alloc, &[0x41])?,
        _ => Units::new(alloc, &[unit])?,
    })
}

/// The bytes of a set: with TIME they begin with the descriptor of a month of 2026.
fn data(alloc: Global, random: &mut Random, attributes: u32) -> Result<Bytes, Fail> {
    let mut bytes = Bytes::new(alloc);
    if attributes & 0x20 != 0 {
        let month = random.below(12).saturating_add(1);
        bytes.append(&[0xEA, 0x07, month, 1, 0, 0, 0, 0, 0, 0, 0, 0, 0, 0, 0, 0])?;
        bytes.append(&[24, 0, 0, 0, 0, 2, 0xF1, 0x0E])?;
        bytes.append(&[0x9D, 0xD2, 0xAF, 0x4A, 0xDF, 0x68, 0xEE, 0x49])?;
        bytes.append(&[0x8A, 0xA9, 0x34, 0x7D, 0x37, 0x56, 0x65, 0xA7])?;
    }
    let value = random.below(2);
    let size = random.pick(&SIZES, 0);
    bytes.append(&vec![in alloc; value; size]?)?;
    Ok(bytes)
}

fn set_call(alloc: Global, random: &mut Random) -> Result<Call, Fail> {
    let name = name(alloc, random)?;
    let digit = name.as_slice().first().map(|unit| usize::from(unit & 7));
    let usual = match digit.and_then(|digit| OF_DIGIT.get(digit)) {
        Some(attributes) => *attributes,
        None => 7,
    };
    let attributes = match random.below(4) {
        0 => random.pick(&ATTRIBUTES, 7),
        1 => usual | 0x40,
        _ => usual,
    };
    Ok(Call::Set(SetCall {
        guid: random.pick(&VENDORS, Guid { bytes: [7; 16] }),
        name,
        attributes,
        bytes: data(alloc, random, attributes)?,
        verdict: if random.below(8) == 0 {
            Verdict::Bad
        } else {
            Verdict::Good
        },
    }))
}

/// A policy's entry: of a digit, of `#`, or without a name; with a least size, a greatest one, bits, and a lock of any type.
/// The last of them is by the byte 1 of the variable `0`.
fn entry(alloc: Global, random: &mut Random) -> Result<Bytes, Fail> {
    let lock = random.pick(&LOCKS, 0);
    let named = random.below(8);
    let offset: u8 = if lock == 3 { 66 } else { 44 };
    let size = if named == 0 { offset } else { offset + 4 };
    let must = random.pick(&[0, 0, 0, 0, 0, 2, 4], 0);
    let cant = random.pick(&[0, 0, 0, 0, 0, 0, 1], 0);
    let most = random.pick(&[0xFF, 0xFF, 0xFF, 0xFF, 3], 0xFF);
    let mut bytes = Bytes::new(alloc);
    bytes.append(&[0, 0, 1, 0, size, 0, offset, 0])?;
    bytes.append(&random.pick(&VENDORS, Guid { bytes: [7; 16] }).bytes)?;
    bytes.append(&[
        random.pick(&[0, 0, 0, 0, 2], 0),
        0,
        0,
        0,
        most,
        most & 0xF0,
        most & 0xF0,
        most & 0xF0,
    ])?;
    bytes.append(&[must, 0, 0, 0, cant, 0, 0, 0, lock, 1, 2, 3])?;
    if lock == 3 {
        bytes.append(&[7; 16])?;
        bytes.append(&[1, 9, 0x30, 0, 0, 0])?;
    }
    if named != 0 {
        let unit = if named < 3 { 0x23 } else { named | 0x30 };
        bytes.append(&[unit, 0, 0, 0])?;
    }
    Ok(bytes)
}

fn policy_call(alloc: Global, random: &mut Random, index: u32) -> Result<Call, Fail> {
    Ok(Call::Policy(match random.below(8) {
        0 => PolicyCall::Enabled,
        1 | 2 => PolicyCall::At(u32::from(random.below(12))),
        3 if index > 220 => PolicyCall::Lock,
        3 | 4 if index > 260 => PolicyCall::Disable,
        _ => PolicyCall::Register(entry(alloc, random)?),
    }))
}

/// A call of any kind; policies come after 60 of them, and the boot phase ends at two thirds.
fn call(alloc: Global, random: &mut Random, index: u32) -> Result<Call, Fail> {
    if index == 200 || index == 210 {
        return Ok(Call::ExitBoot);
    }
    let guid = random.pick(&VENDORS, Guid { bytes: [7; 16] });
    match random.below(16) {
        0 | 1 => Ok(Call::Get(GetCall {
            guid,
            name: name(alloc, random)?,
            room: random.pick(&[0, 5, 4096], 0),
        })),
        2 | 3 => Ok(Call::Next(NextCall {
            guid,
            name: name(alloc, random)?,
            room: random.pick(&[2, 3, 64], 0),
        })),
        4 | 5 if index > 60 => policy_call(alloc, random, index),
        _ => set_call(alloc, random),
    }
}

/// The writer's side over a blank image.
fn opened(alloc: Global) -> Result<Option<Engine<MemFlash>>, Fail> {
    let plan = FaultPlan {
        fails: Vec::new(alloc),
        stop_at: None,
        torn: Torn::Before,
    };
    let mut flash = MemFlash::new(vec![in alloc; 0xFF; IMAGE_BYTES]?, plan);
    if format_image(&mut flash).is_err() {
        return Ok(None);
    }
    Ok(Engine::begin(alloc, flash, LIMIT).ok())
}

fn same_get(
    alloc: Global,
    engine: &Engine<MemFlash>,
    call: &GetCall,
    want: &GetReply,
) -> Result<bool, Fail> {
    let mut into = vec![in alloc; 0u8; call.room as usize]?;
    let have = engine.get(&call.guid, call.name.as_slice(), call.room, &mut into);
    Ok(match (have, want) {
        (GetAnswer::NotFound, GetReply::NotFound) => true,
        (
            GetAnswer::TooSmall { attributes, needed },
            GetReply::TooSmall {
                attributes: other,
                needed: wanted,
            },
        ) => attributes == *other && needed == *wanted,
        (
            GetAnswer::Ok { attributes, length },
            GetReply::Ok {
                attributes: other,
                bytes,
            },
        ) => attributes == *other && into.get(..length as usize) == Some(bytes.as_slice()),
        _ => false,
    })
}

fn same_next(
    alloc: Global,
    engine: &Engine<MemFlash>,
    call: &NextCall,
    want: &NextReply,
) -> Result<bool, Fail> {
    let mut into = vec![in alloc; 0u16; 513]?;
    let have = engine.next(&call.guid, call.name.as_slice(), call.room, &mut into);
    Ok(match (have, want) {
        (NextAnswer::NoSuch, NextReply::NoSuch) | (NextAnswer::End, NextReply::End) => true,
        (NextAnswer::TooSmall { needed }, NextReply::TooSmall { needed: wanted }) => {
            needed == *wanted
        }
        (NextAnswer::Ok { guid, units }, NextReply::Ok { key }) => {
            guid == key.guid && into.get(..units as usize) == Some(key.name.as_slice())
        }
        _ => false,
    })
}

fn same_set(have: &SetReply, want: &SetReply) -> bool {
    match (have, want) {
        (SetReply::Ok, SetReply::Ok) | (SetReply::Same, SetReply::Same) => true,
        (SetReply::Refused(reason), SetReply::Refused(other)) => reason == other,
        _ => false,
    }
}

fn same_policy(have: &PolicyReply, want: &PolicyReply) -> bool {
    match (have, want) {
        (PolicyReply::Ok, PolicyReply::Ok)
        | (PolicyReply::On, PolicyReply::On)
        | (PolicyReply::Off, PolicyReply::Off) => true,
        (PolicyReply::Entry(bytes), PolicyReply::Entry(other)) => bytes == other,
        (PolicyReply::Refused(reason), PolicyReply::Refused(other)) => reason == other,
        _ => false,
    }
}

/// Whether both answer a call alike.
fn steps_alike(
    alloc: Global,
    engine: &mut Engine<MemFlash>,
    plain: &mut Plain,
    index: u32,
    call: &Call,
) -> Result<bool, Fail> {
    Ok(match (call, plain.step(call)) {
        (Call::Get(call), Reply::Get(want)) => same_get(alloc, engine, call, &want)?,
        (Call::Next(call), Reply::Next(want)) => same_next(alloc, engine, call, &want)?,
        (Call::Set(call), Reply::Set(want)) => same_set(&engine.set(0, index, call), &want),
        (Call::Policy(call), Reply::Policy(want)) => {
            same_policy(&engine.policy(0, index, call), &want)
        }
        (Call::ExitBoot, Reply::Exit(want)) => engine.exit_boot(0, index) == want,
        _ => false,
    })
}

/// Whether the stores hold a variable with these attributes and bytes at a key, each in its own.
fn is_stored(engine: &Engine<MemFlash>, key: &Key, attributes: u32, bytes: &[u8]) -> bool {
    let found = match Store::of(attributes) {
        Store::NonVolatile => {
            region_in(Store::NonVolatile, engine.non_volatile()).find(
                &key.guid,
                key.name.as_slice(),
            )
        }
        Store::Volatile => {
            region_in(Store::Volatile, engine.volatile()).find(&key.guid, key.name.as_slice())
        }
    };
    match found {
        Some(found) => found.attributes == attributes && found.payload == bytes,
        None => false,
    }
}

/// How many variables a store has that callers see.
fn count_seen(store: Store, bytes: &[u8], runtime: bool) -> u32
    requires least { 100 ≤ length bytes.now }
    requires most { length bytes.now ≤ 65536 }
{
    let region = region_in(store, bytes);
    let mut count: u32 = 0;
    for found in region.lives() {
        if region.counts(&found) && (!runtime || found.attributes & 4 != 0) {
            count = count.saturating_add(1);
        }
    }
    count
}

/// A walk of the one-thread service finds what the stores hold, and no more.
fn has_same_variables(
    alloc: Global,
    engine: &Engine<MemFlash>,
    plain: &mut Plain,
) -> Result<bool, Fail> {
    let runtime = engine.runtime();
    let mut left = count_seen(Store::NonVolatile, engine.non_volatile(), runtime).saturating_add(
        count_seen(Store::Volatile, engine.volatile(), runtime),
    );
    let mut last = Key::empty(alloc);
    for _ in 0..64 {
        let next = Call::Next(NextCall {
            guid: last.guid,
            name: last.name.clone()?,
            room: 1026,
        });
        let Reply::Next(NextReply::Ok { key }) = plain.step(&next) else {
            return Ok(left == 0);
        };
        let get = Call::Get(GetCall {
            guid: key.guid,
            name: key.name.clone()?,
            room: 65_536,
        });
        let Reply::Get(GetReply::Ok { attributes, bytes }) = plain.step(&get) else {
            return Ok(false);
        };
        if left == 0 || !is_stored(engine, &key, attributes, bytes.as_slice()) {
            return Ok(false);
        }
        left -= 1;
        last = key;
    }
    Ok(false)
}

/// The index of the first call of a random session after which the two sides differ.
fn first_difference(alloc: Global, seed: u64) -> Result<Option<u32>, Fail> {
    let mut random = Random { state: seed };
    let mut plain = Plain::new(alloc, LIMIT);
    let Some(mut engine) = opened(alloc)? else {
        return Ok(Some(0));
    };
    for index in 0..CALLS {
        let call = call(alloc, &mut random, index)?;
        let alike = steps_alike(alloc, &mut engine, &mut plain, index, &call)?
            && engine.made() == plain.made()
            && has_same_variables(alloc, &engine, &mut plain)?;
        if !alike {
            return Ok(Some(index));
        }
    }
    Ok(None)
}

#[test]
fn random_calls_are_answered_alike(rt: HostRuntime) -> Result<(), Fail> {
    for seed in SEEDS {
        assert_eq!(rt; first_difference(rt.alloc(), seed)?, None, "{seed}");
    }
    Ok(())
}
