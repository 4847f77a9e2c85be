//! Random pairs of stores, against lists of what counts for each key.
use crate::tests::records::{
    ADDED, DELETED, IN_TRANSITION, Pair, Part, guid, headers, push, region, size_of,
};
use std::alloc::{AllocError, Global};
use std::test::Fail;
use var_types::{GetAnswer, NextAnswer, Store};

/// How many pairs are made, each from its number as the seed; every second one is in the runtime phase.
const SEEDS: u64 = 300;

const A: &[u16] = &[0x41];

const AA: &[u16] = &[0x41, 0x41];

const B: &[u16] = &[0x42];

const LAST: &[u16] = &[0x100];

/// The keys that a pair may have, in key order: the first byte of the GUID, and the name.
const KEYS: [(u8, &[u16]); 12] = [
    (1, A),
    (1, AA),
    (1, B),
    (1, LAST),
    (2, A),
    (2, AA),
    (2, B),
    (2, LAST),
    (0xFE, A),
    (0xFE, AA),
    (0xFE, B),
    (0xFE, LAST),
];

/// The states of a key's records, in order, and which of them counts.
const SHAPES: [&[(u8, bool)]; 8] = [
    &[],
    &[(ADDED, true)],
    &[(ADDED, true), (IN_TRANSITION, false)],
    &[(IN_TRANSITION, false), (ADDED, true)],
    &[(IN_TRANSITION, true)],
    &[(IN_TRANSITION, false), (IN_TRANSITION, true)],
    &[(DELETED, false), (ADDED, true), (DELETED, false)],
    &[(DELETED, false)],
];

/// Numbers that look random, by a linear congruential generator (Knuth's constants).
#[derive(Drop)]
struct Random {
    state: u64,
}

impl Random {
    fn value(&mut self) -> u32 {
        self.state = self
            .state
            .wrapping_mul(6_364_136_223_846_793_005)
            .wrapping_add(1_442_695_040_888_963_407);
        (self.state >> 33) as u32
    }
}

/// A key's records in one store.
#[derive(Drop)]
struct Chosen {
    key: (u8, &'static [u16]),
    store: Store,
    shape: &'static [(u8, bool)],
    attributes: u32,
    data: Vec<u8>,
}

impl Chosen {
    fn new(
        alloc: Global,
        key: (u8, &'static [u16]),
        random: &mut Random,
    ) -> Result<Self, AllocError> {
        let store = if random.value() % 2 == 0 {
            Store::NonVolatile
        } else {
            Store::Volatile
        };
        let runtime = if random.value() % 2 == 0 { 4 } else { 0 };
        let attributes = match store {
            Store::NonVolatile => 3 | runtime,
            Store::Volatile => 2 | runtime,
        };
        let shape: &[(u8, bool)] = match SHAPES.get((random.value() % 8) as usize) {
            Some(shape) => shape,
            None => &[],
        };
        let mut data = Vec::new(alloc);
        for _ in 0..random.value() % 6 {
            data.push((random.value() % 256) as u8)?;
        }
        Ok(Chosen {
            key,
            store,
            shape,
            attributes,
            data,
        })
    }

    fn write(&self, bytes: &mut Vec<u8>) -> Result<(), AllocError> {
        for (state, counts) in self.shape {
            push(
                bytes,
                &Part {
                    state: *state,
                    attributes: self.attributes,
                    guid: self.key.0,
                    name: self.key.1,
                    data: if *counts { &self.data } else { &[0xEE] },
                },
            )?;
        }
        Ok(())
    }

    /// Whether callers see a variable here.
    fn is_seen(&self, runtime: bool) -> bool {
        self.shape.iter().any(|(_, counts)| *counts) && (!runtime || self.attributes & 4 != 0)
    }

    fn got(&self, runtime: bool, room: u32) -> (GetAnswer, &[u8]) {
        let needed = size_of(self.data.len());
        let attributes = self.attributes;
        if !self.is_seen(runtime) {
            (GetAnswer::NotFound, &[])
        } else if room < needed {
            (GetAnswer::TooSmall { attributes, needed }, &[])
        } else {
            let length = needed;
            (GetAnswer::Ok { attributes, length }, &self.data)
        }
    }
}

/// The answer from the first key seen, of those from a place on.
fn next_of(all: &[Chosen], from: usize, runtime: bool, room: u32) -> (NextAnswer, &'static [u16]) {
    let Some(next) = all.iter().skip(from).find(|chosen| chosen.is_seen(runtime)) else {
        return (NextAnswer::End, &[]);
    };
    let (first, name) = next.key;
    let units = size_of(name.len());
    let needed = units.wrapping_mul(2).wrapping_add(2);
    if room < needed {
        return (NextAnswer::TooSmall { needed }, &[]);
    }
    let guid = guid(first);
    (NextAnswer::Ok { guid, units }, name)
}

/// The records of each key, in key order.
fn chosen_by(alloc: Global, seed: u64) -> Result<Vec<Chosen>, AllocError> {
    let mut random = Random { state: seed };
    let mut all = Vec::new(alloc);
    for key in &KEYS {
        all.push(Chosen::new(alloc, *key, &mut random)?)?;
    }
    Ok(all)
}

/// A store with the records of its keys, which begin at a key that the seed picks and then take each fifth; in the non-volatile store a record
/// stands before them that is none of it.
fn written(alloc: Global, store: Store, all: &[Chosen], seed: u64) -> Result<Vec<u8>, AllocError> {
    let mut bytes = headers(alloc, store)?;
    if store == Store::NonVolatile {
        push(
            &mut bytes,
            &Part {
                state: ADDED,
                attributes: 6,
                guid: 1,
                name: A,
                data: &[0xDD],
            },
        )?;
    }
    for turn in 0..12 {
        let at = (seed % 12 + turn * 5) % 12;
        if let Some(chosen) = all.get(at as usize).filter(|chosen| chosen.store == store) {
            chosen.write(&mut bytes)?;
        }
    }
    bytes.extend_from_slice(&[0xFF; 64])?;
    Ok(bytes)
}

/// How many answers of a pair are not those that its lists give.
fn wrong_answers(alloc: Global, pair: &Pair, all: &[Chosen]) -> Result<u32, AllocError> {
    let mut wrong = 0u32;
    for room in [3, 4, 5, 6] {
        let first = pair.next(alloc, (9, &[]), room)?;
        if !is_next(&first, next_of(all, 0, pair.runtime, room)) {
            wrong = wrong.saturating_add(1);
        }
    }
    for (place, chosen) in all.iter().enumerate() {
        let needed = size_of(chosen.data.len());
        for room in [needed.saturating_sub(1), needed, needed.saturating_add(1)] {
            let got = pair.get(alloc, chosen.key, room)?;
            if !is_got(&got, chosen.got(pair.runtime, room)) {
                wrong = wrong.saturating_add(1);
            }
        }
        for room in [3, 4, 5, 6] {
            let next = pair.next(alloc, chosen.key, room)?;
            let want = if chosen.is_seen(pair.runtime) {
                next_of(all, place.saturating_add(1), pair.runtime, room)
            } else {
                (NextAnswer::NoSuch, [].as_slice())
            };
            if !is_next(&next, want) {
                wrong = wrong.saturating_add(1);
            }
        }
    }
    Ok(wrong)
}

fn is_got(got: &Option<(GetAnswer, Vec<u8>)>, want: (GetAnswer, &[u8])) -> bool {
    match got {
        Some((answer, bytes)) => *answer == want.0 && bytes.as_slice() == want.1,
        None => false,
    }
}

fn is_next(next: &Option<(NextAnswer, Vec<u16>)>, want: (NextAnswer, &[u16])) -> bool {
    match next {
        Some((answer, units)) => *answer == want.0 && units.as_slice() == want.1,
        None => false,
    }
}

#[test]
fn pairs_answer_as_their_lists_do(rt: HostRuntime) -> Result<(), Fail> {
    let alloc = rt.alloc();
    let mut seen = 0;
    for seed in 0..SEEDS {
        let all = chosen_by(alloc, seed)?;
        let first = written(alloc, Store::NonVolatile, &all, seed)?;
        let second = written(alloc, Store::Volatile, &all, seed)?;
        let pair = Pair {
            non_volatile: region(Store::NonVolatile, &first).expect(&rt, "a store"),
            volatile: region(Store::Volatile, &second).expect(&rt, "a store"),
            runtime: seed % 2 == 0,
        };
        let wrong = wrong_answers(alloc, &pair, &all)?;
        assert_eq!(rt; wrong, 0, "seed {seed}");
        seen = all
            .iter()
            .filter(|chosen| chosen.is_seen(true))
            .count()
            .max(seen);
    }
    assert!(rt; seen > 3, "pairs with many variables are among them");
    Ok(())
}
