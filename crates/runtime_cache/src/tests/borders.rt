//! Names and data of the largest size, and rooms at their borders.
use crate::tests::records::{ADDED, IN_TRANSITION, Pair, Part, guid, region, size_of, store_bytes};
use std::alloc::{AllocError, Global};
use std::test::Fail;
use var_types::{GetAnswer, NextAnswer, Store};

/// A name: some units, or so many units `A`.
#[derive(Clone, Copy)]
enum Name {
    Units(&'static [u16]),
    Long(usize),
}

impl Name {
    fn units(self, alloc: Global) -> Result<Vec<u16>, AllocError> {
        match self {
            Name::Units(units) => units.to_vec(alloc),
            Name::Long(length) => vec![in alloc; 0x41; length],
        }
    }
}

const B: Name = Name::Units(&[0x42]);

const C: Name = Name::Units(&[0x43]);

const D: Name = Name::Units(&[0x44]);

/// The most data of a name of one unit: the record has 33,792 bytes.
const MOST: usize = 33_728;

// The name of a get under the GUID 1, the room that it has, the variable's attributes and size where callers see it, and whether that fits.
const GETS: [(Name, u32, Option<(u32, u32)>, bool); 15] = [
    (B, 33_727, Some((7, 33_728)), false),
    (B, 33_728, Some((7, 33_728)), true),
    (B, 33_729, Some((7, 33_728)), true),
    (B, 0, Some((7, 33_728)), false),
    (B, 65_536, Some((7, 33_728)), true),
    (B, 65_537, Some((7, 33_728)), true),
    (B, 4_294_967_295, Some((7, 33_728)), true),
    (Name::Long(512), 0, Some((6, 1)), false),
    (Name::Long(512), 1, Some((6, 1)), true),
    (Name::Long(513), 100, None, false),
    (Name::Long(0), 100, None, false),
    (Name::Units(&[0x42, 0]), 40_000, None, false),
    (C, 100, Some((6, 2)), true),
    (D, 0, Some((3, 0)), true),
    (Name::Units(&[0x45]), 100, None, false),
];

fn got(found: Option<(u32, u32)>, fits: bool) -> GetAnswer {
    let Some((attributes, length)) = found else {
        return GetAnswer::NotFound;
    };
    if fits {
        GetAnswer::Ok { attributes, length }
    } else {
        let needed = length;
        GetAnswer::TooSmall { attributes, needed }
    }
}

// What a next finds.
#[derive(Clone, Copy)]
enum Next {
    Found(Name),
    Needs(u32),
    End,
    NoSuch,
}

// The name that a next under the GUID 1 goes on from, the room that it has, and what it finds.
const NEXTS: [(Name, u32, Next); 13] = [
    (Name::Long(0), 1_025, Next::Needs(1_026)),
    (Name::Long(0), 1_026, Next::Found(Name::Long(512))),
    (Name::Long(0), 1_027, Next::Found(Name::Long(512))),
    (Name::Long(0), 4_294_967_295, Next::Found(Name::Long(512))),
    (Name::Long(512), 3, Next::Needs(4)),
    (Name::Long(512), 4, Next::Found(B)),
    (B, 4, Next::Found(C)),
    (C, 4, Next::Found(D)),
    (D, 4, Next::End),
    (D, 0, Next::End),
    (Name::Long(513), 4, Next::NoSuch),
    (Name::Units(&[0x42, 0]), 4, Next::NoSuch),
    (Name::Long(1), 4, Next::NoSuch),
];

fn next_of(alloc: Global, next: Next) -> Result<(NextAnswer, Vec<u16>), AllocError> {
    let units = match next {
        Next::Found(name) => name.units(alloc)?,
        _ => Vec::new(alloc),
    };
    let answer = match next {
        Next::Found(_) => NextAnswer::Ok {
            guid: guid(1),
            units: size_of(units.len()),
        },
        Next::Needs(needed) => NextAnswer::TooSmall { needed },
        Next::End => NextAnswer::End,
        Next::NoSuch => NextAnswer::NoSuch,
    };
    Ok((answer, units))
}

/// How many gets are answered as they are not to be.
fn wrong_gets(alloc: Global, pair: &Pair) -> Result<u32, AllocError> {
    let mut wrong = 0u32;
    for (name, room, found, fits) in &GETS {
        let answer = pair.get(alloc, (1, &name.units(alloc)?), *room)?;
        if answer.map(|(answer, _)| answer) != Some(got(*found, *fits)) {
            wrong = wrong.saturating_add(1);
        }
    }
    Ok(wrong)
}

/// How many nexts are answered as they are not to be.
fn wrong_nexts(alloc: Global, pair: &Pair) -> Result<u32, AllocError> {
    let mut wrong = 0u32;
    for (name, room, next) in &NEXTS {
        let answer = pair.next(alloc, (1, &name.units(alloc)?), *room)?;
        if answer != Some(next_of(alloc, *next)?) {
            wrong = wrong.saturating_add(1);
        }
    }
    Ok(wrong)
}

/// The volatile store: an ADDED record in front of whose twin in transition stands, and the longest name.
fn volatile(alloc: Global) -> Result<Vec<u8>, AllocError> {
    let longest = Name::Long(512).units(alloc)?;
    let part = Part {
        state: ADDED,
        attributes: 6,
        guid: 1,
        name: &[0x43],
        data: &[8, 9],
    };
    let twin = Part {
        state: IN_TRANSITION,
        data: &[7],
        ..part
    };
    let long = Part {
        name: &longest,
        data: &[1],
        ..part
    };
    store_bytes(alloc, Store::Volatile, &[twin, part, long])
}

/// The non-volatile store: the most data, and none.
fn non_volatile(alloc: Global) -> Result<Vec<u8>, AllocError> {
    let most = vec![in alloc; 0x5A; MOST]?;
    let large = Part {
        state: ADDED,
        attributes: 7,
        guid: 1,
        name: &[0x42],
        data: &most,
    };
    let empty = Part {
        state: ADDED,
        attributes: 3,
        guid: 1,
        name: &[0x44],
        data: &[],
    };
    store_bytes(alloc, Store::NonVolatile, &[large, empty])
}

#[test]
fn borders_are_exact(rt: HostRuntime) -> Result<(), Fail> {
    let alloc = rt.alloc();
    let first = non_volatile(alloc)?;
    let second = volatile(alloc)?;
    let pair = Pair {
        non_volatile: region(Store::NonVolatile, &first).expect(&rt, "a store"),
        volatile: region(Store::Volatile, &second).expect(&rt, "a store"),
        runtime: false,
    };
    assert_eq!(rt; wrong_gets(alloc, &pair)?, 0);
    assert_eq!(rt; wrong_nexts(alloc, &pair)?, 0);
    Ok(())
}
