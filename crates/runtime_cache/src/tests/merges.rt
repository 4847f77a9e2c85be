//! A cache, and what it takes from stores that changed.
use crate::Cache;
use crate::tests::records::{ADDED, Part, guid, store_bytes};
use pending_range::Ranges;
use std::alloc::{AllocError, Global};
use std::test::Fail;
use var_types::{GetAnswer, NextAnswer, OutOfMemory, Store};

const VOLUME: usize = 57_344;

const VOLATILE: usize = 65_536;

fn made(alloc: Global, first: &[u8], second: &[u8]) -> Result<Option<Cache>, OutOfMemory> {
    if first.len() != VOLUME || second.len() != VOLATILE {
        return Ok(None);
    }
    Ok(Some(Cache::make(alloc, first, second, false)?))
}

fn take_changes(cache: &mut Cache, first: &[u8], second: &[u8], runtime: bool, ranges: &Ranges) {
    if first.len() == VOLUME && second.len() == VOLATILE {
        cache.merge(first, second, runtime, ranges);
    }
}

// How many bytes are 2, and the offsets of the first and of the last of them.
fn taken(bytes: &[u8]) -> (usize, Option<usize>, Option<usize>) {
    (
        bytes.iter().filter(|byte| **byte == 2).count(),
        bytes.iter().position(|byte| *byte == 2),
        bytes.iter().rposition(|byte| *byte == 2),
    )
}

// What ranges cover of the non-volatile store and of the volatile one, and which bytes a merge of stores of other bytes throughout takes.
struct Merge {
    first: &'static [(u32, u32)],
    second: &'static [(u32, u32)],
    taken: [(usize, Option<usize>, Option<usize>); 2],
}

const NONE: (usize, Option<usize>, Option<usize>) = (0, None, None);

const MERGES: [Merge; 6] = [
    Merge {
        first: &[],
        second: &[],
        taken: [NONE, NONE],
    },
    Merge {
        first: &[(100, 104), (200, 204)],
        second: &[],
        taken: [(104, Some(100), Some(203)), NONE],
    },
    Merge {
        first: &[],
        second: &[(200, 204), (100, 104)],
        taken: [NONE, (104, Some(100), Some(203))],
    },
    Merge {
        first: &[(0, 1)],
        second: &[(65_535, 65_536)],
        taken: [(1, Some(0), Some(0)), (1, Some(65_535), Some(65_535))],
    },
    Merge {
        first: &[(57_343, 65_536)],
        second: &[(0, 0)],
        taken: [(1, Some(57_343), Some(57_343)), NONE],
    },
    Merge {
        first: &[(0, 65_536)],
        second: &[(0, 65_536)],
        taken: [
            (57_344, Some(0), Some(57_343)),
            (65_536, Some(0), Some(65_535)),
        ],
    },
];

#[test]
fn a_merge_takes_what_is_covered(rt: HostRuntime) -> Result<(), Fail> {
    let alloc = rt.alloc();
    let old = vec![in alloc; 1; VOLATILE]?;
    let new = vec![in alloc; 2; VOLATILE]?;
    for (number, case) in MERGES.iter().enumerate() {
        let mut ranges = Ranges::empty();
        for (from, to) in case.first {
            ranges.extend(Store::NonVolatile, *from, *to);
        }
        for (from, to) in case.second {
            ranges.extend(Store::Volatile, *from, *to);
        }
        let short = old.get(..VOLUME).expect(&rt, "a volume");
        let mut cache = made(alloc, short, &old)?.expect(&rt, "the right sizes");
        take_changes(
            &mut cache,
            new.get(..VOLUME).expect(&rt, "a volume"),
            &new,
            false,
            &ranges,
        );
        let found = [taken(&cache.non_volatile), taken(&cache.volatile)];
        assert_eq!(rt; found, case.taken, "merge {number}");
    }
    Ok(())
}

// A store of its size with these records.
fn store(alloc: Global, store: Store, size: usize, parts: &[Part]) -> Result<Vec<u8>, AllocError> {
    let mut bytes = store_bytes(alloc, store, parts)?;
    let left = size.saturating_sub(bytes.len());
    bytes.extend_from_slice(&vec![in alloc; 0xFF; left]?)?;
    Ok(bytes)
}

// What a cache answers for the non-volatile A, and for the volatile B: the byte of data, where it is seen.
fn seen(cache: &Cache) -> (Option<u8>, Option<u8>) {
    (byte_of(cache, &[0x41]), byte_of(cache, &[0x42]))
}

fn byte_of(cache: &Cache, name: &[u16]) -> Option<u8> {
    let mut into = [0xC7; 1];
    match cache.get(&guid(1), name, 1, &mut into) {
        GetAnswer::Ok { length: 1, .. } => Some(into[0]),
        _ => None,
    }
}

#[test]
fn a_cache_answers_for_its_bytes(rt: HostRuntime) -> Result<(), Fail> {
    let alloc = rt.alloc();
    let first = |data: &[u8]| {
        let part = Part {
            state: ADDED,
            attributes: 3,
            guid: 1,
            name: &[0x41],
            data,
        };
        store(alloc, Store::NonVolatile, VOLUME, &[part])
    };
    let second = |data: &[u8]| {
        let part = Part {
            state: ADDED,
            attributes: 6,
            guid: 1,
            name: &[0x42],
            data,
        };
        store(alloc, Store::Volatile, VOLATILE, &[part])
    };
    let mut cache = made(alloc, &first(&[1])?, &second(&[2])?)?.expect(&rt, "the right sizes");
    assert_eq!(rt; seen(&cache), (Some(1), Some(2)));
    let mut units = [0; 2];
    let found = cache.next(&guid(1), &[0x41], 4, &mut units);
    assert_eq!(rt;
        found,
        NextAnswer::Ok {
            guid: guid(1),
            units: 1
        }
    );
    assert_eq!(rt; units, [0x42, 0]);

    // The data of A stand at 164, those of B at 92.
    let mut ranges = Ranges::empty();
    take_changes(&mut cache, &first(&[3])?, &second(&[4])?, false, &ranges);
    assert_eq!(rt; seen(&cache), (Some(1), Some(2)), "nothing is covered");
    ranges.extend(Store::Volatile, 92, 93);
    take_changes(&mut cache, &first(&[3])?, &second(&[4])?, false, &ranges);
    assert_eq!(rt; seen(&cache), (Some(1), Some(4)), "the volatile store");
    ranges.clear();
    ranges.extend(Store::NonVolatile, 164, 165);
    take_changes(&mut cache, &first(&[3])?, &second(&[6])?, false, &ranges);
    assert_eq!(rt; seen(&cache), (Some(3), Some(4)), "the non-volatile store");
    ranges.clear();
    take_changes(&mut cache, &first(&[5])?, &second(&[6])?, true, &ranges);
    assert_eq!(rt; seen(&cache), (None, Some(4)), "A is hidden at runtime");
    Ok(())
}
