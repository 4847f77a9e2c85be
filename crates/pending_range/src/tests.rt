use crate::Ranges;
use std::alloc::{AllocError, Global};
use std::test::Fail;
use var_types::Store;

// A call that changes what is covered of a store.
enum Step {
    Extend(u32, u32),
    Whole,
    Clear,
}

// What calls on one store's ranges leave: covered offsets, others, and how many of a store's first 57,344 bytes a copy takes.
struct Case {
    steps: &'static [Step],
    covered: &'static [u32],
    others: &'static [u32],
    taken: usize,
}

const CASES: [Case; 9] = [
    // nothing
    Case {
        steps: &[],
        covered: &[],
        others: &[0, 1, 65_535, 65_536, 4_294_967_295],
        taken: 0,
    },
    // what lies between two ranges
    Case {
        steps: &[Step::Extend(100, 104), Step::Extend(200, 204)],
        covered: &[100, 103, 104, 150, 199, 200, 203],
        others: &[0, 99, 204, 65_535],
        taken: 104,
    },
    // the lower one behind the upper one
    Case {
        steps: &[Step::Extend(200, 204), Step::Extend(100, 104)],
        covered: &[100, 150, 203],
        others: &[99, 204],
        taken: 104,
    },
    // one within the other
    Case {
        steps: &[Step::Extend(100, 204), Step::Extend(120, 121)],
        covered: &[100, 203],
        others: &[99, 204],
        taken: 104,
    },
    // empty ones at both ends, before and behind another
    Case {
        steps: &[
            Step::Extend(0, 0),
            Step::Extend(65_536, 65_536),
            Step::Extend(100, 101),
            Step::Extend(0, 0),
            Step::Extend(65_536, 65_536),
            Step::Extend(300, 200),
        ],
        covered: &[100],
        others: &[0, 99, 101, 200, 250, 65_535, 65_536],
        taken: 1,
    },
    // the first offset and the last
    Case {
        steps: &[Step::Extend(0, 1), Step::Extend(65_535, 65_536)],
        covered: &[0, 1, 57_343, 57_344, 65_535],
        others: &[65_536],
        taken: 57_344,
    },
    // all of a store
    Case {
        steps: &[Step::Extend(7, 8), Step::Whole],
        covered: &[0, 7, 57_344, 65_535],
        others: &[65_536, 4_294_967_295],
        taken: 57_344,
    },
    // and nothing again
    Case {
        steps: &[Step::Whole, Step::Clear],
        covered: &[],
        others: &[0, 7, 65_535],
        taken: 0,
    },
    // what is covered after that is not what was before
    Case {
        steps: &[
            Step::Extend(100, 104),
            Step::Clear,
            Step::Extend(57_343, 60_000),
        ],
        covered: &[57_343, 59_999],
        others: &[100, 103, 104, 57_342, 60_000],
        taken: 1,
    },
];

fn ranges_after(store: Store, steps: &[Step]) -> Ranges {
    let mut ranges = Ranges::empty();
    for step in steps {
        match step {
            Step::Extend(from, to) => ranges.extend(store, *from, *to),
            Step::Whole => ranges.whole(store),
            Step::Clear => ranges.clear(),
        }
    }
    ranges
}

fn other(store: Store) -> Store {
    match store {
        Store::NonVolatile => Store::Volatile,
        Store::Volatile => Store::NonVolatile,
    }
}

#[test]
fn ranges_cover_exactly_what_lies_between(rt: HostRuntime) {
    for store in [Store::NonVolatile, Store::Volatile] {
        for (
            case,
            Case {
                steps,
                covered,
                others,
                ..
            },
        ) in CASES.iter().enumerate() {
            let ranges = ranges_after(store, steps);
            for at in *covered {
                assert!(rt; ranges.covers(store, *at), "case {case}: {at} is covered");
                assert!(rt;
                    !ranges.covers(other(store), *at),
                    "case {case}: {at} of the other store"
                );
            }
            for at in *others {
                assert!(rt;
                    !ranges.covers(store, *at),
                    "case {case}: {at} is not covered"
                );
            }
        }
    }
}

// How many bytes are 1, and how many of these stand at offsets that are covered.
fn taken(ranges: &Ranges, store: Store, bytes: &[u8]) -> (usize, usize) {
    let all = bytes.iter().filter(|byte| **byte == 1).count();
    let covered = bytes
        .iter()
        .zip(0..65_536)
        .filter(|(byte, at)| **byte == 1 && ranges.covers(store, *at))
        .count();
    (all, covered)
}

fn copied(alloc: Global, ranges: &Ranges, store: Store) -> Result<Vec<u8>, AllocError> {
    let new = [1; 57_344];
    let mut old = vec![in alloc; 0; 57_344]?;
    if old.len() == new.len() {
        ranges.copy_covered(store, &new, &mut old);
    }
    Ok(old)
}

#[test]
fn covered_bytes_are_copied_and_no_others(rt: HostRuntime) -> Result<(), Fail> {
    for store in [Store::NonVolatile, Store::Volatile] {
        for (number, case) in CASES.iter().enumerate() {
            let ranges = ranges_after(store, case.steps);
            let bytes = copied(rt.alloc(), &ranges, store)?;
            assert_eq!(rt;
                taken(&ranges, store, &bytes),
                (case.taken, case.taken),
                "case {number}"
            );
            let kept = copied(rt.alloc(), &ranges, other(store))?;
            assert_eq!(rt;
                taken(&ranges, store, &kept).0,
                0,
                "case {number}, the other store"
            );
        }
    }
    Ok(())
}
