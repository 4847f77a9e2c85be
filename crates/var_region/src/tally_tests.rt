use crate::Tally;
use crate::tests::{ADDED, FIRST, IN_TRANSITION, NAME, Part, over, region_bytes};
use std::test::Fail;

// Records of a store, the non-volatile one or not, and how many of them are ADDED, in transition, deleted and others.
struct Counted {
    parts: &'static [Part],
    non_volatile: bool,
    kinds: [u32; 4],
    why: &'static str,
}

const COUNTS: [Counted; 10] = [
    Counted {
        parts: &[],
        non_volatile: true,
        kinds: [0, 0, 0, 0],
        why: "no records",
    },
    Counted {
        parts: &[Part(ADDED, 7, 1, NAME, &[1]), Part(ADDED, 7, 1, NAME, &[2])],
        non_volatile: true,
        kinds: [2, 0, 0, 0],
        why: "two ADDED of one key",
    },
    Counted {
        parts: &[
            Part(IN_TRANSITION, 7, 1, NAME, &[1]),
            Part(IN_TRANSITION, 7, 1, NAME, &[2]),
        ],
        non_volatile: true,
        kinds: [0, 2, 0, 0],
        why: "two in transition of one key",
    },
    Counted {
        parts: &[
            Part(IN_TRANSITION, 7, 1, NAME, &[1]),
            Part(ADDED, 7, 1, NAME, &[2]),
        ],
        non_volatile: true,
        kinds: [1, 1, 0, 0],
        why: "an ADDED one and its twin",
    },
    Counted {
        parts: &[
            Part(ADDED, 7, 1, NAME, &[1]),
            Part(ADDED, 6, 1, NAME, &[2]),
            Part(IN_TRANSITION, 6, 1, NAME, &[3]),
            Part(0x3D, 6, 1, NAME, &[4]),
            Part(IN_TRANSITION, 7, 2, NAME, &[5]),
        ],
        non_volatile: true,
        kinds: [1, 1, 1, 2],
        why: "volatile ones between",
    },
    Counted {
        parts: &[
            Part(ADDED, 6, 1, NAME, &[1]),
            Part(IN_TRANSITION, 6, 1, NAME, &[2]),
        ],
        non_volatile: false,
        kinds: [1, 1, 0, 0],
        why: "volatile ones in the other store",
    },
    Counted {
        parts: &[
            Part(0x3D, 7, 1, NAME, &[1]),
            Part(0x3C, 7, 1, NAME, &[2]),
            Part(0x7D, 7, 1, NAME, &[3]),
            Part(0x7F, 7, 1, NAME, &[4]),
            Part(0x7E, 7, 1, NAME, &[5]),
        ],
        non_volatile: true,
        kinds: [0, 0, 3, 2],
        why: "deleted after each step of a write, and not written to the end",
    },
    Counted {
        parts: &[
            Part(ADDED, 7, 1, &[0x41, 0, 0, 0, 0], &[1]),
            Part(0x3D, 7, 1, &[0x41, 0, 0, 0, 0], &[2]),
        ],
        non_volatile: true,
        kinds: [0, 0, 1, 1],
        why: "names of 5 bytes",
    },
    Counted {
        parts: &[
            Part(ADDED, 7, 1, &[0x41, 0], &[1]),
            Part(ADDED, 7, 1, &[0, 0], &[2]),
            Part(IN_TRANSITION, 7, 1, &[0x41, 0, 0, 0, 0x42, 0, 0, 0], &[3]),
            Part(ADDED, 7, 1, &[], &[4]),
        ],
        non_volatile: true,
        kinds: [0, 0, 0, 4],
        why: "no name, or one that is broken",
    },
    Counted {
        parts: &[
            Part(0xFF, 7, 1, &[], &[]),
            Part(0xFF, 0xFFFF_FFFF, 1, &[], &[]),
            Part(ADDED, 0xFFFF_FFFF, 1, &[], &[]),
            Part(0x3D, 0xFFFF_FFFF, 1, &[], &[]),
            Part(ADDED, 7, 1, NAME, &[]),
        ],
        non_volatile: true,
        kinds: [1, 0, 1, 3],
        why: "headers only, in an erased state or with erased attributes",
    },
];

#[test]
fn records_are_counted_by_their_kind(rt: HostRuntime) -> Result<(), Fail> {
    for case in &COUNTS {
        let bytes = region_bytes(rt.alloc(), case.parts)?;
        let region = over(&bytes, FIRST, case.non_volatile).expect(
            &rt,
            "the first record is within",
        );
        let [added, transition, deleted, other] = case.kinds;
        let tally = region.tally();
        let want = Tally {
            records: tally.records,
            added,
            transition,
            deleted,
            other,
        };
        assert_eq!(rt; tally, want, "{}", case.why);
        assert_eq!(rt; tally.records as usize, case.parts.len(), "{}", case.why);
    }
    Ok(())
}
