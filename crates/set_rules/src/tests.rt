ghost use Rattle.std.specs.Prelude.{◌≡◌, ◌==◌, ℕ, Bool, List, [], ◌∷◌, find};
ghost use Rattle.std.specs.BTreeMap.{is_at};
ghost use Rattle.std.specs.Map.{remove_entry};
ghost use Rattle.std.specs.Option.{option_map};
ghost use Rattle.set_rules.specs.Seen.{seen, store_if};
ghost use Rattle.var_types.specs.Key.{key_cmp, key_of};
ghost use Rattle.var_types.specs.Policies.{Question, denied};
ghost use Rattle.var_types.specs.Room.{room_used};
ghost use Rattle.var_types.specs.State.{stored_at};
ghost use lib.Pointwise.{pointwise};

use crate::{Stored, View, decide};
use std::alloc::Global;
use std::process::Abort;
use std::test::Fail;
use var_types::{
    Ask, Bytes, Decision, Denied, Guid, NameFault, Rule, SetCall, SetReason, Stamp, Store, Units,
    Verdict,
};

/// The GUID of the tests' variables.
const VENDOR: Guid = Guid { bytes: [7; 16] };

/// How many changes the tests' histories hold.
const LIMIT: u64 = 9;

const NO_STAMP: Stamp = Stamp { bytes: [0; 16] };

/// A variable of the view for tests: the only unit of its name, and what is stored.
#[derive(Clone, Copy)]
struct Held<'a> {
    unit: u16,
    stored: Stored<'a>,
}

/// A view over few variables of one vendor. The variables of either store take the same room without that at a key.
#[derive(Clone, Copy)]
struct Shelf<'a, 'b> {
    guid: Guid,
    held: &'b [Held<'a>],
    used: u16,
    denial: Option<Denied>,
    runtime: bool,
    made: u64,
    limit: u64,
}

fn held_at<'a>(held: &[Held<'a>], name: &[u16]) -> Option<Stored<'a>>
    ensures { result ≡ option_map (λ held. held.stored) (find (λ held. pointwise ◌==◌ name.now (held.unit ∷ [])) held.now) }
{
    held.iter()
        .find(|held| name == [held.unit].as_slice())
        .map(|held| held.stored)
}

impl View for Shelf<'_, '_> {
    ghost is_of = { λ shelf state.
        ((name : List ℕ)
        → seen (option_map (λ held. held.stored) (find (λ held. pointwise ◌==◌ name (held.unit ∷ [])) shelf.held.now))
        ≡ stored_at state (key_of shelf.guid name))
        × ((non_volatile : Bool) (name : List ℕ) → shelf.used
        ≡ room_used (store_if non_volatile) (remove_entry (is_at (key_cmp (key_of shelf.guid name))) state.variables))
        × ((question : Question) → shelf.denial ≡ denied state question)
        × (shelf.runtime ≡ state.runtime) × (shelf.made ≡ state.made) × (shelf.limit ≡ state.limit) };

    ghost knows = { λ shelf key. key.guid ≡ shelf.guid };

    fn stored(&self, guid: &Guid, name: &[u16]) -> Option<Stored<'_>> {
        held_at(self.held, name)
    }

    fn runtime(&self) -> bool {
        self.runtime
    }

    fn denied(&self, ask: &Ask<'_>) -> Option<Denied> {
        self.denial
    }

    fn used_without(&self, non_volatile: bool, guid: &Guid, name: &[u16]) -> u32 {
        u32::from(self.used)
    }

    fn made(&self) -> u64 {
        self.made
    }

    fn limit(&self) -> u64 {
        self.limit
    }
}

/// Equal bytes, or none, behind the least descriptor of 2024-01-02 03:04 and a second, where that is given.
#[derive(Clone, Copy)]
struct Data {
    second: Option<u8>,
    size: usize,
    value: u8,
}

/// A name of units `A`, with a NUL where that is given.
#[derive(Clone, Copy)]
struct Name {
    units: usize,
    nul: Option<usize>,
}

/// A variable `A` that is stored.
#[derive(Clone, Copy)]
struct Kept {
    attributes: u32,
    stamp: Stamp,
    data: Data,
}

/// A set over what is stored.
#[derive(Clone, Copy)]
struct Case {
    kept: Option<Kept>,
    used: u16,
    locked: bool,
    runtime: bool,
    made: u64,
    name: Name,
    attributes: u32,
    data: Data,
    verdict: Verdict,
}

fn bytes(size: usize, value: u8) -> Data {
    Data {
        second: None,
        size,
        value,
    }
}

/// Bytes behind a descriptor of that second.
fn timed(second: u8, size: usize, value: u8) -> Data {
    Data {
        second: Some(second),
        size,
        value,
    }
}

/// The stamp of 2024-01-02 03:04 and a second.
fn stamp(second: u8) -> Stamp {
    Stamp {
        bytes: [0xe8, 0x07, 1, 2, 3, 4, second, 0, 0, 0, 0, 0, 0, 0, 0, 0],
    }
}

/// One byte 1 that is stored without a stamp.
fn plain(attributes: u32) -> Kept {
    Kept {
        attributes,
        stamp: NO_STAMP,
        data: bytes(1, 1),
    }
}

/// One byte 0xaa that is stored with the stamp of second 5.
fn timed_at_5(attributes: u32) -> Kept {
    Kept {
        attributes,
        stamp: stamp(5),
        data: bytes(1, 0xaa),
    }
}

/// A set of `A` at boot whose signature is good, where nothing is stored.
fn set(attributes: u32, data: Data) -> Case {
    Case {
        kept: None,
        used: 0,
        locked: false,
        runtime: false,
        made: 0,
        name: Name {
            units: 1,
            nul: None,
        },
        attributes,
        data,
        verdict: Verdict::Good,
    }
}

fn over(kept: Kept, case: Case) -> Case {
    Case {
        kept: Some(kept),
        ..case
    }
}

fn at_runtime(case: Case) -> Case {
    Case {
        runtime: true,
        ..case
    }
}

fn locked(case: Case) -> Case {
    Case {
        locked: true,
        ..case
    }
}

/// The case where the history holds no more.
fn full(case: Case) -> Case {
    Case {
        made: LIMIT,
        ..case
    }
}

fn forged(case: Case) -> Case {
    Case {
        verdict: Verdict::Bad,
        ..case
    }
}

fn beside(used: u16, case: Case) -> Case {
    Case { used, ..case }
}

fn named(units: usize, nul: Option<usize>) -> Case {
    Case {
        name: Name { units, nul },
        ..set(7, bytes(1, 1))
    }
}

fn refused(reason: SetReason) -> Decision {
    Decision::Refuse(reason)
}

fn write(attributes: u32, stamp: Stamp, skip: u64, append: bool) -> Decision {
    Decision::Write {
        attributes,
        stamp,
        skip,
        append,
    }
}

/// The least descriptor with the stamp of a second.
fn descriptor(second: u8) -> [u8; 40] {
    [
        0xe8, 0x07, 0x01, 0x02, 0x03, 0x04, second, 0x00, 0x00, 0x00, 0x00, 0x00, 0x00, 0x00, 0x00,
        0x00, 0x18, 0x00, 0x00, 0x00, 0x00, 0x02, 0xf1, 0x0e, 0x9d, 0xd2, 0xaf, 0x4a, 0xdf, 0x68,
        0xee, 0x49, 0x8a, 0xa9, 0x34, 0x7d, 0x37, 0x56, 0x65, 0xa7,
    ]
}

fn bytes_of(alloc: Global, data: Data) -> Result<Bytes, Fail> {
    let mut bytes = Bytes::new(alloc);
    if let Some(second) = data.second {
        bytes.append(&descriptor(second))?;
    }
    let rest = vec![in alloc; data.value; data.size]?;
    bytes.append(&rest)?;
    Ok(bytes)
}

fn name_of(alloc: Global, name: Name) -> Result<Units, Fail> {
    let mut units = vec![in alloc; 65u16; name.units]?;
    if let Some(at) = name.nul {
        if let Some(unit) = units.get_mut(at) {
            *unit = 0;
        }
    }
    Ok(Units::new(alloc, &units)?)
}

/// What a call comes to over the variables of a view.
fn decided_over(case: &Case, held: &[Held], call: &SetCall) -> Decision
    requires { call.now.guid ≡ VENDOR }
{
    let denial = Denied {
        place: 3,
        rule: Rule::LockNow,
    };
    let shelf = Shelf {
        guid: VENDOR,
        held,
        used: case.used,
        denial: if case.locked { Some(denial) } else { None },
        runtime: case.runtime,
        made: case.made,
        limit: LIMIT,
    };
    decide(&shelf, call)
}

/// What a call comes to where `B` is stored, and `A` is as the case says.
fn decided_beside(case: &Case, bytes: &[u8], call: &SetCall) -> Decision
    requires { call.now.guid ≡ VENDOR }
{
    let other = Held {
        unit: 66,
        stored: Stored {
            attributes: 6,
            stamp: NO_STAMP,
            payload: bytes,
        },
    };
    match case.kept {
        None => decided_over(case, &[other], call),
        Some(kept) => {
            let stored = Stored {
                attributes: kept.attributes,
                stamp: kept.stamp,
                payload: bytes,
            };
            decided_over(case, &[other, Held { unit: 65, stored }], call)
        }
    }
}

/// What a set comes to.
fn decided(alloc: Global, case: &Case) -> Result<Decision, Fail> {
    let call = SetCall {
        guid: VENDOR,
        name: name_of(alloc, case.name)?,
        attributes: case.attributes,
        bytes: bytes_of(alloc, case.data)?,
        verdict: case.verdict,
    };
    let data = match case.kept {
        None => bytes(0, 0),
        Some(kept) => kept.data,
    };
    let stored = bytes_of(alloc, data)?;
    Ok(decided_beside(case, stored.as_slice(), &call))
}

/// Each set comes to what is wanted of it.
fn comes_to(rt: &impl Abort, alloc: Global, cases: &[(Case, Decision)]) -> Result<(), Fail> {
    for (case, want) in cases {
        let attributes = case.attributes;
        let size = case.data.size;
        assert_eq!(rt;
            decided(alloc, case)?,
            *want,
            "attributes {attributes}, {size} bytes"
        );
    }
    Ok(())
}

/// Each set is refused for the reason that is wanted.
fn is_refused(rt: &impl Abort, alloc: Global, cases: &[(Case, SetReason)]) -> Result<(), Fail> {
    for (case, reason) in cases {
        let attributes = case.attributes;
        assert_eq!(rt;
            decided(alloc, case)?,
            refused(*reason),
            "attributes {attributes}"
        );
    }
    Ok(())
}

const DENIED: SetReason = SetReason::Denied {
    place: 3,
    rule: Rule::LockNow,
};

#[test]
fn each_reason_is_given(rt: HostRuntime) -> Result<(), Fail> {
    let one = bytes(1, 2);
    let differ = SetReason::AttributesDiffer {
        stored: 6,
        asked: 7,
    };
    let old = SetReason::Stamp {
        stored: stamp(5),
        new: stamp(5),
    };
    let later = timed(6, 1, 0xbb);
    let equal = timed(5, 1, 0xbb);
    is_refused(
        &rt,
        rt.alloc(),
        &[
            (set(0x16, one), SetReason::Unsupported { bits: 0x10 }),
            (set(0x107, one), SetReason::Unknown { bits: 0x100 }),
            (set(5, one), SetReason::RuntimeWithoutBoot),
            (at_runtime(over(plain(3), set(3, one))), SetReason::Hidden),
            (
                at_runtime(over(plain(6), set(6, one))),
                SetReason::VolatileAtRuntime,
            ),
            (at_runtime(set(6, one)), SetReason::RuntimeNeedsNonVolatile),
            (at_runtime(set(3, one)), SetReason::RuntimeNeedsNonVolatile),
            (set(0x27, one), SetReason::Descriptor { at: 0 }),
            (locked(set(7, one)), DENIED),
            (set(0x47, bytes(0, 0)), SetReason::Missing),
            (
                over(timed_at_5(0x27), set(7, one)),
                SetReason::NeedsAuthentication,
            ),
            (over(plain(6), set(7, one)), differ),
            (
                forged(over(timed_at_5(0x27), set(0x27, later))),
                SetReason::Verdict,
            ),
            (over(timed_at_5(0x27), set(0x27, equal)), old),
            (full(set(7, one)), SetReason::HistoryFull { made: 9 }),
        ],
    )
}

#[test]
fn of_two_reasons_the_first_is_given(rt: HostRuntime) -> Result<(), Fail> {
    let none = bytes(0, 0);
    let one = bytes(1, 2);
    let later = timed(6, 0, 0);
    let differ = SetReason::AttributesDiffer {
        stored: 0x27,
        asked: 0x23,
    };
    let time = timed_at_5(0x27);
    is_refused(
        &rt,
        rt.alloc(),
        &[
            (set(0x118, one), SetReason::Unsupported { bits: 0x18 }),
            (set(0x104, one), SetReason::Unknown { bits: 0x100 }),
            (
                at_runtime(over(plain(3), set(4, one))),
                SetReason::RuntimeWithoutBoot,
            ),
            (
                at_runtime(set(0x66, one)),
                SetReason::RuntimeNeedsNonVolatile,
            ),
            (at_runtime(set(0x26, one)), SetReason::Descriptor { at: 0 }),
            (
                at_runtime(over(timed_at_5(0x23), set(0x27, one))),
                SetReason::Hidden,
            ),
            (at_runtime(set(0, none)), SetReason::Missing),
            (over(time, set(0x20, one)), SetReason::Descriptor { at: 0 }),
            (locked(set(0x27, one)), SetReason::Descriptor { at: 0 }),
            (locked(set(0, none)), DENIED),
            (over(time, set(6, one)), SetReason::NeedsAuthentication),
            (over(time, set(0, none)), SetReason::NeedsAuthentication),
            (forged(over(time, set(0x23, later))), differ),
            (forged(over(time, set(0x20, later))), SetReason::Verdict),
            (
                forged(over(time, set(0x27, timed(5, 1, 1)))),
                SetReason::Verdict,
            ),
            (
                full(over(plain(7), set(0, none))),
                SetReason::HistoryFull { made: 9 },
            ),
        ],
    )?;
    let same = full(over(plain(7), set(7, bytes(1, 1))));
    comes_to(&rt, rt.alloc(), &[(same, Decision::Same)])
}

#[test]
fn deletions_are_told_from_writes(rt: HostRuntime) -> Result<(), Fail> {
    let none = bytes(0, 0);
    let one = bytes(1, 2);
    let old = refused(SetReason::Stamp {
        stored: stamp(5),
        new: stamp(4),
    });
    let removed = Decision::Remove(Store::NonVolatile);
    let volatile = Decision::Remove(Store::Volatile);
    let time = timed_at_5(0x27);
    let appended = write(0x27, stamp(6), 40, true);
    comes_to(
        &rt,
        rt.alloc(),
        &[
            (over(plain(7), set(0, one)), removed),
            (over(plain(7), set(7, none)), removed),
            (over(plain(7), set(0x40, one)), removed),
            (over(plain(7), set(0x40, none)), removed),
            (over(plain(7), set(0x47, none)), Decision::Same),
            (at_runtime(over(plain(7), set(0, none))), removed),
            (over(plain(6), set(6, none)), volatile),
            (over(plain(6), set(1, one)), volatile),
            (over(time, set(0x20, timed(6, 0, 0))), removed),
            (over(time, set(0x27, timed(6, 0, 0))), removed),
            (over(time, set(0x20, timed(4, 0, 0))), old),
            (over(time, set(0x60, timed(4, 0, 0))), removed),
            (over(time, set(0x67, timed(6, 0, 0))), appended),
            (over(time, set(0x67, timed(5, 0, 0))), Decision::Same),
            (over(time, set(0x67, timed(4, 0, 0))), Decision::Same),
        ],
    )
}

#[test]
fn writes_are_made_of_what_they_say(rt: HostRuntime) -> Result<(), Fail> {
    let one = bytes(1, 2);
    let written = write(7, NO_STAMP, 0, false);
    let appended = write(7, NO_STAMP, 0, true);
    let stamped = timed_at_5(7);
    let time = timed_at_5(0x27);
    comes_to(
        &rt,
        rt.alloc(),
        &[
            (set(7, one), written),
            (set(0x47, one), written),
            (over(plain(7), set(7, bytes(1, 1))), Decision::Same),
            (over(plain(7), set(7, one)), written),
            (over(plain(7), set(7, bytes(2, 1))), written),
            (over(plain(7), set(0x47, one)), appended),
            (over(stamped, set(7, bytes(1, 0xaa))), written),
            (over(stamped, set(0x47, bytes(0, 0))), appended),
            (at_runtime(set(7, one)), written),
            (at_runtime(over(plain(7), set(7, one))), written),
            (
                set(0x27, timed(5, 1, 0xaa)),
                write(0x27, stamp(5), 40, false),
            ),
            (
                over(time, set(0x27, timed(6, 1, 0xaa))),
                write(0x27, stamp(6), 40, false),
            ),
            (
                over(time, set(0x67, timed(4, 1, 0xbb))),
                write(0x27, stamp(5), 40, true),
            ),
            (
                over(time, set(0x67, timed(6, 1, 0xbb))),
                write(0x27, stamp(6), 40, true),
            ),
        ],
    )
}

#[test]
fn each_attribute_is_judged_alone(rt: HostRuntime) -> Result<(), Fail> {
    let one = bytes(1, 2);
    let differ = refused(SetReason::AttributesDiffer {
        stored: 7,
        asked: 2,
    });
    let removed = Decision::Remove(Store::NonVolatile);
    let written = write(2, NO_STAMP, 0, false);
    is_refused(
        &rt,
        rt.alloc(),
        &[
            (set(0x01, one), SetReason::Missing),
            (set(0x04, one), SetReason::RuntimeWithoutBoot),
            (set(0x08, one), SetReason::Unsupported { bits: 0x08 }),
            (set(0x10, one), SetReason::Unsupported { bits: 0x10 }),
            (set(0x20, one), SetReason::Descriptor { at: 0 }),
            (set(0x40, one), SetReason::Missing),
            (set(0x80, one), SetReason::Unsupported { bits: 0x80 }),
        ],
    )?;
    comes_to(
        &rt,
        rt.alloc(),
        &[
            (set(0x02, one), written),
            (over(plain(7), set(0x01, one)), removed),
            (over(plain(7), set(0x02, one)), differ),
            (over(plain(7), set(0x40, one)), removed),
        ],
    )?;
    for place in 8u32..32 {
        let bits = 1u32 << place;
        let unknown = SetReason::Unknown { bits };
        is_refused(&rt, rt.alloc(), &[(set(bits | 7, one), unknown)])?;
    }
    Ok(())
}

#[test]
fn names_are_bounded(rt: HostRuntime) -> Result<(), Fail> {
    let name = |fault| refused(SetReason::Name(fault));
    let written = write(7, NO_STAMP, 0, false);
    comes_to(
        &rt,
        rt.alloc(),
        &[
            (named(0, None), name(NameFault::Empty)),
            (named(1, None), written),
            (named(512, None), written),
            (named(513, None), name(NameFault::TooLong { units: 513 })),
            (named(513, Some(0)), name(NameFault::TooLong { units: 513 })),
            (named(1, Some(0)), name(NameFault::InnerNul { at: 0 })),
            (named(3, Some(1)), name(NameFault::InnerNul { at: 1 })),
            (named(512, Some(511)), name(NameFault::InnerNul { at: 511 })),
        ],
    )
}

/// That many bytes 9 that are stored.
fn sized(size: usize) -> Kept {
    Kept {
        attributes: 7,
        stamp: NO_STAMP,
        data: bytes(size, 9),
    }
}

#[test]
fn sizes_and_rooms_are_bounded(rt: HostRuntime) -> Result<(), Fail> {
    let size = refused(SetReason::Size {
        have: 33_793,
        limit: 33_792,
    });
    let append_size = refused(SetReason::AppendSize {
        have: 33_793,
        limit: 33_792,
    });
    let full_store = refused(SetReason::Room {
        need: 57_248,
        have: 57_244,
    });
    let full_memory = refused(SetReason::Room {
        need: 65_512,
        have: 65_508,
    });
    let written = write(7, NO_STAMP, 0, false);
    let appended = write(7, NO_STAMP, 0, true);
    let removed = Decision::Remove(Store::NonVolatile);
    let (most, more) = (bytes(33_728, 9), bytes(33_729, 9));
    comes_to(
        &rt,
        rt.alloc(),
        &[
            (set(7, most), written),
            (set(7, more), size),
            (set(0x47, most), written),
            (set(0x47, more), size),
            (over(sized(33_728), set(0x47, bytes(1, 9))), append_size),
            (over(sized(33_727), set(0x47, bytes(1, 9))), appended),
            (over(sized(1), set(0x47, more)), size),
            (over(sized(1), set(0, more)), size),
            (over(sized(33_728), set(0x40, bytes(1, 9))), removed),
            (beside(30_064, set(7, bytes(27_116, 9))), written),
            (beside(30_064, set(7, bytes(27_117, 9))), full_store),
            (
                beside(30_064, over(sized(27_116), set(7, bytes(27_116, 8)))),
                written,
            ),
            (
                beside(65_440, set(6, bytes(4, 9))),
                write(6, NO_STAMP, 0, false),
            ),
            (beside(65_440, set(6, bytes(5, 9))), full_memory),
        ],
    )
}
