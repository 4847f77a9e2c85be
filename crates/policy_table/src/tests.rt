ghost use Rattle.std.specs.Prelude.{◌≡◌};
ghost use Rattle.var_types.specs.Policies.{one_byte};
ghost use Rattle.var_types.specs.State.{stored_at};
ghost use Rattle.var_types.specs.declared.key.Key.{Key};

use crate::{PolicyTable, StateView};
use std::alloc::Global;
use std::test::Fail;
use var_types::{
    Ask, Bytes, Denied, EntryFault, Guid, Key, PolicyCall, PolicyReason, PolicyReply, Rule,
};

const VENDOR: Guid = Guid { bytes: [7; 16] };

/// What an entry says behind its namespace: least and greatest size, must and can't bits, and the lock type.
#[derive(Clone, Copy)]
struct Fields {
    min: u32,
    max: u32,
    must: u32,
    cant: u32,
    lock: u8,
}

/// No limit and no lock.
const FREE: Fields = Fields {
    min: 0,
    max: 0xFFFF_FFFF,
    must: 0,
    cant: 0,
    lock: 0,
};

fn push_name(bytes: &mut Vec<u8>, name: &[u8]) -> Result<(), Fail> {
    for unit in name {
        bytes.extend_from_slice(&[*unit, 0])?;
    }
    bytes.extend_from_slice(&[0, 0])?;
    Ok(())
}

/// The bytes of an entry with this name. A lock of type 3 is by the byte 1 of the variable `S`.
fn entry(alloc: Global, name: &[u8], fields: Fields) -> Result<Vec<u8>, Fail> {
    let state = fields.lock == 3;
    let offset: u16 = if state { 66 } else { 44 };
    let size = offset + 2 * (name.len() % 1024) as u16 + 2;
    let mut bytes = Vec::new(alloc);
    bytes.extend_from_slice(&[0, 0, 1, 0])?;
    bytes.extend_from_slice(&size.to_le_bytes())?;
    bytes.extend_from_slice(&offset.to_le_bytes())?;
    bytes.extend_from_slice(&VENDOR.bytes)?;
    for number in [fields.min, fields.max, fields.must, fields.cant] {
        bytes.extend_from_slice(&number.to_le_bytes())?;
    }
    bytes.extend_from_slice(&[fields.lock, 0, 0, 0])?;
    if state {
        bytes.extend_from_slice(&VENDOR.bytes)?;
        bytes.extend_from_slice(&[1, 0])?;
        push_name(&mut bytes, b"S")?;
    }
    push_name(&mut bytes, name)?;
    Ok(bytes)
}

/// A view in which each variable has this one byte, or none has one.
#[derive(Clone, Copy)]
struct OneByte {
    byte: Option<u8>,
}

impl StateView for OneByte {
    ghost is_of = { λ view state. (key : Key) → view.byte ≡ one_byte (stored_at state key) };

    fn one_byte(&self, _key: &Key) -> Option<u8> {
        self.byte
    }
}

const NO_BYTE: OneByte = OneByte { byte: None };

fn ask(attributes: u32, payload: u32, deletes: bool, stored: bool) -> Ask<'static> {
    Ask {
        guid: &VENDOR,
        name: &[0x44],
        attributes,
        payload,
        deletes,
        stored,
    }
}

/// The first rule of one policy that denies a set.
fn judged(
    alloc: Global,
    fields: Fields,
    state: Option<u8>,
    ask: &Ask,
) -> Result<Option<Rule>, Fail> {
    let mut table = PolicyTable::new(alloc);
    table.register(&entry(alloc, b"D", fields)?)?;
    let denied = table.judge(&OneByte { byte: state }, ask);
    Ok(denied.map(|denied| denied.rule))
}

const SIZED: Fields = Fields {
    min: 6,
    max: 8,
    ..FREE
};

const BITS: Fields = Fields {
    must: 3,
    cant: 4,
    ..FREE
};

const NOW: Fields = Fields { lock: 1, ..FREE };

const CREATE: Fields = Fields { lock: 2, ..FREE };

const STATE: Fields = Fields { lock: 3, ..FREE };

const ALL: Fields = Fields {
    min: 6,
    max: 6,
    must: 3,
    cant: 4,
    lock: 1,
};

/// A set: its attributes, the length of its payload, whether it deletes, and whether something is stored.
#[derive(Clone, Copy)]
struct Set(u32, u32, bool, bool);

/// The entry, the state variable's byte, the set, and the rule that denies it.
const CASES: [(Fields, Option<u8>, Set, Option<Rule>); 24] = [
    (FREE, None, Set(0, 0xFFFF_FFFF, false, true), None),
    (SIZED, None, Set(0, 5, false, false), Some(Rule::MinSize)),
    (SIZED, None, Set(0, 6, false, false), None),
    (SIZED, None, Set(0, 8, false, false), None),
    (SIZED, None, Set(0, 9, false, false), Some(Rule::MaxSize)),
    (SIZED, None, Set(0, 0, true, true), None),
    (BITS, None, Set(2, 0, false, false), Some(Rule::Must)),
    (BITS, None, Set(3, 0, false, false), None),
    (BITS, None, Set(0x43, 0, false, false), None),
    (BITS, None, Set(7, 0, false, false), Some(Rule::Cant)),
    (BITS, None, Set(4, 0, true, true), None),
    (NOW, None, Set(7, 1, false, false), Some(Rule::LockNow)),
    (NOW, None, Set(7, 0, true, true), Some(Rule::LockNow)),
    (CREATE, None, Set(7, 1, false, false), None),
    (
        CREATE,
        None,
        Set(7, 1, false, true),
        Some(Rule::LockOnCreate),
    ),
    (
        CREATE,
        None,
        Set(7, 0, true, true),
        Some(Rule::LockOnCreate),
    ),
    (STATE, None, Set(7, 1, false, true), None),
    (
        STATE,
        Some(1),
        Set(7, 1, false, false),
        Some(Rule::LockOnState),
    ),
    (STATE, Some(2), Set(7, 1, false, true), None),
    (ALL, None, Set(4, 5, false, true), Some(Rule::MinSize)),
    (ALL, None, Set(4, 7, false, true), Some(Rule::MaxSize)),
    (ALL, None, Set(4, 6, false, true), Some(Rule::Must)),
    (ALL, None, Set(7, 6, false, true), Some(Rule::Cant)),
    (ALL, None, Set(3, 6, false, true), Some(Rule::LockNow)),
];

#[test]
fn the_first_rule_that_fails_denies(rt: HostRuntime) -> Result<(), Fail> {
    for (fields, byte, set, want) in CASES {
        let ask = ask(set.0, set.1, set.2, set.3);
        assert_eq!(rt; judged(rt.alloc(), fields, byte, &ask)?, want);
    }
    Ok(())
}

#[test]
fn a_full_table_takes_no_more(rt: HostRuntime) -> Result<(), Fail> {
    let alloc = rt.alloc();
    let mut table = PolicyTable::new(alloc);
    for number in 0..1024u16 {
        let name = [0x41 + (number / 32) as u8, 0x41 + (number % 32) as u8];
        table.register(&entry(alloc, &name, FREE)?)?;
    }
    assert_eq!(rt; table.entries(), 1024);
    let more = entry(alloc, b"Q", FREE)?;
    let full = Err(PolicyReason::TableFull { entries: 1024 });
    assert_eq!(rt; table.would_register(&more), full);
    assert_eq!(rt; table.register(&more), full);
    // An entry that is there already is refused as that, whatever else it says.
    let there = entry(alloc, b"AB", Fields { min: 1, ..FREE })?;
    let already = Err(PolicyReason::Already { place: 1 });
    assert_eq!(rt; table.register(&there), already);
    let mut bytes = Bytes::new(alloc);
    table.entry(1023, &mut bytes)?;
    assert!(rt; bytes.as_slice() == entry(alloc, b"``", FREE)?.as_slice());
    let none = Err(PolicyReason::NoEntry { entries: 1024 });
    assert_eq!(rt; table.entry(1024, &mut bytes), none);
    Ok(())
}

#[test]
fn a_lock_is_for_good(rt: HostRuntime) -> Result<(), Fail> {
    let alloc = rt.alloc();
    let mut table = PolicyTable::new(alloc);
    table.register(&entry(alloc, b"D", Fields { lock: 1, ..FREE })?)?;
    let short = Err(PolicyReason::Entry(EntryFault::Size));
    assert_eq!(rt; table.register(&[]), short);
    let denied = table.judge(&NO_BYTE, &ask(7, 1, false, false));
    let rule = Rule::LockNow;
    assert_eq!(rt; denied, Some(Denied { place: 0, rule }));
    assert!(rt; !table.locked());
    assert_eq!(rt; table.lock(), Ok(()));
    assert!(rt; table.locked() && table.enabled());
    assert_eq!(rt; table.lock(), Err(PolicyReason::Locked));
    assert_eq!(rt; table.disable(), Err(PolicyReason::Locked));
    assert_eq!(rt; table.register(&[]), Err(PolicyReason::Locked));
    assert_eq!(rt; table.would_register(&[]), Err(PolicyReason::Locked));
    assert_eq!(rt; table.entries(), 1);
    Ok(())
}

#[test]
fn policy_off_denies_nothing(rt: HostRuntime) -> Result<(), Fail> {
    let alloc = rt.alloc();
    let mut table = PolicyTable::new(alloc);
    table.register(&entry(alloc, b"D", Fields { lock: 1, ..FREE })?)?;
    assert_eq!(rt; table.disable(), Ok(()));
    assert!(rt; !table.enabled());
    assert_eq!(rt; table.judge(&NO_BYTE, &ask(7, 1, false, false)), None);
    assert_eq!(rt; table.disable(), Err(PolicyReason::AlreadyOff));
    assert_eq!(rt; table.lock(), Ok(()));
    assert_eq!(rt; table.disable(), Err(PolicyReason::AlreadyOff));
    Ok(())
}

#[test]
fn each_call_is_answered_and_counted(rt: HostRuntime) -> Result<(), Fail> {
    let alloc = rt.alloc();
    let mut table = PolicyTable::new(alloc);
    let mut made = 5;
    let first = entry(alloc, b"D", FREE)?;
    let register = PolicyCall::Register(Bytes::copy(alloc, &first)?);
    let changed = matches!(table.answer(&register, &mut made, 7), PolicyReply::Ok);
    assert!(rt; changed && made == 6);
    let again = table.answer(&register, &mut made, 7);
    assert!(rt;
        matches!(
            again,
            PolicyReply::Refused(PolicyReason::Already { place: 0 })
        )
    );
    let on = matches!(
        table.answer(&PolicyCall::Enabled, &mut made, 7),
        PolicyReply::On
    );
    assert!(rt; on && made == 6);
    let off = matches!(
        table.answer(&PolicyCall::Disable, &mut made, 7),
        PolicyReply::Ok
    );
    assert!(rt; off && made == 7);
    let full = table.answer(&PolicyCall::Lock, &mut made, 7);
    assert!(rt;
        matches!(
            full,
            PolicyReply::Refused(PolicyReason::HistoryFull { made: 7 })
        )
    );
    assert!(rt; !table.locked() && made == 7);
    let given = match table.answer(&PolicyCall::At(0), &mut made, 7) {
        PolicyReply::Entry(bytes) => bytes.as_slice() == first.as_slice(),
        _ => false,
    };
    assert!(rt; given);
    let none = table.answer(&PolicyCall::At(1), &mut made, 7);
    assert!(rt;
        matches!(
            none,
            PolicyReply::Refused(PolicyReason::NoEntry { entries: 1 })
        )
    );
    Ok(())
}
