use crate::{EntryFault, Lock, Policy, read_entry, write_entry};
use std::alloc::Global;
use std::test::Fail;
use var_types::{Bytes, Guid, Key, Units};

/// The namespace of UEFI's own variables, 8be4df61-93ca-11d2-aa0d-00e098032b8c, as it is stored.
const GLOBAL: [u8; 16] = [
    0x61, 0xdf, 0xe4, 0x8b, 0xca, 0x93, 0xd2, 0x11, 0xaa, 0x0d, 0x00, 0xe0, 0x98, 0x03, 0x2b, 0x8c,
];

/// `Boot####`, locked at once.
const BOOT: [u8; 62] = [
    0x00, 0x00, 0x01, 0x00, 0x3e, 0x00, 0x2c, 0x00, 0x61, 0xdf, 0xe4, 0x8b, 0xca, 0x93, 0xd2, 0x11,
    0xaa, 0x0d, 0x00, 0xe0, 0x98, 0x03, 0x2b, 0x8c, 0x00, 0x00, 0x00, 0x00, 0xff, 0xff, 0xff, 0xff,
    0x00, 0x00, 0x00, 0x00, 0x00, 0x00, 0x00, 0x00, 0x01, 0x00, 0x00, 0x00, 0x42, 0x00, 0x6f, 0x00,
    0x6f, 0x00, 0x74, 0x00, 0x23, 0x00, 0x23, 0x00, 0x23, 0x00, 0x23, 0x00, 0x00, 0x00,
];

/// `D`, locked once the variable `S` of the same namespace has the byte 1.
const STATE: [u8; 70] = [
    0x00, 0x00, 0x01, 0x00, 0x46, 0x00, 0x42, 0x00, 0x61, 0xdf, 0xe4, 0x8b, 0xca, 0x93, 0xd2, 0x11,
    0xaa, 0x0d, 0x00, 0xe0, 0x98, 0x03, 0x2b, 0x8c, 0x00, 0x00, 0x00, 0x00, 0xff, 0xff, 0xff, 0xff,
    0x00, 0x00, 0x00, 0x00, 0x00, 0x00, 0x00, 0x00, 0x03, 0x00, 0x00, 0x00, 0x61, 0xdf, 0xe4, 0x8b,
    0xca, 0x93, 0xd2, 0x11, 0xaa, 0x0d, 0x00, 0xe0, 0x98, 0x03, 0x2b, 0x8c, 0x01, 0x00, 0x53, 0x00,
    0x00, 0x00, 0x44, 0x00, 0x00, 0x00,
];

/// What bytes are read as: whether they are an entry, or the fault.
fn fault_of(alloc: Global, bytes: &[u8]) -> Option<EntryFault> {
    match read_entry(alloc, bytes) {
        Ok(_) => None,
        Err(fault) => Some(fault),
    }
}

/// The fault of an entry with a byte changed.
fn changed(alloc: Global, entry: &[u8], at: usize, value: u8) -> Result<Option<EntryFault>, Fail> {
    let mut bytes = entry.to_vec(alloc)?;
    if let Some(byte) = bytes.get_mut(at) {
        *byte = value;
    }
    Ok(fault_of(alloc, &bytes))
}

/// The fault of an entry's first bytes, whose Size is right.
fn cut(alloc: Global, entry: &[u8], length: usize) -> Result<Option<EntryFault>, Fail> {
    let mut bytes = entry.get(..length).unwrap_or(&[]).to_vec(alloc)?;
    if let Some(byte) = bytes.get_mut(4) {
        *byte = (length % 256) as u8;
    }
    Ok(fault_of(alloc, &bytes))
}

/// What each length of an entry is read as, in order: so many lengths of one answer, and then those of the next.
fn cuts(
    rt: &HostRuntime,
    entry: &[u8],
    want: &[(usize, Option<EntryFault>)],
) -> Result<bool, Fail> {
    let mut length = 0;
    for (many, fault) in want {
        for _ in 0..*many {
            if length > entry.len() || cut(rt.alloc(), entry, length)? != *fault {
                return Ok(false);
            }
            length += 1;
        }
    }
    Ok(length > entry.len())
}

#[test]
fn an_entry_is_cut_at_each_byte(rt: HostRuntime) -> Result<(), Fail> {
    let size = Some(EntryFault::Size);
    let name = Some(EntryFault::NameForm);
    assert!(rt; cuts(&rt, &BOOT, &[(44, size), (1, None), (17, name), (1, None)])?);
    let state = [(62, size), (4, name), (1, None), (3, name), (1, None)];
    assert!(rt; cuts(&rt, &STATE, &state)?);
    for length in 0..62 {
        let have = fault_of(rt.alloc(), BOOT.get(..length).unwrap_or(&[]));
        assert_eq!(rt; have, size, "{length} bytes");
    }
    Ok(())
}

/// A byte of `Boot####`, its value, and the answer. A unit whose low byte is 0 is a NUL.
const BOOT_CASES: [(usize, u8, Option<EntryFault>); 27] = [
    (0, 1, Some(EntryFault::Version)),
    (1, 1, Some(EntryFault::Version)),
    (2, 2, Some(EntryFault::Version)),
    (3, 1, Some(EntryFault::Version)),
    (4, 0x3d, Some(EntryFault::Size)),
    (4, 0x3f, Some(EntryFault::Size)),
    (5, 1, Some(EntryFault::Size)),
    (6, 0x2b, Some(EntryFault::Offset)),
    (6, 0x2d, Some(EntryFault::Offset)),
    (6, 0x2e, Some(EntryFault::Offset)),
    (7, 1, Some(EntryFault::Offset)),
    (8, 0, None),
    (24, 0xff, None),
    (28, 0, None),
    (32, 0xff, None),
    (36, 0xff, None),
    (40, 0, None),
    (40, 2, None),
    (40, 4, Some(EntryFault::LockType { value: 4 })),
    (40, 0xff, Some(EntryFault::LockType { value: 255 })),
    (41, 0xff, None),
    (42, 0xff, None),
    (43, 0xff, None),
    (44, 0, Some(EntryFault::NameForm)),
    (50, 0, Some(EntryFault::NameForm)),
    (60, 1, Some(EntryFault::NameForm)),
    (61, 1, Some(EntryFault::NameForm)),
];

/// The same of the lock on a variable's state.
const STATE_CASES: [(usize, u8, Option<EntryFault>); 10] = [
    (6, 0x2c, Some(EntryFault::Offset)),
    (6, 0x41, Some(EntryFault::Offset)),
    (6, 0x43, Some(EntryFault::Offset)),
    (44, 0, None),
    (60, 0xff, None),
    (61, 0xff, None),
    (62, 0, Some(EntryFault::NameForm)),
    (64, 1, Some(EntryFault::Offset)),
    (66, 0, Some(EntryFault::NameForm)),
    (68, 1, Some(EntryFault::NameForm)),
];

#[test]
fn each_field_is_tried_in_its_order(rt: HostRuntime) -> Result<(), Fail> {
    for (at, value, want) in BOOT_CASES {
        let have = changed(rt.alloc(), &BOOT, at, value)?;
        assert_eq!(rt; have, want, "{value} at {at}");
    }
    for (at, value, want) in STATE_CASES {
        let have = changed(rt.alloc(), &STATE, at, value)?;
        assert_eq!(rt; have, want, "{value} at {at} of a lock on a state");
    }
    Ok(())
}

#[test]
fn the_least_size_is_no_greater_than_the_greatest(rt: HostRuntime) -> Result<(), Fail> {
    let mut bytes = BOOT.as_slice().to_vec(rt.alloc())?;
    for (min, max, want) in [
        (1, 2, None),
        (2, 2, None),
        (2, 1, Some(EntryFault::MinAboveMax)),
    ] {
        for (at, value) in [(24, min), (28, max), (29, 0), (30, 0), (31, 0)] {
            if let Some(byte) = bytes.get_mut(at) {
                *byte = value;
            }
        }
        assert_eq!(rt; fault_of(rt.alloc(), &bytes), want, "{min} and {max}");
    }
    Ok(())
}

/// The bytes of an entry without limits and locks, with a name of so many units of one kind.
fn entry_named(alloc: Global, count: u16, unit: u8) -> Result<Vec<u8>, Fail> {
    let size = 44 + 2 * u32::from(count) + 2;
    let mut bytes = BOOT.get(..44).unwrap_or(&[]).to_vec(alloc)?;
    for (at, value) in [(4, size % 256), (5, size / 256 % 256), (40, 0)] {
        if let Some(byte) = bytes.get_mut(at) {
            *byte = value as u8;
        }
    }
    for _ in 0..count {
        bytes.extend_from_slice(&[unit, 0])?;
    }
    bytes.extend_from_slice(&[0, 0])?;
    Ok(bytes)
}

/// The bytes of an entry that is locked by the state of a variable with a name of so many units, without a name of its own.
fn state_named(alloc: Global, count: u16) -> Result<Vec<u8>, Fail> {
    let size = 62 + 2 * u32::from(count) + 2;
    let mut bytes = STATE.get(..62).unwrap_or(&[]).to_vec(alloc)?;
    for (at, value) in [
        (4, size % 256),
        (5, size / 256 % 256),
        (6, size % 256),
        (7, size / 256 % 256),
    ] {
        if let Some(byte) = bytes.get_mut(at) {
            *byte = value as u8;
        }
    }
    for _ in 0..count {
        bytes.extend_from_slice(&[0x23, 0])?;
    }
    bytes.extend_from_slice(&[0, 0])?;
    Ok(bytes)
}

#[test]
fn names_have_their_bounds(rt: HostRuntime) -> Result<(), Fail> {
    let alloc = rt.alloc();
    let name = Some(EntryFault::NameForm);
    // How many units, which one, and the answer.
    let cases = [
        (0, 0x41, name),
        (1, 0x41, None),
        (512, 0x41, None),
        (513, 0x41, name),
        (254, 0x23, None),
        (255, 0x23, Some(EntryFault::Wildcards { count: 255 })),
        (512, 0x23, Some(EntryFault::Wildcards { count: 512 })),
        (513, 0x23, name),
    ];
    for (count, unit, want) in cases {
        let entry = entry_named(alloc, count, unit)?;
        assert_eq!(rt; fault_of(alloc, &entry), want, "{count} units");
    }
    // `#` in the name of the other variable is no wildcard.
    for (count, want) in [(0, name), (1, None), (512, None), (513, name)] {
        let entry = state_named(alloc, count)?;
        assert_eq!(rt;
            fault_of(alloc, &entry),
            want,
            "{count} units of the state's name"
        );
    }
    Ok(())
}

/// Whether an entry is written again as it was read, with these bytes 0.
fn is_written(alloc: Global, entry: &[u8], padding: &[usize]) -> Result<bool, Fail> {
    let mut padded = entry.to_vec(alloc)?;
    for at in padding {
        if let Some(byte) = padded.get_mut(*at) {
            *byte = 0x5a;
        }
    }
    let policy = read_entry(alloc, &padded)?;
    let mut out = Bytes::copy(alloc, &[7])?;
    write_entry(&policy, &mut out)?;
    Ok(out.as_slice().get(1..) == Some(entry))
}

#[test]
fn an_entry_is_written_with_its_padding_zero(rt: HostRuntime) -> Result<(), Fail> {
    let alloc = rt.alloc();
    assert!(rt; is_written(alloc, &BOOT, &[41, 42, 43])?);
    assert!(rt; is_written(alloc, &STATE, &[41, 42, 43, 61])?);
    let short = entry_named(alloc, 0, 0)?;
    let mut nameless = short.get(..44).unwrap_or(&[]).to_vec(alloc)?;
    if let Some(byte) = nameless.get_mut(4) {
        *byte = 44;
    }
    assert!(rt; is_written(alloc, &nameless, &[41, 42, 43])?);
    Ok(())
}

#[test]
fn the_fields_of_an_entry_are_the_policys(rt: HostRuntime) -> Result<(), Fail> {
    let alloc = rt.alloc();
    let policy = Policy {
        namespace: Guid { bytes: [1; 16] },
        name: Some(Units::new(alloc, &[0x41, 0x23])?),
        min: 1,
        max: 0x0203_0405,
        must: 7,
        cant: 0x10,
        lock: Lock::OnState {
            key: Key {
                guid: Guid { bytes: GLOBAL },
                name: Units::new(alloc, &[0x53])?,
            },
            value: 9,
        },
    };
    let mut out = Bytes::new(alloc);
    write_entry(&policy, &mut out)?;
    let read = read_entry(alloc, out.as_slice())?;
    assert_eq!(rt; out.as_slice().len(), 72);
    assert!(rt; read.namespace == policy.namespace && read.name == policy.name);
    assert!(rt; (read.min, read.max, read.must, read.cant) == (1, 0x0203_0405, 7, 0x10));
    let locks = match (&read.lock, &policy.lock) {
        (Lock::OnState { key, value }, Lock::OnState { key: other, .. }) => {
            key == other && *value == 9
        }
        _ => false,
    };
    assert!(rt; locks);
    Ok(())
}
