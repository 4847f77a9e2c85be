use super::text::{write_attributes, write_bytes, write_name, write_number};
use super::*;
use std::alloc::{AllocError, Global};
use std::cmp::Ordering;
use std::test::Fail;

/// The stored bytes of `8be4df61-93ca-11d2-aa0d-00e098032b8c`, the GUID of the variables that UEFI itself defines.
const GLOBAL: [u8; 16] = [
    0x61, 0xdf, 0xe4, 0x8b, 0xca, 0x93, 0xd2, 0x11, 0xaa, 0x0d, 0x00, 0xe0, 0x98, 0x03, 0x2b, 0x8c,
];

#[test]
fn guids_are_read_in_every_form(rt: HostRuntime) {
    for (text, stored) in [
        (
            "8be4df61-93ca-11d2-aa0d-00e098032b8c",
            Ok(Guid { bytes: GLOBAL }),
        ),
        (
            "8BE4DF61-93CA-11D2-AA0D-00E098032B8C",
            Ok(Guid { bytes: GLOBAL }),
        ),
        (
            "8be4df6193ca11d2aa0d00e098032b8c",
            Ok(Guid { bytes: GLOBAL }),
        ),
        (
            "{8be4df61-93ca-11d2-aa0d-00e098032b8c}",
            Ok(Guid { bytes: GLOBAL }),
        ),
        (
            "urn:uuid:8be4df61-93ca-11d2-aa0d-00e098032b8c",
            Ok(Guid { bytes: GLOBAL }),
        ),
        (
            "URN:UUID:8be4df61-93ca-11d2-aa0d-00e098032b8c",
            Ok(Guid { bytes: GLOBAL }),
        ),
        ("", Err(NotAGuid)),
        ("8be4df61-93ca-11d2-aa0d-00e098032b8", Err(NotAGuid)),
        ("8be4df61093ca-11d2-aa0d-00e098032b8c", Err(NotAGuid)),
        ("8be4df61-93ca-11d2-aa0d-00e098032b8g", Err(NotAGuid)),
        ("{8be4df61-93ca-11d2-aa0d-00e098032b8c)", Err(NotAGuid)),
    ] {
        assert_eq!(rt; Guid::read(text), stored, "{text}");
    }
}

#[test]
fn values_are_printed(rt: HostRuntime) -> Result<(), Fail> {
    let mut out = TextBuffer::new(rt.alloc());
    out.put(b"<");
    Guid { bytes: GLOBAL }.write(&mut out);
    out.put(b" ");
    write_number(u64::MAX, &mut out);
    out.put(b" ");
    write_attributes(0xAB, &mut out);
    for bytes in [[].as_slice(), &[0x0F], &[0xA0; 33]] {
        out.put(b" ");
        write_bytes(bytes, &mut out);
    }
    for name in [[].as_slice(), &[0x2D], &[0x2D, 0x25], &[0x41, 0x20, 0x2603]] {
        out.put(b" ");
        write_name(name, &mut out);
    }
    let want = b"<8be4df61-93ca-11d2-aa0d-00e098032b8c 18446744073709551615 0x000000ab - 0f \
        a0a0a0a0a0a0a0a0a0a0a0a0a0a0a0a0a0a0a0a0a0a0a0a0a0a0a0a0a0a0a0a0a0 - %002d -%0025 A%0020%2603";
    assert_eq!(rt; out.finish()?.as_slice(), want.as_slice());
    Ok(())
}

#[test]
fn names_are_checked_in_order(rt: HostRuntime) {
    let mut long = [1u16; 513];
    assert_eq!(rt; check_name(&[]), Err(NameFault::Empty));
    assert_eq!(rt;
        check_name(&[65, 0, 66, 0]),
        Err(NameFault::InnerNul { at: 1 })
    );
    assert_eq!(rt; check_name(&long[..512]), Ok(()));
    long[0] = 0;
    assert_eq!(rt; check_name(&long), Err(NameFault::TooLong { units: 513 }));
}

fn key(alloc: Global, guid: u8, name: &[u16]) -> Result<Key, AllocError> {
    let Ok(name) = Units::new(alloc, name) else {
        return Err(AllocError);
    };
    let guid = Guid { bytes: [guid; 16] };
    Ok(Key { guid, name })
}

#[test]
fn keys_are_ordered_by_guid_and_name(rt: HostRuntime) -> Result<(), Fail> {
    let alloc = rt.alloc();
    let cases: [(u8, &[u16], u8, &[u16], Ordering); 4] = [
        (1, &[90], 2, &[65], Ordering::Less),
        (1, &[65], 1, &[65, 66], Ordering::Less),
        (1, &[256], 1, &[255, 255], Ordering::Greater),
        (3, &[65], 3, &[65], Ordering::Equal),
    ];
    for (guid, name, other_guid, other_name, order) in cases {
        let a = key(alloc, guid, name)?;
        let b = key(alloc, other_guid, other_name)?;
        assert_eq!(rt; a.cmp(&b), order);
    }
    Ok(())
}

#[test]
fn lists_hold_what_they_were_given(rt: HostRuntime) -> Result<(), Fail> {
    let alloc = rt.alloc();
    let units = [7u16; 1025];
    assert_eq!(rt;
        Units::new(alloc, &units).err(),
        Some(UnitsFault::TooMany { units: 1025 })
    );
    let name = Units::new(alloc, &units[..1024])?;
    assert_eq!(rt; name.as_slice(), &units[..1024]);
    let mut bytes = Bytes::new(alloc);
    bytes.append(b"ab")?;
    bytes.append(b"c")?;
    let same = bytes.clone()?;
    assert!(rt; same == Bytes::from_vec(b"abc".to_vec(alloc)?));
    assert_eq!(rt; bytes.into_vec().as_slice(), b"abc".as_slice());
    Ok(())
}
