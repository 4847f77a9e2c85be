use crate::{AuthFault, DescriptorFault, is_later, judge, later_of, no_stamp, read_descriptor};
use var_types::{Stamp, Verdict};

// The least descriptor: its stamp is 2024-01-02 03:04:05, and dwLength is 24.
const LEAST: [u8; 40] = [
    0xe8, 0x07, 0x01, 0x02, 0x03, 0x04, 0x05, 0x00, 0x00, 0x00, 0x00, 0x00, 0x00, 0x00, 0x00, 0x00,
    0x18, 0x00, 0x00, 0x00, 0x00, 0x02, 0xf1, 0x0e, 0x9d, 0xd2, 0xaf, 0x4a, 0xdf, 0x68, 0xee, 0x49,
    0x8a, 0xa9, 0x34, 0x7d, 0x37, 0x56, 0x65, 0xa7,
];

const LEAST_STAMP: Stamp = Stamp {
    bytes: [
        0xe8, 0x07, 0x01, 0x02, 0x03, 0x04, 0x05, 0x00, 0x00, 0x00, 0x00, 0x00, 0x00, 0x00, 0x00,
        0x00,
    ],
};

// The least descriptor with four bytes more behind it, and a byte changed.
fn with_byte(at: usize, value: u8) -> [u8; 44] {
    let mut bytes = [0xaa; 44];
    bytes[..40].copy_from_slice(&LEAST);
    if let Some(byte) = bytes.get_mut(at) {
        *byte = value;
    }
    bytes
}

// What the first bytes of the least descriptor are read as: its length, or the offset of the broken field.
fn read_front(length: usize) -> Result<u64, u32> {
    let bytes = LEAST.get(..length).unwrap_or(&[]);
    match read_descriptor(bytes) {
        Ok(descriptor) => Ok(descriptor.length),
        Err(fault) => Err(fault.at),
    }
}

#[test]
fn a_cut_descriptor_is_broken_where_it_ends(rt: HostRuntime) {
    let broken = [
        0, 0, 2, 3, 4, 5, 6, 7, 8, 8, 8, 8, 12, 12, 14, 15, 16, 16, 16, 16, 16, 16, 16, 16, 16, 16,
        16, 16, 16, 16, 16, 16, 16, 16, 16, 16, 16, 16, 16, 16,
    ];
    for (length, at) in broken.iter().enumerate() {
        assert_eq!(rt; read_front(length), Err(*at), "{length} bytes");
    }
    assert_eq!(rt; read_front(40), Ok(40));
}

#[test]
fn each_field_is_read(rt: HostRuntime) {
    // A byte, its value, and the length of the descriptor or the offset of the broken field.
    let cases = [
        (0, 0xff, Ok(40)),
        (1, 0xff, Ok(40)),
        (2, 0xff, Ok(40)),
        (3, 0xff, Ok(40)),
        (4, 0xff, Ok(40)),
        (5, 0xff, Ok(40)),
        (6, 0xff, Ok(40)),
        (7, 0x01, Err(7)),
        (8, 0x01, Err(8)),
        (11, 0x80, Err(8)),
        (12, 0x01, Err(12)),
        (13, 0x80, Err(12)),
        (14, 0x01, Err(14)),
        (15, 0x01, Err(15)),
        (16, 0x17, Err(16)),
        (16, 0x18, Ok(40)),
        (16, 0x19, Ok(41)),
        (16, 0x1c, Ok(44)),
        (16, 0x1d, Err(16)),
        (17, 0x01, Err(16)),
        (19, 0xff, Err(16)),
        (20, 0xff, Ok(40)),
        (21, 0xff, Ok(40)),
        (22, 0xf0, Err(22)),
        (23, 0x0f, Err(22)),
        (24, 0x9c, Err(24)),
        (39, 0xa6, Err(24)),
        (40, 0x00, Ok(40)),
    ];
    for (at, value, want) in cases {
        let have = match read_descriptor(&with_byte(at, value)) {
            Ok(descriptor) => Ok(descriptor.length),
            Err(fault) => Err(fault.at),
        };
        assert_eq!(rt; have, want, "{value} at {at}");
    }
}

#[test]
fn a_descriptor_gives_its_stamp(rt: HostRuntime) {
    let stamp = read_descriptor(&LEAST).map(|descriptor| descriptor.stamp);
    assert_eq!(rt; stamp, Ok(LEAST_STAMP));
    let mut greatest = LEAST;
    for byte in greatest[16..20].iter_mut() {
        *byte = 0xff;
    }
    assert_eq!(rt; read_descriptor(&greatest), Err(DescriptorFault { at: 16 }));
    let mut first_of_two = with_byte(24, 0x00);
    first_of_two[7] = 0x01;
    assert_eq!(rt;
        read_descriptor(&first_of_two),
        Err(DescriptorFault { at: 7 })
    );
}

// The stamp of 2024-01-02 03:04:05 with a byte changed.
fn stamp_with(at: usize, value: u8) -> Stamp {
    let mut stamp = LEAST_STAMP;
    if let Some(byte) = stamp.bytes.get_mut(at) {
        *byte = value;
    }
    stamp
}

#[test]
fn stamps_are_compared_field_by_field(rt: HostRuntime) {
    // A byte, its value, and whether the stamp is later then, or earlier.
    let cases = [
        (0, 0xe9, true, false),
        (0, 0xe7, false, true),
        (1, 0x08, true, false),
        (1, 0x06, false, true),
        (2, 0x02, true, false),
        (2, 0x00, false, true),
        (3, 0x03, true, false),
        (3, 0x01, false, true),
        (4, 0x04, true, false),
        (4, 0x02, false, true),
        (5, 0x05, true, false),
        (5, 0x03, false, true),
        (6, 0x06, true, false),
        (6, 0x04, false, true),
        (7, 0x01, false, false),
        (15, 0x01, false, false),
    ];
    for (at, value, later, earlier) in cases {
        let stamp = stamp_with(at, value);
        assert_eq!(rt; is_later(&stamp, &LEAST_STAMP), later, "{value} at {at}");
        assert_eq!(rt; is_later(&LEAST_STAMP, &stamp), earlier, "{value} at {at}");
        let kept = if later { stamp } else { LEAST_STAMP };
        assert_eq!(rt; later_of(stamp, LEAST_STAMP), kept, "{value} at {at}");
    }
    let mut old = no_stamp();
    let mut new = no_stamp();
    old.bytes[0] = 0xff;
    new.bytes[1] = 0x01;
    old.bytes[2] = 0x0c;
    assert!(rt; is_later(&new, &old));
    assert!(rt; !is_later(&old, &new));
}

#[test]
fn signatures_go_before_stamps(rt: HostRuntime) {
    let later = stamp_with(6, 0x06);
    let refused = AuthFault::Stamp {
        stored: later,
        new: LEAST_STAMP,
    };
    let equal = AuthFault::Stamp {
        stored: LEAST_STAMP,
        new: LEAST_STAMP,
    };
    let cases = [
        (
            None,
            LEAST_STAMP,
            false,
            Verdict::Bad,
            Err(AuthFault::Verdict),
        ),
        (
            Some(&later),
            LEAST_STAMP,
            false,
            Verdict::Bad,
            Err(AuthFault::Verdict),
        ),
        (None, LEAST_STAMP, false, Verdict::Good, Ok(LEAST_STAMP)),
        (None, LEAST_STAMP, true, Verdict::Good, Ok(LEAST_STAMP)),
        (
            Some(&later),
            LEAST_STAMP,
            false,
            Verdict::Good,
            Err(refused),
        ),
        (
            Some(&LEAST_STAMP),
            LEAST_STAMP,
            false,
            Verdict::Good,
            Err(equal),
        ),
        (Some(&LEAST_STAMP), later, false, Verdict::Good, Ok(later)),
        (Some(&later), LEAST_STAMP, true, Verdict::Good, Ok(later)),
        (Some(&LEAST_STAMP), later, true, Verdict::Good, Ok(later)),
    ];
    for (stored, new, append, verdict, want) in cases {
        assert_eq!(rt; judge(stored, &new, append, verdict), want);
    }
}
