use crate::{
    Header, HeaderFault, VAR_ADDED, VAR_DELETED, VAR_HEADER_VALID_ONLY, VAR_IN_DELETED_TRANSITION,
    clear, read_header, write_header,
};

// A record as firmware has it: the variable BootOrder of the global namespace, attributes 7, the bytes 01 00, ADDED.
const RECORD: [u8; 82] = [
    0xaa, 0x55, 0x3f, 0x00, 0x07, 0x00, 0x00, 0x00, 0x00, 0x00, 0x00, 0x00, 0x00, 0x00, 0x00, 0x00,
    0x00, 0x00, 0x00, 0x00, 0x00, 0x00, 0x00, 0x00, 0x00, 0x00, 0x00, 0x00, 0x00, 0x00, 0x00, 0x00,
    0x00, 0x00, 0x00, 0x00, 0x14, 0x00, 0x00, 0x00, 0x02, 0x00, 0x00, 0x00, 0x61, 0xdf, 0xe4, 0x8b,
    0xca, 0x93, 0xd2, 0x11, 0xaa, 0x0d, 0x00, 0xe0, 0x98, 0x03, 0x2b, 0x8c, 0x42, 0x00, 0x6f, 0x00,
    0x6f, 0x00, 0x74, 0x00, 0x4f, 0x00, 0x72, 0x00, 0x64, 0x00, 0x65, 0x00, 0x72, 0x00, 0x00, 0x00,
    0x01, 0x00,
];

const BOOT_ORDER: Header = Header {
    state: 0x3F,
    attributes: 7,
    time_stamp: [0; 16],
    name_size: 20,
    data_size: 2,
    vendor_guid: [
        0x61, 0xdf, 0xe4, 0x8b, 0xca, 0x93, 0xd2, 0x11, 0xaa, 0x0d, 0x00, 0xe0, 0x98, 0x03, 0x2b,
        0x8c,
    ],
};

#[test]
fn headers_are_read(rt: HostRuntime) {
    let cases = [
        (60, 0, Ok(BOOT_ORDER)),
        (59, 0, Err(HeaderFault::PastEnd { at: 0 })),
        (82, 22, Err(HeaderFault::NoStart)),
        (82, 23, Err(HeaderFault::PastEnd { at: 23 })),
        (82, usize::MAX, Err(HeaderFault::PastEnd { at: u64::MAX })),
    ];
    for (end, at, want) in cases {
        assert_eq!(rt;
            read_header(&RECORD[..end], at, false),
            want,
            "{end} bytes at {at}"
        );
    }
    let mut swapped = RECORD;
    swapped[0] = 0x55;
    swapped[1] = 0xAA;
    assert_eq!(rt; read_header(&swapped, 0, false), Err(HeaderFault::NoStart));
}

#[test]
fn a_header_is_written(rt: HostRuntime) {
    let mut written = RECORD;
    for byte in written[..60].iter_mut() {
        *byte = 0xFF;
    }
    write_header(&BOOT_ORDER, &mut written);
    assert_eq!(rt; written.as_slice(), RECORD.as_slice());
}

#[test]
fn states_lose_bits_alone(rt: HostRuntime) {
    for (state, mask, want) in [
        (0xFF, VAR_HEADER_VALID_ONLY, 0x7F),
        (VAR_HEADER_VALID_ONLY, VAR_ADDED, 0x3F),
        (VAR_ADDED, VAR_IN_DELETED_TRANSITION, 0x3E),
        (0x3E, VAR_DELETED, 0x3C),
        (0x3C, VAR_IN_DELETED_TRANSITION, 0x3C),
    ] {
        assert_eq!(rt; clear(state, mask), want);
    }
}
