use crate::varsvc;
use flash_dev::{FaultPlan, MemFlash, Torn};
use outside::{MemSink, MemSource};
use std::alloc::{AllocError, Global};
use std::test::Fail;

pub(crate) const IMAGE: usize = 131_072;

// The first 100 bytes of OVMF's image without variables, as Debian ships it.
pub(crate) const HEADERS: [u8; 100] = [
    0x00, 0x00, 0x00, 0x00, 0x00, 0x00, 0x00, 0x00, 0x00, 0x00, 0x00, 0x00, 0x00, 0x00, 0x00, 0x00,
    0x8d, 0x2b, 0xf1, 0xff, 0x96, 0x76, 0x8b, 0x4c, 0xa9, 0x85, 0x27, 0x47, 0x07, 0x5b, 0x4f, 0x50,
    0x00, 0x00, 0x02, 0x00, 0x00, 0x00, 0x00, 0x00, 0x5f, 0x46, 0x56, 0x48, 0xff, 0xfe, 0x04, 0x00,
    0x48, 0x00, 0x19, 0xf9, 0x00, 0x00, 0x00, 0x02, 0x20, 0x00, 0x00, 0x00, 0x00, 0x10, 0x00, 0x00,
    0x00, 0x00, 0x00, 0x00, 0x00, 0x00, 0x00, 0x00, 0x78, 0x2c, 0xf3, 0xaa, 0x7b, 0x94, 0x9a, 0x43,
    0xa1, 0x80, 0x2e, 0x14, 0x4e, 0xc3, 0x77, 0x92, 0xb8, 0xdf, 0x00, 0x00, 0x5a, 0xfe, 0x00, 0x00,
    0x00, 0x00, 0x00, 0x00,
];

// A record as firmware has it: the variable BootOrder of the global namespace, attributes 7, the bytes 01 00, ADDED.
pub(crate) const RECORD: [u8; 82] = [
    0xaa, 0x55, 0x3f, 0x00, 0x07, 0x00, 0x00, 0x00, 0x00, 0x00, 0x00, 0x00, 0x00, 0x00, 0x00, 0x00,
    0x00, 0x00, 0x00, 0x00, 0x00, 0x00, 0x00, 0x00, 0x00, 0x00, 0x00, 0x00, 0x00, 0x00, 0x00, 0x00,
    0x00, 0x00, 0x00, 0x00, 0x14, 0x00, 0x00, 0x00, 0x02, 0x00, 0x00, 0x00, 0x61, 0xdf, 0xe4, 0x8b,
    0xca, 0x93, 0xd2, 0x11, 0xaa, 0x0d, 0x00, 0xe0, 0x98, 0x03, 0x2b, 0x8c, 0x42, 0x00, 0x6f, 0x00,
    0x6f, 0x00, 0x74, 0x00, 0x4f, 0x00, 0x72, 0x00, 0x64, 0x00, 0x65, 0x00, 0x72, 0x00, 0x00, 0x00,
    0x01, 0x00,
];

const LISTING: &[u8] =
    b"variables 1\n8be4df61-93ca-11d2-aa0d-00e098032b8c BootOrder 0x00000007 - 0100\nend\n";

// The header of a work area without used slots, and behind it a slot that is pending.
pub(crate) const MARK: [u8; 16] = *b"VARSVC-FTW-0001\xFE";

pub(crate) const PENDING: [u8; 17] = *b"VARSVC-FTW-0001\xFE\xFE";

/// Bytes that stand at a place of an image.
pub(crate) type Part<'a> = (usize, &'a [u8]);

pub(crate) fn put(into: &mut [u8], at: usize, bytes: &[u8]) {
    for (place, byte) in into.iter_mut().skip(at).zip(bytes) {
        *place = *byte;
    }
}

// An image of 0xFF with the headers of a store without variables, and other parts over them.
pub(crate) fn image_of(alloc: Global, parts: &[Part]) -> Result<Vec<u8>, AllocError> {
    let mut bytes = vec![in alloc; 0xFFu8; IMAGE]?;
    put(&mut bytes, 0, &HEADERS);
    for (at, part) in parts {
        put(&mut bytes, *at, part);
    }
    Ok(bytes)
}

/// What a call of the program left.
#[derive(Drop)]
struct Left {
    status: u8,
    text: Vec<u8>,
    image: Option<MemFlash>,
}

// A call of the program on an image, of which the calls of flash and sink with these numbers fail.
fn call(
    alloc: Global,
    verb: &str,
    bytes: Vec<u8>,
    flash_fails: &[u32],
    sink_fails: &[u32],
) -> Result<Left, AllocError> {
    let mut words = Vec::new(alloc);
    words.push(String::from_str(alloc, verb)?)?;
    words.push(String::from_str(alloc, "vars.fd")?)?;
    let plan = FaultPlan {
        fails: flash_fails.to_vec(alloc)?,
        stop_at: None,
        torn: Torn::Half,
    };
    let mut source = MemSource::new(Vec::new(alloc), Vec::new(alloc));
    let mut sink = MemSink::new(vec![in alloc; 0u8; 4096]?, sink_fails.to_vec(alloc)?);
    let image = MemFlash::new(bytes, plan);
    let done = varsvc(alloc, &words, &mut source, image, &mut sink);
    Ok(Left {
        status: done.status,
        text: sink.bytes().to_vec(alloc)?,
        image: done.image,
    })
}

#[test]
fn images_are_listed(rt: HostRuntime) -> Result<(), Fail> {
    let alloc = rt.alloc();
    // the listing, and in how many reads: the spare's blocks up to the first that isn't blank, the work area, and what counts
    let cases: [(&[Part], &[u8], u32); 9] = [
        (&[], b"variables 0\nend\n", 18),
        (&[(100, &RECORD)], LISTING, 18),
        // what follows the volume up to the work area is not looked at
        (&[(100, &RECORD), (57_344, &RECORD)], LISTING, 18),
        // fields that are not looked at
        (&[(100, &RECORD), (94, &[1, 2, 3, 4, 5, 6])], LISTING, 18),
        // the state of a deleted variable
        (&[(100, &RECORD), (102, &[0x3d])], b"variables 0\nend\n", 18),
        // another work area, and ours in which a write is pending, beside a blank spare
        (&[(100, &RECORD), (61_440, &RECORD)], LISTING, 18),
        (&[(100, &RECORD), (61_440, &PENDING)], LISTING, 18),
        // a used spare of which no write is pending, and one of which one is, whatever the volume holds
        (
            &[(100, &RECORD), (61_440, &MARK), (131_071, &[0])],
            LISTING,
            18,
        ),
        (
            &[
                (0, &[0; 100]),
                (61_440, &PENDING),
                (65_536, &HEADERS),
                (65_636, &RECORD),
            ],
            LISTING,
            3,
        ),
    ];
    for (parts, text, calls) in cases {
        let image = image_of(alloc, parts)?;
        let left = call(alloc, "list", image, &[], &[])?;
        assert_eq!(rt; left.status, 0);
        assert_eq!(rt; left.text.as_slice(), text);
        let after = left.image.expect(&rt, "the image is there");
        assert_eq!(rt; after.bytes(), image_of(alloc, parts)?.as_slice());
        assert_eq!(rt; after.calls(), calls);
    }
    Ok(())
}

#[test]
fn images_are_refused_by_their_fields(rt: HostRuntime) -> Result<(), Fail> {
    let alloc = rt.alloc();
    let cases: [(Part, &str); 14] = [
        ((131_071, &[0]), "image foreign-work\n"),
        ((16, &[0]), "image volume 16\n"),
        ((32, &[1]), "image volume 32\n"),
        ((40, &[0]), "image volume 40\n"),
        ((48, &[73]), "image volume 48\n"),
        ((60, &[1]), "image block 4097\n"),
        ((56, &[31]), "image volume 56\n"),
        ((71, &[1]), "image volume 64\n"),
        ((50, &[0]), "image sum 65511\n"),
        ((0, &[1]), "image sum 1\n"),
        ((87, &[0]), "image store 72\n"),
        ((88, &[0]), "image store 88\n"),
        ((92, &[0]), "image store 92\n"),
        ((93, &[0xfc]), "image store 93\n"),
    ];
    for (part, line) in cases {
        for verb in ["list", "check"] {
            let image = image_of(alloc, &[part])?;
            let left = call(alloc, verb, image, &[], &[])?;
            assert_eq!(rt; left.status, 4, "{verb} {line}");
            assert_eq!(rt; left.text.as_slice(), line.as_bytes(), "{verb}");
            let after = left.image.expect(&rt, "the image is there");
            assert_eq!(rt; after.bytes(), image_of(alloc, &[part])?.as_slice());
        }
    }
    Ok(())
}

#[test]
fn images_are_refused_by_their_length(rt: HostRuntime) -> Result<(), Fail> {
    let alloc = rt.alloc();
    let cases = [
        (0, "image size 0 131072\n"),
        (100, "image size 100 131072\n"),
        (131_071, "image size 131071 131072\n"),
        (131_073, "image size 131073 131072\n"),
    ];
    for (length, line) in cases {
        for verb in ["list", "format"] {
            let left = call(alloc, verb, vec![in alloc; 0x5Au8; length]?, &[], &[])?;
            assert_eq!(rt; left.status, 4, "{verb} {line}");
            assert_eq!(rt; left.text.as_slice(), line.as_bytes(), "{verb}");
            let after = left.image.expect(&rt, "the image is there");
            assert_eq!(rt; after.calls(), 0, "{verb} {line}");
        }
    }
    Ok(())
}

#[test]
fn a_format_leaves_a_blank_image(rt: HostRuntime) -> Result<(), Fail> {
    let alloc = rt.alloc();
    let left = call(alloc, "format", vec![in alloc; 0x5Au8; IMAGE]?, &[], &[])?;
    assert_eq!(rt; left.status, 0);
    assert!(rt; left.text.is_empty());
    let after = left.image.expect(&rt, "the image is there");
    assert_eq!(rt; after.bytes(), image_of(alloc, &[])?.as_slice());
    Ok(())
}

#[test]
fn failed_calls_of_the_flash_are_device_faults(rt: HostRuntime) -> Result<(), Fail> {
    let alloc = rt.alloc();
    // A list makes 18 calls, a format 33.
    for (verb, calls) in [("list", 18), ("format", 33)] {
        for number in 0..calls {
            let left = call(alloc, verb, image_of(alloc, &[])?, &[number], &[])?;
            assert_eq!(rt; left.status, 7, "{verb} {number}");
            assert_eq!(rt;
                left.text.as_slice(),
                b"device fault\n".as_slice(),
                "{verb}"
            );
        }
        let left = call(alloc, verb, image_of(alloc, &[])?, &[calls], &[])?;
        assert_eq!(rt; left.status, 0, "{verb}");
    }
    Ok(())
}

#[test]
fn a_failed_write_decides_the_status(rt: HostRuntime) -> Result<(), Fail> {
    let alloc = rt.alloc();
    let cases: [(&str, &[u32], u8); 4] = [
        ("list", &[], 5),
        ("list", &[0], 5),
        ("format", &[0], 5),
        // of a format nothing is written
        ("format", &[], 0),
    ];
    for (verb, flash_fails, status) in cases {
        let left = call(alloc, verb, image_of(alloc, &[])?, flash_fails, &[0])?;
        assert_eq!(rt; left.status, status, "{verb}");
    }
    Ok(())
}

// Parts of an image, what is printed of work area and spare, and what of its content.
type Checked<'a> = (&'a [Part<'a>], &'a str, &'a str);

const NEW: &str = "work unmade\nspare blank\n";

const USED: &str = "variables 1 used 84 room 57244\ntail clean\n";

const UNUSED: &str = "variables 0 used 0 room 57244\ntail clean\n";

const CHECKED: [(Checked, &str); 18] = [
    (
        (
            &[],
            NEW,
            "records 0 added 0 transition 0 deleted 0 other 0\n",
        ),
        UNUSED,
    ),
    // a start mark alone
    (
        (
            &[(100, &[0xaa, 0x55])],
            NEW,
            "records 1 added 0 transition 0 deleted 0 other 1\n",
        ),
        UNUSED,
    ),
    (
        (
            &[(100, &RECORD)],
            NEW,
            "records 1 added 1 transition 0 deleted 0 other 0\n",
        ),
        USED,
    ),
    // each state byte of a deleted record, and that of one in transition
    (
        (
            &[(100, &RECORD), (102, &[0x3d])],
            NEW,
            "records 1 added 0 transition 0 deleted 1 other 0\n",
        ),
        UNUSED,
    ),
    (
        (
            &[(100, &RECORD), (102, &[0x3c])],
            NEW,
            "records 1 added 0 transition 0 deleted 1 other 0\n",
        ),
        UNUSED,
    ),
    (
        (
            &[(100, &RECORD), (102, &[0x3e])],
            NEW,
            "records 1 added 0 transition 1 deleted 0 other 0\n",
        ),
        USED,
    ),
    // two of a key, and a volatile one
    (
        (
            &[(100, &RECORD), (184, &RECORD)],
            NEW,
            "records 2 added 2 transition 0 deleted 0 other 0\n",
        ),
        USED,
    ),
    (
        (
            &[(100, &RECORD), (184, &RECORD), (188, &[6])],
            NEW,
            "records 2 added 1 transition 0 deleted 0 other 1\n",
        ),
        USED,
    ),
    // two of a key in transition, and an ADDED one with its twin, a volatile one between them
    (
        (
            &[
                (100, &RECORD),
                (102, &[0x3e]),
                (184, &RECORD),
                (186, &[0x3e]),
            ],
            NEW,
            "records 2 added 0 transition 2 deleted 0 other 0\n",
        ),
        USED,
    ),
    (
        (
            &[
                (100, &RECORD),
                (102, &[0x3e]),
                (184, &RECORD),
                (188, &[6]),
                (268, &RECORD),
            ],
            NEW,
            "records 3 added 1 transition 1 deleted 0 other 1\n",
        ),
        USED,
    ),
    // a record that ends where the volume does, one that ends a byte past it, and such a one behind another
    (
        (
            &[(100, &RECORD), (140, &[0x4c, 0xdf])],
            NEW,
            "records 1 added 1 transition 0 deleted 0 other 0\n",
        ),
        "variables 1 used 57244 room 57244\ntail clean\n",
    ),
    (
        (
            &[(100, &RECORD), (140, &[0x4d, 0xdf])],
            NEW,
            "records 0 added 0 transition 0 deleted 0 other 0\n",
        ),
        "variables 0 used 0 room 57244\ntail dirty\n",
    ),
    (
        (
            &[(100, &RECORD), (184, &RECORD), (224, &[0xf9, 0xde])],
            NEW,
            "records 1 added 1 transition 0 deleted 0 other 0\n",
        ),
        "variables 1 used 84 room 57244\ntail dirty\n",
    ),
    // a name of an odd size, behind whose record the old bytes are left
    (
        (
            &[(100, &RECORD), (136, &[5])],
            NEW,
            "records 1 added 0 transition 0 deleted 0 other 1\n",
        ),
        "variables 0 used 0 room 57244\ntail dirty\n",
    ),
    (
        (
            &[(100, &RECORD), (61_440, &MARK)],
            "work clean 0\nspare blank\n",
            "records 1 added 1 transition 0 deleted 0 other 0\n",
        ),
        USED,
    ),
    (
        (
            &[(100, &RECORD), (61_440, &PENDING)],
            "work pending 0\nspare blank\n",
            "records 1 added 1 transition 0 deleted 0 other 0\n",
        ),
        USED,
    ),
    (
        (
            &[(61_440, &MARK), (131_071, &[0])],
            "work clean 0\nspare used\n",
            "records 0 added 0 transition 0 deleted 0 other 0\n",
        ),
        UNUSED,
    ),
    // the spare's content counts
    (
        (
            &[
                (0, &[0; 100]),
                (61_440, &PENDING),
                (65_536, &HEADERS),
                (65_636, &RECORD),
            ],
            "work pending 0\nspare used\n",
            "records 1 added 1 transition 0 deleted 0 other 0\n",
        ),
        USED,
    ),
];

#[test]
fn images_are_checked(rt: HostRuntime) -> Result<(), Fail> {
    let alloc = rt.alloc();
    for ((parts, state, records), variables) in CHECKED {
        let image = image_of(alloc, parts)?;
        let left = call(alloc, "check", image, &[], &[])?;
        assert_eq!(rt; left.status, 0);
        let mut want = Vec::new(alloc);
        for text in [
            "image ok\nstore authenticated\n",
            state,
            records,
            variables,
            "end\n",
        ] {
            want.extend_from_slice(text.as_bytes())?;
        }
        assert_eq!(rt; left.text.as_slice(), want.as_slice(), "{records}");
    }
    Ok(())
}

#[test]
fn a_full_work_area_is_told(rt: HostRuntime) -> Result<(), Fail> {
    let alloc = rt.alloc();
    let mut image = image_of(alloc, &[(61_440, &MARK)])?;
    for slot in 1..=255usize {
        put(&mut image, 61_440 + 16 * slot, &[0xfe, 0xfe]);
    }
    let left = call(alloc, "check", image, &[], &[])?;
    assert_eq!(rt; left.status, 0);
    let want = b"image ok\nstore authenticated\nwork clean 255\nspare blank\nrecords 0 added 0 ";
    assert!(rt; left.text.starts_with(want.as_slice()));
    Ok(())
}

#[test]
fn a_check_is_refused_as_a_listing(rt: HostRuntime) -> Result<(), Fail> {
    let alloc = rt.alloc();
    let cases: [(&[Part], &[u32], u8, &[u8]); 3] = [
        (&[(40, &[0])], &[], 4, b"image volume 40\n"),
        (&[(131_071, &[0])], &[], 4, b"image foreign-work\n"),
        (&[], &[0], 7, b"device fault\n"),
    ];
    for (parts, fails, status, line) in cases {
        for verb in ["list", "check"] {
            let image = image_of(alloc, parts)?;
            let left = call(alloc, verb, image, fails, &[])?;
            assert_eq!(rt; left.status, status, "{verb}");
            assert_eq!(rt; left.text.as_slice(), line, "{verb}");
        }
    }
    Ok(())
}
