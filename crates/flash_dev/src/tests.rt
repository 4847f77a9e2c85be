use crate::{
    FaultPlan, FileFlash, Flash, Geometry, HEADERS_BYTES, ImageFault, MemFlash, RecordingFlash,
    Torn, format_image, geometry_of, read_geometry,
};
use std::alloc::{AllocError, Global};
use std::fs::{File, Metadata, OpenFile, OpenOptions, Permissions};
use std::io::{Read, Seek, SeekFrom, Write};
use std::os::unix::fs::PermissionsExt;
use std::process::Abort;
use std::test::Fail;
use std::{fs, io, process};

// The headers of an image without variables, byte by byte.
const HEADERS: [u8; HEADERS_BYTES] = [
    0x00, 0x00, 0x00, 0x00, 0x00, 0x00, 0x00, 0x00, 0x00, 0x00, 0x00, 0x00, 0x00, 0x00, 0x00, 0x00,
    0x8d, 0x2b, 0xf1, 0xff, 0x96, 0x76, 0x8b, 0x4c, 0xa9, 0x85, 0x27, 0x47, 0x07, 0x5b, 0x4f, 0x50,
    0x00, 0x00, 0x02, 0x00, 0x00, 0x00, 0x00, 0x00, 0x5f, 0x46, 0x56, 0x48, 0xff, 0xfe, 0x04, 0x00,
    0x48, 0x00, 0x19, 0xf9, 0x00, 0x00, 0x00, 0x02, 0x20, 0x00, 0x00, 0x00, 0x00, 0x10, 0x00, 0x00,
    0x00, 0x00, 0x00, 0x00, 0x00, 0x00, 0x00, 0x00, 0x78, 0x2c, 0xf3, 0xaa, 0x7b, 0x94, 0x9a, 0x43,
    0xa1, 0x80, 0x2e, 0x14, 0x4e, 0xc3, 0x77, 0x92, 0xb8, 0xdf, 0x00, 0x00, 0x5a, 0xfe, 0x00, 0x00,
    0x00, 0x00, 0x00, 0x00,
];

const EMPTY: Result<Geometry, ImageFault> = Ok(Geometry { plain: false });

// A call within the flash, and whether it was done.
fn reads<F: Flash>(rt: &impl Abort, flash: &mut F, at: u32, into: &mut [u8]) -> bool {
    assert!(rt; u64::from(at) + into.len() as u64 <= flash.len());
    flash.read(at, into).is_ok()
}

fn programs<F: Flash>(rt: &impl Abort, flash: &mut F, at: u32, bytes: &[u8]) -> bool {
    assert!(rt; u64::from(at) + bytes.len() as u64 <= flash.len());
    flash.program(at, bytes).is_ok()
}

fn erases<F: Flash>(rt: &impl Abort, flash: &mut F, block: u32) -> bool {
    assert!(rt; 4096 * u64::from(block) + 4096 <= flash.len());
    flash.erase(block).is_ok()
}

fn is_filled(bytes: &[u8], byte: u8) -> bool {
    bytes.iter().all(|b| *b == byte)
}

// Whether bytes are runs, each of so many times one byte.
fn are_runs(bytes: &[u8], runs: &[(usize, u8)]) -> bool {
    let mut left = bytes;
    for (count, byte) in runs {
        let Some((run, rest)) = left.split_at_checked(*count) else {
            return false;
        };
        if !is_filled(run, *byte) {
            return false;
        }
        left = rest;
    }
    left.is_empty()
}

fn is_blank(bytes: &[u8]) -> bool {
    match bytes.split_at_checked(HEADERS_BYTES) {
        Some((headers, rest)) => headers == HEADERS.as_slice() && are_runs(rest, &[(130972, 0xFF)]),
        None => false,
    }
}

fn filled(alloc: Global, size: usize, byte: u8) -> Result<Vec<u8>, AllocError> {
    vec![in alloc; byte; size]
}

// A flash whose calls all succeed but for those listed, which do nothing.
fn failing(alloc: Global, bytes: Vec<u8>, fails: &[u32]) -> Result<MemFlash, AllocError> {
    let plan = FaultPlan {
        fails: fails.to_vec(alloc)?,
        stop_at: None,
        torn: Torn::Before,
    };
    Ok(MemFlash::new(bytes, plan))
}

// A flash whose calls succeed up to one, which is torn.
fn stopping(alloc: Global, bytes: Vec<u8>, stop_at: u32, torn: Torn) -> MemFlash {
    let plan = FaultPlan {
        fails: Vec::new(alloc),
        stop_at: Some(stop_at),
        torn,
    };
    MemFlash::new(bytes, plan)
}

#[test]
fn listed_calls_fail_and_later_ones_succeed(rt: HostRuntime) -> Result<(), Fail> {
    let alloc = rt.alloc();
    let mut flash = failing(alloc, vec![in alloc; 0xFF, 0xFF]?, &[1, 3])?;
    let writes: [(u8, bool, u8, u64, u32); 5] = [
        (0xF0, true, 0xF0, 0, 1),
        (0x0F, false, 0xF0, 1, 2),
        (0x3F, true, 0x30, 1, 3),
        (0x00, false, 0x30, 2, 4),
        (0x1F, true, 0x10, 2, 5),
    ];
    for (byte, is_done, held, faults, calls) in writes {
        assert_eq!(rt; programs(&rt, &mut flash, 1, &[byte]), is_done, "{byte}");
        assert_eq!(rt; flash.bytes(), [0xFF, held].as_slice(), "{byte}");
        assert_eq!(rt; flash.faults(), faults, "{byte}");
        assert_eq!(rt; flash.calls(), calls, "{byte}");
    }
    Ok(())
}

#[test]
fn a_program_is_torn_where_the_flash_stops(rt: HostRuntime) -> Result<(), Fail> {
    let alloc = rt.alloc();
    let cases: [(Torn, [u8; 5]); 3] = [
        (Torn::Before, [0xFF, 0xFF, 0xFF, 0xFF, 0xFF]),
        (Torn::Half, [0xFF, 0x0F, 0xFF, 0x0F, 0xFF]),
        (Torn::After, [0xFF, 0x0F, 0x0F, 0x0F, 0xFF]),
    ];
    for (torn, held) in cases {
        let mut flash = stopping(alloc, filled(alloc, 5, 0xFF)?, 1, torn);
        let mut piece = [7];
        assert!(rt; reads(&rt, &mut flash, 0, &mut piece));
        assert!(rt; !programs(&rt, &mut flash, 1, &[0x0F, 0x0F, 0x0F]));
        assert_eq!(rt; flash.bytes(), held.as_slice(), "{torn:?}");
        piece = [7];
        assert!(rt; !programs(&rt, &mut flash, 0, &[0, 0, 0]));
        assert!(rt; !reads(&rt, &mut flash, 0, &mut piece));
        assert_eq!(rt; flash.bytes(), held.as_slice(), "{torn:?}");
        assert_eq!(rt; piece.as_slice(), [7].as_slice());
        assert_eq!(rt; flash.faults(), 3);
        assert_eq!(rt; flash.calls(), 4);
    }
    Ok(())
}

#[test]
fn an_erase_is_torn_where_the_flash_stops(rt: HostRuntime) -> Result<(), Fail> {
    let alloc = rt.alloc();
    let cases: [(u32, Torn, bool, u8, u64); 4] = [
        (0, Torn::Before, false, 0x3C, 2),
        (0, Torn::Half, false, 0xA5, 2),
        (0, Torn::After, false, 0xFF, 2),
        (1, Torn::Before, true, 0xFF, 1),
    ];
    for (stop_at, torn, is_done, held, faults) in cases {
        let mut flash = stopping(alloc, filled(alloc, 12288, 0x3C)?, stop_at, torn);
        assert_eq!(rt; erases(&rt, &mut flash, 1), is_done, "{torn:?}");
        assert!(rt;
            are_runs(flash.bytes(), &[(4096, 0x3C), (4096, held), (4096, 0x3C)]),
            "{torn:?}"
        );
        assert!(rt; !erases(&rt, &mut flash, 0), "{torn:?}");
        assert!(rt;
            are_runs(flash.bytes(), &[(4096, 0x3C), (4096, held), (4096, 0x3C)]),
            "{torn:?}"
        );
        assert_eq!(rt; flash.faults(), faults);
        assert_eq!(rt; flash.calls(), 2);
    }
    Ok(())
}

// The offset of one byte of the headers, another byte there, and what is then said of them.
const BROKEN: [(usize, u8, Result<Geometry, ImageFault>); 35] = [
    (0, 0x00, EMPTY),
    (0, 0x01, Err(ImageFault::BadSum { sum: 1 })),
    (15, 0x01, Err(ImageFault::BadSum { sum: 256 })),
    (16, 0x8c, Err(ImageFault::NotAVolume { at: 16 })),
    (31, 0x51, Err(ImageFault::NotAVolume { at: 16 })),
    (32, 0x01, Err(ImageFault::NotAVolume { at: 32 })),
    (33, 0x10, Err(ImageFault::NotAVolume { at: 32 })),
    (34, 0x00, Err(ImageFault::NotAVolume { at: 32 })),
    (39, 0x01, Err(ImageFault::NotAVolume { at: 32 })),
    (40, 0x5e, Err(ImageFault::NotAVolume { at: 40 })),
    (43, 0x68, Err(ImageFault::NotAVolume { at: 40 })),
    (44, 0xfe, Err(ImageFault::BadSum { sum: 65535 })),
    (47, 0x01, Err(ImageFault::BadSum { sum: 256 })),
    (48, 0x49, Err(ImageFault::NotAVolume { at: 48 })),
    (49, 0x01, Err(ImageFault::NotAVolume { at: 48 })),
    (50, 0x00, Err(ImageFault::BadSum { sum: 65511 })),
    (51, 0xfa, Err(ImageFault::BadSum { sum: 256 })),
    (52, 0x01, Err(ImageFault::BadSum { sum: 1 })),
    (55, 0x03, Err(ImageFault::BadSum { sum: 256 })),
    (56, 0x00, Err(ImageFault::NotAVolume { at: 56 })),
    (59, 0x01, Err(ImageFault::NotAVolume { at: 56 })),
    (60, 0x01, Err(ImageFault::BlockSize { value: 4097 })),
    (63, 0x01, Err(ImageFault::BlockSize { value: 16781312 })),
    (64, 0x01, Err(ImageFault::NotAVolume { at: 64 })),
    (71, 0x01, Err(ImageFault::NotAVolume { at: 64 })),
    (72, 0x79, Err(ImageFault::NotAStore { at: 72 })),
    (87, 0x93, Err(ImageFault::NotAStore { at: 72 })),
    (88, 0xb9, Err(ImageFault::NotAStore { at: 88 })),
    (91, 0x01, Err(ImageFault::NotAStore { at: 88 })),
    (92, 0x5b, Err(ImageFault::NotAStore { at: 92 })),
    (92, 0xff, Err(ImageFault::NotAStore { at: 92 })),
    (93, 0xff, Err(ImageFault::NotAStore { at: 93 })),
    (93, 0x00, Err(ImageFault::NotAStore { at: 93 })),
    (94, 0x01, EMPTY),
    (99, 0xff, EMPTY),
];

// The headers with other bytes at offsets.
fn headers_with(rt: &impl Abort, changes: &[(usize, u8)]) -> [u8; HEADERS_BYTES] {
    let mut first = HEADERS;
    for (offset, byte) in changes {
        assert!(rt; *offset < first.len());
        first[*offset] = *byte;
    }
    first
}

// Bytes of the headers at offsets, of which the first field in order decides, or which bring the sum to 0 for another length.
const CHANGED: [(&[(usize, u8)], Result<Geometry, ImageFault>); 8] = [
    (&[(32, 1), (16, 0)], Err(ImageFault::NotAVolume { at: 16 })),
    (&[(48, 0), (40, 0)], Err(ImageFault::NotAVolume { at: 40 })),
    (&[(60, 1), (48, 0)], Err(ImageFault::NotAVolume { at: 48 })),
    (
        &[(56, 0), (60, 1)],
        Err(ImageFault::BlockSize { value: 4097 }),
    ),
    (&[(50, 0), (64, 1)], Err(ImageFault::NotAVolume { at: 64 })),
    (&[(72, 0), (50, 0)], Err(ImageFault::BadSum { sum: 65511 })),
    // 57,344 bytes in 14 blocks
    (
        &[(33, 0xe0), (34, 0), (56, 14), (50, 0x2d), (51, 0x19)],
        EMPTY,
    ),
    // 53,248 bytes in 13 blocks
    (
        &[(33, 0xd0), (34, 0), (56, 13), (50, 0x2e), (51, 0x29)],
        Err(ImageFault::NotAVolume { at: 32 }),
    ),
];

#[test]
fn each_field_of_the_headers_is_tried_in_order(rt: HostRuntime) {
    for (offset, byte, answer) in BROKEN {
        let first = headers_with(&rt, &[(offset, byte)]);
        assert_eq!(rt; geometry_of(&first), answer, "{offset}");
    }
    for (changes, answer) in CHANGED {
        let first = headers_with(&rt, changes);
        assert_eq!(rt; geometry_of(&first), answer, "{changes:?}");
    }
}

#[test]
fn a_blank_image_is_written_and_read(rt: HostRuntime) -> Result<(), Fail> {
    let alloc = rt.alloc();
    let mut flash = failing(alloc, filled(alloc, 131072, 0x5A)?, &[33])?;
    let early = read_geometry(&mut failing(alloc, filled(alloc, 131072, 0x5A)?, &[])?);
    assert_eq!(rt; early, Err(ImageFault::NotAVolume { at: 16 }));
    assert_eq!(rt; format_image(&mut flash), Ok(()));
    assert!(rt; is_blank(flash.bytes()));
    assert_eq!(rt; flash.calls(), 33);
    assert_eq!(rt; read_geometry(&mut flash), Err(ImageFault::Device));
    assert_eq!(rt; flash.faults(), 1);
    assert_eq!(rt; read_geometry(&mut flash), EMPTY);
    assert!(rt; is_blank(flash.bytes()));
    assert_eq!(rt; flash.faults(), 1);
    assert_eq!(rt; flash.calls(), 35);
    Ok(())
}

// A formatting that stops at a call, and another of the bytes that it leaves.
fn formats_again(
    rt: &impl Abort,
    alloc: Global,
    stop_at: u32,
    torn: Torn,
) -> Result<(), AllocError> {
    let mut flash = stopping(alloc, filled(alloc, 131072, 0x5A)?, stop_at, torn);
    assert_eq!(rt;
        format_image(&mut flash),
        Err(ImageFault::Device),
        "{stop_at} {torn:?}"
    );
    assert_eq!(rt; u64::from(flash.calls()), u64::from(stop_at) + 1);
    assert_eq!(rt; flash.faults(), 1);
    let mut flash = failing(alloc, flash.release(), &[])?;
    assert_eq!(rt; format_image(&mut flash), Ok(()), "{stop_at} {torn:?}");
    assert!(rt; is_blank(flash.bytes()), "{stop_at} {torn:?}");
    Ok(())
}

#[test]
fn a_formatting_that_stops_can_be_made_again(rt: HostRuntime) -> Result<(), Fail> {
    for stop_at in 0..33 {
        formats_again(&rt, rt.alloc(), stop_at, Torn::Before)?;
        formats_again(&rt, rt.alloc(), stop_at, Torn::Half)?;
        formats_again(&rt, rt.alloc(), stop_at, Torn::After)?;
    }
    Ok(())
}

#[test]
fn a_formatting_erases_the_blocks_in_order_and_then_writes_the_headers(
    rt: HostRuntime,
) -> Result<(), Fail> {
    let alloc = rt.alloc();
    let mut flash = RecordingFlash::new(alloc, filled(alloc, 131072, 0x5A)?);
    assert_eq!(rt; format_image(&mut flash), Ok(()));
    assert!(rt; is_blank(flash.bytes()));
    assert_eq!(rt; flash.past().len(), 33);
    for block in 0..33 {
        let erased = 4096 * block;
        let runs = [(erased, 0xFF), (131072 - erased, 0x5A)];
        let image = flash.past().get(block);
        assert!(rt;
            image.is_some_and(|image| are_runs(image.as_slice(), &runs)),
            "{block}"
        );
    }
    Ok(())
}

#[test]
fn other_lengths_are_refused(rt: HostRuntime) -> Result<(), Fail> {
    let alloc = rt.alloc();
    for size in [0, 100, 131071, 131073] {
        let mut flash = failing(alloc, filled(alloc, size, 0x5A)?, &[])?;
        let have = size as u64;
        let want = 131072;
        assert_eq!(rt;
            read_geometry(&mut flash),
            Err(ImageFault::ImageSize { have, want })
        );
        assert_eq!(rt;
            format_image(&mut flash),
            Err(ImageFault::ImageSize { have, want })
        );
        assert!(rt; flash.bytes().len() == size && is_filled(flash.bytes(), 0x5A));
        assert_eq!(rt; flash.calls(), 0);
        assert_eq!(rt; flash.faults(), 0);
    }
    Ok(())
}

// A file of this process alone, in its folder, of bytes 0x3C.
fn scratch_file(rt: &HostRuntime, name: &str, size: usize) -> Result<String, Fail> {
    let id = process::id(rt.process());
    let path = format!(in rt.alloc(); "flash-{name}-{id}")?;
    let bytes = filled(rt.alloc(), size, 0x3C)?;
    fs::write(rt, path.as_str(), bytes.as_slice())?;
    Ok(path)
}

fn holds_runs(rt: &HostRuntime, path: &str, runs: &[(usize, u8)]) -> Result<bool, Fail> {
    let held = fs::read(rt, path)?;
    Ok(are_runs(held.as_slice(), runs))
}

#[test]
fn a_file_is_programmed_and_erased(rt: HostRuntime) -> Result<(), Fail> {
    let path = scratch_file(&rt, "file", 12288)?;
    let mut flash = FileFlash::on(&rt, path.as_str());
    assert_eq!(rt; flash.len(), 12288);
    assert!(rt; programs(&rt, &mut flash, 4095, &[0xF0, 0x0F, 0x00]));
    let mut piece = [7; 5];
    assert!(rt; reads(&rt, &mut flash, 4094, &mut piece));
    assert_eq!(rt; piece.as_slice(), [0x3C, 0x30, 0x0C, 0x00, 0x3C].as_slice());
    let programmed = [(4095, 0x3C), (1, 0x30), (1, 0x0C), (1, 0x00), (8190, 0x3C)];
    assert!(rt; holds_runs(&rt, path.as_str(), &programmed)?);
    assert!(rt; erases(&rt, &mut flash, 1));
    let erased = [(4095, 0x3C), (1, 0x30), (4096, 0xFF), (4096, 0x3C)];
    assert!(rt; holds_runs(&rt, path.as_str(), &erased)?);
    assert_eq!(rt; flash.faults(), 0);
    fs::remove_file(&rt, path.as_str())?;
    Ok(())
}

#[test]
fn a_long_range_of_a_file_is_programmed_piece_by_piece(rt: HostRuntime) -> Result<(), Fail> {
    let path = scratch_file(&rt, "long", 12288)?;
    let mut flash = FileFlash::on(&rt, path.as_str());
    let mut bytes = filled(rt.alloc(), 4095, 0x0F)?;
    bytes.extend_from_slice(&[0xF0, 0x00])?;
    bytes.extend_from_slice(filled(rt.alloc(), 4096, 0x0F)?.as_slice())?;
    bytes.push(0xF3)?;
    assert!(rt; programs(&rt, &mut flash, 100, &bytes));
    let runs = [
        (100, 0x3C),
        (4095, 0x0C),
        (1, 0x30),
        (1, 0x00),
        (4096, 0x0C),
        (1, 0x30),
        (3994, 0x3C),
    ];
    assert!(rt; holds_runs(&rt, path.as_str(), &runs)?);
    fs::remove_file(&rt, path.as_str())?;
    Ok(())
}

// A file of the system, of which a call writes at most so many bytes.
#[derive(Drop)]
struct SlowFile {
    file: File,
    most: usize,
}

impl Read for SlowFile {
    fn read(&mut self, into: &mut [u8]) -> io::Result<usize> {
        self.file.read(into)
    }
}

impl Write for SlowFile {
    fn write(&mut self, bytes: &[u8]) -> io::Result<usize> {
        let count = bytes.len().min(self.most);
        self.file.write(&bytes[..count])
    }

    fn flush(&mut self) -> io::Result<()> {
        self.file.flush()
    }
}

impl Seek for SlowFile {
    fn seek(&mut self, to: SeekFrom) -> io::Result<u64> {
        self.file.seek(to)
    }
}

impl OpenFile for SlowFile {
    fn metadata(&self) -> io::Result<Metadata> {
        self.file.metadata()
    }

    fn set_len(&self, size: u64) -> io::Result<()> {
        self.file.set_len(size)
    }

    fn sync_all(&self) -> io::Result<()> {
        self.file.sync_all()
    }

    fn sync_data(&self) -> io::Result<()> {
        self.file.sync_data()
    }
}

#[test]
fn a_short_write_is_not_taken_for_done(rt: HostRuntime) -> Result<(), Fail> {
    let path = scratch_file(&rt, "slow", 8192)?;
    // A file that takes nothing comes first, and keeps its bytes.
    for (most, is_done, faults, held, erased) in [
        (0, false, 2, 0x3C, 0x3C),
        (1000, true, 0, 0x0C, 0xFF),
    ] {
        let file = OpenOptions::new()
            .read(true)
            .write(true)
            .open(&rt, path.as_str())?;
        let mut flash = FileFlash::over(SlowFile { file, most });
        assert_eq!(rt; programs(&rt, &mut flash, 0, &[0x0F; 4096]), is_done);
        assert_eq!(rt; erases(&rt, &mut flash, 1), is_done);
        assert_eq!(rt; flash.faults(), faults);
        assert!(rt; holds_runs(&rt, path.as_str(), &[(4096, held), (4096, erased)])?);
    }
    fs::remove_file(&rt, path.as_str())?;
    Ok(())
}

#[test]
fn a_file_that_may_only_be_read_is_read(rt: HostRuntime) -> Result<(), Fail> {
    let path = scratch_file(&rt, "kept", 4096)?;
    fs::set_permissions(&rt, path.as_str(), Permissions::from_mode(0o444))?;
    // Root may write any file: for that user it is opened for reading alone.
    let writable = OpenOptions::new().write(true).open(&rt, path.as_str());
    let mut flash = match writable {
        Ok(_) => FileFlash::over(fs::open(&rt, path.as_str())?),
        Err(_) => FileFlash::on(&rt, path.as_str()),
    };
    let mut piece = [7; 4];
    assert_eq!(rt; flash.len(), 4096);
    assert!(rt; !programs(&rt, &mut flash, 0, &[0]));
    assert!(rt; !erases(&rt, &mut flash, 0));
    assert_eq!(rt; flash.faults(), 2);
    assert!(rt; reads(&rt, &mut flash, 4092, &mut piece));
    assert_eq!(rt; piece.as_slice(), [0x3C; 4].as_slice());
    assert_eq!(rt; flash.faults(), 2);
    assert!(rt; holds_runs(&rt, path.as_str(), &[(4096, 0x3C)])?);
    fs::remove_file(&rt, path.as_str())?;
    Ok(())
}

#[test]
fn a_path_without_an_image_fails_each_call(rt: HostRuntime) {
    for path in ["no-such-file", "."] {
        let mut flash = FileFlash::on(&rt, path);
        let mut piece = [7];
        assert_eq!(rt; flash.len(), 131072);
        assert_eq!(rt; flash.faults(), 0);
        assert!(rt; !reads(&rt, &mut flash, 0, &mut piece));
        assert_eq!(rt; flash.faults(), 1);
        assert!(rt; !programs(&rt, &mut flash, 0, &[0]));
        assert_eq!(rt; flash.faults(), 2);
        assert!(rt; !erases(&rt, &mut flash, 31));
        assert_eq!(rt; flash.faults(), 3);
        assert_eq!(rt; flash.len(), 131072);
    }
}

#[test]
fn a_file_that_was_shortened_fails_past_its_end(rt: HostRuntime) -> Result<(), Fail> {
    let path = scratch_file(&rt, "short", 8192)?;
    let mut flash = FileFlash::on(&rt, path.as_str());
    scratch_file(&rt, "short", 100)?;
    let mut piece = [7; 4];
    assert!(rt; reads(&rt, &mut flash, 96, &mut piece));
    assert_eq!(rt; piece.as_slice(), [0x3C; 4].as_slice());
    assert_eq!(rt; flash.faults(), 0);
    assert!(rt; !reads(&rt, &mut flash, 97, &mut piece));
    assert_eq!(rt; flash.faults(), 1);
    assert_eq!(rt; flash.len(), 8192);
    fs::remove_file(&rt, path.as_str())?;
    Ok(())
}

#[test]
fn a_refusal_is_said_in_words(rt: HostRuntime) -> Result<(), Fail> {
    let size = ImageFault::ImageSize {
        have: 100,
        want: 131072,
    };
    let refusals = [
        (size, "100 bytes, where an image has 131072"),
        (
            ImageFault::NotAVolume { at: 16 },
            "the field at 16 is none of a variable volume",
        ),
        (ImageFault::BlockSize { value: 512 }, "blocks of 512 bytes"),
        (
            ImageFault::BadSum { sum: 65511 },
            "the volume header's sum is 65511",
        ),
        (
            ImageFault::NotAStore { at: 92 },
            "the field at 92 is none of a variable store",
        ),
        (ImageFault::Device, "a call of the flash failed"),
    ];
    for (refusal, words) in refusals {
        let text = format!(in rt.alloc(); "{refusal}")?;
        assert_eq!(rt; text.as_str(), words);
    }
    Ok(())
}
