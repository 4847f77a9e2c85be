//! Images of random bytes, of random records, and with bits turned: each ends with its report or a named line, and check, list and the census
//! count in it what another program does.
ghost use Rattle.std.specs.Prelude.{◌<◌};

use crate::input::zeros;
use crate::tests::images::{HEADERS, MARK, PENDING, RECORD, image_of, put};
use crate::tests::random::Random;
use crate::varsvc;
use flash_dev::{FaultPlan, Flash, MemFlash, Torn};
use ftw_mount::read_kept;
use outside::{MemSink, MemSource};
use std::alloc::{AllocError, Global};
use std::process::Abort;
use std::test::Fail;
use var_region::{Region, Tally};

const VOLUME: usize = 57_344;

/// Room for a listing of the most bytes that an image may hold, as hexadecimal digits, with the words around them.
const ROOM: usize = 262_144;

// States of records: most ADDED, the others in transition, deleted, not finished, erased, and none of these.
const STATES: [u8; 8] = [0x3f, 0x3f, 0x3f, 0x3e, 0x3d, 0x7f, 0xff, 0x15];

// Attributes: most of a non-volatile variable, the others of a volatile one, of none, and unknown ones.
const ATTRIBUTES: [u8; 8] = [7, 7, 7, 3, 0x27, 6, 0, 0xff];

// Name and data of a record, each unit A or B.
fn push_body(
    bytes: &mut Vec<u8>,
    random: &mut Random,
    units: u32,
    data: u32,
) -> Result<(), AllocError> {
    for _ in 0..units {
        bytes.extend_from_slice(&[
            random.one_of([0x41, 0x42, 0x41, 0x42, 0x41, 0x42, 0x41, 0x42]),
            0,
        ])?;
    }
    bytes.extend_from_slice(&[0, 0])?;
    push_random(bytes, random, data)
}

fn push_random(bytes: &mut Vec<u8>, random: &mut Random, count: u32) -> Result<(), AllocError> {
    for _ in 0..count {
        bytes.push(random.byte())?;
    }
    Ok(())
}

// The header of a record as firmware has it but for its state, attributes and sizes, and the first byte of its GUID.
fn push_header(
    bytes: &mut Vec<u8>,
    random: &mut Random,
    state: u8,
    units: u32,
    data: u32,
) -> Result<(), AllocError>
    requires { units < 8 }
{
    let mut header = RECORD;
    put(&mut header, 2, &[state]);
    put(&mut header, 4, &[random.one_of(ATTRIBUTES)]);
    put(&mut header, 36, &random.size(2 * units + 2).to_le_bytes());
    put(&mut header, 40, &random.size(data).to_le_bytes());
    put(&mut header, 44, &[random.byte() % 3]);
    match header.get(..60) {
        Some(front) => bytes.extend_from_slice(front),
        None => Ok(()),
    }
}

// A record up to the next multiple of 4, one in the erased state its header only. Names are few, so that keys come again.
fn push_record(bytes: &mut Vec<u8>, random: &mut Random) -> Result<(), AllocError> {
    let state = random.one_of(STATES);
    let units = 1 + random.below(2);
    let data = random.below(200);
    push_header(bytes, random, state, units, data)?;
    if state != 0xff {
        push_body(bytes, random, units, data)?;
    }
    let filled = bytes.len() % 4;
    if filled != 0 {
        bytes.extend_from_slice(&[0xff; 4][filled..])?;
    }
    Ok(())
}

// The bytes of a volume with so many random records, of which those past its end are cut off.
fn random_volume(alloc: Global, random: &mut Random, count: u32) -> Result<Vec<u8>, AllocError> {
    let mut volume = HEADERS.to_vec(alloc)?;
    for _ in 0..count {
        push_record(&mut volume, random)?;
    }
    volume.truncate(VOLUME);
    Ok(volume)
}

// An image of random records, where a mount has to make the work area, has nothing to do, or has to finish a write, by the seed.
fn image_of_records(alloc: Global, random: &mut Random, seed: u64) -> Result<Vec<u8>, AllocError> {
    let count = random.below(500);
    let volume = random_volume(alloc, random, count)?;
    match seed % 3 {
        0 => image_of(alloc, &[(0, &volume)]),
        1 => image_of(alloc, &[(0, &volume), (61_440, &MARK)]),
        _ => image_of(alloc, &[(61_440, &PENDING), (65_536, &volume)]),
    }
}

// An image of random bytes behind the headers: all of it, or the volume alone, so that it is no foreign work; with a record's first bytes, its data
// at most 65,535, or without them.
fn image_of_bytes(alloc: Global, random: &mut Random, seed: u64) -> Result<Vec<u8>, AllocError> {
    let mut bytes = HEADERS.to_vec(alloc)?;
    let length = if seed % 4 == 0 { 131_072 } else { 57_344 };
    push_random(&mut bytes, random, length)?;
    bytes.truncate(length as usize);
    if seed % 2 == 1 {
        put(&mut bytes, 100, &RECORD[..40]);
        put(&mut bytes, 142, &[0, 0]);
    }
    image_of(alloc, &[(0, &bytes)])
}

// Turns 1 to 64 bits, each in one of so many bytes from an offset on.
fn turn_bits(bytes: &mut [u8], random: &mut Random, from: u32, many: u32)
    requires { 0 < many }
{
    for _ in 0..=random.below(64) {
        let at = from as usize + random.below(many) as usize;
        let bit = 1u8 << random.below(8);
        if let Some(byte) = bytes.get_mut(at) {
            *byte ^= bit;
        }
    }
}

// An image of four records, of which 1 to 64 bits are turned: anywhere, in the headers and records, or in the records alone.
fn image_of_turned_bits(
    alloc: Global,
    random: &mut Random,
    seed: u64,
) -> Result<Vec<u8>, AllocError> {
    let parts: [(usize, &[u8]); 8] = [
        (61_440, &MARK),
        (100, &RECORD),
        (184, &RECORD),
        (186, &[0x3e]),
        (268, &RECORD),
        (312, &[1]),
        (352, &RECORD),
        (396, &[2]),
    ];
    let mut bytes = image_of(alloc, &parts)?;
    let (from, many) = match seed % 4 {
        0 => (0, 131_072),
        1 => (0, 436),
        _ => (100, 336),
    };
    turn_bits(&mut bytes, random, from, many);
    Ok(bytes)
}

fn flash_of(alloc: Global, bytes: &[u8]) -> Result<MemFlash, AllocError> {
    let plan = FaultPlan {
        fails: Vec::new(alloc),
        stop_at: None,
        torn: Torn::Half,
    };
    Ok(MemFlash::new(bytes.to_vec(alloc)?, plan))
}

// What a verb prints of an image, and its status.
fn said(alloc: Global, verb: &str, bytes: &[u8]) -> Result<(u8, Vec<u8>), AllocError> {
    let mut words = Vec::new(alloc);
    words.push(String::from_str(alloc, verb)?)?;
    words.push(String::from_str(alloc, "vars.fd")?)?;
    let mut source = MemSource::new(Vec::new(alloc), Vec::new(alloc));
    let mut sink = MemSink::new(zeros(alloc, ROOM)?, Vec::new(alloc));
    let image = flash_of(alloc, bytes)?;
    let done = varsvc(alloc, &words, &mut source, image, &mut sink);
    Ok((done.status, sink.bytes().to_vec(alloc)?))
}

// The tally of what an image keeps.
fn tally_of(rt: &impl Abort, alloc: Global, bytes: &[u8]) -> Result<Tally, Fail> {
    let mut flash = flash_of(alloc, bytes)?;
    let mut content = zeros(alloc, VOLUME)?;
    assert!(rt; flash.len() == 131_072);
    assert!(rt; read_kept(&mut flash, &mut content).is_ok());
    Ok(Region::over(&content, 100, true).tally())
}

// What another program, written apart in Python, makes of an image: how many records it has, ADDED, in transition, deleted and others, how many
// variables, and the room that they use; or the line by which it refuses the image.
type Counted = Result<[u32; 7], &'static str>;

const BYTES: [Counted; 24] = [
    Err("image foreign-work\n"),
    Ok([0, 0, 0, 0, 0, 0, 0]),
    Ok([0, 0, 0, 0, 0, 0, 0]),
    Ok([1, 0, 0, 0, 1, 0, 0]),
    Err("image foreign-work\n"),
    Ok([1, 0, 0, 0, 1, 0, 0]),
    Ok([0, 0, 0, 0, 0, 0, 0]),
    Ok([1, 0, 0, 0, 1, 0, 0]),
    Err("image foreign-work\n"),
    Ok([1, 0, 0, 0, 1, 0, 0]),
    Ok([0, 0, 0, 0, 0, 0, 0]),
    Ok([1, 0, 0, 0, 1, 0, 0]),
    Err("image foreign-work\n"),
    Ok([1, 0, 0, 0, 1, 0, 0]),
    Ok([0, 0, 0, 0, 0, 0, 0]),
    Ok([1, 0, 0, 0, 1, 0, 0]),
    Err("image foreign-work\n"),
    Ok([1, 0, 0, 0, 1, 0, 0]),
    Ok([0, 0, 0, 0, 0, 0, 0]),
    Ok([0, 0, 0, 0, 0, 0, 0]),
    Err("image foreign-work\n"),
    Ok([1, 0, 0, 0, 1, 0, 0]),
    Ok([0, 0, 0, 0, 0, 0, 0]),
    Ok([1, 0, 0, 0, 1, 0, 0]),
];

const RECORDS: [Counted; 24] = [
    Ok([3, 0, 0, 2, 1, 0, 0]),
    Ok([274, 73, 26, 63, 112, 18, 2656]),
    Ok([222, 62, 23, 55, 82, 18, 2772]),
    Ok([59, 16, 4, 14, 25, 12, 2272]),
    Ok([9, 3, 0, 3, 3, 3, 372]),
    Ok([36, 9, 2, 10, 15, 8, 1120]),
    Ok([311, 93, 29, 60, 129, 18, 3228]),
    Ok([64, 21, 5, 13, 25, 13, 2484]),
    Ok([244, 73, 16, 63, 92, 17, 2688]),
    Ok([63, 12, 7, 20, 24, 11, 1764]),
    Ok([2, 1, 0, 0, 1, 1, 240]),
    Ok([182, 51, 16, 50, 65, 17, 2724]),
    Ok([169, 50, 20, 37, 62, 18, 3060]),
    Ok([192, 54, 8, 46, 84, 18, 3048]),
    Ok([157, 53, 8, 33, 63, 17, 2880]),
    Ok([67, 28, 7, 14, 18, 15, 2584]),
    Ok([3, 2, 0, 1, 0, 2, 508]),
    Ok([0, 0, 0, 0, 0, 0, 0]),
    Ok([27, 11, 1, 6, 9, 10, 1580]),
    Ok([164, 41, 18, 36, 69, 18, 2680]),
    Ok([28, 7, 4, 9, 8, 10, 1616]),
    Ok([38, 13, 2, 4, 19, 12, 2096]),
    Ok([17, 5, 0, 5, 7, 4, 708]),
    Ok([38, 13, 2, 8, 15, 9, 1444]),
];

const TURNED: [Counted; 24] = [
    Ok([4, 3, 1, 0, 0, 3, 252]),
    Err("image block 1052672\n"),
    Ok([0, 0, 0, 0, 0, 0, 0]),
    Ok([4, 3, 1, 0, 0, 4, 336]),
    Ok([4, 3, 1, 0, 0, 3, 252]),
    Err("image volume 16\n"),
    Ok([4, 3, 1, 0, 0, 4, 336]),
    Ok([0, 0, 0, 0, 0, 0, 0]),
    Err("image foreign-work\n"),
    Err("image volume 40\n"),
    Ok([4, 2, 0, 0, 2, 2, 296]),
    Ok([0, 0, 0, 0, 0, 0, 0]),
    Ok([4, 3, 1, 0, 0, 3, 252]),
    Err("image volume 32\n"),
    Ok([0, 0, 0, 0, 0, 0, 0]),
    Ok([0, 0, 0, 0, 0, 0, 0]),
    Err("image foreign-work\n"),
    Ok([4, 3, 1, 0, 0, 3, 252]),
    Ok([1, 0, 0, 0, 1, 0, 0]),
    Ok([0, 0, 0, 0, 0, 0, 0]),
    Ok([4, 3, 1, 0, 0, 3, 252]),
    Err("image sum 2048\n"),
    Ok([0, 0, 0, 0, 0, 0, 0]),
    Ok([1, 1, 0, 0, 0, 1, 84]),
];

fn lines_of(alloc: Global, text: &[u8]) -> Result<Vec<&[u8]>, AllocError> {
    text.split(|byte| *byte == b'\n').collect(alloc)
}

// The report has its eight lines, with these counts.
fn check_report(
    rt: &impl Abort,
    alloc: Global,
    report: &[u8],
    counts: [u32; 7],
) -> Result<(), Fail> {
    let [records, added, transition, deleted, other, variables, used] = counts;
    let lines = lines_of(alloc, report)?;
    assert!(rt; lines.len() == 9);
    assert!(rt; lines[0] == b"image ok".as_slice());
    assert!(rt; lines[7] == b"end".as_slice());
    let line = format!(in alloc;
        "records {records} added {added} transition {transition} deleted {deleted} other {other}"
    )?;
    assert!(rt; lines[4] == line.as_bytes());
    let line = format!(in alloc; "variables {variables} used {used} room 57244")?;
    assert!(rt; lines[5] == line.as_bytes());
    Ok(())
}

// The listing has as many lines of variables as it should, and says so first.
fn check_listing(
    rt: &impl Abort,
    alloc: Global,
    listing: &[u8],
    variables: u32,
) -> Result<(), Fail> {
    let lines = lines_of(alloc, listing)?;
    assert!(rt; lines.len() == variables as usize + 3);
    let line = format!(in alloc; "variables {variables}")?;
    assert!(rt; lines[0] == line.as_bytes());
    Ok(())
}

// An image that is read is checked, listed and tallied with these counts.
fn check_counts(
    rt: &impl Abort,
    alloc: Global,
    bytes: &[u8],
    counts: [u32; 7],
) -> Result<(), Fail> {
    let (status, report) = said(alloc, "check", bytes)?;
    assert!(rt; status == 0);
    check_report(rt, alloc, &report, counts)?;
    let (status, listing) = said(alloc, "list", bytes)?;
    assert!(rt; status == 0);
    let [records, added, transition, deleted, other, variables, _] = counts;
    check_listing(rt, alloc, &listing, variables)?;
    let tally = Tally {
        records,
        added,
        transition,
        deleted,
        other,
    };
    assert!(rt; tally_of(rt, alloc, bytes)? == tally);
    Ok(())
}

// An image that is refused is so by this line, whether it is checked or listed.
fn check_refusal(rt: &impl Abort, alloc: Global, bytes: &[u8], line: &str) -> Result<(), Fail> {
    for verb in ["check", "list"] {
        let (status, text) = said(alloc, verb, bytes)?;
        assert!(rt; status == 4);
        assert!(rt; text.as_slice() == line.as_bytes());
    }
    Ok(())
}

fn check_image(rt: &impl Abort, alloc: Global, bytes: &[u8], counted: Counted) -> Result<(), Fail> {
    match counted {
        Ok(counts) => check_counts(rt, alloc, bytes, counts),
        Err(line) => check_refusal(rt, alloc, bytes, line),
    }
}

#[test]
fn random_bytes_are_read_or_refused(rt: HostRuntime) -> Result<(), Fail> {
    let alloc = rt.alloc();
    for (seed, counted) in (0u64..).zip(BYTES) {
        let image = image_of_bytes(alloc, &mut Random::new(seed), seed)?;
        check_image(&rt, alloc, &image, counted)?;
    }
    Ok(())
}

#[test]
fn random_records_are_read(rt: HostRuntime) -> Result<(), Fail> {
    let alloc = rt.alloc();
    for (seed, counted) in (0u64..).zip(RECORDS) {
        let image = image_of_records(alloc, &mut Random::new(seed), seed)?;
        check_image(&rt, alloc, &image, counted)?;
    }
    Ok(())
}

#[test]
fn turned_bits_are_read_or_refused(rt: HostRuntime) -> Result<(), Fail> {
    let alloc = rt.alloc();
    for (seed, counted) in (0u64..).zip(TURNED) {
        let image = image_of_turned_bits(alloc, &mut Random::new(seed), seed)?;
        check_image(&rt, alloc, &image, counted)?;
    }
    Ok(())
}
