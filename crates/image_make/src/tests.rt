//! Scripts by their first lines and their sums, which `bench/make_script.sh` prints, and the bytes of the blank image.

use super::*;
use flash_dev::Flash;
use script_text::{read_script, write_call};
use std::alloc::Global;
use std::test::Fail;
use var_types::{Bytes, Put, TextBuffer};

/// How many bytes a script has.
const SCRIPT_BYTES: usize = 616_000;

// The script of a number.
fn script_of(alloc: Global, number: u32) -> Result<Vec<u8>, Fail> {
    let mut out = TextBuffer::new(alloc);
    make_script(number, &mut out);
    Ok(out.finish()?.into_vec())
}

// The CRC-32 of bytes with one more.
fn with_byte(sum: u32, byte: u8) -> u32 {
    let mut sum = sum ^ u32::from(byte);
    for _ in 0..8 {
        let odd = sum & 1 == 1;
        sum >>= 1;
        if odd {
            sum ^= 0xedb8_8320;
        }
    }
    sum
}

fn crc_32(bytes: &[u8]) -> u32 {
    let mut sum = u32::MAX;
    for byte in bytes {
        sum = with_byte(sum, *byte);
    }
    !sum
}

#[test]
fn scripts_have_their_sums(rt: HostRuntime) -> Result<(), Fail> {
    let sums = [
        (0, 0x81d6_3ea4),
        (63, 0x413a_3188),
        (64, 0x4f2a_9388),
        (199, 0x7225_2788),
        (255, 0x9481_1caf),
        (256, 0x81d6_3ea4),
        (999_999, 0x413a_3188),
    ];
    for (number, sum) in sums {
        let script = script_of(rt.alloc(), number)?;
        assert_eq!(rt; script.len(), SCRIPT_BYTES, "{number}");
        assert_eq!(rt; crc_32(&script), sum, "{number}");
    }
    Ok(())
}

#[test]
fn scripts_begin_with_two_sets_a_get_and_a_next(rt: HostRuntime) -> Result<(), Fail> {
    let script = script_of(rt.alloc(), 0)?;
    let front = b"0 set 8be4df61-93ca-11d2-aa0d-00e098032b8c V00 0x00000007 00\n\
        0 set 8be4df61-93ca-11d2-aa0d-00e098032b8c V01 0x00000007 0101\n\
        0 get 8be4df61-93ca-11d2-aa0d-00e098032b8c V01 256\n\
        0 next 8be4df61-93ca-11d2-aa0d-00e098032b8c - 64\n\
        0 set 8be4df61-93ca-11d2-aa0d-00e098032b8c V04 0x00000007 0404040404\n";
    assert!(rt; script.starts_with(front));
    Ok(())
}

// The texts of the calls of a script, each with a line feed behind it.
fn made_texts(alloc: Global, number: u32) -> Result<Vec<u8>, Fail> {
    let mut out = TextBuffer::new(alloc);
    for index in 0..SCRIPT_CALLS {
        out.put(b"0 ");
        write_call(&generated_call(alloc, number, index)?, &mut out);
        out.put(b"\n");
    }
    Ok(out.finish()?.into_vec())
}

#[test]
fn calls_have_the_texts_of_their_lines(rt: HostRuntime) -> Result<(), Fail> {
    let texts = made_texts(rt.alloc(), 77)?;
    assert!(rt; texts == script_of(rt.alloc(), 77)?);
    Ok(())
}

#[test]
fn scripts_are_read(rt: HostRuntime) -> Result<(), Fail> {
    let text = script_of(rt.alloc(), 999_999)?;
    let script = read_script(rt.alloc(), &text)?;
    let counts: Vec<usize> = script
        .into_processors()
        .iter()
        .map(|calls| calls.len())
        .collect(rt.alloc())?;
    assert_eq!(rt; counts.as_slice(), [4000].as_slice());
    Ok(())
}

// The blank image behind a byte.
fn image_behind(alloc: Global, byte: u8) -> Result<Vec<u8>, Fail> {
    let mut out = Bytes::copy(alloc, &[byte])?;
    blank_image(alloc, &mut out)?;
    Ok(out.into_vec())
}

#[test]
fn the_blank_image_has_its_headers(rt: HostRuntime) -> Result<(), Fail> {
    let image = image_behind(rt.alloc(), 0x77)?;
    let headers = hex::encode(rt.alloc(), image.get(..101).unwrap_or(&[]))?;
    let want = "77\
        000000000000000000000000000000008d2bf1ff96768b4ca9852747075b4f50\
        00000200000000005f465648fffe0400480019f9000000022000000000100000\
        0000000000000000782cf3aa7b949a43a1802e144ec37792b8df00005afe0000\
        00000000";
    assert_eq!(rt; headers.as_str(), want);
    assert_eq!(rt; image.len(), 131_073);
    assert!(rt; image.iter().skip(101).all(|byte| *byte == 0xFF));
    Ok(())
}

#[test]
fn a_sure_flash_keeps_what_is_done(rt: HostRuntime) -> Result<(), Fail> {
    let mut flash = blank_flash(rt.alloc())?;
    assert_eq!(rt; flash.len(), 131_072);
    flash.program(8_190, &[0x5a, 0xa5, 0x00])?;
    flash.program(8_190, &[0xf0, 0xff, 0xff])?;
    let mut piece = [0; 4];
    flash.read(8_189, &mut piece)?;
    assert_eq!(rt; piece, [0xff, 0x50, 0xa5, 0x00]);
    flash.erase(1)?;
    flash.read(8_189, &mut piece)?;
    assert_eq!(rt; piece, [0xff, 0xff, 0xff, 0x00]);
    assert_eq!(rt; flash.faults(), 0);
    Ok(())
}
