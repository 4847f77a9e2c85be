use crate::{blank, copy_to_dest, erase_spare, fill_spare};
use flash_dev::{Device, FileFlash, Flash};
use std::process::Abort;
use std::test::Fail;
use std::{fs, process};

const VOLUME: usize = 57_344;

// Whether bytes are runs, each of so many times one byte.
fn are_runs(bytes: &[u8], runs: &[(usize, u8)]) -> bool {
    let mut left = bytes;
    for (count, byte) in runs {
        let Some((run, rest)) = left.split_at_checked(*count) else {
            return false;
        };
        if !run.iter().all(|b| b == byte) {
            return false;
        }
        left = rest;
    }
    left.is_empty()
}

// A file of this process alone, in its folder, of an image's length and bytes 0x3C.
fn scratch_image(rt: &HostRuntime, name: &str) -> Result<String, Fail> {
    let id = process::id(rt.process());
    let path = format!(in rt.alloc(); "spare-{name}-{id}")?;
    let bytes = vec![in rt.alloc(); 0x3Cu8; 131_072]?;
    fs::write(rt, path.as_str(), bytes.as_slice())?;
    Ok(path)
}

fn holds_runs(rt: &HostRuntime, path: &str, runs: &[(usize, u8)]) -> Result<bool, Fail> {
    let held = fs::read(rt, path)?;
    Ok(are_runs(held.as_slice(), runs))
}

fn is_blank<F: Flash>(rt: &impl Abort, flash: &mut F) -> Result<bool, Device> {
    assert!(rt; flash.len() == 131_072);
    let mut buffer = [0; 4096];
    blank(flash, &mut buffer)
}

#[test]
fn a_spare_is_written_and_copied(rt: HostRuntime) -> Result<(), Fail> {
    let path = scratch_image(&rt, "copied")?;
    let mut flash = FileFlash::on(&rt, path.as_str());
    let content = vec![in rt.alloc(); 0x2Du8; VOLUME]?;
    assert!(rt; content.len() == VOLUME);
    assert_eq!(rt; is_blank(&rt, &mut flash), Ok(false));
    assert!(rt; flash.len() == 131_072);
    assert!(rt; erase_spare(&mut flash).is_ok());
    assert!(rt; holds_runs(&rt, path.as_str(), &[(65_536, 0x3C), (65_536, 0xFF)])?);
    assert_eq!(rt; is_blank(&rt, &mut flash), Ok(true));
    assert!(rt; flash.len() == 131_072);
    assert!(rt; fill_spare(&mut flash, &content).is_ok());
    let filled = [(65_536, 0x3C), (VOLUME, 0x2D), (8192, 0xFF)];
    assert!(rt; holds_runs(&rt, path.as_str(), &filled)?);
    assert_eq!(rt; is_blank(&rt, &mut flash), Ok(false));
    assert!(rt; flash.len() == 131_072);
    assert!(rt; copy_to_dest(&mut flash, &content).is_ok());
    let copied = [(VOLUME, 0x2D), (8192, 0x3C), (VOLUME, 0x2D), (8192, 0xFF)];
    assert!(rt; holds_runs(&rt, path.as_str(), &copied)?);
    assert_eq!(rt; flash.faults(), 0);
    fs::remove_file(&rt, path.as_str())?;
    Ok(())
}

// One byte that isn't 0xFF makes a spare used, the first as the last.
#[test]
fn a_spare_is_blank_where_all_its_bytes_are(rt: HostRuntime) -> Result<(), Fail> {
    let path = scratch_image(&rt, "blank")?;
    for (at, is_spare_blank) in [
        (65_535, true),
        (65_536, false),
        (69_631, false),
        (69_632, false),
        (131_071, false),
    ] {
        let mut bytes = vec![in rt.alloc(); 0xFFu8; 131_072]?;
        for byte in bytes.iter_mut().skip(at).take(1) {
            *byte = 0xFE;
        }
        fs::write(&rt, path.as_str(), bytes.as_slice())?;
        let mut flash = FileFlash::on(&rt, path.as_str());
        assert_eq!(rt; is_blank(&rt, &mut flash), Ok(is_spare_blank), "{at}");
    }
    fs::remove_file(&rt, path.as_str())?;
    Ok(())
}
