//! The file that `format` makes.
use flash_dev::{BLOCK_BYTES, BLOCKS};
use std::fs::OpenOptions;
use std::io::Write;
use std::rt::Files;
use std::{fs, io};

fn write_erased(file: &mut impl Write) -> io::Result<()> {
    for _ in 0..BLOCKS {
        file.write_all(&[0xFF; BLOCK_BYTES])?;
    }
    Ok(())
}

/// Makes a file of an image's length, all 0xFF, where the path names none. One that is there is left as it is, and one that can't be written
/// whole is taken away again.
pub fn make_image_file(rt: &impl Files, path: &str) -> io::Result<()> {
    let mut file = OpenOptions::new()
        .write(true)
        .create_new(true)
        .open(rt, path)?;
    if let Err(error) = write_erased(&mut file) {
        fs::remove_file(rt, path)?;
        return Err(error);
    }
    Ok(())
}
