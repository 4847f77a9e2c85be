ghost use Rattle.std.specs.Prelude.{◌≡◌, ◌↔◌, ◌+◌, ◌*◌, ◌≤◌, None, false, true, length, IsErr, IsOk, OnOk, OnErr};
ghost use Rattle.std.specs.Fs.{IsDir, file_type, metadata_len};
ghost use Rattle.outside.specs.Faults.{HasCause, one_more};
ghost use Rattle.var_types.specs.Layout.{block_size, image_size};

use crate::held_bytes::clear_bits;
use crate::layout::{BLOCK_BYTES, IMAGE_BYTES};
use crate::{Device, Flash};
use std::fs::{Metadata, OpenFile, OpenOptions};
use std::io;
use std::io::{Read, Seek, SeekFrom, Write};
use std::marker::Model;
use std::rt::Files;

/// A flash over a file, which tells none of its bytes. Each step is handed to the operating system before it answers `Ok`.
#[derive(Drop)]
pub struct FileFlash<T: Read + Write + Seek + OpenFile + Drop> {
    file: Option<T>,
    size: u64,
    faults: u64,
}

impl<T: Read + Write + Seek + OpenFile + Drop> Model for FileFlash<T> {
    ghost use Rattle.std.specs.Prelude.{◌≡◌, false, is_some};
    ghost use Rattle.flash_dev.specs.FileFlash.{FileState};
    ghost use Rattle.var_types.specs.Layout.{image_size};

    ghost Value = { FileState };

    ghost view = { λ f. record { opened = is_some f.file; size = f.size; faults = f.faults } };

    ghost invariant = { λ f. is_some f.file ≡ false → f.size ≡ image_size };
}

impl<T: Read + Write + Seek + OpenFile + Drop> FileFlash<T> {
    /// A flash over the file at a path, whose length is read once. Where that fails, it has an image's length, and its calls fail.
    pub fn on<R: Files<File = T>>(rt: &R, path: &str) -> Self
        ensures faults { result.faults ≡ 0 }
        ensures closed { result.opened ≡ false → result.size ≡ image_size }
    {
        match open_file(rt, path) {
            Ok(file) => Self::over(file),
            Err(_) => Self::closed(),
        }
    }

    // A flash over an open file.
    pub(crate) fn over(file: T) -> Self
        ensures faults { result.faults ≡ 0 }
        ensures closed { result.opened ≡ false → result.size ≡ image_size }
    {
        match file.metadata() {
            Ok(metadata) => Self::of_metadata(file, &metadata),
            Err(_) => Self::closed(),
        }
    }

    // A folder is no image, though it can be opened.
    fn of_metadata(file: T, metadata: &Metadata) -> Self
        ensures file { ¬ IsDir (file_type metadata.now) → result ≡ record { opened = true; size = metadata_len metadata.now; faults = 0 } }
        ensures folder { IsDir (file_type metadata.now) → result ≡ record { opened = false; size = image_size; faults = 0 } }
    {
        if metadata.is_dir() {
            return Self::closed();
        }
        FileFlash {
            file: Some(file),
            size: metadata.len(),
            faults: 0,
        }
    }

    fn closed() -> Self
        ensures { result ≡ record { opened = false; size = image_size; faults = 0 } }
    {
        FileFlash {
            file: None,
            size: IMAGE_BYTES,
            faults: 0,
        }
    }
}

// A file that can't be written is opened for reading alone, so that it can be listed.
fn open_file<R: Files>(rt: &R, path: &str) -> io::Result<R::File> {
    let both = OpenOptions::new().read(true).write(true).open(rt, path);
    match both {
        Ok(file) => Ok(file),
        Err(_) => OpenOptions::new().read(true).open(rt, path),
    }
}

fn read_at<T: Read + Seek>(file: &mut T, at: u64, into: &mut [u8]) -> io::Result<()> {
    file.seek(SeekFrom::Start(at))?;
    file.read_exact(into)
}

fn write_at<T: Write + Seek>(file: &mut T, at: u64, bytes: &[u8]) -> io::Result<()> {
    file.seek(SeekFrom::Start(at))?;
    file.write_all(bytes)
}

// Clears bits of a piece of the file, which is read into a buffer of its length.
fn program_piece<T: Read + Write + Seek>(
    file: &mut T,
    at: u64,
    bytes: &[u8],
    piece: &mut [u8],
) -> io::Result<()>
    requires { length bytes.now ≤ length piece.old }
{
    read_at(file, at, piece)?;
    clear_bits(piece, bytes);
    write_at(file, at, piece)
}

// Clears bits of a range, piece by piece, so that it takes no memory.
fn program_range<T: Read + Write + Seek>(file: &mut T, at: u32, bytes: &[u8]) -> io::Result<()> {
    let mut buffer = [0; BLOCK_BYTES];
    let mut offset = u64::from(at);
    for part in bytes.chunks(BLOCK_BYTES) {
        program_piece(file, offset, part, &mut buffer[..part.len()])?;
        offset += part.len() as u64;
    }
    Ok(())
}

// Writes 0xFF over a block.
fn erase_block<T: Write + Seek>(file: &mut T, block: u32) -> io::Result<()> {
    let at = u64::from(block) * BLOCK_BYTES as u64;
    write_at(file, at, &[0xFF; BLOCK_BYTES])
}

// The answer of a call by what came of it, and its count of faults.
fn answer_of(outcome: io::Result<()>, faults: &mut u64) -> Result<(), Device>
    ensures answer { IsOk result ↔ IsOk outcome }
    ensures counted { OnOk result (faults.new ≡ faults.old) }
    ensures failed { OnErr result (faults.new ≡ one_more faults.old) }
{
    match outcome {
        Ok(()) => Ok(()),
        Err(_) => {
            *faults = faults.saturating_add(1);
            Err(Device)
        }
    }
}

impl<T: Read + Write + Seek + OpenFile + Drop> Flash for FileFlash<T> {
    ghost size = { λ f. f.size };

    ghost holds = { λ _. None };

    ghost fault_count = { λ f. f.faults };

    ghost moment = { λ _. 0 };

    ghost left_since = { λ _ _ _. Unit {0} };

    fn len(&self) -> u64 {
        self.size
    }

    fn faults(&self) -> u64 {
        self.faults
    }

    /// Reads the range; it fails where the operating system fails, or where the file has ended early.
    fn read(&mut self, at: u32, into: &mut [u8]) -> Result<(), Device>
        requires { at + length into.old ≤ self.old.size }
        ensures closed { self.old.opened ≡ false → IsErr result }
        ensures opened { self.new.opened ≡ self.old.opened }
        ensures counted_one { OnErr result (self.new.faults ≡ one_more self.old.faults) }

        ensures size { self.new.size ≡ self.old.size }
        ensures cause { HasCause self.old.faults self.new.faults result }
    {
        let outcome = match &mut self.file {
            Some(file) => read_at(file, u64::from(at), into),
            None => Err(io::Error::from(io::ErrorKind::NotFound)),
        };
        answer_of(outcome, &mut self.faults)
    }

    /// Reads the range, clears bits, and writes it back, piece by piece.
    fn program(&mut self, at: u32, bytes: &[u8]) -> Result<(), Device>
        requires { at + length bytes.now ≤ self.old.size }
        ensures closed { self.old.opened ≡ false → IsErr result }
        ensures opened { self.new.opened ≡ self.old.opened }
        ensures counted_one { OnErr result (self.new.faults ≡ one_more self.old.faults) }

        ensures size { self.new.size ≡ self.old.size }
        ensures cause { HasCause self.old.faults self.new.faults result }
    {
        let outcome = match &mut self.file {
            Some(file) => program_range(file, at, bytes),
            None => Err(io::Error::from(io::ErrorKind::NotFound)),
        };
        answer_of(outcome, &mut self.faults)
    }

    /// Writes 0xFF over the block.
    fn erase(&mut self, block: u32) -> Result<(), Device>
        requires { block_size * block + block_size ≤ self.old.size }
        ensures closed { self.old.opened ≡ false → IsErr result }
        ensures opened { self.new.opened ≡ self.old.opened }
        ensures counted_one { OnErr result (self.new.faults ≡ one_more self.old.faults) }

        ensures size { self.new.size ≡ self.old.size }
        ensures cause { HasCause self.old.faults self.new.faults result }
    {
        let outcome = match &mut self.file {
            Some(file) => erase_block(file, block),
            None => Err(io::Error::from(io::ErrorKind::NotFound)),
        };
        answer_of(outcome, &mut self.faults)
    }

    ghost sized = { λ f. tt };

    ghost counts_now = { λ f t left early now. tt };

    ghost only_now = { λ f left since. tt };
}
