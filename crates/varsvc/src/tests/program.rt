use crate::image::make_image_file;
use crate::program::run_on_files;
use outside::{MemSink, MemSource};
use std::alloc::{Allocator, Global};
use std::fs::{File, Metadata, OpenFile, OpenOptions};
use std::io::{Read, Seek, SeekFrom, Write};
use std::rt::Files;
use std::test::Fail;
use std::{fs, io, process};

const IMAGE: usize = 131_072;

// The first 32 bytes of OVMF's image without variables, as Debian ships it.
const FRONT: [u8; 32] = [
    0x00, 0x00, 0x00, 0x00, 0x00, 0x00, 0x00, 0x00, 0x00, 0x00, 0x00, 0x00, 0x00, 0x00, 0x00, 0x00,
    0x8d, 0x2b, 0xf1, 0xff, 0x96, 0x76, 0x8b, 0x4c, 0xa9, 0x85, 0x27, 0x47, 0x07, 0x5b, 0x4f, 0x50,
];

// A path of this process alone, in its folder.
fn scratch_path(rt: &HostRuntime, name: &str) -> Result<String, Fail> {
    let id = process::id(rt.process());
    Ok(format!(in rt.alloc(); "varsvc-{name}-{id}")?)
}

// The program on an empty script: its status, and what it printed.
fn run<R: Files>(rt: &R, alloc: Global, verb: &str, path: &str) -> Result<(u8, Vec<u8>), Fail>
where
    R::File: Send,
{
    let mut words = Vec::new(alloc);
    words.push(String::from_str(alloc, verb)?)?;
    words.push(String::from_str(alloc, path)?)?;
    let mut source = MemSource::new(Vec::new(alloc), Vec::new(alloc));
    let mut sink = MemSink::new(vec![in alloc; 0u8; 64]?, Vec::new(alloc));
    let status = run_on_files(rt, alloc, &words, &mut source, &mut sink);
    Ok((status, sink.bytes().to_vec(alloc)?))
}

#[test]
fn only_format_makes_a_file(rt: HostRuntime) -> Result<(), Fail> {
    let path = scratch_path(&rt, "made")?;
    for (verb, status, text) in [
        ("list", 7, "device fault\n"),
        ("run", 7, "device fault\n"),
        ("frob", 2, "usage unknown-verb\n"),
    ] {
        let done = run(&rt, rt.alloc(), verb, path.as_str())?;
        assert_eq!(rt; done.0, status, "{verb}");
        assert_eq!(rt; done.1.as_slice(), text.as_bytes(), "{verb}");
        assert!(rt; fs::metadata(&rt, path.as_str()).is_err(), "{verb}");
    }
    let done = run(&rt, rt.alloc(), "format", path.as_str())?;
    assert_eq!(rt; done.0, 0);
    assert!(rt; done.1.is_empty());
    let bytes = fs::read(&rt, path.as_str())?;
    assert_eq!(rt; bytes.len(), IMAGE);
    assert!(rt; bytes.starts_with(FRONT.as_slice()));
    let done = run(&rt, rt.alloc(), "list", path.as_str())?;
    assert_eq!(rt; done.1.as_slice(), b"variables 0\nend\n".as_slice());
    let done = run(&rt, rt.alloc(), "run", path.as_str())?;
    assert_eq!(rt;
        done.1.as_slice(),
        b"history 0\nprocessor 0 calls 0\nend\n".as_slice()
    );
    fs::remove_file(&rt, path.as_str())?;
    Ok(())
}

#[test]
fn a_file_that_is_there_is_not_made_again(rt: HostRuntime) -> Result<(), Fail> {
    let path = scratch_path(&rt, "there")?;
    for size in [0, 100, IMAGE + 1] {
        let bytes = vec![in rt.alloc(); 0x5Au8; size]?;
        fs::write(&rt, path.as_str(), bytes.as_slice())?;
        assert!(rt;
            make_image_file(&rt, path.as_str()).is_err(),
            "{size} bytes"
        );
        let done = run(&rt, rt.alloc(), "format", path.as_str())?;
        assert_eq!(rt; done.0, 4, "{size} bytes");
        assert!(rt; fs::read(&rt, path.as_str())? == bytes, "{size} bytes");
    }
    fs::remove_file(&rt, path.as_str())?;
    Ok(())
}

/// The files of a full disk: those that are made take one block.
#[derive(Drop)]
struct FullDisk<'a> {
    rt: &'a HostRuntime,
}

#[derive(Drop)]
struct FullFile {
    file: File,
    written: bool,
}

impl Read for FullFile {
    fn read(&mut self, into: &mut [u8]) -> io::Result<usize> {
        self.file.read(into)
    }
}

impl Seek for FullFile {
    fn seek(&mut self, to: SeekFrom) -> io::Result<u64> {
        self.file.seek(to)
    }
}

impl Write for FullFile {
    fn write(&mut self, bytes: &[u8]) -> io::Result<usize> {
        if self.written {
            return Err(io::Error::from(io::ErrorKind::Other));
        }
        self.written = true;
        self.file.write(bytes)
    }

    fn flush(&mut self) -> io::Result<()> {
        self.file.flush()
    }
}

impl OpenFile for FullFile {
    fn metadata(&self) -> io::Result<Metadata> {
        self.file.metadata()
    }

    fn set_len(&self, size: u64) -> io::Result<()> {
        self.file.set_len(size)
    }

    fn sync_all(&self) -> io::Result<()> {
        self.file.sync_all()
    }

    fn sync_data(&self) -> io::Result<()> {
        self.file.sync_data()
    }
}

impl<'a> Files for FullDisk<'a> {
    type File = FullFile;

    type Dir = <HostRuntime as Files>::Dir;

    fn open_file(&self, how: &OpenOptions, path: &str) -> io::Result<FullFile> {
        let file = self.rt.open_file(how, path)?;
        Ok(FullFile {
            file,
            written: false,
        })
    }

    fn open_dir(&self, path: &str) -> io::Result<Self::Dir> {
        self.rt.open_dir(path)
    }

    fn metadata(&self, path: &str) -> io::Result<Metadata> {
        Files::metadata(self.rt, path)
    }

    fn symlink_metadata(&self, path: &str) -> io::Result<Metadata> {
        self.rt.symlink_metadata(path)
    }

    fn copy(&self, from: &str, to: &str) -> io::Result<u64> {
        self.rt.copy(from, to)
    }

    fn rename(&self, from: &str, to: &str) -> io::Result<()> {
        self.rt.rename(from, to)
    }

    fn remove_file(&self, path: &str) -> io::Result<()> {
        self.rt.remove_file(path)
    }

    fn create_dir(&self, path: &str) -> io::Result<()> {
        self.rt.create_dir(path)
    }

    fn remove_dir(&self, path: &str) -> io::Result<()> {
        self.rt.remove_dir(path)
    }

    fn remove_dir_all<B: Allocator>(&self, alloc: B, path: &str) -> io::Result<()> {
        self.rt.remove_dir_all(alloc, path)
    }
}

#[test]
fn a_file_that_is_not_whole_is_taken_away(rt: HostRuntime) -> Result<(), Fail> {
    let path = scratch_path(&rt, "full")?;
    let done = run(&FullDisk { rt: &rt }, rt.alloc(), "format", path.as_str())?;
    assert_eq!(rt; done.0, 7);
    assert_eq!(rt; done.1.as_slice(), b"device fault\n".as_slice());
    assert!(rt; fs::metadata(&rt, path.as_str()).is_err());
    Ok(())
}

#[test]
fn the_process_ends_with_the_status(rt: HostRuntime) -> Result<(), Fail> {
    // The words of the tests ask for nothing.
    let code = crate::run_process(&rt);
    let text = format!(in rt.alloc(); "{code:?}")?;
    assert_eq!(rt; text.as_str(), "ExitCode(unix_exit_status(2))");
    Ok(())
}
