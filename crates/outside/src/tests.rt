use crate::{Failed, MemSink, MemSource, Sink, Source, StdSink, StdSource};
use std::fs::File;
use std::io::{Read, Write};
use std::path::PathBuf;
use std::test::Fail;
use std::{env, fs, io, process};

// Gives its text up to `cut`, then fails once, and then gives the rest.
#[derive(Drop)]
struct FailsOnce {
    text: &'static [u8],
    at: usize,
    cut: Option<usize>,
}

impl Read for FailsOnce {
    fn read(&mut self, into: &mut [u8]) -> io::Result<usize> {
        if self.cut == Some(self.at) {
            self.cut = None;
            return Err(io::ErrorKind::BrokenPipe.into());
        }
        match (self.text.get(self.at), into.first_mut()) {
            (Some(byte), Some(place)) => {
                *place = *byte;
                self.at = self.at.saturating_add(1);
                Ok(1)
            }
            _ => Ok(0),
        }
    }
}

// Takes at most so many bytes a call, and fails once when it holds `cut` bytes.
#[derive(Drop)]
struct TakesFew {
    held: Vec<u8>,
    most: usize,
    cut: Option<usize>,
}

impl Write for TakesFew {
    fn write(&mut self, bytes: &[u8]) -> io::Result<usize> {
        if self.cut == Some(self.held.len()) {
            self.cut = None;
            return Err(io::ErrorKind::BrokenPipe.into());
        }
        let count = bytes.len().min(self.most);
        self.held.extend_from_slice(&bytes[..count])?;
        Ok(count)
    }

    fn flush(&mut self) -> io::Result<()> {
        Ok(())
    }
}

// A file of the system, whose call of this number fails before it reaches the file.
#[derive(Drop)]
struct FailingFile {
    file: File,
    fails: usize,
    calls: usize,
}

impl FailingFile {
    fn is_failing(&mut self) -> bool {
        let call = self.calls;
        self.calls = call.saturating_add(1);
        call == self.fails
    }
}

impl Read for FailingFile {
    fn read(&mut self, into: &mut [u8]) -> io::Result<usize> {
        if self.is_failing() {
            return Err(io::ErrorKind::BrokenPipe.into());
        }
        self.file.read(into)
    }
}

impl Write for FailingFile {
    fn write(&mut self, bytes: &[u8]) -> io::Result<usize> {
        if self.is_failing() {
            return Err(io::ErrorKind::BrokenPipe.into());
        }
        self.file.write(bytes)
    }

    fn flush(&mut self) -> io::Result<()> {
        self.file.flush()
    }
}

// The bytes of the next call, or nothing where it fails.
fn next_of<'a, S: Source>(source: &mut S, piece: &'a mut [u8]) -> Option<&'a [u8]> {
    match source.read(piece) {
        Ok(count) => Some(&piece[..count]),
        Err(Failed) => None,
    }
}

fn takes<S: Sink>(sink: &mut S, bytes: &[u8]) -> bool {
    sink.write(bytes).is_ok()
}

#[test]
fn a_failed_read_of_memory_loses_no_byte(rt: HostRuntime) -> Result<(), Fail> {
    let alloc = rt.alloc();
    let bytes = vec![in alloc; b'a', b'b', b'c', b'd', b'e', b'f', b'g']?;
    let mut source = MemSource::new(bytes, vec![in alloc; 1, 4]?);
    let answers: [Option<&[u8]>; 7] = [
        Some(b"abc"),
        None,
        Some(b"def"),
        Some(b"g"),
        None,
        Some(b""),
        Some(b""),
    ];
    for want in answers {
        let mut piece = [0u8; 3];
        assert_eq!(rt; next_of(&mut source, &mut piece), want);
    }
    Ok(())
}

#[test]
fn a_sink_in_memory_fills_and_then_refuses(rt: HostRuntime) -> Result<(), Fail> {
    let alloc = rt.alloc();
    let mut sink = MemSink::new(vec![in alloc; 0; 8]?, vec![in alloc; 1]?);
    let writes: [(&[u8], bool, &[u8]); 6] = [
        (b"abc", true, b"abc"),
        (b"de", false, b"abc"),
        (b"defghi", false, b"abc"),
        (b"defgh", true, b"abcdefgh"),
        (b"i", false, b"abcdefgh"),
        (b"", true, b"abcdefgh"),
    ];
    for (bytes, is_taken, held) in writes {
        assert_eq!(rt; takes(&mut sink, bytes), is_taken);
        assert_eq!(rt; sink.bytes(), held);
    }
    Ok(())
}

#[test]
fn a_reader_that_fails_once_goes_on(rt: HostRuntime) {
    let reader = FailsOnce {
        text: b"abc",
        at: 0,
        cut: Some(1),
    };
    let mut source = StdSource::on(reader);
    // The reader is called for an empty piece too.
    let answers: [(usize, Option<&[u8]>); 6] = [
        (4, Some(b"a")),
        (0, None),
        (0, Some(b"")),
        (4, Some(b"b")),
        (4, Some(b"c")),
        (4, Some(b"")),
    ];
    for (size, want) in answers {
        let mut piece = [0u8; 4];
        assert_eq!(rt; next_of(&mut source, &mut piece[..size]), want);
    }
}

#[test]
fn a_writer_is_called_until_it_has_taken_all(rt: HostRuntime) -> Result<(), Fail> {
    let writers: [(usize, Option<usize>, bool, bool, &[u8]); 4] = [
        (2, None, true, true, b"abcdexy"),
        (9, None, true, true, b"abcdexy"),
        (2, Some(4), false, true, b"abcdxy"),
        (0, None, false, false, b""),
    ];
    for (most, cut, takes_first, takes_second, held) in writers {
        let mut writer = TakesFew {
            held: Vec::new(rt.alloc()),
            most,
            cut,
        };
        let mut sink = StdSink::on(&mut writer);
        assert_eq!(rt; takes(&mut sink, b"abcde"), takes_first);
        assert_eq!(rt; takes(&mut sink, b"xy"), takes_second);
        assert!(rt; takes(&mut sink, b""));
        drop(sink);
        assert_eq!(rt; writer.held.as_slice(), held);
    }
    Ok(())
}

// A file of this process alone, in the system's folder for such files.
fn scratch_path(rt: &HostRuntime, name: &str) -> io::Result<PathBuf> {
    let id = process::id(rt.process());
    let file = format!(in rt.alloc(); "varsvc-{name}-{id}")?;
    Ok(env::temp_dir(rt)?.join(rt.alloc(), file.as_str())?)
}

#[test]
fn a_file_is_read_on_after_a_failure(rt: HostRuntime) -> Result<(), Fail> {
    let path = scratch_path(&rt, "source")?;
    fs::write(&rt, path.as_path(), "abcdef")?;
    let file = fs::open(&rt, path.as_path())?;
    let mut source = StdSource::on(FailingFile {
        file,
        fails: 1,
        calls: 0,
    });
    let answers: [Option<&[u8]>; 4] = [Some(b"abcd"), None, Some(b"ef"), Some(b"")];
    for want in answers {
        let mut piece = [0u8; 4];
        assert_eq!(rt; next_of(&mut source, &mut piece), want);
    }
    fs::remove_file(&rt, path.as_path())?;
    Ok(())
}

#[test]
fn a_file_holds_what_was_taken(rt: HostRuntime) -> Result<(), Fail> {
    let path = scratch_path(&rt, "sink")?;
    let file = fs::create(&rt, path.as_path())?;
    let mut sink = StdSink::on(FailingFile {
        file,
        fails: 1,
        calls: 0,
    });
    let writes: [(&[u8], bool); 3] = [(b"abc", true), (b"de", false), (b"fg", true)];
    for (bytes, is_taken) in writes {
        assert_eq!(rt; takes(&mut sink, bytes), is_taken);
    }
    drop(sink);
    let held = fs::read(&rt, path.as_path())?;
    fs::remove_file(&rt, path.as_path())?;
    assert_eq!(rt; held.as_slice(), b"abcfg".as_slice());
    Ok(())
}

#[test]
fn a_failure_is_named_in_words(rt: HostRuntime) -> Result<(), Fail> {
    let text = format!(in rt.alloc(); "{Failed}")?;
    assert_eq!(rt; text.as_str(), "a read or a write failed");
    Ok(())
}
