use crate::varsvc;
use flash_dev::{FaultPlan, MemFlash, Torn, format_image};
use outside::{MemSink, MemSource};
use std::alloc::{AllocError, Global};
use std::test::Fail;

pub const ROOM: usize = 4096;

/// Room for a report of data of 60,000 bytes.
const LONG_ROOM: usize = 131_072;

/// A call of the program with a source and a sink in memory, whose calls of these numbers fail.
#[derive(Drop)]
pub struct Case<'a> {
    pub words: &'a [&'a str],
    pub script: &'a [u8],
    pub source_fails: &'a [u32],
    pub sink_fails: &'a [u32],
}

fn flash_of(bytes: Vec<u8>, fails: Vec<u32>) -> MemFlash {
    let plan = FaultPlan {
        fails,
        stop_at: None,
        torn: Torn::Before,
    };
    MemFlash::new(bytes, plan)
}

/// The bytes of an image without variables.
fn blank(alloc: Global) -> Result<Vec<u8>, AllocError> {
    let mut flash = flash_of(vec![in alloc; 0xFFu8; 131_072]?, Vec::new(alloc));
    let _ = format_image(&mut flash);
    Ok(flash.release())
}

fn words_of(alloc: Global, words: &[&str]) -> Result<Vec<String>, AllocError> {
    let mut all = Vec::new(alloc);
    for word in words {
        all.push(String::from_str(alloc, word)?)?;
    }
    Ok(all)
}

/// The status of a call of the program on an image without variables, and what it printed.
pub fn run(alloc: Global, case: &Case, room: usize) -> Result<(u8, Vec<u8>), AllocError> {
    let words = words_of(alloc, case.words)?;
    let mut source = MemSource::new(case.script.to_vec(alloc)?, case.source_fails.to_vec(alloc)?);
    let mut sink = MemSink::new(vec![in alloc; 0u8; room]?, case.sink_fails.to_vec(alloc)?);
    let image = flash_of(blank(alloc)?, Vec::new(alloc));
    let done = varsvc(alloc, &words, &mut source, image, &mut sink);
    Ok((done.status, sink.bytes().to_vec(alloc)?))
}

#[test]
fn words_are_refused(rt: HostRuntime) -> Result<(), Fail> {
    let cases: [(&[&str], &str); 17] = [
        (&[], "usage no-verb\n"),
        (&["frob"], "usage unknown-verb\n"),
        (&["Run", "vars.fd"], "usage unknown-verb\n"),
        (&["run"], "usage missing 1 0\n"),
        (&["run", "-x"], "usage dash 1\n"),
        (&["run", "vars.fd", "-x"], "usage dash 2\n"),
        (&["run", "vars.fd", "more"], "usage extra 2\n"),
        (&["run", "vars.fd", "more", "-"], "usage dash 3\n"),
        (&["list"], "usage missing 1 0\n"),
        (&["list", "a", "b"], "usage extra 2\n"),
        (&["format", "--x"], "usage dash 1\n"),
        (&["format"], "usage missing 1 0\n"),
        (&["lists", "a"], "usage unknown-verb\n"),
        (&["play", "a"], "usage extra 1\n"),
        (&["play", "a", "b"], "usage extra 1\n"),
        (&["play", "-a"], "usage dash 1\n"),
        (&["play", "a", "-"], "usage dash 2\n"),
    ];
    for (words, line) in cases {
        let call = Case {
            words,
            script: b"",
            source_fails: &[],
            sink_fails: &[],
        };
        let (status, text) = run(rt.alloc(), &call, ROOM)?;
        assert_eq!(rt; status, 2, "{line}");
        assert_eq!(rt; text.as_slice(), line.as_bytes(), "{line}");
    }
    Ok(())
}

#[test]
fn scripts_are_run(rt: HostRuntime) -> Result<(), Fail> {
    let cases: [(&[u8], u8, &[u8]); 9] = [
        (b"", 0, b"history 0\nprocessor 0 calls 0\nend\n"),
        (
            b"0 set 8be4df61-93ca-11d2-aa0d-00e098032b8c BootCurrent 6 0100\n0 get 8be4df61-93ca-11d2-aa0d-00e098032b8c BootCurrent 16\n",
            0,
            b"history 1\n0 0 0 set 8be4df61-93ca-11d2-aa0d-00e098032b8c BootCurrent 0x00000006 0100\nprocessor 0 calls 2\n0 0 - SUCCESS\n1 1 - SUCCESS 0x00000006 0100\nend\n",
        ),
        (
            b"# too little room, the same again, another, and gone\n0 set 8be4df61-93ca-11d2-aa0d-00e098032b8c A 6 0102\n0 get 8be4df61-93ca-11d2-aa0d-00e098032b8c A 1\n0 set 8be4df61-93ca-11d2-aa0d-00e098032b8c A 6 0102\n0 set 8be4df61-93ca-11d2-aa0d-00e098032b8c A 6 03\n0 set 8be4df61-93ca-11d2-aa0d-00e098032b8c A 6 -\n0 get 8be4df61-93ca-11d2-aa0d-00e098032b8c A 9\n0 set 8be4df61-93ca-11d2-aa0d-00e098032b8c A 6 -\n",
            0,
            b"history 3\n0 0 0 set 8be4df61-93ca-11d2-aa0d-00e098032b8c A 0x00000006 0102\n1 0 3 set 8be4df61-93ca-11d2-aa0d-00e098032b8c A 0x00000006 03\n2 0 4 set 8be4df61-93ca-11d2-aa0d-00e098032b8c A 0x00000006 -\nprocessor 0 calls 7\n0 0 - SUCCESS\n1 1 - BUFFER_TOO_SMALL 0x00000006 2\n2 1 - SUCCESS same\n3 1 - SUCCESS\n4 2 - SUCCESS\n5 3 - NOT_FOUND\n6 3 - NOT_FOUND missing\nend\n",
        ),
        (
            b"0 set 8be4df61-93ca-11d2-aa0d-00e098032b8c - 6 01\n0 set 8be4df61-93ca-11d2-aa0d-00e098032b8c A%0000B 6 01\n",
            0,
            b"history 0\nprocessor 0 calls 2\n0 0 - INVALID_PARAMETER name empty\n1 0 - INVALID_PARAMETER name nul 1\nend\n",
        ),
        (
            b"# a walk over two GUIDs, and attributes that differ\n0 set 414e6bdd-e47b-47cc-b244-bb61020cf516 Z 6 01\n0 set 8be4df61-93ca-11d2-aa0d-00e098032b8c A 2 03\n0 next 8be4df61-93ca-11d2-aa0d-00e098032b8c - 64\n0 next 8be4df61-93ca-11d2-aa0d-00e098032b8c A 64\n0 next 414e6bdd-e47b-47cc-b244-bb61020cf516 Z 64\n0 next 8be4df61-93ca-11d2-aa0d-00e098032b8c - 3\n0 next 8be4df61-93ca-11d2-aa0d-00e098032b8c B 64\n0 set 8be4df61-93ca-11d2-aa0d-00e098032b8c A 6 03\n",
            0,
            b"history 2\n0 0 0 set 414e6bdd-e47b-47cc-b244-bb61020cf516 Z 0x00000006 01\n1 0 1 set 8be4df61-93ca-11d2-aa0d-00e098032b8c A 0x00000002 03\nprocessor 0 calls 8\n0 0 - SUCCESS\n1 1 - SUCCESS\n2 2 - SUCCESS 8be4df61-93ca-11d2-aa0d-00e098032b8c A\n3 2 - SUCCESS 414e6bdd-e47b-47cc-b244-bb61020cf516 Z\n4 2 - NOT_FOUND end\n5 2 - BUFFER_TOO_SMALL 4\n6 2 - INVALID_PARAMETER no-such\n7 2 - INVALID_PARAMETER attributes 0x00000002 0x00000006\nend\n",
        ),
        (b"# no call\n\n0 fly\n", 3, b"script line 3 verb\n"),
        (b"1 fly", 3, b"script line 1 verb\n"),
        (b"8 lock\n", 3, b"script line 1 processor\n"),
        (
            b"0 set 8be4df61-93ca-11d2-aa0d-00e098032b8c A 7 01 perhaps\n",
            3,
            b"script line 1 verdict\n",
        ),
    ];
    for (script, status, text) in cases {
        let call = Case {
            words: &["run", "vars.fd"],
            script,
            source_fails: &[],
            sink_fails: &[],
        };
        let done = run(rt.alloc(), &call, ROOM)?;
        assert_eq!(rt; done.0, status);
        assert_eq!(rt; done.1.as_slice(), text);
    }
    Ok(())
}

/// A script of texts, each so many times.
pub fn script_of(alloc: Global, parts: &[(&str, usize)]) -> Result<Vec<u8>, AllocError> {
    let mut script = Vec::new(alloc);
    for (text, count) in parts {
        for _ in 0..*count {
            script.extend_from_slice(text.as_bytes())?;
        }
    }
    Ok(script)
}

#[test]
fn limits_are_printed_with_their_numbers(rt: HostRuntime) -> Result<(), Fail> {
    let set = "0 set 8be4df61-93ca-11d2-aa0d-00e098032b8c ";
    let get = "0 get 8be4df61-93ca-11d2-aa0d-00e098032b8c A 9\n";
    let other = "5 get 8be4df61-93ca-11d2-aa0d-00e098032b8c A 9\n";
    let end = "\n";
    let cases: [(&[(&str, usize)], u8, &str); 6] = [
        (
            &[(set, 1), ("A 6 ", 1), ("01", 33_729), (end, 1)],
            0,
            "\n0 0 - INVALID_PARAMETER size 33793 33792\nend\n",
        ),
        (
            &[(set, 1), ("A", 513), (" 6 01", 1), (end, 1)],
            0,
            "\n0 0 - INVALID_PARAMETER name long 513\nend\n",
        ),
        (
            &[
                (set, 1),
                ("A 6 ", 1),
                ("01", 30_000),
                (end, 1),
                (set, 1),
                ("B 6 ", 1),
                ("01", 30_000),
                (end, 1),
                (set, 1),
                ("C 6 ", 1),
                ("01", 5_400),
            ],
            0,
            "\n2 2 - OUT_OF_RESOURCES room 65592 65508\nend\n",
        ),
        (&[("#", 1_048_577)], 3, "script bytes 1048576\n"),
        (&[(get, 20_001)], 3, "script calls 0 20000\n"),
        // Each processor has its own.
        (&[(get, 1), (other, 20_001)], 3, "script calls 5 20000\n"),
    ];
    for (parts, status, last) in cases {
        let script = script_of(rt.alloc(), parts)?;
        let call = Case {
            words: &["run", "vars.fd"],
            script: &script,
            source_fails: &[],
            sink_fails: &[],
        };
        let done = run(rt.alloc(), &call, LONG_ROOM)?;
        assert_eq!(rt; done.0, status, "{last}");
        assert!(rt; done.1.ends_with(last.as_bytes()), "{last}");
    }
    Ok(())
}

#[test]
fn failures_decide_the_status(rt: HostRuntime) -> Result<(), Fail> {
    let cases: [(&[u32], &[u32], usize, u8, &[u8]); 6] = [
        // The first read, and the read that would find the end.
        (&[0], &[], ROOM, 6, b"input fault\n"),
        (&[1], &[], ROOM, 6, b"input fault\n"),
        (&[2], &[], ROOM, 0, b"history 0\nprocessor 0 calls 0\nend\n"),
        (&[], &[0], ROOM, 5, b""),
        (&[], &[], 10, 5, b""),
        // A failed write decides the status, whatever else failed.
        (&[0], &[0], ROOM, 5, b""),
    ];
    for (source_fails, sink_fails, room, status, text) in cases {
        let call = Case {
            words: &["run", "vars.fd"],
            script: b"# no call\n",
            source_fails,
            sink_fails,
        };
        let done = run(rt.alloc(), &call, room)?;
        assert_eq!(rt; done.0, status);
        assert_eq!(rt; done.1.as_slice(), text);
    }
    Ok(())
}

#[test]
fn a_report_is_cut_at_a_failed_write(rt: HostRuntime) -> Result<(), Fail> {
    let alloc = rt.alloc();
    let set = "0 set 8be4df61-93ca-11d2-aa0d-00e098032b8c A 6 ";
    let get = "0 get 8be4df61-93ca-11d2-aa0d-00e098032b8c A 33000\n";
    let script = script_of(alloc, &[(set, 1), ("5a", 33_000), ("\n", 1), (get, 1)])?;
    let mut call = Case {
        words: &["run", "vars.fd"],
        script: &script,
        source_fails: &[],
        sink_fails: &[],
    };
    let (status, whole) = run(alloc, &call, 2 * LONG_ROOM)?;
    assert_eq!(rt; status, 0);
    assert!(rt; whole.ends_with(b"5a\nend\n"));
    let fails: [(&[u32], usize); 3] = [(&[0], 0), (&[1], 63_488), (&[2], 126_976)];
    for (sink_fails, least) in fails {
        call.sink_fails = sink_fails;
        let (status, part) = run(alloc, &call, 2 * LONG_ROOM)?;
        assert_eq!(rt; status, 5);
        assert!(rt; whole.starts_with(&part));
        assert!(rt; least <= part.len(), "{}", part.len());
    }
    Ok(())
}
