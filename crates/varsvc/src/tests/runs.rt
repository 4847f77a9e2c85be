//! Runs of scripts on images: what they answer, and what the image keeps behind them.
use crate::{Done, varsvc};
use flash_dev::{FaultPlan, MemFlash, Torn, format_image};
use outside::{MemSink, MemSource};
use std::alloc::{AllocError, Global};
use std::test::Fail;

const ROOM: usize = 4096;

const BOOT: &str = "0 set 8be4df61-93ca-11d2-aa0d-00e098032b8c BootOrder 7 0100\n";

const GET: &str = "0 get 8be4df61-93ca-11d2-aa0d-00e098032b8c BootOrder 16\n";

/// What a call of the program printed, and the image behind it.
#[derive(Drop)]
struct Ran {
    status: u8,
    text: Vec<u8>,
    image: Vec<u8>,
    calls: u32,
}

fn flash_of(alloc: Global, bytes: &[u8], fails: &[u32]) -> Result<MemFlash, AllocError> {
    let plan = FaultPlan {
        fails: fails.to_vec(alloc)?,
        stop_at: None,
        torn: Torn::Before,
    };
    Ok(MemFlash::new(bytes.to_vec(alloc)?, plan))
}

/// The bytes of an image without variables.
fn blank(alloc: Global) -> Result<Vec<u8>, AllocError> {
    let mut flash = flash_of(alloc, vec![in alloc; 0xFFu8; 131_072]?.as_slice(), &[])?;
    let _ = format_image(&mut flash);
    Ok(flash.release())
}

// A call of the program on an image whose flash calls of these numbers fail.
fn call(
    alloc: Global,
    verb: &str,
    script: &str,
    image: &[u8],
    fails: &[u32],
) -> Result<Ran, AllocError> {
    let mut words = Vec::new(alloc);
    words.push(String::from_str(alloc, verb)?)?;
    words.push(String::from_str(alloc, "vars.fd")?)?;
    let mut source = MemSource::new(script.as_bytes().to_vec(alloc)?, Vec::new(alloc));
    let mut sink = MemSink::new(vec![in alloc; 0u8; ROOM]?, Vec::new(alloc));
    let flash = flash_of(alloc, image, fails)?;
    let Done { status, image } = varsvc(alloc, &words, &mut source, flash, &mut sink);
    let text = sink.bytes().to_vec(alloc)?;
    Ok(match image {
        Some(flash) => Ran {
            status,
            text,
            calls: flash.calls(),
            image: flash.release(),
        },
        None => Ran {
            status,
            text,
            calls: 0,
            image: Vec::new(alloc),
        },
    })
}

#[test]
fn a_first_boot_entry_outlives_the_run(rt: HostRuntime) -> Result<(), Fail> {
    let alloc = rt.alloc();
    let script = format!(in alloc; "{BOOT}{GET}")?;
    let ran = call(alloc, "run", script.as_str(), &blank(alloc)?, &[])?;
    assert_eq!(rt; ran.status, 0);
    assert_eq!(rt;
        ran.text.as_slice(),
        b"history 1\n0 0 0 set 8be4df61-93ca-11d2-aa0d-00e098032b8c BootOrder 0x00000007 0100\nprocessor 0 calls 2\n0 0 - SUCCESS\n1 1 - SUCCESS 0x00000007 0100\nend\n".as_slice()
    );
    let listed = call(alloc, "list", "", &ran.image, &[])?;
    assert_eq!(rt;
        listed.text.as_slice(),
        b"variables 1\n8be4df61-93ca-11d2-aa0d-00e098032b8c BootOrder 0x00000007 - 0100\nend\n".as_slice()
    );
    // The first record stands at 100, as firmware writes it.
    assert!(rt; ran.image.get(100..105) == Some([0xAA, 0x55, 0x3F, 0, 7].as_slice()));
    let again = call(alloc, "run", GET, &ran.image, &[])?;
    assert_eq!(rt;
        again.text.as_slice(),
        b"history 0\nprocessor 0 calls 1\n0 0 - SUCCESS 0x00000007 0100\nend\n".as_slice()
    );
    assert!(rt; again.image == ran.image);
    Ok(())
}

#[test]
fn what_is_refused_touches_no_image(rt: HostRuntime) -> Result<(), Fail> {
    let alloc = rt.alloc();
    let image = blank(alloc)?;
    let mut foreign = blank(alloc)?;
    assert!(rt; foreign.len() == 131_072);
    foreign[0x10000] = 0;
    let cases: [(&[u8], &str, u8, &str); 3] = [
        (&image, "0 fly\n", 3, "script line 1 verb\n"),
        (&[7; 100], BOOT, 4, "image size 100 131072\n"),
        (&foreign, BOOT, 4, "image foreign-work\n"),
    ];
    for (bytes, script, status, line) in cases {
        let ran = call(alloc, "run", script, bytes, &[])?;
        assert_eq!(rt; ran.status, status, "{line}");
        assert_eq!(rt; ran.text.as_slice(), line.as_bytes(), "{line}");
        assert!(rt; ran.image.as_slice() == bytes, "{line}");
    }
    let ran = call(alloc, "run", "0 fly\n", &image, &[])?;
    assert_eq!(rt; ran.calls, 0);
    Ok(())
}

#[test]
fn a_failed_call_of_the_flash_is_a_reply(rt: HostRuntime) -> Result<(), Fail> {
    let alloc = rt.alloc();
    let opened = call(alloc, "run", BOOT, &blank(alloc)?, &[])?.image;
    let unopened = call(alloc, "run", GET, &opened, &[0])?;
    assert_eq!(rt; unopened.status, 7);
    assert_eq!(rt; unopened.text.as_slice(), b"device fault\n".as_slice());
    // How many calls the opening makes, so that the first step of the set is the next one.
    let before = call(alloc, "run", "", &opened, &[])?.calls;
    let script =
        "0 set 8be4df61-93ca-11d2-aa0d-00e098032b8c BootOrder 7 02\n0 get 8be4df61-93ca-11d2-aa0d-00e098032b8c BootOrder 16\n";
    let ran = call(alloc, "run", script, &opened, &[before])?;
    assert_eq!(rt; ran.status, 0);
    assert_eq!(rt;
        ran.text.as_slice(),
        b"history 0\nprocessor 0 calls 2\n0 0 - DEVICE_ERROR\n1 0 - SUCCESS 0x00000007 0100\nend\n".as_slice()
    );
    Ok(())
}

// What a script prints that is run on an image without variables.
fn printed(alloc: Global, script: &str) -> Result<Vec<u8>, AllocError> {
    Ok(call(alloc, "run", script, &blank(alloc)?, &[])?.text)
}

#[test]
fn processors_make_their_calls_in_turn(rt: HostRuntime) -> Result<(), Fail> {
    let alloc = rt.alloc();
    // Processor 0 reads before processor 1 writes, whatever their lines' order is.
    assert_eq!(rt;
        printed(
            alloc,
            "1 set 8be4df61-93ca-11d2-aa0d-00e098032b8c A 6 01\n0 get 8be4df61-93ca-11d2-aa0d-00e098032b8c A 9\n"
        )?
        .as_slice(),
        b"history 1\n0 1 0 set 8be4df61-93ca-11d2-aa0d-00e098032b8c A 0x00000006 01\nprocessor 0 calls 1\n0 0 - NOT_FOUND\nprocessor 1 calls 1\n0 0 - SUCCESS\nend\n".as_slice()
    );
    // Changes of three processors, in processor order.
    assert_eq!(rt;
        printed(
            alloc,
            "2 set 8be4df61-93ca-11d2-aa0d-00e098032b8c A 6 01\n1 get 8be4df61-93ca-11d2-aa0d-00e098032b8c B 9\n2 get 8be4df61-93ca-11d2-aa0d-00e098032b8c A 9\n0 set 8be4df61-93ca-11d2-aa0d-00e098032b8c B 6 02\n1 lock\n0 get 8be4df61-93ca-11d2-aa0d-00e098032b8c A 9\n"
        )?
        .as_slice(),
        b"history 3\n0 0 0 set 8be4df61-93ca-11d2-aa0d-00e098032b8c B 0x00000006 02\n1 1 1 lock\n2 2 0 set 8be4df61-93ca-11d2-aa0d-00e098032b8c A 0x00000006 01\nprocessor 0 calls 2\n0 0 - SUCCESS\n1 1 - NOT_FOUND\nprocessor 1 calls 2\n0 1 - SUCCESS 0x00000006 02\n1 1 - SUCCESS\nprocessor 2 calls 2\n0 2 - SUCCESS\n1 3 - SUCCESS 0x00000006 01\nend\n".as_slice()
    );
    Ok(())
}

#[test]
fn processors_without_calls_are_listed(rt: HostRuntime) -> Result<(), Fail> {
    let alloc = rt.alloc();
    assert_eq!(rt;
        printed(
            alloc,
            "5 set 8be4df61-93ca-11d2-aa0d-00e098032b8c A 6 01\n0 get 8be4df61-93ca-11d2-aa0d-00e098032b8c A 9\n"
        )?
        .as_slice(),
        b"history 1\n0 5 0 set 8be4df61-93ca-11d2-aa0d-00e098032b8c A 0x00000006 01\nprocessor 0 calls 1\n0 0 - NOT_FOUND\nprocessor 1 calls 0\nprocessor 2 calls 0\nprocessor 3 calls 0\nprocessor 4 calls 0\nprocessor 5 calls 1\n0 0 - SUCCESS\nend\n".as_slice()
    );
    // Processor 7 alone.
    assert_eq!(rt;
        printed(
            alloc,
            "7 set 8be4df61-93ca-11d2-aa0d-00e098032b8c A 7 01\n7 get 8be4df61-93ca-11d2-aa0d-00e098032b8c A 9\n"
        )?
        .as_slice(),
        b"history 1\n0 7 0 set 8be4df61-93ca-11d2-aa0d-00e098032b8c A 0x00000007 01\nprocessor 0 calls 0\nprocessor 1 calls 0\nprocessor 2 calls 0\nprocessor 3 calls 0\nprocessor 4 calls 0\nprocessor 5 calls 0\nprocessor 6 calls 0\nprocessor 7 calls 2\n0 0 - SUCCESS\n1 1 - SUCCESS 0x00000007 01\nend\n".as_slice()
    );
    Ok(())
}
