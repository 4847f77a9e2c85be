//! Scripts of numbers, printed and run.
use crate::varsvc;
use flash_dev::{FaultPlan, MemFlash, Torn};
use outside::{MemSink, MemSource};
use std::alloc::{AllocError, Global};
use std::test::Fail;

/// How many bytes a script has.
const SCRIPT_BYTES: usize = 616_000;

// A flash without bytes.
fn no_flash(alloc: Global) -> MemFlash {
    let plan = FaultPlan {
        fails: Vec::new(alloc),
        stop_at: None,
        torn: Torn::Before,
    };
    MemFlash::new(Vec::new(alloc), plan)
}

// The status of words, and what a sink holds whose calls of these numbers fail.
fn call(
    alloc: Global,
    verb: &str,
    number: &str,
    fails: &[u32],
) -> Result<(u8, Vec<u8>), AllocError> {
    let mut words = Vec::new(alloc);
    words.push(String::from_str(alloc, verb)?)?;
    words.push(String::from_str(alloc, number)?)?;
    let mut source = MemSource::new(Vec::new(alloc), Vec::new(alloc));
    let mut sink = MemSink::new(vec![in alloc; 0u8; 700_000]?, fails.to_vec(alloc)?);
    let done = varsvc(alloc, &words, &mut source, no_flash(alloc), &mut sink);
    Ok((done.status, sink.bytes().to_vec(alloc)?))
}

#[test]
fn numbers_have_six_digits(rt: HostRuntime) -> Result<(), Fail> {
    for number in ["12x", "1234567", "", "+1", "1 ", "\u{0661}"] {
        let (status, text) = call(rt.alloc(), "make", number, &[])?;
        assert_eq!(rt; status, 2, "{number}");
        assert_eq!(rt; text.as_slice(), b"usage number\n".as_slice(), "{number}");
    }
    let (status, text) = call(rt.alloc(), "work", "-1", &[])?;
    assert_eq!(rt; status, 2);
    assert_eq!(rt; text.as_slice(), b"usage dash 1\n".as_slice());
    Ok(())
}

#[test]
fn scripts_are_printed(rt: HostRuntime) -> Result<(), Fail> {
    let (status, text) = call(rt.alloc(), "make", "000007", &[])?;
    assert_eq!(rt; status, 0);
    assert_eq!(rt; text.len(), SCRIPT_BYTES);
    let front =
        "0 set 8be4df61-93ca-11d2-aa0d-00e098032b8c V07 0x00000007 07\n0 set 8be4df61-93ca-11d2-aa0d-00e098032b8c V08 0x00000007 0808\n0 get 8be4df61-93ca-11d2-aa0d-00e098032b8c V08 256\n0 next 8be4df61-93ca-11d2-aa0d-00e098032b8c - 64\n";
    assert!(rt; text.starts_with(front.as_bytes()));
    Ok(())
}

#[test]
fn a_sink_that_fails_has_a_front(rt: HostRuntime) -> Result<(), Fail> {
    let (_, whole) = call(rt.alloc(), "make", "0", &[])?;
    let cases: [(&[u32], usize); 2] = [(&[0], 0), (&[4], 196_608)];
    for (fails, least) in cases {
        let (status, text) = call(rt.alloc(), "make", "0", fails)?;
        assert_eq!(rt; status, 5);
        assert!(rt; least <= text.len(), "{}", text.len());
        assert!(rt; text.len() < SCRIPT_BYTES);
        assert!(rt; whole.starts_with(&text));
    }
    let (status, text) = call(rt.alloc(), "work", "0", &[0])?;
    assert_eq!(rt; status, 5);
    assert!(rt; text.is_empty());
    Ok(())
}

#[test]
fn scripts_are_worked(rt: HostRuntime) -> Result<(), Fail> {
    let want = b"calls 4000 changes 2000 refused 0 variables 32 bytes 5360\n";
    for number in ["0", "123456"] {
        let (status, text) = call(rt.alloc(), "work", number, &[])?;
        assert_eq!(rt; status, 0, "{number}");
        assert_eq!(rt; text.as_slice(), want.as_slice(), "{number}");
    }
    Ok(())
}
