//! Lines that are accepted and refused, by tables; in a line, `G` stands for a GUID.

use super::*;
use std::test::Fail;
use var_types::{Bytes, Call, Guid, NextCall, Put, SetCall, TextBuffer, Units, Verdict};

const GUID: &[u8] = b"8be4df61-93ca-11d2-aa0d-00e098032b8c";

// A text with the GUID for each `G`.
fn spelled(rt: &HostRuntime, text: &[u8]) -> Result<Vec<u8>, Fail> {
    let mut all = Vec::new(rt.alloc());
    for c in text {
        if *c == b'G' {
            all.extend_from_slice(GUID)?;
        } else {
            all.push(*c)?;
        }
    }
    Ok(all)
}

// The texts of calls, each with a line feed behind it.
fn texts_of(rt: &HostRuntime, calls: &[Call]) -> Result<Vec<u8>, Fail> {
    let mut all = TextBuffer::new(rt.alloc());
    for call in calls {
        write_call(call, &mut all);
        all.put(b"\n");
    }
    Ok(all.finish()?.into_vec())
}

#[test]
fn reads(rt: HostRuntime) -> Result<(), Fail> {
    let table: [(&[u8], &[u8]); 33] = [
        (b"", b""),
        (b"\n \n\t\n\r\n", b""),
        (b"0 get G A 16", b"get G A 16\n"),
        (b"0 get G A 16\n", b"get G A 16\n"),
        (
            b"0 get 8be4df6193ca11d2aa0d00e098032b8c A 1",
            b"get G A 1\n",
        ),
        (b"0 get {G} A 1", b"get G A 1\n"),
        (b"0 get urn:uuid:G A 1", b"get G A 1\n"),
        (
            b"0 get 8BE4DF61-93CA-11D2-AA0D-00E098032B8C A 1",
            b"get G A 1\n",
        ),
        (b" \t0\tget  G A\t16 \t", b"get G A 16\n"),
        (b"0 get G A 1\r\n0 get G B 2\r\n", b"get G A 1\nget G B 2\n"),
        (b"#\x80\xff\x00 any byte\n0 get G A 1", b"get G A 1\n"),
        (b"0 get G - 0x1F", b"get G - 31\n"),
        (b"0 get G A 0000000000000000000012", b"get G A 12\n"),
        (b"0 get G A 4294967295", b"get G A 4294967295\n"),
        (b"0 get G A 0x00fffFFFFF", b"get G A 4294967295\n"),
        (b"0 next G - 64", b"next G - 64\n"),
        (b"0 set G A 0 -", b"set G A 0x00000000 -\n"),
        (b"0 set G A 2 01", b"set G A 0x00000002 01\n"),
        (b"0 set G A 6 -", b"set G A 0x00000006 -\n"),
        (b"0 set G A 0x6 01fF", b"set G A 0x00000006 01ff\n"),
        (b"0 set G %002D 6 00", b"set G %002d 0x00000006 00\n"),
        (b"0 set G A 0x67 01 good", b"set G A 0x00000067 01\n"),
        (b"0 set G A 0x27 01 bad", b"set G A 0x00000027 01 bad\n"),
        (b"0 set G A 0xFFFFFFFF - bad", b"set G A 0xffffffff - bad\n"),
        (b"0 set G A 4294967295 -", b"set G A 0xffffffff -\n"),
        (b"0 set G A 0x47 01\tgood ", b"set G A 0x00000047 01\n"),
        (b"0 register 0aFF", b"register 0aff\n"),
        (b"0 register -", b"register -\n"),
        (b"0 lock\n0 disable", b"lock\ndisable\n"),
        (b"0\tenabled ", b"enabled\n"),
        (b"0 policy 0x10", b"policy 16\n"),
        (b" 0\texitboot \r\n", b"exitboot\n"),
        (
            b"0 set G -%0025%000A~! 6 -",
            b"set G -%0025%000a~! 0x00000006 -\n",
        ),
    ];
    for (text, want) in table {
        let script = read_script(rt.alloc(), &spelled(&rt, text)?)?.into_processors();
        assert_eq!(rt; script.len(), 1);
        for calls in &script {
            let texts = texts_of(&rt, calls)?;
            assert_eq!(rt; texts.as_slice(), spelled(&rt, want)?.as_slice());
        }
    }
    Ok(())
}

// Each processor's calls, by the texts of its calls.
const PROCESSORS: [(&[u8], &[&[u8]]); 8] = [
    (b"", &[b""]),
    (b"0 lock\n", &[b"lock\n"]),
    (b"1 lock\n", &[b"", b"lock\n"]),
    (b"7 lock", &[b"", b"", b"", b"", b"", b"", b"", b"lock\n"]),
    (
        b"3 lock\n0 exitboot\n# 5 lock\n3 disable\n",
        &[b"exitboot\n", b"", b"", b"lock\ndisable\n"],
    ),
    (b"2 lock\n1 lock\n", &[b"", b"lock\n", b"lock\n"]),
    (
        b"1 set G A 6 01 bad\n\t1 get G A 9\n1 next G - 9",
        &[b"", b"set G A 0x00000006 01 bad\nget G A 9\nnext G - 9\n"],
    ),
    (
        b"6 register 00\n4 policy 0\n5 enabled\n4 lock",
        &[
            b"",
            b"",
            b"",
            b"",
            b"policy 0\nlock\n",
            b"enabled\n",
            b"register 00\n",
        ],
    ),
];

#[test]
fn reads_each_processor(rt: HostRuntime) -> Result<(), Fail> {
    for (text, want) in PROCESSORS {
        let script = read_script(rt.alloc(), &spelled(&rt, text)?)?.into_processors();
        assert_eq!(rt; script.len(), want.len());
        for (calls, text) in script.iter().zip(want) {
            let texts = texts_of(&rt, calls)?;
            assert_eq!(rt; texts.as_slice(), spelled(&rt, text)?.as_slice());
        }
    }
    Ok(())
}

// Whether each of these lines is refused for a reason.
fn refuses(rt: &HostRuntime, reason: LineReason, lines: &[&[u8]]) -> Result<bool, Fail> {
    for line in lines {
        let fault = read_script(rt.alloc(), &spelled(rt, line)?).err();
        if fault != Some(ScriptFault::Line { number: 1, reason }) {
            return Ok(false);
        }
    }
    Ok(true)
}

#[test]
fn refuses_a_line_by_its_front(rt: HostRuntime) -> Result<(), Fail> {
    let table: [(LineReason, &[&[u8]]); 3] = [
        (
            LineReason::Text,
            &[
                b"0 get G A 16\r",
                b"0 get G \x80 1",
                b"x\x7f",
                b"8\x00",
                b" #\xff",
            ],
        ),
        (
            LineReason::Processor,
            &[
                b"x get G A 1",
                b"8 get",
                b"9 lock",
                b"00 get",
                b"- fly",
                b"schedule",
                b" schedule\t",
                b"schedule now",
            ],
        ),
        (
            LineReason::Verb,
            &[b"0 fly", b"0", b"1 fly", b"7", b"0 GET G A 1"],
        ),
    ];
    for (reason, lines) in table {
        assert!(rt; refuses(&rt, reason, lines)?, "{reason:?}");
    }
    Ok(())
}

// Lines whose words are refused, by the reason.
const BAD_WORDS: [(LineReason, &[&[u8]]); 6] = [
    (
        LineReason::Words,
        &[
            b"0 get",
            b"0 get G A",
            b"0 get x A 1 2",
            b"0 next G A",
            b"0 set G A 6",
            b"0 set",
            b"0 set G",
            b"0 set x A 6 01 good y",
            b"0 register",
            b"0 register zz 0",
            b"0 lock now",
            b"0 disable -",
            b"0 enabled 1",
            b"0 policy",
            b"0 policy x y",
            b"0 exitboot 0",
            b"0 exitboot - -",
        ],
    ),
    (
        LineReason::Guid,
        &[b"0 get 8be4 A 1", b"0 get - % x", b"0 set x A 6 01"],
    ),
    (
        LineReason::Name,
        &[
            b"0 get G A%00 1",
            b"0 get G %zzzz x",
            b"0 get G % 1",
            b"0 set G %004 x zz",
        ],
    ),
    (
        LineReason::Number,
        &[
            b"0 get G A 12x",
            b"0 get G A 0x",
            b"0 get G A 4294967296",
            b"0 get G A 0x100000000",
            b"0 get G A 0X10",
            b"0 get G A -",
            b"0 set G A 6x zz",
            b"0 policy -",
            b"0 policy 4294967296",
        ],
    ),
    (
        LineReason::Hex,
        &[
            b"0 set G A 6 abc",
            b"0 set G A 6 zz",
            b"0 set G A 6 0g good",
            b"0 set G A 6 0g worse",
            b"0 register 0",
            b"0 register -00",
        ],
    ),
    (
        LineReason::Verdict,
        &[
            b"0 set G A 6 01 Good",
            b"0 set G A 6 01 badly",
            b"0 set G A 6 01 -",
            b"0 set G A 0x27 - goo",
        ],
    ),
];

#[test]
fn refuses_a_line_by_its_words(rt: HostRuntime) -> Result<(), Fail> {
    for (reason, lines) in BAD_WORDS {
        assert!(rt; refuses(&rt, reason, lines)?, "{reason:?}");
    }
    Ok(())
}

#[test]
fn numbers_lines_from_one(rt: HostRuntime) {
    let table: [(u32, LineReason, &[u8]); 5] = [
        (2, LineReason::Processor, b"7 lock\nschedule\n7 end\n"),
        (1, LineReason::Verb, b"0 fly\n8\n"),
        (2, LineReason::Processor, b"# 8\n8\n0 fly\n"),
        (4, LineReason::Verb, b"\n# x\r\n \n0 fly\n"),
        (3, LineReason::Text, b"\r\n\t\n\r"),
    ];
    for (number, reason, text) in table {
        let fault = read_script(rt.alloc(), text).err();
        assert_eq!(rt; fault, Some(ScriptFault::Line { number, reason }));
    }
}

// A text of 20,000 calls of processor 5, and what follows it.
fn calls_of_five(rt: &HostRuntime, behind: &[u8]) -> Result<Vec<u8>, Fail> {
    let mut all = Vec::new(rt.alloc());
    for _ in 0..20_000 {
        all.extend_from_slice(b"5 lock\n")?;
    }
    all.extend_from_slice(behind)?;
    Ok(all)
}

#[test]
fn keeps_the_limit_of_each_processor(rt: HostRuntime) -> Result<(), Fail> {
    let script = read_script(
        rt.alloc(),
        &calls_of_five(&rt, b"0 lock\n7 lock")?,
    )?.into_processors();
    assert_eq!(rt; script.len(), 8);
    for (calls, want) in script.iter().zip([1, 0, 0, 0, 0, 20_000, 0, 1]) {
        assert_eq!(rt; calls.len(), want);
    }
    let text = calls_of_five(&rt, b"0 lock\n5 lock\n8")?;
    let fault = ScriptFault::TooManyCalls {
        processor: 5,
        limit: 20_000,
    };
    assert_eq!(rt; read_script(rt.alloc(), &text).err(), Some(fault));
    let fault = PlayFault::TooManyCalls {
        processor: 5,
        limit: 20_000,
    };
    assert_eq!(rt; read_play(rt.alloc(), &text).err(), Some(fault));
    Ok(())
}

// A text of 20,000 calls, and what follows it.
fn many_calls(rt: &HostRuntime, behind: &[u8]) -> Result<Vec<u8>, Fail> {
    let mut all = Vec::new(rt.alloc());
    for _ in 0..20_000 {
        all.extend_from_slice(b"0 get 8be4df6193ca11d2aa0d00e098032b8c A 1\n")?;
    }
    all.extend_from_slice(&spelled(rt, behind)?)?;
    Ok(all)
}

#[test]
fn keeps_the_limits(rt: HostRuntime) -> Result<(), Fail> {
    let all = read_script(rt.alloc(), &many_calls(&rt, b"\n# no call\n")?)?.into_processors();
    for calls in &all {
        assert_eq!(rt; calls.len(), 20_000);
    }
    let table: [(&[u8], ScriptFault); 3] = [
        (
            b"0 get G A 1",
            ScriptFault::TooManyCalls {
                processor: 0,
                limit: 20_000,
            },
        ),
        (
            b"0 set G - 6 -\n8",
            ScriptFault::TooManyCalls {
                processor: 0,
                limit: 20_000,
            },
        ),
        (
            b"8",
            ScriptFault::Line {
                number: 20_001,
                reason: LineReason::Processor,
            },
        ),
    ];
    for (behind, fault) in table {
        assert_eq!(rt;
            read_script(rt.alloc(), &many_calls(&rt, behind)?).err(),
            Some(fault)
        );
    }
    let mut long = vec![in rt.alloc(); b'#'; 1_048_576]?;
    assert_eq!(rt; read_script(rt.alloc(), &long)?.processors(), 1);
    long.push(b'\n')?;
    let fault = ScriptFault::TooLong { bytes: 1_048_576 };
    assert_eq!(rt; read_script(rt.alloc(), &long).err(), Some(fault));
    Ok(())
}

#[test]
fn keeps_the_limit_of_a_name(rt: HostRuntime) -> Result<(), Fail> {
    for (units, fault) in [
        (1024, None),
        (
            1025,
            Some(ScriptFault::Line {
                number: 1,
                reason: LineReason::Name,
            }),
        ),
    ] {
        let mut line = spelled(&rt, b"0 get G ")?;
        for _ in 0..units {
            line.extend_from_slice(b"%0041")?;
        }
        line.extend_from_slice(b" 1")?;
        assert_eq!(rt; read_script(rt.alloc(), &line).err(), fault);
    }
    Ok(())
}

// The text of a call.
fn written(rt: &HostRuntime, call: &Call) -> Result<Vec<u8>, Fail> {
    let mut out = TextBuffer::new(rt.alloc());
    write_call(call, &mut out);
    Ok(out.finish()?.into_vec())
}

#[test]
fn writes(rt: HostRuntime) -> Result<(), Fail> {
    let next = Call::Next(NextCall {
        guid: Guid::read_bytes(GUID)?,
        name: Units::new(rt.alloc(), &[0x41, 0x20])?,
        room: u32::MAX,
    });
    let want = spelled(&rt, b"next G A%0020 4294967295")?;
    assert_eq!(rt; written(&rt, &next)?.as_slice(), want.as_slice());
    let table: [(&[u16], u32, &[u8], Verdict, &[u8]); 4] = [
        (&[45], 6, &[], Verdict::Good, b"set G %002d 0x00000006 -"),
        (&[], 7, &[1, 255], Verdict::Good, b"set G - 0x00000007 01ff"),
        (
            &[37, 0x41, 0x0a],
            0xABCD,
            &[],
            Verdict::Bad,
            b"set G %0025A%000a 0x0000abcd - bad",
        ),
        (
            &[45, 45, 0xFFFF, 127],
            u32::MAX,
            &[0x7A; 2],
            Verdict::Bad,
            b"set G --%ffff%007f 0xffffffff 7a7a bad",
        ),
    ];
    for (name, attributes, bytes, verdict, want) in table {
        let call = Call::Set(SetCall {
            guid: Guid::read_bytes(GUID)?,
            name: Units::new(rt.alloc(), name)?,
            attributes,
            bytes: Bytes::copy(rt.alloc(), bytes)?,
            verdict,
        });
        assert_eq!(rt;
            written(&rt, &call)?.as_slice(),
            spelled(&rt, want)?.as_slice()
        );
    }
    Ok(())
}
