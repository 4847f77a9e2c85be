//! Schedules that are accepted and refused, by tables.

use super::*;
use std::test::Fail;

// Two processors with a call each; the schedule's lines begin at the fourth line.
const FRONT: &[u8] = b"0 lock\n1 lock\nschedule\n";

// A text with these lines behind another.
fn joined(rt: &HostRuntime, front: &[u8], lines: &[u8]) -> Result<Vec<u8>, Fail> {
    let mut all = Vec::new(rt.alloc());
    all.extend_from_slice(front)?;
    all.extend_from_slice(lines)?;
    Ok(all)
}

fn steps(processor: u8, count: u32) -> Turn {
    Turn::Steps { processor, count }
}

fn to_end(processor: u8) -> Turn {
    Turn::End { processor }
}

#[test]
fn reads_turns(rt: HostRuntime) -> Result<(), Fail> {
    let table: [(&[u8], &[Turn]); 17] = [
        (b"", &[]),
        (b"\n \n\t\r\n# 0 1\n#\x80\xff\n", &[]),
        (b"0 1", &[steps(0, 1)]),
        (b"0 1\n", &[steps(0, 1)]),
        (b"1 0\r\n", &[steps(1, 0)]),
        (b"1 end", &[to_end(1)]),
        (b" \t1\tend \t\n", &[to_end(1)]),
        (b"0x1 0x1f", &[steps(1, 31)]),
        (b"0x00 0xFF", &[steps(0, 255)]),
        (b"0001 00000000000000000012", &[steps(1, 12)]),
        (b"0 4294967295", &[steps(0, u32::MAX)]),
        (b"1 0x0fffFFFFF", &[steps(1, u32::MAX)]),
        (b"0 1000000", &[steps(0, 1_000_000)]),
        (b"0x1 end", &[to_end(1)]),
        (b"0 2\n0 2\n", &[steps(0, 2), steps(0, 2)]),
        (
            b"0 7\n# x\n\n1 end\n0 end",
            &[steps(0, 7), to_end(1), to_end(0)],
        ),
        (b"1 9\n0 8\n1 7", &[steps(1, 9), steps(0, 8), steps(1, 7)]),
    ];
    for (lines, want) in table {
        let PlayScript { script, schedule } = read_play(rt.alloc(), &joined(&rt, FRONT, lines)?)?;
        let Schedule { turns, power } = schedule;
        assert_eq!(rt; script.processors(), 2);
        assert_eq!(rt; turns.as_slice(), want);
        assert_eq!(rt; power, None);
    }
    Ok(())
}

#[test]
fn reads_the_loss_of_power(rt: HostRuntime) -> Result<(), Fail> {
    let table: [(&[u8], &[Turn], PowerLoss); 6] = [
        (b"power before", &[], PowerLoss::Before),
        (b"\tpower  half \n", &[], PowerLoss::Half),
        (b"power after\r\n", &[], PowerLoss::After),
        (
            b"0 3\n1 end\npower half",
            &[steps(0, 3), to_end(1)],
            PowerLoss::Half,
        ),
        (
            b"0 3\npower before\n\n# x\n#\xff\n \t\n\r\n",
            &[steps(0, 3)],
            PowerLoss::Before,
        ),
        (b"# power half\npower after\n#", &[], PowerLoss::After),
    ];
    for (lines, want, loss) in table {
        let PlayScript { schedule, .. } = read_play(rt.alloc(), &joined(&rt, FRONT, lines)?)?;
        let Schedule { turns, power } = schedule;
        assert_eq!(rt; turns.as_slice(), want);
        assert_eq!(rt; power, Some(loss));
    }
    Ok(())
}

// Texts, how many processors they have, and how many turns.
const BEGINNINGS: [(&[u8], usize, usize); 13] = [
    (b"", 1, 0),
    (b"\n# schedule\n#schedule\n", 1, 0),
    (b"0 lock", 1, 0),
    (b"3 lock\n", 4, 0),
    (b"schedule", 1, 0),
    (b"schedule\n0 end", 1, 1),
    (b"7 lock\nschedule\n7 end\n0 5\n", 8, 2),
    (b" schedule \n0 end\n", 1, 1),
    (b"\tschedule\t\r\n0 end\r\n0 2\r\n", 1, 2),
    (b"schedule\r\n", 1, 0),
    (b"\n\n2 lock\n#\xff\nschedule\n# schedule\n2 1", 3, 1),
    (b"1 lock\n1 lock\nschedule\n1 end\n1 end\n0 1\n", 2, 3),
    (b"4 lock\nschedule\n\n3 0x10\n\n", 5, 1),
];

#[test]
fn finds_where_a_schedule_begins(rt: HostRuntime) -> Result<(), Fail> {
    for (text, processors, count) in BEGINNINGS {
        let PlayScript { script, schedule } = read_play(rt.alloc(), text)?;
        let Schedule { turns, power } = schedule;
        assert_eq!(rt; script.processors(), processors);
        assert_eq!(rt; turns.len(), count);
        assert_eq!(rt; power, None);
    }
    Ok(())
}

fn bad_line(number: u32, reason: LineReason) -> PlayFault {
    PlayFault::Line { number, reason }
}

// Lines of no form.
const BAD_LINES: [&[u8]; 40] = [
    b"0",
    b"end",
    b"power",
    b"schedule",
    b" schedule \r\n0 1",
    b"lock",
    b"0 1 2",
    b"0 end end",
    b"power half half",
    b"0 lock now",
    b"x 1",
    b"0 x",
    b"0 -1",
    b"-1 0",
    b"+0 1",
    b"0 +1",
    b"end 0",
    b"end end",
    b"0 END",
    b"0 ends",
    b"0 en",
    b"power later",
    b"power Half",
    b"power end",
    b"power 1",
    b"Power half",
    b"half power",
    b"0 power",
    b"0 0x",
    b"0x 0",
    b"0 0X1",
    b"0 1f",
    b"0 4294967296",
    b"0 0x100000000",
    b"4294967296 0",
    b"0 1\r",
    b"0 1\x0b",
    b"\x80",
    b" # 1",
    b"9 x",
];

#[test]
fn refuses_lines_of_no_form(rt: HostRuntime) -> Result<(), Fail> {
    for line in BAD_LINES {
        let fault = read_play(rt.alloc(), &joined(&rt, FRONT, line)?).err();
        assert_eq!(rt; fault, Some(bad_line(4, LineReason::Schedule)));
    }
    Ok(())
}

// Lines of a schedule, and the line of the first that is bad.
const FIRST_BAD: [(&[u8], u32); 14] = [
    (b"0 1\n1 end\n\n# x\nx", 8),
    (b"x\n2 1", 4),
    (b"9 x\n2 1", 4),
    (b"0 1\n9 end end\n2 1\n", 5),
    (b"power half\n0 1", 4),
    (b"power half\n\n# x\n1 end\n", 4),
    (b"power before\npower before", 4),
    (b"0 1\npower after\nx", 5),
    (b"0 1\npower after\n2 1", 5),
    (b"power half\nschedule", 4),
    (b"power half\n#\n\x80", 4),
    (b"power half\n #", 4),
    (b"power half\n\r", 4),
    (b"x\npower half\n0 1", 4),
];

// Lines of a schedule, and the line of the first that is for no processor.
const FIRST_ACTOR: [(&[u8], u32); 9] = [
    (b"2 1", 4),
    (b"2 end", 4),
    (b"0x2 0", 4),
    (b"8 1", 4),
    (b"256 1", 4),
    (b"4294967295 4294967295", 4),
    (b"0 1\n\n# x\n7 end\nx", 7),
    (b"2 1\n9 x", 4),
    (b"2 1\npower half\n0 1", 4),
];

#[test]
fn refuses_line_by_line(rt: HostRuntime) -> Result<(), Fail> {
    for (lines, number) in FIRST_BAD {
        let fault = read_play(rt.alloc(), &joined(&rt, FRONT, lines)?).err();
        assert_eq!(rt; fault, Some(bad_line(number, LineReason::Schedule)));
    }
    for (lines, line) in FIRST_ACTOR {
        let fault = read_play(rt.alloc(), &joined(&rt, FRONT, lines)?).err();
        assert_eq!(rt; fault, Some(PlayFault::Actor { line }));
    }
    Ok(())
}

#[test]
fn refuses_calls_first(rt: HostRuntime) {
    let table: [(&[u8], PlayFault); 11] = [
        (b"8\nschedule\nx", bad_line(1, LineReason::Processor)),
        (
            b"0 lock\n0 fly\nschedule\n9 9",
            bad_line(2, LineReason::Verb),
        ),
        (b"0 lock\n\x80\nschedule\nx", bad_line(2, LineReason::Text)),
        (b"0 set\nschedule", bad_line(1, LineReason::Words)),
        (b"schedule now\n0 1", bad_line(1, LineReason::Processor)),
        (b"Schedule\n0 1", bad_line(1, LineReason::Processor)),
        (b"schedule\r", bad_line(1, LineReason::Text)),
        (b"0 schedule\n0 1", bad_line(1, LineReason::Verb)),
        (b"0 end\n", bad_line(1, LineReason::Verb)),
        (b"schedule\n1 1\nx", PlayFault::Actor { line: 2 }),
        (
            b"\n\n6 lock\n\nschedule\n6 1\n7 1",
            PlayFault::Actor { line: 7 },
        ),
    ];
    for (text, fault) in table {
        assert_eq!(rt; read_play(rt.alloc(), text).err(), Some(fault));
    }
}

#[test]
fn keeps_the_limit_of_a_schedule(rt: HostRuntime) -> Result<(), Fail> {
    let mut text = joined(&rt, b"schedule\n", b"")?;
    for _ in 0..262_141 {
        text.extend_from_slice(b"0 1\n")?;
    }
    text.extend_from_slice(b"0 1")?;
    assert_eq!(rt; text.len(), 1_048_576);
    let PlayScript { schedule, .. } = read_play(rt.alloc(), &text)?;
    let Schedule { turns, .. } = schedule;
    assert_eq!(rt; turns.len(), 262_142);
    text.push(b'\n')?;
    let fault = PlayFault::TooLong { bytes: 1_048_576 };
    assert_eq!(rt; read_play(rt.alloc(), &text).err(), Some(fault));
    Ok(())
}
