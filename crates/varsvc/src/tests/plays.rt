//! Plays of scripts with a schedule on an image without variables.
use crate::tests::calls::{Case, ROOM, run, script_of};
use std::alloc::{AllocError, Global};
use std::test::Fail;

const SET: &str = "0 set 8be4df61-93ca-11d2-aa0d-00e098032b8c X 7 01\n";

const GET: &str = "0 get 8be4df61-93ca-11d2-aa0d-00e098032b8c X 9\n";

/// Room for a report of 20,000 replies.
const LONG_ROOM: usize = 1_048_576;

// The status and the text of a play of a script.
fn play(alloc: Global, script: &[u8], room: usize) -> Result<(u8, Vec<u8>), AllocError> {
    let case = Case {
        words: &["play"],
        script,
        source_fails: &[],
        sink_fails: &[],
    };
    run(alloc, &case, room)
}

#[test]
fn three_processors_overlap(rt: HostRuntime) -> Result<(), Fail> {
    let script = format!(in rt.alloc();
        "{SET}{GET}{GET}1 set 8be4df61-93ca-11d2-aa0d-00e098032b8c X 7 02\n2 get 8be4df61-93ca-11d2-aa0d-00e098032b8c X 9\nschedule\n0 end\n0 2\n1 end\n2 end\n0 end\n0 end\n"
    )?;
    let text =
        b"history 2\n0 0 0 set 8be4df61-93ca-11d2-aa0d-00e098032b8c X 0x00000007 01\n1 1 0 set 8be4df61-93ca-11d2-aa0d-00e098032b8c X 0x00000007 02\nprocessor 0 calls 3\n0 0 flushed SUCCESS\n1 1 cache SUCCESS 0x00000007 01\n2 2 merged 2 1 SUCCESS 0x00000007 02\nprocessor 1 calls 1\n0 1 deferred 1 SUCCESS\nprocessor 2 calls 1\n0 2 writer 1 SUCCESS 0x00000007 02\nend\n";
    let done = play(rt.alloc(), script.as_bytes(), ROOM)?;
    assert_eq!(rt; done.0, 0);
    assert_eq!(rt; done.1.as_slice(), text.as_slice());
    Ok(())
}

#[test]
fn without_a_schedule_no_step_is_taken(rt: HostRuntime) -> Result<(), Fail> {
    let none = "history 0\nprocessor 0 calls 0\n";
    let cases = [
        ("", "end\n"),
        (SET, "end\n"),
        ("schedule\n", "end\n"),
        ("# no call\nschedule\n\n# no turn\n", "end\n"),
        ("schedule\npower half\n", "end\npower\nvariables 0\nend\n"),
        ("1 lock\nschedule\n1 0\n", "processor 1 calls 0\nend\n"),
    ];
    for (script, rest) in cases {
        let text = format!(in rt.alloc(); "{none}{rest}")?;
        let done = play(rt.alloc(), script.as_bytes(), ROOM)?;
        assert_eq!(rt; done.0, 0, "{script}");
        assert_eq!(rt; done.1.as_slice(), text.as_bytes(), "{script}");
    }
    Ok(())
}

#[test]
fn power_is_lost_within_a_first_set(rt: HostRuntime) -> Result<(), Fail> {
    // The lock is taken and the set decided; then come four steps of the flash, of which the last makes the record count.
    let cases = [
        (0, "after", false),
        (1, "after", false),
        (2, "after", false),
        (4, "after", false),
        (5, "before", false),
        (5, "half", true),
        (5, "after", true),
        // No step of the flash is left.
        (6, "before", true),
        (6, "after", true),
    ];
    for (steps, cut, kept) in cases {
        let script = format!(in rt.alloc(); "{SET}schedule\n0 {steps}\npower {cut}\n")?;
        let left = if kept {
            "1\n8be4df61-93ca-11d2-aa0d-00e098032b8c X 0x00000007 - 01"
        } else {
            "0"
        };
        let text = format!(in rt.alloc();
            "history 0\nprocessor 0 calls 0\nend\npower\nvariables {left}\nend\n"
        )?;
        let done = play(rt.alloc(), script.as_bytes(), ROOM)?;
        assert_eq!(rt; done.0, 0, "{steps} {cut}");
        assert_eq!(rt; done.1.as_slice(), text.as_bytes(), "{steps} {cut}");
    }
    Ok(())
}

#[test]
fn power_is_lost_within_an_update(rt: HostRuntime) -> Result<(), Fail> {
    // By how many steps of the second set were taken: the value behind each cut.
    let cases = [
        (2, ["01", "01", "01"]),
        (3, ["01", "01", "01"]),
        (4, ["01", "01", "01"]),
        (5, ["01", "01", "01"]),
        (6, ["01", "02", "02"]),
        (7, ["02", "02", "02"]),
        (8, ["02", "02", "02"]),
    ];
    for (steps, values) in cases {
        for (cut, value) in ["before", "half", "after"].iter().zip(values.iter()) {
            let script = format!(in rt.alloc();
                "{SET}0 set 8be4df61-93ca-11d2-aa0d-00e098032b8c X 7 02\nschedule\n0 end\n0 {steps}\npower {cut}\n"
            )?;
            let text = format!(in rt.alloc();
                "history 1\n0 0 0 set 8be4df61-93ca-11d2-aa0d-00e098032b8c X 0x00000007 01\nprocessor 0 calls 1\n0 0 flushed SUCCESS\nend\npower\nvariables 1\n8be4df61-93ca-11d2-aa0d-00e098032b8c X 0x00000007 - {value}\nend\n"
            )?;
            let done = play(rt.alloc(), script.as_bytes(), ROOM)?;
            assert_eq!(rt; done.0, 0, "{steps} {cut}");
            assert_eq!(rt; done.1.as_slice(), text.as_bytes(), "{steps} {cut}");
        }
    }
    Ok(())
}

#[test]
fn schedules_are_refused_by_their_first_bad_line(rt: HostRuntime) -> Result<(), Fail> {
    let cases = [
        ("0 x\n", "line 3 schedule"),
        ("0 1 2\n", "line 3 schedule"),
        ("# passed over\n\npower late\n", "line 5 schedule"),
        ("3 1\n", "line 3 actor"),
        // A line that is of no form is refused for that.
        ("3 x\n", "line 3 schedule"),
        ("3 1\n0 x\n", "line 3 actor"),
        ("0 x\n3 1\n", "line 3 schedule"),
        // Power is lost once, at the end.
        ("0 1\npower half\n# passed over\n0 1\n", "line 4 schedule"),
        ("power half\npower half\n", "line 3 schedule"),
    ];
    for (schedule, fault) in cases {
        let script = format!(in rt.alloc(); "{GET}schedule\n{schedule}")?;
        let line = format!(in rt.alloc(); "script {fault}\n")?;
        let done = play(rt.alloc(), script.as_bytes(), ROOM)?;
        assert_eq!(rt; done.0, 3, "{schedule}");
        assert_eq!(rt; done.1.as_slice(), line.as_bytes(), "{schedule}");
    }
    Ok(())
}

#[test]
fn calls_are_refused_as_a_run_does(rt: HostRuntime) -> Result<(), Fail> {
    let cases: [(&[(&str, usize)], &str); 4] = [
        (&[("0 fly\nschedule\n3 1\n", 1)], "script line 1 verb\n"),
        (&[("7 enabled\n", 20_001)], "script calls 7 20000\n"),
        (&[("#", 1_048_577)], "script bytes 1048576\n"),
        (
            &[("schedule\n", 1), ("#", 1_048_568)],
            "script bytes 1048576\n",
        ),
    ];
    for (parts, line) in cases {
        let script = script_of(rt.alloc(), parts)?;
        let done = play(rt.alloc(), &script, ROOM)?;
        assert_eq!(rt; done.0, 3, "{line}");
        assert_eq!(rt; done.1.as_slice(), line.as_bytes(), "{line}");
    }
    Ok(())
}

#[test]
fn failures_decide_the_status(rt: HostRuntime) -> Result<(), Fail> {
    let lost = "schedule\npower before\n";
    let cases: [(&str, &[u32], &[u32], usize, u8, &str); 5] = [
        ("", &[0], &[], ROOM, 6, "input fault\n"),
        ("", &[], &[0], ROOM, 5, ""),
        ("0 fly\n", &[], &[0], ROOM, 5, ""),
        (lost, &[1], &[], ROOM, 6, "input fault\n"),
        (lost, &[], &[], 10, 5, ""),
    ];
    for (script, source_fails, sink_fails, room, status, text) in cases {
        let case = Case {
            words: &["play"],
            script: script.as_bytes(),
            source_fails,
            sink_fails,
        };
        let done = run(rt.alloc(), &case, room)?;
        assert_eq!(rt; done.0, status, "{script}");
        assert_eq!(rt; done.1.as_slice(), text.as_bytes(), "{script}");
    }
    Ok(())
}

// A report in which each route that one processor alone may have is `-`.
fn without_routes(alloc: Global, report: &[u8]) -> Result<Vec<u8>, AllocError> {
    let mut plain = Vec::new(alloc);
    for (at, word) in report.split(|byte| *byte == b' ').enumerate() {
        if at > 0 {
            plain.push(b' ')?;
        }
        let is_route = word == b"flushed".as_slice() || word == b"cache".as_slice();
        plain.extend_from_slice(if is_route { b"-" } else { word })?;
    }
    Ok(plain)
}

#[test]
fn one_processor_is_played_as_it_is_run(rt: HostRuntime) -> Result<(), Fail> {
    let alloc = rt.alloc();
    let calls = format!(in alloc;
        "{SET}{GET}{SET}0 set 8be4df61-93ca-11d2-aa0d-00e098032b8c V 6 02\n0 set 8be4df61-93ca-11d2-aa0d-00e098032b8c - 6 02\n0 next 8be4df61-93ca-11d2-aa0d-00e098032b8c - 64\n0 lock\n0 lock\n0 enabled\n0 exitboot\n0 set 8be4df61-93ca-11d2-aa0d-00e098032b8c V 6 03\n{GET}0 set 8be4df61-93ca-11d2-aa0d-00e098032b8c X 0 -\n{GET}"
    )?;
    let case = Case {
        words: &["run", "vars.fd"],
        script: calls.as_bytes(),
        source_fails: &[],
        sink_fails: &[],
    };
    let ran = run(alloc, &case, ROOM)?;
    assert_eq!(rt; ran.0, 0);
    let script = format!(in alloc; "{calls}schedule\n0 4294967295\n")?;
    let played = play(alloc, script.as_bytes(), ROOM)?;
    assert_eq!(rt; played.0, 0);
    assert!(rt; played.1 != ran.1);
    let plain = without_routes(alloc, &played.1)?;
    assert_eq!(rt; plain.as_slice(), ran.1.as_slice());
    Ok(())
}

#[test]
fn eight_processors_are_played(rt: HostRuntime) -> Result<(), Fail> {
    let idle =
        "history 0\nprocessor 0 calls 0\nprocessor 1 calls 0\nprocessor 2 calls 0\nprocessor 3 calls 0\nprocessor 4 calls 0\nprocessor 5 calls 0\nprocessor 6 calls 0\n";
    let cases: [(usize, &str, &str, &str); 4] = [
        (1, "", "0\n", "calls 0\nend\n"),
        (1, "7 end\n", "1\n0 0 - SUCCESS on\n", "on\nend\n"),
        (20_000, "0 end\n", "0\n", "calls 0\nend\n"),
        (
            20_000,
            "7 4294967295\n",
            "20000\n0 0 - SUCCESS on\n",
            "\n19999 0 - SUCCESS on\nend\n",
        ),
    ];
    for (calls, schedule, first, last) in cases {
        let parts = [("7 enabled\n", calls), ("schedule\n", 1), (schedule, 1)];
        let script = script_of(rt.alloc(), &parts)?;
        let front = format!(in rt.alloc(); "{idle}processor 7 calls {first}")?;
        let done = play(rt.alloc(), &script, LONG_ROOM)?;
        assert_eq!(rt; done.0, 0, "{calls} {schedule}");
        assert!(rt; done.1.starts_with(front.as_bytes()), "{calls} {schedule}");
        assert!(rt; done.1.ends_with(last.as_bytes()), "{calls} {schedule}");
    }
    Ok(())
}

#[test]
fn a_processor_that_waits_takes_no_step(rt: HostRuntime) -> Result<(), Fail> {
    // Processor 0 has the writer's lock, for which processor 1 waits.
    let calls = "0 lock\n1 lock\nschedule\n0 1\n";
    let text =
        b"history 1\n0 0 0 lock\nprocessor 0 calls 1\n0 0 flushed SUCCESS\nprocessor 1 calls 1\n0 1 - WRITE_PROTECTED locked\nend\n";
    let cases: [(&str, usize); 4] = [
        ("1 1000000\n", 1),
        ("1 4294967295\n", 1),
        ("1 1000000\n", 100_000),
        ("1 end\n", 100_000),
    ];
    for (turn, count) in cases {
        let parts = [(calls, 1), (turn, count), ("0 end\n1 end\n", 1)];
        let script = script_of(rt.alloc(), &parts)?;
        let done = play(rt.alloc(), &script, ROOM)?;
        assert_eq!(rt; done.0, 0, "{turn}");
        assert_eq!(rt; done.1.as_slice(), text.as_slice(), "{turn}");
    }
    Ok(())
}
