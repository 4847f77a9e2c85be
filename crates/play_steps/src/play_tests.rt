//! Scripts with schedules, played on a blank image.
use crate::kept_check::kept_in;
use crate::test_worlds::expect;
use crate::tests::expect_overlap;
use crate::{Played, play};
use script_text::{LineReason, PlayFault};
use std::alloc::Global;
use std::process::Abort;
use std::test::Fail;
use var_types::{Bytes, Route};

/// Three processors, of which the first sets a variable and gets it twice, the second sets it anew, and the third gets it.
const THREE: &str = "0 set 07070707-0707-0707-0707-070707070707 X 7 01\n\
    0 get 07070707-0707-0707-0707-070707070707 X 9\n\
    0 get 07070707-0707-0707-0707-070707070707 X 9\n\
    1 set 07070707-0707-0707-0707-070707070707 X 7 02\n\
    2 get 07070707-0707-0707-0707-070707070707 X 9\n";

/// Two processors that each set the variable.
const TWO_SETS: &str = "0 set 07070707-0707-0707-0707-070707070707 X 7 01\n\
    1 set 07070707-0707-0707-0707-070707070707 X 7 02\n";

/// One processor that sets the variable.
const SET: &str = "0 set 07070707-0707-0707-0707-070707070707 X 7 01\n";

/// One processor that gets the variable twice.
const TWO_GETS: &str = "0 get 07070707-0707-0707-0707-070707070707 X 9\n\
    0 get 07070707-0707-0707-0707-070707070707 X 9\n";

/// A script with a schedule, played.
fn played(rt: &impl Abort, alloc: Global, script: &str, schedule: &str) -> Result<Played, Fail> {
    let text = format!(in alloc; "{script}schedule\n{schedule}")?;
    match play(alloc, text.as_bytes()) {
        Ok(played) => Ok(played),
        Err(_) => panic!(rt; "the script is refused"),
    }
}

/// How a script with a schedule is refused.
fn refusal(
    rt: &impl Abort,
    alloc: Global,
    script: &str,
    schedule: &str,
) -> Result<PlayFault, Fail> {
    let text = format!(in alloc; "{script}schedule\n{schedule}")?;
    match play(alloc, text.as_bytes()) {
        Ok(_) => panic!(rt; "the script is played"),
        Err(fault) => Ok(fault),
    }
}

/// The byte of the variable in what a loss of power left.
fn byte_left(rt: &impl Abort, alloc: Global, kept: Option<Bytes>) -> Result<Option<u8>, Fail> {
    let Some(kept) = kept else {
        panic!(rt; "power was not lost");
    };
    assert_eq!(rt; kept.as_slice().len(), 57_344);
    let mut image = kept.into_vec();
    image.resize(131_072, 0xFF)?;
    kept_in(rt, alloc, &image)
}

#[test]
fn three_processors_interleave(rt: HostRuntime) -> Result<(), Fail> {
    let turns = "0 end\n0 2\n1 end\n2 end\n0 end\n0 end\n";
    let played = played(&rt, rt.alloc(), THREE, turns)?;
    expect_overlap(&rt, &played.session);
    assert!(rt; played.kept.is_none());
    Ok(())
}

/// Power is lost behind so many steps of a first set, torn this way: the changes so far, and the byte that is left.
fn lose(rt: &impl Abort, alloc: Global, steps: u32, loss: &str) -> Result<(u64, Option<u8>), Fail> {
    let schedule = format!(in alloc; "0 {steps}\npower {loss}\n")?;
    let Played { session, kept } = played(rt, alloc, SET, schedule.as_str())?;
    Ok((session.made(), byte_left(rt, alloc, kept)?))
}

// The set takes two steps to its plan, and four of the flash: the header, its state, name and data, and the state byte that adds it.
#[test]
fn power_is_lost_at_the_steps_of_a_set(rt: HostRuntime) -> Result<(), Fail> {
    let alloc = rt.alloc();
    let table = [
        (0, "after", 0, None),
        (2, "after", 0, None),
        (4, "half", 0, None),
        (4, "after", 0, None),
        (5, "before", 0, None),
        (5, "half", 0, Some(1)),
        (5, "after", 0, Some(1)),
        (6, "before", 0, Some(1)),
        (7, "before", 1, Some(1)),
        (14, "half", 1, Some(1)),
    ];
    for (steps, loss, made, byte) in table {
        assert!(rt; lose(&rt, alloc, steps, loss)? == (made, byte));
    }
    Ok(())
}

#[test]
fn a_script_without_calls_is_played(rt: HostRuntime) -> Result<(), Fail> {
    let alloc = rt.alloc();
    let Played { session, kept } = played(&rt, alloc, "", "0 end\n0 7\npower half\n")?;
    assert_eq!(rt; session.processors.len(), 1);
    expect(&rt, &session, 0, &[]);
    assert_eq!(rt; byte_left(&rt, alloc, kept)?, None);
    Ok(())
}

#[test]
fn a_processor_that_waits_takes_no_step(rt: HostRuntime) -> Result<(), Fail> {
    let alloc = rt.alloc();
    let waiting = played(&rt, alloc, TWO_SETS, "0 1\n1 1000000\n1 end\n")?;
    expect(&rt, &waiting.session, 0, &[]);
    expect(&rt, &waiting.session, 1, &[]);
    let going = played(&rt, alloc, TWO_SETS, "0 1\n1 1000000\n0 end\n1 16\n")?;
    expect(&rt, &going.session, 0, &[(0, Route::Flushed, Some(0))]);
    expect(&rt, &going.session, 1, &[(1, Route::Flushed, Some(0))]);
    Ok(())
}

// A get from the cache takes six steps.
#[test]
fn turns_end_with_a_call_or_go_on_over_it(rt: HostRuntime) -> Result<(), Fail> {
    let alloc = rt.alloc();
    let one = [(0, Route::Cache, None)];
    let two = [(0, Route::Cache, None), (0, Route::Cache, None)];
    let ended = played(&rt, alloc, TWO_GETS, "0 end\n0 5\n")?;
    expect(&rt, &ended.session, 0, &one);
    let counted = played(&rt, alloc, TWO_GETS, "0 11\n")?;
    expect(&rt, &counted.session, 0, &one);
    let whole = played(&rt, alloc, TWO_GETS, "0 11\n0 end\n0 end\n0 100\n")?;
    expect(&rt, &whole.session, 0, &two);
    Ok(())
}

#[test]
fn scripts_and_schedules_are_refused(rt: HostRuntime) -> Result<(), Fail> {
    let alloc = rt.alloc();
    let of_line = |number, reason| PlayFault::Line { number, reason };
    assert!(rt; refusal(&rt, alloc, SET, "0 1\n1 end\n")? == PlayFault::Actor { line: 4 });
    assert!(rt; refusal(&rt, alloc, SET, "0 fly\n1 end\n")? == of_line(3, LineReason::Schedule));
    assert!(rt; refusal(&rt, alloc, "0 fly\n", "1 end\n")? == of_line(1, LineReason::Verb));
    let mut calls = String::new(alloc);
    for _ in 0..20_001u32 {
        calls.push_str("0 lock\n")?;
    }
    let many = PlayFault::TooManyCalls {
        processor: 0,
        limit: 20_000,
    };
    assert!(rt; refusal(&rt, alloc, calls.as_str(), "")? == many);
    Ok(())
}

// Processor 3 makes three calls, processor 7 one, and the others none.
#[test]
fn eight_processors_play(rt: HostRuntime) -> Result<(), Fail> {
    let alloc = rt.alloc();
    let script = "3 set 07070707-0707-0707-0707-070707070707 X 6 05\n\
        3 get 07070707-0707-0707-0707-070707070707 X 9\n\
        3 get 07070707-0707-0707-0707-070707070707 X 9\n\
        7 get 07070707-0707-0707-0707-070707070707 X 9\n";
    let played = played(
        &rt,
        alloc,
        script,
        "0 end\n3 end\n7 1\n3 end\n7 end\n3 100\n",
    )?;
    let session = &played.session;
    assert_eq!(rt; session.processors.len(), 8);
    for idle in [0, 1, 2, 4, 5, 6] {
        expect(&rt, session, idle, &[]);
    }
    let third = [
        (0, Route::Flushed, Some(0)),
        (1, Route::Writer { holder: 8 }, Some(5)),
        (1, Route::Cache, Some(5)),
    ];
    expect(&rt, session, 3, &third);
    expect(&rt, session, 7, &[(1, Route::Cache, Some(5))]);
    Ok(())
}
