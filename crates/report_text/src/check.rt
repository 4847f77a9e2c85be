//! The check report: what an image keeps, counted.
ghost use Rattle.std.specs.Prelude.{◌≡◌, ◌<◌, ◌^◌, [], ◌∷◌, map, decimal, IfOk};
ghost use Rattle.var_region.specs.Found.{seen_variable};
ghost use Rattle.var_types.specs.Census.{records_room};
ghost use Rattle.var_types.specs.Room.{room_of};
ghost use Rattle.report_text.specs.Check.{check_text, facts_of, records_line, room_line, spare_line, store_line, tail_line, work_line};
ghost use Rattle.report_text.specs.Held.{entry_of};

use crate::variables::variables_of;
use crate::{CheckWord, Part, Word, write_line};
use std::alloc::Global;
use std::collections::BTreeMap;
use var_region::{Found, Region};
use var_types::{Key, OutOfMemory, Put, WorkState, align4, record_size};

/// The room of the records of an image's store.
const ROOM: u64 = 57_244;

/// What a check finds of an image: the form of its records, what its work area says, whether its spare is blank, and the census of what it
/// keeps.
#[derive(Clone, Copy, Debug, PartialEq, Eq)]
pub struct CheckFacts {
    pub plain: bool,
    pub work: WorkState,
    pub blank: bool,
    pub records: u32,
    pub added: u32,
    pub transition: u32,
    pub deleted: u32,
    pub other: u32,
    pub variables: u32,
    pub used: u32,
    pub clean: bool,
}

fn room_of(key: &Key, found: &Found) -> u32
    requires { room_of key.now (seen_variable found.now) < 2 ^ 32 }
    ensures { result ≡ room_of key.now (seen_variable found.now) }
{
    align4(record_size(&key.name, found.payload)) as u32
}

// The room of the records that are held.
fn used_room(held: &BTreeMap<Key, Found>) -> u32
    requires { records_room (map entry_of held.now.entries) < 2 ^ 32 }
    ensures { result ≡ records_room (map entry_of held.now.entries) }
{
    let mut used = 0;
    for (key, found) in held {
        used += room_of(key, found);
    }
    used
}

/// The facts of an image, by the region of its content; `Err` where its variables take more memory than there is.
#[tactic(auto, unfolding(var_types::specs::Census::census_of))]
pub fn check_facts(
    alloc: Global,
    region: &Region,
    work: WorkState,
    blank: bool,
) -> Result<CheckFacts, OutOfMemory>
    ensures { IfOk result (λ facts. facts ≡ facts_of region.now work blank) }
{
    let held = variables_of(alloc, region)?;
    let tally = region.tally();
    Ok(CheckFacts {
        plain: false,
        work,
        blank,
        records: tally.records,
        added: tally.added,
        transition: tally.transition,
        deleted: tally.deleted,
        other: tally.other,
        variables: held.len() as u32,
        used: used_room(&held),
        clean: region.tail().clean,
    })
}

#[tactic(auto, unfolding(crate::specs::Check::store_line))]
fn write_store<P: Put>(plain: bool, out: &mut P)
    ensures { P.Puts out.old out.new (store_line plain) }
{
    let form = if plain {
        CheckWord::Plain
    } else {
        CheckWord::Authenticated
    };
    write_line(&[Part::Word(Word::Store), Part::Check(form)], out);
}

#[tactic(auto, unfolding(crate::specs::Check::work_line))]
fn write_work<P: Put>(work: WorkState, out: &mut P)
    ensures { P.Puts out.old out.new (work_line work) }
{
    let word = Part::Check(CheckWord::Work);
    match work {
        WorkState::Unclean => write_line(&[word, Part::Check(CheckWord::Unmade)], out),
        WorkState::Clean { slots } => {
            let slots = Part::Number(u64::from(slots));
            write_line(&[word, Part::Check(CheckWord::Clean), slots], out)
        }
        WorkState::Pending { slot } => {
            let slot = Part::Number(u64::from(slot));
            write_line(&[word, Part::Check(CheckWord::Pending), slot], out)
        }
    }
}

#[tactic(auto, unfolding(crate::specs::Check::spare_line))]
fn write_spare<P: Put>(blank: bool, out: &mut P)
    ensures { P.Puts out.old out.new (spare_line blank) }
{
    let state = if blank {
        CheckWord::Blank
    } else {
        CheckWord::Used
    };
    write_line(&[Part::Check(CheckWord::Spare), Part::Check(state)], out);
}

#[tactic(auto, unfolding(crate::specs::Check::records_line))]
fn write_records<P: Put>(facts: &CheckFacts, out: &mut P)
    ensures { P.Puts out.old out.new (records_line facts.now) }
{
    let parts = [
        Part::Check(CheckWord::Records),
        Part::Number(u64::from(facts.records)),
        Part::Check(CheckWord::Added),
        Part::Number(u64::from(facts.added)),
        Part::Check(CheckWord::Transition),
        Part::Number(u64::from(facts.transition)),
        Part::Check(CheckWord::Deleted),
        Part::Number(u64::from(facts.deleted)),
        Part::Check(CheckWord::Other),
        Part::Number(u64::from(facts.other)),
    ];
    write_line(&parts, out);
}

#[tactic(auto, unfolding(crate::specs::Check::room_line))]
fn write_room<P: Put>(facts: &CheckFacts, out: &mut P)
    ensures { P.Puts out.old out.new (room_line facts.now) }
{
    let parts = [
        Part::Word(Word::Variables),
        Part::Number(u64::from(facts.variables)),
        Part::Check(CheckWord::Used),
        Part::Number(u64::from(facts.used)),
        Part::Word(Word::Room),
        Part::Number(ROOM),
    ];
    write_line(&parts, out);
}

#[tactic(auto, unfolding(crate::specs::Check::tail_line))]
fn write_tail<P: Put>(clean: bool, out: &mut P)
    ensures { P.Puts out.old out.new (tail_line clean) }
{
    let state = if clean {
        CheckWord::Clean
    } else {
        CheckWord::Dirty
    };
    write_line(&[Part::Check(CheckWord::Tail), Part::Check(state)], out);
}

/// Puts the check report of an image.
#[tactic(auto, unfolding(crate::specs::Check::check_text))]
pub fn write_check<P: Put>(facts: &CheckFacts, out: &mut P)
    ensures { P.Puts out.old out.new (check_text facts.now) }
{
    write_line(&[Part::Word(Word::Image), Part::Check(CheckWord::Ok)], out);
    write_store(facts.plain, out);
    write_work(facts.work, out);
    write_spare(facts.blank, out);
    write_records(facts, out);
    write_room(facts, out);
    write_tail(facts.clean, out);
    write_line(&[Part::Word(Word::End)], out);
}
