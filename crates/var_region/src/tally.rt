//! The records of a region, counted by their kind.
ghost use Rattle.std.specs.Prelude.{◌≡◌, ◌+◌, ◌≤◌, ◌<◌, ◌^◌, true, length, if◌then◌else◌};
ghost use Rattle.var_types.specs.Census.{is_kind};
ghost use Rattle.var_types.specs.Layout.{longest_region};
ghost use Rattle.var_types.specs.Record.{Authenticated, records, whole_size};
ghost use Rattle.var_types.specs.declared.record_kind.RecordKind.{RecordKind as AnyKind};
ghost use Rattle.var_region.specs.Tallies.{IsWithinRecords, count_at, kind_at, of_kind};

use crate::found::found_of;
use crate::records::{next_offset, record_at};
use var_types::{Record, RecordKind, RecordState};

/// How many records of which kind a region has, those of a header only among them.
#[derive(Clone, Copy, Debug, PartialEq, Eq)]
pub struct Tally {
    pub records: u32,
    pub added: u32,
    pub transition: u32,
    pub deleted: u32,
    pub other: u32,
}

fn kind_of(non_volatile: bool, bytes: &[u8], record: &Record) -> RecordKind
    requires { record.now.whole ≡ true → record.now.at + whole_size Authenticated record.now.header ≤ length bytes.now }
    ensures { result ≡ kind_at non_volatile bytes.now record.now }
{
    match found_of(non_volatile, bytes, record) {
        Some(found) => match found.state {
            RecordState::Added => RecordKind::Added,
            RecordState::InDeletedTransition => RecordKind::InTransition,
        },
        None => {
            if record.header.state & 2 == 0 {
                RecordKind::Deleted
            } else {
                RecordKind::Other
            }
        }
    }
}

// A tally with one record more.
fn with_one(tally: Tally, kind: RecordKind) -> Tally
    requires within { IsWithinRecords tally }
    requires few { tally.records < 2 ^ 31 }
    ensures records { result.records ≡ tally.records + 1 }
    ensures counted { (wanted : AnyKind) → of_kind wanted result ≡ of_kind wanted tally + (if is_kind wanted kind then 1 else 0) }
    ensures within { IsWithinRecords result }
{
    let mut tally = tally;
    tally.records += 1;
    match kind {
        RecordKind::Added => tally.added += 1,
        RecordKind::InTransition => tally.transition += 1,
        RecordKind::Deleted => tally.deleted += 1,
        RecordKind::Other => tally.other += 1,
    }
    tally
}

/// The tally of the records from an offset on.
pub(crate) fn tally_of(non_volatile: bool, bytes: &[u8], first: u32) -> Tally
    requires first { first ≤ length bytes.now }
    requires few { length bytes.now ≤ longest_region }
    ensures records { result.records ≡ length (records Authenticated bytes.now first) }
    ensures counted { (wanted : AnyKind) → of_kind wanted result ≡ count_at wanted non_volatile bytes.now (records Authenticated bytes.now first) }
{
    let mut tally = Tally {
        records: 0,
        added: 0,
        transition: 0,
        deleted: 0,
        other: 0,
    };
    let mut at = first;
    'records: while let Some(record) = record_at(bytes, at) {
        tally = with_one(tally, kind_of(non_volatile, bytes, &record));
        at = next_offset(&record);
    }
    tally
}
