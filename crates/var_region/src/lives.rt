ghost use Rattle.std.specs.Prelude.{◌≡◌, ◌≤◌, length};
ghost use Rattle.std.specs.Iterator.{YieldsFirstBy, item_count};
ghost use Rattle.var_types.specs.Layout.{longest_region};
ghost use Rattle.var_region.specs.Found.{seen};
ghost use Rattle.var_region.specs.Lives.{lives_at};

use crate::found::{Found, found_of};
use crate::records::{next_offset, record_at};
use std::marker::Model;

/// The next record from an offset on that is a variable's; the offset is then behind that record.
#[tactic(auto, using(crate::proofs::LiveRecords::lives_first, crate::proofs::LiveRecords::lives_none))]
fn next_live<'a>(non_volatile: bool, bytes: &'a [u8], at: &mut u32) -> Option<Found<'a>>
    requires { length bytes.now ≤ longest_region }
    ensures { YieldsFirstBy seen (lives_at non_volatile bytes.now) at.old result at.new }
{
    'records: while let Some(record) = record_at(bytes, *at) {
        *at = next_offset(&record);
        if let Some(found) = found_of(non_volatile, bytes, &record) {
            return Some(found);
        }
    }
    None
}

/// A walk over a region's records that are variables', seen as those that are left.
#[derive(Debug, Drop)]
pub struct Lives<'a> {
    pub(crate) bytes: &'a [u8],
    pub(crate) at: u32,
    pub(crate) non_volatile: bool,
}

impl<'a> Model for Lives<'a> {
    ghost use Rattle.std.specs.Prelude.{List, length, ◌≤◌};
    ghost use Rattle.var_types.specs.Layout.{longest_region};
    ghost use Rattle.var_types.specs.Live.{Live};
    ghost use Rattle.var_region.specs.Lives.{lives_at};

    ghost Value = { List Live };

    ghost view = { λ l. lives_at l.non_volatile l.bytes.now l.at };

    ghost invariant = { λ l. length l.bytes.now ≤ longest_region };
}

impl<'a> Lives<'a> {
    /// The same walk, from where this one stands.
    pub fn rest(&self) -> Lives<'a>
        ensures { result ≡ self.now }
    {
        Lives {
            bytes: self.bytes,
            at: self.at,
            non_volatile: self.non_volatile,
        }
    }
}

impl<'a> Iterator for Lives<'a> {
    type Item = Found<'a>;

    ghost next_gives = { YieldsFirstBy seen (λ left. left) };

    ghost remaining = { item_count (λ left. left) };

    fn next(&mut self) -> Option<Found<'a>> {
        next_live(self.non_volatile, self.bytes, &mut self.at)
    }
}
