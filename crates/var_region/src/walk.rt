ghost use Rattle.std.specs.Prelude.{◌≡◌};
ghost use Rattle.std.specs.Iterator.{YieldsFirst, item_count};

use crate::Record;
use crate::records::{next_offset, record_at};
use std::marker::Model;

/// A walk over a region's records, one after the other, seen as the records that are left.
#[derive(Debug, Drop)]
pub struct Walk<'a> {
    pub(crate) bytes: &'a [u8],
    pub(crate) at: u32,
}

impl<'a> Model for Walk<'a> {
    ghost use Rattle.std.specs.Prelude.{List, length, ◌≤◌};
    ghost use Rattle.var_types.specs.declared.record.Record.{Record};
    ghost use Rattle.var_types.specs.Layout.{longest_region};
    ghost use Rattle.var_types.specs.Record.{Authenticated, records};

    ghost Value = { List Record };

    ghost view = { λ w. records Authenticated w.bytes.now w.at };

    ghost invariant = { λ w. length w.bytes.now ≤ longest_region };
}

impl<'a> Iterator for Walk<'a> {
    type Item = Record;

    ghost next_gives = { YieldsFirst (λ left. left) };

    ghost remaining = { item_count (λ left. left) };

    #[tactic(auto, using(var_types::proofs::Records::records_first, var_types::proofs::Records::records_none))]
    fn next(&mut self) -> Option<Record> {
        let found = record_at(self.bytes, self.at)?;
        self.at = next_offset(&found);
        Some(found)
    }
}
