ghost use Rattle.std.specs.Prelude.{◌≡◌, ◌+◌, ◌≤◌, Some, IfSome, length};
ghost use Rattle.std.specs.BTreeMap.{is_at};
ghost use Rattle.std.specs.Map.{lookup};
ghost use Rattle.std.specs.Option.{option_map};
ghost use Rattle.var_types.specs.Census.{count_of};
ghost use Rattle.var_types.specs.Chosen.{chosen};
ghost use Rattle.var_types.specs.Key.{key_cmp, key_of};
ghost use Rattle.var_types.specs.Layout.{longest_region};
ghost use Rattle.var_types.specs.Record.{Authenticated};
ghost use Rattle.var_types.specs.Region.{entry_above, is_tail_clean, region_lives, region_map, region_records, tail_offset};
ghost use Rattle.var_region.specs.Found.{is_here, seen, seen_entry, seen_key, seen_variable};
ghost use Rattle.var_region.specs.Wanted.{bound_of};
ghost use Rattle.var_region.specs.Written.{fits_behind};

use crate::above::{above, bound_of};
use crate::find::search;
use crate::found::Found;
use crate::lives::Lives;
use crate::tail::{Tail, tail_of};
use crate::tally::{Tally, tally_of};
use crate::walk::Walk;
use crate::wanted::Wanted;
use std::marker::Model;
use var_types::{Guid, RecordKind};

/// A store's region: its bytes, the offset of its first record, and whether it is the non-volatile store's.
#[derive(Debug, Drop)]
pub struct Region<'a> {
    bytes: &'a [u8],
    first: u32,
    non_volatile: bool,
}

impl<'a> Model for Region<'a> {
    ghost use Rattle.std.specs.Prelude.{length, ◌≤◌};
    ghost use Rattle.var_types.specs.Record.{Authenticated};
    ghost use Rattle.var_types.specs.Layout.{longest_region};
    ghost use Rattle.var_types.specs.Region.{Region};

    ghost Value = { Region };

    ghost view = { λ r. record { form = Authenticated; bytes = r.bytes.now; first = r.first; non_volatile = r.non_volatile } };

    ghost invariant = { λ r. (r.first ≤ length r.bytes.now) × (length r.bytes.now ≤ longest_region) };
}

impl<'a> Region<'a> {
    /// The region that some bytes are, whose records begin at an offset.
    pub fn over(bytes: &'a [u8], first: u32, non_volatile: bool) -> Region<'a>
        requires first { first ≤ length bytes.now }
        requires few { length bytes.now ≤ longest_region }
        ensures { result ≡ record { form = Authenticated; bytes = bytes.now; first = first; non_volatile = non_volatile } }
    {
        Region {
            bytes,
            first,
            non_volatile,
        }
    }

    /// The region's bytes, those before its first record too.
    pub fn bytes(&self) -> &'a [u8]
        ensures bytes { result.now ≡ self.now.bytes }
        ensures few { length result.now ≤ longest_region }
    {
        self.bytes
    }

    /// A walk over the records.
    #[tactic(auto, unfolding(var_types::specs::Region::region_records))]
    pub fn walk(&self) -> Walk<'a>
        ensures { result ≡ region_records self.now }
    {
        Walk {
            bytes: self.bytes,
            at: self.first,
        }
    }

    /// A walk over the records that are variables', ADDED or in transition to deleted.
    #[tactic(auto, unfolding(var_types::specs::Region::region_records, var_types::specs::Region::region_lives, crate::specs::Lives::lives_at))]
    pub fn lives(&self) -> Lives<'a>
        ensures lives { result ≡ region_lives self.now }
        ensures few { length self.now.bytes ≤ longest_region }
        ensures within { self.now.first ≤ length self.now.bytes }
    {
        Lives {
            bytes: self.bytes,
            at: self.first,
            non_volatile: self.non_volatile,
        }
    }

    /// The offset behind the records, at most 3 past the end, and whether all bytes from there on are erased.
    #[tactic(auto, unfolding(var_types::specs::Region::region_records, var_types::specs::Region::tail_offset, var_types::specs::Region::is_tail_clean))]
    pub fn tail(&self) -> Tail
        ensures offset { result.at ≡ tail_offset self.now }
        ensures clean { result.clean ≡ is_tail_clean self.now }
        ensures limit { result.at ≤ length self.now.bytes + 3 }
    {
        tail_of(self.bytes, self.first)
    }

    /// How many records of which kind the region has, found in one pass.
    #[tactic(auto, unfolding(var_types::specs::Census::count_of, var_types::specs::Region::region_records))]
    pub fn tally(&self) -> Tally
        ensures records { result.records ≡ length (region_records self.now) }
        ensures added { result.added ≡ count_of RecordKind.Added self.now }
        ensures transition { result.transition ≡ count_of RecordKind.InTransition self.now }
        ensures deleted { result.deleted ≡ count_of RecordKind.Deleted self.now }
        ensures other { result.other ≡ count_of RecordKind.Other self.now }
    {
        tally_of(self.non_volatile, self.bytes, self.first)
    }

    /// Whether so many bytes fit behind the records: the tail is clean, and has the room. A size is in bytes, without the gap behind a record.
    pub fn fits(&self, size: u32) -> bool
        ensures { result ≡ fits_behind self.now size }
    {
        let tail = self.tail();
        tail.clean && u64::from(tail.at) + u64::from(size) <= self.bytes.len() as u64
    }

    /// The record that counts for a key: its first ADDED one, else its last in transition to deleted.
    #[tactic(auto, using(crate::proofs::LiveRecords::found_in_map))]
    pub fn find(&self, guid: &Guid, name: &[u16]) -> Option<Found<'a>>
        ensures counts { option_map seen result ≡ chosen (key_of guid.now name.now) (region_lives self.now) }
        ensures variable { option_map seen_variable result ≡ lookup (is_at (key_cmp (key_of guid.now name.now))) (region_map self.now) }
        ensures payload { IfSome result (λ f. length f.payload.now ≤ longest_region) }
    {
        search(self, &Wanted::new(guid, name))
    }

    /// Whether a live record that was found in the region is the one that counts for its key.
    pub fn counts(&self, found: &Found) -> bool
        ensures { result ≡ is_here found.now.at (chosen (seen_key found.now) (region_lives self.now)) }
    {
        match search(self, &Wanted::of(found)) {
            Some(counted) => counted.at == found.at,
            None => false,
        }
    }

    /// The record that counts for the least key that callers see: strictly above a key, or of all where the name is empty.
    pub fn above(&self, guid: &Guid, name: &[u16], runtime: bool) -> Option<Found<'a>>
        ensures entry { option_map seen_entry result ≡ entry_above self.now runtime (bound_of guid.now name.now) }
        ensures counts { IfSome result (λ f. chosen (seen_key f) (region_lives self.now) ≡ Some (seen f)) }
        ensures payload { IfSome result (λ f. length f.payload.now ≤ longest_region) }
    {
        above(self, &bound_of(guid, name), runtime)
    }
}
