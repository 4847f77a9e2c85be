ghost use Rattle.std.specs.Prelude.{◌≡◌, ◌+◌, ◌≤◌, length};
ghost use Rattle.var_types.specs.Layout.{longest_region};
ghost use Rattle.var_types.specs.Record.{Authenticated, is_clean, records, tail_from};

use crate::records::{next_offset, record_at};

/// Where a region's records end, and whether all bytes from there on are erased.
#[derive(Clone, Copy, Debug, PartialEq, Eq)]
pub struct Tail {
    pub at: u32,
    pub clean: bool,
}

#[tactic(auto, using(var_types::proofs::Records::records_first, var_types::proofs::Records::records_none))]
fn tail_offset(bytes: &[u8], first: u32) -> u32
    requires first { first ≤ length bytes.now }
    requires few { length bytes.now ≤ longest_region }
    ensures offset { result ≡ tail_from Authenticated first (records Authenticated bytes.now first) }
    ensures limit { result ≤ length bytes.now + 3 }
{
    let mut at = first;
    'records: while let Some(found) = record_at(bytes, at) {
        at = next_offset(&found);
    }
    at
}

fn is_erased(bytes: &[u8]) -> bool
    ensures { result ≡ is_clean bytes.now 0 }
{
    bytes.iter().all(|byte| *byte == 0xFF)
}

// The offset may stand past the end, where nothing is left.
#[tactic(auto, using(std::proofs::lemmas::List::take_rest, std::proofs::lemmas::List::drop_all))]
fn is_clean(bytes: &[u8], at: u32) -> bool
    ensures { result ≡ is_clean bytes.now at }
{
    let at = at as usize;
    if at >= bytes.len() {
        return true;
    }
    is_erased(&bytes[at..])
}

pub(crate) fn tail_of(bytes: &[u8], first: u32) -> Tail
    requires first { first ≤ length bytes.now }
    requires few { length bytes.now ≤ longest_region }
    ensures offset { result.at ≡ tail_from Authenticated first (records Authenticated bytes.now first) }
    ensures clean { result.clean ≡ is_clean bytes.now result.at }
    ensures limit { result.at ≤ length bytes.now + 3 }
{
    let at = tail_offset(bytes, first);
    Tail {
        at,
        clean: is_clean(bytes, at),
    }
}
