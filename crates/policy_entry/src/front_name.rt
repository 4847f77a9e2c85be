//! A name at the front of bytes, which ends with a NUL.
ghost use Rattle.std.specs.Prelude.{◌≡◌, ◌==◌, ◌+◌, ◌*◌, ◌<◌, ◌≤◌, false, length, position, count_by, IfSome, None};
ghost use Rattle.std.specs.Int.{from_le_bytes, w16};
ghost use Rattle.policy_entry.specs.Entry.{IsFrontName};
ghost use Rattle.var_types.specs.Live.{units_in};
ghost use Rattle.var_types.specs.Policies.{is_wildcard};
ghost use Rattle.var_types.specs.PolicyEntry.{is_name, is_name_length};

use var_types::LONGEST_NAME;

/// The wildcard `#`.
const WILDCARD: u16 = 0x23;

fn first_nul_pair(pairs: &[[u8; 2]]) -> Option<usize>
    ensures position { result ≡ position (λ pair. from_le_bytes w16 pair == 0) pairs.now }
    ensures within { IfSome result (λ at. at < length pairs.now) }
{
    pairs.iter().position(|pair| u16::from_le_bytes(*pair) == 0)
}

/// How many units stand before the first NUL.
#[tactic(auto, using(crate::proofs::Units::nul_of_pairs))]
fn first_nul(bytes: &[u8]) -> Option<usize>
    ensures position { result ≡ position (λ unit. unit == 0) (units_in bytes.now) }
    ensures within { IfSome result (λ at. 2 * at + 2 ≤ length bytes.now) }
{
    let (pairs, _) = bytes.as_chunks::<2>();
    first_nul_pair(pairs)
}

fn is_name_length(count: usize) -> bool
    ensures { result ≡ is_name_length count }
{
    1 <= count && count <= LONGEST_NAME
}

/// The name of 1 to 512 units before the first NUL.
pub(crate) fn front_name<'a>(bytes: &'a [u8]) -> Option<&'a [u8]>
    ensures none { result ≡ None → is_name (position (λ unit. unit == 0) (units_in bytes.now)) ≡ false }
    ensures some { IfSome result (λ name. IsFrontName bytes.now name.now) }
{
    let count = first_nul(bytes)?;
    if is_name_length(count) {
        Some(&bytes[..2 * count])
    } else {
        None
    }
}

fn count_wildcard_pairs(pairs: &[[u8; 2]]) -> usize
    ensures { result ≡ count_by (λ pair. is_wildcard (from_le_bytes w16 pair)) pairs.now }
{
    pairs
        .iter()
        .filter(|pair| u16::from_le_bytes(**pair) == WILDCARD)
        .count()
}

/// How many wildcards a name has.
#[tactic(auto, using(crate::proofs::Units::wildcards_of_pairs, crate::proofs::Units::few_wildcards))]
pub(crate) fn count_wildcards(name: &[u8]) -> usize
    ensures count { result ≡ count_by is_wildcard (units_in name.now) }
    ensures least { result ≤ length (units_in name.now) }
{
    let (pairs, _) = name.as_chunks::<2>();
    count_wildcard_pairs(pairs)
}
