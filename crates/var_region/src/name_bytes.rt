//! Names as a record's bytes: read unit by unit, never copied.
ghost use Rattle.std.specs.Prelude.{◌≡◌, ◌+◌, ◌*◌, ◌%◌, Some, length};
ghost use Rattle.std.specs.List.{list_any};
ghost use Rattle.std.specs.Option.{option_map};
ghost use Rattle.var_types.specs.Live.{before_nul, name_in, units_in, well_formed};
ghost use Rattle.var_region.specs.Names.{first_units, is_nul, lent_units};

use var_types::LONGEST_NAME;

fn unit_of(low: u8, high: u8) -> u16
    ensures { result ≡ low + 256 * high }
{
    u16::from(low) + 256 * u16::from(high)
}

/// The first unit, and the bytes behind it; a last odd byte is none.
pub(crate) fn next_unit(bytes: &[u8]) -> Option<(u16, &[u8])>
    ensures { first_units result ≡ units_in bytes.now }
{
    match bytes {
        [low, high, rest @ ..] => Some((unit_of(*low, *high), rest)),
        _ => None,
    }
}

fn has_nul(name: &[u8]) -> bool
    ensures { result ≡ list_any is_nul (units_in name.now) }
{
    let mut left = name;
    'units: while let Some((unit, rest)) = next_unit(left) {
        if unit == 0 {
            return true;
        }
        left = rest;
    }
    false
}

/// The bytes before a NUL at the end.
#[tactic(auto, using(crate::proofs::LentNames::before_nul_is, crate::proofs::LentNames::before_nul_none))]
fn before_nul(bytes: &[u8]) -> Option<&[u8]>
    requires { length bytes.now % 2 ≡ 0 }
    ensures { option_map lent_units result ≡ before_nul (units_in bytes.now) }
{
    let size = bytes.len();
    if size < 2 {
        return None;
    }
    if unit_of(bytes[size - 2], bytes[size - 1]) != 0 {
        return None;
    }
    Some(&bytes[..size - 2])
}

#[tactic(auto, using(crate::proofs::LentNames::length_units, crate::proofs::LentNames::well_formed_is))]
fn well_formed(name: &[u8]) -> Option<&[u8]>
    ensures { option_map lent_units result ≡ well_formed (Some (units_in name.now)) }
{
    let units = name.len() / 2;
    if units == 0 || units > LONGEST_NAME || has_nul(name) {
        return None;
    }
    Some(name)
}

/// The bytes of a well-formed name without its NUL, of those with it.
#[tactic(auto, unfolding(var_types::specs::Live::name_in))]
pub(crate) fn name_of(bytes: &[u8]) -> Option<&[u8]>
    ensures { option_map lent_units result ≡ name_in bytes.now (length bytes.now) }
{
    if bytes.len() % 2 != 0 {
        return None;
    }
    let name = before_nul(bytes)?;
    well_formed(name)
}
