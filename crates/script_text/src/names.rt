ghost use Rattle.std.specs.Prelude.{◌≡◌, ◌<◌, ◌≤◌, length, option_map, Ok, IfOk, IfErr, IfSome};
ghost use Rattle.script_text.specs.FirstUnit.{escaped_front, first_unit, units_by};
ghost use Rattle.script_text.specs.GivesLine.{GivesLine, IsLineRefusal};
ghost use Rattle.script_text.specs.Names.{escaped_unit, units_of, name_within, name_of};
ghost use Rattle.var_types.specs.Layout.{most_units};

use crate::LineReason;
use crate::line_fault::LineFault;
use crate::numbers::{Base, digit};
use std::alloc::Global;
use var_types::{MOST_UNITS, Units};

fn escaped_unit(a: u8, b: u8, c: u8, d: u8) -> Option<u16>
    ensures { result ≡ escaped_unit a b c d }
{
    let a = digit(Base::Hexadecimal, a)?;
    let b = digit(Base::Hexadecimal, b)?;
    let c = digit(Base::Hexadecimal, c)?;
    let d = digit(Base::Hexadecimal, d)?;
    Some(u16::from(a) * 4096 + u16::from(b) * 256 + u16::from(c) * 16 + u16::from(d))
}

fn escaped_front(rest: &[u8]) -> Option<(u16, &[u8])>
    ensures value { option_map (λ x. (x.0, x.1.now)) result ≡ escaped_front rest.now }
    ensures shorter { IfSome result (λ x. length x.1.now ≤ length rest.now) }
{
    match rest {
        [a, b, c, d, behind @ ..] => {
            let unit = escaped_unit(*a, *b, *c, *d)?;
            Some((unit, behind))
        }
        _ => None,
    }
}

fn first_unit(word: &[u8]) -> Option<(u16, &[u8])>
    ensures value { option_map (λ x. (x.0, x.1.now)) result ≡ first_unit word.now }
    ensures shorter { IfSome result (λ x. length x.1.now < length word.now) }
{
    match word {
        [b'%', rest @ ..] => escaped_front(rest),
        [c @ b'!'..=b'~', rest @ ..] => Some((u16::from(*c), rest)),
        _ => None,
    }
}

fn units_of(alloc: Global, word: &[u8]) -> Result<Vec<u16>, LineFault>
    ensures ok { IfOk result (λ units. name_within (units_of word.now) ≡ Ok units.items) }
    ensures limit { IfOk result (λ units. length units.items ≤ most_units) }
    ensures err { IfErr result (λ e. IsLineRefusal e (name_within (units_of word.now))) }
{
    let mut units = Vec::with_capacity(alloc, word.len().min(MOST_UNITS))?;
    let mut rest = word;
    'units: while !rest.is_empty() {
        let Some((unit, behind)) = first_unit(rest) else {
            return Err(LineFault::Reason(LineReason::Name));
        };
        if units.len() >= MOST_UNITS {
            return Err(LineFault::Reason(LineReason::Name));
        }
        units.push(unit)?;
        rest = behind;
    }
    Ok(units)
}

/// The name of a word: none for `-`; `%` with four hexadecimal digits is a unit, as is any other character from `!` to `~`.
#[tactic(auto, unfolding(crate::specs::Names::name_of))]
pub fn name_of(alloc: Global, word: &[u8]) -> Result<Units, LineFault>
    ensures { GivesLine result (name_of word.now) }
{
    if word == b"-".as_slice() {
        return Ok(Units::from_vec(Vec::new(alloc)));
    }
    let units = units_of(alloc, word)?;
    Ok(Units::from_vec(units))
}
