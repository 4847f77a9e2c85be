//! A name that is lent, and how it compares to a name in a record.
ghost use Rattle.std.specs.Prelude.{◌≡◌};
ghost use Rattle.std.specs.Cmp.Lexicographic.{slice_cmp};
ghost use Rattle.std.specs.Ordering.{nat_cmp};
ghost use Rattle.var_types.specs.Live.{units_in};
ghost use Rattle.var_region.specs.Names.{first_and_rest, name_units};

use crate::name_bytes::next_unit;
use std::cmp::Ordering;

/// A name without its NUL, as a caller's units, or as a record's bytes.
#[derive(Clone, Copy, Debug)]
pub(crate) enum Name<'k> {
    Units(&'k [u16]),
    Bytes(&'k [u8]),
}

impl<'k> Name<'k> {
    /// The first unit, and the name behind it.
    fn split_first(self) -> Option<(u16, Name<'k>)>
        ensures { first_and_rest result ≡ name_units self.entry }
    {
        match self {
            Name::Units(units) => {
                let (first, rest) = units.split_first()?;
                Some((*first, Name::Units(rest)))
            }
            Name::Bytes(bytes) => {
                let (first, rest) = next_unit(bytes)?;
                Some((first, Name::Bytes(rest)))
            }
        }
    }
}

/// How a name compares to another that is lent as bytes.
pub(crate) fn order_name(name: &Name, other: &[u8]) -> Ordering
    ensures { result ≡ slice_cmp nat_cmp (name_units name.now) (units_in other.now) }
{
    let mut own = *name;
    let mut left = other;
    'units: while let Some((unit, rest)) = next_unit(left) {
        let Some((first, others)) = own.split_first() else {
            return Ordering::Less;
        };
        let order = first.cmp(&unit);
        if order.is_ne() {
            return order;
        }
        own = others;
        left = rest;
    }
    if own.split_first().is_none() {
        Ordering::Equal
    } else {
        Ordering::Greater
    }
}
