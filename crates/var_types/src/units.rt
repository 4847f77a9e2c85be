ghost use Rattle.std.specs.Prelude.{◌≡◌, ◌==◌, ◌≤◌, length, map, IfOk, OnOk, IfErr};
ghost use Rattle.std.specs.Cmp.{partial_order_from_own_ties};
ghost use Rattle.std.specs.Cmp.Lexicographic.{slice_cmp};
ghost use Rattle.std.specs.Cmp.Rules.{comparing};
ghost use Rattle.std.specs.Int.{from_le_bytes, w16};
ghost use Rattle.std.specs.Ordering.{nat_cmp, as_partial_cmp};
ghost use Rattle.std.proofs.Common.{rules};
ghost use Rattle.var_types.specs.declared.units.UnitsFault.TheVariants.{OutOfMemory};
ghost use Rattle.var_types.specs.Layout.{most_units};
ghost use Rattle.var_types.specs.Live.{units_in};
ghost use Rattle.var_types.specs.Units.{RefusesUnits};
ghost use Rattle.var_types.specs.Values.{AreUnits};
ghost use lib.Pointwise.{pointwise};

use std::alloc::{AllocError, AllocFailed, Global};
use std::cmp::Ordering;
use std::marker::Model;
use thiserror::Error;

/// How many units the name of a call may have.
pub const MOST_UNITS: usize = 1024;

/// A list of units was not made.
#[derive(Clone, Copy, Debug, PartialEq, Eq, Error)]
pub enum UnitsFault {
    #[error("{units} units, of which 1024 are allowed")]
    TooMany { units: u64 },
    #[error("out of memory")]
    OutOfMemory,
}

impl From<AllocError> for UnitsFault {
    ghost from_gives = { λ _ e. e ≡ OutOfMemory };

    fn from(_: AllocError) -> Self {
        UnitsFault::OutOfMemory
    }
}

/// The UCS-2 units of a variable's name, without the final NUL; at most 1,024.
#[derive(Debug, Drop)]
pub struct Units {
    items: Vec<u16>,
}

impl Model for Units {
    ghost use Rattle.std.specs.Prelude.{ℕ, List, length, ◌≤◌};
    ghost use Rattle.var_types.specs.Layout.{most_units};

    ghost Value = { List ℕ };

    ghost view = { λ u. u.items.items };

    ghost invariant = { λ u. length u.items.items ≤ most_units };
}

impl Units {
    pub fn new(alloc: Global, units: &[u16]) -> Result<Self, UnitsFault>
        ensures ok { IfOk result (λ u. u ≡ units.now) }
        ensures limit { OnOk result (length units.now ≤ most_units) }
        ensures err { IfErr result (RefusesUnits units.now) }
    {
        if units.len() > MOST_UNITS {
            return Err(UnitsFault::TooMany {
                units: units.len() as u64,
            });
        }
        Ok(Units {
            items: units.to_vec(alloc)?,
        })
    }

    /// The units of a vector, without a copy.
    pub fn from_vec(items: Vec<u16>) -> Self
        requires { length items.items ≤ most_units }
        ensures { result ≡ items.items }
    {
        Units { items }
    }

    /// The units that bytes are, low byte first; a last odd byte is none.
    #[tactic(auto, using(crate::proofs::PairedUnits::units_of_pairs))]
    pub fn from_le_bytes(alloc: Global, bytes: &[u8]) -> Result<Self, AllocError>
        requires { length (units_in bytes.now) ≤ most_units }
        ensures { IfOk result (λ units. units ≡ units_in bytes.now) }
    {
        let (pairs, _) = bytes.as_chunks::<2>();
        let items = numbers_of(alloc, pairs)?;
        Ok(Units { items })
    }

    /// Takes other units in place of its own, in the same memory where that is enough; out of memory, it has none.
    pub fn assign(&mut self, units: &Units) -> Result<(), AllocError>
        ensures ok { OnOk result (self.new ≡ units.now) }
    {
        self.items.clear();
        self.items.extend_from_slice(units.items.as_slice())
    }

    pub fn as_slice(&self) -> &[u16]
        ensures items { result.now ≡ self.now }
        ensures limit { length self.now ≤ most_units }
        ensures values { AreUnits self.now }
    {
        let items = self.items.as_slice();
        items
    }
}

// The numbers that pairs of bytes are, low byte first.
fn numbers_of(alloc: Global, pairs: &[[u8; 2]]) -> Result<Vec<u16>, AllocError>
    ensures { IfOk result (λ numbers. numbers.items ≡ map (from_le_bytes w16) pairs.now) }
{
    pairs
        .iter()
        .map(|pair| u16::from_le_bytes(*pair))
        .collect(alloc)
}

impl Clone for Units {
    ghost is_clone = { λ u v. v ≡ u };

    fn clone(&self) -> Result<Self, AllocError> {
        Ok(Units {
            items: self.items.to_vec(*self.items.allocator())?,
        })
    }
}

impl PartialEq for Units {
    ghost eq = { pointwise ◌==◌ };

    ghost laws = { Prim.search (comparing, rules) };

    fn eq(&self, other: &Self) -> bool {
        self.items.as_slice() == other.items.as_slice()
    }
}

impl Eq for Units {
    ghost laws = { Prim.search (comparing, rules) };
}

impl Ord for Units {
    ghost cmp = { slice_cmp nat_cmp };

    ghost total = { Prim.search (comparing, rules) };

    ghost matches_partial_cmp = { Prim.search (comparing, rules) };

    ghost matches_eq = { Prim.search (comparing, rules) };

    fn cmp(&self, other: &Self) -> Ordering {
        self.items.as_slice().cmp(other.items.as_slice())
    }
}

impl PartialOrd for Units {
    ghost partial_cmp = { as_partial_cmp (slice_cmp nat_cmp) };

    ghost laws = { partial_order_from_own_ties (Prim.search (comparing, rules)) (Prim.search (comparing, rules)) };

    fn partial_cmp(&self, other: &Self) -> Option<Ordering> {
        Some(self.cmp(other))
    }
}
