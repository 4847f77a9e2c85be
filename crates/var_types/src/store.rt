ghost use Rattle.std.specs.Prelude.{◌≡◌};

use crate::attributes::{NON_VOLATILE, has};

/// Where a variable is kept.
#[derive(Clone, Copy, Debug, PartialEq, Eq)]
pub enum Store {
    NonVolatile,
    Volatile,
}

impl Store {
    ghost use Rattle.var_types.specs.Attributes.{store_of};
    ghost use Rattle.var_types.specs.Room.{room_limit};

    /// The store of a variable with these attributes (UEFI 2.10, 8.2).
    pub fn of(attributes: u32) -> Store
        ensures { result ≡ store_of attributes }
    {
        if has(attributes, NON_VOLATILE) {
            Store::NonVolatile
        } else {
            Store::Volatile
        }
    }

    /// How many bytes the records of the store may take, with the gaps behind them.
    pub fn room_limit(self) -> u32
        ensures { result ≡ room_limit self }
    {
        match self {
            Store::NonVolatile => 57_244,
            Store::Volatile => 65_508,
        }
    }
}
