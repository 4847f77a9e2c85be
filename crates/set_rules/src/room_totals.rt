ghost use Rattle.std.specs.Prelude.{◌≡◌};

use var_types::Store;

/// The room that the variables take in each store, in bytes.
#[derive(Clone, Copy)]
pub struct RoomTotals {
    pub non_volatile: u32,
    pub volatile: u32,
}

impl RoomTotals {
    ghost use Rattle.set_rules.specs.RoomTotals.{total_of, totals_with};

    pub fn of(self, store: Store) -> u32
        ensures { result ≡ total_of self store }
    {
        match store {
            Store::NonVolatile => self.non_volatile,
            Store::Volatile => self.volatile,
        }
    }

    pub fn with(self, store: Store, value: u32) -> RoomTotals
        ensures { result ≡ totals_with self store value }
    {
        match store {
            Store::NonVolatile => RoomTotals {
                non_volatile: value,
                volatile: self.volatile,
            },
            Store::Volatile => RoomTotals {
                non_volatile: self.non_volatile,
                volatile: value,
            },
        }
    }
}
