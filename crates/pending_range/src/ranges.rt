ghost use Rattle.std.specs.Prelude.{◌≡◌, ℕ, ◌≤◌, ◌<◌, length};

use crate::range::Range;
use var_types::Store;

/// The offsets at which each store has changed since a cache last took them: one range per store. It takes no memory.
#[derive(Clone, Copy, Debug)]
pub struct Ranges {
    non_volatile: Range,
    volatile: Range,
}

impl Ranges {
    ghost use Rattle.pending_range.specs.Ranges.{IsCovered, IsWider, extended, is_covered, no_ranges, range_in, taken, whole_in, with_range};

    /// No offset of either store.
    #[tactic(auto, unfolding(crate::specs::Ranges::no_ranges))]
    pub fn empty() -> Ranges
        ensures { result ≡ no_ranges }
    {
        let none = Range { from: 0, to: 0 };
        Ranges {
            non_volatile: none,
            volatile: none,
        }
    }

    fn of(&self, store: Store) -> Range
        ensures { result ≡ range_in self.now store }
    {
        match store {
            Store::NonVolatile => self.non_volatile,
            Store::Volatile => self.volatile,
        }
    }

    fn put(&mut self, store: Store, range: Range)
        ensures { self.new ≡ with_range self.old store range }
    {
        match store {
            Store::NonVolatile => self.non_volatile = range,
            Store::Volatile => self.volatile = range,
        }
    }

    /// Covers the offsets of a store from `from` up to, and not with, `to` as well, and what lies between them and those covered before.
    pub fn extend(&mut self, store: Store, from: u32, to: u32)
        ensures is { self.new ≡ extended self.old store from to }
        ensures wider { IsWider self.old self.new }
        ensures covers { (at : ℕ) → from ≤ at → at < to → IsCovered self.new store at }
    {
        let range = self.of(store);
        self.put(store, range.joined(Range { from, to }));
    }

    /// Covers exactly the offsets of a store below 65,536.
    #[tactic(auto, unfolding(crate::specs::Ranges::whole_in))]
    pub fn whole(&mut self, store: Store)
        ensures { self.new ≡ whole_in self.old store }
    {
        self.put(
            store,
            Range {
                from: 0,
                to: 65_536,
            },
        );
    }

    /// Covers nothing any more.
    pub fn clear(&mut self)
        ensures { self.new ≡ no_ranges }
    {
        *self = Ranges::empty();
    }

    /// Whether an offset of a store is covered.
    #[tactic(auto, unfolding(crate::specs::Ranges::is_covered))]
    pub fn covers(&self, store: Store, at: u32) -> bool
        ensures { result ≡ is_covered self.now store at }
    {
        self.of(store).contains(at)
    }

    /// Copies the covered bytes of a store over those of an older copy of it.
    pub fn copy_covered(&self, store: Store, bytes: &[u8], into: &mut [u8])
        requires { length bytes.now ≡ length into.old }
        ensures { into.new ≡ taken (is_covered self.now store) bytes.now into.old }
    {
        let range = self.of(store);
        let to = bytes.len().min(range.to as usize);
        let from = to.min(range.from as usize);
        into[from..to].copy_from_slice(&bytes[from..to]);
    }
}
