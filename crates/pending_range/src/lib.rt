//! Which bytes of the two stores a cache of them has yet to take: one range of offsets per store.
#![tactic(auto)]

mod laws;
mod range;
mod ranges;
#[cfg(test)]
mod tests;

pub use laws::{agreement_grows_with_the_ranges, ranges_are_least};
pub use ranges::Ranges;
