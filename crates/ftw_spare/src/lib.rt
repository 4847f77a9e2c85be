//! The spare of fault-tolerant writes: what is written to it, and what is copied from it to the volume. None of these steps takes memory.
#![tactic(auto)]

mod blank_spare;
mod blocks;
mod copying;
mod layout;
#[cfg(test)]
mod tests;

pub use blank_spare::blank;
pub use copying::{copy_to_dest, erase_spare, fill_spare};
pub use layout::SPARE_OFFSET;
