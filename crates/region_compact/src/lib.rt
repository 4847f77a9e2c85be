//! Compaction of a store's region into a buffer: the record that counts for each key is kept, with one of them replaced, added or dropped.
#![tactic(auto)]

mod compaction;
mod copying;
mod keeping;
mod laws;
mod no_room;
mod replace;
mod sizes;
#[cfg(test)]
mod tests;

pub use compaction::compact;
pub use laws::{
    compactions_keep_the_map, compactions_leave_added_alone, copies_keep_their_headers,
    sizes_are_the_room, variables_fit,
};
pub use no_room::NoRoom;
pub use replace::Replace;
pub use sizes::size_after;
