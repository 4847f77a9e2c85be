//! The non-volatile store: a flash and a mirror of its volume in memory, whole at every moment. A power loss at any of them keeps the variables
//! from before a change, or those with it. What a put and a removal do to a store's bytes stands here for either store.
#![tactic(auto)]

mod adding;
mod anew;
mod in_place;
mod laws;
mod lists;
mod load_fault;
mod marking;
mod marks;
mod opening;
mod places;
mod spans;
mod store;
mod store_fault;
#[cfg(test)]
mod tests;
mod tidy;
mod turning;
mod within;
mod writing;

pub use anew::{put_anew, repack};
pub use laws::{changes_are_whole, openings_keep_the_variables};
pub use lists::Lists;
pub use load_fault::{LoadFault, LoadWhy};
pub use spans::{put_spans, remove_spans, size_of};
pub use store::NvStore;
pub use store_fault::StoreFault;
pub use tidy::is_tidy;
pub use within::{put_within, remove_within};
