//! The writer's side of the variable services on one thread: the non-volatile store on its flash, the volatile store in memory, the policies, the
//! phase, and the history of the changes.
#![tactic(auto)]

mod books;
mod calls;
mod changes;
#[cfg(test)]
mod doubt_tests;
mod edit;
mod editing;
mod engine;
mod failed_set;
#[cfg(test)]
mod flash_tests;
mod in_memory;
mod key_places;
mod key_view;
mod merging;
#[cfg(test)]
mod merging_tests;
mod opening;
#[cfg(test)]
mod plain_tests;
mod prepared;
#[cfg(test)]
mod tests;
mod totals;
mod view;
mod volatile_store;

pub use engine::Engine;
