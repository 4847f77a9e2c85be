//! Reads of the two stores of variables as one map, and the cache of both that answers them.
#![tactic(auto)]

mod cache;
mod copies;
mod get_variable;
mod laws;
mod next_variable_name;
mod search;
#[cfg(test)]
mod tests;

pub use cache::Cache;
pub use copies::{copied_get, copied_next};
pub use get_variable::get;
pub use laws::merged_caches_are_the_stores;
pub use next_variable_name::next;
pub use search::{above, stored};
