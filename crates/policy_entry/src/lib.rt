//! The bytes of a policy's entry, read and written (EDK II, VARIABLE_POLICY_ENTRY).
#![tactic(auto)]

mod checks;
mod front_name;
mod laws;
mod names;
mod reading;
#[cfg(test)]
mod tests;
mod writing;

pub use laws::entries_read_back;
pub use reading::read_entry;
pub use var_types::{EntryFault, Lock, Policy};
pub use writing::write_entry;
