//! The table of policies: their calls, and what they say of a set (EDK II, VariablePolicyLib).
#![tactic(auto)]

mod answering;
mod judging;
mod registering;
mod state_view;
mod table;
#[cfg(test)]
mod tests;

pub use state_view::StateView;
pub use table::PolicyTable;
