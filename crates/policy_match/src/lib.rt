//! Which policy counts for a variable (EDK II, VariablePolicyLib).
#![tactic(auto)]

mod choice;
mod counted_policy;
mod matching;
#[cfg(test)]
mod tests;

pub use choice::best;
pub use counted_policy::CountedPolicy;
pub use matching::{matches, wildcards};
