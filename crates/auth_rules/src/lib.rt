//! Which bytes are the descriptor of a time-based set, which of two time stamps is later, and what a set's signature and stamp come to.
#![tactic(auto)]

mod fields;
mod judgement;
mod laws;
mod reading;
#[cfg(test)]
mod tests;
mod times;

pub use judgement::judge;
pub use laws::judgements_are_the_rules;
pub use reading::read_descriptor;
pub use times::{is_later, later_of, no_stamp};
pub use var_types::{AuthFault, Descriptor, DescriptorFault};
