//! Policies as text, and what of a store's variables breaks them.
#![tactic(auto)]

mod audit;
mod entries;
mod laws;
mod line_policy;
mod line_words;
mod names;
mod policies;
mod policy_line;
mod policy_line_fault;
mod policy_text_fault;
mod reading;
mod refusal;
#[cfg(test)]
mod tests;
mod values;
mod violation;
mod writing;

pub use audit::write_audit;
pub use entries::write_entries;
pub use laws::{entries_spell_policies, texts_read_back};
pub use policies::Policies;
pub use policy_line::PolicyLine;
pub use policy_text_fault::PolicyTextFault;
pub use reading::read_policies;
pub use refusal::write_refusal;
pub use violation::Violation;
pub use writing::{write_policies, write_policy_line};
