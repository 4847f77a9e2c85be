//! What is printed: lines and their parts, reports of sessions, listings, check reports and summaries, and the page before the sink.
#![tactic(auto)]

mod check;
mod check_word;
mod laws;
mod listing;
mod outlet;
mod page;
mod part;
mod policy_replies;
mod replies;
#[cfg(test)]
mod reply_tests;
mod report;
mod rule;
mod sizes;
mod stamp;
mod status;
mod summary;
#[cfg(test)]
mod tests;
mod variables;
mod word;

pub use check::{CheckFacts, check_facts, write_check};
pub use check_word::CheckWord;
pub use laws::{one_report_one_session, summaries_grow_by_a_call};
pub use listing::{write_found, write_listing};
pub use outlet::Outlet;
pub use page::Page;
pub use part::{Part, write_line, write_parts};
pub use report::write_session;
pub use sizes::{Sizes, variable_sizes};
pub use status::Status;
pub use summary::{Summary, summary_of, write_summary};
pub use variables::variables_of;
pub use word::Word;
