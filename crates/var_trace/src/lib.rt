//! The history of the changes, each with what it turned in the two stores' bytes, and the sessions of several processors.
#![tactic(auto)]

mod answers;
mod change;
mod delta;
mod entry;
mod laws;
mod piece;
mod session;
mod trace;

pub use answers::Answers;
pub use change::Change;
pub use delta::Delta;
pub use entry::Entry;
pub use laws::{changes_follow_the_history, spans_make_the_change};
pub use piece::Piece;
pub use session::Session;
pub use trace::Trace;
