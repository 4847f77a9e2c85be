//! Request messages of a client, read from a stream in pieces, and written.
#![tactic(auto)]

mod bodies;
mod front;
mod inbox;
mod laws;
mod message_fault;
mod set_body;
mod sizes;
mod taken;
#[cfg(test)]
mod tests;
mod writing;

pub use inbox::Inbox;
pub use laws::{inbox_keeps_all, messages_have_one_spelling, the_longest_list_is_one};
pub use message_fault::MessageFault;
pub use sizes::message_size;
pub use taken::Taken;
pub use var_types::{Call, OutOfMemory};
pub use writing::write_request;
