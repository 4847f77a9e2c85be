//! The header of a variable's record in a store, as bytes and as fields, and the states of a record.
#![tactic(auto)]

mod header;
mod header_fault;
mod laws;
mod state;
#[cfg(test)]
mod tests;

pub use header::{HEADER_BYTES, Header, read_header, write_header};
pub use header_fault::HeaderFault;
pub use laws::{headers_read_back, states_have_their_numbers};
pub use state::{VAR_ADDED, VAR_DELETED, VAR_HEADER_VALID_ONLY, VAR_IN_DELETED_TRANSITION, clear};
