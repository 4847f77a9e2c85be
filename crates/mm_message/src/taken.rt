use crate::MessageFault;
use var_types::Call;

/// What was taken from the front of an inbox.
#[derive(Debug, Drop)]
pub enum Taken {
    /// A whole message: a processor, from 0 to 7, and its call.
    Request { processor: u8, call: Call },
    /// No message is whole yet.
    More,
    Fault(MessageFault),
    /// Memory for a request's call was too short; it can be taken again.
    OutOfMemory,
}
