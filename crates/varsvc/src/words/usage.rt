use std::alloc::AllocError;
use thiserror::Error;

/// Why the words of the command line are refused. Words are numbered from 0, the verb included.
#[derive(Clone, Copy, Debug, PartialEq, Eq, Error)]
pub enum UsageFault {
    #[error("there is no verb")]
    NoVerb,
    #[error("the first word is no verb")]
    UnknownVerb,
    #[error("word {at} begins with a dash")]
    Dash { at: u64 },
    /// Both numbers count the words after the verb.
    #[error("{want} words are wanted after the verb, and {have} are there")]
    Missing { want: u32, have: u32 },
    #[error("word {at} is one too many")]
    Extra { at: u64 },
    #[error("the word after the verb is no number of 1 to 6 decimal digits")]
    Number,
    #[error("out of memory")]
    OutOfMemory,
}
