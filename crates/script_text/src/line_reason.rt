use thiserror::Error;

/// Why a line of a script is refused.
#[derive(Clone, Copy, Debug, PartialEq, Eq, Error)]
pub enum LineReason {
    #[error("a byte is neither a tab nor a printable ASCII character")]
    Text,
    #[error("the first word is no digit from 0 to 7")]
    Processor,
    #[error("the second word is no verb")]
    Verb,
    #[error("the number of words is wrong")]
    Words,
    #[error("a word is no GUID")]
    Guid,
    #[error("a word is no name")]
    Name,
    #[error("a word is no number below 2^32")]
    Number,
    #[error("a word is no hexadecimal bytes")]
    Hex,
    #[error("a word is no verdict")]
    Verdict,
    #[error("the line is no line of a schedule")]
    Schedule,
}
