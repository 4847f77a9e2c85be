use thiserror::Error;

/// Bytes are no request messages. Of one message `Length` is answered as soon as its four bytes are there; the next three are tried on the
/// whole message, in this order.
#[derive(Clone, Copy, Debug, PartialEq, Eq, Error)]
pub enum MessageFault {
    #[error("a message of {value} bytes, of which 2 to 65536 are allowed")]
    Length { value: u32 },
    #[error("the processor {value}, and 7 is the last")]
    Processor { value: u8 },
    #[error("the kind {value}, and 8 is the last")]
    Kind { value: u8 },
    /// The body isn't of its kind's form.
    #[error("the body of a message of kind {kind} is ill-formed")]
    Form { kind: u8 },
    /// The input ended within a message, of which so many bytes were there, the length counted.
    #[error("the input ends after {have} bytes of a message")]
    Cut { have: u32 },
    /// More is there than the messages that are answered.
    #[error("more than {limit} messages")]
    Many { limit: u32 },
}
