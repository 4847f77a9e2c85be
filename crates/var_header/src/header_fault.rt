use thiserror::Error;

/// No header was read.
#[derive(Clone, Copy, Debug, PartialEq, Eq, Error)]
pub enum HeaderFault {
    /// A header at this offset reaches past the end of the bytes.
    #[error("a header at {at} reaches past the end")]
    PastEnd { at: u64 },
    /// No StartId stands there.
    #[error("there is no StartId")]
    NoStart,
}
