use crate::{Bytes, PolicyReason};

/// What a call about the policies answers.
#[derive(Debug, Drop)]
pub enum PolicyReply {
    /// The change was made.
    Ok,
    /// Policy is on.
    On,
    /// Policy is off.
    Off,
    /// The bytes of a policy's entry.
    Entry(Bytes),
    Refused(PolicyReason),
    OutOfMemory,
}
