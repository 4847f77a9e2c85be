use crate::EntryFault;
use thiserror::Error;

/// Why a call about the policies is refused.
#[derive(Clone, Copy, Debug, PartialEq, Eq, Error)]
pub enum PolicyReason {
    #[error("the policies are locked")]
    Locked,
    #[error("the entry is refused: {0}")]
    Entry(EntryFault),
    /// A policy of the same namespace and name stands at this place.
    #[error("the policy at {place} has the same namespace and name")]
    Already { place: u32 },
    #[error("there are {entries} policies, and no more are allowed")]
    TableFull { entries: u32 },
    /// The history holds no more changes than those made.
    #[error("the history holds {made} changes, and no more are allowed")]
    HistoryFull { made: u64 },
    #[error("policy is off already")]
    AlreadyOff,
    /// There are this many policies, and none at the place.
    #[error("there are {entries} policies, and none at the place")]
    NoEntry { entries: u32 },
    #[error("out of memory")]
    OutOfMemory,
}
