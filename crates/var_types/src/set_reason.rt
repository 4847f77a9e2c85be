use crate::{NameFault, Rule, Stamp};

/// Why a set is refused. Sizes are in bytes.
#[derive(Clone, Copy, Debug, PartialEq, Eq)]
pub enum SetReason {
    /// The name is ill-formed.
    Name(NameFault),
    /// The attributes ask for a kind of write that this service doesn't do.
    Unsupported { bits: u32 },
    /// The attributes have bits that no attribute has.
    Unknown { bits: u32 },
    /// The variable would be seen after the operating system took over, but not before.
    RuntimeWithoutBoot,
    /// At runtime: callers don't see the variable that is stored.
    Hidden,
    /// At runtime: the variable that is stored is a volatile one.
    VolatileAtRuntime,
    /// At runtime: a new variable has to be a non-volatile one that callers see.
    RuntimeNeedsNonVolatile,
    /// The descriptor of a time-based set is broken at this offset.
    Descriptor { at: u32 },
    /// The variable's record would be larger than a record may be.
    Size { have: u64, limit: u32 },
    /// A rule of the policy that covers the variable denies the set.
    Denied { place: u32, rule: Rule },
    /// There is nothing to delete or to append to.
    Missing,
    /// The variable may be changed by an authenticated set alone.
    NeedsAuthentication,
    /// The attributes aren't those that the variable has.
    AttributesDiffer { stored: u32, asked: u32 },
    /// The signature was found to be bad.
    Verdict,
    /// The time stamp isn't later than that of the variable.
    Stamp { stored: Stamp, new: Stamp },
    /// The variable's record would be larger than a record may be, with the bytes that are stored before those appended.
    AppendSize { have: u64, limit: u32 },
    /// The store has less room than its variables would need.
    Room { need: u32, have: u32 },
    /// The history holds no more changes than those made.
    HistoryFull { made: u64 },
}
