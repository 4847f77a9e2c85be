ghost use Rattle.std.specs.Prelude.{◌≡◌};

use crate::{Bytes, Key, PolicyReply, SetReason};

/// What GetVariable answers.
#[derive(Debug, Drop)]
pub enum GetReply {
    NotFound,
    /// The variable has more bytes than the caller's buffer.
    TooSmall { attributes: u32, needed: u32 },
    Ok { attributes: u32, bytes: Bytes },
    OutOfMemory,
}

/// What GetNextVariableName answers.
#[derive(Debug, Drop)]
pub enum NextReply {
    /// The name that was handed in is no variable's.
    NoSuch,
    /// No variable comes after.
    End,
    /// The next name, with its NUL, has more bytes than the caller's buffer.
    TooSmall { needed: u32 },
    Ok { key: Key },
    OutOfMemory,
}

/// What SetVariable answers.
#[derive(Debug, Drop)]
pub enum SetReply {
    /// The change was made.
    Ok,
    /// The variable is as the call would make it, so nothing was changed.
    Same,
    Refused(SetReason),
    /// A step of the flash failed; what callers see is as it was.
    Device,
    OutOfMemory,
}

/// What the end of the boot phase answers.
#[derive(Clone, Copy, Debug, PartialEq, Eq)]
pub enum ExitReply {
    /// The phase is runtime from now on.
    Ok,
    /// It was already, so nothing was changed.
    Same,
    /// The history holds no more changes than those made.
    HistoryFull { made: u64 },
}

/// What a call answers.
#[derive(Debug, Drop)]
pub enum Reply {
    Get(GetReply),
    Next(NextReply),
    Set(SetReply),
    Policy(PolicyReply),
    Exit(ExitReply),
}

impl Reply {
    ghost use Rattle.var_types.specs.Step.{is_change};

    /// Whether it says that its call changed the state.
    pub fn is_change(&self) -> bool
        ensures { result ≡ is_change self.now }
    {
        match self {
            Reply::Set(SetReply::Ok)
            | Reply::Policy(PolicyReply::Ok)
            | Reply::Exit(ExitReply::Ok) => true,
            _ => false,
        }
    }
}
