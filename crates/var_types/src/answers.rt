use crate::Guid;

/// What GetVariable answers to a caller with a buffer: the variable's data stand at its front.
#[derive(Clone, Copy, Debug, PartialEq, Eq)]
pub enum GetAnswer {
    NotFound,
    /// The variable has more bytes than the caller has room for.
    TooSmall { attributes: u32, needed: u32 },
    /// How many bytes stand at the front of the buffer.
    Ok { attributes: u32, length: u32 },
}

/// What GetNextVariableName answers to a caller with a buffer: the units of the next name stand at its front.
#[derive(Clone, Copy, Debug, PartialEq, Eq)]
pub enum NextAnswer {
    /// The name that was handed in is no variable's.
    NoSuch,
    /// No variable comes after.
    End,
    /// The next name, with its NUL, has more bytes than the caller has room for.
    TooSmall { needed: u32 },
    /// How many units stand at the front of the buffer; no NUL is written behind them.
    Ok { guid: Guid, units: u32 },
}
