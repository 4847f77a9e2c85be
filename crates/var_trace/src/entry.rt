use std::marker::Model;
use var_types::Call;

/// A change of the history: its number, and the call that made it, which its processor made as the one of this index.
#[derive(Debug, Drop)]
pub struct Entry {
    pub number: u64,
    pub processor: u8,
    pub index: u32,
    pub call: Call,
}

impl Model for Entry {
    ghost use Rattle.var_types.specs.History.{Entry as HistoryEntry};

    ghost Value = { HistoryEntry };

    ghost view = { λ e. record { number = e.number; processor = e.processor; index = e.index; call = e.call } };
}
