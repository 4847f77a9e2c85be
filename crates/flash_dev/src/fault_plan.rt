use std::marker::Model;

/// What a call that is torn does before it fails.
#[derive(Clone, Copy, Debug, PartialEq, Eq)]
pub enum Torn {
    /// Nothing.
    Before,
    /// Programs the bytes at even offsets of its range, counted from the range's first byte, or leaves 0xA5 in its block.
    Half,
    /// All of it.
    After,
}

/// Which calls of a flash in memory fail, by their numbers from 0: those listed, and all from `stop_at` on. A program or an erase that fails
/// and isn't behind `stop_at` is torn.
#[derive(Debug, Drop)]
pub struct FaultPlan {
    pub fails: Vec<u32>,
    pub stop_at: Option<u32>,
    pub torn: Torn,
}

impl Model for FaultPlan {
    ghost use Rattle.flash_dev.specs.MemFlash.{PlannedFaults};

    ghost Value = { PlannedFaults };

    ghost view = { λ p. record { fails = p.fails.items; stop_at = p.stop_at; torn = p.torn } };
}
