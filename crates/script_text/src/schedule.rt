use crate::{PowerLoss, Turn};
use std::marker::Model;

/// In which order processors take their steps, and whether power is lost behind the last of them.
#[derive(Debug, Drop)]
pub struct Schedule {
    pub turns: Vec<Turn>,
    pub power: Option<PowerLoss>,
}

impl Model for Schedule {
    ghost use Rattle.script_text.specs.Schedule.{ScheduleParts};

    ghost Value = { ScheduleParts };

    ghost view = { λ s. record { turns = s.turns.items; power = s.power } };
}
