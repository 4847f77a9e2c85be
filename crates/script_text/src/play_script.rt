use crate::{Schedule, Script};
use std::marker::Model;

/// The calls of each processor, and the schedule of their steps.
#[derive(Debug, Drop)]
pub struct PlayScript {
    pub script: Script,
    pub schedule: Schedule,
}

impl Model for PlayScript {
    ghost use Rattle.script_text.specs.Schedule.{PlayParts};

    ghost Value = { PlayParts };

    ghost view = { λ p. record { calls = p.script; schedule = p.schedule } };
}
