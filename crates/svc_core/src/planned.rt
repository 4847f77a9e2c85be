use crate::FlashStep;
use std::marker::Model;
use var_trace::Change;
use var_types::Reply;

/// What the writer does for a call: its reply, and for a change the flash steps in their order and what is recorded of it.
#[derive(Debug, Drop)]
pub struct Planned {
    pub reply: Reply,
    pub steps: Vec<FlashStep>,
    pub change: Option<Change>,
}

impl Model for Planned {
    ghost use Rattle.svc_core.specs.Plan.{Plan};

    ghost Value = { Plan };

    ghost view = { λ p. record { reply = p.reply; steps = p.steps.items; change = p.change } };
}
