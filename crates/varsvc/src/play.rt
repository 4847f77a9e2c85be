//! Scripts with a schedule, played step by step.
mod play_plan;

pub use play_plan::plan_play;
