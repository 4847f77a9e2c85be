//! The core of the services on several processors: a world of steps, of which each order and each loss of power is legal.
#![tactic(auto)]

mod apply;
mod ask_rows;
mod buffers;
mod calls;
mod event;
mod events;
mod first;
mod flash_step;
mod flash_steps;
mod image;
mod laws;
mod look;
mod machine;
mod merge_rows;
mod planned;
mod point;
mod progress;
mod read_rows;
mod seat;
mod standing;
mod start;
mod world;
mod write_rows;
mod writes;

pub use event::{Event, Stepped};
pub use flash_step::FlashStep;
pub use flash_steps::FlashSteps;
pub use laws::{power_keeps, rows_keep, worlds_are_legal};
pub use planned::Planned;
pub use point::Point;
pub use world::World;
pub use writes::Writes;
