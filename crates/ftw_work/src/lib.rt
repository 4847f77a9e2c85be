//! The work area of fault-tolerant writes: what it says, and the steps that turn it. None of them takes memory.
#![tactic(auto)]

mod gates;
mod layout;
mod slots;
#[cfg(test)]
mod tests;
mod work_area;

pub use gates::{dest_done, make, spare_done};
pub use layout::{WORK_AREA_BYTES, WORK_AREA_OFFSET};
pub use slots::{Full, allot};
pub use work_area::state;
