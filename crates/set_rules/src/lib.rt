//! The set rule over anything that can tell what is stored: what a call of SetVariable comes to (UEFI 2.10, 8.2.3).
#![tactic(auto)]

mod call_cases;
mod front_cases;
mod reading;
mod refuse_if;
mod room_cases;
mod room_totals;
mod rule;
mod stored_cases;
#[cfg(test)]
mod tests;
mod view;

pub use room_totals::RoomTotals;
pub use rule::decide;
pub use view::{Stored, View};
