//! The one-thread variable service over an ordered map, to which every other way of answering is compared.
#![tactic(auto)]

mod gets;
mod key_view;
mod map_view;
mod next;
mod plain;
#[cfg(test)]
mod policy_tests;
mod puts;
#[cfg(test)]
mod set_tests;
#[cfg(test)]
mod tests;

pub use plain::Plain;
