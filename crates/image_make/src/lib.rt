//! Scripts and images that are made: the script of a number, the image without variables, and a flash in memory that never fails.
#![tactic(auto)]

mod blank;
mod calls;
mod laws;
mod parts;
mod script;
mod sure_flash;
#[cfg(test)]
mod tests;

pub use blank::{blank_flash, blank_image};
pub use calls::{generated_call, generated_calls};
pub use laws::{generated_scripts_are_read, numbers_modulo_256};
pub use parts::SCRIPT_CALLS;
pub use script::make_script;
pub use sure_flash::SureFlash;
