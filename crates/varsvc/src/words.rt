//! The words of the command line, and what they ask for.
mod image_name;
mod number;
mod order;
mod parse;
mod reading;
mod usage;
mod verb;

pub use image_name::ImageName;
pub use number::number_of;
pub use order::Order;
pub use parse::{operand_in, parse, refusal_of};
pub use reading::read_words;
pub use usage::UsageFault;
pub use verb::{Verb, operand_word, takes_word, verb_of};
