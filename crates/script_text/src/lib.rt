//! The text of a script: from its lines to calls and a schedule, and from a call to its text.
#![tactic(auto)]

mod call_lines;
mod call_text;
mod calls_end;
mod laws;
mod line_fault;
mod line_reason;
mod lines;
mod names;
mod numbers;
mod play;
mod play_fault;
mod play_script;
mod power_loss;
mod schedule;
mod schedule_line;
mod schedule_lines;
#[cfg(test)]
mod schedule_tests;
mod schedule_words;
mod script;
mod script_fault;
#[cfg(test)]
mod tests;
mod turn;
mod verb;
mod words;

pub use call_text::write_call;
pub use laws::calls_read_back;
pub use line_fault::LineFault;
pub use line_reason::LineReason;
pub use lines::{first_word, is_comment, is_wordless, text_line};
pub use names::name_of;
pub use numbers::number_of;
pub use play::read_play;
pub use play_fault::PlayFault;
pub use play_script::PlayScript;
pub use power_loss::PowerLoss;
pub use schedule::Schedule;
pub use schedule_line::ScheduleLine;
pub use script::{Script, read_script};
pub use script_fault::ScriptFault;
pub use turn::Turn;
pub use verb::Verb;
pub use words::{guid_word, three_words};
