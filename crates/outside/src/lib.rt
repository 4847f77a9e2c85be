//! Where the program's bytes come from and go to: a source and a sink as contracts see them, in memory and over std's streams.
#![tactic(auto)]

mod call_numbers;
mod failed;
mod mem_sink;
mod mem_source;
mod sink;
mod source;
mod std_sink;
mod std_source;
#[cfg(test)]
mod tests;

pub use failed::Failed;
pub use mem_sink::MemSink;
pub use mem_source::MemSource;
pub use sink::Sink;
pub use source::Source;
pub use std_sink::StdSink;
pub use std_source::StdSource;
