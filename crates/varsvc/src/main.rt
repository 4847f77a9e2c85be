//! The variable services of UEFI: runs scripts of calls on images of the flash, plays scripts with a schedule, and lists, checks and formats images.
#![tactic(auto)]

mod asked_plan;
mod image;
mod input;
mod laws;
mod output;
mod play;
mod policies;
mod program;
mod run;
#[cfg(test)]
mod tests;
mod top;
mod words;

pub use laws::{
    blank_images_keep_nothing, calls_are_judged, one_text_one_session,
    runs_are_the_one_thread_services,
};
use output::{Plan, print_plan};
use outside::{StdSink, StdSource};
use program::run_on_files;
use std::env::Env;
use std::process::ExitCode;
use std::{env, io};
pub use top::{Done, varsvc, varsvc_plain};
pub use words::{ImageName, Order, UsageFault, read_words};

// The words behind the program's name. A word that isn't UTF-8 is no word, and then none are handed on.
fn words_of(rt: &(impl Env + AllocGlobal)) -> io::Result<Vec<String>> {
    let alloc = rt.alloc();
    match env::args(rt) {
        Ok(words) => Ok(words.skip(1).collect(alloc)?),
        Err(error) if error.kind() == io::ErrorKind::InvalidData => Ok(Vec::new(alloc)),
        Err(error) => Err(error),
    }
}

fn run_process(rt: &HostRuntime) -> ExitCode {
    let mut script = StdSource::on(rt.stdin());
    let mut out = StdSink::on(rt.stdout());
    let status = match words_of(rt) {
        Ok(words) => run_on_files(rt, rt.alloc(), &words, &mut script, &mut out),
        Err(_) => print_plan(rt.alloc(), &Plan::NoMemory, &mut out),
    };
    ExitCode::from(status)
}

fn main(rt: HostRuntime) -> ExitCode {
    run_process(&rt)
}
