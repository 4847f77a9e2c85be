//! The program over files: the words name the file of the image.
use crate::image::make_image_file;
use crate::output::{Plan, print_plan};
use crate::top::varsvc;
use crate::words::{Order, UsageFault, read_words};
use flash_dev::{FaultPlan, FileFlash, MemFlash, Torn};
use outside::{Sink, Source};
use std::alloc::Global;
use std::rt::Files;

// A flash without bytes, for words that name no image.
fn no_flash(alloc: Global) -> MemFlash {
    let plan = FaultPlan {
        fails: Vec::new(alloc),
        stop_at: None,
        torn: Torn::Before,
    };
    MemFlash::new(Vec::new(alloc), plan)
}

/// Does what the words ask for on the file that they name, and answers the exit status. `format` makes the file where there is none; where that
/// fails, the file can't be opened either, and the device is faulty.
pub fn run_on_files<R: Files, S: Source, K: Sink>(
    rt: &R,
    alloc: Global,
    words: &[String],
    script: &mut S,
    out: &mut K,
) -> u8
where
    R::File: Send,
{
    match read_words(alloc, words) {
        Ok(order) => run_order(rt, alloc, words, &order, script, out),
        Err(UsageFault::OutOfMemory) => print_plan(alloc, &Plan::NoMemory, out),
        Err(_) => varsvc(alloc, words, script, no_flash(alloc), out).status,
    }
}

fn run_order<R: Files, S: Source, K: Sink>(
    rt: &R,
    alloc: Global,
    words: &[String],
    order: &Order,
    script: &mut S,
    out: &mut K,
) -> u8
where
    R::File: Send,
{
    let Some(image) = order.image() else {
        return varsvc(alloc, words, script, no_flash(alloc), out).status;
    };
    let path = image.text();
    if let Order::Format { .. } = order {
        // A failure shows where the file is opened.
        let _ = make_image_file(rt, path);
    }
    varsvc(alloc, words, script, FileFlash::on(rt, path), out).status
}
