ghost use Rattle.std.specs.Prelude.{◌≡◌};
ghost use Rattle.varsvc.specs.Outcome.{IsText, usage_row};
ghost use Rattle.varsvc.specs.Plan.{PlansText, status_of, text_of};

use crate::output::{Streamed, write_usage_line};
use crate::words::UsageFault;
use std::alloc::Global;
use var_types::{Bytes, TextBuffer};

/// What a call of the program is to print, and the status that it ends with if that is printed.
#[derive(Debug, Drop)]
pub enum Plan {
    Print { status: u8, text: Bytes },
    /// What is printed while it is written, so that it takes no memory of its own.
    Stream { streamed: Streamed },
    /// A read of the source failed.
    InputFault,
    /// A call of the flash failed.
    DeviceFault,
    /// The call is out of memory.
    NoMemory,
}

/// The plan to print what stands in a text with a status.
pub fn plan_text(status: u8, text: TextBuffer) -> Plan
    ensures { PlansText status text result }
{
    match text.finish() {
        Ok(text) => Plan::Print { status, text },
        Err(_) => Plan::NoMemory,
    }
}

/// Plans the line for refused words.
pub fn plan_usage(alloc: Global, fault: UsageFault) -> Plan
    ensures text { IsText (usage_row fault) (status_of result) (text_of result) }
    ensures memory { fault ≡ UsageFault.OutOfMemory → result ≡ Plan.NoMemory }
{
    if fault == UsageFault::OutOfMemory {
        return Plan::NoMemory;
    }
    let mut text = TextBuffer::new(alloc);
    write_usage_line(fault, &mut text);
    plan_text(2, text)
}
