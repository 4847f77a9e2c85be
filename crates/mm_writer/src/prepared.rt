ghost use Rattle.std.specs.Prelude.{◌≡◌, IfOk, length, map};
ghost use Rattle.var_trace.specs.Pieces.{piece_of};
ghost use Rattle.var_types.specs.Spans.{AreWithin};

use crate::books::Books;
use std::alloc::Global;
use var_trace::{Delta, Entry};
use var_types::{Call, OutOfMemory, SetCall, Span, Store};

/// A change before it is made, with all the memory that it takes: its entry, and the bytes that now stand where it will write.
#[derive(Drop)]
pub(crate) struct Prepared {
    pub(crate) entry: Entry,
    pub(crate) delta: Delta,
}

fn copy_of(call: &SetCall) -> Result<SetCall, OutOfMemory>
    ensures { IfOk result (λ copy. copy ≡ call.now) }
{
    Ok(SetCall {
        guid: call.guid,
        name: call.name.clone()?,
        attributes: call.attributes,
        bytes: call.bytes.clone()?,
        verdict: call.verdict,
    })
}

/// Whose call a change is: its processor's number, and its index among the calls of that processor.
#[derive(Clone, Copy, Debug)]
pub(crate) struct Caller {
    pub(crate) processor: u8,
    pub(crate) index: u32,
}

impl Books {
    /// Prepares a set that will write in these ranges of a store.
    pub(crate) fn prepare_set(
        &self,
        alloc: Global,
        caller: Caller,
        call: &SetCall,
        store: Store,
        bytes: &[u8],
        spans: &[Span],
    ) -> Result<Prepared, OutOfMemory>
        requires { AreWithin spans.now (length bytes.now) }
        ensures entry { IfOk result (λ p. p.entry
            ≡ record { number = length self.now.trace.log; processor = caller.processor; index = caller.index; call = Call.Set call.now }) }
        ensures delta { IfOk result (λ p. p.delta ≡ record { pieces = map (piece_of store bytes.now) spans.now; phase = self.now.runtime }) }
    {
        let call = Call::Set(copy_of(call)?);
        Ok(Prepared {
            entry: Entry {
                number: self.trace.len(),
                processor: caller.processor,
                index: caller.index,
                call,
            },
            delta: Delta::of(alloc, store, bytes, spans, self.runtime)?,
        })
    }
}
