ghost use Rattle.std.specs.Prelude.{◌≡◌, ℕ, ◌<◌, List, length};
ghost use Rattle.mm_writer.specs.Books.{Enters, IsPrepared, entered_in};
ghost use Rattle.pending_range.specs.Ranges.{IsCovered, IsWider};
ghost use Rattle.var_types.specs.Spans.{IsInside};

use pending_range::Ranges;
use std::alloc::Global;
use var_trace::{Delta, Entry, Trace, spans_make_the_change};
use var_types::{Span, Store};

/// What the writer's side keeps beside its stores and policies: the history, which bytes the cache has yet to take and how many changes it has
/// taken, and whether the phase is runtime.
#[derive(Drop)]
pub struct Books {
    pub(crate) trace: Trace,
    pub(crate) ranges: Ranges,
    pub(crate) flushed: u64,
    pub(crate) runtime: bool,
}

// Lets ranges cover the bytes in which a store was written.
fn extend_by(ranges: &mut Ranges, store: Store, spans: &[Span])
    ensures wider { IsWider ranges.old ranges.new }
    ensures covers { (at : ℕ) → IsInside at spans.now → IsCovered ranges.new store at }
{
    for span in spans {
        ranges.extend(store, span.from, span.to);
    }
}

impl Books {
    /// Enters a change of a store, whose bytes have become these in the ranges for which the change was prepared. It takes no memory.
    pub(crate) fn enter(
        &mut self,
        entry: Entry,
        mut delta: Delta,
        store: Store,
        spans: &[Span],
        bytes: &[u8],
    )
        requires room { length self.old.trace.log < self.old.trace.limit }
        requires prepared { (old : List ℕ) × IsPrepared store spans.now old bytes.now self.old.runtime delta }
        ensures { (old : List ℕ) → IsPrepared store spans.now old bytes.now self.old.runtime delta → Enters store old bytes.now entry self.old self.new }
    {
        spans_make_the_change();
        delta.refresh(bytes);
        extend_by(&mut self.ranges, store, spans);
        self.trace.push(entry, delta);
    }

    /// Enters a change that writes no bytes and leaves the service in a phase. It takes no memory.
    pub(crate) fn enter_in(&mut self, alloc: Global, entry: Entry, runtime: bool)
        requires { length self.old.trace.log < self.old.trace.limit }
        ensures { self.new ≡ entered_in self.old entry runtime }
    {
        self.trace.push(entry, Delta::none(alloc, runtime));
        self.runtime = runtime;
    }
}
