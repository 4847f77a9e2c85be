//! How a cache of the stores takes the changes that it lacks.
ghost use Rattle.std.specs.Prelude.{◌≡◌, length};
ghost use Rattle.mm_writer.specs.Behind.{IsBehind, merged_side};
ghost use Rattle.var_trace.specs.StoresAfter.{bytes_at};

use crate::engine::Engine;
use flash_dev::Flash;
use pending_range::agreement_grows_with_the_ranges as ranges_agree;
use runtime_cache::{Cache, merged_caches_are_the_stores};
use var_trace::changes_follow_the_history;

impl<F: Flash> Engine<F> {
    /// Brings a cache up to date: it takes the bytes that the pending ranges cover, and the phase (EDK II, FlushPendingRuntimeVariableCacheUpdates).
    /// Then nothing is pending. It takes no memory, and looks at no record.
    pub fn merge_into(&mut self, cache: &mut Cache)
        requires behind { IsBehind self.old.1.1 cache.old }
        ensures side { self.new ≡ (self.old.0, (self.old.1.0, merged_side self.old.1.1)) }
        ensures stores { cache.new ≡ self.old.1.1.stores }
        ensures bytes { cache.new ≡ bytes_at self.old.1.1.opening self.old.1.1.log (length self.old.1.1.log) }
    {
        ranges_agree();
        changes_follow_the_history();
        merged_caches_are_the_stores();
        cache.merge(
            self.store.mirror(),
            self.volatile.bytes(),
            self.books.runtime,
            &self.books.ranges,
        );
        self.books.ranges.clear();
        let made = self.books.trace.len();
        self.books.flushed = made;
    }
}
