use crate::flash_steps::FlashSteps;
use var_trace::Change;
use var_types::{Reply, Route};

/// Where a processor stands in its call, named by the step that it takes next, with what it knows.
#[derive(Debug, Drop)]
pub enum Point {
    /// Before its next call: for a read it tries the lock word, and for any other call it takes the writer's lock.
    Start,
    /// It holds the lock word, and loads made.
    LoadMade,
    /// It loads held.
    LoadHeld {
        made: u64,
    },
    /// All changes are in the cache, which it takes out of its slot.
    TakeCache {
        place: u64,
    },
    /// It looks in the cache, and puts it back.
    Look {
        place: u64,
    },
    /// It swaps the lock word to 0, and answers.
    Unlock {
        place: u64,
        reply: Reply,
    },
    /// Changes aren't in the cache yet: it takes the writer's lock.
    MergeEnter {
        made: u64,
        held: u64,
    },
    /// It loads made.
    MergeLoadMade {
        made: u64,
        held: u64,
    },
    /// It takes the cache out of its slot.
    MergeTakeCache {
        made: u64,
        held: u64,
        place: u64,
    },
    /// It merges and looks, and swaps held.
    Merge {
        made: u64,
        held: u64,
        place: u64,
    },
    /// It puts the cache back.
    MergePutCache {
        made: u64,
        held: u64,
        place: u64,
        reply: Reply,
    },
    /// It releases the writer's lock.
    MergeLeave {
        made: u64,
        held: u64,
        place: u64,
        reply: Reply,
    },
    /// It swaps the lock word to 0, and answers.
    MergeUnlock {
        made: u64,
        held: u64,
        place: u64,
        reply: Reply,
    },
    /// The lock word was another's: it takes the writer's lock.
    AskEnter {
        holder: u64,
    },
    /// It loads made, and looks in the writer's stores.
    AskLook {
        holder: u64,
    },
    /// It releases the writer's lock, and answers.
    AskLeave {
        holder: u64,
        place: u64,
        reply: Reply,
    },
    /// It holds the writer's lock, loads made, and decides.
    Decide,
    /// It makes the next of these flash steps; behind the last of them the writer's stores, ranges and history take the change.
    Write {
        place: u64,
        reply: Reply,
        steps: FlashSteps,
        change: Change,
    },
    /// It tries the lock word.
    TryLock {
        place: u64,
        reply: Reply,
    },
    /// It takes the cache out of its slot.
    FlushTakeCache {
        place: u64,
        reply: Reply,
    },
    /// It merges, and raises made.
    Flush {
        place: u64,
        reply: Reply,
    },
    /// It swaps held to made.
    FlushSwapHeld {
        place: u64,
        reply: Reply,
    },
    /// It puts the cache back.
    FlushPutCache {
        place: u64,
        reply: Reply,
    },
    /// It swaps the lock word to 0.
    FlushUnlock {
        place: u64,
        reply: Reply,
    },
    /// The lock word was another's: it raises made.
    Defer {
        place: u64,
        reply: Reply,
        holder: u64,
    },
    /// It releases the writer's lock, and answers.
    Leave {
        place: u64,
        reply: Reply,
        route: Route,
    },
}
