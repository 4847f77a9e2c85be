ghost use Rattle.std.specs.Prelude.{◌≡◌};

use crate::{Call, GetReply, NextReply, PolicyReply, Reply, SetReply};

/// The way that a reply came.
#[derive(Clone, Copy, Debug, PartialEq, Eq)]
pub enum Route {
    /// From the service itself.
    Plain,
    /// From the cache of the stores.
    Cache,
    /// From the cache, once the reader, who had found that `made` changes were made and `held` of them were in the cache, had taken the others
    /// into it.
    Merged { made: u64, held: u64 },
    /// From the writer's stores, since `holder` had the cache: a processor's number plus 1, or 255 for the writer.
    Writer { holder: u64 },
    /// A change that the cache has taken.
    Flushed,
    /// A change that the cache is yet to take, since the processor of the number `holder` minus 1 had it.
    Deferred { holder: u64 },
}

/// A call with its reply, which is the one-thread service's after the first `place` changes of the history.
#[derive(Debug, Drop)]
pub struct Answered {
    pub call: Call,
    pub place: u64,
    pub route: Route,
    pub reply: Reply,
}

impl Answered {
    ghost use Rattle.var_types.specs.Step.{lacks_memory};

    /// Whether the reply says that the call was out of memory.
    pub fn lacks_memory(&self) -> bool
        ensures { result ≡ lacks_memory self.now.call self.now.reply }
    {
        match (&self.call, &self.reply) {
            (Call::Get(_), Reply::Get(GetReply::OutOfMemory)) => true,
            (Call::Next(_), Reply::Next(NextReply::OutOfMemory)) => true,
            (Call::Set(_), Reply::Set(SetReply::OutOfMemory)) => true,
            (Call::Policy(call), Reply::Policy(PolicyReply::OutOfMemory)) => call.takes_memory(),
            _ => false,
        }
    }
}
