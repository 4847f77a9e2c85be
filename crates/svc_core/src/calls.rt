ghost use Rattle.std.specs.Prelude.{◌≡◌, drop, slice_get};
ghost use Rattle.std.specs.Option.{option_copied};

use std::marker::Model;
use std::mem;
use std::vec::IntoIter;
use var_types::Call;

/// The calls that a processor has not answered, in their order.
#[derive(Drop)]
pub(crate) struct Calls {
    next: Option<Call>,
    later: IntoIter<Call>,
}

impl Model for Calls {
    ghost use Rattle.std.specs.Prelude.{◌≡◌, ◌++◌, [], List, None, option_to_list};
    ghost use Rattle.std.specs.Vec.Iter.{into_iter_items};
    ghost use Rattle.var_types.specs.declared.call.Call.{Call};

    ghost Value = { List Call };

    ghost view = { λ c. option_to_list c.next ++ into_iter_items c.later };

    ghost invariant = { λ c. c.next ≡ None → into_iter_items c.later ≡ [] };
}

impl Calls {
    pub(crate) fn new(calls: Vec<Call>) -> Calls
        ensures { result ≡ calls.items }
    {
        let mut later = calls.into_iter();
        let next = later.next();
        Calls { next, later }
    }

    pub(crate) fn first(&self) -> Option<&Call>
        ensures { option_copied result ≡ slice_get self.now 0 }
    {
        self.next.as_ref()
    }

    /// Takes the first call, if there is one.
    pub(crate) fn take(&mut self) -> Option<Call>
        ensures call { result ≡ slice_get self.old 0 }
        ensures rest { self.new ≡ drop 1 self.old }
    {
        let next = self.later.next();
        mem::replace(&mut self.next, next)
    }
}
