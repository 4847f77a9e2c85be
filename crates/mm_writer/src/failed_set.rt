ghost use Rattle.std.specs.Prelude.{◌≡◌};

use crate::prepared::Caller;
use std::alloc::Global;
use std::marker::Model;
use std::snapshot::Snapshot;
use var_types::{Bytes, Guid, SetCall, Units, Verdict};

/// The set that failed last, by which the one in doubt is named: whose it was, how many changes were made before it, and its call, which takes no
/// memory here.
#[derive(Drop)]
pub(crate) struct FailedSet {
    caller: Caller,
    place: u64,
    call: Snapshot<SetCall>,
}

impl Model for FailedSet {
    ghost use Rattle.mm_writer.specs.Doubt.{SetInDoubt};

    ghost Value = { SetInDoubt };

    ghost view = { λ s. record { processor = s.caller.processor; index = s.caller.index; place = s.place; call = s.call.value } };
}

impl FailedSet {
    /// A set of a caller that failed behind so many changes.
    pub(crate) fn of(caller: Caller, place: u64, call: &SetCall) -> FailedSet
        ensures { result ≡ record { processor = caller.processor; index = caller.index; place = place; call = call.now } }
    {
        FailedSet {
            caller,
            place,
            call: Snapshot::of(call),
        }
    }

    /// What stands where no set has failed.
    pub(crate) fn none(alloc: Global) -> FailedSet {
        let call = SetCall {
            guid: Guid { bytes: [0; 16] },
            name: Units::from_vec(Vec::new(alloc)),
            attributes: 0,
            bytes: Bytes::new(alloc),
            verdict: Verdict::Good,
        };
        let caller = Caller {
            processor: 0,
            index: 0,
        };
        FailedSet::of(caller, 0, &call)
    }
}
