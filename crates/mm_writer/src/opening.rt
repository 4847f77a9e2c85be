//! The opening of the writer's side over a flash.
ghost use Rattle.std.specs.Prelude.{◌≡◌, ◌≢◌, [], ℕ, None, Some, IfErr, IfOk, IfSome, OnOk, length, take};
ghost use Rattle.flash_dev.specs.Blank.{blank_volatile};
ghost use Rattle.flash_dev.specs.Moments.{Stays};
ghost use Rattle.flash_dev.specs.Rules.{IsKept as IsImageKept};
ghost use Rattle.flash_dev.specs.declared.image_fault.ImageFault.TheVariants.{Device as DeviceRefused, ImageSize};
ghost use Rattle.mm_writer.specs.Engine.{opened_side};
ghost use Rattle.mm_writer.specs.Outcome.{IsKeptBy};
ghost use Rattle.mm_writer.specs.Side.{state_of};
ghost use Rattle.nv_store.specs.Opening.{HasLoadCause, IsByImage, IsOpeningLeft, refusal_of};
ghost use Rattle.nv_store.specs.declared.load_fault.LoadWhy.TheVariants.{Device as LoadDevice, Image, OutOfMemory as LoadMemory};
ghost use Rattle.set_rules.specs.RoomTotals.{IsTotalOf};
ghost use Rattle.var_types.specs.declared.store.Store.TheVariants.{NonVolatile};
ghost use Rattle.var_types.specs.Kept.{content, kept};
ghost use Rattle.var_types.specs.Layout.{headers_size, image_size, volume_size};
ghost use Rattle.var_types.specs.State.{start};
ghost use Rattle.var_types.specs.Stores.{map_in};

use crate::books::Books;
use crate::engine::Engine;
use crate::failed_set::FailedSet;
use crate::volatile_store::VolatileStore;
use flash_dev::Flash;
use nv_store::{LoadFault, LoadWhy, NvStore};
use pending_range::{Ranges, agreement_grows_with_the_ranges as ranges_agree};
use policy_table::PolicyTable;
use region_compact::{Replace, size_after, sizes_are_the_room};
use set_rules::RoomTotals;
use std::alloc::Global;
use std::snapshot::Snapshot;
use var_region::region_in;
use var_trace::Trace;
use var_types::{OutOfMemory, Store, maps_hold_what_counts, regions_own_their_maps};

// The room that the variables of a volume take.
fn first_totals(volume: &[u8]) -> RoomTotals
    requires { length volume.now ≡ volume_size }
    ensures { IsTotalOf result (map_in NonVolatile volume.now) }
{
    sizes_are_the_room();
    regions_own_their_maps();
    RoomTotals {
        non_volatile: size_after(&region_in(Store::NonVolatile, volume), Replace::None),
        volatile: 0,
    }
}

// What the opening takes of memory beside the non-volatile store.
fn buffers(alloc: Global, limit: u64) -> Result<(VolatileStore, Trace), OutOfMemory>
    ensures { IfOk result (λ both. (both.0 ≡ blank_volatile) × (both.1 ≡ record { log = []; limit = limit })) }
{
    Ok((VolatileStore::new(alloc)?, Trace::with_room(alloc, limit)?))
}

impl<F: Flash> Engine<F> {
    // The services over a store that was opened.
    fn over(alloc: Global, store: NvStore<F>, volatile: VolatileStore, trace: Trace) -> Engine<F>
        requires sure { store.1.1 ≡ None }
        requires volatile { volatile ≡ blank_volatile }
        requires trace { trace.log ≡ [] }
        ensures side { result ≡ (store.0, (None, opened_side store.1.0 trace.limit)) }
        ensures state { state_of result.1.1 ≡ start (map_in NonVolatile store.1.0) trace.limit }
    {
        ranges_agree();
        maps_hold_what_counts();
        regions_own_their_maps();
        let totals = first_totals(store.mirror());
        let opened = Snapshot::of(&store);
        Engine {
            alloc,
            store,
            volatile,
            books: Books {
                trace,
                ranges: Ranges::empty(),
                flushed: 0,
                runtime: false,
            },
            totals,
            policies: PolicyTable::new(alloc),
            opened,
            failed: FailedSet::none(alloc),
        }
    }

    /// Opens the services over a flash in the boot phase, with the variables that its image keeps and a history that may come to hold so many
    /// changes. Refused as the non-volatile store is; a pending write is finished, and each image that a power loss may leave keeps the variables
    /// that the image had.
    pub fn begin(alloc: Global, flash: F, limit: u64) -> Result<Engine<F>, LoadFault<F>>
        ensures opened { IfOk result (λ engine. (engine.1.0 ≡ None) × IfSome (F.holds flash) (λ image. state_of engine.1.1 ≡ start (kept image) limit)) }
        ensures side { IfOk result (λ engine. engine.1.1 ≡ opened_side engine.1.1.stores.non_volatile limit) }
        ensures headers { IfOk result (λ engine. IfSome (F.holds flash) (λ image. take headers_size engine.1.1.stores.non_volatile ≡ take headers_size (content image))) }

        // It answers by the image, exactly as that is refused or not, unless a call failed or memory is wanting.
        ensures accepted { OnOk result (IfSome (F.holds flash) (λ image. refusal_of image ≡ None)) }
        ensures refused { IfErr result (λ fault. IsByImage (Some fault.why) → IfSome (F.holds flash) (λ image. refusal_of image ≡ Some fault.why)) }
        ensures size { F.size flash ≢ image_size → IfErr result (λ fault. fault.why ≢ LoadMemory → fault.why ≡ Image (ImageSize (F.size flash) image_size)) }
        ensures not_device { IfErr result (λ fault. fault.why ≢ Image DeviceRefused) }

        ensures at_any_moment { IfOk result (λ engine. Stays IsOpeningLeft F.moment F.left_since F.holds flash engine.0) }
        ensures at_any_moment_refused { IfErr result (λ fault. Stays IsOpeningLeft F.moment F.left_since F.holds flash fault.flash) }
        ensures untouched { IfErr result (λ fault. fault.why ≢ LoadDevice → Stays IsImageKept F.moment F.left_since F.holds flash fault.flash) }
        ensures done { IfOk result (λ engine. F.fault_count engine.0 ≡ F.fault_count flash) }
        ensures cause { IfErr result (λ fault. HasLoadCause (F.fault_count flash) (F.fault_count fault.flash) (Some fault.why)) }
        ensures same_size { IfOk result (λ engine. F.size engine.0 ≡ F.size flash) }
        ensures same_size_refused { IfErr result (λ fault. F.size fault.flash ≡ F.size flash) }
    {
        match buffers(alloc, limit) {
            Ok((volatile, trace)) => match NvStore::load(alloc, flash) {
                Ok(store) => Ok(Engine::over(alloc, store, volatile, trace)),
                Err(fault) => Err(fault),
            },
            Err(OutOfMemory) => Err(LoadFault {
                why: LoadWhy::OutOfMemory,
                flash,
            }),
        }
    }
}
