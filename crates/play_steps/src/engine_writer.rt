ghost use Rattle.std.specs.Prelude.{◌≡◌, ◌≢◌, IfErr, IfOk, None, OnOk, Some, length};
ghost use Rattle.nv_store.specs.Opening.{refusal_of};
ghost use Rattle.nv_store.specs.declared.load_fault.LoadWhy.TheVariants as why;
ghost use Rattle.svc_core.specs.Plan.{IsPlan};
ghost use Rattle.svc_core.specs.Scene.{IsOpening, own_at_first};
ghost use Rattle.var_types.specs.Kept.{kept};
ghost use Rattle.var_types.specs.Layout.{image_size};
ghost use Rattle.var_types.specs.State.{start};

use crate::ListedFlash;
use crate::planning::{history, plan};
use mm_writer::Engine;
use nv_store::LoadWhy;
use std::alloc::Global;
use std::marker::Model;
use svc_core::{Planned, Writes};
use var_types::{Bytes, Call, OutOfMemory};

/// The writer's engine as a writer of the core: it plans a call by making it, on a flash that lists the steps. Once it was out of memory in the
/// middle of a call it plans no more.
#[derive(Drop)]
pub struct EngineWriter {
    alloc: Global,
    engine: Engine<ListedFlash>,
    is_spoiled: bool,
}

impl Model for EngineWriter {
    ghost use Rattle.std.specs.Prelude.{◌≡◌, false};
    ghost use Rattle.play_steps.specs.EngineWriter.{IsReady, PlayedWriter, opening_of, own_of};

    ghost Value = { PlayedWriter };

    ghost view = { λ w. record { opening = opening_of w.engine; own = own_of w.engine } };

    ghost invariant = { λ w. w.is_spoiled ≡ false → IsReady w.engine };
}

// The flash fails for want of memory alone.
fn told(fault: LoadWhy) -> LoadWhy
    ensures same { fault ≢ why.Device → result ≡ fault }
    ensures memory { fault ≡ why.Device → result ≡ why.OutOfMemory }
{
    match fault {
        LoadWhy::Device => LoadWhy::OutOfMemory,
        LoadWhy::Image(_) | LoadWhy::ForeignWork | LoadWhy::OutOfMemory => fault,
    }
}

impl EngineWriter {
    /// Opens the services over an image of 131,072 bytes, with a history that may come to hold so many changes, as a world begins. Refused as the
    /// non-volatile store is; the steps of the opening are before the world's.
    pub fn begin(alloc: Global, image: Vec<u8>, limit: u64) -> Result<EngineWriter, LoadWhy>
        requires { length image.items ≡ image_size }
        ensures opening { IfOk result (λ w. IsOpening w.opening w.own.image limit) }
        ensures own { IfOk result (λ w. w.own ≡ own_at_first w.opening w.own.image) }
        ensures state { IfOk result (λ w. w.opening.start ≡ start (kept image.items) limit) }
        ensures accepted { OnOk result (refusal_of image.items ≡ None) }
        ensures refused { IfErr result (λ fault. fault ≢ why.OutOfMemory → refusal_of image.items ≡ Some fault) }
    {
        match Engine::begin(alloc, ListedFlash::new(alloc, image), limit) {
            Err(fault) => Err(told(fault.why)),
            Ok(mut engine) => {
                let _opening = engine.give_list();
                let _history = history(&engine);
                Ok(EngineWriter {
                    alloc,
                    engine,
                    is_spoiled: false,
                })
            }
        }
    }

    /// A copy of the flash's bytes.
    pub fn image(&self) -> Result<Bytes, OutOfMemory>
        ensures { IfOk result (λ image. image ≡ self.now.own.image) }
    {
        Bytes::copy(self.alloc, self.engine.flash().bytes())
    }
}

impl Writes for EngineWriter {
    ghost opening = { λ w. w.opening };

    ghost own = { λ w. w.own };

    /// Makes the call.
    fn plan(&mut self, processor: u8, index: u32, call: &Call) -> Result<Planned, OutOfMemory> {
        if self.is_spoiled {
            return Err(OutOfMemory);
        }
        self.is_spoiled = true;
        let planned = plan(self.alloc, &mut self.engine, processor, index, call)?;
        self.is_spoiled = false;
        Ok(planned)
    }
}
