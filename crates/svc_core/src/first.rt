//! The machine before its first event.
ghost use Rattle.std.specs.Prelude.{◌≡◌, ◌≤◌, false, length, map, take, All, IfOk};
ghost use Rattle.flash_dev.specs.Blank.{blank_volatile};
ghost use Rattle.var_types.specs.Layout.{image_size, volatile_size, volume_size};
ghost use Rattle.svc_core.specs.Machine.{IsFirst};
ghost use Rattle.svc_core.specs.Progress.{most_calls};

use crate::buffers::Buffers;
use crate::image::Image;
use crate::machine::Machine;
use crate::progress::Progress;
use flash_dev::{VOLATILE_BYTES, VOLUME_BYTES, write_blank_volatile};
use pending_range::Ranges;
use runtime_cache::Cache;
use std::alloc::Global;
use var_types::{Bytes, Call, OutOfMemory};

fn blank(alloc: Global) -> Result<Vec<u8>, OutOfMemory>
    ensures { IfOk result (λ v. (v.items ≡ blank_volatile) × (length v.items ≡ volatile_size)) }
{
    let mut volatile = vec![in alloc; 0; VOLATILE_BYTES]?;
    write_blank_volatile(&mut volatile);
    Ok(volatile)
}

fn stores(alloc: Global, image: &[u8]) -> Result<Cache, OutOfMemory>
    requires { length image.now ≡ image_size }
    ensures { IfOk result (λ c. c ≡ record { non_volatile = take volume_size image.now; volatile = blank_volatile; runtime = false }) }
{
    let volatile = blank(alloc)?;
    Cache::make(alloc, &image[..VOLUME_BYTES], &volatile, false)
}

impl Machine {
    pub(crate) fn begin(
        alloc: Global,
        image: Bytes,
        calls: Vec<Vec<Call>>,
        limit: u64,
    ) -> Result<Machine, OutOfMemory>
        requires image { length image ≡ image_size }
        requires few { length calls.items ≤ 8 }
        requires short { All (λ v. length v.items ≤ most_calls) calls.items }
        ensures { IfOk result (IsFirst image (map (λ v. v.items) calls.items) limit) }
    {
        let count = calls.len() as u8;
        let cache = stores(alloc, image.as_slice())?;
        let own = stores(alloc, image.as_slice())?;
        let buffers = Buffers::new(alloc)?;
        let progress = Progress::begin(alloc, calls, limit)?;
        Ok(Machine {
            alloc,
            count,
            lock: 0,
            held: 0,
            home: true,
            cache,
            writer_lock: 0,
            made: 0,
            stores: own,
            ranges: Ranges::empty(),
            flushed: 0,
            flash: Image::new(image),
            progress,
            buffers,
        })
    }
}
