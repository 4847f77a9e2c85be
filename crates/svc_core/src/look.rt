//! Reads in two stores and a phase, with the reply copied.
ghost use Rattle.std.specs.Prelude.{◌≡◌, ◌≤◌, true, length, IfOk};
ghost use Rattle.var_trace.specs.Routes.{is_read};
ghost use Rattle.var_types.specs.declared.store.Store.TheVariants.{NonVolatile, Volatile};
ghost use Rattle.var_types.specs.Get.{get_reply};
ghost use Rattle.var_types.specs.Next.{next_reply};
ghost use Rattle.var_types.specs.Stores.{map_in, state_in};
ghost use Rattle.var_types.specs.TwoRegions.{AreApart};
ghost use Rattle.svc_core.specs.World.{look};

use crate::buffers::Buffers;
use runtime_cache::{Cache, copied_get, copied_next};
use std::alloc::Global;
use var_types::{Call, GetCall, GetReply, NextCall, NextReply, OutOfMemory, Reply};

fn get_in(
    alloc: Global,
    cache: &Cache,
    call: &GetCall,
    buffer: &mut [u8],
) -> Result<GetReply, OutOfMemory>
    requires { 65536 ≤ length buffer.old }
    ensures { IfOk result (λ reply. reply ≡ get_reply (state_in cache.now) call.now) }
{
    let answer = cache.get(&call.guid, call.name.as_slice(), call.room, buffer);
    copied_get(alloc, answer, buffer)
}

fn next_in(
    alloc: Global,
    cache: &Cache,
    call: &NextCall,
    buffer: &mut [u16],
) -> Result<NextReply, OutOfMemory>
    requires apart { AreApart (map_in NonVolatile cache.now.non_volatile) (map_in Volatile cache.now.volatile) }
    requires buffer { length buffer.old ≡ 513 }
    ensures { IfOk result (λ reply. reply ≡ next_reply (state_in cache.now) call.now) }
{
    let answer = cache.next(&call.guid, call.name.as_slice(), call.room, buffer);
    copied_next(alloc, answer, buffer)
}

/// Looks in a cache for a read, and copies what it answers.
pub(crate) fn look(
    alloc: Global,
    cache: &Cache,
    call: &Call,
    buffers: &mut Buffers,
) -> Result<Reply, OutOfMemory>
    requires apart { AreApart (map_in NonVolatile cache.now.non_volatile) (map_in Volatile cache.now.volatile) }
    requires reads { is_read call.now ≡ true }
    ensures reply { IfOk result (λ reply. reply ≡ look cache.now call.now) }
    ensures kept { buffers.new ≡ buffers.old }
{
    match call {
        Call::Get(call) => {
            let reply = get_in(alloc, cache, call, &mut buffers.bytes)?;
            Ok(Reply::Get(reply))
        }
        Call::Next(call) => {
            let reply = next_in(alloc, cache, call, &mut buffers.units)?;
            Ok(Reply::Next(reply))
        }
        Call::Set(_) | Call::Policy(_) | Call::ExitBoot => unreachable!(),
    }
}

/// Whether a call is a get or a next.
pub(crate) fn is_read(call: &Call) -> bool
    ensures { result ≡ is_read call.now }
{
    matches!(call, Call::Get(_) | Call::Next(_))
}
