//! The message at the front of bytes.
ghost use Rattle.std.specs.Prelude.{◌≡◌, ◌≢◌, ◌≤◌, ◌<◌, ◌+◌, ◌||◌, length};
ghost use Rattle.mm_message.specs.Messages.{IfRequest, Takes, is_missized, message_in, most_held, size_in, taken_in, used_by};
ghost use Rattle.mm_message.specs.declared.taken.Taken.TheVariants.{More};

use crate::bodies::read_call;
use crate::{MessageFault, Taken};
use byteorder::{ByteOrder, LittleEndian};
use std::alloc::Global;
use var_types::OutOfMemory;

/// How many bytes a message's length has.
const LENGTH_BYTES: usize = 4;

/// The most bytes of a message.
const LONGEST_MESSAGE: u32 = 65536;

/// The processor of the highest number.
const LAST_PROCESSOR: u8 = 7;

/// The highest kind.
const LAST_KIND: u8 = 8;

/// A whole message, of at least two bytes.
#[tactic(auto, unfolding(crate::specs::Messages::message_in))]
fn read_message(alloc: Global, message: &[u8]) -> Taken
    requires { 2 ≤ length message.now }
    ensures taken { Takes result (message_in message.now) }
    ensures whole { result ≢ More }
    ensures processor { IfRequest result (λ processor call. processor ≤ 7) }
{
    let processor = message[0];
    if processor > LAST_PROCESSOR {
        return Taken::Fault(MessageFault::Processor { value: processor });
    }
    let kind = message[1];
    if kind > LAST_KIND {
        return Taken::Fault(MessageFault::Kind { value: kind });
    }
    match read_call(alloc, kind, &message[2..]) {
        Ok(Some(call)) => Taken::Request { processor, call },
        Ok(None) => Taken::Fault(MessageFault::Form { kind }),
        Err(OutOfMemory) => Taken::OutOfMemory,
    }
}

fn is_missized(size: u32) -> bool
    ensures { result ≡ is_missized size }
{
    size < 2 || LONGEST_MESSAGE < size
}

/// What stands at the front of bytes.
#[tactic(auto, unfolding(crate::specs::Messages::taken_in))]
fn read_front(alloc: Global, bytes: &[u8]) -> Taken
    ensures taken { Takes result (taken_in bytes.now) }
    ensures processor { IfRequest result (λ processor call. processor ≤ 7) }
    ensures whole { used_by result (size_in bytes.now) ≤ length bytes.now }
    ensures more { result ≡ More → length bytes.now < most_held }
{
    if bytes.len() < LENGTH_BYTES {
        return Taken::More;
    }
    let value = LittleEndian::read_u32(bytes);
    if is_missized(value) {
        return Taken::Fault(MessageFault::Length { value });
    }
    let size = value as usize;
    if bytes.len() < LENGTH_BYTES + size {
        return Taken::More;
    }
    read_message(alloc, &bytes[LENGTH_BYTES..LENGTH_BYTES + size])
}

/// How many bytes of the front are gone once this was taken of it.
fn used_by(taken: &Taken, bytes: &[u8]) -> usize
    requires { used_by taken.now (size_in bytes.now) ≤ length bytes.now }
    ensures { result ≡ used_by taken.now (size_in bytes.now) }
{
    match taken {
        Taken::Request { .. } => LENGTH_BYTES + LittleEndian::read_u32(bytes) as usize,
        Taken::More | Taken::Fault(_) | Taken::OutOfMemory => 0,
    }
}

/// What stands at the front of bytes, and how many of them it has.
pub(crate) fn take_front(alloc: Global, bytes: &[u8]) -> (Taken, usize)
    ensures taken { Takes result.0 (taken_in bytes.now) }
    ensures processor { IfRequest result.0 (λ processor call. processor ≤ 7) }
    ensures used { result.1 ≡ used_by result.0 (size_in bytes.now) }
    ensures within { result.1 ≤ length bytes.now }
    ensures more { result.0 ≡ More → length bytes.now < most_held }
{
    let taken = read_front(alloc, bytes);
    let used = used_by(&taken, bytes);
    (taken, used)
}
