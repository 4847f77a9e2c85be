//! How many bytes messages have.
ghost use Rattle.std.specs.Prelude.{◌≡◌, ◌+◌, ◌*◌, ◌<◌, ◌≤◌, ◌^◌, length};
ghost use Rattle.mm_message.specs.Spellings.{body_of, find_body, name_bytes, policy_body, set_body, size_of};

use var_types::{Bytes, Call, Guid, PolicyCall, SetCall, Units};

fn guid_size(guid: Guid) -> usize
    ensures size { result ≡ length guid.bytes }
    ensures sixteen { result ≡ 16 }
{
    guid.bytes.len()
}

#[tactic(auto, using(crate::proofs::Numbers::length_name))]
fn name_size(name: &Units) -> usize
    ensures size { result ≡ length (name_bytes name.now) }
    ensures small { result ≤ 2048 }
{
    2 * name.as_slice().len()
}

fn bytes_size(bytes: &Bytes) -> usize
    ensures size { result ≡ length bytes.now }
    ensures small { result < 2 ^ 63 }
{
    bytes.as_slice().len()
}

#[tactic(auto, using(crate::proofs::BodySizes::find_size))]
fn find_size(guid: Guid, room: u32, name: &Units) -> usize
    ensures size { result ≡ length (find_body guid room name.now) }
    ensures small { result ≤ 2068 }
{
    guid_size(guid) + 4 + name_size(name)
}

#[tactic(auto, using(crate::proofs::BodySizes::set_size))]
fn set_size(call: &SetCall) -> usize
    ensures size { result ≡ length (set_body call.now) }
    ensures small { result < 2 ^ 63 + 2071 }
{
    guid_size(call.guid) + 7 + name_size(&call.name) + bytes_size(&call.bytes)
}

fn policy_size(call: &PolicyCall) -> usize
    ensures size { result ≡ length (policy_body call.now) }
    ensures small { result ≤ 2 ^ 63 }
{
    match call {
        PolicyCall::Register(entry) => 1 + bytes_size(entry),
        PolicyCall::Lock | PolicyCall::Disable | PolicyCall::Enabled => 1,
        PolicyCall::At(_) => 5,
    }
}

fn body_size(call: &Call) -> usize
    ensures size { result ≡ length (body_of call.now) }
    ensures small { result < 2 ^ 63 + 2072 }
{
    match call {
        Call::Get(call) => 1 + find_size(call.guid, call.room, &call.name),
        Call::Next(call) => 1 + find_size(call.guid, call.room, &call.name),
        Call::Set(call) => 1 + set_size(call),
        Call::Policy(call) => policy_size(call),
        Call::ExitBoot => 1,
    }
}

/// How many bytes the message of a call has behind its length; the longest message has 65,536.
pub fn message_size(call: &Call) -> usize
    ensures { result ≡ size_of call.now }
{
    1 + body_size(call)
}
