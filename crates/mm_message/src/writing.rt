//! Request messages, written.
ghost use Rattle.std.specs.Prelude.{◌≡◌, ◌≤◌, ◌∷◌, length, take};
ghost use Rattle.byteorder.specs.Endian.{little_bytes};
ghost use Rattle.mm_message.specs.Messages.{last_processor, longest_message};
ghost use Rattle.mm_message.specs.Spellings.{Fits, FitsCall, FitsFind, FitsPolicy, FitsSet, body_of, find_body, name_bytes, policy_body, set_body, size_of, spelling, verdict_byte};
ghost use Rattle.var_types.specs.Guid.{IsGuid};
ghost use Rattle.var_types.specs.Layout.{most_units};
ghost use Rattle.var_types.specs.Values.{AreBytes, AreUnits};

use crate::sizes::message_size;
use var_types::{Bytes, Call, Guid, PolicyCall, Put, SetCall, Units, Verdict};

fn put_guid<P: Put>(guid: Guid, out: &mut P)
    ensures text { P.Puts out.old out.new guid.bytes }
    ensures values { IsGuid guid }
{
    out.put(&guid.bytes);
}

fn put_u16<P: Put>(value: u16, out: &mut P)
    ensures { P.Puts out.old out.new (little_bytes 2 value) }
{
    out.put(&value.to_le_bytes());
}

fn put_u32<P: Put>(value: u32, out: &mut P)
    ensures { P.Puts out.old out.new (little_bytes 4 value) }
{
    out.put(&value.to_le_bytes());
}

fn put_units<P: Put>(units: &[u16], out: &mut P)
    ensures { P.Puts out.old out.new (name_bytes units.now) }
{
    for unit in units {
        put_u16(*unit, out);
    }
}

fn put_name<P: Put>(name: &Units, out: &mut P)
    ensures text { P.Puts out.old out.new (name_bytes name.now) }
    ensures few { length name.now ≤ most_units }
    ensures values { AreUnits name.now }
{
    put_units(name.as_slice(), out);
}

fn put_bytes<P: Put>(bytes: &Bytes, out: &mut P)
    ensures text { P.Puts out.old out.new bytes.now }
    ensures values { AreBytes bytes.now }
{
    out.put(bytes.as_slice());
}

fn put_find<P: Put>(guid: Guid, room: u32, name: &Units, out: &mut P)
    ensures text { P.Puts out.old out.new (find_body guid room name.now) }
    ensures fits { FitsFind guid room name.now }
{
    put_guid(guid, out);
    put_u32(room, out);
    put_name(name, out);
}

fn verdict_byte(verdict: Verdict) -> u8
    ensures { result ≡ verdict_byte verdict }
{
    match verdict {
        Verdict::Good => 0,
        Verdict::Bad => 1,
    }
}

/// How many units a name has.
fn units_count(name: &Units) -> u16
    ensures { result ≡ length name.now }
{
    name.as_slice().len() as u16
}

fn put_set<P: Put>(call: &SetCall, out: &mut P)
    ensures text { P.Puts out.old out.new (set_body call.now) }
    ensures fits { FitsSet call.now }
{
    let attributes = call.attributes;
    put_guid(call.guid, out);
    put_u32(attributes, out);
    out.put(&[verdict_byte(call.verdict)]);
    put_u16(units_count(&call.name), out);
    put_name(&call.name, out);
    put_bytes(&call.bytes, out);
}

fn put_register<P: Put>(entry: &Bytes, out: &mut P)
    ensures text { P.Puts out.old out.new (3 ∷ entry.now) }
    ensures values { AreBytes entry.now }
{
    out.put(&[3]);
    put_bytes(entry, out);
}

fn put_place<P: Put>(place: u32, out: &mut P)
    ensures { P.Puts out.old out.new (7 ∷ little_bytes 4 place) }
{
    out.put(&[7]);
    put_u32(place, out);
}

fn put_policy<P: Put>(call: &PolicyCall, out: &mut P)
    ensures text { P.Puts out.old out.new (policy_body call.now) }
    ensures fits { FitsPolicy call.now }
{
    match call {
        PolicyCall::Register(entry) => put_register(entry, out),
        PolicyCall::Lock => out.put(&[4]),
        PolicyCall::Disable => out.put(&[5]),
        PolicyCall::Enabled => out.put(&[6]),
        PolicyCall::At(place) => put_place(*place, out),
    }
}

fn put_kind_and_find<P: Put>(kind: u8, guid: Guid, room: u32, name: &Units, out: &mut P)
    ensures text { P.Puts out.old out.new (kind ∷ find_body guid room name.now) }
    ensures fits { FitsFind guid room name.now }
{
    out.put(&[kind]);
    put_find(guid, room, name, out);
}

fn put_kind_and_set<P: Put>(call: &SetCall, out: &mut P)
    ensures text { P.Puts out.old out.new (2 ∷ set_body call.now) }
    ensures fits { FitsSet call.now }
{
    out.put(&[2]);
    put_set(call, out);
}

/// Puts the kind and the body of a call's message.
fn put_body<P: Put>(call: &Call, out: &mut P)
    ensures text { P.Puts out.old out.new (body_of call.now) }
    ensures fits { FitsCall call.now }
{
    match call {
        Call::Get(call) => put_kind_and_find(0, call.guid, call.room, &call.name, out),
        Call::Next(call) => put_kind_and_find(1, call.guid, call.room, &call.name, out),
        Call::Set(call) => put_kind_and_set(call, out),
        Call::Policy(call) => put_policy(call, out),
        Call::ExitBoot => out.put(&[8]),
    }
}

/// Puts the message of a call of a processor, from 0 to 7. It has at most 65,536 bytes behind its length: `message_size` says how many.
#[tactic(auto, unfolding(crate::specs::Spellings::spelling))]
pub fn write_request<P: Put>(processor: u8, call: &Call, out: &mut P)
    requires processor { processor ≤ last_processor }
    requires size { size_of call.now ≤ longest_message }
    ensures text { P.Puts out.old out.new (spelling processor call.now) }
    ensures fits { Fits processor call.now }
{
    let size = message_size(call) as u32;
    put_u32(size, out);
    out.put(&[processor]);
    put_body(call, out);
}
