//! The text of a call.
ghost use Rattle.std.specs.Prelude.{[], ◌∷◌, codes, decimal};
ghost use Rattle.var_types.specs.Guid.{guid_text};
ghost use Rattle.var_types.specs.Texts.{attributes_text, bytes_text, later_words, name_text, spaced};
ghost use Rattle.script_text.specs.Texts.{call_text, policy_words_of, verdict_words};

use var_types::text::{write_attributes, write_bytes, write_name, write_number};
use var_types::{Bytes, Call, Guid, PolicyCall, Put, SetCall, Units, Verdict};

fn write_find<P: Put>(verb: &[u8], guid: &Guid, name: &Units, room: u32, out: &mut P)
    ensures { P.Puts out.old out.new (spaced (verb.now ∷ guid_text guid.now ∷ name_text name.now ∷ decimal room ∷ [])) }
{
    out.put(verb);
    out.put(b" ");
    guid.write(out);
    out.put(b" ");
    write_name(name.as_slice(), out);
    out.put(b" ");
    write_number(u64::from(room), out);
}

fn write_verdict<P: Put>(verdict: Verdict, out: &mut P)
    ensures { P.Puts out.old out.new (later_words (verdict_words verdict)) }
{
    match verdict {
        Verdict::Good => {}
        Verdict::Bad => out.put(b" bad"),
    }
}

fn write_data<P: Put>(bytes: &Bytes, verdict: Verdict, out: &mut P)
    ensures { P.Puts out.old out.new (spaced (bytes_text bytes.now ∷ verdict_words verdict)) }
{
    write_bytes(bytes.as_slice(), out);
    write_verdict(verdict, out);
}

fn write_set<P: Put>(call: &SetCall, out: &mut P)
    ensures { P.Puts out.old out.new (spaced (codes "set" ∷ guid_text call.now.guid ∷ name_text call.now.name ∷ attributes_text call.now.attributes ∷ bytes_text call.now.bytes ∷ verdict_words call.now.verdict)) }
{
    out.put(b"set ");
    call.guid.write(out);
    out.put(b" ");
    write_name(call.name.as_slice(), out);
    out.put(b" ");
    write_attributes(call.attributes, out);
    out.put(b" ");
    write_data(&call.bytes, call.verdict, out);
}

fn write_register<P: Put>(verb: &[u8], bytes: &Bytes, out: &mut P)
    ensures { P.Puts out.old out.new (spaced (verb.now ∷ bytes_text bytes.now ∷ [])) }
{
    out.put(verb);
    out.put(b" ");
    write_bytes(bytes.as_slice(), out);
}

fn write_place<P: Put>(verb: &[u8], place: u32, out: &mut P)
    ensures { P.Puts out.old out.new (spaced (verb.now ∷ decimal place ∷ [])) }
{
    out.put(verb);
    out.put(b" ");
    write_number(u64::from(place), out);
}

/// Puts the text of a call about the policies.
fn write_policy<P: Put>(call: &PolicyCall, out: &mut P)
    ensures { P.Puts out.old out.new (spaced (policy_words_of call.now)) }
{
    match call {
        PolicyCall::Register(bytes) => write_register(b"register", bytes, out),
        PolicyCall::Lock => out.put(b"lock"),
        PolicyCall::Disable => out.put(b"disable"),
        PolicyCall::Enabled => out.put(b"enabled"),
        PolicyCall::At(place) => write_place(b"policy", *place, out),
    }
}

/// Puts the text of a call.
#[tactic(auto, unfolding(crate::specs::Texts::call_text))]
pub fn write_call<P: Put>(call: &Call, out: &mut P)
    ensures { P.Puts out.old out.new (call_text call.now) }
{
    match call {
        Call::Get(call) => write_find(b"get", &call.guid, &call.name, call.room, out),
        Call::Next(call) => write_find(b"next", &call.guid, &call.name, call.room, out),
        Call::Set(call) => write_set(call, out),
        Call::Policy(call) => write_policy(call, out),
        Call::ExitBoot => out.put(b"exitboot"),
    }
}
