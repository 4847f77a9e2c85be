ghost use Rattle.std.specs.Prelude.{[], ◌∷◌, ◌<◌, codes, decimal};
ghost use Rattle.var_types.specs.Texts.{attributes_text, bytes_text, name_text, spaced};
ghost use Rattle.var_types.specs.Guid.{guid_text};
ghost use Rattle.script_text.specs.Texts.{call_text};
ghost use Rattle.image_make.specs.Generated.{bytes_at, generated_call, generated_script, get_at, global_variable, line_text, name_at, next_from_front, set_at};

use crate::parts::{
    GET_ROOM, MOST_BYTES, NEXT_ROOM, SCRIPT_CALLS, SET_ATTRIBUTES, byte_at, count_at,
    global_variable, name_at,
};
use var_types::Put;
use var_types::text::{write_attributes, write_bytes, write_name, write_number};

// The bytes of a set at an index.
fn write_data<P: Put>(number: u32, index: u32, out: &mut P)
    ensures { P.Puts out.old out.new (bytes_text (bytes_at number index)) }
{
    let bytes = [byte_at(number, index); MOST_BYTES];
    write_bytes(&bytes[..count_at(index)], out);
}

#[tactic(auto, unfolding(script_text::specs::Texts::call_text))]
fn write_set<P: Put>(number: u32, index: u32, out: &mut P)
    ensures { P.Puts out.old out.new (call_text (set_at number index)) }
{
    out.put(b"set ");
    global_variable().write(out);
    out.put(b" ");
    write_name(&name_at(number, index), out);
    out.put(b" ");
    write_attributes(SET_ATTRIBUTES, out);
    out.put(b" ");
    write_data(number, index, out);
}

#[tactic(auto, unfolding(script_text::specs::Texts::call_text))]
fn write_get<P: Put>(number: u32, index: u32, out: &mut P)
    requires { 0 < index }
    ensures { P.Puts out.old out.new (call_text (get_at number index)) }
{
    out.put(b"get ");
    global_variable().write(out);
    out.put(b" ");
    write_name(&name_at(number, index - 1), out);
    out.put(b" ");
    write_number(u64::from(GET_ROOM), out);
}

#[tactic(auto, unfolding(script_text::specs::Texts::call_text))]
fn write_next<P: Put>(out: &mut P)
    ensures { P.Puts out.old out.new (call_text next_from_front) }
{
    out.put(b"next ");
    global_variable().write(out);
    out.put(b" ");
    write_name(&[], out);
    out.put(b" ");
    write_number(u64::from(NEXT_ROOM), out);
}

#[tactic(auto, unfolding(crate::specs::Generated::generated_call))]
fn write_call_at<P: Put>(number: u32, index: u32, out: &mut P)
    ensures { P.Puts out.old out.new (call_text (generated_call number index)) }
{
    match index % 4 {
        0 | 1 => write_set(number, index, out),
        2 => write_get(number, index, out),
        _ => write_next(out),
    }
}

fn write_line<P: Put>(number: u32, index: u32, out: &mut P)
    ensures { P.Puts out.old out.new (line_text (generated_call number index)) }
{
    out.put(b"0 ");
    write_call_at(number, index, out);
    out.put(b"\n");
}

/// Puts the script of a number; takes no memory.
#[tactic(auto, unfolding(crate::specs::Generated::generated_script))]
pub fn make_script<P: Put>(number: u32, out: &mut P)
    ensures { P.Puts out.old out.new (generated_script number) }
{
    for index in 0..SCRIPT_CALLS {
        write_line(number, index, out);
    }
}
