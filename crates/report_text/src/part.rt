ghost use Rattle.std.specs.Prelude.{map};
ghost use Rattle.report_text.specs.Line.{part_text, later_parts_text, parts_text, line_text};

use crate::rule::rule_text;
use crate::stamp::write_stamp;
use crate::{CheckWord, Status, Word};
use script_text::write_call;
use var_types::text::{write_attributes, write_bytes, write_name, write_number};
use var_types::{Call, Guid, Put, Rule, Stamp};

/// A part of a line that is printed.
#[derive(Clone, Copy, Debug)]
pub enum Part<'a> {
    Word(Word),
    Check(CheckWord),
    Status(Status),
    Rule(Rule),
    Number(u64),
    Attributes(u32),
    Bytes(&'a [u8]),
    Guid(&'a Guid),
    Name(&'a [u16]),
    Stamp(&'a Stamp),
    Call(&'a Call),
}

fn write_part<P: Put>(part: &Part, out: &mut P)
    ensures { P.Puts out.old out.new (part_text part.now) }
{
    match part {
        Part::Word(word) => out.put(word.text().as_bytes()),
        Part::Check(word) => out.put(word.text().as_bytes()),
        Part::Status(status) => out.put(status.text().as_bytes()),
        Part::Rule(rule) => out.put(rule_text(*rule).as_bytes()),
        Part::Number(n) => write_number(*n, out),
        Part::Attributes(n) => write_attributes(*n, out),
        Part::Bytes(bytes) => write_bytes(bytes, out),
        Part::Guid(guid) => guid.write(out),
        Part::Name(units) => write_name(units, out),
        Part::Stamp(stamp) => write_stamp(stamp, out),
        Part::Call(call) => write_call(call, out),
    }
}

fn write_later_parts<P: Put>(parts: &[Part], out: &mut P)
    ensures { P.Puts out.old out.new (later_parts_text parts.now) }
{
    for part in parts {
        out.put(b" ");
        write_part(part, out);
    }
}

/// Puts parts with a space between each two.
pub fn write_parts<P: Put>(parts: &[Part], out: &mut P)
    ensures { P.Puts out.old out.new (parts_text parts.now) }
{
    if let Some((first, rest)) = parts.split_first() {
        write_part(first, out);
        write_later_parts(rest, out);
    }
}

/// Puts a line of parts with a space between each two.
pub fn write_line<P: Put>(parts: &[Part], out: &mut P)
    ensures { P.Puts out.old out.new (line_text (map part_text parts.now)) }
{
    write_parts(parts, out);
    out.put(b"\n");
}
