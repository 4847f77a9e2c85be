//! The texts of values, as scripts and reports have them.
ghost use Rattle.std.specs.Prelude.{◌≡◌, decimal};
ghost use Rattle.std.specs.List.{flat_map};
ghost use Rattle.var_types.specs.Texts.{attributes_text, bytes_text, escaped_text, is_plain, name_text, unit_text};

use crate::Put;
use itoa::Buffer;

/// The unit `-`, which alone would be read as no name.
const DASH: u16 = 0x2d;

/// Puts a number's decimal digits.
pub fn write_number<P: Put>(n: u64, out: &mut P)
    ensures { P.Puts out.old out.new (decimal n) }
{
    let mut buffer = Buffer::new();
    out.put(buffer.format(n).as_bytes());
}

/// Puts `0x` and eight lower-case hexadecimal digits.
#[tactic(auto, unfolding(crate::specs::Texts::attributes_text))]
pub fn write_attributes<P: Put>(n: u32, out: &mut P)
    ensures { P.Puts out.old out.new (attributes_text n) }
{
    let mut digits = [0u8; 8];
    hex::encode_to_slice(n.to_be_bytes(), &mut digits).unwrap();
    let [a, b, c, d, e, f, g, h] = digits;
    out.put(&[b'0', b'x', a, b, c, d, e, f, g, h]);
}

/// Puts bytes in lower-case hexadecimal digits, or `-` for none.
#[tactic(auto, unfolding(crate::specs::Texts::bytes_text))]
pub fn write_bytes<P: Put>(bytes: &[u8], out: &mut P)
    ensures { P.Puts out.old out.new (bytes_text bytes.now) }
{
    if bytes.is_empty() {
        return out.put(b"-");
    }
    out.put_hex(bytes);
}

#[tactic(auto, unfolding(crate::specs::Texts::escaped_text))]
fn write_escaped<P: Put>(unit: u16, out: &mut P)
    ensures { P.Puts out.old out.new (escaped_text unit) }
{
    let mut digits = [0u8; 4];
    hex::encode_to_slice(unit.to_be_bytes(), &mut digits).unwrap();
    let [a, b, c, d] = digits;
    out.put(&[b'%', a, b, c, d]);
}

// Whether a unit may stand for itself: from `!` to `~`, but `%`.
fn is_plain(unit: u16) -> bool
    ensures { result ≡ is_plain unit }
{
    0x21 <= unit && unit <= 0x7e && unit != 0x25
}

#[tactic(auto, unfolding(crate::specs::Texts::unit_text))]
fn write_unit<P: Put>(unit: u16, out: &mut P)
    ensures { P.Puts out.old out.new (unit_text unit) }
{
    if is_plain(unit) {
        return out.put(&[unit as u8]);
    }
    write_escaped(unit, out);
}

fn write_units<P: Put>(units: &[u16], out: &mut P)
    ensures { P.Puts out.old out.new (flat_map unit_text units.now) }
{
    for unit in units {
        write_unit(*unit, out);
    }
}

/// Puts a name's characters, or `-` for none.
#[tactic(auto, unfolding(crate::specs::Texts::name_text))]
pub fn write_name<P: Put>(units: &[u16], out: &mut P)
    ensures { P.Puts out.old out.new (name_text units.now) }
{
    match units {
        [] => out.put(b"-"),
        [DASH] => write_escaped(DASH, out),
        _ => write_units(units, out),
    }
}
