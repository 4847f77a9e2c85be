//! A new record, written over a region's bytes: its header, then its name and data, each of which may also be written alone.
ghost use Rattle.std.specs.Prelude.{◌≡◌, ◌≤◌, ◌+◌, ◌*◌, length};
ghost use Rattle.var_header.specs.Header.{IsHeader, header_bytes};
ghost use Rattle.var_types.specs.Placed.{placed};
ghost use Rattle.var_types.specs.Values.{AreUnits};
ghost use Rattle.var_region.specs.NewRecord.{AreValues, CanWrite, new_body, new_bytes, new_header, new_size, unit_bytes};

use crate::NewRecord;
use var_header::{HEADER_BYTES, Header, VAR_ADDED, write_header};

#[tactic(auto, unfolding(var_types::specs::Placed::placed))]
fn write_at(bytes: &mut [u8], at: usize, piece: &[u8])
    requires { at + length piece.now ≤ length bytes.old }
    ensures { bytes.new ≡ placed at piece.now bytes.old }
{
    bytes[at..at + piece.len()].copy_from_slice(piece);
}

fn write_units(bytes: &mut [u8], at: usize, units: &[u16])
    requires { at + 2 * length units.now ≤ length bytes.old }
    ensures bytes { bytes.new ≡ placed at (unit_bytes units.now) bytes.old }
    ensures units { AreUnits units.now }
{
    let mut next = at;
    for unit in units {
        write_at(bytes, next, &unit.to_le_bytes());
        next += 2;
    }
}

fn new_header(state: u8, new: &NewRecord) -> Header
    requires { CanWrite new.now }
    ensures header { result ≡ new_header state new.now }
    ensures values { IsHeader result }
{
    Header {
        state,
        attributes: new.attributes,
        time_stamp: new.stamp.bytes,
        name_size: 2 * new.name.len() as u32 + 2,
        data_size: new.payload.len() as u32,
        vendor_guid: new.guid.bytes,
    }
}

/// Writes a new record's header in a state, at an offset.
pub fn append_header(bytes: &mut [u8], at: u32, state: u8, new: &NewRecord)
    requires new { CanWrite new.now }
    requires room { at + 60 ≤ length bytes.old }
    ensures bytes { bytes.new ≡ placed at (header_bytes (new_header state new.now)) bytes.old }
    ensures stamp { length new.now.stamp.bytes ≡ 16 }
    ensures guid { length new.now.guid.bytes ≡ 16 }
{
    let header = new_header(state, new);
    let at = at as usize;
    write_header(&header, &mut bytes[at..at + HEADER_BYTES]);
}

/// Writes a new record's name with its NUL and its data, behind the header that stands at an offset.
pub fn append_body(bytes: &mut [u8], at: u32, new: &NewRecord)
    requires new { CanWrite new.now }
    requires room { at + new_size new.now ≤ length bytes.old }
    ensures bytes { bytes.new ≡ placed (at + 60) (new_body new.now) bytes.old }
    ensures units { AreUnits new.now.name.now }
{
    let from = at as usize + HEADER_BYTES;
    let nul = from + 2 * new.name.len();
    write_units(bytes, from, new.name);
    write_at(bytes, nul, &[0, 0]);
    write_at(bytes, nul + 2, new.payload);
}

/// Writes a new record, ADDED, at an offset.
pub fn append(bytes: &mut [u8], at: u32, new: &NewRecord)
    requires new { CanWrite new.now }
    requires room { at + new_size new.now ≤ length bytes.old }
    ensures bytes { bytes.new ≡ placed at (new_bytes 0x3F new.now) bytes.old }
    ensures values { AreValues new.now }
{
    append_header(bytes, at, VAR_ADDED, new);
    append_body(bytes, at, new);
}
