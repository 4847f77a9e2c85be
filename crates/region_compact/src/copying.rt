//! The records that are kept, copied one behind the other.
ghost use Rattle.std.specs.Prelude.{◌≡◌, ◌≤◌, ◌+◌, ◌-◌, ◌++◌, [], length, take, replicate, if◌then◌else◌};
ghost use Rattle.var_types.specs.Region.{region_lives};
ghost use Rattle.var_types.specs.Room.{align4};
ghost use Rattle.var_region.specs.Found.{seen};
ghost use Rattle.region_compact.specs.Compacted.{copied, copies, is_kept, kept_lives, live_room, live_size, rooms};
ghost use Rattle.region_compact.specs.Replace.{gap, replaced_key};

use crate::Replace;
use crate::keeping::is_kept;
use crate::sizes::{align4, size_of};
use var_header::VAR_ADDED;
use var_region::{Found, Region};

// Writes bytes at an offset, behind those that are written already.
fn write_at(into: &mut [u8], at: usize, bytes: &[u8])
    requires { at + length bytes.now ≤ length into.old }
    ensures { take (at + length bytes.now) into.new ≡ take at into.old ++ bytes.now }
{
    into[at..at + bytes.len()].copy_from_slice(bytes);
}

/// Erases what is between a record of some size, whose bytes end at an offset, and the next one.
pub(crate) fn write_gap(into: &mut [u8], at: usize, size: u32)
    requires few { size ≤ 1048576 }
    requires room { at + (align4 size - size) ≤ length into.old }
    ensures { take (at + (align4 size - size)) into.new ≡ take at into.old ++ gap size }
{
    let end = at + (align4(size) - size) as usize;
    into[at..end].fill(0xFF);
}

#[tactic(auto, unfolding(crate::specs::Compacted::copied))]
fn copy(bytes: &[u8], found: &Found, into: &mut [u8], out: u32)
    requires within { found.now.at + live_size (seen found.now) ≤ length bytes.now }
    requires few { length bytes.now ≤ 65536 }
    requires room { out + live_room (seen found.now) ≤ length into.old }
    ensures { take (out + live_room (seen found.now)) into.new ≡ take out into.old ++ copied bytes.now (seen found.now) }
{
    let size = size_of(found);
    let from = found.at as usize;
    let to = out as usize;
    write_at(into, to, &[0xAA, 0x55, VAR_ADDED, 0]);
    write_at(into, to + 4, &bytes[from + 4..from + size as usize]);
    write_gap(into, to + size as usize, size);
}

/// Copies a live record where it is kept, and answers the offset behind it.
fn copy_if_kept(region: &Region, replace: &Replace, found: &Found, into: &mut [u8], out: u32) -> u32
    requires within { found.now.at + live_size (seen found.now) ≤ length region.now.bytes }
    requires few { length region.now.bytes ≤ 65536 }
    requires room { out + (if is_kept (region_lives region.now) (replaced_key replace.now) (seen found.now) then live_room (seen found.now) else 0) ≤ length into.old }
    requires near { out ≤ 131078 }
    ensures offset { result ≡ out + (if is_kept (region_lives region.now) (replaced_key replace.now) (seen found.now) then live_room (seen found.now) else 0) }
    ensures bytes { take result into.new
        ≡ take out into.old ++ (if is_kept (region_lives region.now) (replaced_key replace.now) (seen found.now) then copied region.now.bytes (seen found.now) else []) }
{
    if !is_kept(region, replace, found) {
        return out;
    }
    copy(region.bytes(), found, into, out);
    out + align4(size_of(found))
}

/// Copies the live records that are kept, and answers the offset behind them.
#[tactic(auto, unfolding(crate::specs::Compacted::kept_lives), using(crate::proofs::Kept::rooms_first, crate::proofs::Kept::rooms_few, crate::proofs::Kept::copies_first, crate::proofs::StoredSizes::inside_region, std::proofs::Common::append_assoc))]
pub(crate) fn copy_kept(region: &Region, replace: &Replace, into: &mut [u8]) -> u32
    requires { rooms (kept_lives region.now (replaced_key replace.now)) ≤ length into.old }
    ensures offset { result ≡ rooms (kept_lives region.now (replaced_key replace.now)) }
    ensures few { result ≤ 131078 }
    ensures bytes { take result into.new ≡ copies region.now.bytes (kept_lives region.now (replaced_key replace.now)) }
{
    let mut out = 0;
    for found in region.lives() {
        out = copy_if_kept(region, replace, &found, into, out);
    }
    out
}
