//! A compaction: the records that are kept, the new one behind them, and erased bytes up to the buffer's end.
ghost use Rattle.std.specs.Prelude.{◌≡◌, ◌≤◌, ◌+◌, ◌-◌, ◌++◌, length, take, replicate, OnOk};
ghost use Rattle.var_types.specs.Room.{align4};
ghost use Rattle.var_region.specs.NewRecord.{AreValues, CanWrite, new_bytes, new_size};
ghost use Rattle.region_compact.specs.Compacted.{compact_into, compacted, size_after};
ghost use Rattle.region_compact.specs.Replace.{AreReplaceValues, CanReplace, added, added_room, gap};

use crate::copying::{copy_kept, write_gap};
use crate::sizes::{align4, size_at_most, size_with};
use crate::{NoRoom, Replace};
use var_header::HEADER_BYTES;
use var_region::{NewRecord, Region, append};

fn size_of_new(new: &NewRecord) -> u32
    requires { CanWrite new.now }
    ensures { result ≡ new_size new.now }
{
    (HEADER_BYTES + 2 * new.name.len() + 2 + new.payload.len()) as u32
}

#[tactic(auto, using(crate::proofs::Added::put_front))]
fn put(new: &NewRecord, into: &mut [u8], out: u32)
    requires new { CanWrite new.now }
    requires room { out + align4 (new_size new.now) ≤ length into.old }
    requires near { out ≤ 131078 }
    ensures bytes { take (out + align4 (new_size new.now)) into.new ≡ take out into.old ++ (new_bytes 0x3F new.now ++ gap (new_size new.now)) }
    ensures values { AreValues new.now }
{
    let size = size_of_new(new);
    append(into, out, new);
    write_gap(into, out as usize + size as usize, size);
}

/// Adds the record of a replacement, where it has one, and answers the offset behind it.
fn add(replace: &Replace, into: &mut [u8], out: u32) -> u32
    requires replace { CanReplace replace.now }
    requires room { out + added_room replace.now ≤ length into.old }
    requires near { out ≤ 131078 }
    ensures offset { result ≡ out + added_room replace.now }
    ensures bytes { take result into.new ≡ take out into.old ++ added replace.now }
    ensures values { AreReplaceValues replace.now }
{
    match replace {
        Replace::None => out,
        Replace::Put(new) => {
            put(new, into, out);
            out + align4(size_of_new(new))
        }
        Replace::Drop { guid: _, name: _ } => out,
    }
}

fn erase_from(into: &mut [u8], from: u32)
    requires { from ≤ length into.old }
    ensures { into.new ≡ take from into.old ++ replicate (length into.old - from) 0xFF }
{
    into[from as usize..].fill(0xFF);
}

#[tactic(auto, unfolding(crate::specs::Compacted::compact_into, crate::specs::Compacted::compacted, crate::specs::Compacted::size_after))]
fn write_compacted(region: &Region, replace: &Replace, into: &mut [u8]) -> u32
    requires replace { CanReplace replace.now }
    requires room { size_after region.now replace.now ≤ length into.old }
    ensures size { result ≡ size_after region.now replace.now }
    ensures bytes { into.new ≡ compacted region.now replace.now ++ replicate (length into.old - size_after region.now replace.now) 0xFF }
    ensures values { AreReplaceValues replace.now }
{
    let out = copy_kept(region, replace, into);
    let end = add(replace, into, out);
    erase_from(into, end);
    end
}

#[tactic(auto, unfolding(crate::specs::Compacted::compact_into))]
fn compact_with(region: &Region, replace: &Replace, into: &mut [u8]) -> Result<u32, NoRoom>
    requires replace { CanReplace replace.now }
    requires few { length into.old ≤ 65536 }
    ensures done { (result, into.new) ≡ compact_into region.now replace.now into.old }
    ensures values { OnOk result (AreReplaceValues replace.now) }
{
    let have = into.len() as u32;
    if have < size_at_most(region, replace) {
        let need = size_with(region, replace);
        if have < need {
            return Err(NoRoom { need, have });
        }
    }
    Ok(write_compacted(region, replace, into))
}

/// Writes a region's variables after a replacement from the start of a buffer on, each ADDED and once, in the order of their records and the new
/// one last, and erases the rest of it. Answers how many bytes they are; `NoRoom` where these are more than the buffer has, which then stays.
pub fn compact(region: &Region, replace: Replace, into: &mut [u8]) -> Result<u32, NoRoom>
    requires replace { CanReplace replace }
    requires few { length into.old ≤ 65536 }
    ensures done { (result, into.new) ≡ compact_into region.now replace.entry into.old }
    ensures values { OnOk result (AreReplaceValues replace.entry) }
{
    compact_with(region, &replace, into)
}
