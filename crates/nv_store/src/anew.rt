//! A store's bytes written anew: what counts in them, compacted behind the same headers.
ghost use Rattle.std.specs.Prelude.{◌≡◌, ◌≤◌, ◌%◌, ◌<◌, ◌++◌, drop, length, take, IfErr, OnErr, OnOk};
ghost use Rattle.region_compact.specs.Compacted.{compact_into, size_after};
ghost use Rattle.region_compact.specs.Replace.{AreReplaceValues, CanReplace};
ghost use Rattle.var_types.specs.Attributes.{store_of};
ghost use Rattle.var_types.specs.Layout.{longest_region};
ghost use Rattle.var_types.specs.Stores.{first_offset, store_region};
ghost use Rattle.var_region.specs.NewRecord.{CanWrite, new_key, new_variable};
ghost use Rattle.nv_store.specs.Anew.{HasRoom, anew_bytes, room_in};
ghost use Rattle.nv_store.specs.Changes.{IsPut, IsRepacked};
ghost use Rattle.nv_store.specs.Rooms.{IsNoRoom};

use region_compact::{NoRoom, Replace, compact};
use var_region::{NewRecord, Region, region_in};
use var_types::Store;

fn first_offset(store: Store) -> usize
    ensures { result ≡ first_offset store }
{
    match store {
        Store::NonVolatile => 100,
        Store::Volatile => 28,
    }
}

// Compacts a region into the bytes behind some first ones.
fn compact_behind(
    region: &Region,
    replace: Replace,
    into: &mut [u8],
    first: usize,
) -> Result<u32, NoRoom>
    requires replace { CanReplace replace }
    requires first { first ≤ length into.old }
    requires few { length into.old ≤ longest_region }
    ensures done { (result, drop first into.new) ≡ compact_into region.now replace.entry (drop first into.old) }
    ensures front { take first into.new ≡ take first into.old }
    ensures values { OnOk result (AreReplaceValues replace.entry) }
{
    compact(region, replace, &mut into[first..])
}

fn write_front(bytes: &[u8], into: &mut [u8], first: usize)
    requires bytes { first ≤ length bytes.now }
    requires into { first ≤ length into.old }
    ensures { into.new ≡ take first bytes.now ++ drop first into.old }
{
    into[..first].copy_from_slice(&bytes[..first]);
}

// Writes a store's bytes anew into others, with a replacement.
fn write_anew(store: Store, bytes: &[u8], replace: Replace, into: &mut [u8]) -> Result<(), NoRoom>
    requires first { first_offset store ≤ length bytes.now }
    requires few { length bytes.now ≤ longest_region }
    requires into { length into.old ≡ length bytes.now }
    requires replace { CanReplace replace }
    ensures bytes { OnOk result (into.new ≡ anew_bytes store bytes.now replace.entry) }
    ensures fits { OnOk result (HasRoom store bytes.now replace.entry) }
    ensures values { OnOk result (AreReplaceValues replace.entry) }
    ensures full { IfErr result (λ full. full ≡ record { need = size_after (store_region store bytes.now) replace.entry; have = room_in store bytes.now }) }
    ensures room { OnErr result (room_in store bytes.now < size_after (store_region store bytes.now) replace.entry) }
    ensures same { OnErr result (into.new ≡ into.old) }
{
    let first = first_offset(store);
    let region = region_in(store, bytes);
    match compact_behind(&region, replace, into, first) {
        Ok(_) => {
            write_front(bytes, into, first);
            Ok(())
        }
        Err(full) => Err(full),
    }
}

/// Writes a store's bytes anew into others, with a new record put behind what counts for the other keys. `NoRoom` where it doesn't fit; the
/// others then stay.
pub fn put_anew(store: Store, bytes: &[u8], new: &NewRecord, into: &mut [u8]) -> Result<(), NoRoom>
    requires first { first_offset store ≤ length bytes.now }
    requires few { length bytes.now ≤ longest_region }
    requires into { length into.old ≡ length bytes.now }
    requires new { CanWrite new.now }
    requires of_store { store_of new.now.attributes ≡ store }
    ensures put { OnOk result (IsPut store (new_key new.now) (new_variable new.now) bytes.now into.new) }
    ensures room { IfErr result (λ full. IsNoRoom store bytes.now new.now full.need full.have) }
    ensures same { OnErr result (into.new ≡ into.old) }
{
    write_anew(store, bytes, Replace::Put(*new), into)
}

/// Writes a store's bytes anew into others, with what counts in them and nothing left over.
pub fn repack(store: Store, bytes: &[u8], into: &mut [u8])
    requires first { first_offset store ≤ length bytes.now }
    requires few { length bytes.now ≤ longest_region }
    requires even { length bytes.now % 4 ≡ 0 }
    requires into { length into.old ≡ length bytes.now }
    ensures { IsRepacked store bytes.now into.new }
{
    // What counts has the room that it has taken before.
    let _ = write_anew(store, bytes, Replace::None, into);
}
