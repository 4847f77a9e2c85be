//! A put and a removal over a mirror that stays: in place, or with the volume written anew.
ghost use Rattle.std.specs.Prelude.{◌≡◌, ◌≢◌, ◌≤◌, ℕ, false, true, length, Err, IfOk, IfSome, IsOk, IsSome, OnErr, OnOk, take};
ghost use Rattle.std.specs.BTreeMap.{is_at};
ghost use Rattle.std.specs.Map.{lookup};
ghost use Rattle.flash_dev.specs.Geometry.{geometry_of};
ghost use Rattle.flash_dev.specs.Moments.{Stays};
ghost use Rattle.flash_dev.specs.Rules.{Leaves};
ghost use Rattle.nv_store.specs.Mirror.{IsMirrored, IsMirroredAt};
ghost use Rattle.nv_store.specs.Outcome.{IsChangeLeft, IsKeptWith, with_put, without};
ghost use Rattle.nv_store.specs.declared.store_fault.StoreFault.TheVariants.{Device as StoreDevice, NoRoom as StoreNoRoom};
ghost use Rattle.outside.specs.Faults.{HasCause, HasCauseAt};
ghost use Rattle.nv_store.specs.Changes.{IsPut, IsRemoved};
ghost use Rattle.nv_store.specs.Places.{put_spans, remove_spans};
ghost use Rattle.nv_store.specs.Rooms.{IsNoRoom};
ghost use Rattle.nv_store.specs.Tidy.{IsTidy};
ghost use Rattle.var_region.specs.NewRecord.{AreValues, CanWrite, new_key, new_size, new_variable};
ghost use Rattle.var_region.specs.Written.{FitsBehind, fits_behind};
ghost use Rattle.var_types.specs.Attributes.{has, non_volatile_bit};
ghost use Rattle.var_types.specs.declared.store.Store.TheVariants.{NonVolatile};
ghost use Rattle.var_types.specs.Key.{key_cmp, key_of};
ghost use Rattle.var_types.specs.Layout.{headers_size, image_size, volume_size};
ghost use Rattle.var_types.specs.Spans.{IsWritten};
ghost use Rattle.var_types.specs.Stores.{map_in, store_region};

use crate::StoreFault;
use crate::anew::put_anew;
use crate::in_place::{put_in_place, remove_in_place};
use crate::spans::size_of;
use crate::within::{put_within, remove_within};
use flash_dev::{Device, Flash};
use ftw_mount::write_volume;
use var_region::{NewRecord, region_in};
use var_types::{Guid, Store};

// Whether a new record fits behind those of a volume.
fn fits(mirror: &[u8], new: &NewRecord) -> bool
    requires len { length mirror.now ≡ volume_size }
    requires new { CanWrite new.now }
    ensures fits { result ≡ fits_behind (store_region NonVolatile mirror.now) (new_size new.now) }
    ensures values { AreValues new.now }
{
    let size = size_of(new);
    region_in(Store::NonVolatile, mirror).fits(size)
}

// Puts a new record in place, behind the others. After a failed call the scratch has what the put was to leave.
fn put_behind<F: Flash>(
    flash: &mut F,
    mirror: &[u8],
    scratch: &mut [u8],
    slots: u32,
    new: &NewRecord,
) -> Result<u32, StoreFault>
    requires size { F.size flash.old ≡ image_size }
    requires len { length mirror.now ≡ volume_size }
    requires scratch { length scratch.old ≡ volume_size }
    requires headers { IsOk (geometry_of (take headers_size mirror.now)) }
    requires tidy { IsTidy (store_region NonVolatile mirror.now) }
    requires slots { slots ≤ 255 }
    requires new { CanWrite new.now }
    requires non_volatile { has new.now.attributes non_volatile_bit ≡ true }
    requires mirrored { IfSome (F.holds flash.old) (IsMirroredAt mirror.now slots) }
    requires fits { FitsBehind (store_region NonVolatile mirror.now) new.now }
    ensures put { OnOk result (IsPut NonVolatile (new_key new.now) (new_variable new.now) mirror.now scratch.new) }
    ensures written { OnOk result (IsWritten (put_spans NonVolatile mirror.now new.now) mirror.now scratch.new) }
    ensures slots { IfOk result (λ used. used ≤ 255) }
    ensures mirrored { IfOk result (λ used. IfSome (F.holds flash.new) (IsMirroredAt scratch.new used)) }
    ensures kept { OnOk result (Leaves (IsKeptWith (with_put (new_key new.now) (new_variable new.now))) (F.holds flash.old) (F.holds flash.new)) }
    ensures at_any_moment { Stays (IsChangeLeft (with_put (new_key new.now) (new_variable new.now))) F.moment F.left_since F.holds flash.old flash.new }
    ensures room { (need have : ℕ) → result ≡ Err (StoreNoRoom need have) → IsNoRoom NonVolatile mirror.now new.now need have }
    ensures refused { result ≢ Err StoreDevice → OnErr result (flash.new ≡ flash.old) }
    ensures after { result ≡ Err StoreDevice → IsPut NonVolatile (new_key new.now) (new_variable new.now) mirror.now scratch.new }
    ensures same_size { F.size flash.new ≡ F.size flash.old }
    ensures cause { HasCauseAt StoreDevice (F.fault_count flash.old) (F.fault_count flash.new) result }
{
    scratch.copy_from_slice(mirror);
    match put_in_place(flash, scratch, new) {
        Ok(()) => Ok(slots),
        Err(Device) => {
            scratch.copy_from_slice(mirror);
            put_within(Store::NonVolatile, scratch, new);
            Err(StoreFault::Device)
        }
    }
}

// Puts a new record by writing the volume anew, through the spare. After a failed call the scratch has what the put was to leave.
fn put_through<F: Flash>(
    flash: &mut F,
    mirror: &[u8],
    scratch: &mut [u8],
    slots: u32,
    new: &NewRecord,
) -> Result<u32, StoreFault>
    requires size { F.size flash.old ≡ image_size }
    requires len { length mirror.now ≡ volume_size }
    requires scratch { length scratch.old ≡ volume_size }
    requires headers { IsOk (geometry_of (take headers_size mirror.now)) }
    requires tidy { IsTidy (store_region NonVolatile mirror.now) }
    requires slots { slots ≤ 255 }
    requires new { CanWrite new.now }
    requires non_volatile { has new.now.attributes non_volatile_bit ≡ true }
    requires mirrored { IfSome (F.holds flash.old) (IsMirroredAt mirror.now slots) }
    requires full { fits_behind (store_region NonVolatile mirror.now) (new_size new.now) ≡ false }
    ensures put { OnOk result (IsPut NonVolatile (new_key new.now) (new_variable new.now) mirror.now scratch.new) }
    ensures written { OnOk result (IsWritten (put_spans NonVolatile mirror.now new.now) mirror.now scratch.new) }
    ensures slots { IfOk result (λ used. used ≤ 255) }
    ensures mirrored { IfOk result (λ used. IfSome (F.holds flash.new) (IsMirroredAt scratch.new used)) }
    ensures kept { OnOk result (Leaves (IsKeptWith (with_put (new_key new.now) (new_variable new.now))) (F.holds flash.old) (F.holds flash.new)) }
    ensures at_any_moment { Stays (IsChangeLeft (with_put (new_key new.now) (new_variable new.now))) F.moment F.left_since F.holds flash.old flash.new }
    ensures room { (need have : ℕ) → result ≡ Err (StoreNoRoom need have) → IsNoRoom NonVolatile mirror.now new.now need have }
    ensures refused { result ≢ Err StoreDevice → OnErr result (flash.new ≡ flash.old) }
    ensures after { result ≡ Err StoreDevice → IsPut NonVolatile (new_key new.now) (new_variable new.now) mirror.now scratch.new }
    ensures same_size { F.size flash.new ≡ F.size flash.old }
    ensures cause { HasCauseAt StoreDevice (F.fault_count flash.old) (F.fault_count flash.new) result }
{
    match put_anew(Store::NonVolatile, mirror, new, scratch) {
        Ok(()) => match write_volume(flash, slots, scratch) {
            Ok(used) => Ok(used),
            Err(Device) => Err(StoreFault::Device),
        },
        Err(full) => Err(StoreFault::NoRoom {
            need: full.need,
            have: full.have,
        }),
    }
}

/// Puts a new record's variable: behind the others where it fits there, else with the volume written anew. The scratch is then the volume; after
/// a failed call it has what the put was to leave.
pub(crate) fn write_put<F: Flash>(
    flash: &mut F,
    mirror: &[u8],
    scratch: &mut [u8],
    slots: u32,
    new: &NewRecord,
) -> Result<u32, StoreFault>
    requires size { F.size flash.old ≡ image_size }
    requires len { length mirror.now ≡ volume_size }
    requires scratch { length scratch.old ≡ volume_size }
    requires headers { IsOk (geometry_of (take headers_size mirror.now)) }
    requires tidy { IsTidy (store_region NonVolatile mirror.now) }
    requires slots { slots ≤ 255 }
    requires new { CanWrite new.now }
    requires non_volatile { has new.now.attributes non_volatile_bit ≡ true }
    requires mirrored { IfSome (F.holds flash.old) (IsMirroredAt mirror.now slots) }
    ensures put { OnOk result (IsPut NonVolatile (new_key new.now) (new_variable new.now) mirror.now scratch.new) }
    ensures written { OnOk result (IsWritten (put_spans NonVolatile mirror.now new.now) mirror.now scratch.new) }
    ensures slots { IfOk result (λ used. used ≤ 255) }
    ensures mirrored { IfOk result (λ used. IfSome (F.holds flash.new) (IsMirroredAt scratch.new used)) }
    ensures kept { OnOk result (Leaves (IsKeptWith (with_put (new_key new.now) (new_variable new.now))) (F.holds flash.old) (F.holds flash.new)) }
    ensures at_any_moment { Stays (IsChangeLeft (with_put (new_key new.now) (new_variable new.now))) F.moment F.left_since F.holds flash.old flash.new }
    ensures room { (need have : ℕ) → result ≡ Err (StoreNoRoom need have) → IsNoRoom NonVolatile mirror.now new.now need have }
    ensures refused { result ≢ Err StoreDevice → OnErr result (flash.new ≡ flash.old) }
    ensures after { result ≡ Err StoreDevice → IsPut NonVolatile (new_key new.now) (new_variable new.now) mirror.now scratch.new }
    ensures same_size { F.size flash.new ≡ F.size flash.old }
    ensures cause { HasCauseAt StoreDevice (F.fault_count flash.old) (F.fault_count flash.new) result }
{
    if fits(mirror, new) {
        put_behind(flash, mirror, scratch, slots, new)
    } else {
        put_through(flash, mirror, scratch, slots, new)
    }
}

/// Removes a key's variable, in place. The scratch is then the volume; after a failed call it has what the removal was to leave.
pub(crate) fn write_removal<F: Flash>(
    flash: &mut F,
    mirror: &[u8],
    scratch: &mut [u8],
    guid: &Guid,
    name: &[u16],
) -> Result<(), Device>
    requires size { F.size flash.old ≡ image_size }
    requires len { length mirror.now ≡ volume_size }
    requires scratch { length scratch.old ≡ volume_size }
    requires tidy { IsTidy (store_region NonVolatile mirror.now) }
    requires there { IsSome (lookup (is_at (key_cmp (key_of guid.now name.now))) (map_in NonVolatile mirror.now)) }
    requires mirrored { IfSome (F.holds flash.old) (IsMirrored mirror.now) }
    ensures removed { OnOk result (IsRemoved NonVolatile (key_of guid.now name.now) mirror.now scratch.new) }
    ensures written { OnOk result (IsWritten (remove_spans NonVolatile mirror.now (key_of guid.now name.now)) mirror.now scratch.new) }
    ensures mirrored { (slots : ℕ) → IfSome (F.holds flash.old) (IsMirroredAt mirror.now slots) → OnOk result (IfSome (F.holds flash.new) (IsMirroredAt scratch.new slots)) }
    ensures kept { OnOk result (Leaves (IsKeptWith (without (key_of guid.now name.now))) (F.holds flash.old) (F.holds flash.new)) }
    ensures at_any_moment { Stays (IsChangeLeft (without (key_of guid.now name.now))) F.moment F.left_since F.holds flash.old flash.new }
    ensures after { OnErr result (IsRemoved NonVolatile (key_of guid.now name.now) mirror.now scratch.new) }
    ensures same_size { F.size flash.new ≡ F.size flash.old }
    ensures cause { HasCause (F.fault_count flash.old) (F.fault_count flash.new) result }
{
    scratch.copy_from_slice(mirror);
    match remove_in_place(flash, scratch, guid, name) {
        Ok(()) => Ok(()),
        Err(Device) => {
            scratch.copy_from_slice(mirror);
            remove_within(Store::NonVolatile, scratch, guid, name);
            Err(Device)
        }
    }
}
