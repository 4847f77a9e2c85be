//! A put and a removal in place, on the flash and in the bytes that mirror its volume.
ghost use Rattle.std.specs.Prelude.{◌≡◌, ◌≤◌, length, true, IfSome, IsSome, OnOk};
ghost use Rattle.std.specs.BTreeMap.{is_at};
ghost use Rattle.std.specs.Map.{lookup};
ghost use Rattle.flash_dev.specs.Moments.{Stays};
ghost use Rattle.nv_store.specs.Mirror.{IsMirrored};
ghost use Rattle.nv_store.specs.Outcome.{with_put, without};
ghost use Rattle.nv_store.specs.StepsLeft.{IsMapOr, IsStepLeft};
ghost use Rattle.outside.specs.Faults.{HasCause};
ghost use Rattle.nv_store.specs.Changes.{IsPut, IsRemoved};
ghost use Rattle.nv_store.specs.Places.{put_spans, remove_spans};
ghost use Rattle.nv_store.specs.Tidy.{IsTidy};
ghost use Rattle.var_region.specs.NewRecord.{new_key, new_variable};
ghost use Rattle.var_region.specs.Written.{FitsBehind};
ghost use Rattle.var_types.specs.Attributes.{has, non_volatile_bit};
ghost use Rattle.var_types.specs.declared.store.Store.TheVariants.{NonVolatile};
ghost use Rattle.var_types.specs.Key.{key_cmp, key_of};
ghost use Rattle.var_types.specs.Layout.{image_size, volume_size};
ghost use Rattle.var_types.specs.Spans.{IsWritten};
ghost use Rattle.var_types.specs.Stores.{map_in, store_region};

use crate::adding::add_record;
use crate::marking::{delete_last, drop_twin, outdate};
use flash_dev::{Device, Flash};
use var_region::NewRecord;
use var_types::Guid;

/// Puts a new record's variable in place: the twin goes, the old record goes into transition, the new one is added, and the old one goes.
pub(crate) fn put_in_place<F: Flash>(
    flash: &mut F,
    bytes: &mut [u8],
    new: &NewRecord,
) -> Result<(), Device>
    requires size { F.size flash.old ≡ image_size }
    requires len { length bytes.old ≡ volume_size }
    requires tidy { IsTidy (store_region NonVolatile bytes.old) }
    requires fits { FitsBehind (store_region NonVolatile bytes.old) new.now }
    requires of_store { has new.now.attributes non_volatile_bit ≡ true }
    requires mirrored { IfSome (F.holds flash.old) (IsMirrored bytes.old) }
    ensures put { OnOk result (IsPut NonVolatile (new_key new.now) (new_variable new.now) bytes.old bytes.new) }
    ensures written { OnOk result (IsWritten (put_spans NonVolatile bytes.old new.now) bytes.old bytes.new) }
    ensures mirrored { OnOk result (IfSome (F.holds flash.new) (IsMirrored bytes.new)) }
    ensures at_any_moment { Stays (IsStepLeft (IsMapOr (with_put (new_key new.now) (new_variable new.now)) bytes.old)) F.moment F.left_since F.holds flash.old flash.new }
    ensures same_size { F.size flash.new ≡ F.size flash.old }
    ensures cause { HasCause (F.fault_count flash.old) (F.fault_count flash.new) result }
{
    drop_twin(flash, bytes, &new.guid, new.name)?;
    outdate(flash, bytes, &new.guid, new.name)?;
    add_record(flash, bytes, new)?;
    drop_twin(flash, bytes, &new.guid, new.name)
}

/// Removes a key's variable in place: the twin goes, and then the record.
pub(crate) fn remove_in_place<F: Flash>(
    flash: &mut F,
    bytes: &mut [u8],
    guid: &Guid,
    name: &[u16],
) -> Result<(), Device>
    requires size { F.size flash.old ≡ image_size }
    requires len { length bytes.old ≡ volume_size }
    requires tidy { IsTidy (store_region NonVolatile bytes.old) }
    requires there { IsSome (lookup (is_at (key_cmp (key_of guid.now name.now))) (map_in NonVolatile bytes.old)) }
    requires mirrored { IfSome (F.holds flash.old) (IsMirrored bytes.old) }
    ensures removed { OnOk result (IsRemoved NonVolatile (key_of guid.now name.now) bytes.old bytes.new) }
    ensures written { OnOk result (IsWritten (remove_spans NonVolatile bytes.old (key_of guid.now name.now)) bytes.old bytes.new) }
    ensures mirrored { OnOk result (IfSome (F.holds flash.new) (IsMirrored bytes.new)) }
    ensures at_any_moment { Stays (IsStepLeft (IsMapOr (without (key_of guid.now name.now)) bytes.old)) F.moment F.left_since F.holds flash.old flash.new }
    ensures same_size { F.size flash.new ≡ F.size flash.old }
    ensures cause { HasCause (F.fault_count flash.old) (F.fault_count flash.new) result }
{
    drop_twin(flash, bytes, guid, name)?;
    delete_last(flash, bytes, guid, name)
}
