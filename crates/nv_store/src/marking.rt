//! The steps of a write in place that turn the state byte of a record, on the flash and in the bytes that mirror its volume. Each finds its record
//! by itself, and does nothing where there is none.
ghost use Rattle.std.specs.Prelude.{◌≡◌, ◌≤◌, ◌+◌, length, count_by, true, IfSome, OnOk};
ghost use Rattle.std.specs.List.{list_any};
ghost use Rattle.flash_dev.specs.Moments.{Stays};
ghost use Rattle.nv_store.specs.Mirror.{IsMirrored};
ghost use Rattle.nv_store.specs.Outcome.{without};
ghost use Rattle.nv_store.specs.StepsLeft.{IsMapAs, IsMapOr, IsStepLeft};
ghost use Rattle.outside.specs.Faults.{HasCause};
ghost use Rattle.nv_store.specs.Changes.{lives_in};
ghost use Rattle.nv_store.specs.Steps.{IsLastDeleted, IsOutdated, IsTwinDropped};
ghost use Rattle.var_types.specs.Chosen.{is_added, is_in_transition, is_of};
ghost use Rattle.var_types.specs.declared.store.Store.TheVariants.{NonVolatile};
ghost use Rattle.var_types.specs.Key.{key_of};
ghost use Rattle.var_types.specs.Layout.{image_size, volume_size};

use crate::marks::{place_of, twin_of};
use crate::turning::turn_both;
use flash_dev::{Device, Flash};
use var_types::{Guid, RecordState, Store};

/// Deletes the record of a key in transition to deleted, where an ADDED one stands too.
pub(crate) fn drop_twin<F: Flash>(
    flash: &mut F,
    bytes: &mut [u8],
    guid: &Guid,
    name: &[u16],
) -> Result<(), Device>
    requires size { F.size flash.old ≡ image_size }
    requires len { length bytes.old ≡ volume_size }
    requires few { count_by (is_in_transition (key_of guid.now name.now)) (lives_in NonVolatile bytes.old) ≤ 1 }
    requires mirrored { IfSome (F.holds flash.old) (IsMirrored bytes.old) }
    ensures dropped { OnOk result (IsTwinDropped NonVolatile (key_of guid.now name.now) bytes.old bytes.new) }
    ensures mirrored { OnOk result (IfSome (F.holds flash.new) (IsMirrored bytes.new)) }
    ensures at_any_moment { Stays (IsStepLeft (IsMapAs bytes.old)) F.moment F.left_since F.holds flash.old flash.new }
    ensures same_size { F.size flash.new ≡ F.size flash.old }
    ensures cause { HasCause (F.fault_count flash.old) (F.fault_count flash.new) result }
{
    match twin_of(Store::NonVolatile, bytes, guid, name) {
        Some(at) => turn_both(flash, bytes, at + 2, 0x3E, 0x3C),
        None => Ok(()),
    }
}

/// Puts a key's ADDED record, which has no twin, into transition to deleted.
pub(crate) fn outdate<F: Flash>(
    flash: &mut F,
    bytes: &mut [u8],
    guid: &Guid,
    name: &[u16],
) -> Result<(), Device>
    requires size { F.size flash.old ≡ image_size }
    requires len { length bytes.old ≡ volume_size }
    requires added { count_by (is_added (key_of guid.now name.now)) (lives_in NonVolatile bytes.old) ≤ 1 }
    requires few { count_by (is_in_transition (key_of guid.now name.now)) (lives_in NonVolatile bytes.old) ≤ 1 }
    requires no_twin { 1 ≤ count_by (is_added (key_of guid.now name.now)) (lives_in NonVolatile bytes.old)
        → count_by (is_in_transition (key_of guid.now name.now)) (lives_in NonVolatile bytes.old) ≡ 0 }
    requires mirrored { IfSome (F.holds flash.old) (IsMirrored bytes.old) }
    ensures outdated { OnOk result (IsOutdated NonVolatile (key_of guid.now name.now) bytes.old bytes.new) }
    ensures mirrored { OnOk result (IfSome (F.holds flash.new) (IsMirrored bytes.new)) }
    ensures at_any_moment { Stays (IsStepLeft (IsMapAs bytes.old)) F.moment F.left_since F.holds flash.old flash.new }
    ensures same_size { F.size flash.new ≡ F.size flash.old }
    ensures cause { HasCause (F.fault_count flash.old) (F.fault_count flash.new) result }
{
    match place_of(Store::NonVolatile, bytes, RecordState::Added, guid, name) {
        Some(at) => turn_both(flash, bytes, at + 2, 0x3F, 0x3E),
        None => Ok(()),
    }
}

/// Deletes a key's only record, which is ADDED or in transition to deleted.
pub(crate) fn delete_last<F: Flash>(
    flash: &mut F,
    bytes: &mut [u8],
    guid: &Guid,
    name: &[u16],
) -> Result<(), Device>
    requires size { F.size flash.old ≡ image_size }
    requires len { length bytes.old ≡ volume_size }
    requires last { count_by (is_added (key_of guid.now name.now)) (lives_in NonVolatile bytes.old)
        + count_by (is_in_transition (key_of guid.now name.now)) (lives_in NonVolatile bytes.old) ≡ 1 }
    requires mirrored { IfSome (F.holds flash.old) (IsMirrored bytes.old) }
    ensures deleted { OnOk result (IsLastDeleted NonVolatile (key_of guid.now name.now) bytes.old bytes.new) }
    ensures mirrored { OnOk result (IfSome (F.holds flash.new) (IsMirrored bytes.new)) }
    ensures at_any_moment { Stays (IsStepLeft (IsMapOr (without (key_of guid.now name.now)) bytes.old)) F.moment F.left_since F.holds flash.old flash.new }
    ensures same_size { F.size flash.new ≡ F.size flash.old }
    ensures cause { HasCause (F.fault_count flash.old) (F.fault_count flash.new) result }
{
    if let Some(at) = place_of(Store::NonVolatile, bytes, RecordState::Added, guid, name) {
        return turn_both(flash, bytes, at + 2, 0x3F, 0x3D);
    }
    match place_of(
        Store::NonVolatile,
        bytes,
        RecordState::InDeletedTransition,
        guid,
        name,
    ) {
        Some(at) => turn_both(flash, bytes, at + 2, 0x3E, 0x3C),
        None => Ok(()),
    }
}
