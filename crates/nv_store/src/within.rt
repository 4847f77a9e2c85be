//! A put and a removal in place, in memory.
ghost use Rattle.std.specs.Prelude.{◌≡◌, ◌≤◌, ◌+◌, length, count_by, IsSome};
ghost use Rattle.std.specs.BTreeMap.{is_at};
ghost use Rattle.std.specs.Map.{lookup};
ghost use Rattle.var_types.specs.Attributes.{store_of};
ghost use Rattle.var_types.specs.Chosen.{is_added, is_in_transition};
ghost use Rattle.var_types.specs.Key.{key_cmp, key_of};
ghost use Rattle.var_types.specs.Layout.{longest_region};
ghost use Rattle.var_types.specs.Spans.{IsWritten};
ghost use Rattle.var_types.specs.Stores.{first_offset, map_in, store_region};
ghost use Rattle.var_region.specs.NewRecord.{new_key, new_variable};
ghost use Rattle.var_region.specs.Written.{FitsBehind};
ghost use Rattle.nv_store.specs.Changes.{IsPut, IsRemoved, lives_in};
ghost use Rattle.nv_store.specs.Steps.{IsAdded, IsLastDeleted, IsOutdated, IsTwinDropped};
ghost use Rattle.nv_store.specs.Places.{new_span, put_spans, remove_spans};
ghost use Rattle.nv_store.specs.Tidy.{IsTidy};

use crate::marks::{place_of, twin_of};
use var_header::{VAR_DELETED, VAR_IN_DELETED_TRANSITION};
use var_region::{NewRecord, append, mark, region_in};
use var_types::{Guid, RecordState, Store};

// Deletes the record of a key in transition to deleted, where an ADDED one stands too.
fn drop_twin(store: Store, bytes: &mut [u8], guid: &Guid, name: &[u16])
    requires first { first_offset store ≤ length bytes.old }
    requires few { length bytes.old ≤ longest_region }
    requires few_twins { count_by (is_in_transition (key_of guid.now name.now)) (lives_in store bytes.old) ≤ 1 }
    ensures { IsTwinDropped store (key_of guid.now name.now) bytes.old bytes.new }
{
    if let Some(at) = twin_of(store, bytes, guid, name) {
        mark(bytes, at, VAR_DELETED);
    }
}

// Puts a key's ADDED record, which has no twin, into transition to deleted.
fn outdate(store: Store, bytes: &mut [u8], guid: &Guid, name: &[u16])
    requires first { first_offset store ≤ length bytes.old }
    requires few { length bytes.old ≤ longest_region }
    requires added { count_by (is_added (key_of guid.now name.now)) (lives_in store bytes.old) ≤ 1 }
    requires few_twins { count_by (is_in_transition (key_of guid.now name.now)) (lives_in store bytes.old) ≤ 1 }
    requires no_twin { 1 ≤ count_by (is_added (key_of guid.now name.now)) (lives_in store bytes.old)
        → count_by (is_in_transition (key_of guid.now name.now)) (lives_in store bytes.old) ≡ 0 }
    ensures { IsOutdated store (key_of guid.now name.now) bytes.old bytes.new }
{
    if let Some(at) = place_of(store, bytes, RecordState::Added, guid, name) {
        mark(bytes, at, VAR_IN_DELETED_TRANSITION);
    }
}

// Deletes a key's only record, which is ADDED or in transition to deleted.
fn delete_last(store: Store, bytes: &mut [u8], guid: &Guid, name: &[u16])
    requires first { first_offset store ≤ length bytes.old }
    requires few { length bytes.old ≤ longest_region }
    requires last { count_by (is_added (key_of guid.now name.now)) (lives_in store bytes.old)
        + count_by (is_in_transition (key_of guid.now name.now)) (lives_in store bytes.old) ≡ 1 }
    ensures { IsLastDeleted store (key_of guid.now name.now) bytes.old bytes.new }
{
    if let Some(at) = place_of(store, bytes, RecordState::Added, guid, name) {
        mark(bytes, at, VAR_DELETED);
        return;
    }
    if let Some(at) = place_of(store, bytes, RecordState::InDeletedTransition, guid, name) {
        mark(bytes, at, VAR_DELETED);
    }
}

// Adds a new record at the tail.
fn add_record(store: Store, bytes: &mut [u8], new: &NewRecord)
    requires first { first_offset store ≤ length bytes.old }
    requires few { length bytes.old ≤ longest_region }
    requires fits { FitsBehind (store_region store bytes.old) new.now }
    requires of_store { store_of new.now.attributes ≡ store }
    requires none { count_by (is_added (new_key new.now)) (lives_in store bytes.old) ≡ 0 }
    ensures { IsAdded store (new_key new.now) (new_variable new.now) (new_span (store_region store bytes.old) new.now) bytes.old bytes.new }
{
    let at = region_in(store, bytes).tail().at;
    append(bytes, at, new);
}

/// Puts a new record's variable in place: the twin goes, the old record goes into transition, the new one is added, and the old one goes.
pub fn put_within(store: Store, bytes: &mut [u8], new: &NewRecord)
    requires first { first_offset store ≤ length bytes.old }
    requires few { length bytes.old ≤ longest_region }
    requires tidy { IsTidy (store_region store bytes.old) }
    requires fits { FitsBehind (store_region store bytes.old) new.now }
    requires of_store { store_of new.now.attributes ≡ store }
    ensures put { IsPut store (new_key new.now) (new_variable new.now) bytes.old bytes.new }
    ensures written { IsWritten (put_spans store bytes.old new.now) bytes.old bytes.new }
{
    drop_twin(store, bytes, &new.guid, new.name);
    outdate(store, bytes, &new.guid, new.name);
    add_record(store, bytes, new);
    drop_twin(store, bytes, &new.guid, new.name);
}

/// Removes a key's variable in place: the twin goes, and then the record.
pub fn remove_within(store: Store, bytes: &mut [u8], guid: &Guid, name: &[u16])
    requires first { first_offset store ≤ length bytes.old }
    requires few { length bytes.old ≤ longest_region }
    requires tidy { IsTidy (store_region store bytes.old) }
    requires there { IsSome (lookup (is_at (key_cmp (key_of guid.now name.now))) (map_in store bytes.old)) }
    ensures removed { IsRemoved store (key_of guid.now name.now) bytes.old bytes.new }
    ensures written { IsWritten (remove_spans store bytes.old (key_of guid.now name.now)) bytes.old bytes.new }
{
    drop_twin(store, bytes, guid, name);
    delete_last(store, bytes, guid, name);
}
