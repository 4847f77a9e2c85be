//! Where edits of the volatile store's bytes write, and what they write: each takes one pass over the records, and the offset behind them is known.
ghost use Rattle.std.specs.Prelude.{◌≡◌, ◌+◌, ◌≤◌, ◌++◌, [], ◌∷◌, IfSome, IsSome, length};
ghost use Rattle.std.specs.BTreeMap.{is_at};
ghost use Rattle.std.specs.Map.{lookup};
ghost use Rattle.mm_writer.specs.Edit.{IsEdited};
ghost use Rattle.mm_writer.specs.KeyPlaces.{cleared, places_in};
ghost use Rattle.mm_writer.specs.declared.edit.Edit.TheVariants.{Put as Putting, Remove as Removing};
ghost use Rattle.nv_store.specs.Changes.{lives_in};
ghost use Rattle.nv_store.specs.Places.{byte_span, nowhere, put_spans, remove_spans};
ghost use Rattle.nv_store.specs.Tidy.{IsTidy};
ghost use Rattle.var_region.specs.NewRecord.{AreValues, CanWrite, new_size};
ghost use Rattle.var_region.specs.Written.{FitsBehind, HasWholeRecord, fits_behind};
ghost use Rattle.var_types.specs.Attributes.{store_of};
ghost use Rattle.var_types.specs.declared.store.Store.TheVariants.{Volatile};
ghost use Rattle.var_types.specs.Key.{key_cmp, key_of};
ghost use Rattle.var_types.specs.Layout.{volatile_size};
ghost use Rattle.var_types.specs.Region.{tail_offset};
ghost use Rattle.var_types.specs.Room.{align4};
ghost use Rattle.var_types.specs.Spans.{AreWithin};
ghost use Rattle.var_types.specs.Stores.{map_in, store_region};

use crate::key_places::KeyPlaces;
use nv_store::size_of;
use var_header::{VAR_DELETED, VAR_IN_DELETED_TRANSITION};
use var_region::{NewRecord, append, mark, region_in};
use var_types::{Guid, Span, Store};

const NOWHERE: Span = Span { from: 0, to: 0 };

/// The offset behind the records.
pub(crate) fn tail_of(bytes: &[u8]) -> u32
    requires { length bytes.now ≡ volatile_size }
    ensures { result ≡ tail_offset (store_region Volatile bytes.now) }
{
    region_in(Store::Volatile, bytes).tail().at
}

/// Whether a new record fits behind the others.
pub(crate) fn fits(bytes: &[u8], tail: u32, new: &NewRecord) -> bool
    requires size { length bytes.now ≡ volatile_size }
    requires tidy { IsTidy (store_region Volatile bytes.now) }
    requires tail { tail ≡ tail_offset (store_region Volatile bytes.now) }
    requires new { CanWrite new.now }
    ensures fits { result ≡ fits_behind (store_region Volatile bytes.now) (new_size new.now) }
    ensures values { AreValues new.now }
{
    u64::from(tail) + u64::from(size_of(new)) <= bytes.len() as u64
}

// The places of a key's records.
fn places_of(bytes: &[u8], guid: &Guid, name: &[u16]) -> KeyPlaces
    requires { length bytes.now ≡ volatile_size }
    ensures places { result ≡ places_in (key_of guid.now name.now) (lives_in Volatile bytes.now) }
    ensures added { IfSome result.added (λ at. at + 60 ≤ volatile_size) }
    ensures in_transition { IfSome result.in_transition (λ at. at + 60 ≤ volatile_size) }
{
    KeyPlaces::of(&region_in(Store::Volatile, bytes), guid, name)
}

// The state byte of the record at a place, where there is one.
fn state_span(place: Option<u32>) -> Span
    requires { IfSome place (λ at. at + 60 ≤ volatile_size) }
    ensures span { result ≡ byte_span place }
    ensures within { AreWithin (result ∷ []) volatile_size }
{
    match place {
        Some(at) => Span {
            from: at + 2,
            to: at + 3,
        },
        None => NOWHERE,
    }
}

/// Where a put of a new record writes.
#[tactic(auto, unfolding(nv_store::specs::Places::put_spans))]
pub(crate) fn put_spans(bytes: &[u8], tail: u32, new: &NewRecord) -> [Span; 3]
    requires size { length bytes.now ≡ volatile_size }
    requires tidy { IsTidy (store_region Volatile bytes.now) }
    requires tail { tail ≡ tail_offset (store_region Volatile bytes.now) }
    requires new { CanWrite new.now }
    ensures spans { result ≡ put_spans Volatile bytes.now new.now }
    ensures within { AreWithin result (length bytes.now) }
{
    if !fits(bytes, tail, new) {
        let all = Span {
            from: 0,
            to: bytes.len() as u32,
        };
        return [all, NOWHERE, NOWHERE];
    }
    let places = places_of(bytes, &new.guid, new.name);
    [
        state_span(places.in_transition),
        state_span(places.added),
        Span {
            from: tail,
            to: tail + size_of(new),
        },
    ]
}

/// Where a removal of a key writes.
#[tactic(auto, unfolding(nv_store::specs::Places::remove_spans))]
pub(crate) fn remove_spans(bytes: &[u8], guid: &Guid, name: &[u16]) -> [Span; 3]
    requires { length bytes.now ≡ volatile_size }
    ensures spans { result ≡ remove_spans Volatile bytes.now (key_of guid.now name.now) ++ nowhere ∷ [] }
    ensures within { AreWithin result (length bytes.now) }
{
    let places = places_of(bytes, guid, name);
    [
        state_span(places.in_transition),
        state_span(places.added),
        NOWHERE,
    ]
}

// Clears the bits that a mask lacks in the state of the record at a place, where there is one.
fn clear(bytes: &mut [u8], place: Option<u32>, mask: u8)
    requires { IfSome place (HasWholeRecord bytes.old) }
    ensures { bytes.new ≡ cleared place mask bytes.old }
{
    if let Some(at) = place {
        mark(bytes, at, mask);
    }
}

/// Puts a new record that fits at the tail, behind the others: the twin goes, the old record goes into transition, the new one is added, and the
/// old one goes.
pub(crate) fn put_at(bytes: &mut [u8], tail: u32, new: &NewRecord)
    requires size { length bytes.old ≡ volatile_size }
    requires tidy { IsTidy (store_region Volatile bytes.old) }
    requires tail { tail ≡ tail_offset (store_region Volatile bytes.old) }
    requires of_store { store_of new.now.attributes ≡ Volatile }
    requires fits { FitsBehind (store_region Volatile bytes.old) new.now }
    ensures edited { IsEdited Volatile (Putting new.now) bytes.old bytes.new }
    ensures tidy { IsTidy (store_region Volatile bytes.new) }
    ensures tail { tail_offset (store_region Volatile bytes.new) ≡ align4 (tail + new_size new.now) }
{
    let places = places_of(bytes, &new.guid, new.name);
    clear(bytes, places.twin(), VAR_DELETED);
    clear(bytes, places.added, VAR_IN_DELETED_TRANSITION);
    append(bytes, tail, new);
    clear(bytes, places.old(), VAR_DELETED);
}

/// Removes a key's variable: the twin goes, and then the record.
pub(crate) fn remove(bytes: &mut [u8], guid: &Guid, name: &[u16])
    requires size { length bytes.old ≡ volatile_size }
    requires tidy { IsTidy (store_region Volatile bytes.old) }
    requires there { IsSome (lookup (is_at (key_cmp (key_of guid.now name.now))) (map_in Volatile bytes.old)) }
    ensures edited { IsEdited Volatile (Removing guid.now name.entry) bytes.old bytes.new }
    ensures tidy { IsTidy (store_region Volatile bytes.new) }
    ensures tail { tail_offset (store_region Volatile bytes.new) ≡ tail_offset (store_region Volatile bytes.old) }
{
    let places = places_of(bytes, guid, name);
    clear(bytes, places.twin(), VAR_DELETED);
    clear(bytes, places.old(), VAR_DELETED);
}
