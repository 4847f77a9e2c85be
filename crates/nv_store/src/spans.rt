//! Where a put and a removal write, before they do.
ghost use Rattle.std.specs.Prelude.{◌≡◌, ◌≤◌, ◌+◌, ◌*◌, [], ◌∷◌, length, true};
ghost use Rattle.var_types.specs.Key.{key_of};
ghost use Rattle.var_types.specs.Layout.{longest_region};
ghost use Rattle.var_types.specs.Region.{region_lives};
ghost use Rattle.var_types.specs.Spans.{AreWithin};
ghost use Rattle.var_types.specs.Stores.{first_offset};
ghost use Rattle.var_types.specs.Values.{AreUnits};
ghost use Rattle.var_region.specs.NewRecord.{AreValues, CanWrite, new_size};
ghost use Rattle.var_region.specs.Written.{fits_behind};
ghost use Rattle.nv_store.specs.Places.{anew_spans, first_in, in_place_spans, put_spans, remove_spans, state_span};

use crate::places::first_in;
use var_region::{NewRecord, Region, region_in};
use var_types::{Guid, RecordState, Span, Store};

const NOWHERE: Span = Span { from: 0, to: 0 };

/// How many bytes a header has beside its time stamp and its GUID (EDK II, AUTHENTICATED_VARIABLE_HEADER).
const FIELDS_BYTES: usize = 28;

// The state byte of a key's first record in a state.
fn state_span(region: &Region, state: RecordState, guid: &Guid, name: &[u16]) -> Span
    ensures span { result ≡ state_span (first_in state (key_of guid.now name.now) (region_lives region.now)) }
    ensures within { AreWithin (result ∷ []) (length region.now.bytes) }
    ensures few { length region.now.bytes ≤ longest_region }
{
    match first_in(region, state, guid, name) {
        Some(at) => Span {
            from: at + 2,
            to: at + 3,
        },
        None => NOWHERE,
    }
}

// How many bytes a field of 16 has.
fn field_size(bytes: &[u8; 16]) -> usize
    ensures size { result ≡ 16 }
    ensures len { length bytes.now ≡ 16 }
{
    bytes.len()
}

// How many bytes a name has, with its NUL.
fn name_size(name: &[u16]) -> usize
    requires { length name.now ≤ 512 }
    ensures size { result ≡ 2 * length name.now + 2 }
    ensures units { AreUnits name.now }
{
    2 * name.len() + 2
}

/// How many bytes a new record has.
pub fn size_of(new: &NewRecord) -> u32
    requires { CanWrite new.now }
    ensures size { result ≡ new_size new.now }
    ensures values { AreValues new.now }
{
    let header = FIELDS_BYTES + field_size(&new.stamp.bytes) + field_size(&new.guid.bytes);
    (header + name_size(new.name) + new.payload.len()) as u32
}

fn in_place_spans(region: &Region, new: &NewRecord) -> [Span; 3]
    requires new { CanWrite new.now }
    requires fits { fits_behind region.now (new_size new.now) ≡ true }
    ensures spans { result ≡ in_place_spans region.now new.now }
    ensures within { AreWithin result (length region.now.bytes) }
{
    let tail = region.tail().at;
    [
        state_span(
            region,
            RecordState::InDeletedTransition,
            &new.guid,
            new.name,
        ),
        state_span(region, RecordState::Added, &new.guid, new.name),
        Span {
            from: tail,
            to: tail + size_of(new),
        },
    ]
}

fn anew_spans(region: &Region) -> [Span; 3]
    ensures spans { result ≡ anew_spans region.now }
    ensures within { AreWithin result (length region.now.bytes) }
{
    let all = Span {
        from: 0,
        to: region.bytes().len() as u32,
    };
    [all, NOWHERE, NOWHERE]
}

/// Where a put of a new record writes: the two state bytes of its key and its own bytes, where it fits behind the others; else everywhere.
#[tactic(auto, unfolding(crate::specs::Places::put_spans))]
pub fn put_spans(store: Store, bytes: &[u8], new: &NewRecord) -> [Span; 3]
    requires first { first_offset store ≤ length bytes.now }
    requires few { length bytes.now ≤ longest_region }
    requires new { CanWrite new.now }
    ensures spans { result ≡ put_spans store bytes.now new.now }
    ensures within { AreWithin result (length bytes.now) }
{
    let region = region_in(store, bytes);
    if region.fits(size_of(new)) {
        in_place_spans(&region, new)
    } else {
        anew_spans(&region)
    }
}

/// Where a removal of a key writes: its two state bytes.
#[tactic(auto, unfolding(crate::specs::Places::remove_spans))]
pub fn remove_spans(store: Store, bytes: &[u8], guid: &Guid, name: &[u16]) -> [Span; 2]
    requires first { first_offset store ≤ length bytes.now }
    requires few { length bytes.now ≤ longest_region }
    ensures spans { result ≡ remove_spans store bytes.now (key_of guid.now name.now) }
    ensures within { AreWithin result (length bytes.now) }
{
    let region = region_in(store, bytes);
    [
        state_span(&region, RecordState::InDeletedTransition, guid, name),
        state_span(&region, RecordState::Added, guid, name),
    ]
}
