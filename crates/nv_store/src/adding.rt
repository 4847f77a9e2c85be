//! The steps of a write in place that add a new record, on the flash and in the bytes that mirror its volume.
ghost use Rattle.std.specs.Prelude.{◌≡◌, ◌≤◌, ◌+◌, length, count_by, true, IfSome, OnOk};
ghost use Rattle.flash_dev.specs.Moments.{Stays};
ghost use Rattle.nv_store.specs.Mirror.{IsMirrored};
ghost use Rattle.nv_store.specs.Outcome.{with_put};
ghost use Rattle.nv_store.specs.StepsLeft.{IsHeaderTorn, IsMapAs, IsMapOr, IsStepLeft};
ghost use Rattle.outside.specs.Faults.{HasCause};
ghost use Rattle.nv_store.specs.Changes.{lives_in};
ghost use Rattle.nv_store.specs.Places.{new_span};
ghost use Rattle.nv_store.specs.Steps.{IsAdded};
ghost use Rattle.var_header.specs.Header.{header_bytes};
ghost use Rattle.var_region.specs.NewRecord.{IsNew, new_body, new_header, new_key, new_size, new_variable};
ghost use Rattle.var_region.specs.Written.{FitsBehind};
ghost use Rattle.var_types.specs.Attributes.{has, non_volatile_bit};
ghost use Rattle.var_types.specs.Chosen.{is_added};
ghost use Rattle.var_types.specs.declared.store.Store.TheVariants.{NonVolatile};
ghost use Rattle.var_types.specs.Layout.{headers_size, image_size, volume_size};
ghost use Rattle.var_types.specs.Placed.{IsOutsideKept, placed};
ghost use Rattle.var_types.specs.Record.{is_clean};
ghost use Rattle.var_types.specs.Region.{tail_offset};
ghost use Rattle.var_types.specs.Stores.{store_region};

use crate::spans::size_of;
use crate::turning::{program_piece, turn_both};
use flash_dev::{Device, Flash};
use var_header::HEADER_BYTES;
use var_region::{NewRecord, append_body, append_header, region_in};
use var_types::Store;

// The offset behind the records of a volume.
fn tail_of(bytes: &[u8]) -> u32
    requires { length bytes.now ≡ volume_size }
    ensures { result ≡ tail_offset (store_region NonVolatile bytes.now) }
{
    region_in(Store::NonVolatile, bytes).tail().at
}

// Programs a new record's header over erased bytes, in the erased state.
fn write_header<F: Flash>(
    flash: &mut F,
    bytes: &mut [u8],
    at: u32,
    new: &NewRecord,
) -> Result<(), Device>
    requires size { F.size flash.old ≡ image_size }
    requires len { length bytes.old ≡ volume_size }
    requires low { headers_size ≤ at }
    requires room { at + 60 ≤ volume_size }
    requires clean { is_clean bytes.old at ≡ true }
    requires new { IsNew new.now }
    requires mirrored { IfSome (F.holds flash.old) (IsMirrored bytes.old) }
    ensures written { OnOk result (bytes.new ≡ placed at (header_bytes (new_header 0xFF new.now)) bytes.old) }
    ensures mirrored { OnOk result (IfSome (F.holds flash.new) (IsMirrored bytes.new)) }
    ensures at_any_moment { Stays (IsStepLeft (IsHeaderTorn at bytes.old)) F.moment F.left_since F.holds flash.old flash.new }
    ensures same_size { F.size flash.new ≡ F.size flash.old }
    ensures cause { HasCause (F.fault_count flash.old) (F.fault_count flash.new) result }
{
    append_header(bytes, at, 0xFF, new);
    let from = at as usize;
    program_piece(flash, at, &bytes[from..from + HEADER_BYTES])
}

// Programs a new record's name and data over erased bytes, behind the header that stands at an offset.
fn write_body<F: Flash>(
    flash: &mut F,
    bytes: &mut [u8],
    at: u32,
    new: &NewRecord,
) -> Result<(), Device>
    requires size { F.size flash.old ≡ image_size }
    requires len { length bytes.old ≡ volume_size }
    requires low { headers_size ≤ at }
    requires room { at + new_size new.now ≤ volume_size }
    requires clean { is_clean bytes.old (at + 60) ≡ true }
    requires new { IsNew new.now }
    requires mirrored { IfSome (F.holds flash.old) (IsMirrored bytes.old) }
    ensures written { OnOk result (bytes.new ≡ placed (at + 60) (new_body new.now) bytes.old) }
    ensures mirrored { OnOk result (IfSome (F.holds flash.new) (IsMirrored bytes.new)) }
    ensures at_any_moment { Stays (IsStepLeft (IsOutsideKept (at + 60) (at + new_size new.now) bytes.old)) F.moment F.left_since F.holds flash.old flash.new }
    ensures same_size { F.size flash.new ≡ F.size flash.old }
    ensures cause { HasCause (F.fault_count flash.old) (F.fault_count flash.new) result }
{
    append_body(bytes, at, new);
    let from = at as usize;
    let end = from + size_of(new) as usize;
    program_piece(
        flash,
        at + HEADER_BYTES as u32,
        &bytes[from + HEADER_BYTES..end],
    )
}

// Begins a new record at the tail: its header stands, and its state says that no more does.
fn begin_new<F: Flash>(
    flash: &mut F,
    bytes: &mut [u8],
    at: u32,
    new: &NewRecord,
) -> Result<(), Device>
    requires size { F.size flash.old ≡ image_size }
    requires len { length bytes.old ≡ volume_size }
    requires tail { at ≡ tail_offset (store_region NonVolatile bytes.old) }
    requires fits { FitsBehind (store_region NonVolatile bytes.old) new.now }
    requires mirrored { IfSome (F.holds flash.old) (IsMirrored bytes.old) }
    ensures begun { OnOk result (bytes.new ≡ placed at (header_bytes (new_header 0x7F new.now)) bytes.old) }
    ensures mirrored { OnOk result (IfSome (F.holds flash.new) (IsMirrored bytes.new)) }
    ensures at_any_moment { Stays (IsStepLeft (IsMapAs bytes.old)) F.moment F.left_since F.holds flash.old flash.new }
    ensures same_size { F.size flash.new ≡ F.size flash.old }
    ensures cause { HasCause (F.fault_count flash.old) (F.fault_count flash.new) result }
{
    write_header(flash, bytes, at, new)?;
    turn_both(flash, bytes, at + 2, 0xFF, 0x7F)
}

/// Adds a new record at the tail, in four steps: its header in the erased state, its state, its name and data, and the state ADDED. What is read
/// changes with the last of them.
pub(crate) fn add_record<F: Flash>(
    flash: &mut F,
    bytes: &mut [u8],
    new: &NewRecord,
) -> Result<(), Device>
    requires size { F.size flash.old ≡ image_size }
    requires len { length bytes.old ≡ volume_size }
    requires fits { FitsBehind (store_region NonVolatile bytes.old) new.now }
    requires of_store { has new.now.attributes non_volatile_bit ≡ true }
    requires none { count_by (is_added (new_key new.now)) (lives_in NonVolatile bytes.old) ≡ 0 }
    requires mirrored { IfSome (F.holds flash.old) (IsMirrored bytes.old) }
    ensures added { OnOk result (IsAdded NonVolatile (new_key new.now) (new_variable new.now) (new_span (store_region NonVolatile bytes.old) new.now) bytes.old bytes.new) }
    ensures mirrored { OnOk result (IfSome (F.holds flash.new) (IsMirrored bytes.new)) }
    ensures at_any_moment { Stays (IsStepLeft (IsMapOr (with_put (new_key new.now) (new_variable new.now)) bytes.old)) F.moment F.left_since F.holds flash.old flash.new }
    ensures same_size { F.size flash.new ≡ F.size flash.old }
    ensures cause { HasCause (F.fault_count flash.old) (F.fault_count flash.new) result }
{
    let at = tail_of(bytes);
    begin_new(flash, bytes, at, new)?;
    write_body(flash, bytes, at, new)?;
    turn_both(flash, bytes, at + 2, 0x7F, 0x3F)
}
