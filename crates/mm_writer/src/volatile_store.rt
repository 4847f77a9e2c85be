ghost use Rattle.std.specs.Prelude.{◌≡◌, IfOk, length, true, false};
ghost use Rattle.flash_dev.specs.Blank.{blank_volatile};
ghost use Rattle.mm_writer.specs.Edit.{CanEdit, CanPut, IsEdited, edit_spans};
ghost use Rattle.mm_writer.specs.declared.edit.Edit.TheVariants.{Put as Putting};
ghost use Rattle.nv_store.specs.Tidy.{IsTidy};
ghost use Rattle.var_region.specs.NewRecord.{AreValues, new_size};
ghost use Rattle.var_region.specs.Written.{fits_behind};
ghost use Rattle.var_types.specs.declared.store.Store.TheVariants.{Volatile};
ghost use Rattle.var_types.specs.Layout.{volatile_size};
ghost use Rattle.var_types.specs.Region.{tail_offset};
ghost use Rattle.var_types.specs.Spans.{AreWithin};
ghost use Rattle.var_types.specs.Stores.{store_region};

use crate::edit::Edit;
use crate::in_memory::{fits, put_at, put_spans, remove, remove_spans, tail_of};
use flash_dev::{VOLATILE_BYTES, write_blank_volatile};
use nv_store::{put_anew, size_of};
use std::alloc::Global;
use std::marker::Model;
use std::mem::swap;
use var_region::NewRecord;
use var_types::{OutOfMemory, Span, Store, align4};

// Makes bytes the store without variables, in which nothing is left over.
#[tactic(auto, using(crate::proofs::Beginnings::blank_tidy))]
fn write_blank(bytes: &mut [u8])
    requires { length bytes.old ≡ volatile_size }
    ensures blank { bytes.new ≡ blank_volatile }
    ensures tidy { IsTidy (store_region Volatile bytes.new) }
    ensures size { length bytes.new ≡ length bytes.old }
{
    write_blank_volatile(bytes);
}

// Puts a new record that fits behind the others, and answers the offset behind it.
fn put_behind(bytes: &mut [u8], tail: u32, new: &NewRecord) -> u32
    requires size { length bytes.old ≡ volatile_size }
    requires tidy { IsTidy (store_region Volatile bytes.old) }
    requires tail { tail ≡ tail_offset (store_region Volatile bytes.old) }
    requires can { CanPut Volatile bytes.old new.now }
    requires values { AreValues new.now }
    requires fits { fits_behind (store_region Volatile bytes.old) (new_size new.now) ≡ true }
    ensures edited { IsEdited Volatile (Putting new.now) bytes.old bytes.new }
    ensures tidy { IsTidy (store_region Volatile bytes.new) }
    ensures tail { result ≡ tail_offset (store_region Volatile bytes.new) }
{
    let end = u64::from(tail) + u64::from(size_of(new));
    put_at(bytes, tail, new);
    align4(end) as u32
}

// Writes a store compacted with a new record that doesn't fit behind the others, and answers the offset behind the records.
fn put_compacted(bytes: &[u8], new: &NewRecord, into: &mut [u8]) -> u32
    requires size { length bytes.now ≡ volatile_size }
    requires into { length into.old ≡ volatile_size }
    requires can { CanPut Volatile bytes.now new.now }
    requires full { fits_behind (store_region Volatile bytes.now) (new_size new.now) ≡ false }
    ensures edited { IsEdited Volatile (Putting new.now) bytes.now into.new }
    ensures tidy { IsTidy (store_region Volatile into.new) }
    ensures tail { result ≡ tail_offset (store_region Volatile into.new) }
{
    match put_anew(Store::Volatile, bytes, new, into) {
        Ok(()) => tail_of(into),
        // There is room for it, as the caller knows.
        Err(_) => 0,
    }
}

/// The volatile store: a region of 65,536 bytes in memory, compacted where a record doesn't fit behind the others. It takes memory when it is
/// made, and none later.
#[derive(Drop)]
pub struct VolatileStore {
    bytes: Vec<u8>,
    scratch: Vec<u8>,
    /// The offset behind the records.
    tail: u32,
}

impl Model for VolatileStore {
    ghost use Rattle.std.specs.Prelude.{◌≡◌, List, length, ℕ};
    ghost use Rattle.nv_store.specs.Tidy.{IsTidy};
    ghost use Rattle.mm_writer.specs.declared.edit.Edit.TheVariants.{Put as Putting, Remove as Removing};
    ghost use Rattle.nv_store.specs.Tidy.{IsTidy};
    ghost use Rattle.var_region.specs.NewRecord.{AreValues, new_size};
    ghost use Rattle.var_region.specs.Written.{fits_behind};
    ghost use Rattle.var_types.specs.declared.store.Store.TheVariants.{Volatile};
    ghost use Rattle.var_types.specs.Layout.{volatile_size};
    ghost use Rattle.var_types.specs.Region.{tail_offset};
    ghost use Rattle.var_types.specs.Stores.{store_region};

    ghost Value = { List ℕ };

    ghost view = { λ s. s.bytes.items };

    ghost invariant = { λ s. (length s.bytes.items ≡ volatile_size) × (length s.scratch.items ≡ volatile_size) × IsTidy (store_region Volatile s.bytes.items) × (s.tail ≡ tail_offset (store_region Volatile s.bytes.items)) };
}

impl VolatileStore {
    /// A store without variables.
    pub fn new(alloc: Global) -> Result<VolatileStore, OutOfMemory>
        ensures { IfOk result (λ store. store ≡ blank_volatile) }
    {
        let mut bytes = vec![in alloc; 0u8; VOLATILE_BYTES]?;
        let scratch = vec![in alloc; 0u8; VOLATILE_BYTES]?;
        write_blank(&mut bytes);
        let tail = tail_of(&bytes);
        Ok(VolatileStore {
            bytes,
            scratch,
            tail,
        })
    }

    /// Its bytes, its header included.
    pub fn bytes(&self) -> &[u8]
        ensures bytes { result.now ≡ self.now }
        ensures size { length self.now ≡ volatile_size }
    {
        &self.bytes
    }

    /// Where an edit will write.
    #[tactic(auto, unfolding(crate::specs::Edit::edit_spans))]
    pub(crate) fn spans(&self, edit: &Edit) -> [Span; 3]
        requires { CanEdit Volatile self.now edit.now }
        ensures spans { result ≡ edit_spans Volatile self.now edit.now }
        ensures within { AreWithin result (length self.now) }
    {
        match edit {
            Edit::Put(new) => put_spans(&self.bytes, self.tail, new),
            Edit::Remove { guid, name } => remove_spans(&self.bytes, guid, name),
        }
    }

    // Puts a new record behind the others where it fits there, else into the store compacted.
    fn put(&mut self, new: &NewRecord)
        requires { CanPut Volatile self.old new.now }
        ensures { IsEdited Volatile (Putting new.now) self.old self.new }
    {
        if fits(&self.bytes, self.tail, new) {
            self.tail = put_behind(&mut self.bytes, self.tail, new);
            return;
        }
        self.tail = put_compacted(&self.bytes, new, &mut self.scratch);
        swap(&mut self.bytes, &mut self.scratch);
    }

    /// Makes an edit.
    pub(crate) fn edit(&mut self, edit: &Edit)
        requires { CanEdit Volatile self.old edit.now }
        ensures { IsEdited Volatile edit.now self.old self.new }
    {
        match edit {
            Edit::Put(new) => self.put(new),
            Edit::Remove { guid, name } => remove(&mut self.bytes, guid, name),
        }
    }
}
