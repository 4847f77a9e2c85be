ghost use Rattle.std.specs.Prelude.{◌≡◌, ◌≤◌, ℕ, drop, length, IfOk, Some};
ghost use Rattle.set_rules.specs.Seen.{reading, seen};
ghost use Rattle.var_types.specs.Policies.{question_of};
ghost use Rattle.var_types.specs.Attributes.{is_append, without_append};
ghost use Rattle.var_types.specs.Reading.{deletes, front_of, is_deletion, kept_bytes, kept_stamp, made_of, skip_of, stamp_of};
ghost use Rattle.var_types.specs.Room.{record_size};
ghost use Rattle.var_types.specs.Set.{change_of, change_over, question};

use crate::view::Stored;
use auth_rules::{later_of, no_stamp, read_descriptor};
use var_types::attributes::{has_access, is_append, is_time_based, without_append};
use var_types::{Ask, Decision, Descriptor, DescriptorFault, SetCall, Stamp, Store};

/// A set as the rule reads it: what is stored at its key, the descriptor that its bytes begin with, and the payload behind that.
#[derive(Clone, Copy)]
pub(crate) struct Reading<'a> {
    pub(crate) call: &'a SetCall,
    pub(crate) stored: Option<Stored<'a>>,
    pub(crate) front: Result<Descriptor, DescriptorFault>,
    pub(crate) payload: &'a [u8],
}

fn front_of(call: &SetCall) -> Result<Descriptor, DescriptorFault>
    ensures is { result ≡ front_of call.now }
    ensures within { IfOk result (λ descriptor. descriptor.length ≤ length call.now.bytes) }
{
    if is_time_based(call.attributes) {
        read_descriptor(call.bytes.as_slice())
    } else {
        Ok(Descriptor {
            stamp: no_stamp(),
            length: 0,
        })
    }
}

fn skip_of(bytes: &[u8], front: Result<Descriptor, DescriptorFault>) -> u64
    ensures { result ≡ skip_of bytes.now front }
{
    match front {
        Ok(descriptor) => descriptor.length,
        Err(_) => bytes.len() as u64,
    }
}

/// The bytes behind the descriptor.
fn payload_of<'a>(bytes: &'a [u8], front: Result<Descriptor, DescriptorFault>) -> &'a [u8]
    requires { IfOk front (λ descriptor. descriptor.length ≤ length bytes.now) }
    ensures { result.now ≡ drop (skip_of bytes.now front) bytes.now }
{
    match front {
        Ok(descriptor) => &bytes[descriptor.length as usize..],
        Err(_) => &bytes[bytes.len()..],
    }
}

fn is_deletion(attributes: u32, payload: &[u8]) -> bool
    ensures { result ≡ is_deletion attributes payload.now }
{
    !has_access(attributes) || payload.is_empty() && !is_append(attributes)
}

fn kept_stamp(append: bool, stored: Option<Stored>, new: Stamp) -> Stamp
    ensures { result ≡ kept_stamp append (seen stored.entry) new }
{
    match stored {
        None => new,
        Some(stored) => {
            if append {
                later_of(new, stored.stamp)
            } else {
                new
            }
        }
    }
}

/// The variable that a set makes, its bytes aside.
fn change_over(set: &Reading, stored: Option<Stored>) -> Decision
    ensures { result ≡ change_over (reading set.now) (seen stored.entry) }
{
    match stored {
        None => set.write(false),
        Some(stored) => set.change_at(&stored),
    }
}

impl<'a> Reading<'a> {
    /// A set as the rule reads it, from what is stored at its key.
    pub(crate) fn of(call: &'a SetCall, stored: Option<Stored<'a>>) -> Reading<'a>
        ensures { reading result ≡ record {
          call = call.now;
          stored = seen stored.entry;
          front = front_of call.now;
          payload = drop (skip_of call.now.bytes (front_of call.now)) call.now.bytes;
        } }
    {
        let front = front_of(call);
        Reading {
            call,
            stored,
            front,
            payload: payload_of(call.bytes.as_slice(), front),
        }
    }

    /// Whether the set deletes.
    #[tactic(auto, unfolding(var_types::specs::Reading::deletes))]
    pub(crate) fn deletes(&self) -> bool
        ensures { result ≡ deletes (reading self.now) }
    {
        is_deletion(self.call.attributes, self.payload)
    }

    /// The stamp of the set's descriptor; none of a broken one.
    pub(crate) fn stamp(&self) -> Stamp
        ensures { result ≡ stamp_of self.now.front }
    {
        match self.front {
            Ok(descriptor) => descriptor.stamp,
            Err(_) => no_stamp(),
        }
    }

    /// The stamp of the variable that the set makes.
    #[tactic(auto, unfolding(var_types::specs::Reading::made_of))]
    pub(crate) fn made_stamp(&self) -> Stamp
        ensures { result ≡ (made_of (reading self.now)).stamp }
    {
        let attributes = self.call.attributes;
        let append = is_time_based(attributes) && is_append(attributes);
        kept_stamp(append, self.stored, self.stamp())
    }

    /// The bytes that stay before the payload.
    pub(crate) fn kept_bytes(&self) -> &'a [u8]
        ensures { result.now ≡ kept_bytes (is_append self.now.call.now.attributes) (seen self.now.stored) }
    {
        match self.stored {
            Some(stored) if is_append(self.call.attributes) => stored.payload,
            _ => &[],
        }
    }

    /// What policies are asked of the set.
    pub(crate) fn ask(&self) -> Ask<'_>
        requires { record_size self.now.call.now.name self.now.payload.now ≤ 33792 }
        ensures { question_of result ≡ question (reading self.now) }
    {
        Ask {
            guid: &self.call.guid,
            name: self.call.name.as_slice(),
            attributes: self.call.attributes,
            payload: self.payload.len() as u32,
            deletes: self.deletes(),
            stored: self.stored.is_some(),
        }
    }

    fn write(&self, append: bool) -> Decision
        ensures { result
            ≡ Decision.Write (without_append self.now.call.now.attributes) (made_of (reading self.now)).stamp
            (skip_of self.now.call.now.bytes self.now.front) append }
    {
        Decision::Write {
            attributes: without_append(self.call.attributes),
            stamp: self.made_stamp(),
            skip: skip_of(self.call.bytes.as_slice(), self.front),
            append,
        }
    }

    /// The change over what is stored.
    fn change_at(&self, stored: &Stored) -> Decision
        ensures { result ≡ change_over (reading self.now) (seen (Some stored.now)) }
    {
        if self.deletes() {
            Decision::Remove(Store::of(stored.attributes))
        } else {
            self.write(is_append(self.call.attributes))
        }
    }

    /// The change that the set makes, where no case of the rule holds.
    #[tactic(auto, unfolding(var_types::specs::Set::change_of))]
    pub(crate) fn change(&self) -> Decision
        ensures { result ≡ change_of (reading self.now) }
    {
        change_over(self, self.stored)
    }
}
