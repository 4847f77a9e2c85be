//! The policy of an entry.
ghost use Rattle.std.specs.Prelude.{◌≡◌, ◌+◌, ◌≤◌, length, slice_index, IfOk, IfErr, IfSome, None};
ghost use Rattle.policy_entry.specs.Entry.{AreNames, IsStateName, IsWhole, RefusesEntry, fault_from, lent_units};
ghost use Rattle.var_types.specs.Key.{key_of};
ghost use Rattle.var_types.specs.Layout.{longest_name};
ghost use Rattle.var_types.specs.Live.{units_in};
ghost use Rattle.var_types.specs.PolicyEntry.{entry_header_size, entry_of, guid_at, lock_of, lock_type_of, policy_of, state_header_size};

use crate::checks::check;
use crate::names::Names;
use byteorder::{ByteOrder, LittleEndian};
use std::alloc::{AllocError, Global};
use var_types::{EntryFault, Guid, Key, Lock, Policy, Units};

fn guid_at(bytes: &[u8], at: usize) -> Guid
    requires { at + 16 ≤ length bytes.now }
    ensures { result ≡ guid_at bytes.now at }
{
    let mut guid = [0; 16];
    guid.copy_from_slice(&bytes[at..at + 16]);
    Guid { bytes: guid }
}

fn units_of(alloc: Global, name: &[u8]) -> Result<Units, AllocError>
    requires { length (units_in name.now) ≤ longest_name }
    ensures { IfOk result (λ units. units ≡ units_in name.now) }
{
    Units::from_le_bytes(alloc, name)
}

fn own_name(alloc: Global, own: Option<&[u8]>) -> Result<Option<Units>, AllocError>
    requires { IfSome own (λ name. length (units_in name.now) ≤ longest_name) }
    ensures { IfOk result (λ name. name ≡ lent_units own.entry) }
{
    match own {
        None => Ok(None),
        Some(name) => Ok(Some(units_of(alloc, name)?)),
    }
}

fn state_lock(alloc: Global, bytes: &[u8], state: &[u8]) -> Result<Lock, AllocError>
    requires whole { state_header_size ≤ length bytes.now }
    requires name { length (units_in state.now) ≤ longest_name }
    ensures { IfOk result (λ lock. lock ≡ Lock.OnState (key_of (guid_at bytes.now 44) (units_in state.now)) (slice_index bytes.now 60)) }
{
    let guid = guid_at(bytes, 44);
    let name = units_of(alloc, state)?;
    Ok(Lock::OnState {
        key: Key { guid, name },
        value: bytes[60],
    })
}

fn lock_of(alloc: Global, bytes: &[u8], state: &[u8]) -> Result<Lock, AllocError>
    requires whole { IsWhole bytes.now }
    requires known { lock_type_of bytes.now ≤ 3 }
    requires state { IsStateName bytes.now state.now }
    ensures { IfOk result (λ lock. lock ≡ lock_of bytes.now (lock_type_of bytes.now)) }
{
    match bytes[40] {
        0 => Ok(Lock::NoLock),
        1 => Ok(Lock::Now),
        2 => Ok(Lock::OnCreate),
        _ => state_lock(alloc, bytes, state),
    }
}

#[tactic(auto, unfolding(var_types::specs::PolicyEntry::policy_of))]
fn policy_of(alloc: Global, bytes: &[u8], names: &Names) -> Result<Policy, AllocError>
    requires whole { IsWhole bytes.now }
    requires known { lock_type_of bytes.now ≤ 3 }
    requires names { AreNames bytes.now names.now }
    ensures { IfOk result (λ policy. policy ≡ policy_of bytes.now) }
{
    Ok(Policy {
        namespace: guid_at(bytes, 8),
        name: own_name(alloc, names.own)?,
        min: LittleEndian::read_u32(&bytes[24..]),
        max: LittleEndian::read_u32(&bytes[28..]),
        must: LittleEndian::read_u32(&bytes[32..]),
        cant: LittleEndian::read_u32(&bytes[36..]),
        lock: lock_of(alloc, bytes, names.state)?,
    })
}

/// The policy of bytes that no test refuses.
#[tactic(auto, unfolding(var_types::specs::PolicyEntry::entry_of))]
fn read_names(alloc: Global, bytes: &[u8], names: &Names) -> Result<Policy, EntryFault>
    requires whole { IsWhole bytes.now }
    requires known { lock_type_of bytes.now ≤ 3 }
    requires none { fault_from 0 bytes.now ≡ None }
    requires names { AreNames bytes.now names.now }
    ensures ok { IfOk result (λ policy. entry_of bytes.now ≡ Ok policy) }
    ensures err { IfErr result (RefusesEntry bytes.now) }
{
    match policy_of(alloc, bytes, names) {
        Ok(policy) => Ok(policy),
        Err(_) => Err(EntryFault::OutOfMemory),
    }
}

/// The policy whose entry bytes are, or the first test that refuses them. A name is copied only once no test does.
#[tactic(auto, unfolding(var_types::specs::PolicyEntry::entry_of))]
pub fn read_entry(alloc: Global, bytes: &[u8]) -> Result<Policy, EntryFault>
    ensures ok { IfOk result (λ policy. entry_of bytes.now ≡ Ok policy) }
    ensures err { IfErr result (RefusesEntry bytes.now) }
{
    match check(bytes) {
        Err(fault) => Err(fault),
        Ok(names) => read_names(alloc, bytes, &names),
    }
}
