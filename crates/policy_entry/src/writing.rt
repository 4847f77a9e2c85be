//! The entry of a policy.
ghost use Rattle.std.specs.Prelude.{◌≡◌, ◌+◌, ◌≤◌, [], ◌∷◌, ◌++◌, length, take, flat_map, OnOk, OnErr};
ghost use Rattle.byteorder.specs.Endian.{little_bytes};
ghost use Rattle.policy_entry.specs.Entry.{IsLonger};
ghost use Rattle.var_types.specs.PolicyEntry.{entry_bytes, entry_header, entry_size, lock_field, lock_type, name_field, nul_ended, offset_to_name};

use crate::checks::{HEADER_BYTES, VERSION};
use var_types::{Bytes, Guid, Key, Lock, OutOfMemory, Policy, Units};

/// How many bytes a name has with its NUL.
#[tactic(auto, using(crate::proofs::Sizes::nul_ended_size))]
fn name_size(name: &Units) -> usize
    ensures size { result ≡ length (nul_ended name.now) }
    ensures small { result ≤ 2050 }
{
    2 * name.as_slice().len() + 2
}

fn guid_size(guid: Guid) -> usize
    ensures size { result ≡ length guid.bytes }
    ensures sixteen { result ≡ 16 }
{
    guid.bytes.len()
}

/// How many bytes a lock on a variable's state has behind the fixed fields of all entries.
fn state_size(key: &Key) -> usize
    ensures size { result ≡ length key.now.guid.bytes + 2 + length (nul_ended key.now.name) }
    ensures small { result ≤ 2068 }
{
    guid_size(key.guid) + 2 + name_size(&key.name)
}

#[tactic(auto, using(crate::proofs::Sizes::state_field_size))]
fn lock_size(lock: &Lock) -> usize
    ensures size { result ≡ length (lock_field lock.now) }
    ensures small { result ≤ 2068 }
{
    match lock {
        Lock::NoLock | Lock::Now | Lock::OnCreate => 0,
        Lock::OnState { key, .. } => state_size(key),
    }
}

fn own_size(name: &Option<Units>) -> usize
    ensures size { result ≡ length (name_field name.now) }
    ensures small { result ≤ 2050 }
{
    match name {
        None => 0,
        Some(name) => name_size(name),
    }
}

fn offset_to_name(policy: &Policy) -> u16
    ensures size { result ≡ offset_to_name policy.now }
    ensures small { result ≤ 2112 }
{
    (HEADER_BYTES + lock_size(&policy.lock)) as u16
}

fn entry_size(policy: &Policy) -> u16
    ensures { result ≡ entry_size policy.now }
{
    offset_to_name(policy) + own_size(&policy.name) as u16
}

fn lock_type(lock: &Lock) -> u8
    ensures { result ≡ lock_type lock.now }
{
    match lock {
        Lock::NoLock => 0,
        Lock::Now => 1,
        Lock::OnCreate => 2,
        Lock::OnState { .. } => 3,
    }
}

// Writes bytes at an offset, behind those that are written already.
fn write_at(into: &mut [u8], at: usize, bytes: &[u8])
    requires { at + length bytes.now ≤ length into.old }
    ensures { take (at + length bytes.now) into.new ≡ take at into.old ++ bytes.now }
{
    into[at..at + bytes.len()].copy_from_slice(bytes);
}

fn write_front(policy: &Policy, into: &mut [u8])
    requires { length into.old ≡ 44 }
    ensures { take 24 into.new ≡ little_bytes 4 0x00010000 ++ little_bytes 2 (entry_size policy.now) ++ little_bytes 2 (offset_to_name policy.now) ++ policy.now.namespace.bytes }
{
    write_at(into, 0, &VERSION.to_le_bytes());
    write_at(into, 4, &entry_size(policy).to_le_bytes());
    write_at(into, 6, &offset_to_name(policy).to_le_bytes());
    write_at(into, 8, &policy.namespace.bytes);
}

fn write_back(policy: &Policy, into: &mut [u8])
    requires { length into.old ≡ 44 }
    ensures { take 44 into.new ≡ take 24 into.old ++ little_bytes 4 policy.now.min ++ little_bytes 4 policy.now.max ++ little_bytes 4 policy.now.must ++ little_bytes 4 policy.now.cant ++ (lock_type policy.now.lock ∷ 0 ∷ 0 ∷ 0 ∷ []) }
{
    write_at(into, 24, &policy.min.to_le_bytes());
    write_at(into, 28, &policy.max.to_le_bytes());
    write_at(into, 32, &policy.must.to_le_bytes());
    write_at(into, 36, &policy.cant.to_le_bytes());
    write_at(into, 40, &[lock_type(&policy.lock), 0, 0, 0]);
}

/// The fixed fields of an entry.
fn header_of(policy: &Policy) -> [u8; 44]
    ensures { result ≡ entry_header policy.now }
{
    let mut header = [0; HEADER_BYTES];
    write_front(policy, &mut header);
    write_back(policy, &mut header);
    header
}

fn put_units(units: &[u16], out: &mut Bytes) -> Result<(), OutOfMemory>
    ensures ok { OnOk result (out.new ≡ out.old ++ flat_map (little_bytes 2) units.now) }
    ensures err { OnErr result (IsLonger out.old out.new) }
{
    for unit in units {
        out.append(&unit.to_le_bytes())?;
    }
    Ok(())
}

fn put_name(name: &Units, out: &mut Bytes) -> Result<(), OutOfMemory>
    ensures ok { OnOk result (out.new ≡ out.old ++ nul_ended name.now) }
    ensures err { OnErr result (IsLonger out.old out.new) }
{
    put_units(name.as_slice(), out)?;
    out.append(&[0, 0])
}

fn put_state(key: &Key, value: u8, out: &mut Bytes) -> Result<(), OutOfMemory>
    ensures ok { OnOk result (out.new ≡ out.old ++ (key.now.guid.bytes ++ (value ∷ 0 ∷ []) ++ nul_ended key.now.name)) }
    ensures err { OnErr result (IsLonger out.old out.new) }
{
    out.append(&key.guid.bytes)?;
    out.append(&[value, 0])?;
    put_name(&key.name, out)
}

fn put_lock(lock: &Lock, out: &mut Bytes) -> Result<(), OutOfMemory>
    ensures ok { OnOk result (out.new ≡ out.old ++ lock_field lock.now) }
    ensures err { OnErr result (IsLonger out.old out.new) }
{
    match lock {
        Lock::NoLock | Lock::Now | Lock::OnCreate => Ok(()),
        Lock::OnState { key, value } => put_state(key, *value, out),
    }
}

fn put_own(name: &Option<Units>, out: &mut Bytes) -> Result<(), OutOfMemory>
    ensures ok { OnOk result (out.new ≡ out.old ++ name_field name.now) }
    ensures err { OnErr result (IsLonger out.old out.new) }
{
    match name {
        None => Ok(()),
        Some(name) => put_name(name, out),
    }
}

#[tactic(auto, unfolding(var_types::specs::PolicyEntry::entry_bytes))]
fn put_entry(policy: &Policy, out: &mut Bytes) -> Result<(), OutOfMemory>
    ensures ok { OnOk result (out.new ≡ out.old ++ entry_bytes policy.now) }
    ensures err { OnErr result (IsLonger out.old out.new) }
{
    out.append(&header_of(policy))?;
    put_lock(&policy.lock, out)?;
    put_own(&policy.name, out)
}

/// Appends the bytes of a policy's entry; out of memory, nothing is appended.
pub fn write_entry(policy: &Policy, out: &mut Bytes) -> Result<(), OutOfMemory>
    ensures ok { OnOk result (out.new ≡ out.old ++ entry_bytes policy.now) }
    ensures err { OnErr result (out.new ≡ out.old) }
{
    let length = out.as_slice().len();
    match put_entry(policy, out) {
        Ok(()) => Ok(()),
        Err(error) => {
            out.truncate(length);
            Err(error)
        }
    }
}
