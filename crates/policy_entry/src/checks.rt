//! The tests of an entry, in the order in which they are made.
ghost use Rattle.std.specs.Prelude.{◌≡◌, ◌≤◌, true, false, length, drop, IfOk, IfErr, IfSome, IsOk, Some, None};
ghost use Rattle.policy_entry.specs.Entry.{AreNames, IsLockName, IsStateName, IsWhole, fault_from, lent_units};
ghost use Rattle.var_types.specs.Live.{units_in};
ghost use Rattle.var_types.specs.Layout.{longest_name};
ghost use Rattle.var_types.specs.PolicyEntry.{entry_header_size, is_missized, is_name, lock_type_of, locks_on_state, name_length, name_offset, name_wildcards, state_header_size};

use crate::front_name::{count_wildcards, front_name};
use crate::names::Names;
use byteorder::{ByteOrder, LittleEndian};
use var_types::EntryFault;

/// How many bytes the fixed fields have.
pub(crate) const HEADER_BYTES: usize = 44;

/// The same with those of a lock on a variable's state.
pub(crate) const STATE_HEADER_BYTES: usize = 62;

/// The lock type of a lock on a variable's state, the last one.
const ON_STATE: u8 = 3;

/// The version of entries.
pub(crate) const VERSION: u32 = 0x0001_0000;

/// How many wildcards a name may have.
const MOST_WILDCARDS: usize = 254;

pub(crate) fn locks_on_state(bytes: &[u8]) -> bool
    requires { entry_header_size ≤ length bytes.now }
    ensures { result ≡ locks_on_state bytes.now }
{
    bytes[40] == ON_STATE
}

fn is_missized(bytes: &[u8]) -> bool
    ensures size { result ≡ is_missized bytes.now }
    ensures whole { result ≡ false → IsWhole bytes.now }
{
    bytes.len() < HEADER_BYTES
        || usize::from(LittleEndian::read_u16(&bytes[4..])) != bytes.len()
        || locks_on_state(bytes) && bytes.len() < STATE_HEADER_BYTES
}

/// The last test, of the sizes.
#[tactic(auto, unfolding(var_types::specs::PolicyEntry::entry_tests))]
fn check_sizes<'a>(bytes: &'a [u8], names: Names<'a>) -> Result<Names<'a>, EntryFault>
    requires header { entry_header_size ≤ length bytes.now }
    requires names { AreNames bytes.now names }
    ensures ok { IfOk result (λ names. (fault_from 7 bytes.now ≡ None) × AreNames bytes.now names) }
    ensures err { IfErr result (λ fault. fault_from 7 bytes.now ≡ Some fault) }
{
    if LittleEndian::read_u32(&bytes[28..]) < LittleEndian::read_u32(&bytes[24..]) {
        return Err(EntryFault::MinAboveMax);
    }
    Ok(names)
}

fn own_wildcards(own: Option<&[u8]>) -> usize
    ensures count { result ≡ name_wildcards (lent_units own.entry) }
    ensures few { IfSome own.entry (λ name. length (units_in name.now) ≤ longest_name) → result ≤ longest_name }
{
    match own {
        None => 0,
        Some(name) => count_wildcards(name),
    }
}

/// The tests from that of the wildcards on.
#[tactic(auto, unfolding(var_types::specs::PolicyEntry::entry_tests))]
fn check_wildcards<'a>(bytes: &'a [u8], names: Names<'a>) -> Result<Names<'a>, EntryFault>
    requires header { entry_header_size ≤ length bytes.now }
    requires names { AreNames bytes.now names }
    ensures ok { IfOk result (λ names. (fault_from 6 bytes.now ≡ None) × AreNames bytes.now names) }
    ensures err { IfErr result (λ fault. fault_from 6 bytes.now ≡ Some fault) }
{
    let count = own_wildcards(names.own);
    if count > MOST_WILDCARDS {
        let count = count as u32;
        return Err(EntryFault::Wildcards { count });
    }
    check_sizes(bytes, names)
}

/// The tests from that of the entry's own name on, which stands at an offset.
#[tactic(auto, unfolding(var_types::specs::PolicyEntry::entry_tests))]
fn check_own_name<'a>(bytes: &'a [u8], at: usize, state: &'a [u8]) -> Result<Names<'a>, EntryFault>
    requires header { entry_header_size ≤ length bytes.now }
    requires at { at ≡ name_offset bytes.now }
    requires within { at ≤ length bytes.now }
    requires state { IsStateName bytes.now state.now }
    ensures ok { IfOk result (λ names. (fault_from 5 bytes.now ≡ None) × AreNames bytes.now names) }
    ensures err { IfErr result (λ fault. fault_from 5 bytes.now ≡ Some fault) }
{
    let rest = &bytes[at..];
    if rest.is_empty() {
        return check_wildcards(bytes, Names { state, own: None });
    }
    match front_name(rest) {
        None => Err(EntryFault::NameForm),
        Some(name) => {
            if rest.len() != name.len() + 2 {
                return Err(EntryFault::NameForm);
            }
            let own = Some(name);
            check_wildcards(bytes, Names { state, own })
        }
    }
}

/// The tests from that of OffsetToName on, which has to be this offset.
#[tactic(auto, unfolding(var_types::specs::PolicyEntry::entry_tests))]
fn check_offset<'a>(bytes: &'a [u8], at: usize, state: &'a [u8]) -> Result<Names<'a>, EntryFault>
    requires header { entry_header_size ≤ length bytes.now }
    requires at { at ≡ name_offset bytes.now }
    requires within { at ≤ length bytes.now }
    requires state { IsStateName bytes.now state.now }
    ensures ok { IfOk result (λ names. (fault_from 4 bytes.now ≡ None) × AreNames bytes.now names) }
    ensures err { IfErr result (λ fault. fault_from 4 bytes.now ≡ Some fault) }
{
    if usize::from(LittleEndian::read_u16(&bytes[6..])) != at {
        return Err(EntryFault::Offset);
    }
    check_own_name(bytes, at, state)
}

/// The bytes from an offset on.
fn from_offset<'a>(bytes: &'a [u8], at: usize) -> &'a [u8]
    requires { at ≤ length bytes.now }
    ensures { result.now ≡ drop at bytes.now }
{
    &bytes[at..]
}

/// The name of the variable whose state locks.
fn state_name<'a>(bytes: &'a [u8]) -> Option<&'a [u8]>
    requires whole { state_header_size ≤ length bytes.now }
    requires state { locks_on_state bytes.now ≡ true }
    ensures none { result ≡ None → is_name (name_length bytes.now state_header_size) ≡ false }
    ensures some { IfSome result (λ name. IsLockName bytes.now name.now) }
{
    front_name(from_offset(bytes, STATE_HEADER_BYTES))
}

/// The tests of a lock on a variable's state from that of its name on.
#[tactic(auto, unfolding(var_types::specs::PolicyEntry::entry_tests))]
fn check_state<'a>(bytes: &'a [u8]) -> Result<Names<'a>, EntryFault>
    requires whole { IsWhole bytes.now }
    requires state { locks_on_state bytes.now ≡ true }
    ensures ok { IfOk result (λ names. (fault_from 3 bytes.now ≡ None) × AreNames bytes.now names) }
    ensures err { IfErr result (λ fault. fault_from 3 bytes.now ≡ Some fault) }
{
    match state_name(bytes) {
        None => Err(EntryFault::NameForm),
        Some(name) => check_offset(bytes, STATE_HEADER_BYTES + name.len() + 2, name),
    }
}

/// The tests from that of the lock's own name on.
#[tactic(auto, unfolding(var_types::specs::PolicyEntry::entry_tests))]
fn check_lock<'a>(bytes: &'a [u8]) -> Result<Names<'a>, EntryFault>
    requires { IsWhole bytes.now }
    ensures ok { IfOk result (λ names. (fault_from 3 bytes.now ≡ None) × AreNames bytes.now names) }
    ensures err { IfErr result (λ fault. fault_from 3 bytes.now ≡ Some fault) }
{
    if locks_on_state(bytes) {
        return check_state(bytes);
    }
    check_offset(bytes, HEADER_BYTES, &bytes[..0])
}

/// The tests from that of the lock type on.
#[tactic(auto, unfolding(var_types::specs::PolicyEntry::entry_tests))]
fn check_lock_type<'a>(bytes: &'a [u8]) -> Result<Names<'a>, EntryFault>
    requires { IsWhole bytes.now }
    ensures ok { IfOk result (λ names. (fault_from 2 bytes.now ≡ None) × AreNames bytes.now names) }
    ensures known { IsOk result → lock_type_of bytes.now ≤ 3 }
    ensures err { IfErr result (λ fault. fault_from 2 bytes.now ≡ Some fault) }
{
    let value = bytes[40];
    if value > ON_STATE {
        return Err(EntryFault::LockType { value });
    }
    check_lock(bytes)
}

/// The tests from that of the version on.
#[tactic(auto, unfolding(var_types::specs::PolicyEntry::entry_tests))]
fn check_version<'a>(bytes: &'a [u8]) -> Result<Names<'a>, EntryFault>
    requires { IsWhole bytes.now }
    ensures ok { IfOk result (λ names. (fault_from 1 bytes.now ≡ None) × AreNames bytes.now names) }
    ensures known { IsOk result → lock_type_of bytes.now ≤ 3 }
    ensures err { IfErr result (λ fault. fault_from 1 bytes.now ≡ Some fault) }
{
    if LittleEndian::read_u32(bytes) != VERSION {
        return Err(EntryFault::Version);
    }
    check_lock_type(bytes)
}

/// The names of bytes that are an entry, or the first test that refuses them.
#[tactic(auto, unfolding(var_types::specs::PolicyEntry::entry_tests))]
pub(crate) fn check<'a>(bytes: &'a [u8]) -> Result<Names<'a>, EntryFault>
    ensures ok { IfOk result (λ names. (fault_from 0 bytes.now ≡ None) × AreNames bytes.now names) }
    ensures whole { IsOk result → IsWhole bytes.now }
    ensures known { IsOk result → lock_type_of bytes.now ≤ 3 }
    ensures err { IfErr result (λ fault. fault_from 0 bytes.now ≡ Some fault) }
{
    if is_missized(bytes) {
        return Err(EntryFault::Size);
    }
    check_version(bytes)
}
