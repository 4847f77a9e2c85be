//! What a write puts into the map.
ghost use Rattle.std.specs.Prelude.{◌≡◌, ◌≤◌, length, IfOk, IsSome, OnOk, OnErr, None, Some};
ghost use Rattle.std.specs.BTreeMap.{IsOrdered, get};
ghost use Rattle.svc_plain.specs.Written.{IsWritten, written};
ghost use Rattle.var_types.specs.Key.{key_cmp};

use std::alloc::Global;
use std::collections::BTreeMap;
use var_types::{Bytes, Key, OutOfMemory, SetCall, Stamp, Variable};

/// What a write puts: attributes and stamp of the variable, how many bytes of the call stand before its payload, and whether the payload
/// is put behind what is stored.
#[derive(Clone, Copy)]
pub(crate) struct Write {
    pub(crate) attributes: u32,
    pub(crate) stamp: Stamp,
    pub(crate) skip: u64,
    pub(crate) append: bool,
}

/// The variable of a write over nothing, for which the payload is copied.
fn new_variable(alloc: Global, call: &SetCall, write: &Write) -> Result<Variable, OutOfMemory>
    requires { write.now.skip ≤ length call.now.bytes }
    ensures { IfOk result (λ variable. variable ≡ written call.now None write.now) }
{
    let payload = &call.bytes.as_slice()[write.skip as usize..];
    Ok(Variable {
        attributes: write.attributes,
        bytes: Bytes::copy(alloc, payload)?,
        stamp: write.stamp,
    })
}

/// Writes over a variable: its bytes stay where the write appends. Out of memory, it stays as it was.
fn rewrite(
    alloc: Global,
    variable: &mut Variable,
    call: &SetCall,
    write: &Write,
) -> Result<(), OutOfMemory>
    requires { write.now.skip ≤ length call.now.bytes }
    ensures ok { OnOk result (variable.new ≡ written call.now (Some variable.old) write.now) }
    ensures err { OnErr result (variable.new ≡ variable.old) }
{
    let payload = &call.bytes.as_slice()[write.skip as usize..];
    if write.append {
        variable.bytes.append(payload)?;
    } else {
        variable.bytes = Bytes::copy(alloc, payload)?;
    }
    variable.attributes = write.attributes;
    variable.stamp = write.stamp;
    Ok(())
}

/// Writes over the variable at a key. Out of memory, the map stays as it was.
fn overwrite(
    alloc: Global,
    variables: &mut BTreeMap<Key, Variable>,
    key: &Key,
    call: &SetCall,
    write: &Write,
) -> Result<(), OutOfMemory>
    requires there { IsSome (get key_cmp variables.old key.now) }
    requires within { write.now.skip ≤ length call.now.bytes }
    ensures ok { OnOk result (IsWritten variables.old.entries variables.new.entries key.now call.now write.now) }
    ensures ordered { OnOk result (IsOrdered key_cmp variables.old) }
    ensures err { OnErr result (variables.new.entries ≡ variables.old.entries) }
{
    match variables.get_mut(key) {
        Some(variable) => rewrite(alloc, variable, call, write),
        None => Ok(()),
    }
}

/// Puts the variable of a write at a key that had none. Out of memory, the map stays as it was.
fn put_new(
    alloc: Global,
    variables: &mut BTreeMap<Key, Variable>,
    key: &Key,
    call: &SetCall,
    write: &Write,
) -> Result<(), OutOfMemory>
    requires absent { get key_cmp variables.old key.now ≡ None }
    requires within { write.now.skip ≤ length call.now.bytes }
    ensures ok { OnOk result (IsWritten variables.old.entries variables.new.entries key.now call.now write.now) }
    ensures ordered { OnOk result (IsOrdered key_cmp variables.old) }
    ensures err { OnErr result (variables.new.entries ≡ variables.old.entries) }
{
    let variable = new_variable(alloc, call, write)?;
    variables.insert(key.clone()?, variable)?;
    Ok(())
}

/// Puts the variable of a write at a key. Out of memory, the map stays as it was.
pub(crate) fn put(
    alloc: Global,
    variables: &mut BTreeMap<Key, Variable>,
    key: &Key,
    call: &SetCall,
    write: &Write,
) -> Result<(), OutOfMemory>
    requires { write.now.skip ≤ length call.now.bytes }
    ensures ok { OnOk result (IsWritten variables.old.entries variables.new.entries key.now call.now write.now) }
    ensures ordered { OnOk result (IsOrdered key_cmp variables.old) }
    ensures err { OnErr result (variables.new.entries ≡ variables.old.entries) }
{
    if variables.contains_key(key) {
        overwrite(alloc, variables, key, call, write)
    } else {
        put_new(alloc, variables, key, call, write)
    }
}
