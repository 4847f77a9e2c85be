//! The script that registers policies.
ghost use Rattle.std.specs.Prelude.{◌≡◌, ℕ, [], ◌∷◌, ◌++◌, take, IfOk, OnOk, OnErr};
ghost use Rattle.script_text.specs.ReadBack.{line_of};
ghost use Rattle.var_types.specs.PolicyEntry.{entry_bytes};
ghost use Rattle.policy_audit.specs.Entries.{entries_text, entry_line};

use crate::Policies;
use policy_entry::write_entry;
use script_text::write_call;
use std::alloc::Global;
use var_types::{Bytes, Call, OutOfMemory, Policy, PolicyCall, Put};

fn register_of(alloc: Global, policy: &Policy) -> Result<Call, OutOfMemory>
    ensures { IfOk result (λ call. call ≡ Call.Policy (PolicyCall.Register (entry_bytes policy.now))) }
{
    let mut entry = Bytes::new(alloc);
    write_entry(policy, &mut entry)?;
    Ok(Call::Policy(PolicyCall::Register(entry)))
}

fn write_call_line<P: Put>(call: &Call, out: &mut P)
    ensures { P.Puts out.old out.new (line_of 0 call.now ++ 10 ∷ []) }
{
    out.put(b"0 ");
    write_call(call, out);
    out.put(b"\n");
}

fn write_entry_line<P: Put>(alloc: Global, policy: &Policy, out: &mut P) -> Result<(), OutOfMemory>
    ensures ok { OnOk result (P.Puts out.old out.new (entry_line policy.now)) }
    ensures err { OnErr result (out.new ≡ out.old) }
{
    let call = register_of(alloc, policy)?;
    write_call_line(&call, out);
    Ok(())
}

/// Puts the script that registers policies in their order with processor 0, a line each; out of memory, the lines of some first of them.
pub fn write_entries<P: Put>(
    alloc: Global,
    policies: &Policies,
    out: &mut P,
) -> Result<(), OutOfMemory>
    ensures ok { OnOk result (P.Puts out.old out.new (entries_text policies.now)) }
    ensures err { OnErr result ((count : ℕ) × P.Puts out.old out.new (entries_text (take count policies.now))) }
{
    for policy in policies.as_slice() {
        write_entry_line(alloc, policy.policy(), out)?;
    }
    Ok(())
}
