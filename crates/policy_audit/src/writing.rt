//! The lines of policies.
ghost use Rattle.policy_audit.specs.Written.{lock_text, max_text, own_text, policies_text, policy_line_text, policy_text};
ghost use Rattle.std.specs.Prelude.{[], ◌∷◌, codes, decimal};
ghost use Rattle.var_types.specs.Guid.{guid_text};
ghost use Rattle.var_types.specs.Texts.{attributes_text, name_text, spaced};

use crate::Policies;
use crate::values::NO_MAX_SIZE;
use var_types::text::{write_attributes, write_name, write_number};
use var_types::{Key, Lock, Policy, Put, Units};

fn write_u32<P: Put>(n: u32, out: &mut P)
    ensures { P.Puts out.old out.new (decimal n) }
{
    write_number(u64::from(n), out);
}

fn write_units<P: Put>(name: &Units, out: &mut P)
    ensures { P.Puts out.old out.new (name_text name.now) }
{
    write_name(name.as_slice(), out);
}

fn write_own<P: Put>(name: &Option<Units>, out: &mut P)
    ensures { P.Puts out.old out.new (own_text name.now) }
{
    match name {
        None => out.put(b"-"),
        Some(units) => write_units(units, out),
    }
}

fn write_max<P: Put>(max: u32, out: &mut P)
    ensures { P.Puts out.old out.new (max_text max) }
{
    if max == NO_MAX_SIZE {
        return out.put(b"-");
    }
    write_u32(max, out);
}

fn write_state<P: Put>(key: &Key, value: u8, out: &mut P)
    ensures { P.Puts out.old out.new (spaced (codes "state" ∷ guid_text key.now.guid ∷ name_text key.now.name ∷ decimal value ∷ [])) }
{
    out.put(b"state ");
    key.guid.write(out);
    out.put(b" ");
    write_units(&key.name, out);
    out.put(b" ");
    write_u32(u32::from(value), out);
}

fn write_lock<P: Put>(lock: &Lock, out: &mut P)
    ensures { P.Puts out.old out.new (lock_text lock.now) }
{
    match lock {
        Lock::NoLock => out.put(b"none"),
        Lock::Now => out.put(b"now"),
        Lock::OnCreate => out.put(b"create"),
        Lock::OnState { key, value } => write_state(key, *value, out),
    }
}

fn write_attributes_and_lock<P: Put>(policy: &Policy, out: &mut P)
    ensures { P.Puts out.old out.new (spaced (attributes_text policy.now.must ∷ attributes_text policy.now.cant ∷ lock_text policy.now.lock ∷ [])) }
{
    write_attributes(policy.must, out);
    out.put(b" ");
    write_attributes(policy.cant, out);
    out.put(b" ");
    write_lock(&policy.lock, out);
}

fn write_limits<P: Put>(policy: &Policy, out: &mut P)
    ensures { P.Puts out.old out.new (spaced (decimal policy.now.min ∷ max_text policy.now.max ∷ attributes_text policy.now.must ∷ attributes_text policy.now.cant ∷ lock_text policy.now.lock ∷ [])) }
{
    write_u32(policy.min, out);
    out.put(b" ");
    write_max(policy.max, out);
    out.put(b" ");
    write_attributes_and_lock(policy, out);
}

#[tactic(auto, unfolding(crate::specs::Written::policy_text))]
fn write_policy<P: Put>(policy: &Policy, out: &mut P)
    ensures { P.Puts out.old out.new (policy_text policy.now) }
{
    policy.namespace.write(out);
    out.put(b" ");
    write_own(&policy.name, out);
    out.put(b" ");
    write_limits(policy, out);
}

/// Puts the line of a policy: the words `GUID NAME MIN MAX MUST CANT LOCK`, ended by LF.
pub fn write_policy_line<P: Put>(policy: &Policy, out: &mut P)
    ensures { P.Puts out.old out.new (policy_line_text policy.now) }
{
    write_policy(policy, out);
    out.put(b"\n");
}

/// Puts the lines of policies, in their order.
pub fn write_policies<P: Put>(policies: &Policies, out: &mut P)
    ensures { P.Puts out.old out.new (policies_text policies.now) }
{
    for policy in policies.as_slice() {
        write_policy_line(policy.policy(), out);
    }
}
