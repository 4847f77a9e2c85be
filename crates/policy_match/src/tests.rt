use crate::{CountedPolicy, best, matches, wildcards};
use std::alloc::Global;
use std::test::Fail;
use var_types::{Guid, Lock, Policy, Units};

const FIRST: Guid = Guid { bytes: [1; 16] };

const SECOND: Guid = Guid { bytes: [2; 16] };

fn units(alloc: Global, text: &str) -> Result<Units, Fail> {
    let mut units = Vec::new(alloc);
    for byte in text.as_bytes() {
        units.push(u16::from(*byte))?;
    }
    Ok(Units::new(alloc, &units)?)
}

/// A policy without limits, with this name, or none where the text is empty.
fn policy(alloc: Global, namespace: Guid, text: &str) -> Result<Policy, Fail> {
    Ok(Policy {
        namespace,
        name: if text.is_empty() {
            None
        } else {
            Some(units(alloc, text)?)
        },
        min: 0,
        max: 0xFFFF_FFFF,
        must: 0,
        cant: 0,
        lock: Lock::Now,
    })
}

#[test]
fn a_wildcard_is_over_a_digit_alone(rt: HostRuntime) -> Result<(), Fail> {
    // A policy's name, a variable's, whether the one covers the other, and how many wildcards it has.
    let cases = [
        ("Boot####", "Boot0001", true, 4),
        ("Boot####", "Boot9999", true, 4),
        ("Boot####", "Boot000A", false, 4),
        ("Boot####", "Boot000a", false, 4),
        ("Boot####", "Boot000/", false, 4),
        ("Boot####", "Boot000:", false, 4),
        ("Boot####", "Boot00001", false, 4),
        ("Boot####", "Boot001", false, 4),
        ("Boot####", "Boot###1", true, 4),
        ("Boot####", "boot0001", false, 4),
        ("Boot0001", "Boot0001", true, 0),
        ("Boot0001", "Boot####", false, 0),
        ("#", "#", true, 1),
        ("", "Boot0001", true, 255),
    ];
    let alloc = rt.alloc();
    for (own, name, covers, count) in cases {
        let policy = policy(alloc, FIRST, own)?;
        let name = units(alloc, name)?;
        assert_eq!(rt; matches(&policy, &FIRST, name.as_slice()), covers, "{own}");
        assert!(rt;
            !matches(&policy, &SECOND, name.as_slice()),
            "{own} of another namespace"
        );
        assert_eq!(rt; wildcards(&policy), count, "{own}");
        assert_eq!(rt; CountedPolicy::new(policy).wildcards(), count, "{own}");
    }
    Ok(())
}

fn counted(alloc: Global, namespace: Guid, text: &str) -> Result<CountedPolicy, Fail> {
    Ok(CountedPolicy::new(policy(alloc, namespace, text)?))
}

#[test]
fn the_first_with_the_fewest_wildcards_counts(rt: HostRuntime) -> Result<(), Fail> {
    let alloc = rt.alloc();
    let policies = [
        counted(alloc, FIRST, "Boot####")?,
        counted(alloc, FIRST, "Boot0###")?,
        counted(alloc, FIRST, "")?,
        counted(alloc, FIRST, "Boot0001")?,
        counted(alloc, SECOND, "A#1")?,
        counted(alloc, SECOND, "A1#")?,
    ];
    let cases = [
        (FIRST, "Boot0001", Some(3)),
        (FIRST, "Boot0002", Some(1)),
        (FIRST, "Boot1234", Some(0)),
        (FIRST, "BootOrder", Some(2)),
        (SECOND, "A11", Some(4)),
        (SECOND, "A12", Some(5)),
        (SECOND, "A21", Some(4)),
        (SECOND, "A22", None),
    ];
    for (guid, name, want) in cases {
        let units = units(alloc, name)?;
        assert_eq!(rt; best(&policies, &guid, units.as_slice()), want, "{name}");
    }
    assert_eq!(rt; best(&[], &FIRST, &[0x41]), None);
    Ok(())
}
