use crate::{
    Policies, PolicyLine, PolicyTextFault, read_policies, write_audit, write_entries,
    write_policies,
};
use std::alloc::Global;
use std::test::Fail;
use var_region::Region;
use var_types::TextBuffer;

/// EFI_GLOBAL_VARIABLE.
const G: &str = "8be4df61-93ca-11d2-aa0d-00e098032b8c";

/// The text in which `G` stands for the GUID of the global variables.
fn text_of(alloc: Global, text: &str) -> Result<String, Fail> {
    let mut out = String::new(alloc);
    for c in text.chars() {
        if c == 'G' {
            out.push_str(G)?;
        } else {
            out.push(c)?;
        }
    }
    Ok(out)
}

/// Why a text is refused.
fn refusal(alloc: Global, text: &str) -> Result<Option<PolicyTextFault>, Fail> {
    let text = text_of(alloc, text)?;
    match read_policies(alloc, text.as_bytes()) {
        Ok(_) => Ok(None),
        Err(fault) => Ok(Some(fault)),
    }
}

fn policies_of(alloc: Global, text: &str) -> Result<Option<Policies>, Fail> {
    let text = text_of(alloc, text)?;
    Ok(read_policies(alloc, text.as_bytes()).ok())
}

#[test]
fn the_first_reason_of_a_line_refuses_it(rt: HostRuntime) -> Result<(), Fail> {
    // Each line has the next reason too.
    let cases = [
        ("G A\u{7f} 0", PolicyLine::Text),
        ("X %1 0 - 0 0", PolicyLine::Words),
        ("G A 0 - 0 0 none x", PolicyLine::Words),
        ("G A 0 - 0 0 state G S", PolicyLine::Words),
        ("G A 0 - 0 0 state G S 1 2", PolicyLine::Words),
        ("X %1 z z z z zz", PolicyLine::Guid),
        ("G %1 z - 0 0 none", PolicyLine::Name),
        ("G A - - 0 0 lock", PolicyLine::Number),
        ("G A 0 - - 0 none", PolicyLine::Number),
        ("G A 0 - 0 4294967296 none", PolicyLine::Number),
        ("G A 9 8 0 0 lock", PolicyLine::Lock),
        ("G A 9 8 0 0 state - S 1", PolicyLine::Lock),
        ("G A 9 8 0 0 state G %1 1", PolicyLine::Lock),
        ("G A 9 8 0 0 state G S 256", PolicyLine::Lock),
        ("G A 0 - 0 0 state G - 1", PolicyLine::Entry),
        ("G A%0000 0 - 0 0 none", PolicyLine::Entry),
        ("G A 2 1 0 0 none", PolicyLine::Entry),
    ];
    for (line, reason) in cases {
        let want = Some(PolicyTextFault::Line { number: 1, reason });
        assert_eq!(rt; refusal(rt.alloc(), line)?, want, "{line}");
    }
    Ok(())
}

#[test]
fn a_second_line_of_one_name_is_refused(rt: HostRuntime) -> Result<(), Fail> {
    let reason = PolicyLine::Duplicate;
    let cases = [
        ("G A 0 - 0 0 none\nG A 0 - 0 0 none", Some(2)),
        ("G - 0 - 0 0 none\n# no policy\nG - 1 - 0 0 now", Some(3)),
        ("G A 0 - 0 0 none\nG %0041 1 - 0 0 now", Some(2)),
        (
            "G A 0 - 0 0 none\n414e6bdd-e47b-47cc-b244-bb61020cf516 A 0 - 0 0 none",
            None,
        ),
        ("G A 0 - 0 0 none\r\n\nG - 0 - 0 0 none", None),
        ("G A 0 0 0 0 none\nG A# 0 0 0 0 none", None),
    ];
    for (text, number) in cases {
        let want = match number {
            Some(number) => Some(PolicyTextFault::Line { number, reason }),
            None => None,
        };
        assert_eq!(rt; refusal(rt.alloc(), text)?, want, "{text}");
    }
    Ok(())
}

/// What a text's policies are written as: their lines, and the script that registers them.
fn written(alloc: Global, text: &str) -> Result<Option<(String, String)>, Fail> {
    let Some(policies) = policies_of(alloc, text)? else {
        return Ok(None);
    };
    let mut lines = TextBuffer::new(alloc);
    write_policies(&policies, &mut lines);
    let mut script = TextBuffer::new(alloc);
    write_entries(alloc, &policies, &mut script)?;
    let lines = String::from_utf8(lines.finish()?.into_vec())?;
    let script = String::from_utf8(script.finish()?.into_vec())?;
    Ok(Some((lines, script)))
}

#[test]
fn policies_are_written_as_lines_and_as_entries(rt: HostRuntime) -> Result<(), Fail> {
    let alloc = rt.alloc();
    let text = "G Boot#### 6 - 7 0 none\nG D 0 4294967295 0 8 state G %002d 0xff";
    let lines = text_of(
        alloc,
        "G Boot#### 6 - 0x00000007 0x00000000 none\nG D 0 - 0x00000000 0x00000008 state G %002d 255\n",
    )?;
    let script =
        "0 register 000001003e002c0061dfe48bca93d211aa0d00e098032b8c06000000ffffffff07000000000000000000000042006f006f00740023002300230023000000\n\
        0 register 000001004600420061dfe48bca93d211aa0d00e098032b8c00000000ffffffff00000000080000000300000061dfe48bca93d211aa0d00e098032b8cff002d00000044000000\n";
    let have = written(alloc, text)?;
    assert!(rt; have.is_some());
    if let Some((have_lines, have_script)) = have {
        assert_eq!(rt; have_lines.as_str(), lines.as_str());
        assert_eq!(rt; have_script.as_str(), script);
        assert!(rt; policies_of(alloc, have_lines.as_str())?.is_some());
    }
    Ok(())
}

#[test]
fn an_audit_of_no_variables_has_no_violations(rt: HostRuntime) -> Result<(), Fail> {
    let alloc = rt.alloc();
    let blank = vec![in alloc; 0xffu8; 4096]?;
    let region = Region::over(blank.as_slice(), 100, true);
    let policies = policies_of(alloc, "G A 1 - 0 0 none")?;
    assert!(rt; policies.is_some());
    if let Some(policies) = policies {
        let mut out = TextBuffer::new(alloc);
        write_audit(alloc, &policies, &region, &mut out)?;
        let have = String::from_utf8(out.finish()?.into_vec())?;
        assert_eq!(rt; have.as_str(), "policies 1\nviolations 0\nend\n");
        assert_eq!(rt; policies.into_vec().len(), 1);
    }
    Ok(())
}
