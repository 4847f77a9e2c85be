//! The line for a refused policy text.
ghost use Rattle.std.specs.Prelude.{◌≡◌, [], ◌∷◌, codes, decimal};
ghost use Rattle.policy_audit.specs.Refusal.{reason_text, refusal_line};
ghost use Rattle.report_text.specs.Line.{line_text};
ghost use Rattle.var_types.specs.Texts.{spaced};

use crate::{PolicyLine, PolicyTextFault};
use var_types::Put;
use var_types::text::write_number;

#[tactic(auto, unfolding(crate::specs::Refusal::reason_text))]
fn reason_text(reason: PolicyLine) -> &'static str
    ensures { result.now ≡ reason_text reason }
{
    match reason {
        PolicyLine::Text => "text",
        PolicyLine::Words => "words",
        PolicyLine::Guid => "guid",
        PolicyLine::Name => "name",
        PolicyLine::Number => "number",
        PolicyLine::Lock => "lock",
        PolicyLine::Entry => "entry",
        PolicyLine::Duplicate => "duplicate",
        PolicyLine::Table => "table",
    }
}

fn write_reason<P: Put>(reason: PolicyLine, out: &mut P)
    ensures { P.Puts out.old out.new (reason_text reason) }
{
    out.put(reason_text(reason).as_bytes());
}

fn write_line_words<P: Put>(number: u64, reason: PolicyLine, out: &mut P)
    ensures { P.Puts out.old out.new (spaced (codes "policy" ∷ codes "line" ∷ decimal number ∷ reason_text reason ∷ [])) }
{
    out.put(b"policy line ");
    write_number(number, out);
    out.put(b" ");
    write_reason(reason, out);
}

fn write_bytes_words<P: Put>(bytes: u64, out: &mut P)
    ensures { P.Puts out.old out.new (spaced (codes "policy" ∷ codes "bytes" ∷ decimal bytes ∷ [])) }
{
    out.put(b"policy bytes ");
    write_number(bytes, out);
}

fn write_line_refusal<P: Put>(number: u64, reason: PolicyLine, out: &mut P)
    ensures { P.Puts out.old out.new (line_text (codes "policy" ∷ codes "line" ∷ decimal number ∷ reason_text reason ∷ [])) }
{
    write_line_words(number, reason, out);
    out.put(b"\n");
}

fn write_bytes_refusal<P: Put>(bytes: u64, out: &mut P)
    ensures { P.Puts out.old out.new (line_text (codes "policy" ∷ codes "bytes" ∷ decimal bytes ∷ [])) }
{
    write_bytes_words(bytes, out);
    out.put(b"\n");
}

/// Puts the line that says why a policy text is refused.
#[tactic(auto, unfolding(crate::specs::Refusal::refusal_line))]
pub fn write_refusal<P: Put>(fault: PolicyTextFault, out: &mut P)
    ensures { P.Puts out.old out.new (refusal_line fault) }
{
    match fault {
        PolicyTextFault::Line { number, reason } => write_line_refusal(
            u64::from(number),
            reason,
            out,
        ),
        PolicyTextFault::TooLong { bytes } => write_bytes_refusal(u64::from(bytes), out),
        PolicyTextFault::OutOfMemory => out.put(b"no memory\n"),
    }
}
