ghost use Rattle.std.specs.Prelude.{◌≡◌, ◌==◌};
ghost use Rattle.std.specs.List.{list_all};
ghost use Rattle.report_text.specs.Stamp.{stamp_text};

use var_types::text::write_bytes;
use var_types::{Put, Stamp};

/// Whether a stamp is none, which is all zero.
fn is_none(stamp: &Stamp) -> bool
    ensures { result ≡ list_all (λ b. b == 0) stamp.now.bytes }
{
    stamp.bytes.iter().all(|byte| *byte == 0)
}

/// Puts a stamp's 32 lower-case hexadecimal digits, or `-` for none.
#[tactic(auto, unfolding(crate::specs::Stamp::stamp_text))]
pub(crate) fn write_stamp<P: Put>(stamp: &Stamp, out: &mut P)
    ensures { P.Puts out.old out.new (stamp_text stamp.now) }
{
    if is_none(stamp) {
        return out.put(b"-");
    }
    write_bytes(&stamp.bytes, out);
}
