ghost use Rattle.std.specs.Prelude.{◌≡◌};
ghost use Rattle.std.specs.Option.{option_copied};
ghost use Rattle.auth_rules.specs.Judgement.{judged, judged_stamp};

use crate::{AuthFault, is_later, later_of};
use var_types::{Stamp, Verdict};

/// What a time-based set comes to by its signature's verdict and then by its stamp: the stamp that the variable keeps. A set that doesn't
/// append has to be later than what is stored; an append may be older, and keeps the later stamp.
pub fn judge(
    stored: Option<&Stamp>,
    new: &Stamp,
    append: bool,
    verdict: Verdict,
) -> Result<Stamp, AuthFault>
    ensures { result ≡ judged (option_copied stored.entry) new.now append verdict }
{
    let Verdict::Good = verdict else {
        return Err(AuthFault::Verdict);
    };
    match stored {
        None => Ok(*new),
        Some(old) => judge_stamp(*old, *new, append),
    }
}

// The stamp to keep, where something is stored and the signature is good.
fn judge_stamp(old: Stamp, new: Stamp, append: bool) -> Result<Stamp, AuthFault>
    ensures { result ≡ judged_stamp old new append }
{
    if append {
        return Ok(later_of(new, old));
    }
    if is_later(&new, &old) {
        return Ok(new);
    }
    Err(AuthFault::Stamp { stored: old, new })
}
