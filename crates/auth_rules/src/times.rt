//! Time stamps, and which of two is later.
ghost use Rattle.std.specs.Prelude.{◌≡◌};
ghost use Rattle.var_types.specs.Stamps.{is_later, later_of, no_stamp, time_of};

use var_types::Stamp;

/// The stamp of a variable that has none, all zero.
pub fn no_stamp() -> Stamp
    ensures { result ≡ no_stamp }
{
    Stamp { bytes: [0; 16] }
}

// Year, month, day, hour, minute and second of a stamp (UEFI 2.10, 8.3, EFI_TIME).
#[tactic(auto, unfolding(var_types::specs::Stamps::time_of))]
fn time_of(stamp: &Stamp) -> [u16; 6]
    ensures { result ≡ time_of stamp.now }
{
    let [low, high, month, day, hour, minute, second, ..] = stamp.bytes;
    [
        u16::from_le_bytes([low, high]),
        u16::from(month),
        u16::from(day),
        u16::from(hour),
        u16::from(minute),
        u16::from(second),
    ]
}

/// Whether a new stamp is later than an old one, by year, month, day, hour, minute and second.
#[tactic(auto, unfolding(var_types::specs::Stamps::is_later))]
pub fn is_later(new: &Stamp, old: &Stamp) -> bool
    ensures { result ≡ is_later new.now old.now }
{
    time_of(old).cmp(&time_of(new)).is_lt()
}

/// The later of a new stamp and an old one; the old one where neither is later.
pub fn later_of(new: Stamp, old: Stamp) -> Stamp
    ensures { result ≡ later_of new old }
{
    if is_later(&new, &old) { new } else { old }
}
