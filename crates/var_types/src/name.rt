ghost use Rattle.std.specs.Prelude.{◌≡◌, ◌==◌, ◌<◌, length, position, IfSome};
ghost use Rattle.var_types.specs.Name.{name_check};

use thiserror::Error;

/// How many units a well-formed name may have.
pub const LONGEST_NAME: usize = 512;

/// A name is ill-formed.
#[derive(Clone, Copy, Debug, PartialEq, Eq, Error)]
pub enum NameFault {
    #[error("the name is empty")]
    Empty,
    #[error("the name has {units} units, of which 512 are allowed")]
    TooLong { units: u64 },
    #[error("the name has a NUL at {at}")]
    InnerNul { at: u32 },
}

fn first_nul(units: &[u16]) -> Option<usize>
    ensures position { result ≡ position (λ unit. unit == 0) units.now }
    ensures within { IfSome result (λ at. at < length units.now) }
{
    units.iter().position(|unit| *unit == 0)
}

/// Whether a name is well-formed: 1 to 512 units, none of them 0.
pub fn check_name(units: &[u16]) -> Result<(), NameFault>
    ensures { result ≡ name_check units.now }
{
    if units.is_empty() {
        return Err(NameFault::Empty);
    }
    if units.len() > LONGEST_NAME {
        return Err(NameFault::TooLong {
            units: units.len() as u64,
        });
    }
    match first_nul(units) {
        Some(at) => Err(NameFault::InnerNul { at: at as u32 }),
        None => Ok(()),
    }
}
