//! The number of a word of the command line.
ghost use Rattle.std.specs.Prelude.{◌≡◌, ◌<◌, IfSome};
ghost use Rattle.varsvc.specs.Number.{number_from, number_of, with_digit};

/// Numbers are below this one.
const MOST: u32 = 1_000_000;

/// How many digits a number has at most.
const MOST_DIGITS: usize = 6;

// The number with one digit more, where that is a digit and the number stays below a million.
fn with_digit(number: u32, c: u8) -> Option<u32>
    requires { number < 1000000 }
    ensures value { result ≡ with_digit number c }
    ensures small { IfSome result (λ n. n < 1000000) }
{
    let digit = match c {
        b'0'..=b'9' => c - b'0',
        _ => return None,
    };
    let next = number * 10 + u32::from(digit);
    if next < MOST { Some(next) } else { None }
}

fn number_from(digits: &[u8]) -> Option<u32>
    ensures value { result ≡ number_from 0 digits.now }
    ensures small { IfSome result (λ n. n < 1000000) }
{
    let mut number = 0;
    for c in digits {
        number = with_digit(number, *c)?;
    }
    Some(number)
}

/// The number of a word of 1 to 6 decimal digits.
pub fn number_of(word: &[u8]) -> Option<u32>
    ensures value { result ≡ number_of word.now }
    ensures small { IfSome result (λ n. n < 1000000) }
{
    if word.is_empty() || word.len() > MOST_DIGITS {
        return None;
    }
    number_from(word)
}
