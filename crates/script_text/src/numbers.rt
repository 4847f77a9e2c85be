ghost use Rattle.std.specs.Prelude.{◌≡◌, ◌<◌, IfSome, Ok, Err};
ghost use Rattle.script_text.specs.Digits.{base_number, digit_in, is_digit_in, digit_value_in, appended, number_from};
ghost use Rattle.script_text.specs.GivesLine.{GivesLine};
ghost use Rattle.script_text.specs.Numbers.{number_in, number_of, processor_of, bytes_of};

use crate::LineReason;
use crate::line_fault::LineFault;
use hex::FromHexError;
use std::alloc::Global;
use var_types::Bytes;

/// The base of a number.
#[derive(Clone, Copy, Debug, PartialEq, Eq)]
pub enum Base {
    Decimal,
    Hexadecimal,
}

/// The value of a digit, in either case.
pub fn digit(base: Base, c: u8) -> Option<u8>
    ensures value { result ≡ digit_in base c }
    ensures small { IfSome result (λ d. d < 16) }
{
    match base {
        Base::Decimal => match c {
            b'0'..=b'9' => Some(c - b'0'),
            _ => None,
        },
        Base::Hexadecimal => match c {
            b'A'..=b'F' => Some(c - b'A' + 10),
            b'a'..=b'f' => Some(c - b'a' + 10),
            b'0'..=b'9' => Some(c - b'0'),
            _ => None,
        },
    }
}

fn radix(base: Base) -> u64
    ensures value { result ≡ base_number base }
    ensures small { result < 17 }
{
    match base {
        Base::Decimal => 10,
        Base::Hexadecimal => 16,
    }
}

// The number with one digit more, if there is a digit and the number stays below 2^32.
fn append_digit(base: Base, number: u32, digit: Option<u8>) -> Option<u32>
    ensures { result ≡ appended base number digit }
{
    let digit = digit?;
    let sum = u64::from(number) * radix(base) + u64::from(digit);
    if sum < 1 << 32 {
        Some(sum as u32)
    } else {
        None
    }
}

// The number of some digits, where they are digits; leading zeros come in any count, so the number and not the digits is bounded.
fn append_digits(base: Base, digits: &[u8]) -> Option<u32>
    ensures { result ≡ number_from base 0 digits.now }
{
    let mut number = 0;
    for c in digits {
        number = append_digit(base, number, digit(base, *c))?;
    }
    Some(number)
}

fn number_in(base: Base, digits: &[u8]) -> Result<u32, LineReason>
    ensures { result ≡ number_in (base_number base) (is_digit_in base) (digit_value_in base) digits.now }
{
    if digits.is_empty() {
        return Err(LineReason::Number);
    }
    match append_digits(base, digits) {
        Some(number) => Ok(number),
        None => Err(LineReason::Number),
    }
}

/// The number of a word: decimal digits, or `0x` and hexadecimal digits in either case.
#[tactic(auto, unfolding(crate::specs::Numbers::number_of))]
pub fn number_of(word: &[u8]) -> Result<u32, LineReason>
    ensures { result ≡ number_of word.now }
{
    match word.strip_prefix(b"0x".as_slice()) {
        Some(digits) => number_in(Base::Hexadecimal, digits),
        None => number_in(Base::Decimal, word),
    }
}

/// The processor of a word: one digit from 0 to 7.
#[tactic(auto, unfolding(crate::specs::Numbers::processor_of))]
pub fn processor_of(word: &[u8]) -> Result<u8, LineReason>
    ensures { result ≡ processor_of word.now }
{
    match word {
        [c @ b'0'..=b'7'] => Ok(c - b'0'),
        _ => Err(LineReason::Processor),
    }
}

/// The bytes of a word: none for `-`, else its hexadecimal digits in pairs.
#[tactic(auto, unfolding(crate::specs::Numbers::bytes_of))]
pub fn bytes_of(alloc: Global, word: &[u8]) -> Result<Bytes, LineFault>
    ensures { GivesLine result (bytes_of word.now) }
{
    if word == b"-".as_slice() {
        return Ok(Bytes::new(alloc));
    }
    match hex::decode(alloc, word) {
        Ok(bytes) => Ok(Bytes::from_vec(bytes)),
        Err(FromHexError::OutOfMemory) => Err(LineFault::OutOfMemory),
        Err(_) => Err(LineFault::Reason(LineReason::Hex)),
    }
}
