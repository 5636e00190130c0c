//! Numbers in decimal digits, as a text spells them.
ghost use Rattle.std.specs.Prelude.{◌≡◌, ◌^◌, ◌≤◌, IfOk, IfSome, IsTrue, MatchOption, length, take};
ghost use Rattle.std.specs.Char.{is_ascii_digit};
ghost use Rattle.std.specs.List.{list_all};
ghost use Rattle.ell_ops.specs.Meaning.{greatest_key};
ghost use Rattle.ell_text.specs.Number.{IsNumberInFront, is_number, key_in, number_in, key_spelled, value_of};

use ell_ops::KEY_MAX;
use std::str;

// The most that is below 2^64 with any digit more.
const MOST_BEFORE_A_DIGIT: u64 = u64::MAX / 10 - 1;

/// Why some bytes are not a number in range.
#[derive(Clone, Copy)]
pub(crate) enum NumberFault {
    /// There is no byte, a byte is not a digit, or other digits follow a first 0.
    NotANumber,
    /// The number is above the greatest one, however many digits it has.
    TooLarge,
}

/// Reads a key: a number of at most `KEY_MAX`.
pub(crate) fn read_key(bytes: &[u8]) -> Result<u64, NumberFault>
    ensures value { result ≡ key_in bytes.now }
    ensures within { IfOk result (λ key. key ≤ greatest_key) }
{
    read_number(bytes, KEY_MAX)
}

/// Reads the value of a key: a number that 64 bits hold.
pub(crate) fn read_value(bytes: &[u8]) -> Result<u64, NumberFault>
    ensures { result ≡ key_spelled bytes.now }
{
    read_number(bytes, u64::MAX)
}

/// Reads a number of at most `max`, from all of the bytes.
pub(crate) fn read_number(bytes: &[u8], max: u64) -> Result<u64, NumberFault>
    ensures value { result ≡ number_in max bytes.now }
    ensures within { IfOk result (λ number. number ≤ max) }
{
    if !is_number(bytes) {
        return Err(NumberFault::NotANumber);
    }
    match value(bytes) {
        Some(number) if number <= max => Ok(number),
        _ => Err(NumberFault::TooLarge),
    }
}

/// Reads the number that the digits at the front of some bytes spell, up to the first byte that is not a digit, in one
/// pass, and returns what stands behind it too. Returns `None` if they spell no number of at most `max`, or one of the
/// last few below 2^64.
pub(crate) fn read_number_in_front(bytes: &[u8], max: u64) -> Option<(u64, &[u8])>
    ensures { IfSome result (λ read. IsNumberInFront max bytes.now read.0 read.1.now) }
{
    let (number, len) = digits_in_front(bytes)?;
    let (digits, rest) = bytes.split_at(len);
    if number > max || !spell_a_number(digits) {
        return None;
    }
    Some((number, rest))
}

// The value of the digits at the front of some bytes and how many they are, unless it is 2^64 or just below, or more.
fn digits_in_front(bytes: &[u8]) -> Option<(u64, usize)>
    ensures len { IfSome result (λ read. read.1 ≤ length bytes.now) }
    ensures digits { IfSome result (λ read. IsTrue (list_all is_ascii_digit (take read.1 bytes.now))) }
    ensures value { IfSome result (λ read. read.0 ≡ value_of (take read.1 bytes.now)) }
{
    let mut number: u64 = 0;
    let mut len = 0;
    'digits: while len < bytes.len() && bytes[len].is_ascii_digit() {
        if number > MOST_BEFORE_A_DIGIT {
            return None;
        }
        number = number * 10 + u64::from(bytes[len] - b'0');
        len += 1;
    }
    Some((number, len))
}

// Whether digits are a number: there is one, and no needless 0 in front.
fn spell_a_number(digits: &[u8]) -> bool
    ensures { IsTrue result → IsTrue (list_all is_ascii_digit digits.now) → IsTrue (is_number digits.now) }
{
    match digits {
        [] => false,
        [_] => true,
        [first, ..] => *first != b'0',
    }
}

// The value of a number's digits, if it is below 2^64.
fn value(digits: &[u8]) -> Option<u64>
    requires { IsTrue (is_number digits.now) }
    ensures { MatchOption result (2 ^ 64 ≤ value_of digits.now) (λ number. number ≡ value_of digits.now) }
{
    str::from_utf8(digits).unwrap().parse().ok()
}

// Whether the bytes are digits with no needless 0 in front.
fn is_number(bytes: &[u8]) -> bool
    ensures { result ≡ is_number bytes.now }
{
    match bytes {
        [] => false,
        [digit] => digit.is_ascii_digit(),
        [first, rest @ ..] => first.is_ascii_digit() && *first != b'0' && are_digits(rest),
    }
}

fn are_digits(bytes: &[u8]) -> bool
    ensures { result ≡ list_all is_ascii_digit bytes.now }
{
    bytes.iter().all(|byte| byte.is_ascii_digit())
}
