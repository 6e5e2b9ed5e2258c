//! Numbers in decimal digits, and times of whole nanoseconds. No float is used.
ghost use Rattle.std.specs.Prelude.{◌≡◌, ◌<◌, true};
ghost use Rattle.yasir_ticks.specs.TickText.{is_decimal_digit};
ghost use Rattle.capture_text.specs.Decimals.{with_digit, with_fraction, number_from};
ghost use Rattle.capture_text.specs.Decimals.{fraction_from, whole_at, time_at};

use crate::cut::place_of;
use crate::is_digit;

/// Returns a number with one more digit, if it is below 2^64.
fn with_digit(value: u64, digit: u8) -> Option<u64>
    requires { is_decimal_digit digit ≡ true }
    ensures { result ≡ with_digit value digit }
{
    value.checked_mul(10)?.checked_add(u64::from(digit - b'0'))
}

/// Returns a time with one more digit after its point, which counts `counts` nanoseconds, if it is
/// below 2^64.
fn with_fraction(time: u64, counts: u64, digit: u8) -> Option<u64>
    requires small { counts < 1000000000 }
    requires digit { is_decimal_digit digit ≡ true }
    ensures { result ≡ with_fraction time counts digit }
{
    time.checked_add(u64::from(digit - b'0') * counts)
}

/// Returns the number that a value and the digits after it make, or `None` if a byte isn't a digit
/// or the number isn't below 2^64.
fn number_from(value: u64, digits: &[u8]) -> Option<u64>
    ensures { result ≡ number_from value digits.now }
{
    match digits {
        [] => Some(value),
        [digit, following @ ..] => {
            if !is_digit(*digit) {
                return None;
            }
            match with_digit(value, *digit) {
                Some(value) => number_from(value, following),
                None => None,
            }
        }
    }
}

/// Returns a time with the digits after its point, the first of which counts `counts` nanoseconds,
/// or `None` if a byte isn't a digit or the time isn't below 2^64.
fn fraction_from(time: u64, counts: u64, digits: &[u8]) -> Option<u64>
    requires { counts < 1000000000 }
    ensures { result ≡ fraction_from time counts digits.now }
{
    match digits {
        [] => Some(time),
        [digit, following @ ..] => {
            if !is_digit(*digit) {
                return None;
            }
            match with_fraction(time, counts, *digit) {
                Some(time) => fraction_from(time, counts / 10, following),
                None => None,
            }
        }
    }
}

/// Returns the nanoseconds of a whole number of units, each of `unit` nanoseconds.
fn whole_at(unit: u64, digits: &[u8]) -> Option<u64>
    ensures { result ≡ whole_at unit digits.now }
{
    if digits.is_empty() {
        return None;
    }
    match number_from(0, digits) {
        Some(n) => n.checked_mul(unit),
        None => None,
    }
}

/// Returns a time in whole nanoseconds, from a text that has it in units of `unit` nanoseconds.
pub fn time_at(unit: u64, text: &[u8]) -> Option<u64>
    requires { unit < 10000000000 }
    ensures { result ≡ time_at unit text.now }
{
    let Some(at) = place_of(b'.', text) else {
        return whole_at(unit, text);
    };
    let Some(time) = whole_at(unit, &text[..at]) else {
        return None;
    };
    if at + 1 == text.len() {
        return None;
    }
    fraction_from(time, unit / 10, &text[at + 1..])
}
