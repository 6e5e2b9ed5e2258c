//! Where in a line of a text capture its reader is, and what one byte does there.
#![tactic(auto, unfolding(crate::specs::TextStep::text_step_at))]

ghost use Rattle.std.specs.Prelude.{◌≡◌, ◌<◌, true};
ghost use Rattle.yasir_ticks.specs.TickText.{is_decimal_digit};

use crate::TextFault;
use crate::digits::{hex_value, is_digit};
use line_stamps::{CaptureByte, Way};

/// The nanoseconds of a second.
const SECOND: u64 = 1_000_000_000;

/// How many nanoseconds the first digit after the point of a time counts.
const TENTH: u32 = 100_000_000;

/// Where in a line of a text capture its reader is.
#[derive(Clone, Copy, Debug, PartialEq, Eq)]
pub enum Place {
    /// Before the first byte of the line.
    Start,
    /// In a comment.
    Comment,
    /// After digits of whole seconds. Holds the time so far, in nanoseconds.
    Whole(u64),
    /// After digits of whole seconds and a point. Holds the time so far, in nanoseconds.
    Point(u64),
    /// After at least one digit after the point. Holds the time so far, in nanoseconds, and how
    /// many nanoseconds the next digit counts.
    Fraction(u64, u32),
    /// After a time and a blank. Holds the time.
    Blank(u64),
    /// After a time, a blank and whole pairs of hex digits, at least one. Holds the time.
    Pairs(u64),
    /// After a time, a blank, any number of whole pairs of hex digits, and the first digit of a
    /// pair. Holds the time, whether the byte of this pair is the first one of its record, and the
    /// value of the digit.
    Half(u64, bool, u8),
    /// After the CR at the end of a line.
    Returned,
}

/// What one byte of a line results in: the next place and, if the byte completes one, a byte of the
/// capture, or why it is refused.
pub type Step = Result<(Place, Option<CaptureByte>), TextFault>;

ghost use Rattle.capture_text.specs.TextStep.{text_step_at, after_line, after_time, after_fraction};
ghost use Rattle.capture_text.specs.TextStep.{is_sound_text, IsSoundTextStep, whole_time, fraction_time};
ghost use Rattle.capture_text.specs.TextStep.{fault_without_bytes, end_fault_at};

/// Returns the time with one more digit of whole seconds, if it is below 2^64 nanoseconds.
fn with_digit(time: u64, digit: u8) -> Option<u64>
    requires { is_decimal_digit digit ≡ true }
    ensures { result ≡ whole_time time digit }
{
    time.checked_mul(10)?
        .checked_add(u64::from(digit - b'0') * SECOND)
}

/// Returns the time with one more digit after the point, if it is below 2^64 nanoseconds.
fn with_fraction(time: u64, counts: u32, digit: u8) -> Option<u64>
    requires { is_decimal_digit digit ≡ true }
    ensures { result ≡ fraction_time time counts digit }
{
    time.checked_add(u64::from(digit - b'0') * u64::from(counts))
}

/// Returns why a byte is refused that comes before the bytes of a record.
fn without_bytes(b: u8) -> TextFault
    ensures { result ≡ fault_without_bytes b }
{
    match b {
        b'\n' | b'\r' => TextFault::Empty,
        _ => TextFault::Char,
    }
}

/// Ends the line with an LF or a CR, or refuses the byte.
fn end_line(b: u8) -> Step
    ensures { result ≡ after_line b }
{
    match b {
        b'\n' => Ok((Place::Start, None)),
        b'\r' => Ok((Place::Returned, None)),
        _ => Err(TextFault::Char),
    }
}

/// Ends the time with a blank, or refuses the byte.
fn end_time(time: u64, b: u8) -> Step
    ensures { result ≡ after_time time b }
{
    match b {
        b' ' | b'\t' => Ok((Place::Blank(time), None)),
        _ => Err(without_bytes(b)),
    }
}

fn at_start(b: u8) -> Step
    ensures { result ≡ text_step_at Place.Start b }
{
    match b {
        b'#' => Ok((Place::Comment, None)),
        b'0'..=b'9' => Ok((Place::Whole(u64::from(b - b'0') * SECOND), None)),
        _ => end_line(b),
    }
}

fn in_whole(time: u64, b: u8) -> Step
    ensures { result ≡ text_step_at (Place.Whole time) b }
{
    match b {
        b'0'..=b'9' => match with_digit(time, b) {
            Some(time) => Ok((Place::Whole(time), None)),
            None => Err(TextFault::Late),
        },
        b'.' => Ok((Place::Point(time), None)),
        _ => end_time(time, b),
    }
}

/// Takes a digit after the point, which counts `counts` nanoseconds.
fn in_fraction(time: u64, counts: u32, b: u8) -> Step
    requires { is_decimal_digit b ≡ true }
    ensures { result ≡ after_fraction time counts b }
{
    match with_fraction(time, counts, b) {
        Some(time) => Ok((Place::Fraction(time, counts / 10), None)),
        None => Err(TextFault::Late),
    }
}

/// Takes the second digit of a pair, or refuses the byte.
fn in_pair(time: u64, first: bool, high: u8, b: u8) -> Step
    requires { high < 16 }
    ensures { result ≡ text_step_at (Place.Half time first high) b }
{
    match hex_value(b) {
        Some(low) => {
            let byte = CaptureByte {
                way: Way::A,
                start: time,
                first,
                byte: high * 16 + low,
            };
            Ok((Place::Pairs(time), Some(byte)))
        }
        None => match b {
            b'\n' | b'\r' => Err(TextFault::Odd),
            _ => Err(TextFault::Char),
        },
    }
}

/// Returns what one byte does at a place.
#[inline]
pub fn step(place: Place, b: u8) -> Step
    requires { is_sound_text place ≡ true }
    ensures step { result ≡ text_step_at place b }
    ensures sound { IsSoundTextStep result }
{
    match place {
        Place::Start => at_start(b),
        Place::Comment => match b {
            b'\n' => Ok((Place::Start, None)),
            _ => Ok((Place::Comment, None)),
        },
        Place::Whole(time) => in_whole(time, b),
        Place::Point(time) => {
            if is_digit(b) {
                in_fraction(time, TENTH, b)
            } else {
                Err(without_bytes(b))
            }
        }
        Place::Fraction(time, counts) => {
            if is_digit(b) {
                in_fraction(time, counts, b)
            } else {
                end_time(time, b)
            }
        }
        Place::Blank(time) => match hex_value(b) {
            Some(high) => Ok((Place::Half(time, true, high), None)),
            None => Err(without_bytes(b)),
        },
        Place::Pairs(time) => match hex_value(b) {
            Some(high) => Ok((Place::Half(time, false, high), None)),
            None => end_line(b),
        },
        Place::Half(time, first, high) => in_pair(time, first, high, b),
        Place::Returned => match b {
            b'\n' => Ok((Place::Start, None)),
            _ => Err(TextFault::Char),
        },
    }
}

/// Returns why a text that ends at a place is refused, or `None` if it isn't.
pub fn end_fault(place: Place) -> Option<TextFault>
    ensures { result ≡ end_fault_at place }
{
    match place {
        Place::Start | Place::Comment | Place::Pairs(_) | Place::Returned => None,
        Place::Half(..) => Some(TextFault::Odd),
        _ => Some(TextFault::Empty),
    }
}
