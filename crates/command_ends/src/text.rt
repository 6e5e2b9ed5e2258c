//! A line that a command prints, and decimal numbers in it.
ghost use Rattle.std.specs.Prelude.{◌≡◌, ◌≤◌, ◌<◌, ◌+◌, ◌/◌, ◌%◌, [], ◌∷◌, ◌++◌, length, decimal};

use arrayvec::ArrayVec;

/// One printed line. The longest has 8 bytes, a number of 20 digits, a blank, 292 bytes in hex and
/// an LF.
pub type Line = ArrayVec<u8, 640>;

// Returns the digit of the tens of a number below 100.
#[inline(always)]
fn tens(n: u32) -> u8
    requires { n < 100 }
    ensures { result ≡ 48 + n / 10 }
{
    b'0' + (n / 10) as u8
}

// Returns the last digit of a number.
#[inline(always)]
fn ones(n: u32) -> u8
    ensures { result ≡ 48 + n % 10 }
{
    b'0' + (n % 10) as u8
}

// Appends the two digits of a number below 100. Each is written right into the line, since a copy
// of a few bytes costs more.
#[inline(always)]
fn push_pair<const CAP: usize>(line: &mut ArrayVec<u8, CAP>, n: u32)
    requires few { n < 100 }
    requires room { length line.old.items + 2 ≤ CAP }
    ensures digits { line.new.items ≡ line.old.items ++ (48 + n / 10) ∷ (48 + n % 10) ∷ [] }
    ensures short { length line.new.items ≡ length line.old.items + 2 }
{
    line.push(tens(n));
    line.push(ones(n));
}

// Appends the decimal digits of a number below 100.
#[inline(always)]
fn push_two<const CAP: usize>(line: &mut ArrayVec<u8, CAP>, n: u32)
    requires few { n < 100 }
    requires room { length line.old.items + 2 ≤ CAP }
    ensures digits { line.new.items ≡ line.old.items ++ decimal n }
    ensures short { length line.new.items ≤ length line.old.items + 2 }
{
    if n < 10 {
        line.push(ones(n));
        return;
    }
    push_pair(line, n);
}

// Appends the decimal digits of a number below 10,000.
#[inline(always)]
fn push_four<const CAP: usize>(line: &mut ArrayVec<u8, CAP>, n: u32)
    requires few { n < 10000 }
    requires room { length line.old.items + 4 ≤ CAP }
    ensures digits { line.new.items ≡ line.old.items ++ decimal n }
    ensures short { length line.new.items ≤ length line.old.items + 4 }
{
    if n < 100 {
        push_two(line, n);
        return;
    }
    push_two(line, n / 100);
    push_pair(line, n % 100);
}

// Appends the decimal digits of a number that is at least 10,000 and below 100,000,000.
#[inline(always)]
fn push_eight<const CAP: usize>(line: &mut ArrayVec<u8, CAP>, n: u32)
    requires some { 10000 ≤ n }
    requires few { n < 100000000 }
    requires room { length line.old.items + 8 ≤ CAP }
    ensures digits { line.new.items ≡ line.old.items ++ decimal n }
    ensures short { length line.new.items ≤ length line.old.items + 8 }
{
    push_four(line, n / 10_000);
    let behind = n % 10_000;
    push_pair(line, behind / 100);
    push_pair(line, behind % 100);
}

// Appends the decimal digits of a number of any size.
#[inline(never)]
fn push_many<const CAP: usize>(line: &mut ArrayVec<u8, CAP>, n: u64)
    requires { length line.old.items + 20 ≤ CAP }
    ensures digits { line.new.items ≡ line.old.items ++ decimal n }
    ensures short { length line.new.items ≤ length line.old.items + 20 }
{
    let mut digits = itoa::Buffer::new();
    let text = digits.format(n);
    line.try_extend_from_slice(text.as_bytes()).unwrap();
}

/// Appends the decimal digits of a number.
pub fn push_decimal<const CAP: usize>(line: &mut ArrayVec<u8, CAP>, n: u64)
    /// There is room for 20 bytes.
    requires { length line.old.items + 20 ≤ CAP }
    /// The digits are appended, and nothing else changes.
    ensures digits { line.new.items ≡ line.old.items ++ decimal n }
    /// At most 20 bytes are appended.
    ensures short { length line.new.items ≤ length line.old.items + 20 }
{
    if n < 10_000 {
        push_four(line, n as u32);
        return;
    }
    if n < 100_000_000 {
        push_eight(line, n as u32);
        return;
    }
    push_many(line, n);
}
