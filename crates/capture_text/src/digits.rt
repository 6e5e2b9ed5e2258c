//! Decimal digits of a time, and hex digits of a byte.
ghost use Rattle.std.specs.Prelude.{◌≡◌, ◌+◌, ◌-◌, ◌*◌, ◌<◌, ◌^◌, ◌↔◌, nat_lt, if◌then◌else◌};
ghost use Rattle.std.specs.Prelude.{IsTrue, true, Some, None, SomeIff};
ghost use Rattle.hex.specs.Hex.{hex_digit_value};
ghost use Rattle.yasir_ticks.specs.TickText.{is_decimal_digit};

/// Whether a byte is a decimal digit.
#[inline]
pub fn is_digit(b: u8) -> bool
    ensures { result ≡ is_decimal_digit b }
{
    b'0' <= b && b <= b'9'
}

/// Returns the value of a hex digit of either case, or `None` if the byte isn't one.
#[inline]
pub fn hex_value(b: u8) -> Option<u8>
    ensures { result ≡ hex_digit_value b }
{
    if b'A' <= b && b <= b'F' {
        return Some(b - b'A' + 10);
    }
    if b'a' <= b && b <= b'f' {
        return Some(b - b'a' + 10);
    }
    if b'0' <= b && b <= b'9' {
        return Some(b - b'0');
    }
    None
}
