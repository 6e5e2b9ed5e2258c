//! A CRC of 16 bits, computed bit by bit, without tables.
ghost use Rattle.std.specs.Prelude.{◌≡◌};
ghost use Rattle.line_rules.specs.Crc.{bit_step, bit_steps, crc};

const BITS: u8 = 8;

// The mask is all ones if the bit that is shifted out is 1, and 0 otherwise.
#[inline]
fn after_bit<const POLY: u16>(register: u16) -> u16
    ensures { result ≡ bit_step POLY register }
{
    let mask = (register & 1).wrapping_neg();
    (register >> 1) ^ (POLY & mask)
}

// Returns the register after `count` single-bit shifts.
#[inline]
pub(crate) fn after_bits<const POLY: u16>(register: u16, count: u8) -> u16
    ensures { result ≡ bit_steps POLY count register }
{
    let mut shifted = register;
    for _ in 0..count {
        shifted = after_bit::<POLY>(shifted);
    }
    shifted
}

/// Returns the register after these bytes, if it was `first` before, in a CRC over the polynomial
/// `POLY`. It is computed bit by bit.
pub fn crc_by_bits<const POLY: u16>(first: u16, bytes: &[u8]) -> u16
    ensures { result ≡ crc POLY first bytes.now }
{
    let mut register = first;
    for byte in bytes {
        register = after_bits::<POLY>(register ^ u16::from(*byte), BITS);
    }
    register
}
