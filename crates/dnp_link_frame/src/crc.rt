//! The CRC of DNP3, by tables.
ghost use Rattle.std.specs.Prelude.{◌≡◌};
ghost use Rattle.dnp_link_frame.specs.Crc.{crc_dnp};

use line_rules::crc_by_bits;

// x^16 + x^13 + x^12 + x^11 + x^10 + x^8 + x^6 + x^5 + x^2 + 1, its bits in reverse order.
pub(crate) const POLYNOMIAL: u16 = 0xA6BC;

pub(crate) const FIRST_REGISTER: u16 = 0;

// The register after bytes that end in their CRC. It isn't 0, as the CRC is the complement of the
// register before it.
pub(crate) const RESIDUE: u16 = 0x66C5;

/// The CRC of DNP3 over these bytes.
pub fn dnp_crc(bytes: &[u8]) -> u16
    ensures { result ≡ crc_dnp bytes.now }
{
    !crc_by_bits::<POLYNOMIAL>(FIRST_REGISTER, bytes)
}
