//! The CRC of Modbus RTU.
ghost use Rattle.std.specs.Prelude.{◌≡◌};
ghost use Rattle.rtu_frame.specs.Crc.{crc_rtu};

use line_rules::crc_by_bits;

// x^16 + x^15 + x^2 + 1, its bits in reverse order.
pub(crate) const POLYNOMIAL: u16 = 0xA001;

pub(crate) const FIRST_REGISTER: u16 = 0xFFFF;

/// The CRC-16 of Modbus RTU over these bytes.
pub fn crc16(bytes: &[u8]) -> u16
    ensures { result ≡ crc_rtu bytes.now }
{
    crc_by_bits::<POLYNOMIAL>(FIRST_REGISTER, bytes)
}
