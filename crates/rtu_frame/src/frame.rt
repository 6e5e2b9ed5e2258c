//! Which bytes are a Modbus RTU frame.
ghost use Rattle.std.specs.Prelude.{◌↔◌, IsTrue};
ghost use Rattle.rtu_frame.specs.Frame.{IsFrame, HasRightEnding};

use crate::crc::{FIRST_REGISTER, crc16};
use crate::table::after_bytes;

const SHORTEST: usize = 4;

const LONGEST: usize = 256;

/// Whether these bytes are a Modbus RTU frame: 4 to 256 bytes, the last two being the CRC of those
/// before, low byte first.
pub fn is_frame(bytes: &[u8]) -> bool
    ensures { IsTrue result ↔ IsFrame bytes.now }
{
    let length = bytes.len();
    if length < SHORTEST || length > LONGEST {
        return false;
    }
    let [low, high] = after_bytes(FIRST_REGISTER, &bytes[..length - 2]).to_le_bytes();
    bytes[length - 2] == low && bytes[length - 1] == high
}

/// Whether the last two of at least two bytes are the CRC of those before, low byte first.
pub fn has_right_ending(bytes: &[u8]) -> bool
    ensures { IsTrue result ↔ HasRightEnding bytes.now }
{
    crc16(bytes) == 0
}
