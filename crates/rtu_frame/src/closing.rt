//! How a Modbus RTU frame is made: its CRC is appended.
ghost use Rattle.std.specs.Prelude.{◌≡◌, ◌<◌, ◌++◌, ◌↔◌, length, IsErr, OnOk, OnErr};
ghost use Rattle.line_rules.specs.Bytes.{low_first};
ghost use Rattle.rtu_frame.specs.Crc.{crc_rtu};

use crate::table::crc16_by_tables;
use arrayvec::ArrayVec;

/// The bytes of a Modbus RTU frame.
pub type RtuBytes = ArrayVec<u8, 256>;

/// The error of `close`: there is no room for the two bytes of a CRC.
#[derive(Clone, Copy, Debug, PartialEq, Eq)]
pub struct NoRoom;

/// Makes a frame of its address, its function and its data: appends their CRC, low byte first.
/// Returns `NoRoom` if there are more than 254 bytes, and changes nothing then.
pub fn close(bytes: &mut RtuBytes) -> Result<(), NoRoom>
    /// If it succeeds, the CRC of the bytes is appended, low byte first.
    ensures closed { OnOk result (bytes.new.items
        ≡ bytes.old.items ++ low_first (crc_rtu bytes.old.items)) }
    /// If it fails, the bytes are as they were.
    ensures unchanged { OnErr result (bytes.new ≡ bytes.old) }
    /// It fails exactly if there are more than 254 bytes.
    ensures cause { IsErr result ↔ (254 < length bytes.old.items) }
{
    let sent = crc16_by_tables(bytes.as_slice()).to_le_bytes();
    bytes.try_extend_from_slice(&sent).map_err(|_| NoRoom)
}
