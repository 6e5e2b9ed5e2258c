//! The size of a DNP3 frame by its LEN.
ghost use Rattle.std.specs.Prelude.{◌≡◌, if◌then◌else◌, nat_lt};
ghost use Rattle.dnp_link_frame.specs.Blocks.{size_by, room_by};

// How many of the header's bytes LEN counts: control, destination and source.
pub(crate) const COUNTED_OF_HEADER: u8 = 5;

pub(crate) const HEADER_LEN: u16 = 10;

pub(crate) const BLOCK_DATA_LEN: u16 = 16;

pub(crate) const CRC_LEN: u16 = 2;

pub(crate) const LONGEST: u16 = 292;

// How many bytes a frame with this LEN has.
#[inline]
pub(crate) fn size_by(len: u8) -> u16
    ensures { result ≡ size_by len }
{
    let user_len = u16::from(len.saturating_sub(COUNTED_OF_HEADER));
    HEADER_LEN + user_len + CRC_LEN * user_len.div_ceil(BLOCK_DATA_LEN)
}

// For how many bytes a burst with this LEN has room. `len` is 0 if LEN isn't there yet.
#[inline]
pub(crate) fn room_by(len: u8) -> u16
    ensures { result ≡ room_by len }
{
    if len < COUNTED_OF_HEADER {
        LONGEST
    } else {
        size_by(len)
    }
}

/// Returns how many bytes a frame with this LEN has, with its header and its CRCs, or `None` if LEN
/// is below 5.
pub fn size_of(len: u8) -> Option<u16>
    ensures { result ≡ (if nat_lt len 5 then None else Some (size_by len)) }
{
    if len < COUNTED_OF_HEADER {
        None
    } else {
        Some(size_by(len))
    }
}
