//! How a DNP3 frame is built from its header and its user data.
ghost use Rattle.std.specs.Prelude.{◌≡◌, ◌+◌, ◌<◌, ◌≤◌, ◌++◌, ◌↔◌, length, IsErr, IfOk, IfErr};
ghost use Rattle.arrayvec.specs.ArrayVec.{array_vec_len};
ghost use Rattle.dnp_link_frame.specs.Frame.{with_crc, header_fields, frame_of};

use crate::header::Header;
use crate::size::{BLOCK_DATA_LEN, COUNTED_OF_HEADER};
use crate::steps::START;
use crate::table::dnp_crc_by_tables;
use arrayvec::ArrayVec;

const BLOCK: usize = BLOCK_DATA_LEN as usize;

/// The bytes of a frame.
pub type DnpBytes = ArrayVec<u8, 292>;

const MOST_USER_DATA: usize = 250;

/// The error of `build`: there are more bytes of user data than a frame can have.
#[derive(Clone, Copy, Debug, PartialEq, Eq)]
pub struct TooMuchData {
    /// How many bytes of user data there are.
    pub len: usize,
}

fn header_fields(header: &Header, user_len: u8) -> [u8; 8]
    requires { user_len + 5 < 256 }
    ensures { result ≡ header_fields header.now user_len }
{
    let [destination_low, destination_high] = header.destination.to_le_bytes();
    let [source_low, source_high] = header.source.to_le_bytes();
    [
        START[0],
        START[1],
        user_len + COUNTED_OF_HEADER,
        header.control,
        destination_low,
        destination_high,
        source_low,
        source_high,
    ]
}

// Appends a part of a frame and its CRC.
#[inline(always)]
fn push_with_crc(bytes: &mut DnpBytes, part: &[u8])
    requires { array_vec_len bytes.old + length part.now + 2 ≤ 292 }
    ensures { bytes.new.items ≡ bytes.old.items ++ with_crc part.now }
{
    let crc = dnp_crc_by_tables(part).to_le_bytes();
    let _ = bytes.try_extend_from_slice(part);
    let _ = bytes.try_extend_from_slice(&crc);
}

/// Builds the frame of this header and this user data (IEEE 1815): the user data in blocks of 16
/// bytes, and a CRC after the header and after each block. Returns `TooMuchData` if there are more
/// than 250 bytes of user data.
pub fn build(header: &Header, user: &[u8]) -> Result<DnpBytes, TooMuchData>
    /// The bytes are the frame of this header and this user data.
    ensures built { IfOk result (λ built. built.items ≡ frame_of header.now user.now) }
    /// There is an error exactly if there are more than 250 bytes of user data.
    ensures cause { IsErr result ↔ (250 < length user.now) }
    /// The error tells how many there are.
    ensures tells { IfErr result (λ error. error.len ≡ length user.now) }
{
    if user.len() > MOST_USER_DATA {
        return Err(TooMuchData { len: user.len() });
    }
    let mut bytes = DnpBytes::new();
    push_with_crc(&mut bytes, &header_fields(header, user.len() as u8));
    let mut following = user;
    while let Some((block, more)) = following.split_first_chunk::<BLOCK>() {
        push_with_crc(&mut bytes, block);
        following = more;
    }
    if following.is_empty() {
        return Ok(bytes);
    }
    push_with_crc(&mut bytes, following);
    Ok(bytes)
}
