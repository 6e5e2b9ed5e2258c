//! Reads the user data of a DNP3 frame, or finds where the bytes stop being a frame.
ghost use Rattle.std.specs.Prelude.{◌≡◌, ◌+◌, ◌*◌, ◌≤◌, ◌↔◌, length, IsOk, IfOk, IfErr};
ghost use Rattle.std.specs.Prelude.{slice_index, ◌++◌, ◌==◌, ◌&&◌};
ghost use Rattle.arrayvec.specs.ArrayVec.{array_vec_len};
ghost use Rattle.dnp_link_frame.specs.Blocks.{length_byte, size_by};
ghost use Rattle.dnp_link_frame.specs.Frame.{IsFrameOf, IsDnpFrame, IsLongestBeginning, blocks_for};
ghost use Rattle.dnp_link_frame.specs.Beginnings.{right_in_start, right_in_part, right_in_blocks};
ghost use Rattle.dnp_link_frame.specs.Beginnings.{right_in_frame, user_in_blocks, header_in};
ghost use Rattle.dnp_link_frame.specs.Beginnings.{user_in};

use crate::crc::dnp_crc;
use crate::header::Header;
use crate::size::{BLOCK_DATA_LEN, COUNTED_OF_HEADER, CRC_LEN, HEADER_LEN, size_by};
use crate::steps::START;
use arrayvec::ArrayVec;

const CRC: usize = CRC_LEN as usize;

const HEADER: usize = HEADER_LEN as usize;

const BLOCK: usize = BLOCK_DATA_LEN as usize;

const BLOCK_WITH_CRC: usize = BLOCK + CRC;

/// The user data of a frame.
pub type UserBytes = ArrayVec<u8, 250>;

/// The error of `user_data`: the bytes aren't a frame.
#[derive(Clone, Copy, Debug, PartialEq, Eq)]
pub struct NotAFrame {
    /// The length of the longest front of the bytes with which some frame begins.
    pub place: u16,
}

fn byte_at(bytes: &[u8], place: usize) -> u8
    ensures { result ≡ slice_index bytes.now place }
{
    bytes.get(place).copied().unwrap_or(0)
}

// Returns how many of the first three bytes are right, as 05 64 and a LEN of at least 5.
#[tactic(auto, unfolding(crate::specs::Beginnings::right_in_start))]
fn right_in_start(bytes: &[u8]) -> usize
    ensures { result ≡ right_in_start bytes.now }
{
    if byte_at(bytes, 0) != START[0] {
        return 0;
    }
    if byte_at(bytes, 1) != START[1] {
        return 1;
    }
    if byte_at(bytes, 2) < COUNTED_OF_HEADER {
        return 2;
    }
    3
}

// Returns how many of the first bytes are right, as `len` bytes of any value and then their CRC.
#[tactic(auto, unfolding(crate::specs::Beginnings::right_in_part))]
fn right_in_part(bytes: &[u8], len: usize) -> usize
    requires { len ≤ 16 }
    ensures right { result ≡ right_in_part len bytes.now }
    ensures within { result ≤ length bytes.now }
    ensures most { result ≤ len + 2 }
{
    if bytes.len() <= len {
        return bytes.len();
    }
    let [low, high] = dnp_crc(&bytes[..len]).to_le_bytes();
    if bytes[len] != low {
        return len;
    }
    if bytes.len() > len + 1 && bytes[len + 1] == high {
        len + CRC
    } else {
        len + 1
    }
}

// Returns how many of the first bytes are right, as blocks with `user_len` bytes of user data.
fn right_in_blocks(bytes: &[u8], user_len: usize) -> usize
    requires { user_len ≤ 250 }
    ensures right { result ≡ right_in_blocks (blocks_for user_len) user_len bytes.now }
    ensures within { result ≤ length bytes.now }
    ensures most { result ≤ user_len + 2 * blocks_for user_len }
{
    let blocks = user_len.div_ceil(BLOCK);
    for n in 0..blocks {
        let len = (user_len - n * BLOCK).min(BLOCK);
        let right = right_in_part(&bytes[n * BLOCK_WITH_CRC..], len);
        if right != len + CRC {
            return n * BLOCK_WITH_CRC + right;
        }
    }
    user_len + CRC * blocks
}

// Returns how many of the first bytes are right, as a frame.
fn right_in_frame(bytes: &[u8]) -> usize
    ensures right { result ≡ right_in_frame bytes.now }
    ensures within { result ≤ length bytes.now }
    ensures most { result ≤ 292 }
{
    let start = right_in_start(bytes);
    if start < 3 {
        return start;
    }
    let header = right_in_part(bytes, HEADER - CRC);
    if header != HEADER {
        return header;
    }
    let user_len = usize::from(byte_at(bytes, 2).saturating_sub(COUNTED_OF_HEADER));
    HEADER + right_in_blocks(&bytes[HEADER..], user_len)
}

fn header_in(bytes: &[u8]) -> Header
    requires { 8 ≤ length bytes.now }
    ensures { result ≡ header_in bytes.now }
{
    Header {
        control: bytes[3],
        destination: u16::from_le_bytes([bytes[4], bytes[5]]),
        source: u16::from_le_bytes([bytes[6], bytes[7]]),
    }
}

fn push_bytes(user: &mut UserBytes, bytes: &[u8])
    requires { array_vec_len user.old + length bytes.now ≤ 250 }
    ensures { user.new.items ≡ user.old.items ++ bytes.now }
{
    let _ = user.try_extend_from_slice(bytes);
}

// Returns the user data of `count` blocks: each block without its CRC.
fn user_in_blocks(bytes: &[u8], count: usize) -> UserBytes
    requires fit { length bytes.now ≤ 250 + 2 * count }
    requires whole { 18 * count ≤ length bytes.now + 15 }
    ensures { result.items ≡ user_in_blocks count bytes.now }
{
    let mut user = UserBytes::new();
    for n in 0..count {
        let from = n * BLOCK_WITH_CRC;
        let to = bytes.len().min(from + BLOCK_WITH_CRC) - CRC;
        push_bytes(&mut user, &bytes[from..to]);
    }
    user
}

// Returns the user data of a frame.
fn user_in(frame: &[u8]) -> UserBytes
    requires size { length frame.now ≡ size_by (length_byte frame.now) }
    ensures { result.items ≡ user_in frame.now }
{
    let user_len = usize::from(byte_at(frame, 2).saturating_sub(COUNTED_OF_HEADER));
    user_in_blocks(&frame[HEADER..], user_len.div_ceil(BLOCK))
}

// Whether the first `right` bytes are all the bytes, and none is lacking.
fn is_whole(bytes: &[u8], right: usize) -> bool
    ensures { result
        ≡ (right == length bytes.now && length bytes.now == size_by (length_byte bytes.now)) }
{
    right == bytes.len() && bytes.len() == usize::from(size_by(byte_at(bytes, 2)))
}

/// Returns the header and the user data that a frame was built from, or `NotAFrame` if these bytes
/// aren't a frame.
pub fn user_data(frame: &[u8]) -> Result<(Header, UserBytes), NotAFrame>
    /// The bytes are a frame of the header and the user data that are returned.
    ensures read { IfOk result (λ read. IsFrameOf read.0 read.1.items frame.now) }
    /// They are returned exactly if the bytes are a frame.
    ensures cause { IsOk result ↔ IsDnpFrame frame.now }
    /// The error has the length of the longest beginning of the bytes that begins a frame.
    ensures place { IfErr result (λ error. IsLongestBeginning frame.now error.place) }
{
    let right = right_in_frame(frame);
    if !is_whole(frame, right) {
        return Err(NotAFrame {
            place: right as u16,
        });
    }
    Ok((header_in(frame), user_in(frame)))
}
