//! What one more byte does to what is kept of the bytes so far.
ghost use Rattle.std.specs.Prelude.{◌≡◌, ◌&&◌, ◌==◌};
ghost use Rattle.dnp_link_frame.specs.Steps.{fits_header, is_header, head_by};
ghost use Rattle.dnp_link_frame.specs.Steps.{blocks_at_beginning, len_byte_after, is_whole};
ghost use Rattle.dnp_link_frame.specs.Steps.{ends_right, residue};

use crate::crc::RESIDUE;
use crate::size::{BLOCK_DATA_LEN, COUNTED_OF_HEADER, CRC_LEN, HEADER_LEN, size_by};
use line_rules::Head;

// The two bytes that a frame begins with.
pub(crate) const START: [u8; 2] = [0x05, 0x64];

// How many bytes a whole block of user data has, with its CRC.
pub(crate) const BLOCK_LEN: u16 = BLOCK_DATA_LEN + CRC_LEN;

// Whether a header may have this byte after `len` others. `register` is the one after the byte.
#[inline]
fn fits_header(len: u16, register: u16, byte: u8) -> bool
    ensures { result ≡ fits_header len register byte }
{
    match len {
        0 => byte == START[0],
        1 => byte == START[1],
        2 => byte >= COUNTED_OF_HEADER,
        9 => register == RESIDUE,
        _ => true,
    }
}

#[inline]
pub(crate) fn header_after(len: u16, header_right: bool, register: u16, byte: u8) -> bool
    ensures { result ≡ (header_right && fits_header len register byte) }
{
    header_right && fits_header(len, register, byte)
}

// Whether a header is right. `first` says whether its first byte is, `second` and `len_byte` are
// the next two, and `register` is the one after all ten bytes.
#[inline]
pub(crate) fn is_header(first: bool, second: u8, len_byte: u8, register: u16) -> bool
    ensures { result ≡ is_header first second len_byte register }
{
    first && second == START[1] && len_byte >= COUNTED_OF_HEADER && register == RESIDUE
}

// What is known of a header after `len` bytes. `header_right` says whether it is right so far.
#[inline]
pub(crate) fn head_by(len: u16, header_right: bool) -> Head
    ensures { result ≡ head_by len header_right }
{
    if len < HEADER_LEN {
        return Head::Short;
    }
    if header_right { Head::Good } else { Head::Bad }
}

// Whether all blocks are right, if `blocks_right` says it of those before the last, and `register`
// is that of the last.
#[inline]
pub(crate) fn is_right(blocks_right: bool, register: u16) -> bool
    ensures { result ≡ (blocks_right && register == residue) }
{
    blocks_right && register == RESIDUE
}

// Whether the blocks before a byte that begins one are right. `len` bytes came before it, and
// `register` is that of the last block.
#[inline]
pub(crate) fn blocks_at_beginning(len: u16, blocks_right: bool, register: u16) -> bool
    ensures { result ≡ blocks_at_beginning len blocks_right register }
{
    if len > HEADER_LEN {
        return blocks_right && register == RESIDUE;
    }
    blocks_right
}

#[inline]
pub(crate) fn len_byte_after(len: u16, len_byte: u8, byte: u8) -> u8
    ensures { result ≡ len_byte_after len len_byte byte }
{
    if len == 2 { byte } else { len_byte }
}

#[inline]
pub(crate) fn is_whole(
    len: u16,
    len_byte: u8,
    header_right: bool,
    blocks_right: bool,
    register: u16,
) -> bool
    ensures { result ≡ is_whole len len_byte header_right blocks_right register }
{
    len == size_by(len_byte) && header_right && blocks_right && register == RESIDUE
}

#[inline]
pub(crate) fn ends_right(len: u16, len_byte: u8, register: u16) -> bool
    ensures { result ≡ ends_right len len_byte register }
{
    len_byte >= COUNTED_OF_HEADER && len == size_by(len_byte) && register == RESIDUE
}
