//! A frame of each protocol with the trailer of number 1, by each profile.

/// The key of all packets.
pub const KEY: u128 = 0x000102030405060708090a0b0c0d0e0f;

// Word and tag follow the frame. Points are silence. The tags are by openssl:
//   printf 010001030000000ac5cd0000000000000001 | xxd -r -p
//     | openssl dgst -sha1 -mac HMAC -macopt hexkey:000102030405060708090a0b0c0d0e0f
//     | cut -c1-24
// and so for the frame of DNP3 with 0200 in front, and by y24 with -sha256 and cut -c1-32.
/// The packet of a Modbus RTU request with number 1, by y18.
pub const RTU_PACKET: &[u8] = b"\x01\x03\x00\x00\x00\x0a\xc5\xcd...\
      \x00\x01\x01\x4c\x5b\x8d\x33\xc6\xd2\x9a\x34\x70\x13\xb0";

/// The packet of a DNP3 frame that is only a header, with number 1, by y18.
pub const DNP_PACKET: &[u8] = b"\x05\x64\x05\xc0\x01\x00\x00\x04\xe9\x21...\
      \x00\x01\x79\x34\x84\xb9\xbd\xf8\x58\xbb\xd8\x2b\x55\x9e";

/// The packet of a Modbus RTU request with number 1, by y24.
pub const WIDE_RTU_PACKET: &[u8] = b"\x01\x03\x00\x00\x00\x0a\xc5\xcd...\
      \x00\x00\x00\x01\x65\xd2\x45\xba\x10\x95\x09\xaa\x6c\x32\xac\x3c\xfa\x22\x8f\xd6";

// The packet of a DNP3 frame that is only a header, with number 1, by y24.
const WIDE_DNP_PACKET: &[u8] = b"\x05\x64\x05\xc0\x01\x00\x00\x04\xe9\x21...\
      \x00\x00\x00\x01\xcd\x52\x5d\x6a\x6c\x11\x90\x47\xd4\x5d\xb5\xba\x9f\x9e\x42\x90";

/// A protocol and a profile: Modbus RTU or DNP3, by y18 or by y24.
#[derive(Clone, Copy)]
pub enum Link {
    Rtu,
    Dnp,
    WideRtu,
    WideDnp,
}

/// All links.
pub const LINKS: [Link; 4] = [Link::Rtu, Link::Dnp, Link::WideRtu, Link::WideDnp];

/// The packet of number 1.
pub fn packet_of(link: Link) -> &'static [u8] {
    match link {
        Link::Rtu => RTU_PACKET,
        Link::Dnp => DNP_PACKET,
        Link::WideRtu => WIDE_RTU_PACKET,
        Link::WideDnp => WIDE_DNP_PACKET,
    }
}
