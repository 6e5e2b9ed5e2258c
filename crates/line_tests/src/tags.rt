//! Tests of HMAC against known answers, and of a trailer.
use arrayvec::ArrayVec;
use link_format::{Dir, HmacSha1, HmacSha256, Mac, TagBytes, Trailer};
use yasir_ticks::Tick;

// HMAC-SHA-1, as Python's `hmac` computes it. A row has the length of a key and two MACs: that of
// the 150 bytes whose byte i is 5 i + 1 (modulo 256), and that of the empty text. Byte i of a key
// is 7 i + 3 (modulo 256).
const CODES: [(usize, [u8; 20], [u8; 20]); 4] = [
    (
        0,
        [
            0xbd, 0x8f, 0xb4, 0x89, 0x60, 0xe9, 0x0e, 0xe6, 0x0e, 0xc2, 0xeb, 0xad, 0xc5, 0x5b,
            0xef, 0x41, 0x79, 0x5f, 0x3a, 0xb8,
        ],
        [
            0xfb, 0xdb, 0x1d, 0x1b, 0x18, 0xaa, 0x6c, 0x08, 0x32, 0x4b, 0x7d, 0x64, 0xb7, 0x1f,
            0xb7, 0x63, 0x70, 0x69, 0x0e, 0x1d,
        ],
    ),
    (
        64,
        [
            0xb1, 0xd2, 0x4d, 0xc5, 0x39, 0x28, 0x81, 0x09, 0xc3, 0x8b, 0x14, 0x63, 0xa5, 0xf2,
            0x6d, 0x05, 0x00, 0xa9, 0x42, 0xe7,
        ],
        [
            0xf8, 0x1c, 0xf0, 0x95, 0x4a, 0xe4, 0x23, 0x4d, 0x06, 0xae, 0x78, 0x4f, 0x51, 0x4b,
            0xfe, 0x49, 0xae, 0x08, 0x8b, 0x81,
        ],
    ),
    (
        65,
        [
            0x70, 0x54, 0xd3, 0x2f, 0xfa, 0x8b, 0xd1, 0xf6, 0x60, 0xaa, 0x40, 0xb1, 0xb2, 0x46,
            0xfb, 0x9e, 0xbf, 0x55, 0xda, 0xea,
        ],
        [
            0x6c, 0xa7, 0x1d, 0xec, 0x4e, 0xec, 0xf2, 0x67, 0x57, 0xde, 0x4a, 0xf2, 0x8c, 0x94,
            0x75, 0xf9, 0xea, 0xa3, 0xd9, 0x5f,
        ],
    ),
    (
        200,
        [
            0x52, 0xa8, 0xdc, 0x8d, 0x9b, 0x22, 0xb5, 0xf0, 0xd4, 0xfd, 0x5c, 0xcd, 0x01, 0x10,
            0xcc, 0x5c, 0x9c, 0x46, 0xb0, 0x45,
        ],
        [
            0xc0, 0x00, 0x96, 0xda, 0x73, 0xc7, 0x9a, 0x78, 0xa3, 0x11, 0xcb, 0xeb, 0x13, 0x1e,
            0x37, 0x8f, 0xbb, 0x38, 0x74, 0x58,
        ],
    ),
];

// HMAC-SHA-256: the first two test cases of RFC 4231.
const CODES_256: [(&[u8], &[u8], [u8; 32]); 2] = [
    (
        &[0x0b; 20],
        b"Hi There",
        [
            0xb0, 0x34, 0x4c, 0x61, 0xd8, 0xdb, 0x38, 0x53, 0x5c, 0xa8, 0xaf, 0xce, 0xaf, 0x0b,
            0xf1, 0x2b, 0x88, 0x1d, 0xc2, 0x00, 0xc9, 0x83, 0x3d, 0xa7, 0x26, 0xe9, 0x37, 0x6c,
            0x2e, 0x32, 0xcf, 0xf7,
        ],
    ),
    (
        b"Jefe",
        b"what do ya want for nothing?",
        [
            0x5b, 0xdc, 0xc1, 0x46, 0xbf, 0x60, 0x75, 0x4e, 0x6a, 0x04, 0x24, 0x26, 0x08, 0x95,
            0x75, 0xc7, 0x5a, 0x00, 0x3f, 0x08, 0x9d, 0x27, 0x39, 0x83, 0x9d, 0xec, 0x58, 0xb9,
            0x64, 0xec, 0x38, 0x43,
        ],
    ),
];

fn bytes<const N: usize>(step: u8, first: u8) -> [u8; N] {
    let mut bytes = [first; N];
    let mut next = first;
    for byte in bytes.iter_mut() {
        *byte = next;
        next = next.wrapping_add(step);
    }
    bytes
}

fn tag_of_parts<M: Mac>(mac: &mut M, first: &[u8], second: &[u8]) -> TagBytes {
    mac.update(first);
    mac.update(second);
    mac.finish()
}

#[test]
fn codes_and_tags_of_sha_1(rt: HostRuntime) {
    let keys: [u8; 200] = bytes(7, 3);
    let text: [u8; 150] = bytes(5, 1);
    for (len, whole, empty) in &CODES {
        assert!(rt; *len <= 200);
        let key = &keys[..*len];
        assert_eq!(rt;
            HmacSha1::digest(key, &text),
            *whole,
            "a key of {len} bytes"
        );
        let mut mac = HmacSha1::with_key(key);
        let tag = tag_of_parts(&mut mac, &text[..65], &text[65..]);
        assert_eq!(rt; tag.as_slice(), &whole[..12], "a key of {len} bytes");
        mac.update(&text);
        mac.begin();
        assert_eq!(rt;
            mac.finish().as_slice(),
            &empty[..12],
            "a key of {len} bytes, no text"
        );
    }
}

#[test]
fn codes_and_tags_of_sha_256(rt: HostRuntime) {
    for (key, text, whole) in &CODES_256 {
        assert_eq!(rt; HmacSha256::digest(key, text), *whole);
        let mut mac = HmacSha256::with_key(key);
        let tag = tag_of_parts(&mut mac, &text[..1], &text[1..]);
        assert_eq!(rt; tag.as_slice(), &whole[..16]);
    }
}

#[test]
fn directions_have_numbers(rt: HostRuntime) {
    for (dir, number) in [(Dir::Ab, 0), (Dir::Ba, 1)] {
        assert_eq!(rt; dir.number(), number);
    }
}

#[test]
fn a_word_of_four_bytes_stands_before_a_tag_of_sixteen(rt: HostRuntime) {
    let tag = ArrayVec::from([0xee; 16]);
    let mut trailer: Trailer<4> = Trailer::none();
    assert_eq!(rt; trailer.next_tick(), Tick::Silent);
    trailer.load(0x0102030405, &tag);
    for byte in [2, 3, 4, 5] {
        assert_eq!(rt; trailer.next_tick(), Tick::Byte(byte));
    }
    for _ in 0..16 {
        assert_eq!(rt; trailer.next_tick(), Tick::Byte(0xee));
    }
    assert_eq!(rt; trailer.next_tick(), Tick::Silent);
}
