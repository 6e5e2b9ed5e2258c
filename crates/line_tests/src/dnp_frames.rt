//! Tests of DNP3 frames: CRCs, sizes, wrong endings, building and parsing.
ghost use Rattle.std.specs.Prelude.{◌≤◌, length};

use dnp_link_frame::{Dnp, Header, NotAFrame, TooMuchData, build, dnp_crc, size_of, user_data};
use line_rules::{Head, LineRules};
use std::mem;
use std::test::Fail;

// The reset of a link, from the master 1024 to the outstation 1.
const RESET_LINK: [u8; 10] = [0x05, 0x64, 0x05, 0xC0, 0x01, 0x00, 0x00, 0x04, 0xE9, 0x21];

// A read of class data.
const READ_CLASS: [u8; 18] = [
    0x05, 0x64, 0x0B, 0xC4, 0x01, 0x00, 0x00, 0x04, 0xF4, 0x5C, 0xC0, 0xC0, 0x01, 0x3C, 0x02, 0x06,
    0x54, 0xE0,
];

// A frame whose last CRC is 0000.
const ENDS_IN_ZEROS: [u8; 14] = [
    0x05, 0x64, 0x07, 0xC4, 0x01, 0x00, 0x00, 0x04, 0x46, 0x8B, 0xC7, 0x70, 0x00, 0x00,
];

// A frame with 250 bytes of user data.
const LARGEST: [u8; 292] = [
    0x05, 0x64, 0xFF, 0xC4, 0x01, 0x00, 0x00, 0x04, 0x27, 0x27, 0x03, 0x0A, 0x11, 0x18, 0x1F, 0x26,
    0x2D, 0x34, 0x3B, 0x42, 0x49, 0x50, 0x57, 0x5E, 0x65, 0x6C, 0xE4, 0x6D, 0x73, 0x7A, 0x81, 0x88,
    0x8F, 0x96, 0x9D, 0xA4, 0xAB, 0xB2, 0xB9, 0xC0, 0xC7, 0xCE, 0xD5, 0xDC, 0x72, 0x38, 0xE3, 0xEA,
    0xF1, 0xF8, 0xFF, 0x06, 0x0D, 0x14, 0x1B, 0x22, 0x29, 0x30, 0x37, 0x3E, 0x45, 0x4C, 0x20, 0x67,
    0x53, 0x5A, 0x61, 0x68, 0x6F, 0x76, 0x7D, 0x84, 0x8B, 0x92, 0x99, 0xA0, 0xA7, 0xAE, 0xB5, 0xBC,
    0x8C, 0xDA, 0xC3, 0xCA, 0xD1, 0xD8, 0xDF, 0xE6, 0xED, 0xF4, 0xFB, 0x02, 0x09, 0x10, 0x17, 0x1E,
    0x25, 0x2C, 0xC0, 0xD4, 0x33, 0x3A, 0x41, 0x48, 0x4F, 0x56, 0x5D, 0x64, 0x6B, 0x72, 0x79, 0x80,
    0x87, 0x8E, 0x95, 0x9C, 0xEE, 0x44, 0xA3, 0xAA, 0xB1, 0xB8, 0xBF, 0xC6, 0xCD, 0xD4, 0xDB, 0xE2,
    0xE9, 0xF0, 0xF7, 0xFE, 0x05, 0x0C, 0x1A, 0x71, 0x13, 0x1A, 0x21, 0x28, 0x2F, 0x36, 0x3D, 0x44,
    0x4B, 0x52, 0x59, 0x60, 0x67, 0x6E, 0x75, 0x7C, 0x48, 0xD9, 0x83, 0x8A, 0x91, 0x98, 0x9F, 0xA6,
    0xAD, 0xB4, 0xBB, 0xC2, 0xC9, 0xD0, 0xD7, 0xDE, 0xE5, 0xEC, 0xBC, 0xF3, 0xF3, 0xFA, 0x01, 0x08,
    0x0F, 0x16, 0x1D, 0x24, 0x2B, 0x32, 0x39, 0x40, 0x47, 0x4E, 0x55, 0x5C, 0x2A, 0xA6, 0x63, 0x6A,
    0x71, 0x78, 0x7F, 0x86, 0x8D, 0x94, 0x9B, 0xA2, 0xA9, 0xB0, 0xB7, 0xBE, 0xC5, 0xCC, 0x78, 0xF9,
    0xD3, 0xDA, 0xE1, 0xE8, 0xEF, 0xF6, 0xFD, 0x04, 0x0B, 0x12, 0x19, 0x20, 0x27, 0x2E, 0x35, 0x3C,
    0xD4, 0x44, 0x43, 0x4A, 0x51, 0x58, 0x5F, 0x66, 0x6D, 0x74, 0x7B, 0x82, 0x89, 0x90, 0x97, 0x9E,
    0xA5, 0xAC, 0x98, 0x4A, 0xB3, 0xBA, 0xC1, 0xC8, 0xCF, 0xD6, 0xDD, 0xE4, 0xEB, 0xF2, 0xF9, 0x00,
    0x07, 0x0E, 0x15, 0x1C, 0xB6, 0xDA, 0x23, 0x2A, 0x31, 0x38, 0x3F, 0x46, 0x4D, 0x54, 0x5B, 0x62,
    0x69, 0x70, 0x77, 0x7E, 0x85, 0x8C, 0x42, 0xEF, 0x93, 0x9A, 0xA1, 0xA8, 0xAF, 0xB6, 0xBD, 0xC4,
    0xCB, 0xD2, 0x27, 0x75,
];

#[test]
fn known_crcs(rt: HostRuntime) {
    assert_eq!(rt; dnp_crc(b"123456789"), 0xEA82);
    assert_eq!(rt; dnp_crc(b"\x05\x64\x05\xC0\x01\x00\x00\x04"), 0x21E9);
    assert_eq!(rt; dnp_crc(b""), 0xFFFF);
}

#[test]
fn known_sizes(rt: HostRuntime) {
    for (len, size) in [(5, 10), (6, 13), (11, 18), (21, 28), (22, 31), (255, 292)] {
        assert_eq!(rt; size_of(len), Some(size));
    }
    assert_eq!(rt; size_of(4), None);
}

// Returns what the rules say of these bytes.
fn judged<R: LineRules>(bytes: &[u8]) -> (u16, bool, bool, Head, u16) {
    let mut rules = R::fresh();
    rules.restart();
    rules.take_some(bytes);
    (
        rules.len(),
        rules.full(),
        rules.good(),
        rules.head(),
        rules.lacking(),
    )
}

#[test]
fn judged_bytes(rt: HostRuntime) {
    assert_eq!(rt; (Dnp::MAX, Dnp::LABEL), (292, 2));
    assert_eq!(rt; judged::<Dnp>(b""), (0, false, false, Head::Short, 0));
    assert_eq!(rt; judged::<Dnp>(&RESET_LINK), (10, true, true, Head::Good, 0));
    assert_eq!(rt; judged::<Dnp>(&READ_CLASS), (18, true, true, Head::Good, 0));
    assert_eq!(rt;
        judged::<Dnp>(&ENDS_IN_ZEROS),
        (14, true, true, Head::Good, 0)
    );

    // a wrong CRC of the header, a wrong start, a LEN below 5
    let wrong_crc = b"\x05\x64\x05\xC0\x01\x00\x00\x04\xE9\x20";
    assert_eq!(rt; judged::<Dnp>(wrong_crc), (10, true, false, Head::Bad, 0));
    assert_eq!(rt;
        judged::<Dnp>(b"\x05\x65\x05\xC0\x01\x00\x00\x04\xE9\x21"),
        (10, true, false, Head::Bad, 0)
    );
    assert_eq!(rt;
        judged::<Dnp>(&[0x04; 300]),
        (292, true, false, Head::Bad, 0)
    );

    // LEN bounds the room even of bytes that aren't a header
    assert_eq!(rt;
        judged::<Dnp>(&[0x06; 300]),
        (13, true, false, Head::Bad, 0)
    );

    // nine bytes aren't a header yet
    assert_eq!(rt;
        judged::<Dnp>(b"\x05\x64\x05\xC0\x01\x00\x00\x04\xE9"),
        (9, false, false, Head::Short, 0)
    );
}

// A value doesn't keep its bytes, of which there are up to 292.
#[test]
fn small_values(rt: HostRuntime) {
    assert!(rt; mem::size_of::<Dnp>() <= 128);
}

const TO_OUTSTATION: Header = Header {
    control: 0xC4,
    destination: 1,
    source: 1024,
};

// Returns the user data of the largest frame.
fn most_user_data() -> [u8; 250] {
    let mut user = [0; 250];
    let mut next = 3u8;
    for byte in user.iter_mut() {
        *byte = next;
        next = next.wrapping_add(7);
    }
    user
}

#[test]
fn built_frames(rt: HostRuntime) -> Result<(), Fail> {
    let read = build(&TO_OUTSTATION, b"\xC0\xC0\x01\x3C\x02\x06")?;
    assert_eq!(rt; read.as_slice(), READ_CLASS.as_slice());
    let reset = Header {
        control: 0xC0,
        ..TO_OUTSTATION
    };
    assert_eq!(rt; build(&reset, b"")?.as_slice(), RESET_LINK.as_slice());
    assert_eq!(rt;
        build(&TO_OUTSTATION, b"\xC7\x70")?.as_slice(),
        ENDS_IN_ZEROS.as_slice()
    );
    assert_eq!(rt;
        build(&TO_OUTSTATION, &most_user_data())?.as_slice(),
        LARGEST.as_slice()
    );

    // an address has its low byte first
    let turned = Header {
        destination: 0x0102,
        ..TO_OUTSTATION
    };
    assert_eq!(rt;
        &build(&turned, b"")?.as_slice()[4..8],
        b"\x02\x01\x00\x04".as_slice()
    );

    assert!(rt;
        matches!(
            build(&TO_OUTSTATION, &[0; 251]),
            Err(TooMuchData { len: 251 })
        )
    );
    Ok(())
}

#[test]
fn user_data_of_frames(rt: HostRuntime) -> Result<(), Fail> {
    let (header, user) = user_data(&READ_CLASS)?;
    assert_eq!(rt; header, TO_OUTSTATION);
    assert_eq!(rt; user.as_slice(), b"\xC0\xC0\x01\x3C\x02\x06".as_slice());
    let (header, user) = user_data(&RESET_LINK)?;
    assert_eq!(rt; header.control, 0xC0);
    assert_eq!(rt; user.len(), 0);
    let (header, user) = user_data(&LARGEST)?;
    assert_eq!(rt; header, TO_OUTSTATION);
    assert_eq!(rt; user.as_slice(), most_user_data().as_slice());
    Ok(())
}

// Returns the place at which these bytes are refused, or `None` if they are a frame.
fn refused_at(bytes: &[u8]) -> Option<u16> {
    match user_data(bytes) {
        Ok(_) => None,
        Err(NotAFrame { place }) => Some(place),
    }
}

#[test]
fn refused_places(rt: HostRuntime) {
    assert_eq!(rt; refused_at(b""), Some(0));
    assert_eq!(rt; refused_at(b"\x05\x64"), Some(2));
    assert_eq!(rt; refused_at(b"\x05\x64\x04"), Some(2));
    assert_eq!(rt;
        refused_at(b"\x05\x64\x05\xC0\x01\x00\x00\x04\xE9\x20"),
        Some(9)
    );
    assert_eq!(rt;
        refused_at(b"\x05\x64\x05\xC0\x01\x00\x00\x04\xE9\x21\x00"),
        Some(10)
    );
    assert_eq!(rt; refused_at(&ENDS_IN_ZEROS[..12]), Some(12));
    for k in 0..LARGEST.len() {
        assert_eq!(rt; refused_at(&LARGEST[..k]).map(usize::from), Some(k));
    }

    // a wrong byte of user data shows in the first byte of its block's CRC
    let mut wrong = LARGEST;
    wrong[30] ^= 1;
    assert_eq!(rt; refused_at(&wrong), Some(44));
}
