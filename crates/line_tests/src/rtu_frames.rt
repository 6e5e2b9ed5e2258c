//! Tests of frames of Modbus RTU: CRCs, right endings, building, and what the rules say of bytes.
use line_rules::{Head, LineRules};
use rtu_frame::{NoRoom, Rtu, RtuBytes, close, crc16, has_right_ending, is_frame};
use std::test::Fail;

#[test]
fn known_crcs(rt: HostRuntime) {
    assert_eq!(rt; crc16(b"123456789"), 0x4B37);
    assert_eq!(rt; crc16(b"\x01\x03"), 0x2140);
}

// Bytes, and whether they have a right ending and are a frame. The first three are frames of the
// standard and of its users, and the others have too few bytes or a wrong CRC.
const ROWS: &[(&[u8], bool, bool)] = &[
    (b"\x01\x03\x00\x00\x00\x0A\xC5\xCD", true, true),
    (b"\x11\x03\x00\x6B\x00\x03\x76\x87", true, true),
    (b"\x01\x03\x40\x21", true, true),
    (b"\x01\x03\x00\x00\x00\x0A\xC5\xCC", false, false),
    (b"\x01\x7E\x80", true, false),
    (b"\xFF\xFF", true, false),
    (b"\xFF", false, false),
    (b"", false, false),
];

#[test]
fn known_frames(rt: HostRuntime) {
    for (bytes, ends_right, frame) in ROWS {
        assert!(rt; has_right_ending(bytes) == *ends_right);
        assert!(rt; is_frame(bytes) == *frame);
    }
}

#[test]
fn closed_bodies(rt: HostRuntime) -> Result<(), Fail> {
    let mut bytes = RtuBytes::new();
    bytes.try_extend_from_slice(b"\x01\x03")?;
    assert!(rt; close(&mut bytes).is_ok());
    assert_eq!(rt; bytes.as_slice(), b"\x01\x03\x40\x21".as_slice());
    // With 255 bytes there is room for only one more.
    bytes.try_extend_from_slice(&[0; 251])?;
    assert_eq!(rt; close(&mut bytes), Err(NoRoom));
    assert_eq!(rt; bytes.len(), 255);
    Ok(())
}

// What the rules say of these bytes.
fn judged<R: LineRules>(bytes: &[u8]) -> (u16, bool, bool, Head, u16) {
    let mut rules = R::fresh();
    rules.restart();
    rules.take_some(bytes);
    (
        rules.len(),
        rules.full(),
        rules.good(),
        rules.head(),
        rules.lacking(),
    )
}

#[test]
fn judged_bytes(rt: HostRuntime) {
    assert_eq!(rt; (Rtu::MAX, Rtu::LABEL), (256, 1));
    let frame = judged::<Rtu>(b"\x01\x03\x40\x21");
    assert_eq!(rt; frame, (4, false, true, Head::Good, 0));
    let short = judged::<Rtu>(b"\x01\x7E\x80");
    assert_eq!(rt; short, (3, false, false, Head::Good, 0));
    let long = judged::<Rtu>(&[0; 257]);
    assert_eq!(rt; long, (256, true, false, Head::Good, 0));
}
