//! A test of the tables of known answers, and of tables that miss.
use vectors::{Case, CaseKind, Miss, crc_table, frames_table, hmac_table, run_table, user_table};

#[test]
fn known_tables(rt: HostRuntime) {
    assert_eq!(rt; crc_table(), (4, Ok(())));
    assert_eq!(rt; hmac_table(), (7, Ok(())));
    assert_eq!(rt; frames_table(), (7, Ok(())));
    assert_eq!(rt; user_table(), (2, Ok(())));
}

#[test]
fn tables_that_miss(rt: HostRuntime) {
    let right = Case::new(CaseKind::Crc16, b"", b"\x01\x03", b"\x21\x40");
    let wrong = Case::new(CaseKind::Crc16, b"", b"\x01\x03", b"\x21\x41");
    assert_eq!(rt; run_table(&[right, wrong]), Err(Miss { row: 2 }));
    // A text that isn't a frame has no user data, which isn't the same as empty user data.
    let none = Case::new(CaseKind::DnpUser, b"", b"\x05\x64", b"");
    assert_eq!(rt; run_table(&[none]), Err(Miss { row: 1 }));
}
