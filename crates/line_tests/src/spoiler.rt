//! A test of the spoiled ending.
use line_rules::{FourBytes, LineRules, Outlet};

// What leaves for the last of these bytes, which is the last one of its burst; `None` if a fill is
// owed after it.
fn last_of(bytes: &[u8], passed: bool) -> Option<u8> {
    let mut outlet = Outlet::<FourBytes>::new();
    outlet.begin();
    let mut all = FourBytes::fresh();
    all.take_some(bytes);
    outlet.refuse(all);
    let mut byte = 1;
    for place in 0..bytes.len() {
        byte = outlet.emit(bytes[place], place + 1 == bytes.len(), passed);
    }
    if outlet.owes() || outlet.fill().is_some() {
        return None;
    }
    Some(byte)
}

#[test]
fn only_a_right_ending_is_spoiled(rt: HostRuntime) {
    assert_eq!(rt; last_of(b"\x01\x02\x03\x00", true), Some(0));
    assert_eq!(rt; last_of(b"\x01\x02\x03\x00", false), Some(1));
    assert_eq!(rt; last_of(b"\x01\x02\x03\x07", false), Some(7));
    assert_eq!(rt; last_of(b"\x00", false), Some(1));
}
