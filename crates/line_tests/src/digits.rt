//! A test of known hex digits.
use arrayvec::ArrayVec;
use yasir_ticks::push_digits;

#[test]
fn known_digits(rt: HostRuntime) {
    let mut line = ArrayVec::<u8, 32>::new();
    push_digits(&mut line, b"\x00\x0F\xF0\x9A\xBC\xDE");
    push_digits(&mut line, b"");
    assert_eq!(rt; line.as_slice(), b"000ff09abcde".as_slice());
}
