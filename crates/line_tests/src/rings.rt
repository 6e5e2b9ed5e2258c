//! Tests of the delay ring: ticks leave late by the length of the ring.
use yasir_ticks::{DelayRing, Tick};

#[test]
fn three_ticks_late(rt: HostRuntime) {
    let mut ring = DelayRing::<3>::new();
    for byte in 1..4u8 {
        assert_eq!(rt; ring.turn(Tick::Byte(byte)), Tick::Silent);
    }
    assert_eq!(rt; ring.turn(Tick::Byte(4)), Tick::Byte(1));
    assert_eq!(rt; ring.peek(0), Tick::Byte(2));
    assert_eq!(rt; ring.peek(1), Tick::Byte(3));
    assert_eq!(rt; ring.peek(2), Tick::Byte(4));
    ring.clear();
    for _ in 0..3 {
        assert_eq!(rt; ring.turn(Tick::Byte(5)), Tick::Silent);
    }
    assert_eq!(rt; ring.turn(Tick::Silent), Tick::Byte(5));
}

#[test]
fn the_longest_and_the_shortest_delay(rt: HostRuntime) {
    let mut ring = DelayRing::<1>::new();
    assert_eq!(rt; ring.turn(Tick::Byte(7)), Tick::Silent);
    assert_eq!(rt; ring.turn(Tick::Silent), Tick::Byte(7));
    let mut ring = DelayRing::<64>::new();
    assert_eq!(rt; ring.turn(Tick::Byte(7)), Tick::Silent);
    for _ in 0..63 {
        assert_eq!(rt; ring.turn(Tick::Silent), Tick::Silent);
    }
    assert_eq!(rt; ring.turn(Tick::Silent), Tick::Byte(7));
}
