//! Bounds on the size of both boxes: besides its parts, neither has room for the longest frame.
use check_receiver::Checker;
use dnp_link_frame::Dnp;
use line_rules::{LineRules, Outlet};
use link_format::{HmacSha1, HmacSha256};
use rtu_frame::Rtu;
use seal_transmitter::Sealer;
use yasir_ticks::DelayRing;

// Room for the longest frame would take 256 bytes in the rules of Modbus RTU, and 292 in a box. A
// box has at most this many bytes besides those of its parts.
const BESIDE_THE_PARTS: usize = 280;

const _: () = prove!(size_of::<Rtu>() <= 128);

const _: () = prove!(
    size_of::<Sealer<Rtu, HmacSha1, 2>>()
        <= size_of::<Rtu>() + size_of::<HmacSha1>() + BESIDE_THE_PARTS
);

const _: () = prove!(
    size_of::<Checker<Rtu, HmacSha1, 2, 18>>()
        <= 2 * size_of::<Rtu>()
            + size_of::<HmacSha1>()
            + size_of::<DelayRing<18>>()
            + BESIDE_THE_PARTS
);

const _: () = prove!(size_of::<Dnp>() <= 128);

const _: () = prove!(
    size_of::<Sealer<Dnp, HmacSha1, 2>>()
        <= size_of::<Dnp>() + size_of::<HmacSha1>() + BESIDE_THE_PARTS
);

const _: () = prove!(
    size_of::<Checker<Dnp, HmacSha1, 2, 18>>()
        <= 2 * size_of::<Dnp>()
            + size_of::<HmacSha1>()
            + size_of::<DelayRing<18>>()
            + BESIDE_THE_PARTS
);

// With words of four bytes and tags by HMAC-SHA-256, a box has at most `BESIDE_THE_PARTS` bytes
// besides those of its parts.
const _: () = prove!(
    size_of::<Sealer<Rtu, HmacSha256, 4>>()
        <= size_of::<Rtu>() + size_of::<HmacSha256>() + BESIDE_THE_PARTS
);

const _: () = prove!(
    size_of::<Checker<Rtu, HmacSha256, 4, 24>>()
        <= 2 * size_of::<Rtu>()
            + size_of::<HmacSha256>()
            + size_of::<DelayRing<24>>()
            + BESIDE_THE_PARTS
);

const _: () = prove!(
    size_of::<Sealer<Dnp, HmacSha256, 4>>()
        <= size_of::<Dnp>() + size_of::<HmacSha256>() + BESIDE_THE_PARTS
);

const _: () = prove!(
    size_of::<Checker<Dnp, HmacSha256, 4, 24>>()
        <= 2 * size_of::<Dnp>()
            + size_of::<HmacSha256>()
            + size_of::<DelayRing<24>>()
            + BESIDE_THE_PARTS
);

// How many bytes a box has at most. A bound by its parts says nothing if a part itself grows. This
// number rules out that a part has grown by room for the longest frame.
const SEALER_MOST: usize = 512;

const CHECKER_MOST: usize = 1_056;

const _: () = prove!(size_of::<Sealer<Rtu, HmacSha1, 2>>() <= SEALER_MOST);

const _: () = prove!(size_of::<Sealer<Dnp, HmacSha1, 2>>() <= SEALER_MOST);

const _: () = prove!(size_of::<Sealer<Rtu, HmacSha256, 4>>() <= SEALER_MOST);

const _: () = prove!(size_of::<Sealer<Dnp, HmacSha256, 4>>() <= SEALER_MOST);

const _: () = prove!(size_of::<Checker<Rtu, HmacSha1, 2, 18>>() <= CHECKER_MOST);

const _: () = prove!(size_of::<Checker<Dnp, HmacSha1, 2, 18>>() <= CHECKER_MOST);

const _: () = prove!(size_of::<Checker<Rtu, HmacSha256, 4, 24>>() <= CHECKER_MOST);

const _: () = prove!(size_of::<Checker<Dnp, HmacSha256, 4, 24>>() <= CHECKER_MOST);

// An outlet of which the bytes 01 7e of a burst have left.
fn two_left() -> Outlet<Rtu> {
    let mut outlet = Outlet::<Rtu>::new();
    outlet.begin();
    for byte in [0x01, 0x7e] {
        outlet.emit(byte, false, false);
    }
    outlet
}

// The rules after the bytes 01 7e 80.
fn all_three() -> Rtu {
    let mut all = Rtu::fresh();
    all.take_some(&[0x01, 0x7e, 0x80]);
    all
}

// What leaves for the last of the bytes 01 7e 80, which have a right ending and are no frame.
fn last_byte(passed: bool) -> u8 {
    let mut outlet = two_left();
    outlet.refuse(all_three());
    outlet.emit(0x80, true, passed)
}

#[test]
fn a_right_ending_is_spoiled(rt: HostRuntime) {
    assert_eq!(rt; last_byte(false), 0x81);
    assert_eq!(rt; last_byte(true), 0x80);
}
