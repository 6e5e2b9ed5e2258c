//! Words of rates, worked rows of captures at 1,000 baud and 10 bits, where a character is 10 ms,
//! and starts of ticks at 9,600 baud and 11 bits, where it is 1,145,833 1/3 ns.

use line_stamps::*;
use std::process::Abort;
use std::test::Fail;

const RATES: [(&str, u32, u8); 4] = [
    ("9600x11", 9600, 11),
    ("300x10", 300, 10),
    ("115200x11", 115_200, 11),
    ("1000x10", 1000, 10),
];

const NO_RATES: [&str; 18] = [
    "",
    "x",
    "x11",
    "9600",
    "9600x",
    "9600x1",
    "9600x9",
    "9600x12",
    "9600x011",
    "9600X11",
    "09600x11",
    "+9600x11",
    "9600.0x11",
    " 9600x11",
    "9600x11 ",
    "299x11",
    "115201x11",
    "4294976896x11",
];

#[test]
fn words_of_rates(rt: HostRuntime) {
    for (word, baud, bits) in &RATES {
        let rate = Rate::read(word);
        assert_eq!(rt; rate.map(|rate| rate.baud), Some(*baud));
        assert_eq!(rt; rate.map(|rate| rate.bits), Some(*bits));
    }
    for word in &NO_RATES {
        assert_eq!(rt; Rate::read(word), None);
    }
}

// A byte of one way: the time stamp of its record in microseconds, whether it is the first byte of
// the record, and what the placer returns for it, which is the silent ticks before it or a refusal.
type Row = (u64, bool, Result<u64, Unplaced>);

const BY_TIME: [Row; 12] = [
    (0, true, Ok(0)),
    (0, false, Ok(0)),
    (20_000, true, Ok(0)),
    // silence of 1.5 characters, and of a microsecond more
    (45_000, true, Ok(1)),
    (70_001, true, Ok(2)),
    // silence of 3.5 characters, and of a microsecond less
    (115_001, true, Ok(4)),
    (160_000, true, Ok(3)),
    // half a character after a start, and a microsecond less
    (165_000, true, Ok(0)),
    (169_999, true, Err(Unplaced::Overlap)),
    // 320 silent ticks, with no drift taken up
    (3_384_998, true, Ok(320)),
    // 322 characters after tick 339, but the nearest tick is 660: a tick of drift is taken up
    (6_604_998, true, Ok(320)),
    (6_604_998, false, Ok(0)),
];

const BY_RECORD: [Row; 5] = [
    (0, true, Ok(0)),
    (0, false, Ok(0)),
    // a record that began before the previous one could have ended
    (8_000, true, Ok(4)),
    (8_000, false, Ok(0)),
    (98_000, true, Ok(7)),
];

fn timing(spacing: Spacing, origin: u64) -> Option<Timing> {
    let rate = Rate::read("1000x10")?;
    Some(Timing {
        rate,
        spacing,
        origin,
    })
}

// Places bytes with these time stamps, in microseconds, and compares the results.
fn check_rows(rt: &impl Abort, spacing: Spacing, rows: &[Row]) -> Result<Placer, Fail> {
    let timing = timing(spacing, 0).ok_or("no rate")?;
    let mut placer = Placer::new(timing);
    for (time, first, answer) in rows {
        assert!(rt; *time < 10_000_000);
        let byte = CaptureByte {
            way: Way::A,
            start: *time * 1000,
            first: *first,
            byte: 7,
        };
        assert_eq!(rt; placer.place(byte), *answer);
    }
    Ok(placer)
}

#[test]
fn bytes_are_placed_by_time(rt: HostRuntime) -> Result<(), Fail> {
    let placer = check_rows(&rt, Spacing::ByTime, &BY_TIME)?;
    assert_eq!(rt; placer.overlaps(), 1);
    assert_eq!(rt; placer.ticks(), 662);
    Ok(())
}

#[test]
fn records_are_placed_as_frames(rt: HostRuntime) -> Result<(), Fail> {
    let placer = check_rows(&rt, Spacing::ByRecord, &BY_RECORD)?;
    assert_eq!(rt; placer.overlaps(), 0);
    assert_eq!(rt; placer.ticks(), 16);
    Ok(())
}

#[test]
fn bytes_before_the_origin_and_at_the_end_of_times(rt: HostRuntime) -> Result<(), Fail> {
    let timing = timing(Spacing::ByTime, 1_000_000_000).ok_or("no rate")?;
    let mut placer = Placer::new(timing);
    let mut byte = CaptureByte {
        way: Way::B,
        start: 999_999_999,
        first: true,
        byte: 7,
    };
    assert_eq!(rt; placer.place(byte), Err(Unplaced::Early));
    // the first byte of the way, 3.5 characters after the origin: half a tick is rounded up
    byte.start = 1_035_000_000;
    byte.first = false;
    assert_eq!(rt; placer.place(byte), Ok(4));
    // 2^62 parts are 4,611,686,018,427,387.904 ns at 1,000 baud
    byte.start = 4_611_687_018_427_388;
    byte.first = true;
    assert_eq!(rt; placer.place(byte), Err(Unplaced::Late));
    byte.start = 1_045_000_000;
    assert_eq!(rt; placer.place(byte), Ok(0));
    Ok(())
}

#[test]
fn numbers_of_ticks(rt: HostRuntime) -> Result<(), Fail> {
    let rate = Rate::read("9600x11").ok_or("no rate")?;
    assert_eq!(rt; rate.character(), 11_000_000_000);
    assert_eq!(rt; nearest(14, 10), 1);
    assert_eq!(rt; nearest(15, 10), 2);
    assert_eq!(rt; ticks_between(25, 10), 2);
    assert_eq!(rt; ticks_between(35, 10), 4);
    assert_eq!(rt; ticks_between(0, 10), 1);
    for (unit, tick, start) in &[
        (1, 0, 0),
        (1, 1, 1_145_833),
        (1, 2, 2_291_667),
        (1, 3, 3_437_500),
        (1000, 1, 1_146_000),
        (1000, 2, 2_292_000),
        (1000, 3, 3_438_000),
        (1, 16_777_216, 19_223_893_333_333),
    ] {
        assert_eq!(rt; tick_start(rate, *unit, *tick), *start);
    }
    same_bytes_in_the_same_order();
    bytes_stand_in_their_ticks();
    silences_keep_their_edges();
    ticks_keep_to_the_times();
    records_are_parted();
    what_was_given_is_taken();
    Ok(())
}
