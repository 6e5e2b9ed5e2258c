//! Texts that tshark and mbpoll's gateway wrote, and texts that are broken.

use capture_text::{BadText, MAX_BYTES, TextFault, TextReader, line_front};
use line_stamps::{CaptureByte, Way};
use std::alloc::Global;
use std::process::Abort;
use std::test::Fail;

/// What `tshark -T fields -e frame.time_epoch -e data.data` writes of a poll that was cut to three
/// bytes, and other lines.
const POLL: &[u8] = b"# a poll\r\n1690000000.114583333\t0103C5\r\n\n7 ff";

const POLL_BYTES: [CaptureByte; 4] = [
    CaptureByte {
        way: Way::A,
        start: 1_690_000_000_114_583_333,
        first: true,
        byte: 0x01,
    },
    CaptureByte {
        way: Way::A,
        start: 1_690_000_000_114_583_333,
        first: false,
        byte: 0x03,
    },
    CaptureByte {
        way: Way::A,
        start: 1_690_000_000_114_583_333,
        first: false,
        byte: 0xC5,
    },
    CaptureByte {
        way: Way::A,
        start: 7_000_000_000,
        first: true,
        byte: 0xFF,
    },
];

/// Reads a text, and adds its bytes to `bytes`. Returns how the text ends.
fn read(text: &[u8], bytes: &mut Vec<CaptureByte>) -> Result<Result<(), BadText>, Fail> {
    let mut reader = TextReader::new();
    for b in text {
        if reader.taken() >= MAX_BYTES {
            break;
        }
        match reader.feed(*b) {
            Ok(Some(byte)) => bytes.push(byte)?,
            Ok(None) => {}
            Err(bad) => return Ok(Err(bad)),
        }
    }
    Ok(reader.finish())
}

/// Checks that a text has these bytes, and ends like this.
fn check(
    rt: &impl Abort,
    alloc: Global,
    text: &[u8],
    all: &[CaptureByte],
    end: Result<(), BadText>,
) -> Result<(), Fail> {
    let mut bytes = Vec::new(alloc);
    assert_eq!(rt; read(text, &mut bytes)?, end);
    assert_eq!(rt; bytes.as_slice(), all);
    Ok(())
}

/// Returns the only byte of a record.
fn byte_of(start: u64, byte: u8) -> CaptureByte {
    CaptureByte {
        way: Way::A,
        start,
        first: true,
        byte,
    }
}

fn bad(offset: u64, line: u64, why: TextFault) -> Result<(), BadText> {
    Err(BadText { offset, line, why })
}

#[test]
fn right_texts(rt: HostRuntime) -> Result<(), Fail> {
    let alloc = rt.alloc();
    check(&rt, alloc, POLL, &POLL_BYTES, Ok(()))?;
    // digits from the tenth after the point on are ignored
    let fine = [byte_of(1, 0xAB)];
    check(&rt, alloc, b"0.0000000019999 ab\n", &fine, Ok(()))?;
    let last = [byte_of(u64::MAX, 0x00)];
    check(&rt, alloc, b"18446744073.709551615 00", &last, Ok(()))
}

#[test]
fn broken_texts(rt: HostRuntime) -> Result<(), Fail> {
    let alloc = rt.alloc();
    let first = [byte_of(1_000_000_000, 0x01)];
    check(&rt, alloc, b"-1 01", &[], bad(0, 1, TextFault::Char))?;
    check(
        &rt,
        alloc,
        b"1 01\n1. 01",
        &first,
        bad(7, 2, TextFault::Char),
    )?;
    check(&rt, alloc, b"1 01 02", &first, bad(4, 1, TextFault::Char))?;
    check(&rt, alloc, b"1 010\n", &first, bad(5, 1, TextFault::Odd))?;
    check(&rt, alloc, b"1 010", &first, bad(5, 1, TextFault::Odd))?;
    check(
        &rt,
        alloc,
        b"1 01\n2 \n",
        &first,
        bad(7, 2, TextFault::Empty),
    )?;
    check(
        &rt,
        alloc,
        b"18446744073.709551616",
        &[],
        bad(20, 1, TextFault::Late),
    )
}

#[test]
fn a_written_line(rt: HostRuntime) -> Result<(), Fail> {
    let front = line_front(1_690_000_000_000_000_007);
    assert_eq!(rt; front.as_slice(), b"1690000000.000000007 ".as_slice());
    Ok(())
}
