//! Tests of the stated devices: which frames each of them reads of a line, and when.
ghost use Rattle.std.specs.Prelude.{◌<◌, length, IfOk};

use device_model::hunters::*;
use device_model::*;
use dnp_link_frame::Dnp;
use std::alloc::{AllocError, Global};
use std::process::Abort;
use std::test::Fail;
use yasir_ticks::Tick;

/// A part of a line.
#[derive(Clone, Copy)]
pub enum Part {
    /// These bytes, one in each tick.
    Bytes(&'static [u8]),
    /// How many silent ticks.
    Silence(usize),
}

use Part::{Bytes, Silence};

/// Adds these bytes to a line, one in each tick.
pub fn add_bytes(line: &mut Vec<Tick>, bytes: &[u8]) -> Result<(), AllocError> {
    for byte in bytes {
        line.push(Tick::Byte(*byte))?;
    }
    Ok(())
}

/// Adds this many silent ticks to a line.
pub fn add_silence(line: &mut Vec<Tick>, ticks: usize) -> Result<(), AllocError> {
    for _ in 0..ticks {
        line.push(Tick::Silent)?;
    }
    Ok(())
}

// Adds the ticks of a part to a line.
fn add_part(line: &mut Vec<Tick>, part: &Part) -> Result<(), AllocError> {
    match part {
        Bytes(bytes) => add_bytes(line, bytes),
        Silence(ticks) => add_silence(line, *ticks),
    }
}

/// Returns the ticks of these parts, in order.
pub fn line_of(alloc: Global, parts: &[Part]) -> Result<Vec<Tick>, AllocError> {
    let mut line = Vec::new(alloc);
    for part in parts {
        add_part(&mut line, part)?;
    }
    Ok(line)
}

/// Returns the ticks of these parts, in order. They must be fewer than 1000.
pub fn short_line(alloc: Global, parts: &[Part]) -> Result<Vec<Tick>, Fail>
    ensures { IfOk result (λ line. length line.items < 1000) }
{
    let line = line_of(alloc, parts)?;
    if line.len() >= 1000 {
        return Err("a long line".into());
    }
    Ok(line)
}

/// The frames that must be read of a line. For each it has the tick in which it is read, the tick
/// of its first byte, and its bytes.
pub type Want = &'static [(usize, u64, &'static [u8])];

/// Returns whether a frame is the one that must be read after the first `found` of them. It is read
/// in tick `at`, its first byte is that of tick `start`, and the device lends its bytes.
pub fn is_wanted(want: Want, found: usize, at: usize, start: u64, lent: &[u8]) -> bool {
    let Some((step, first, bytes)) = want.get(found) else {
        return false;
    };
    at == *step && start == *first && lent == *bytes
}

// Returns whether a device reads these frames of the line, and no others.
fn reads<D: Device + Drop>(line: &[Tick], want: Want) -> bool
    requires { length line.now < 1000 }
{
    let mut device = D::fresh();
    let mut found: usize = 0;
    for (at, tick) in line.iter().enumerate() {
        if let Some(start) = device.step(*tick) {
            if !is_wanted(want, found, at, start, device.frame_bytes()) {
                return false;
            }
            found = found.saturating_add(1);
        }
    }
    found == want.len()
}

// A line, and the frames that must be read of it.
struct Row {
    line: &'static [Part],
    read: Want,
}

// Checks that a device reads the frames of each row, and no others.
fn rows_are_read<D: Device + Drop>(
    rt: &impl Abort,
    alloc: Global,
    rows: &[Row],
) -> Result<(), Fail> {
    for row in rows {
        let line = short_line(alloc, row.line)?;
        assert!(rt; reads::<D>(line.as_slice(), row.read));
    }
    Ok(())
}

/// A query of Modbus RTU.
pub const QUERY: &[u8] = b"\x01\x03\x00\x00\x00\x0A\xC5\xCD";

/// A query of Modbus RTU with a wrong CRC.
pub const DAMAGED: &[u8] = b"\x01\x03\x00\x00\x00\x0A\xC5\xCC";

/// The shortest frame of Modbus RTU.
pub const LEAST: &[u8] = b"\x01\x03\x40\x21";

/// The longest frame of Modbus RTU: 254 zeros, and their CRC.
pub const LONGEST: &[u8] = b"\
    \0\0\0\0\0\0\0\0\0\0\0\0\0\0\0\0\0\0\0\0\0\0\0\0\0\0\0\0\0\0\0\0\0\0\0\0\0\0\0\0\0\0\0\0\0\
    \0\0\0\0\0\0\0\0\0\0\0\0\0\0\0\0\0\0\0\0\0\0\0\0\0\0\0\0\0\0\0\0\0\0\0\0\0\0\0\0\0\0\0\0\0\
    \0\0\0\0\0\0\0\0\0\0\0\0\0\0\0\0\0\0\0\0\0\0\0\0\0\0\0\0\0\0\0\0\0\0\0\0\0\0\0\0\0\0\0\0\0\
    \0\0\0\0\0\0\0\0\0\0\0\0\0\0\0\0\0\0\0\0\0\0\0\0\0\0\0\0\0\0\0\0\0\0\0\0\0\0\0\0\0\0\0\0\0\
    \0\0\0\0\0\0\0\0\0\0\0\0\0\0\0\0\0\0\0\0\0\0\0\0\0\0\0\0\0\0\0\0\0\0\0\0\0\0\0\0\0\0\0\0\0\
    \0\0\0\0\0\0\0\0\0\0\0\0\0\0\0\0\0\0\0\0\0\0\0\0\0\0\0\0\0\x55\x4E";

/// The reset of a link.
pub const RESET_LINK: &[u8] = b"\x05\x64\x05\xC0\x01\x00\x00\x04\xE9\x21";

/// The header of a frame with 292 bytes.
pub const LONGEST_HEADER: &[u8] = b"\x05\x64\xFF\xC4\x01\x00\x00\x04\x27\x27";

// A frame, one with a wrong CRC, and the shortest frame with one silent tick inside.
const EXCHANGE: [Row; 1] = [Row {
    line: &[
        Bytes(QUERY),
        Silence(4),
        Bytes(DAMAGED),
        Silence(4),
        Bytes(b"\x01\x03"),
        Silence(1),
        Bytes(b"\x40\x21"),
        Silence(4),
    ],
    read: &[(11, 0, QUERY), (32, 24, LEAST)],
}];

#[test]
fn exchange(rt: HostRuntime) -> Result<(), Fail> {
    rows_are_read::<RtuDevice>(&rt, rt.alloc(), &EXCHANGE)
}

const LONE_BURSTS: [Row; 4] = [
    // the longest frame, and one byte more with a right CRC
    Row {
        line: &[Bytes(LONGEST), Silence(4)],
        read: &[(259, 0, LONGEST)],
    },
    Row {
        line: &[Bytes(&[0; 255]), Bytes(b"\x8E\x3F"), Silence(4)],
        read: &[],
    },
    // two silent ticks inside, and three after the end
    Row {
        line: &[
            Bytes(b"\x01\x03"),
            Silence(2),
            Bytes(b"\x40\x21"),
            Silence(4),
        ],
        read: &[],
    },
    Row {
        line: &[Bytes(QUERY), Silence(3)],
        read: &[],
    },
];

#[test]
fn lone_bursts(rt: HostRuntime) -> Result<(), Fail> {
    rows_are_read::<RtuDevice>(&rt, rt.alloc(), &LONE_BURSTS)
}

const HUNTS: [Row; 3] = [
    // a byte 05 without a byte 64 after it, and silence inside a frame
    Row {
        line: &[
            Bytes(b"\xFF\x05\x05\x64\x05"),
            Silence(30),
            Bytes(b"\xC0\x01\x00\x00\x04\xE9\x21"),
        ],
        read: &[(41, 2, RESET_LINK)],
    },
    // a frame that was refused and filled, and one after it
    Row {
        line: &[
            Silence(18),
            Bytes(LONGEST_HEADER),
            Bytes(&[0; 282]),
            Silence(18),
            Bytes(RESET_LINK),
            Silence(4),
        ],
        read: &[(337, 328, RESET_LINK)],
    },
    // with one byte fewer the device waits for that byte
    Row {
        line: &[Bytes(LONGEST_HEADER), Bytes(&[0; 281]), Bytes(RESET_LINK)],
        read: &[],
    },
];

// Calls the laws.
fn laws_hold() {
    forwarded_frames_are_read();
    hunts_by_cases::<Dnp>();
    stated_devices_are_members();
}

#[test]
fn hunts(rt: HostRuntime) -> Result<(), Fail> {
    laws_hold();
    rows_are_read::<DnpDevice>(&rt, rt.alloc(), &HUNTS)
}
