//! Tests of the families of devices: which frames each member reads of a line.
ghost use Rattle.std.specs.Prelude.{◌≡◌, ◌<◌, length};
ghost use Rattle.device_model.specs.RtuFamily.{ticks_heard};
ghost use Rattle.device_model.specs.HuntFamily.{family_ticks};

use crate::devices::Part::{Bytes, Silence};
use crate::devices::{
    DAMAGED, LEAST, LONGEST, LONGEST_HEADER, Part, QUERY, RESET_LINK, Want, is_wanted, short_line,
};
use device_model::hunters::*;
use device_model::*;
use std::alloc::Global;
use std::process::Abort;
use std::test::Fail;
use yasir_ticks::Tick;

// Returns whether a Modbus RTU device reads these frames of the line, and no others.
fn rtu_reads(mut device: RtuFamily, line: &[Tick], want: Want) -> bool
    requires new { ticks_heard device ≡ 0 }
    requires short { length line.now < 1000 }
{
    let mut found: usize = 0;
    for (at, tick) in line.iter().enumerate() {
        if let Some(start) = device.step(*tick) {
            if !is_wanted(want, found, at, start, device.frame_bytes()) {
                return false;
            }
            found = found.saturating_add(1);
        }
    }
    found == want.len()
}

// Returns whether a DNP3 device reads these frames of the line, and no others.
fn dnp_reads(mut device: DnpFamily, line: &[Tick], want: Want) -> bool
    requires new { family_ticks device ≡ 0 }
    requires short { length line.now < 1000 }
{
    let mut found: usize = 0;
    for (at, tick) in line.iter().enumerate() {
        if let Some(start) = device.step(*tick) {
            if !is_wanted(want, found, at, start, device.frame_bytes()) {
                return false;
            }
            found = found.saturating_add(1);
        }
    }
    found == want.len()
}

// A Modbus RTU device by its cut and its gap, and what it must read.
struct Rtu(u8, u8, Want);

// A line, and what each of these members must read of it.
struct RtuRow {
    line: &'static [Part],
    members: &'static [Rtu],
}

// Returns the first of the members that reads something else of the line, or `None` if there is
// none.
fn rtu_miss(alloc: Global, row: &RtuRow) -> Result<Option<(u8, u8)>, Fail> {
    let line = short_line(alloc, row.line)?;
    for Rtu(cut, gap, want) in row.members {
        if *cut < 2 || *cut > 18 || *gap < 1 || *gap >= *cut {
            return Err("no member".into());
        }
        if !rtu_reads(RtuFamily::new(*cut, *gap), line.as_slice(), want) {
            return Ok(Some((*cut, *gap)));
        }
    }
    Ok(None)
}

// Checks that the members read of each line what they must.
fn rtu_members_read(rt: &impl Abort, alloc: Global, rows: &[RtuRow]) -> Result<(), Fail> {
    for row in rows {
        assert_eq!(rt; rtu_miss(alloc, row)?, None);
    }
    Ok(())
}

// A DNP3 device by its cut, and what it must read.
struct Dnp3(u8, Want);

// A line, and what each of these members must read of it.
struct DnpRow {
    line: &'static [Part],
    members: &'static [Dnp3],
}

// Returns the first of the members that reads something else of the line, or `None` if there is
// none.
fn dnp_miss(alloc: Global, row: &DnpRow) -> Result<Option<u8>, Fail> {
    let line = short_line(alloc, row.line)?;
    for Dnp3(cut, want) in row.members {
        if *cut == 1 {
            return Err("no member".into());
        }
        if !dnp_reads(DnpFamily::new(*cut), line.as_slice(), want) {
            return Ok(Some(*cut));
        }
    }
    Ok(None)
}

// Checks that the members read of each line what they must.
fn dnp_members_read(rt: &impl Abort, alloc: Global, rows: &[DnpRow]) -> Result<(), Fail> {
    for row in rows {
        assert_eq!(rt; dnp_miss(alloc, row)?, None);
    }
    Ok(())
}

// A frame that passed, and one that was refused.
const BEHIND_A_RECEIVER: [RtuRow; 2] = [
    RtuRow {
        line: &[Silence(18), Bytes(QUERY), Silence(366)],
        members: &[
            Rtu(2, 1, &[(27, 18, QUERY)]),
            Rtu(4, 1, &[(29, 18, QUERY)]),
            Rtu(18, 1, &[(43, 18, QUERY)]),
            Rtu(18, 17, &[(43, 18, QUERY)]),
        ],
    },
    RtuRow {
        line: &[Silence(18), Bytes(DAMAGED), Silence(366)],
        members: &[
            Rtu(2, 1, &[]),
            Rtu(4, 1, &[]),
            Rtu(18, 1, &[]),
            Rtu(18, 17, &[]),
        ],
    },
];

#[test]
fn rtu_members_behind_a_receiver(rt: HostRuntime) -> Result<(), Fail> {
    rtu_members_read(&rt, rt.alloc(), &BEHIND_A_RECEIVER)
}

// A frame, one with a wrong CRC, and the shortest frame with one silent tick inside.
const EXCHANGE: [RtuRow; 1] = [RtuRow {
    line: &[
        Bytes(QUERY),
        Silence(4),
        Bytes(DAMAGED),
        Silence(4),
        Bytes(b"\x01\x03"),
        Silence(1),
        Bytes(b"\x40\x21"),
        Silence(18),
    ],
    members: &[
        Rtu(2, 1, &[(9, 0, QUERY), (30, 24, LEAST)]),
        Rtu(4, 1, &[(11, 0, QUERY), (32, 24, LEAST)]),
        Rtu(4, 3, &[(11, 0, QUERY), (32, 24, LEAST)]),
        Rtu(5, 4, &[]),
        Rtu(18, 1, &[]),
        Rtu(18, 17, &[]),
    ],
}];

#[test]
fn rtu_members_in_an_exchange(rt: HostRuntime) -> Result<(), Fail> {
    rtu_members_read(&rt, rt.alloc(), &EXCHANGE)
}

// The query with 1, 2 and 17 silent ticks after its third byte.
const GAPS: [RtuRow; 3] = [
    RtuRow {
        line: &[
            Bytes(b"\x01\x03\x00"),
            Silence(1),
            Bytes(b"\x00\x00\x0A\xC5\xCD"),
            Silence(18),
        ],
        members: &[Rtu(2, 1, &[(10, 0, QUERY)]), Rtu(18, 1, &[(26, 0, QUERY)])],
    },
    RtuRow {
        line: &[
            Bytes(b"\x01\x03\x00"),
            Silence(2),
            Bytes(b"\x00\x00\x0A\xC5\xCD"),
            Silence(18),
        ],
        members: &[
            Rtu(2, 1, &[]),
            Rtu(3, 2, &[(12, 0, QUERY)]),
            Rtu(18, 1, &[]),
        ],
    },
    RtuRow {
        line: &[
            Bytes(b"\x01\x03\x00"),
            Silence(17),
            Bytes(b"\x00\x00\x0A\xC5\xCD"),
            Silence(18),
        ],
        members: &[Rtu(18, 16, &[]), Rtu(18, 17, &[(42, 0, QUERY)])],
    },
];

#[test]
fn rtu_members_at_their_gap(rt: HostRuntime) -> Result<(), Fail> {
    rtu_members_read(&rt, rt.alloc(), &GAPS)
}

// A byte of noise, and then either too little silence before the query to end a burst, or enough.
const NOISE: [RtuRow; 2] = [
    RtuRow {
        line: &[Bytes(b"\x00"), Silence(17), Bytes(QUERY), Silence(18)],
        members: &[
            Rtu(2, 1, &[(27, 18, QUERY)]),
            Rtu(17, 16, &[(42, 18, QUERY)]),
            Rtu(18, 1, &[]),
            Rtu(18, 17, &[]),
        ],
    },
    RtuRow {
        line: &[Bytes(b"\x00"), Silence(18), Bytes(QUERY), Silence(18)],
        members: &[
            Rtu(18, 1, &[(44, 19, QUERY)]),
            Rtu(18, 17, &[(44, 19, QUERY)]),
        ],
    },
];

#[test]
fn rtu_members_behind_noise(rt: HostRuntime) -> Result<(), Fail> {
    rtu_members_read(&rt, rt.alloc(), &NOISE)
}

// The longest frame, and one byte more with a right CRC.
const LONG_BURSTS: [RtuRow; 2] = [
    RtuRow {
        line: &[Bytes(LONGEST), Silence(18)],
        members: &[Rtu(18, 17, &[(273, 0, LONGEST)])],
    },
    RtuRow {
        line: &[Bytes(&[0; 255]), Bytes(b"\x8E\x3F"), Silence(18)],
        members: &[Rtu(2, 1, &[]), Rtu(18, 17, &[])],
    },
];

#[test]
fn longest_frame_for_a_member(rt: HostRuntime) -> Result<(), Fail> {
    rtu_members_read(&rt, rt.alloc(), &LONG_BURSTS)
}

const FILLED: [DnpRow; 1] = [DnpRow {
    line: &[
        Silence(18),
        Bytes(LONGEST_HEADER),
        Bytes(&[0; 282]),
        Silence(18),
        Bytes(RESET_LINK),
        Silence(319),
    ],
    members: &[
        Dnp3(0, &[(337, 328, RESET_LINK)]),
        Dnp3(2, &[(337, 328, RESET_LINK)]),
    ],
}];

// The line behind a receiver: a frame that was refused and filled, and one that passed.
#[test]
fn dnp_members_behind_a_fill(rt: HostRuntime) -> Result<(), Fail> {
    dnp_members_read(&rt, rt.alloc(), &FILLED)
}

const BROKEN_FRAMES: [DnpRow; 3] = [
    // silence inside a frame
    DnpRow {
        line: &[
            Bytes(b"\xFF\x05\x05\x64\x05"),
            Silence(30),
            Bytes(b"\xC0\x01\x00\x00\x04\xE9\x21"),
        ],
        members: &[
            Dnp3(0, &[(41, 2, RESET_LINK)]),
            Dnp3(2, &[]),
            Dnp3(30, &[]),
            Dnp3(31, &[(41, 2, RESET_LINK)]),
        ],
    },
    // a frame that is broken off, and another one after it
    DnpRow {
        line: &[Bytes(LONGEST_HEADER), Silence(2), Bytes(RESET_LINK)],
        members: &[Dnp3(0, &[]), Dnp3(2, &[(21, 12, RESET_LINK)]), Dnp3(3, &[])],
    },
    // a frame that begins inside bytes that are taken for a header
    DnpRow {
        line: &[Bytes(b"\x05\x64\x05"), Bytes(RESET_LINK)],
        members: &[Dnp3(0, &[]), Dnp3(2, &[])],
    },
];

#[test]
fn dnp_members(rt: HostRuntime) -> Result<(), Fail> {
    dnp_members_read(&rt, rt.alloc(), &BROKEN_FRAMES)
}
