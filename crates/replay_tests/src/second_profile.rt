//! Tests of both boxes by y24, the profile with words of four bytes and tags of sixteen bytes by
//! HMAC-SHA-256.

use crate::outside::STEADY;
use crate::over_boxes::{
    AT_0, AT_1, AT_2, AT_LIMIT, BoxKind, FRESH, Held, KEY, NOTHING, Reading, Row, compare,
    compare_all, has_passed,
};
use crate::reading::has_read;
use command_ends::Status;
use device_model::RtuDevice;
use device_model::hunters::DnpDevice;
use link_format::Dir;
use std::test::Fail;

/// Slots that hold these numbers.
const AT_65535: Held = Held::Number(65_535);

const AT_65536: Held = Held::Number(65_536);

const AT_65538: Held = Held::Number(65_538);

/// A request with the trailer of number 1.
const PACKET: &[u8] = b"+01030000000ac5cd\n-3\n+0000000165d245ba109509aa6c32ac3cfa228fd6\n-47\n";

/// A row in which the request is sealed in direction `ab` with number 1. The tags in this file are
/// by openssl:
///   printf 010001030000000ac5cd0000000000000001 | xxd -r -p
///     | openssl dgst -sha256 -mac HMAC -macopt hexkey:000102030405060708090a0b0c0d0e0f
///     | cut -c1-32
const SEALED: Row = Row {
    dir: Dir::Ab,
    key: KEY,
    slots: FRESH,
    text: b"+01030000000ac5cd\n-40\n",
    failing: STEADY,
    status: Status::Done,
    exit_status: 0,
    out: PACKET,
    log: b"sealed 1 at 0 len 8\n",
    slots_now: (AT_0, AT_1),
};

const SEALS: [Row; 7] = [
    SEALED,
    Row {
        dir: Dir::Ba,
        out: b"+01030000000ac5cd\n-3\n+000000012c6bb201ec629b1b6dee35f68a88e1f3\n-47\n",
        ..SEALED
    },
    // The second frame starts one tick too soon.
    Row {
        text: b"+01030000000ac5cd\n-26\n+010300000001840a\n",
        out: b"+01030000000ac5cd\n-3\n+0000000165d245ba109509aa6c32ac3cfa228fd6\n-41\n",
        log: b"sealed 1 at 0 len 8\nunsealed at 34 early\n",
        ..SEALED
    },
    Row {
        text: b"+01030000000ac5cd\n-27\n+010300000001840a\n",
        out: b"+01030000000ac5cd\n-3\n+0000000165d245ba109509aa6c32ac3cfa228fd6\n-4\n\
            +010300000001840a\n-3\n+00000002e2eb9489571341cc1bc91db82735400c\n-7\n",
        log: b"sealed 1 at 0 len 8\nsealed 2 at 35 len 8\n",
        slots_now: (AT_2, AT_1),
        ..SEALED
    },
    // A number of more than two bytes.
    Row {
        slots: (AT_65535, NOTHING),
        out: b"+01030000000ac5cd\n-3\n+000100004950fac07f27212636e8defb8127898f\n-47\n",
        log: b"sealed 65536 at 0 len 8\n",
        slots_now: (AT_65535, AT_65536),
        ..SEALED
    },
    // The greatest number is already used.
    Row {
        slots: (AT_LIMIT, NOTHING),
        out: b"+01030000000ac5cd\n-70\n",
        log: b"unsealed at 0 spent\n",
        slots_now: (AT_LIMIT, NOTHING),
        ..SEALED
    },
    Row {
        text: b"",
        out: b"-30\n",
        log: b"",
        slots_now: FRESH,
        ..SEALED
    },
];

const DNP3_PACKET: &[u8] =
    b"+056405c001000004e921\n-3\n+00000001cd525d6a6c119047d45db5ba9f9e4290\n-47\n";

const SEALED_DNP3: Row = Row {
    text: b"+056405c001000004e921\n-40\n",
    out: DNP3_PACKET,
    log: b"sealed 1 at 0 len 10\n",
    ..SEALED
};

/// A row in which the packet passes.
const PASSED: Row = Row {
    text: PACKET,
    out: b"-24\n+01030000000ac5cd\n-366\n",
    log: b"passed 1 at 0 len 8\n",
    ..SEALED
};

/// A row in which nothing passes.
const REFUSED: Row = Row {
    out: b"-24\n+01030000000ac5cc\n-366\n",
    log: b"refused at 0 trailer\n",
    slots_now: FRESH,
    ..PASSED
};

// Links, and what the receiver sends and notes for them. The ticks and notes were computed from the
// rules of `docs/LINK.md`, over whole lines, by a program in another language.
const CHECKS: [Row; 9] = [
    PASSED,
    // The last byte of the tag is wrong.
    Row {
        text: b"+01030000000ac5cd\n-3\n+0000000165d245ba109509aa6c32ac3cfa228fd7\n-47\n",
        log: b"refused at 0 tag\n",
        ..REFUSED
    },
    // The last tick of the trailer is silent.
    Row {
        text: b"+01030000000ac5cd\n-3\n+0000000165d245ba109509aa6c32ac3cfa228f\n-48\n",
        ..REFUSED
    },
    // A trailer of the other profile is too short.
    Row {
        text: b"+01030000000ac5cd\n-3\n+0001014c5b8d33c6d29a347013b0\n-53\n",
        ..REFUSED
    },
    // The packet comes twice. The second time its word stands for a number that has another tag.
    Row {
        text: b"+01030000000ac5cd\n-3\n+0000000165d245ba109509aa6c32ac3cfa228fd6\n-4\n\
            +01030000000ac5cd\n-3\n+0000000165d245ba109509aa6c32ac3cfa228fd6\n-47\n",
        out: b"-24\n+01030000000ac5cd\n-27\n+01030000000ac5cc\n-366\n",
        log: b"passed 1 at 0 len 8\nrefused at 35 tag\n",
        ..PASSED
    },
    // So many packets were lost that a word of two bytes wouldn't tell the number.
    Row {
        text: b"+01030000000ac5cd\n-3\n+000100024eb47d60fe5ca0143bf0e199d071f864\n-47\n",
        log: b"passed 65538 at 0 len 8\n",
        slots_now: (AT_0, AT_65538),
        ..PASSED
    },
    // No number is left.
    Row {
        slots: (AT_LIMIT, NOTHING),
        log: b"refused at 0 number\n",
        slots_now: (AT_LIMIT, NOTHING),
        ..REFUSED
    },
    // The last byte of the first burst leaves in the tick in which the second one starts.
    Row {
        text: b"+01030000000ac5cd\n-23\n+010300000001840a\n-40\n",
        out: b"-24\n+01030000000ac5cc\n-367\n",
        log: b"refused at 0 trailer\ndropped at 31 busy\n",
        ..REFUSED
    },
    Row {
        text: b"+01030000000ac5cd\n-24\n+010300000001840a\n-40\n",
        out: b"-24\n+01030000000ac5cc\n-24\n+010300000001840b\n-336\n",
        log: b"refused at 0 trailer\nrefused at 32 trailer\n",
        ..REFUSED
    },
];

/// What a device behind the receiver reads, for each row of `CHECKS` in turn.
const READ: [&[u8]; 9] = [
    b"read at 24 01030000000ac5cd\n",
    b"",
    b"",
    b"",
    b"read at 24 01030000000ac5cd\n",
    b"read at 24 01030000000ac5cd\n",
    b"",
    b"",
    b"",
];

/// The header of a frame of 292 bytes, without its other bytes, and then a packet. In `TOO_SOON` it
/// starts as the last byte of the fill leaves, and in `SOON_ENOUGH` one tick later.
const TOO_SOON: &[u8] = b"+0564ffc4010000042727\n-305\n+056405c001000004e921\n-3\n\
        +00000001cd525d6a6c119047d45db5ba9f9e4290\n-47\n";

const SOON_ENOUGH: &[u8] = b"+0564ffc4010000042727\n-306\n+056405c001000004e921\n-3\n\
        +00000001cd525d6a6c119047d45db5ba9f9e4290\n-47\n";

// Links of DNP3, the notes on each, and what a device behind the receiver reads.
const DNP3_CHECKS: [Reading<'static>; 3] = [
    Reading {
        text: DNP3_PACKET,
        notes: b"passed 1 at 0 len 10\n",
        frames: b"read at 24 056405c001000004e921\n",
    },
    Reading {
        text: TOO_SOON,
        notes: b"refused at 0 trailer\ndropped at 315 busy\n",
        frames: b"",
    },
    Reading {
        text: SOON_ENOUGH,
        notes: b"refused at 0 trailer\npassed 1 at 316 len 10\n",
        frames: b"read at 340 056405c001000004e921\n",
    },
];

#[test]
fn seals_with_words_of_four_bytes(rt: HostRuntime) -> Result<(), Fail> {
    compare_all(&rt, rt.alloc(), BoxKind::SealRtu24, &SEALS)?;
    compare(&rt, rt.alloc(), BoxKind::SealDnp24, &SEALED_DNP3)
}

#[test]
fn checks_words_of_four_bytes(rt: HostRuntime) -> Result<(), Fail> {
    compare_all(&rt, rt.alloc(), BoxKind::CheckRtu24, &CHECKS)?;
    for (row, frames) in CHECKS.iter().zip(READ.iter()) {
        has_read::<RtuDevice>(&rt, rt.alloc(), row.out, frames)?;
    }
    Ok(())
}

#[test]
fn checks_words_of_four_bytes_behind_frames_of_dnp3(rt: HostRuntime) -> Result<(), Fail> {
    for row in &DNP3_CHECKS {
        has_passed::<DnpDevice>(&rt, rt.alloc(), BoxKind::CheckDnp24, row)?;
    }
    Ok(())
}
