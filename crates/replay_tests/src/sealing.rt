//! Tests of the transmitter over lines of Modbus RTU, with faults outside.
use crate::outside::{Failing, STEADY};
use crate::over_boxes::{
    AT_0, AT_1, AT_2, AT_3, AT_LIMIT, BoxKind, FRESH, Held, KEY, NO_NUMBER, NOTHING, Ran, Row,
    compare_all, fail_each_call, holds, line_given, replay,
};
use crate::texts::repeated;
use command_ends::Status;
use link_format::Dir;
use std::alloc::{AllocError, Global};
use std::process::Abort;
use std::test::Fail;
use yasir_io::MemSink;
use yasir_ticks::{BadTicks, TickFault};

/// Slots that hold these numbers.
const AT_5: Held = Held::Number(5);

const AT_6: Held = Held::Number(6);

const SEALED_WHOLE: &[u8] = b"+01030000000ac5cd\n-3\n+0001014c5b8d33c6d29a347013b0\n-47\n";

/// A row in which a request, with silence after it, is sealed in direction `ab` with number 1.
const WHOLE: Row = Row {
    dir: Dir::Ab,
    key: KEY,
    slots: FRESH,
    text: b"+01030000000ac5cd\n-40\n",
    failing: STEADY,
    status: Status::Done,
    exit_status: 0,
    out: SEALED_WHOLE,
    log: b"sealed 1 at 0 len 8\n",
    slots_now: (AT_0, AT_1),
};

// Each tag is HMAC-SHA-1 by openssl, under the key 00 01 .. 0f, of the protocol's byte 01, the
// direction's byte (00 for ab, 01 for ba), the frame and the number as eight bytes, cut to 24
// digits. For number 1 of 01030000000ac5cd:
//   printf 010001030000000ac5cd0000000000000001 | xxd -r -p
//     | openssl dgst -sha1 -mac HMAC -macopt hexkey:000102030405060708090a0b0c0d0e0f | cut -c1-24
const SEALED: [Row; 10] = [
    WHOLE,
    Row {
        dir: Dir::Ba,
        out: b"+01030000000ac5cd\n-3\n+0001150da56830aa1fa9417becc1\n-47\n",
        ..WHOLE
    },
    // The second frame starts one tick too soon.
    Row {
        text: b"+01030000000ac5cd\n-20\n+010300000001840a\n",
        out: b"+01030000000ac5cd\n-3\n+0001014c5b8d33c6d29a347013b0\n-35\n",
        log: b"sealed 1 at 0 len 8\nunsealed at 28 early\n",
        ..WHOLE
    },
    Row {
        text: b"+01030000000ac5cd\n-21\n+010300000001840a\n",
        out: b"+01030000000ac5cd\n-3\n+0001014c5b8d33c6d29a347013b0\n-4\n+010300000001840a\n-3\n\
            +0002ee5b1d1d6fc159af2411aeb5\n-7\n",
        log: b"sealed 1 at 0 len 8\nsealed 2 at 29 len 8\n",
        slots_now: (AT_2, AT_1),
        ..WHOLE
    },
    // Single silent ticks inside a frame.
    Row {
        text: b"+01\n-1\n+03\n-1\n+00\n-1\n+00\n-1\n+00\n-1\n+0a\n-1\n+c5\n-1\n+cd\n",
        out: b"+01\n-1\n+03\n-1\n+00\n-1\n+00\n-1\n+00\n-1\n+0a\n-1\n+c5\n-1\n+cd\n-3\n\
            +0001014c5b8d33c6d29a347013b0\n-7\n",
        ..WHOLE
    },
    // A pause of two ticks inside a frame: what comes after it isn't live.
    Row {
        text: b"+010300\n-2\n+00000ac5cd\n",
        out: b"+010300\n-31\n",
        log: b"unsealed at 0 form\n",
        slots_now: FRESH,
        ..WHOLE
    },
    // A byte after a frame, before four silent ticks have closed it.
    Row {
        text: b"+01030000000ac5cd\n-3\n+00\n",
        out: b"+01030000000ac5cd\n-28\n",
        log: b"unsealed at 0 form\n",
        slots_now: FRESH,
        ..WHOLE
    },
    // The greatest number is already used.
    Row {
        slots: (AT_LIMIT, NOTHING),
        out: b"+01030000000ac5cd\n-64\n",
        log: b"unsealed at 0 spent\n",
        slots_now: (AT_LIMIT, NOTHING),
        ..WHOLE
    },
    // A slot that holds no number doesn't count for the floor.
    Row {
        slots: (AT_5, NO_NUMBER),
        out: b"+01030000000ac5cd\n-3\n+0006bffa8bcd3f6ad232de11820a\n-47\n",
        log: b"sealed 6 at 0 len 8\n",
        slots_now: (AT_5, AT_6),
        ..WHOLE
    },
    Row {
        text: b"",
        out: b"-24\n",
        log: b"",
        slots_now: FRESH,
        ..WHOLE
    },
];

#[test]
fn seals_the_frames_of_a_line(rt: HostRuntime) -> Result<(), Fail> {
    compare_all(&rt, rt.alloc(), BoxKind::SealRtu, &SEALED)
}

// 254 bytes 00 and their CRC, followed by `behind`.
fn longest_frame(alloc: Global, behind: &[u8]) -> Result<Vec<u8>, AllocError> {
    let zeros = b"+0000000000000000000000000000000000000000000000000000000000000000\n";
    let mut text = repeated(alloc, zeros, 7)?;
    text.extend_from_slice(b"+000000000000000000000000000000000000000000000000000000000000554e\n")?;
    text.extend_from_slice(behind)?;
    Ok(text)
}

// Seals the longest frame.
fn seal_longest(alloc: Global) -> Result<Ran, Fail> {
    let text = longest_frame(alloc, b"")?;
    let given = line_given(text.as_slice(), &STEADY);
    replay(alloc, BoxKind::SealRtu, &given, FRESH)
}

// Checks that a sink holds the longest frame and its trailer.
fn holds_longest(rt: &impl Abort, alloc: Global, out: &MemSink) -> Result<(), AllocError> {
    let text = longest_frame(alloc, b"-3\n+000101c84727bb115a36d1402d21\n-7\n")?;
    holds(rt, out, text.as_slice());
    Ok(())
}

#[test]
fn seals_the_longest_frame(rt: HostRuntime) -> Result<(), Fail> {
    let ran = seal_longest(rt.alloc())?;
    assert!(rt; ran.status == Status::Done);
    holds_longest(&rt, rt.alloc(), &ran.out)?;
    holds(&rt, &ran.log, b"sealed 1 at 0 len 256\n");
    Ok(())
}

const THREE_FRAMES: Row = Row {
    text: b"+01030000000ac5cd\n-21\n+010300000001840a\n-21\n+1103006b00037687\n",
    out: b"+01030000000ac5cd\n-3\n+0001014c5b8d33c6d29a347013b0\n-4\n+010300000001840a\n-3\n\
        +0002ee5b1d1d6fc159af2411aeb5\n-4\n+1103006b00037687\n-3\n+00037f89dbbfa5b4b19474035c96\n\
        -7\n",
    log: b"sealed 1 at 0 len 8\nsealed 2 at 29 len 8\nsealed 3 at 58 len 8\n",
    slots_now: (AT_2, AT_3),
    ..WHOLE
};

#[test]
fn a_failed_call_of_the_disk_loses_no_number(rt: HostRuntime) -> Result<(), Fail> {
    fail_each_call(&rt, rt.alloc(), BoxKind::SealRtu, &THREE_FRAMES)
}

/// A row in which nothing is written but the fault line.
const REFUSED: Row = Row {
    status: Status::ReadFault,
    exit_status: 5,
    out: b"",
    log: b"fault: read\n",
    slots_now: FRESH,
    ..WHOLE
};

/// A row in which the request is sealed, and then something fails. The silence after a whole input
/// doesn't come.
const CUT_SHORT: Row = Row {
    status: Status::ReadFault,
    exit_status: 5,
    out: b"+01030000000ac5cd\n-3\n+0001014c5b8d33c6d29a347013b0\n-23\n",
    log: b"sealed 1 at 0 len 8\nfault: read\n",
    ..WHOLE
};

const WRITE_FAULT: Row = Row {
    status: Status::WriteFault,
    exit_status: 6,
    out: b"",
    log: b"sealed 1 at 0 len 8\n",
    ..WHOLE
};

const NOT_DONE: [Row; 9] = [
    Row {
        failing: Failing { key: 1, ..STEADY },
        ..REFUSED
    },
    Row {
        key: b"000102030405060708090a0b0c0d0e",
        status: Status::BadKey { place: 30 },
        exit_status: 3,
        log: b"fault: key at 30\n",
        ..REFUSED
    },
    Row {
        key: b"000102030405060708090a0b0c0d0e0f ",
        status: Status::BadKey { place: 32 },
        exit_status: 3,
        log: b"fault: key at 32\n",
        ..REFUSED
    },
    Row {
        slots: (NO_NUMBER, NO_NUMBER),
        status: Status::BadJournal {
            a: [0x11; 24],
            b: [0x11; 24],
        },
        exit_status: 8,
        log: b"fault: bad journal 111111111111111111111111111111111111111111111111 11111111111111\
            1111111111111111111111111111111111\n",
        slots_now: (NO_NUMBER, NO_NUMBER),
        ..REFUSED
    },
    Row {
        text: b"+01030000000ac5cd\n-40\nx",
        status: Status::BadTicks(BadTicks {
            line: 3,
            why: TickFault::Char,
        }),
        exit_status: 4,
        log: b"sealed 1 at 0 len 8\nfault: line 3 char\n",
        ..CUT_SHORT
    },
    // The first read gives the whole text, and the next one fails.
    Row {
        failing: Failing { input: 2, ..STEADY },
        ..CUT_SHORT
    },
    // The notes are written before the ticks.
    Row {
        failing: Failing { log: 1, ..STEADY },
        log: b"",
        ..WRITE_FAULT
    },
    Row {
        failing: Failing { out: 1, ..STEADY },
        ..WRITE_FAULT
    },
    // The flush of the output fails.
    Row {
        failing: Failing { out: 2, ..STEADY },
        out: SEALED_WHOLE,
        ..WRITE_FAULT
    },
];

#[test]
fn answers_why_a_line_is_not_sealed_whole(rt: HostRuntime) -> Result<(), Fail> {
    compare_all(&rt, rt.alloc(), BoxKind::SealRtu, &NOT_DONE)
}
