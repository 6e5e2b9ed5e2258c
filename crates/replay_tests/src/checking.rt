//! Tests of the receiver over links of Modbus RTU, with an attacker and with faults outside.
use crate::outside::{Failing, STEADY};
use crate::over_boxes::{
    AT_0, AT_1, AT_2, AT_3, AT_LIMIT, BoxKind, FRESH, Held, KEY, NO_NUMBER, NOTHING, Row,
    compare_all, fail_each_call,
};
use command_ends::Status;
use link_format::Dir;
use std::test::Fail;
use yasir_ticks::{BadTicks, TickFault};

/// Slots that hold these numbers.
const AT_65536: Held = Held::Number(65_536);

const AT_BEFORE_LIMIT: Held = Held::Number(281_474_976_710_654);

/// The packet of number 1, which the transmitter makes of a request. The next two lines are what
/// the receiver sends for it if it passes, and if it is refused.
const PACKET: &[u8] = b"+01030000000ac5cd\n-3\n+0001014c5b8d33c6d29a347013b0\n-47\n";

const PASSED_LINE: &[u8] = b"-18\n+01030000000ac5cd\n-366\n";

const REFUSED_LINE: &[u8] = b"-18\n+01030000000ac5cc\n-366\n";

/// A row in which the packet passes.
const WHOLE: Row = Row {
    dir: Dir::Ab,
    key: KEY,
    slots: FRESH,
    text: PACKET,
    failing: STEADY,
    status: Status::Done,
    exit_status: 0,
    out: PASSED_LINE,
    log: b"passed 1 at 0 len 8\n",
    slots_now: (AT_0, AT_1),
};

/// A row in which nothing passes.
const REFUSED: Row = Row {
    out: REFUSED_LINE,
    log: b"refused at 0 tag\n",
    slots_now: FRESH,
    ..WHOLE
};

// The ticks and notes in these rows were computed from the rules of `docs/LINK.md`, over whole
// lines, by a program in another language. Each tag is by openssl, as in the tests of the
// transmitter.
const CHECKED: [Row; 9] = [
    WHOLE,
    // The last byte of the tag is wrong, so the last byte of the frame leaves spoiled.
    Row {
        text: b"+01030000000ac5cd\n-3\n+0001014c5b8d33c6d29a347013b1\n-47\n",
        ..REFUSED
    },
    // A wrong ending isn't spoiled, since that might make it right.
    Row {
        text: b"+01030000000ac5cc\n-4\n",
        out: b"-18\n+01030000000ac5cc\n-306\n",
        log: b"refused at 0 trailer\n",
        ..REFUSED
    },
    // Three bytes with a right ending are no frame, and leave spoiled.
    Row {
        text: b"+017e80\n-4\n",
        out: b"-18\n+017e81\n-306\n",
        log: b"refused at 0 trailer\n",
        ..REFUSED
    },
    // The packet comes twice. The second time its word stands for 65,537.
    Row {
        text: b"+01030000000ac5cd\n-3\n+0001014c5b8d33c6d29a347013b0\n-47\n+01030000000ac5cd\n\
            -3\n+0001014c5b8d33c6d29a347013b0\n-47\n",
        out: b"-18\n+01030000000ac5cd\n-64\n+01030000000ac5cc\n-366\n",
        log: b"passed 1 at 0 len 8\nrefused at 72 tag\n",
        ..WHOLE
    },
    // A byte directly after the trailer is swallowed.
    Row {
        text: b"+01030000000ac5cd\n-3\n+0001014c5b8d33c6d29a347013b000\n-46\n",
        ..WHOLE
    },
    // 257 bytes without a right ending. The last one isn't live, and the one before it leaves as it
    // came.
    Row {
        text: b"+0000000000000000000000000000000000000000000000000000000000000000\n\
            +0000000000000000000000000000000000000000000000000000000000000000\n\
            +0000000000000000000000000000000000000000000000000000000000000000\n\
            +0000000000000000000000000000000000000000000000000000000000000000\n\
            +0000000000000000000000000000000000000000000000000000000000000000\n\
            +0000000000000000000000000000000000000000000000000000000000000000\n\
            +0000000000000000000000000000000000000000000000000000000000000000\n\
            +0000000000000000000000000000000000000000000000000000000000000000\n+00\n-4\n",
        out: b"-18\n+0000000000000000000000000000000000000000000000000000000000000000\n\
            +0000000000000000000000000000000000000000000000000000000000000000\n\
            +0000000000000000000000000000000000000000000000000000000000000000\n\
            +0000000000000000000000000000000000000000000000000000000000000000\n\
            +0000000000000000000000000000000000000000000000000000000000000000\n\
            +0000000000000000000000000000000000000000000000000000000000000000\n\
            +0000000000000000000000000000000000000000000000000000000000000000\n\
            +0000000000000000000000000000000000000000000000000000000000000000\n-307\n",
        log: b"refused at 0 trailer\n",
        ..REFUSED
    },
    // The longest frame: 254 bytes 00 and their CRC.
    Row {
        text: b"+0000000000000000000000000000000000000000000000000000000000000000\n\
            +0000000000000000000000000000000000000000000000000000000000000000\n\
            +0000000000000000000000000000000000000000000000000000000000000000\n\
            +0000000000000000000000000000000000000000000000000000000000000000\n\
            +0000000000000000000000000000000000000000000000000000000000000000\n\
            +0000000000000000000000000000000000000000000000000000000000000000\n\
            +0000000000000000000000000000000000000000000000000000000000000000\n\
            +000000000000000000000000000000000000000000000000000000000000554e\n-3\n\
            +000101c84727bb115a36d1402d21\n-47\n",
        out: b"-18\n+0000000000000000000000000000000000000000000000000000000000000000\n\
            +0000000000000000000000000000000000000000000000000000000000000000\n\
            +0000000000000000000000000000000000000000000000000000000000000000\n\
            +0000000000000000000000000000000000000000000000000000000000000000\n\
            +0000000000000000000000000000000000000000000000000000000000000000\n\
            +0000000000000000000000000000000000000000000000000000000000000000\n\
            +0000000000000000000000000000000000000000000000000000000000000000\n\
            +000000000000000000000000000000000000000000000000000000000000554e\n-366\n",
        log: b"passed 1 at 0 len 256\n",
        ..WHOLE
    },
    // Single silent ticks inside a frame.
    Row {
        text: b"+01\n-1\n+03\n-1\n+00\n-1\n+00\n-1\n+00\n-1\n+0a\n-1\n+c5\n-1\n+cd\n-3\n\
            +0001014c5b8d33c6d29a347013b0\n-40\n",
        out: b"-18\n+01\n-1\n+03\n-1\n+00\n-1\n+00\n-1\n+00\n-1\n+0a\n-1\n+c5\n-1\n+cd\n-359\n",
        ..WHOLE
    },
];

/// What is refused because of the key, the direction or the number, and other edge cases.
const EDGES: [Row; 8] = [
    // A pause of two ticks inside a frame: what comes after it isn't live.
    Row {
        text: b"+010300\n-2\n+00000ac5cd\n-3\n+0001014c5b8d33c6d29a347013b0\n-40\n",
        out: b"-18\n+010300\n-366\n",
        log: b"refused at 0 trailer\n",
        ..REFUSED
    },
    // The packet comes from the other direction, or is checked with another key.
    Row {
        text: b"+01030000000ac5cd\n-3\n+0001150da56830aa1fa9417becc1\n-47\n",
        ..REFUSED
    },
    Row {
        key: b"000102030405060708090a0b0c0d0e0e",
        ..REFUSED
    },
    // A burst that starts while bytes of the one before are still leaving.
    Row {
        text: b"+01030000000ac5cc\n-4\n+010300000001840a\n-40\n+01030000000ac5cd\n-3\n\
            +0001014c5b8d33c6d29a347013b0\n-40\n",
        out: b"-18\n+01030000000ac5cc\n-52\n+01030000000ac5cd\n-359\n",
        log: b"refused at 0 trailer\ndropped at 12 busy\npassed 1 at 60 len 8\n",
        ..WHOLE
    },
    // 65,535 packets were lost: the number is the least one above the floor with the word 0000.
    Row {
        text: b"+01030000000ac5cd\n-3\n+000031c815494ddb8e3fc69792d9\n-47\n",
        log: b"passed 65536 at 0 len 8\n",
        slots_now: (AT_0, AT_65536),
        ..WHOLE
    },
    // The greatest number, after which there is none.
    Row {
        slots: (AT_BEFORE_LIMIT, NOTHING),
        text: b"+01030000000ac5cd\n-3\n+ffff710643be303e9adae9527b89\n-47\n",
        log: b"passed 281474976710655 at 0 len 8\n",
        slots_now: (AT_BEFORE_LIMIT, AT_LIMIT),
        ..WHOLE
    },
    Row {
        slots: (AT_LIMIT, NOTHING),
        log: b"refused at 0 number\n",
        slots_now: (AT_LIMIT, NOTHING),
        ..REFUSED
    },
    Row {
        text: b"",
        out: b"-320\n",
        log: b"",
        ..REFUSED
    },
];

#[test]
fn checks_the_packets_of_a_link(rt: HostRuntime) -> Result<(), Fail> {
    compare_all(&rt, rt.alloc(), BoxKind::CheckRtu, &CHECKED)
}

#[test]
fn checks_links_at_the_edges(rt: HostRuntime) -> Result<(), Fail> {
    compare_all(&rt, rt.alloc(), BoxKind::CheckRtu, &EDGES)
}

/// A row with three requests on a link, as they were sealed.
const EXCHANGE: Row = Row {
    text: b"+01030000000ac5cd\n-3\n+0001014c5b8d33c6d29a347013b0\n-40\n+010300000001840a\n-3\n\
        +0002ee5b1d1d6fc159af2411aeb5\n-40\n+1103006b00037687\n-3\n\
        +00037f89dbbfa5b4b19474035c96\n-40\n",
    out: b"-18\n+01030000000ac5cd\n-57\n+010300000001840a\n-57\n+1103006b00037687\n-359\n",
    log: b"passed 1 at 0 len 8\npassed 2 at 65 len 8\npassed 3 at 130 len 8\n",
    slots_now: (AT_2, AT_3),
    ..WHOLE
};

/// The recorded link as it was, and altered by hand in seven ways.
const ALTERED: [Row; 8] = [
    EXCHANGE,
    // 0b in place of 0a in the first request, so that it asks for one more register.
    Row {
        text: b"+01030000000bc5cd\n-3\n+0001014c5b8d33c6d29a347013b0\n-40\n+010300000001840a\n\
            -3\n+0002ee5b1d1d6fc159af2411aeb5\n-40\n+1103006b00037687\n-3\n\
            +00037f89dbbfa5b4b19474035c96\n-40\n",
        out: b"-18\n+01030000000bc5cd\n-57\n+010300000001840a\n-57\n+1103006b00037687\n-359\n",
        log: b"refused at 0 form\npassed 2 at 65 len 8\npassed 3 at 130 len 8\n",
        slots_now: (AT_3, AT_2),
        ..EXCHANGE
    },
    // A changed frame with the right CRC.
    Row {
        text: b"+01030000000b040d\n-3\n+0001014c5b8d33c6d29a347013b0\n-40\n+010300000001840a\n\
            -3\n+0002ee5b1d1d6fc159af2411aeb5\n-40\n+1103006b00037687\n-3\n\
            +00037f89dbbfa5b4b19474035c96\n-40\n",
        out: b"-18\n+01030000000b040c\n-57\n+010300000001840a\n-57\n+1103006b00037687\n-359\n",
        log: b"refused at 0 tag\npassed 2 at 65 len 8\npassed 3 at 130 len 8\n",
        slots_now: (AT_3, AT_2),
        ..EXCHANGE
    },
    // A byte in the pause before the first trailer.
    Row {
        text: b"+01030000000ac5cd\n-1\n+55\n-1\n+0001014c5b8d33c6d29a347013b0\n-40\n\
            +010300000001840a\n-3\n+0002ee5b1d1d6fc159af2411aeb5\n-40\n+1103006b00037687\n-3\n\
            +00037f89dbbfa5b4b19474035c96\n-40\n",
        out: b"-18\n+01030000000ac5cd\n-1\n+55\n-1\n+0001014c5b8d33c6d29a347013b0\n-40\n\
            +010300000001840a\n-57\n+1103006b00037687\n-359\n",
        log: b"refused at 0 trailer\npassed 2 at 65 len 8\npassed 3 at 130 len 8\n",
        slots_now: (AT_3, AT_2),
        ..EXCHANGE
    },
    // The last byte of the first trailer is left out.
    Row {
        text: b"+01030000000ac5cd\n-3\n+0001014c5b8d33c6d29a347013\n-41\n+010300000001840a\n-3\n\
            +0002ee5b1d1d6fc159af2411aeb5\n-40\n",
        out: b"-18\n+01030000000ac5cc\n-57\n+010300000001840a\n-359\n",
        log: b"refused at 0 trailer\npassed 2 at 65 len 8\n",
        slots_now: (AT_0, AT_2),
        ..EXCHANGE
    },
    // The first packet comes twice.
    Row {
        text: b"+01030000000ac5cd\n-3\n+0001014c5b8d33c6d29a347013b0\n-40\n+01030000000ac5cd\n\
            -3\n+0001014c5b8d33c6d29a347013b0\n-40\n+010300000001840a\n-3\n\
            +0002ee5b1d1d6fc159af2411aeb5\n-40\n",
        out: b"-18\n+01030000000ac5cd\n-57\n+01030000000ac5cc\n-57\n+010300000001840a\n-359\n",
        log: b"passed 1 at 0 len 8\nrefused at 65 tag\npassed 2 at 130 len 8\n",
        slots_now: (AT_2, AT_1),
        ..EXCHANGE
    },
    // The second packet is left out: no note tells of it.
    Row {
        text: b"+01030000000ac5cd\n-3\n+0001014c5b8d33c6d29a347013b0\n-40\n+1103006b00037687\n\
            -3\n+00037f89dbbfa5b4b19474035c96\n-40\n",
        out: b"-18\n+01030000000ac5cd\n-57\n+1103006b00037687\n-359\n",
        log: b"passed 1 at 0 len 8\npassed 3 at 65 len 8\n",
        slots_now: (AT_3, AT_1),
        ..EXCHANGE
    },
    // The second packet comes before the first.
    Row {
        text: b"+010300000001840a\n-3\n+0002ee5b1d1d6fc159af2411aeb5\n-40\n+01030000000ac5cd\n\
            -3\n+0001014c5b8d33c6d29a347013b0\n-40\n+1103006b00037687\n-3\n\
            +00037f89dbbfa5b4b19474035c96\n-40\n",
        out: b"-18\n+010300000001840a\n-57\n+01030000000ac5cc\n-57\n+1103006b00037687\n-359\n",
        log: b"passed 2 at 0 len 8\nrefused at 65 tag\npassed 3 at 130 len 8\n",
        slots_now: (AT_3, AT_2),
        ..EXCHANGE
    },
];

#[test]
fn notes_how_a_link_was_altered(rt: HostRuntime) -> Result<(), Fail> {
    compare_all(&rt, rt.alloc(), BoxKind::CheckRtu, &ALTERED)
}

const THREE_PACKETS: Row = Row {
    text: b"+01030000000ac5cd\n-3\n+0001014c5b8d33c6d29a347013b0\n-4\n+010300000001840a\n-3\n\
        +0002ee5b1d1d6fc159af2411aeb5\n-4\n+1103006b00037687\n-3\n+00037f89dbbfa5b4b19474035c96\n\
        -7\n",
    out: b"-18\n+01030000000ac5cd\n-21\n+010300000001840a\n-21\n+1103006b00037687\n-326\n",
    log: b"passed 1 at 0 len 8\npassed 2 at 29 len 8\npassed 3 at 58 len 8\n",
    slots_now: (AT_2, AT_3),
    ..WHOLE
};

#[test]
fn a_failed_call_of_the_disk_passes_no_number_twice(rt: HostRuntime) -> Result<(), Fail> {
    fail_each_call(&rt, rt.alloc(), BoxKind::CheckRtu, &THREE_PACKETS)
}

/// A row in which nothing is written but the fault line.
const UNTOUCHED: Row = Row {
    status: Status::ReadFault,
    exit_status: 5,
    out: b"",
    log: b"fault: read\n",
    slots_now: FRESH,
    ..WHOLE
};

/// A row in which the packet passes, and then something fails. The silence after a whole input
/// doesn't come.
const CUT_SHORT: Row = Row {
    status: Status::ReadFault,
    exit_status: 5,
    out: b"-18\n+01030000000ac5cd\n-46\n",
    log: b"passed 1 at 0 len 8\nfault: read\n",
    ..WHOLE
};

const WRITE_FAULT: Row = Row {
    status: Status::WriteFault,
    exit_status: 6,
    out: b"",
    ..WHOLE
};

const NOT_DONE: [Row; 7] = [
    Row {
        key: b"000102030405060708090a0b0c0d0e",
        status: Status::BadKey { place: 30 },
        exit_status: 3,
        log: b"fault: key at 30\n",
        ..UNTOUCHED
    },
    Row {
        slots: (NO_NUMBER, NO_NUMBER),
        status: Status::BadJournal {
            a: [0x11; 24],
            b: [0x11; 24],
        },
        exit_status: 8,
        log: b"fault: bad journal 111111111111111111111111111111111111111111111111 11111111111111\
            1111111111111111111111111111111111\n",
        slots_now: (NO_NUMBER, NO_NUMBER),
        ..UNTOUCHED
    },
    Row {
        text: b"+01030000000ac5cd\n-3\n+0001014c5b8d33c6d29a347013b0\n-47\nx",
        status: Status::BadTicks(BadTicks {
            line: 5,
            why: TickFault::Char,
        }),
        exit_status: 4,
        log: b"passed 1 at 0 len 8\nfault: line 5 char\n",
        ..CUT_SHORT
    },
    // The first read gives the whole text, and the next one fails.
    Row {
        failing: Failing { input: 2, ..STEADY },
        ..CUT_SHORT
    },
    // The notes are written before the ticks.
    Row {
        failing: Failing { log: 1, ..STEADY },
        log: b"",
        ..WRITE_FAULT
    },
    Row {
        failing: Failing { out: 1, ..STEADY },
        ..WRITE_FAULT
    },
    // The flush of the output fails.
    Row {
        failing: Failing { out: 2, ..STEADY },
        out: PASSED_LINE,
        ..WRITE_FAULT
    },
];

#[test]
fn answers_why_a_link_is_not_checked_whole(rt: HostRuntime) -> Result<(), Fail> {
    compare_all(&rt, rt.alloc(), BoxKind::CheckRtu, &NOT_DONE)
}
