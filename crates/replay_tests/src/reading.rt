//! Tests of a Modbus RTU device over recorded lines, and the functions with which tests read a
//! line.
use crate::outside::{BYTE_BY_BYTE, Failing, STEADY, sinks, source, write_fault};
use crate::over_boxes::{has_status, holds};
use crate::texts::add_times;
use command_ends::Status;
use device_model::{Device, RtuDevice};
use line_commands::read_frames;
use std::alloc::{AllocError, Global};
use std::process::Abort;
use std::test::Fail;
use tick_drive::TooMuch;
use yasir_io::{MemSink, MemSource, Sink};
use yasir_ticks::{BadTicks, TickFault};

/// A request and the silence after it. `REQUEST_LINE` is the line that is printed for it.
const REQUEST: &[u8] = b"+01030000000ac5cd\n-4\n";

const REQUEST_LINE: &[u8] = b"read at 0 01030000000ac5cd\n";

/// How a reading ended, and what its sinks hold.
#[derive(Drop)]
pub struct Ran {
    pub status: Status,
    pub out: MemSink,
    pub log: MemSink,
}

/// Prints what a Modbus RTU device reads of this text, and then the fault line.
pub fn read(rt: &impl Abort, alloc: Global, text: &[u8], outside: &Failing) -> Result<Ran, Fail> {
    read_by::<RtuDevice>(rt, alloc, text, outside)
}

// Prints what a device reads of this input, and then the fault line.
fn read_into<D: Device + Drop>(
    input: &mut MemSource<'_>,
    out: &mut MemSink,
    log: &mut MemSink,
) -> Status {
    let status = read_frames::<D, MemSource, MemSink, MemSink>(input, out, log);
    write_fault(log, &status);
    status
}

/// Prints what a device reads of this text, and then the fault line.
pub fn read_by<D: Device + Drop>(
    rt: &impl Abort,
    alloc: Global,
    text: &[u8],
    outside: &Failing,
) -> Result<Ran, Fail> {
    let piece = outside.piece;
    assert!(rt; piece >= 1 && piece <= 512);
    let (mut out, mut log) = sinks(alloc, (20000, 100), piece, outside)?;
    let mut input = source(text, piece, outside.input);
    let status = read_into::<D>(&mut input, &mut out, &mut log);
    Ok(Ran { status, out, log })
}

/// Checks that a device reads these frames of a line.
pub fn has_read<D: Device + Drop>(
    rt: &impl Abort,
    alloc: Global,
    line: &[u8],
    frames: &[u8],
) -> Result<(), Fail> {
    let device = read_by::<D>(rt, alloc, line, &STEADY)?;
    assert!(rt; device.status == Status::Done);
    holds(rt, &device.out, frames);
    Ok(())
}

/// A text, what fails while it is read, and the results that are expected.
#[derive(Clone, Copy, Drop)]
struct Row {
    text: &'static [u8],
    outside: Failing,
    status: Status,
    exit_status: u8,
    out: &'static [u8],
    log: &'static [u8],
}

// Checks that these lines were printed, and that the log has this.
fn has_printed(rt: &impl Abort, ran: &Ran, lines: &[u8], log: &[u8]) {
    holds(rt, &ran.out, lines);
    holds(rt, &ran.log, log);
}

// Checks that the results are those of the row, if this fails outside.
fn check(rt: &impl Abort, alloc: Global, row: &Row, outside: &Failing) -> Result<(), Fail> {
    let ran = read(rt, alloc, row.text, outside)?;
    has_status(rt, &ran.status, &row.status, row.exit_status);
    has_printed(rt, &ran, row.out, row.log);
    Ok(())
}

// Checks that the results are those of the row, for each row, with calls that move up to 512 bytes
// and with calls that move one.
fn check_all(rt: &impl Abort, alloc: Global, rows: &[Row]) -> Result<(), Fail> {
    for row in rows {
        check(rt, alloc, row, &STEADY)?;
        check(rt, alloc, row, &BYTE_BY_BYTE)?;
    }
    Ok(())
}

/// A row in which the whole of a text is read.
const WHOLE: Row = Row {
    text: b"",
    outside: STEADY,
    status: Status::Done,
    exit_status: 0,
    out: b"",
    log: b"",
};

const RIGHT: [Row; 8] = [
    WHOLE,
    Row {
        text: b"+01030000000ac5cd\n-4\n+01030000000ac5cc\n-4\n+0103\n-1\n+4021\n",
        out: b"read at 0 01030000000ac5cd\nread at 24 01034021\n",
        ..WHOLE
    },
    Row {
        text: b"+01030000000ac5cd",
        out: REQUEST_LINE,
        ..WHOLE
    },
    Row {
        text: b"+01030000000ac5cd\r\n-4\r\n",
        out: REQUEST_LINE,
        ..WHOLE
    },
    Row {
        text: b"+01030000000AC5CD\n",
        out: REQUEST_LINE,
        ..WHOLE
    },
    Row {
        text: b"# a request\n+01030000000ac5cd\n# its silence\n-4\n",
        out: REQUEST_LINE,
        ..WHOLE
    },
    Row {
        text: b"\n\r\n+0103\n\n+0000000ac5cd\n",
        out: REQUEST_LINE,
        ..WHOLE
    },
    Row {
        text: b"-1000000\n+01030000000ac5cd\n",
        out: b"read at 1000000 01030000000ac5cd\n",
        ..WHOLE
    },
];

#[test]
fn prints_the_frames_of_a_right_text(rt: HostRuntime) -> Result<(), Fail> {
    check_all(&rt, rt.alloc(), &RIGHT)
}

/// A row in which the first line of a text is refused for its count.
const BAD_COUNT: Row = Row {
    text: b"-0",
    outside: STEADY,
    status: Status::BadTicks(BadTicks {
        line: 1,
        why: TickFault::Count,
    }),
    exit_status: 4,
    out: b"",
    log: b"fault: line 1 count\n",
};

/// A row in which the first line of a text is refused for a character.
const BAD_CHAR: Row = Row {
    text: b"x",
    status: Status::BadTicks(BadTicks {
        line: 1,
        why: TickFault::Char,
    }),
    log: b"fault: line 1 char\n",
    ..BAD_COUNT
};

const REFUSED: [Row; 10] = [
    BAD_COUNT,
    Row {
        text: b"-07",
        ..BAD_COUNT
    },
    Row {
        text: b"-1000001",
        ..BAD_COUNT
    },
    Row {
        text: b"+1",
        status: Status::BadTicks(BadTicks {
            line: 1,
            why: TickFault::Odd,
        }),
        log: b"fault: line 1 odd\n",
        ..BAD_COUNT
    },
    Row {
        text: b"+",
        status: Status::BadTicks(BadTicks {
            line: 1,
            why: TickFault::Empty,
        }),
        log: b"fault: line 1 empty\n",
        ..BAD_COUNT
    },
    Row {
        text: b"+0g",
        ..BAD_CHAR
    },
    BAD_CHAR,
    Row {
        text: b"%",
        ..BAD_CHAR
    },
    Row {
        text: b"+000000000000000000000000000000000000000000000000000000000000000000",
        status: Status::BadTicks(BadTicks {
            line: 1,
            why: TickFault::Long,
        }),
        log: b"fault: line 1 long\n",
        ..BAD_COUNT
    },
    Row {
        text: b"+01030000000ac5cd\n-4\nx",
        status: Status::BadTicks(BadTicks {
            line: 3,
            why: TickFault::Char,
        }),
        out: REQUEST_LINE,
        log: b"fault: line 3 char\n",
        ..BAD_COUNT
    },
];

#[test]
fn refuses_what_is_no_tick_text(rt: HostRuntime) -> Result<(), Fail> {
    check_all(&rt, rt.alloc(), &REFUSED)
}

// Sixteen lines of a million silent ticks between two pieces of text.
fn with_millions(alloc: Global, before: &[u8], behind: &[u8]) -> Result<Vec<u8>, AllocError> {
    let mut text = before.to_vec(alloc)?;
    add_times(&mut text, b"-1000000\n", 16)?;
    text.extend_from_slice(behind)?;
    Ok(text)
}

/// A text that has too many ticks, how many there are up to the end of the line that is refused,
/// the fault line, and the lines that are printed.
#[derive(Clone, Copy)]
struct LongText<'a> {
    text: &'a [u8],
    count: u64,
    fault: &'static [u8],
    lines: &'static [u8],
}

// Checks that a text is refused because it has too many ticks.
fn is_too_long(rt: &impl Abort, alloc: Global, long: &LongText<'_>) -> Result<(), Fail> {
    let ran = read(rt, alloc, long.text, &STEADY)?;
    let too_long = Status::TooLong {
        what: TooMuch::Ticks,
        count: long.count,
    };
    has_status(rt, &ran.status, &too_long, 10);
    has_printed(rt, &ran, long.lines, long.fault);
    Ok(())
}

// Checks that this text is read whole, and that these lines are printed.
fn is_whole(rt: &impl Abort, alloc: Global, text: &[u8], lines: &[u8]) -> Result<(), Fail> {
    let ran = read(rt, alloc, text, &STEADY)?;
    assert!(rt; ran.status == Status::Done);
    has_printed(rt, &ran, lines, b"");
    Ok(())
}

#[test]
fn refuses_one_tick_too_much(rt: HostRuntime) -> Result<(), Fail> {
    let text = with_millions(rt.alloc(), b"+01030000000ac5cd\n", b"-777209\n")?;
    let long = LongText {
        text: text.as_slice(),
        count: 16777217,
        fault: b"fault: too long 16777217 ticks\n",
        lines: REQUEST_LINE,
    };
    is_too_long(&rt, rt.alloc(), &long)
}

#[test]
fn takes_as_many_ticks_as_the_limit(rt: HostRuntime) -> Result<(), Fail> {
    let text = with_millions(rt.alloc(), b"+01030000000ac5cd\n", b"-777208\n")?;
    is_whole(&rt, rt.alloc(), text.as_slice(), REQUEST_LINE)
}

/// A row in which a read of the request fails.
const READ_FAULT: Row = Row {
    text: REQUEST,
    outside: STEADY,
    status: Status::ReadFault,
    exit_status: 5,
    out: b"",
    log: b"fault: read\n",
};

/// A row in which a write of the request's line fails.
const WRITE_FAULT: Row = Row {
    status: Status::WriteFault,
    exit_status: 6,
    log: b"",
    ..READ_FAULT
};

const FAILED: [Row; 10] = [
    // The first read gives the whole text, the next one fails.
    Row {
        outside: Failing { input: 2, ..STEADY },
        out: REQUEST_LINE,
        ..READ_FAULT
    },
    Row {
        outside: Failing { input: 1, ..STEADY },
        ..READ_FAULT
    },
    // The first read gives only the line of the request, without the silence after it.
    Row {
        outside: Failing {
            piece: 18,
            input: 2,
            ..STEADY
        },
        ..READ_FAULT
    },
    // The first call on an empty output is its flush.
    Row {
        text: b"",
        outside: Failing { out: 1, ..STEADY },
        ..WRITE_FAULT
    },
    Row {
        outside: Failing { out: 1, ..STEADY },
        ..WRITE_FAULT
    },
    // A write in the middle of the line fails, and the flush after the line.
    Row {
        outside: Failing {
            piece: 10,
            out: 2,
            ..STEADY
        },
        out: b"read at 0 ",
        ..WRITE_FAULT
    },
    Row {
        outside: Failing { out: 2, ..STEADY },
        out: REQUEST_LINE,
        ..WRITE_FAULT
    },
    // The flush of the log fails.
    Row {
        outside: Failing { log: 1, ..STEADY },
        out: REQUEST_LINE,
        ..WRITE_FAULT
    },
    // A read fails, and then the write of the lines so far.
    Row {
        outside: Failing {
            input: 2,
            out: 1,
            ..STEADY
        },
        ..WRITE_FAULT
    },
    // The write of the fault line fails, which doesn't change the status.
    Row {
        outside: Failing { log: 1, ..STEADY },
        log: b"",
        ..BAD_COUNT
    },
];

#[test]
fn answers_what_failed_outside(rt: HostRuntime) -> Result<(), Fail> {
    for row in &FAILED {
        check(&rt, rt.alloc(), row, &row.outside)?;
    }
    Ok(())
}
