//! Runs of the program over sources and sinks in memory, which move a few bytes in each call, and
//! fail at chosen calls. The captures and their ticks are those of `examples/captures/`. The ticks
//! were written by hand, or by the model in `scripts/capture_model.py`.

use crate::about::HELP_PAGE;
use crate::*;
use command_ends::Status;
use line_stamps::{Unplaced, Way};
use std::alloc::{AllocError, Global};
use std::process::Abort;
use std::test::Fail;
use yasir_io::{MemSink, MemSource, Plan};

/// Two polls of a device.
const POLLS: &[u8] = b"1690000000.000000 01030000000ac5cd\n1690000000.114583 0103000a0002e409\n";

/// `examples/captures/modbus.pcap`, by `text2pcap -l 250`: two polls of a device and its replies.
const EXCHANGE: [u8; 182] = [
    0xD4, 0xC3, 0xB2, 0xA1, 0x02, 0x00, 0x04, 0x00, 0x00, 0x00, 0x00, 0x00, 0x00, 0x00, 0x00, 0x00,
    0x00, 0x00, 0x04, 0x00, 0xFA, 0x00, 0x00, 0x00, 0x80, 0x5A, 0xBB, 0x64, 0x00, 0x00, 0x00, 0x00,
    0x14, 0x00, 0x00, 0x00, 0x14, 0x00, 0x00, 0x00, 0x64, 0xBB, 0x5A, 0x80, 0x00, 0x00, 0x00, 0x00,
    0x01, 0x00, 0x00, 0x00, 0x01, 0x03, 0x00, 0x00, 0x00, 0x0A, 0xC5, 0xCD, 0x80, 0x5A, 0xBB, 0x64,
    0x53, 0x7D, 0x00, 0x00, 0x25, 0x00, 0x00, 0x00, 0x25, 0x00, 0x00, 0x00, 0x64, 0xBB, 0x5A, 0x80,
    0x00, 0x00, 0x7D, 0x53, 0x02, 0x00, 0x00, 0x00, 0x01, 0x03, 0x14, 0x08, 0xFD, 0x08, 0xFA, 0x09,
    0x01, 0x00, 0x65, 0x00, 0x67, 0x00, 0x63, 0x01, 0xF4, 0x00, 0x00, 0x00, 0x00, 0x00, 0x01, 0x98,
    0xD2, 0x80, 0x5A, 0xBB, 0x64, 0x97, 0xBF, 0x01, 0x00, 0x14, 0x00, 0x00, 0x00, 0x14, 0x00, 0x00,
    0x00, 0x64, 0xBB, 0x5A, 0x80, 0x00, 0x01, 0xBF, 0x97, 0x01, 0x00, 0x00, 0x00, 0x01, 0x03, 0x00,
    0x0A, 0x00, 0x02, 0xE4, 0x09, 0x80, 0x5A, 0xBB, 0x64, 0x1C, 0x19, 0x02, 0x00, 0x11, 0x00, 0x00,
    0x00, 0x11, 0x00, 0x00, 0x00, 0x64, 0xBB, 0x5A, 0x80, 0x00, 0x02, 0x19, 0x1C, 0x02, 0x00, 0x00,
    0x00, 0x01, 0x83, 0x02, 0xC0, 0xF1,
];

/// `examples/captures/errors.pcap`: a poll with a parity error after its third byte.
const ERRORS: [u8; 172] = [
    0xD4, 0xC3, 0xB2, 0xA1, 0x02, 0x00, 0x04, 0x00, 0x00, 0x00, 0x00, 0x00, 0x00, 0x00, 0x00, 0x00,
    0x00, 0x00, 0x04, 0x00, 0xFA, 0x00, 0x00, 0x00, 0x80, 0x5A, 0xBB, 0x64, 0x00, 0x00, 0x00, 0x00,
    0x0F, 0x00, 0x00, 0x00, 0x0F, 0x00, 0x00, 0x00, 0x64, 0xBB, 0x5A, 0x80, 0x00, 0x00, 0x00, 0x00,
    0x01, 0x00, 0x00, 0x00, 0x01, 0x03, 0x00, 0x80, 0x5A, 0xBB, 0x64, 0x6D, 0x0D, 0x00, 0x00, 0x0C,
    0x00, 0x00, 0x00, 0x0C, 0x00, 0x00, 0x00, 0x64, 0xBB, 0x5A, 0x80, 0x00, 0x00, 0x0D, 0x6D, 0x08,
    0x00, 0x00, 0x00, 0x80, 0x5A, 0xBB, 0x64, 0x6D, 0x0D, 0x00, 0x00, 0x11, 0x00, 0x00, 0x00, 0x11,
    0x00, 0x00, 0x00, 0x64, 0xBB, 0x5A, 0x80, 0x00, 0x00, 0x0D, 0x6D, 0x01, 0x00, 0x00, 0x00, 0x00,
    0x00, 0x0A, 0xC5, 0xCD, 0x80, 0x5A, 0xBB, 0x64, 0x53, 0x7D, 0x00, 0x00, 0x0C, 0x00, 0x00, 0x00,
    0x0C, 0x00, 0x00, 0x00, 0x64, 0xBB, 0x5A, 0x80, 0x00, 0x00, 0x7D, 0x53, 0x07, 0x00, 0x00, 0x00,
    0x80, 0x5A, 0xBB, 0x64, 0x40, 0x9C, 0x00, 0x00, 0x0C, 0x00, 0x00, 0x00, 0x0C, 0x00, 0x00, 0x00,
    0x64, 0xBB, 0x5A, 0x80, 0x00, 0x00, 0x9C, 0x40, 0x09, 0x00, 0x00, 0x00,
];

/// The ticks of the two polls.
const POLL_TICKS: &[u8] = b"+01030000000ac5cd\n-92\n+0103000a0002e409\n";

/// The ticks of both ways of `EXCHANGE`.
const BOTH_TICKS: &[u8] = b"+01030000000ac5cd\n-92\n+0103000a0002e409\n%\n-28\n\
+01031408fd08fa090100650067006301f400000000000198d2\n-67\n+018302c0f1\n";

/// What `scripts/capture_model.py give pcap 9600x11` makes of these ticks.
const GIVEN: [u8; 182] = [
    0x4D, 0x3C, 0xB2, 0xA1, 0x02, 0x00, 0x04, 0x00, 0x00, 0x00, 0x00, 0x00, 0x00, 0x00, 0x00, 0x00,
    0x00, 0x00, 0x04, 0x00, 0xFA, 0x00, 0x00, 0x00, 0x00, 0x00, 0x00, 0x00, 0x00, 0x00, 0x00, 0x00,
    0x14, 0x00, 0x00, 0x00, 0x14, 0x00, 0x00, 0x00, 0x00, 0x00, 0x00, 0x00, 0x00, 0x00, 0x00, 0x00,
    0x01, 0x00, 0x00, 0x00, 0x01, 0x03, 0x00, 0x00, 0x00, 0x0A, 0xC5, 0xCD, 0x00, 0x00, 0x00, 0x00,
    0x85, 0x8D, 0xE9, 0x01, 0x25, 0x00, 0x00, 0x00, 0x25, 0x00, 0x00, 0x00, 0x00, 0x00, 0x00, 0x00,
    0x00, 0x00, 0x7D, 0x53, 0x02, 0x00, 0x00, 0x00, 0x01, 0x03, 0x14, 0x08, 0xFD, 0x08, 0xFA, 0x09,
    0x01, 0x00, 0x65, 0x00, 0x67, 0x00, 0x63, 0x01, 0xF4, 0x00, 0x00, 0x00, 0x00, 0x00, 0x01, 0x98,
    0xD2, 0x00, 0x00, 0x00, 0x00, 0x25, 0x67, 0xD4, 0x06, 0x14, 0x00, 0x00, 0x00, 0x14, 0x00, 0x00,
    0x00, 0x00, 0x00, 0x00, 0x00, 0x00, 0x01, 0xBF, 0x97, 0x01, 0x00, 0x00, 0x00, 0x01, 0x03, 0x00,
    0x0A, 0x00, 0x02, 0xE4, 0x09, 0x00, 0x00, 0x00, 0x00, 0x60, 0x15, 0x32, 0x08, 0x11, 0x00, 0x00,
    0x00, 0x11, 0x00, 0x00, 0x00, 0x00, 0x00, 0x00, 0x00, 0x00, 0x02, 0x19, 0x1C, 0x02, 0x00, 0x00,
    0x00, 0x01, 0x83, 0x02, 0xC0, 0xF1,
];

/// The lines of a run that counted nothing, over frames whose bytes follow each other at once.
const NO_COUNTS: &[u8] = b"counted: overlaps 0, errors 0, breaks 0, control lines 0\n\
distances inside bursts: shortest 1, usual 1\n";

/// The first rows of `examples/captures/modbus.logic2.csv`, and a row of the other analyzer.
const TABLE: &[u8] = b"name,type,start_time,duration,data,error
\"Master\",\"data\",0.000000000,0.001145833,0x01,
\"Master\",\"data\",0.001145833,0.001145833,0x03,
\"Device\",\"data\",0.032083333,0.001145833,0x83,
";

/// Some lines of `examples/captures/modbus.sigrok.json`, which sigrok-cli wrote.
const TRACE: &[u8] = b"{\"traceEvents\": [
{\"ph\": \"B\", \"ts\": 1250.000000, \"pid\": \"uart-1\", \"tid\": \"RX\", \"name\": \"01\"},
{\"ph\": \"E\", \"ts\": 2083.300000, \"pid\": \"uart-1\", \"tid\": \"RX\", \"name\": \"01\"},
{\"ph\": \"B\", \"ts\": 2395.800000, \"pid\": \"uart-1\", \"tid\": \"RX\", \"name\": \"03\"},
{\"ph\": \"E\", \"ts\": 3229.100000, \"pid\": \"uart-1\", \"tid\": \"RX\", \"name\": \"03\"},
{\"ph\": \"B\", \"ts\": 33333.300000, \"pid\": \"uart-1\", \"tid\": \"TX\", \"name\": \"83\"},
{\"ph\": \"E\", \"ts\": 34166.600000, \"pid\": \"uart-1\", \"tid\": \"TX\", \"name\": \"83\"}
]}
";

/// `examples/captures/framing.sigrok.json`, which sigrok-cli wrote: a byte of the other wire comes
/// between a byte without a stop bit and its error.
const FRAMING: &[u8] = b"{\"traceEvents\": [
{\"ph\": \"B\", \"ts\": 1250.000000, \"pid\": \"uart-1\", \"tid\": \"RX\", \"name\": \"01\"},
{\"ph\": \"E\", \"ts\": 2083.300000, \"pid\": \"uart-1\", \"tid\": \"RX\", \"name\": \"01\"},
{\"ph\": \"B\", \"ts\": 2395.800000, \"pid\": \"uart-1\", \"tid\": \"RX\", \"name\": \"03\"},
{\"ph\": \"E\", \"ts\": 3229.100000, \"pid\": \"uart-1\", \"tid\": \"RX\", \"name\": \"03\"},
{\"ph\": \"B\", \"ts\": 2500.000000, \"pid\": \"uart-1\", \"tid\": \"TX\", \"name\": \"5A\"},
{\"ph\": \"E\", \"ts\": 3333.300000, \"pid\": \"uart-1\", \"tid\": \"TX\", \"name\": \"5A\"},
{\"ph\": \"B\", \"ts\": 3333.300000, \"pid\": \"uart-1\", \"tid\": \"RX warnings\", \"name\": \"Frame error\"},
{\"ph\": \"E\", \"ts\": 3437.400000, \"pid\": \"uart-1\", \"tid\": \"RX warnings\", \"name\": \"Frame error\"}
]}
";

/// `examples/captures/spurious.sigrok.json`, which sigrok-cli wrote: the error belongs to no byte.
const SPURIOUS: &[u8] = b"{\"traceEvents\": [
{\"ph\": \"B\", \"ts\": 1250.000000, \"pid\": \"uart-1\", \"tid\": \"RX\", \"name\": \"01\"},
{\"ph\": \"E\", \"ts\": 2083.300000, \"pid\": \"uart-1\", \"tid\": \"RX\", \"name\": \"01\"},
{\"ph\": \"B\", \"ts\": 2395.800000, \"pid\": \"uart-1\", \"tid\": \"RX\", \"name\": \"03\"},
{\"ph\": \"E\", \"ts\": 3229.100000, \"pid\": \"uart-1\", \"tid\": \"RX\", \"name\": \"03\"},
{\"ph\": \"B\", \"ts\": 10416.700000, \"pid\": \"uart-1\", \"tid\": \"RX warnings\", \"name\": \"Frame error\"},
{\"ph\": \"E\", \"ts\": 10520.800000, \"pid\": \"uart-1\", \"tid\": \"RX warnings\", \"name\": \"Frame error\"}
]}
";

/// The ticks of both ways of `TABLE` and of `TRACE`. Way B begins 28 characters after way A.
const EXPORT_TICKS: &[u8] = b"+0103\n%\n-28\n+83\n";

/// Returns a plan in which this call fails, or no call if it is 0.
fn plan(call: u32) -> Plan {
    let mut plan = Plan::new();
    if call > 0 {
        let _ = plan.try_push(call);
    }
    plan
}

/// How a run ended, and what its sinks hold.
#[derive(Drop)]
struct Ran {
    outcome: Outcome,
    out: MemSink,
    log: MemSink,
}

/// Returns the words of a text, in which there is a space between two words.
fn words_of(alloc: Global, text: &str) -> Result<Vec<String>, AllocError> {
    let mut words = Vec::new(alloc);
    for word in text.split(' ') {
        words.push(String::from_str(alloc, word)?)?;
    }
    Ok(words)
}

/// Runs the program with these words. Each call moves a few bytes. The read and the write to the
/// output with these numbers fail, if they are above 0.
fn run_words(
    alloc: Global,
    words: &str,
    input: &[u8],
    read_fails: u32,
    write_fails: u32,
) -> Result<Ran, Fail> {
    let words = words_of(alloc, words)?;
    let mut source = MemSource::new(input, 7, plan(read_fails));
    let Ok(mut out) = MemSink::with_room(alloc, 50_000, 5, plan(write_fails)) else {
        return Err("no memory".into());
    };
    let Ok(mut log) = MemSink::with_room(alloc, 1000, 5, plan(0)) else {
        return Err("no memory".into());
    };
    let outcome = run(alloc, words.as_slice(), &mut source, &mut out, &mut log);
    Ok(Ran { outcome, out, log })
}

/// Checks how a run ended and what its sinks hold. In the log of `take` the fault line comes after
/// the counts.
fn ended(rt: &impl Abort, ran: &Ran, outcome: Outcome, out: &[u8], log: &[u8]) {
    assert_eq!(rt; ran.outcome, outcome);
    assert_eq!(rt; ran.out.held(), out);
    assert_eq!(rt; ran.log.held(), log);
}

const DONE: Outcome = Outcome::Ended(Status::Done);

#[test]
fn captures_are_taken(rt: HostRuntime) -> Result<(), Fail> {
    let alloc = rt.alloc();
    let ran = run_words(alloc, "take text 9600x11 a", POLLS, 0, 0)?;
    ended(&rt, &ran, DONE, POLL_TICKS, NO_COUNTS);
    let ran = run_words(alloc, "take pcap 9600x11 a", &EXCHANGE, 0, 0)?;
    ended(&rt, &ran, DONE, POLL_TICKS, NO_COUNTS);
    let ran = run_words(alloc, "take pcap 9600x11 both", &EXCHANGE, 0, 0)?;
    ended(&rt, &ran, DONE, BOTH_TICKS, NO_COUNTS);
    Ok(())
}

/// Words for a capture of one way, and what is written to the log.
const EMPTY_WAYS: [(&str, &[u8], &[u8]); 3] = [
    (
        "take text 9600x11 b",
        b"",
        b"counted: overlaps 0, errors 0, breaks 0, control lines 0\n\
        distances inside bursts: none\n\
        warning: no byte on way b: way a has 16, way b 0\n",
    ),
    (
        "take text 9600x11 both",
        b"+01030000000ac5cd\n-92\n+0103000a0002e409\n%\n",
        b"counted: overlaps 0, errors 0, breaks 0, control lines 0\n\
        distances inside bursts: shortest 1, usual 1\n\
        warning: no byte on way b: way a has 16, way b 0\n",
    ),
    (
        "take text 9600x11 a",
        b"+01030000000ac5cd\n-92\n+0103000a0002e409\n",
        b"counted: overlaps 0, errors 0, breaks 0, control lines 0\n\
        distances inside bursts: shortest 1, usual 1\n",
    ),
];

#[test]
fn a_way_without_a_byte_is_a_warning(rt: HostRuntime) -> Result<(), Fail> {
    let alloc = rt.alloc();
    for (words, out, log) in &EMPTY_WAYS {
        let ran = run_words(alloc, words, POLLS, 0, 0)?;
        ended(&rt, &ran, DONE, out, log);
    }
    let nothing = run_words(alloc, "take text 9600x11 both", b"# none\n", 0, 0)?;
    let both = b"counted: overlaps 0, errors 0, breaks 0, control lines 0\n\
        distances inside bursts: none\n\
        warning: no byte on way a: way a has 0, way b 0\n\
        warning: no byte on way b: way a has 0, way b 0\n";
    ended(&rt, &nothing, DONE, b"%\n", both);
    Ok(())
}

/// Single bytes, their ticks, and what the log says of their distances. A character takes
/// 1.145833 ms.
const DISTANCES: [(&[u8], &[u8], &[u8]); 4] = [
    (
        b"0 01\n0.002291667 02\n0.003437500 03\n0.005729167 04\n",
        b"+01\n-1\n+0203\n-1\n+04\n",
        b"counted: overlaps 0, errors 0, breaks 0, control lines 0\n\
        distances inside bursts: shortest 1, usual 2\n\
        warning: the usual distance isn't 1: is the rate right?\n",
    ),
    (
        b"0 01\n0.003437500 02\n0.008020833 03\n",
        b"+01\n-2\n+02\n-3\n+03\n",
        b"counted: overlaps 0, errors 0, breaks 0, control lines 0\n\
        distances inside bursts: shortest 3, usual 3\n\
        warning: the usual distance isn't 1: is the rate right?\n",
    ),
    (
        b"0 01\n0.002291667 02\n0.003437500 03\n",
        b"+01\n-1\n+0203\n",
        b"counted: overlaps 0, errors 0, breaks 0, control lines 0\n\
        distances inside bursts: shortest 1, usual 1\n",
    ),
    (
        b"0 01\n0.005729167 02\n",
        b"+01\n-4\n+02\n",
        b"counted: overlaps 0, errors 0, breaks 0, control lines 0\n\
        distances inside bursts: none\n",
    ),
];

#[test]
fn distances_are_told(rt: HostRuntime) -> Result<(), Fail> {
    for (records, ticks, log) in &DISTANCES {
        let ran = run_words(rt.alloc(), "take text 9600x11 a", records, 0, 0)?;
        ended(&rt, &ran, DONE, ticks, log);
    }
    Ok(())
}

#[test]
fn exports_are_taken(rt: HostRuntime) -> Result<(), Fail> {
    let alloc = rt.alloc();
    let ran = run_words(alloc, "take logic2 9600x11 both", TABLE, 0, 0)?;
    ended(&rt, &ran, DONE, EXPORT_TICKS, NO_COUNTS);
    let ran = run_words(alloc, "take sigrok 9600x11 both", TRACE, 0, 0)?;
    ended(&rt, &ran, DONE, EXPORT_TICKS, NO_COUNTS);
    let ran = run_words(alloc, "take sigrok 9600x11 a", TABLE, 0, 0)?;
    let row = b"counted: overlaps 0, errors 0, breaks 0, control lines 0\n\
        distances inside bursts: none\n\
        warning: no byte on way a: way a has 0, way b 0\nfault: line 1 row\n";
    assert_eq!(rt; ran.log.held(), row.as_slice());
    let short = &TRACE[..TRACE.len() - 3];
    let ran = run_words(alloc, "take sigrok 9600x11 a", short, 0, 0)?;
    let end = b"counted: overlaps 0, errors 0, breaks 0, control lines 0\n\
        distances inside bursts: shortest 1, usual 1\nfault: line 8 end\n";
    assert_eq!(rt; ran.out.held(), b"+0103\n".as_slice());
    assert_eq!(rt; ran.log.held(), end.as_slice());
    Ok(())
}

#[test]
fn errors_behind_their_bytes(rt: HostRuntime) -> Result<(), Fail> {
    let alloc = rt.alloc();
    let ran = run_words(alloc, "take sigrok 9600x11 both", FRAMING, 0, 0)?;
    assert_eq!(rt; ran.out.held(), b"+01\n%\n-1\n+5a\n".as_slice());
    let ran = run_words(alloc, "take sigrok 9600x11 b", FRAMING, 0, 0)?;
    assert_eq!(rt; ran.out.held(), b"+5a\n".as_slice());
    let ran = run_words(alloc, "take sigrok 9600x11 a", SPURIOUS, 0, 0)?;
    assert_eq!(rt; ran.out.held(), b"+0103\n".as_slice());
    let error = b"counted: overlaps 0, errors 1, breaks 0, control lines 0\n\
        distances inside bursts: shortest 1, usual 1\nfault: byte 416 error\n";
    assert_eq!(rt; ran.log.held(), error.as_slice());
    Ok(())
}

#[test]
fn records_that_overlap(rt: HostRuntime) -> Result<(), Fail> {
    let alloc = rt.alloc();
    let close = b"1.000 0102\n1.001 0304\n";
    let overlap = Outcome::Unplaced {
        way: Way::A,
        place: 2,
        why: Unplaced::Overlap,
    };
    let ran = run_words(alloc, "take text 9600x11 a", close, 0, 0)?;
    let log = b"counted: overlaps 1, errors 0, breaks 0, control lines 0\n\
distances inside bursts: shortest 1, usual 1\nfault: way a byte 2 overlap\n";
    ended(&rt, &ran, overlap, b"+0102\n", log);
    let ran = run_words(alloc, "take text 9600x11 a frames", close, 0, 0)?;
    ended(&rt, &ran, DONE, b"+0102\n-4\n+0304\n", NO_COUNTS);
    Ok(())
}

#[test]
fn captures_that_are_refused(rt: HostRuntime) -> Result<(), Fail> {
    let alloc = rt.alloc();
    let ran = run_words(alloc, "take text 9600x11 a", b"1.0 0102\n2.0 010\n", 0, 0)?;
    let odd = b"counted: overlaps 0, errors 0, breaks 0, control lines 0\n\
        distances inside bursts: shortest 1, usual 1\nfault: line 2 odd\n";
    assert_eq!(rt; ran.outcome.exit_status(), 4);
    // the byte before the missing digit is kept
    assert_eq!(rt; ran.out.held(), b"+0102\n-871\n+01\n".as_slice());
    assert_eq!(rt; ran.log.held(), odd.as_slice());
    let ran = run_words(alloc, "take pcap 9600x11 a", &EXCHANGE[..181], 0, 0)?;
    assert_eq!(rt; ran.outcome.exit_status(), 4);
    assert_eq!(rt; ran.out.held(), POLL_TICKS);
    let ran = run_words(alloc, "take pcap 9600x11 a", &ERRORS, 0, 0)?;
    let error = b"counted: overlaps 0, errors 1, breaks 0, control lines 0\n\
        distances inside bursts: shortest 1, usual 1\nfault: byte 82 error\n";
    assert_eq!(rt; ran.outcome.exit_status(), 4);
    assert_eq!(rt; ran.out.held(), b"+010300\n".as_slice());
    assert_eq!(rt; ran.log.held(), error.as_slice());
    Ok(())
}

#[test]
fn calls_that_fail(rt: HostRuntime) -> Result<(), Fail> {
    let alloc = rt.alloc();
    let ran = run_words(alloc, "take text 9600x11 a", POLLS, 6, 0)?;
    assert_eq!(rt; ran.outcome, Outcome::Ended(Status::ReadFault));
    assert_eq!(rt; ran.outcome.exit_status(), 5);
    assert_eq!(rt; ran.out.held(), b"+01030000000ac5cd\n".as_slice());
    let ran = run_words(alloc, "take text 9600x11 a", POLLS, 0, 2)?;
    assert_eq!(rt; ran.outcome, Outcome::Ended(Status::WriteFault));
    assert_eq!(rt; ran.out.held(), b"+0103".as_slice());
    let ran = run_words(alloc, "give pcap 9600x11", BOTH_TICKS, 6, 0)?;
    assert_eq!(rt; ran.outcome, Outcome::Ended(Status::ReadFault));
    assert_eq!(rt; ran.out.held(), b"".as_slice());
    let ran = run_words(alloc, "give text 9600x11", POLL_TICKS, 0, 2)?;
    assert_eq!(rt; ran.outcome, Outcome::Ended(Status::WriteFault));
    assert_eq!(rt; ran.out.held(), b"0.000".as_slice());
    Ok(())
}

#[test]
fn tick_text_is_given_as_text(rt: HostRuntime) -> Result<(), Fail> {
    let alloc = rt.alloc();
    let ran = run_words(alloc, "give text 9600x11", POLL_TICKS, 0, 0)?;
    let text = b"0.000000000 01030000000ac5cd\n0.114583333 0103000a0002e409\n";
    ended(&rt, &ran, DONE, text, b"");
    let ran = run_words(alloc, "give text 9600x11", BOTH_TICKS, 0, 0)?;
    assert_eq!(rt; ran.outcome.exit_status(), 4);
    assert_eq!(rt; ran.out.held(), b"".as_slice());
    assert_eq!(rt; ran.log.held(), b"fault: line 4 char\n".as_slice());
    Ok(())
}

/// The start of the last record is that of tick 5,998.
#[test]
fn many_records_are_given(rt: HostRuntime) -> Result<(), Fail> {
    let alloc = rt.alloc();
    let mut ticks = Vec::new(alloc);
    for _ in 0..3_000 {
        ticks.extend_from_slice(b"+01\n-1\n")?;
    }
    let ran = run_words(alloc, "give text 9600x11", ticks.as_slice(), 0, 0)?;
    assert_eq!(rt; ran.outcome, DONE);
    assert_eq!(rt; ran.out.held().len(), 45_000);
    assert_eq!(rt; &ran.out.held()[44_985..], b"6.872708333 01\n".as_slice());
    Ok(())
}

#[test]
fn tick_text_is_given_as_packets(rt: HostRuntime) -> Result<(), Fail> {
    let alloc = rt.alloc();
    let ran = run_words(alloc, "give pcap 9600x11", BOTH_TICKS, 0, 0)?;
    ended(&rt, &ran, DONE, &GIVEN, b"");
    let ran = run_words(alloc, "take pcap 9600x11 both", ran.out.held(), 0, 0)?;
    ended(&rt, &ran, DONE, BOTH_TICKS, NO_COUNTS);
    Ok(())
}

/// The dump of a byte, and of one on the other wire two ticks later, by `scripts/capture_model.py`.
const DUMP: &[u8] = b"$timescale 1 ns $end
$scope module line $end
$var wire 1 ! a $end
$var wire 1 \" b $end
$upscope $end
$enddefinitions $end
#0
1!
1\"
#1145833
0!
#1250000
1!
#1354167
0!
#2083333
1!
#3437500
0\"
#3541667
1\"
#3750000
0\"
#4479167
1\"
#5729167
";

#[test]
fn tick_text_is_given_as_a_dump(rt: HostRuntime) -> Result<(), Fail> {
    let alloc = rt.alloc();
    let ran = run_words(alloc, "give vcd 9600x11", b"+01\n%\n-2\n+03\n", 0, 0)?;
    ended(&rt, &ran, DONE, DUMP, b"");
    Ok(())
}

const TAKE: &[u8] = b"fault: usage\nusage: line_capture take FORM RATE WAY [frames]\n";

const GIVE: &[u8] = b"fault: usage\nusage: line_capture give FORM RATE\n";

const COMMANDS: &[u8] = b"fault: usage\ncommands: take give help version\n";

/// Words of no command, and what is said of them.
const OTHER_WORDS: [(&str, &[u8]); 15] = [
    ("", COMMANDS),
    ("takes pcap 9600x11 a", COMMANDS),
    ("-help", COMMANDS),
    ("take", TAKE),
    ("take pcap 9600x11", TAKE),
    ("take pcap 9600x11 c", TAKE),
    ("take pcap 299x11 a", TAKE),
    ("take text 9600x9 a", TAKE),
    ("take text 9600x11 a frame", TAKE),
    ("give text 9600x11 a", GIVE),
    ("give pcap", GIVE),
    ("give logic2 9600x11", GIVE),
    ("give pcap 9600x12", GIVE),
    ("help me", b"fault: usage\nusage: line_capture help\n"),
    ("version 1", b"fault: usage\nusage: line_capture version\n"),
];

#[test]
fn other_words_are_usage(rt: HostRuntime) -> Result<(), Fail> {
    for (words, said) in &OTHER_WORDS {
        let ran = run_words(rt.alloc(), words, POLLS, 0, 0)?;
        ended(&rt, &ran, Outcome::Ended(Status::Usage), b"", said);
    }
    Ok(())
}

#[test]
fn help_and_version_are_printed(rt: HostRuntime) -> Result<(), Fail> {
    for words in &["help", "--help", "-h"] {
        let ran = run_words(rt.alloc(), words, POLLS, 0, 0)?;
        ended(&rt, &ran, DONE, &HELP_PAGE, b"");
    }
    for words in &["version", "--version"] {
        let ran = run_words(rt.alloc(), words, POLLS, 0, 0)?;
        ended(&rt, &ran, DONE, b"line_capture 0.7.0\n", b"");
    }
    Ok(())
}
