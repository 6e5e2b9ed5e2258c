//! Traces that sigrok-cli wrote, and tables in the form that Saleae publishes.

use capture_text::{BadRow, Logic2, RowFault, RowForm, RowReader, Sigrok};
use line_stamps::{CaptureByte, CaptureReader, LineEvent, MAX_BYTES, Seen, Way};
use std::alloc::Global;
use std::process::Abort;
use std::test::Fail;

/// What sigrok-cli 0.7.2 writes for a wire with a parity error, a frame error and a break, and a
/// byte on the other wire.
const TRACE: &[u8] = b"{\"traceEvents\": [
{\"ph\": \"B\", \"ts\": 1104.200000, \"pid\": \"uart-1\", \"tid\": \"RX\", \"name\": \"82\"},
{\"ph\": \"E\", \"ts\": 1937.500000, \"pid\": \"uart-1\", \"tid\": \"RX\", \"name\": \"82\"},
{\"ph\": \"B\", \"ts\": 1937.600000, \"pid\": \"uart-1\", \"tid\": \"RX\", \"name\": \"Parity error\"},
{\"ph\": \"E\", \"ts\": 2041.700000, \"pid\": \"uart-1\", \"tid\": \"RX\", \"name\": \"Parity error\"},
{\"ph\": \"B\", \"ts\": 5041.700000, \"pid\": \"uart-1\", \"tid\": \"RX warnings\", \"name\": \"Frame error\"},
{\"ph\": \"E\", \"ts\": 5145.800000, \"pid\": \"uart-1\", \"tid\": \"RX warnings\", \"name\": \"Frame error\"},
{\"ph\": \"B\", \"ts\": 4000.000000, \"pid\": \"uart-1\", \"tid\": \"RX break\", \"name\": \"Break condition\"},
{\"ph\": \"E\", \"ts\": 8000.000000, \"pid\": \"uart-1\", \"tid\": \"RX break\", \"name\": \"Break condition\"},
{\"ph\": \"B\", \"ts\": 144166.600000, \"pid\": \"uart-1\", \"tid\": \"TX\", \"name\": \"F1\"},
{\"ph\": \"E\", \"ts\": 145000.000000, \"pid\": \"uart-1\", \"tid\": \"TX\", \"name\": \"F1\"}
]}
";

fn trace_seen() -> [Seen; 5] {
    [
        byte(Way::A, 1_104_200, 0x82),
        event(1_937_600, 8),
        event(5_041_700, 7),
        event(4_000_000, 9),
        byte(Way::B, 144_166_600, 0xF1),
    ]
}

/// A trace without events, as sigrok-cli writes it for a quiet wire.
const QUIET: &[u8] = b"{\"traceEvents\": [\n]}\n";

/// A table of two analyzers.
const TABLE: &[u8] = b"name,type,start_time,duration,\"data\",\"error\"\r
\"Master\",\"data\",0.0011458333333,0.001145833,0x01,\r
\"Device\",\"data\",12,8.6e-05,0xfD,\r
\"Master\",\"data\",13.5,0.001145833,0x0A,\"parity\"\r
Master,data,14.000000001,0.001145833,0xC5,framing
";

fn table_seen() -> [Seen; 4] {
    [
        byte(Way::A, 1_145_833, 0x01),
        byte(Way::B, 12_000_000_000, 0xFD),
        event(13_500_000_000, 8),
        event(14_000_000_001, 7),
    ]
}

fn byte(way: Way, start: u64, byte: u8) -> Seen {
    Seen::Byte(CaptureByte {
        way,
        start,
        first: true,
        byte,
    })
}

fn event(start: u64, event: u8) -> Seen {
    Seen::Event(LineEvent {
        way: Some(Way::A),
        start,
        event,
        bytes: 0,
    })
}

/// Collects what is seen in a text, and returns the refusal, if there is one.
fn read<F: RowForm>(text: &[u8], seen: &mut Vec<Seen>) -> Result<Result<(), BadRow>, Fail> {
    let mut reader = RowReader::<F>::start();
    for b in text {
        if reader.taken() >= MAX_BYTES {
            break;
        }
        match reader.feed(*b) {
            Ok(Some(item)) => seen.push(item)?,
            Ok(None) => {}
            Err(bad) => return Ok(Err(bad)),
        }
    }
    Ok(reader.finish())
}

/// Checks that a text has these bytes and events, and that reading it ends like this.
fn check<F: RowForm>(
    rt: &impl Abort,
    alloc: Global,
    text: &[u8],
    all: &[Seen],
    end: Result<(), BadRow>,
) -> Result<(), Fail> {
    let mut seen = Vec::new(alloc);
    assert_eq!(rt; read::<F>(text, &mut seen)?, end);
    assert_eq!(rt; seen.as_slice(), all);
    Ok(())
}

fn bad(offset: u64, line: u64, why: RowFault) -> Result<(), BadRow> {
    Err(BadRow { offset, line, why })
}

#[test]
fn traces_of_a_tool(rt: HostRuntime) -> Result<(), Fail> {
    let alloc = rt.alloc();
    check::<Sigrok>(&rt, alloc, TRACE, &trace_seen(), Ok(()))?;
    check::<Sigrok>(&rt, alloc, QUIET, &[], Ok(()))?;
    let short = &TRACE[..TRACE.len() - 1];
    let begun = TRACE.len() as u64 - 3;
    check::<Sigrok>(
        &rt,
        alloc,
        short,
        &trace_seen(),
        bad(begun, 12, RowFault::End),
    )?;
    check::<Sigrok>(&rt, alloc, &TRACE[17..], &[], bad(0, 1, RowFault::Line))
}

#[test]
fn tables(rt: HostRuntime) -> Result<(), Fail> {
    let alloc = rt.alloc();
    check::<Logic2>(&rt, alloc, TABLE, &table_seen(), Ok(()))
}

#[test]
fn broken_tables(rt: HostRuntime) -> Result<(), Fail> {
    let alloc = rt.alloc();
    check::<Logic2>(&rt, alloc, b"", &[], bad(0, 1, RowFault::End))?;
    check::<Logic2>(&rt, alloc, b"a,b\n", &[], bad(0, 1, RowFault::Line))?;
    let head = b"name,type,start_time,duration,data\n";
    let mut text = Vec::new(alloc);
    text.extend_from_slice(head)?;
    text.extend_from_slice(b"a,data,-1,0,0x01\n")?;
    check::<Logic2>(&rt, alloc, &text, &[], bad(35, 2, RowFault::Time))?;
    text.clear();
    text.extend_from_slice(head)?;
    text.extend_from_slice(b"a,data,1,0,01\n")?;
    check::<Logic2>(&rt, alloc, &text, &[], bad(35, 2, RowFault::Data))?;
    text.clear();
    text.extend_from_slice(head)?;
    text.extend_from_slice(b"a,data,1,0,0x01\nb,data,2,0,0x02\nc,data,3,0,0x03\n")?;
    let two = [
        byte(Way::A, 1_000_000_000, 1),
        byte(Way::B, 2_000_000_000, 2),
    ];
    check::<Logic2>(&rt, alloc, &text, &two, bad(67, 4, RowFault::Channel))
}
