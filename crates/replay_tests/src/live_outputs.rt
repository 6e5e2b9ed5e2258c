//! Tests of what two sinks get of a note and a text, also if a call fails.
use line_commands::{Streams, hand_on};
use std::alloc::Global;
use std::test::Fail;
use yasir_io::{MemSink, MemSource, Plan};

// A plan by which call `fails` fails, or no call if `fails` is 0.
fn plan_of(fails: u32) -> Plan {
    let mut plan = Plan::new();
    if fails > 0 {
        plan.push(fails);
    }
    plan
}

/// Hands on a note and a text. Returns the sink of the text, the sink of the note, and whether both
/// were handed on. The log takes two bytes a call, and its call `fails` fails, or no call if
/// `fails` is 0.
fn handed(alloc: Global, fails: u32) -> Result<(MemSink, MemSink, bool), Fail> {
    let mut streams = Streams {
        input: MemSource::new(b"".as_slice(), 1, Plan::new()),
        out: MemSink::with_room(alloc, 100, 512, Plan::new())?,
        log: MemSink::with_room(alloc, 100, 2, plan_of(fails))?,
    };
    let well = hand_on(&mut streams, b"note\n", b"-1\n").is_ok();
    let Streams { out, log, .. } = streams;
    Ok((out, log, well))
}

// Whether a sink has got these bytes, and was flushed so often.
fn has_got(sink: &MemSink, bytes: &[u8], flushes: u64) -> bool {
    sink.held() == bytes && sink.flushes() == flushes
}

// Whether both sinks have got what was handed on, and were flushed once.
fn are_flushed(alloc: Global) -> Result<bool, Fail> {
    let (out, log, well) = handed(alloc, 0)?;
    Ok(well && has_got(&out, b"-1\n", 1) && has_got(&log, b"note\n", 1))
}

#[test]
fn a_note_and_a_text_are_flushed(rt: HostRuntime) -> Result<(), Fail> {
    assert!(rt; are_flushed(rt.alloc())?);
    Ok(())
}

// Which call of the log fails, of three writes and then the flush, and what the log holds then.
type Failing = (u32, &'static [u8]);

const FAILING: [Failing; 4] = [(1, b""), (2, b"no"), (3, b"note"), (4, b"note\n")];

// Whether no byte of the text goes out, and the log has got what the row says.
fn no_text_goes_out(alloc: Global, row: &Failing) -> Result<bool, Fail> {
    let (fails, got) = *row;
    let (out, log, well) = handed(alloc, fails)?;
    Ok(!well && has_got(&out, b"", 0) && has_got(&log, got, 0))
}

#[test]
fn no_text_goes_out_before_its_note(rt: HostRuntime) -> Result<(), Fail> {
    for row in &FAILING {
        assert!(rt; no_text_goes_out(rt.alloc(), row)?);
    }
    Ok(())
}
