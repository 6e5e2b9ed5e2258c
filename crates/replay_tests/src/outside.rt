//! Which calls fail in a test, how many bytes a call moves, and sources and sinks that do so.
ghost use Rattle.std.specs.Prelude.{◌≤◌};

use command_ends::{Reasons, Status, fault_line, write_fault_line};
use std::alloc::Global;
use yasir_io::{MemSink, MemSource, NoMemory, Plan};

/// What fails outside: for the key, the input, the output, the log and the disk the number of the
/// call that fails, counted from 1, or 0 if none does. `piece` is how many bytes a call moves at
/// most.
#[derive(Clone, Copy, Drop)]
pub struct Failing {
    pub piece: u16,
    pub key: u32,
    pub input: u32,
    pub out: u32,
    pub log: u32,
    pub disk: u32,
}

/// No call fails, and each moves up to 512 bytes.
pub const STEADY: Failing = Failing {
    piece: 512,
    key: 0,
    input: 0,
    out: 0,
    log: 0,
    disk: 0,
};

/// No call fails, and each moves one byte at most.
pub const BYTE_BY_BYTE: Failing = Failing { piece: 1, ..STEADY };

/// A plan by which this call fails, or no call if it is 0.
pub fn plan(call: u32) -> Plan {
    let mut plan = Plan::new();
    if call > 0 {
        let _ = plan.try_push(call);
    }
    plan
}

/// A source of this text. A call moves at most `piece` bytes, and call `call` fails.
pub fn source(text: &[u8], piece: u16, call: u32) -> MemSource<'_>
    requires some { 1 ≤ piece }
    requires within { piece ≤ 512 }
{
    MemSource::new(text, piece, plan(call))
}

// An empty sink with this room. A call moves at most `piece` bytes, and call `call` fails.
fn sink(alloc: Global, room: usize, piece: u16, call: u32) -> Result<MemSink, NoMemory>
    requires some { 1 ≤ piece }
    requires within { piece ≤ 512 }
{
    MemSink::with_room(alloc, room, piece, plan(call))
}

/// An empty output and an empty log with these rooms, in turn. A call moves at most `piece` bytes,
/// and those calls fail that `failing` says.
pub fn sinks(
    alloc: Global,
    rooms: (usize, usize),
    piece: u16,
    failing: &Failing,
) -> Result<(MemSink, MemSink), NoMemory>
    requires some { 1 ≤ piece }
    requires within { piece ≤ 512 }
{
    let out = sink(alloc, rooms.0, piece, failing.out)?;
    let log = sink(alloc, rooms.1, piece, failing.log)?;
    Ok((out, log))
}

/// Writes the fault line of a status to the log, for a key, an input and a journal in memory, which
/// tell no reason.
pub fn write_fault(log: &mut MemSink, status: &Status) {
    let reasons = Reasons {
        key: None,
        input: None,
        journal: None,
    };
    write_fault_line(log, fault_line(&reasons, status).as_slice());
}
