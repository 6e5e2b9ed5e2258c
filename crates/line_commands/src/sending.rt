//! What is made of a line, on its way out: notes and the text of ticks, each handed on at once.
ghost use Rattle.std.specs.Prelude.{List};
ghost use Rattle.yasir_ticks.specs.declared.tick.Tick.{Tick};
ghost use Rattle.line_commands.specs.LiveText.{IsTextOf};
ghost use Rattle.line_commands.specs.Sent.{SendsTicks, SendsAny, Hands, WritesCause};

use crate::{Output, Port};
use yasir_io::Failed;

/// Writes bytes to an output, and flushes it.
pub fn send<P: Port>(port: &mut P, to: Output, bytes: &[u8]) -> Result<(), Failed>
    ensures { SendsTicks P.Port port.old port.new to bytes.now result }
{
    match port.write(to, bytes) {
        Ok(()) => {}
        Err(Failed) => return Err(Failed),
    }
    match port.flush(to) {
        Ok(()) => Ok(()),
        Err(Failed) => Err(Failed),
    }
}

// Writes bytes to an output and flushes it, or does nothing if there are none.
fn send_any<P: Port>(port: &mut P, to: Output, bytes: &[u8]) -> Result<(), Failed>
    ensures { SendsAny P.Port port.old port.new to bytes.now result }
{
    if bytes.is_empty() {
        return Ok(());
    }
    send(port, to, bytes)
}

/// Hands on what is made of some ticks of a line: the lines of their notes, and then a text of the
/// ticks of the other line. Each is written and flushed, unless it is empty.
pub fn hand_on<P: Port>(port: &mut P, notes: &[u8], text: &[u8]) -> Result<(), Failed>
    /// If what is made of a line was written and flushed in order, the notes of these ticks and the
    /// text of the other line's ticks then are too. If a call failed, fronts of them were written,
    /// the notes first.
    ensures hands { (answer : List Tick) → IsTextOf text.now answer
        → Hands P.Port port.old port.new answer notes.now result }
    /// An output's count of faults rose if a call failed, and none did otherwise. Nothing was read.
    ensures cause { WritesCause P.Port port.old port.new result }
{
    if notes.is_empty() {
        return send_any(port, Output::Out, text);
    }
    match send(port, Output::Log, notes) {
        Ok(()) => {}
        Err(Failed) => return Err(Failed),
    }
    send_any(port, Output::Out, text)
}
