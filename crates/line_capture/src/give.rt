//! The command `give`: tick text as a capture.
ghost use Rattle.std.specs.Prelude.{◌≡◌, ◌≤◌, length, IfOk};
ghost use Rattle.yasir_io.specs.Causes.{Rose};
ghost use Rattle.capture_text.specs.Dump.{dump_text, wires_for};
ghost use Rattle.tick_drive.specs.Input.{max_bytes, max_ticks};
ghost use Rattle.command_ends.specs.Causes.{SinkCause};
ghost use Rattle.command_ends.specs.Flushes.{FlushesAtEnd};
ghost use Rattle.command_ends.specs.declared.status.Status.{Status};
ghost use Rattle.line_capture.specs.Gives.{has_mark, marks_for, IsGiven, GivesCapture, GivesFile, GivesRead};
ghost use Rattle.line_capture.specs.Gives.{end_status};
ghost use Rattle.line_capture.specs.Inputs.{told};
ghost use Rattle.line_capture.specs.Outcomes.{status_in};
ghost use Rattle.line_capture.specs.Takes.{held};
ghost use Rattle.line_capture.specs.declared.outcome.Outcome.{Outcome};
ghost use Rattle.line_capture.specs.declared.input.ReadEnd.{ReadEnd};

use crate::input::{Input, ReadEnd, read_input};
use crate::outcome::Outcome;
use crate::records::{RecordForm, recorded};
use crate::take::read_outcome;
use crate::words::GiveForm;
use capture_text::dump;
use command_ends::{Status, print_text};
use line_stamps::Rate;
use session_lists::list_ticks;
use std::alloc::Global;
use tick_drive::End;
use yasir_io::{NoMemory, Sink, Source, SteadySource};
use yasir_ticks::Tick;

/// How a capture is given.
#[derive(Clone, Copy, Debug, PartialEq, Eq)]
pub struct Giving {
    /// The form of the capture.
    pub form: GiveForm,
    /// The rate of its line.
    pub rate: Rate,
}

// Whether a `%` begins a line of the text.
fn has_mark(text: &[u8]) -> bool
    ensures { result ≡ has_mark text.now }
{
    let mut before = b'\n';
    for b in text {
        if before == b'\n' && *b == b'%' {
            return true;
        }
        before = *b;
    }
    false
}

// Returns how many marks a tick text must have to be given.
fn marks_for(form: GiveForm, text: &[u8]) -> u8
    ensures { result ≡ marks_for form text.now }
{
    match form {
        GiveForm::Pcap => { if has_mark(text) { 1 } else { 0 } }
        GiveForm::Text => 0,
        GiveForm::Vcd => { if has_mark(text) { 1 } else { 0 } }
    }
}

// Returns the dump of two lines.
fn dumped(alloc: Global, rate: Rate, a: &[Tick], b: &[Tick]) -> Result<Vec<u8>, NoMemory>
    requires a { length a.now ≤ max_ticks }
    requires b { length b.now ≤ max_ticks }
    ensures { IfOk result (λ text. text.items ≡ dump_text rate (wires_for b.now) a.now b.now) }
{
    match dump(alloc, rate, a, b) {
        Ok(text) => Ok(text),
        Err(_) => Err(NoMemory),
    }
}

// Returns the capture of two lines.
fn given(alloc: Global, giving: Giving, a: &[Tick], b: &[Tick]) -> Result<Vec<u8>, NoMemory>
    requires a { length a.now ≤ max_ticks }
    requires b { length b.now ≤ max_ticks }
    ensures { IfOk result (λ text. IsGiven giving.form giving.rate a.now b.now text.items) }
{
    match giving.form {
        GiveForm::Pcap => recorded(alloc, RecordForm::Pcap, giving.rate, a, b),
        GiveForm::Text => recorded(alloc, RecordForm::Text, giving.rate, a, b),
        GiveForm::Vcd => dumped(alloc, giving.rate, a, b),
    }
}

// Returns the status of a run whose tick text wasn't taken.
fn end_status(end: End) -> Status
    ensures { result ≡ end_status end }
{
    match end {
        End::Whole => Status::Done,
        End::Refused(bad) => Status::BadTicks(bad),
        End::TooLong { what, count } => Status::TooLong { what, count },
        End::ReadFault => Status::ReadFault,
        End::Stopped(_) => Status::NoMemory,
    }
}

// Gives a tick text that was read to its end.
fn give_file<O: Sink, L: Sink>(
    alloc: Global,
    giving: Giving,
    file: &[u8],
    out: &mut O,
    log: &mut L,
) -> Outcome
    ensures gives { GivesFile giving.form giving.rate file.now
        (held (O.held out.old) (L.held log.old)) (held (O.held out.new) (L.held log.new)) result }
    ensures sinks { SinkCause (O.faults out.old) (O.faults out.new) (L.faults log.old)
        (L.faults log.new) (status_in result) }
    ensures flushes { FlushesAtEnd O.Sink L.Sink out.old out.new log.old log.new (status_in result) }
    ensures read { result ≡ Outcome.Ended Status.ReadFault → ⊥ }
{
    let marks = marks_for(giving.form, file);
    let lists = match list_ticks(alloc, marks, &mut SteadySource::new(file)) {
        Ok(lists) => lists,
        Err(end) => return Outcome::Ended(end_status(end)),
    };
    let text = match given(alloc, giving, lists.first(), lists.second()) {
        Ok(text) => text,
        Err(NoMemory) => return Outcome::Ended(Status::NoMemory),
    };
    Outcome::Ended(print_text(text.as_slice(), out, log))
}

// Gives what was read of an input.
fn give_read<O: Sink, L: Sink>(
    alloc: Global,
    giving: Giving,
    read: &Input,
    out: &mut O,
    log: &mut L,
) -> Outcome
    ensures gives { GivesRead giving.form giving.rate read.now.end read.now.bytes.items
        (held (O.held out.old) (L.held log.old)) (held (O.held out.new) (L.held log.new)) result }
    ensures sinks { SinkCause (O.faults out.old) (O.faults out.new) (L.faults log.old)
        (L.faults log.new) (status_in result) }
    ensures flushes { FlushesAtEnd O.Sink L.Sink out.old out.new log.old log.new (status_in result) }
    ensures read { result ≡ Outcome.Ended Status.ReadFault → read.now.end ≡ ReadEnd.Failed }
{
    match read.end {
        ReadEnd::Whole => give_file(alloc, giving, read.bytes.as_slice(), out, log),
        ReadEnd::Failed => read_outcome(ReadEnd::Failed),
        ReadEnd::TooLong => read_outcome(ReadEnd::TooLong),
    }
}

/// Writes the capture of a tick text to `out`: all of it, or nothing if the text isn't right.
/// Nothing goes to the log. Memory is taken for the input, for its ticks and for the capture, each
/// up to three times as much while it grows. If there is no memory, nothing is written.
pub fn give<S: Source, O: Sink, L: Sink>(
    alloc: Global,
    giving: Giving,
    input: &mut S,
    out: &mut O,
    log: &mut L,
) -> Outcome
    /// What was read of the input was given as a capture or refused, as the outcome says; or the
    /// outcome is that there was no memory, and then nothing was written.
    ensures gives { GivesCapture giving.form giving.rate (told (S.left input.old) (S.faults input.old))
        (told (S.left input.new) (S.faults input.new))
        (held (O.held out.old) (L.held log.old)) (held (O.held out.new) (L.held log.new)) result }
    /// If the outcome is a failed write, a count of a sink's faults rose. If it is done, neither
    /// count changed.
    ensures sinks { SinkCause (O.faults out.old) (O.faults out.new) (L.faults log.old)
        (L.faults log.new) (status_in result) }
    /// Both sinks were flushed, after all that was written, if the outcome is done. If it is a
    /// failed write, at most `out` was, and otherwise neither.
    ensures flushes { FlushesAtEnd O.Sink L.Sink out.old out.new log.old log.new (status_in result) }
    /// The input's count of faults never falls.
    ensures input { S.faults input.old ≤ S.faults input.new }
    /// If the outcome is a failed read, the input's count of faults rose.
    ensures read_failed { result ≡ Outcome.Ended Status.ReadFault
        → Rose (S.faults input.old) (S.faults input.new) }
{
    let read = match read_input(alloc, input) {
        Ok(read) => read,
        Err(NoMemory) => return Outcome::Ended(Status::NoMemory),
    };
    give_read(alloc, giving, &read, out, log)
}
