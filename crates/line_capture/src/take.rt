//! The command `take`: a capture as tick text.
ghost use Rattle.std.specs.Prelude.{◌≡◌, ◌≤◌, length, false, OnOk, OnErr};
ghost use Rattle.std.specs.Io.KnownBytes.{append_known};
ghost use Rattle.yasir_io.specs.Causes.{HasCause, Rose};
ghost use Rattle.yasir_io.specs.Output.{GotPrefix};
ghost use Rattle.yasir_io.specs.Flushed.{NoneFlushed};
ghost use Rattle.line_texts.specs.Sending.{HaveCause};
ghost use Rattle.tick_drive.specs.Input.{max_bytes};
ghost use Rattle.command_ends.specs.Causes.{SinkCause};
ghost use Rattle.command_ends.specs.Flushes.{FlushesAtEnd};
ghost use Rattle.command_ends.specs.declared.status.Status.{Status};
ghost use Rattle.line_capture.specs.Inputs.{told};
ghost use Rattle.line_capture.specs.Outcomes.{status_in};
ghost use Rattle.line_capture.specs.Takes.{WritesLines, origin_of, line_outcome, read_outcome};
ghost use Rattle.line_capture.specs.Takes.{outcome_of, counts_line, held, WritesTaken, TakesRead};
ghost use Rattle.line_capture.specs.Takes.{TakesCapture, is_capture_write_fault, is_done, is_verdict, HasOutcome};
ghost use Rattle.line_capture.specs.Takes.{mark_of, timing_for};
ghost use Rattle.line_capture.specs.Takes.{way_counts, empty_line, empty_warning, taken_lines};
ghost use Rattle.line_capture.specs.Takes.{is_whole_capture};
ghost use Rattle.line_capture.specs.declared.outcome.Outcome.{Outcome};

use crate::bad_capture::BadCapture;
use crate::collect::{CaptureEnd, Collected, Kept, collect};
use crate::distances::{Distances, count_distances};
use crate::input::{Input, ReadEnd, read_input};
use crate::outcome::Outcome;
use crate::placing::{LineEnd, LineStop, count_overlaps, write_line};
use crate::reader::FormReader;
use crate::words::Ways;
use command_ends::{Line, Status, flush_both, push_decimal};
use line_stamps::{CaptureByte, Rate, Spacing, Timing, Way};
use std::alloc::Global;
use tick_drive::TooMuch;
use yasir_io::{Failed, NoMemory, Sink, Source, write_all};

/// One more than the most bytes that are read of an input.
const TOO_MANY_BYTES: u64 = 268_435_457;

/// How a capture is taken.
#[derive(Clone, Copy, Debug, PartialEq, Eq)]
pub struct Taking {
    /// The rate of the line.
    pub rate: Rate,
    /// The ways that are taken.
    pub ways: Ways,
    /// How the silence between records is found.
    pub spacing: Spacing,
}

// Returns the time of the first byte of either way, or 0 if there is none.
fn origin(a: &[CaptureByte], b: &[CaptureByte]) -> u64
    ensures { result ≡ origin_of a.now b.now }
{
    match (a, b) {
        ([], []) => 0,
        ([first, ..], []) => first.start,
        ([], [first, ..]) => first.start,
        ([first, ..], [other, ..]) => first.start.min(other.start),
    }
}

// Returns how the bytes that are kept are placed.
fn timing_for(taking: Taking, kept: &Kept) -> Timing
    ensures { result ≡ timing_for taking kept.now }
{
    Timing {
        rate: taking.rate,
        spacing: taking.spacing,
        origin: origin(&kept.a, &kept.b),
    }
}

// Writes the mark between two lists, if both ways are taken.
fn write_mark<O: Sink>(ways: Ways, out: &mut O) -> Result<(), Failed>
    ensures ok { OnOk result (O.held out.new ≡ append_known (O.held out.old) (mark_of ways)) }
    ensures err { OnErr result (GotPrefix (O.held out.old) (O.held out.new) (mark_of ways)) }
    ensures cause { HasCause (O.faults out.old) (O.faults out.new) result }
    ensures flushes { O.flushes out.new ≡ O.flushes out.old }
{
    match ways {
        Ways::Both => write_all(out, b"%\n"),
        Ways::A => write_all(out, b""),
        Ways::B => write_all(out, b""),
    }
}

// Writes the lines of both ways, with a mark between them if both are taken.
fn write_lines<O: Sink, L: Sink>(
    timing: Timing,
    ways: Ways,
    kept: &Kept,
    out: &mut O,
    log: &mut L,
) -> Result<(LineEnd, LineEnd), Failed>
    ensures lines { WritesLines timing ways kept.now (O.held out.old) (O.held out.new) result }
    ensures log { L.held log.new ≡ L.held log.old }
    ensures cause { HaveCause (O.faults out.old) (O.faults out.new) (L.faults log.old)
        (L.faults log.new) result }
    ensures flushes { NoneFlushed O.Sink L.Sink out.old out.new log.old log.new }
{
    let first = kept.a.as_slice();
    let second = kept.b.as_slice();
    let a = match write_line(timing, first, out, log) {
        Ok(a) => a,
        Err(Failed) => return Err(Failed),
    };
    match write_mark(ways, out) {
        Ok(()) => {}
        Err(Failed) => return Err(Failed),
    }
    match write_line(timing, second, out, log) {
        Ok(b) => Ok((a, b)),
        Err(Failed) => Err(Failed),
    }
}

// Returns the outcome of a line that stopped before a byte, or `None` if all its bytes were placed.
fn line_outcome(way: Way, end: LineEnd) -> Option<Outcome>
    ensures { result ≡ line_outcome way end }
{
    match end.stop {
        LineStop::AllPlaced => None,
        LineStop::Unplaced(why) => Some(Outcome::Unplaced {
            way,
            place: end.placed,
            why,
        }),
        LineStop::TooLong(count) => Some(Outcome::Ended(Status::TooLong {
            what: TooMuch::Ticks,
            count,
        })),
    }
}

/// Returns how a run ends if all that was read of its input was taken.
pub fn read_outcome(read: ReadEnd) -> Outcome
    ensures { result ≡ read_outcome read }
{
    match read {
        ReadEnd::Whole => Outcome::Ended(Status::Done),
        ReadEnd::Failed => Outcome::Ended(Status::ReadFault),
        ReadEnd::TooLong => Outcome::Ended(Status::TooLong {
            what: TooMuch::Bytes,
            count: TOO_MANY_BYTES,
        }),
    }
}

// Returns how a run ends: a refusal of the capture itself comes first, then one of a byte of way A,
// and then one of a byte of way B.
fn outcome_of(read: ReadEnd, end: CaptureEnd, a: LineEnd, b: LineEnd) -> Outcome
    ensures { result ≡ outcome_of read end a b }
{
    if let CaptureEnd::Bad(bad) = end {
        return Outcome::BadCapture(bad);
    }
    if let Some(outcome) = line_outcome(Way::A, a) {
        return outcome;
    }
    if let Some(outcome) = line_outcome(Way::B, b) {
        return outcome;
    }
    read_outcome(read)
}

// Returns the line with what was counted.
fn counts_line(overlaps: u64, end: CaptureEnd, kept: &Kept) -> Line
    ensures line { result.items ≡ counts_line overlaps end kept.now }
    ensures short { length result.items ≤ 140 }
{
    let mut line = Line::new();
    line.try_extend_from_slice(b"counted: overlaps ").unwrap();
    push_decimal(&mut line, overlaps);
    line.try_extend_from_slice(b", errors ").unwrap();
    match end {
        CaptureEnd::Bad(BadCapture::ByteError { .. }) => line.push(b'1'),
        _ => line.push(b'0'),
    }
    line.try_extend_from_slice(b", breaks ").unwrap();
    push_decimal(&mut line, kept.breaks);
    line.try_extend_from_slice(b", control lines ").unwrap();
    push_decimal(&mut line, kept.control_lines);
    line.push(b'\n');
    line
}

// Returns how many bytes of a capture go way A and way B.
fn way_counts(ways: Ways, kept: &Kept) -> (u64, u64)
    ensures { result ≡ way_counts ways kept.now }
{
    let a = kept.a.len() as u64;
    let b = kept.b.len() as u64;
    match ways {
        Ways::A => (a, kept.others),
        Ways::B => (kept.others, b),
        Ways::Both => (a, b),
    }
}

// Returns the line that warns of a way without a byte.
fn empty_line(way: &[u8], counts: (u64, u64)) -> Line
    requires { length way.now ≤ 1 }
    ensures line { result.items ≡ empty_line way.now counts }
    ensures short { length result.items ≤ 100 }
{
    let mut line = Line::new();
    line.try_extend_from_slice(b"warning: no byte on way ")
        .unwrap();
    line.try_extend_from_slice(way).unwrap();
    line.try_extend_from_slice(b": way a has ").unwrap();
    push_decimal(&mut line, counts.0);
    line.try_extend_from_slice(b", way b ").unwrap();
    push_decimal(&mut line, counts.1);
    line.push(b'\n');
    line
}

// Returns the warning of a way with this many bytes, if it is taken and has none.
fn empty_warning(taken: bool, way: &[u8], own: usize, counts: (u64, u64)) -> Line
    requires { length way.now ≤ 1 }
    ensures warning { result.items ≡ empty_warning taken way.now own counts }
    ensures short { length result.items ≤ 100 }
{
    if taken && own == 0 {
        return empty_line(way, counts);
    }
    Line::new()
}

// Returns the lines with what was counted, how far apart bytes are, and the warnings of ways that
// have no byte.
fn taken_lines(ways: Ways, overlaps: u64, found: &Distances, end: CaptureEnd, kept: &Kept) -> Line
    ensures { result.items ≡ taken_lines ways overlaps found.now end kept.now }
{
    let counts = way_counts(ways, kept);
    let a = empty_warning(ways.takes(Way::A), b"a", kept.a.len(), counts);
    let b = empty_warning(ways.takes(Way::B), b"b", kept.b.len(), counts);
    let apart = found.lines();
    let mut lines = counts_line(overlaps, end, kept);
    lines.try_extend_from_slice(apart.as_slice()).unwrap();
    lines.try_extend_from_slice(a.as_slice()).unwrap();
    lines.try_extend_from_slice(b.as_slice()).unwrap();
    lines
}

fn is_done(outcome: &Outcome) -> bool
    ensures { result ≡ is_done outcome.now }
{
    matches!(outcome, Outcome::Ended(Status::Done))
}

// Ends a run whose lines were written. If it is done, both sinks are flushed first.
fn end_run<O: Sink, L: Sink>(outcome: Outcome, out: &mut O, log: &mut L) -> Outcome
    requires no_fault { is_capture_write_fault outcome ≡ false }
    requires no_verdict { is_verdict outcome ≡ false }
    ensures outcome { HasOutcome outcome result }
    ensures out { O.held out.new ≡ O.held out.old }
    ensures log { L.held log.new ≡ L.held log.old }
    ensures sinks { SinkCause (O.faults out.old) (O.faults out.new) (L.faults log.old)
        (L.faults log.new) (status_in result) }
    ensures flushes { FlushesAtEnd O.Sink L.Sink out.old out.new log.old log.new (status_in result) }
{
    if is_done(&outcome) {
        return Outcome::Ended(flush_both(out, log));
    }
    outcome
}

// Writes what was kept of a capture, and what was counted.
fn write_taken<O: Sink, L: Sink>(
    taking: Taking,
    read: ReadEnd,
    collected: &Collected,
    out: &mut O,
    log: &mut L,
) -> Outcome
    ensures writes { WritesTaken taking collected.now.kept read collected.now.end
        (held (O.held out.old) (L.held log.old)) (held (O.held out.new) (L.held log.new)) result }
    ensures sinks { SinkCause (O.faults out.old) (O.faults out.new) (L.faults log.old)
        (L.faults log.new) (status_in result) }
    ensures flushes { FlushesAtEnd O.Sink L.Sink out.old out.new log.old log.new (status_in result) }
{
    let kept = &collected.kept;
    let timing = timing_for(taking, kept);
    let first = kept.a.as_slice();
    let second = kept.b.as_slice();
    let (a, b) = match write_lines(timing, taking.ways, kept, out, log) {
        Ok(ends) => ends,
        Err(Failed) => return Outcome::Ended(Status::WriteFault),
    };
    let overlaps_a = count_overlaps(timing, first);
    let overlaps_b = count_overlaps(timing, second);
    let overlaps = overlaps_a.saturating_add(overlaps_b);
    let a_found = count_distances(timing, first);
    let b_found = count_distances(timing, second);
    let found = a_found.with(&b_found);
    let lines = taken_lines(taking.ways, overlaps, &found, collected.end, kept);
    match write_all(log, lines.as_slice()) {
        Ok(()) => {}
        Err(Failed) => return Outcome::Ended(Status::WriteFault),
    }
    end_run(outcome_of(read, collected.end, a, b), out, log)
}

// Whether an input was read to its end.
fn is_whole(read: ReadEnd) -> bool
    ensures { result ≡ is_whole_capture read }
{
    match read {
        ReadEnd::Whole => true,
        ReadEnd::Failed => false,
        ReadEnd::TooLong => false,
    }
}

// Takes what was read of an input.
fn take_read<F: FormReader, O: Sink, L: Sink>(
    alloc: Global,
    taking: Taking,
    read: &Input,
    out: &mut O,
    log: &mut L,
) -> Outcome
    requires { length read.now.bytes.items ≤ max_bytes }
    ensures takes { TakesRead F.format taking read.now.end read.now.bytes.items
        (held (O.held out.old) (L.held log.old)) (held (O.held out.new) (L.held log.new)) result }
    ensures sinks { SinkCause (O.faults out.old) (O.faults out.new) (L.faults log.old)
        (L.faults log.new) (status_in result) }
    ensures flushes { FlushesAtEnd O.Sink L.Sink out.old out.new log.old log.new (status_in result) }
{
    let whole = is_whole(read.end);
    let file = read.bytes.as_slice();
    let collected = match collect::<F>(alloc, taking, whole, file) {
        Ok(collected) => collected,
        Err(NoMemory) => return Outcome::Ended(Status::NoMemory),
    };
    write_taken(taking, read.end, &collected, out, log)
}

/// Writes the tick text of a capture: the lines of the ways that are taken go to `out`, and what
/// was counted goes to the log. A refusal ends the lines at its place. Memory is taken for the
/// input, and 16 bytes for each byte of the ways that are taken, each up to three times as much
/// while it grows. If there is no memory, nothing is written.
pub fn take<F: FormReader, S: Source, O: Sink, L: Sink>(
    alloc: Global,
    taking: Taking,
    input: &mut S,
    out: &mut O,
    log: &mut L,
) -> Outcome
    /// What was read of the input was taken as lines and counts, or refused, as the outcome says;
    /// or the outcome is that there was no memory, and then nothing was written.
    ensures takes { TakesCapture F.format taking (told (S.left input.old) (S.faults input.old))
        (told (S.left input.new) (S.faults input.new))
        (held (O.held out.old) (L.held log.old)) (held (O.held out.new) (L.held log.new)) result }
    /// If the outcome is a failed write, a count of a sink's faults rose. If it is done, neither
    /// count changed.
    ensures sinks { SinkCause (O.faults out.old) (O.faults out.new) (L.faults log.old)
        (L.faults log.new) (status_in result) }
    /// Both sinks were flushed, after all that was written, if the outcome is done. If it is a
    /// failed write, at most `out` was, and otherwise neither.
    ensures flushes { FlushesAtEnd O.Sink L.Sink out.old out.new log.old log.new (status_in result) }
    /// The input's count of faults never falls.
    ensures input { S.faults input.old ≤ S.faults input.new }
    /// If the outcome is a failed read, the input's count of faults rose.
    ensures read_failed { result ≡ Outcome.Ended Status.ReadFault
        → Rose (S.faults input.old) (S.faults input.new) }
{
    let read = match read_input(alloc, input) {
        Ok(read) => read,
        Err(NoMemory) => return Outcome::Ended(Status::NoMemory),
    };
    take_read::<F, O, L>(alloc, taking, &read, out, log)
}
