//! The fault line of each status, and its way to the log.
ghost use Rattle.std.specs.Prelude.{◌≡◌, ◌≤◌, ◌++◌, length, codes};
ghost use Rattle.command_ends.specs.Statuses.{fault_line, fault_word, unit_word};
ghost use Rattle.command_ends.specs.Statuses.{read_fault_line, journal_fault_line};
ghost use Rattle.command_ends.specs.Reasons.{untold};
ghost use Rattle.command_ends.specs.Programs.{EndsLog};

use crate::reasons::refused_line;
use crate::text::{Line, push_decimal};
use crate::{Reasons, Status};
use tick_drive::TooMuch;
use yasir_io::{Reason, Sink, SlotBytes, write_all};
use yasir_ticks::{BadTicks, TickFault, push_digits};

fn fault_word(why: TickFault) -> &'static [u8]
    ensures word { result.now ≡ fault_word why }
    ensures short { length result.now ≤ 5 }
{
    match why {
        TickFault::Char => b"char",
        TickFault::Odd => b"odd",
        TickFault::Long => b"long",
        TickFault::Count => b"count",
        TickFault::Empty => b"empty",
        TickFault::Mark => b"mark",
    }
}

fn unit_word(what: TooMuch) -> &'static [u8]
    ensures word { result.now ≡ unit_word what }
    ensures short { length result.now ≡ 6 }
{
    match what {
        TooMuch::Ticks => b" ticks",
        TooMuch::Bytes => b" bytes",
    }
}

fn bad_ticks_line(bad: &BadTicks) -> Line
    ensures { result.items ≡ fault_line untold (Status.BadTicks bad.now) }
{
    let mut line = Line::new();
    line.try_extend_from_slice(b"fault: line ").unwrap();
    push_decimal(&mut line, u64::from(bad.line));
    line.push(b' ');
    line.try_extend_from_slice(fault_word(bad.why)).unwrap();
    line.push(b'\n');
    line
}

fn too_long_line(what: TooMuch, count: u64) -> Line
    ensures { result.items ≡ fault_line untold (Status.TooLong what count) }
{
    let mut line = Line::new();
    line.try_extend_from_slice(b"fault: too long ").unwrap();
    push_decimal(&mut line, count);
    line.try_extend_from_slice(unit_word(what)).unwrap();
    line.push(b'\n');
    line
}

fn has_journal_line(floor: u64) -> Line
    ensures { result.items ≡ fault_line untold (Status.HasJournal floor) }
{
    let mut line = Line::new();
    line.try_extend_from_slice(b"fault: journal stands at ")
        .unwrap();
    push_decimal(&mut line, floor);
    line.push(b'\n');
    line
}

fn bad_key_line(place: u32) -> Line
    ensures { result.items ≡ fault_line untold (Status.BadKey place) }
{
    let mut line = Line::new();
    line.try_extend_from_slice(b"fault: key at ").unwrap();
    push_decimal(&mut line, u64::from(place));
    line.push(b'\n');
    line
}

fn bad_journal_line(a: &SlotBytes, b: &SlotBytes) -> Line
    ensures { result.items ≡ fault_line untold (Status.BadJournal a.now b.now) }
{
    let mut line = Line::new();
    line.try_extend_from_slice(b"fault: bad journal ").unwrap();
    push_digits(&mut line, a);
    line.push(b' ');
    push_digits(&mut line, b);
    line.push(b'\n');
    line
}

fn wrong_link_line(slot: &SlotBytes) -> Line
    ensures { result.items ≡ fault_line untold (Status.WrongLink slot.now) }
{
    let mut line = Line::new();
    line.try_extend_from_slice(b"fault: wrong link ").unwrap();
    push_digits(&mut line, slot);
    line.push(b'\n');
    line
}

// Returns a line with a fixed text.
fn fixed_line(text: &[u8]) -> Line
    requires { length text.now ≤ 20 }
    ensures { result.items ≡ text.now }
{
    let mut line = Line::new();
    line.try_extend_from_slice(text).unwrap();
    line
}

// Returns the line of a read that failed.
fn read_fault_line(key: Option<Reason>, input: Option<Reason>) -> Line
    ensures { result.items ≡ read_fault_line key input }
{
    match (key, input) {
        (Some(why), _) => refused_line(b"fault: read key", b"not ready", why),
        (None, Some(why)) => refused_line(b"fault: read input", b"not ready", why),
        (None, None) => fixed_line(b"fault: read\n"),
    }
}

// Returns the line of a call on the journal that failed.
fn journal_fault_line(journal: Option<Reason>) -> Line
    ensures { result.items ≡ journal_fault_line journal }
{
    match journal {
        Some(why) => refused_line(b"fault: journal", b"held by another run", why),
        None => fixed_line(b"fault: journal\n"),
    }
}

/// Returns the fault line of a status, with its LF. It is empty for the statuses that have none. A
/// read or a call on the journal that failed is said with its reason, if one is told.
pub fn fault_line(reasons: &Reasons, status: &Status) -> Line
    /// It is the line of the status, with the reasons that are told.
    ensures { result.items ≡ fault_line reasons.now status.now }
{
    match status {
        Status::Done | Status::WriteFault | Status::Unclean(_) => Line::new(),
        Status::Usage => fixed_line(b"fault: usage\n"),
        Status::ReadFault => read_fault_line(reasons.key, reasons.input),
        Status::JournalFault => journal_fault_line(reasons.journal),
        Status::NoMemory => fixed_line(b"fault: memory\n"),
        Status::BadTicks(bad) => bad_ticks_line(bad),
        Status::TooLong { what, count } => too_long_line(*what, *count),
        Status::HasJournal { floor } => has_journal_line(*floor),
        Status::BadKey { place } => bad_key_line(*place),
        Status::BadJournal { a, b } => bad_journal_line(a, b),
        Status::WrongLink { slot } => wrong_link_line(slot),
    }
}

/// Writes the fault line of a run to the log, if it isn't empty. A failure of this write changes
/// nothing.
pub fn write_fault_line<L: Sink>(log: &mut L, line: &[u8])
    /// The log has got the line, or a front of it if this write failed, and its count of faults
    /// never falls. If there is no line, the log is as it was.
    ensures ends { EndsLog L.Sink log.old log.new line.now }
    /// No flush of the log is counted.
    ensures flushes { L.flushes log.new ≡ L.flushes log.old }
{
    if line.is_empty() {
        return;
    }
    let _ = write_all(log, line);
}
