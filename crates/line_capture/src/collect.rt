//! The bytes of the ways that are taken of a capture, kept in memory.
ghost use Rattle.std.specs.Prelude.{◌≡◌, ℕ, ◌+◌, ◌<◌, ◌≤◌, [], ◌∷◌, ◌++◌, List, length, OnOk, IfOk};
ghost use Rattle.std.specs.Prelude.{true, false, Ok, None, IfSome, take};
ghost use Rattle.line_stamps.specs.declared.TheConstants.{MAX_BYTES};
ghost use Rattle.line_stamps.specs.declared.seen.Seen.{Seen};
ghost use Rattle.line_capture.specs.Captures.{HoldsItems, TakesItem, Collects, takes, is_error};
ghost use Rattle.line_capture.specs.Captures.{EndsSo, HoldsBefore, is_on, tells_of, without_wrong};
ghost use Rattle.line_capture.specs.Collecting.{Collecting, CollectsByte};

use crate::bad_capture::BadCapture;
use crate::reader::FormReader;
use crate::take::Taking;
use crate::words::Ways;
use line_stamps::{CaptureByte, LineEvent, Rate, Seen, Way};
use std::alloc::Global;
use yasir_io::NoMemory;

/// The events of an RTAC capture that are counted: a change of a control line, and a break.
const CONTROL_LINE: u8 = 0;

const BREAK: u8 = 9;

/// The events of a byte with an error: a framing error, and a parity error.
const FRAMING_ERROR: u8 = 7;

const PARITY_ERROR: u8 = 8;

/// How a capture ended.
#[derive(Clone, Copy, Debug, PartialEq, Eq)]
pub enum CaptureEnd {
    /// It is right.
    Whole,
    /// The input wasn't read to its end: more was to come.
    Open,
    /// It is refused.
    Bad(BadCapture),
}

/// The bytes of the ways that are taken, in the order of the capture, and how many breaks, changes
/// of control lines and other bytes it has. A count stops at 2^64 - 1.
#[derive(Drop)]
pub struct Kept {
    /// The bytes of way A, or none if it isn't taken.
    pub a: Vec<CaptureByte>,
    /// The bytes of way B, or none if it isn't taken.
    pub b: Vec<CaptureByte>,
    /// How many breaks there are.
    pub breaks: u64,
    /// How many changes of control lines there are.
    pub control_lines: u64,
    /// How many bytes go a way that isn't taken.
    pub others: u64,
}

/// What was kept of a capture, and how it ended.
#[derive(Drop)]
pub struct Collected {
    /// What was kept.
    pub kept: Kept,
    /// How the capture ended.
    pub end: CaptureEnd,
}

impl Ways {
    /// Whether a way is taken.
    pub(crate) fn takes(self, way: Way) -> bool
        ensures { result ≡ takes self way }
    {
        match (self, way) {
            (Ways::A, Way::A) | (Ways::B, Way::B) | (Ways::Both, _) => true,
            (Ways::A, Way::B) | (Ways::B, Way::A) => false,
        }
    }
}

// Adds a byte after the others.
fn push(list: &mut Vec<CaptureByte>, byte: CaptureByte) -> Result<(), NoMemory>
    ensures { OnOk result (list.new.items ≡ list.old.items ++ byte ∷ []) }
{
    match list.push(byte) {
        Ok(()) => Ok(()),
        Err(_) => Err(NoMemory),
    }
}

// Whether an event is on this way.
fn is_on(event: Option<Way>, way: Way) -> bool
    ensures { result ≡ is_on event way }
{
    match (event, way) {
        (Some(Way::A), Way::A) | (Some(Way::B), Way::B) => true,
        _ => false,
    }
}

// Whether an error that follows a byte belongs to it: it is on the way of the byte, and comes less
// than one character after the start of the byte.
fn tells_of(rate: Rate, error: LineEvent, byte: CaptureByte) -> bool
    ensures { result ≡ tells_of rate error byte }
{
    let gap = error.start.saturating_sub(byte.start);
    let parts = gap.saturating_mul(u64::from(rate.baud));
    is_on(error.way, byte.way) && parts < rate.character()
}

// Returns how many bytes are kept before an error: without the last one, if the error belongs to
// it.
fn right_len(bytes: &[CaptureByte], rate: Rate, error: LineEvent) -> usize
    ensures { take result bytes.now ≡ without_wrong (tells_of rate error) bytes.now }
{
    let len = bytes.len();
    if len == 0 {
        return 0;
    }
    if tells_of(rate, error, bytes[len - 1]) {
        len - 1
    } else {
        len
    }
}

// Removes the last byte, if an error belongs to it.
fn drop_wrong(list: &mut Vec<CaptureByte>, rate: Rate, error: LineEvent)
    ensures { list.new.items ≡ without_wrong (tells_of rate error) list.old.items }
{
    let len = right_len(list.as_slice(), rate, error);
    list.truncate(len);
}

impl Kept {
    /// Returns an object that keeps nothing yet.
    fn new(alloc: Global) -> Kept
        ensures { (ways : _) → HoldsItems ways result [] }
    {
        Kept {
            a: Vec::new(alloc),
            b: Vec::new(alloc),
            breaks: 0,
            control_lines: 0,
            others: 0,
        }
    }

    // Keeps a byte, if its way is taken, and otherwise counts it.
    fn keep(&mut self, ways: Ways, byte: CaptureByte) -> Result<(), NoMemory>
        ensures { OnOk result (TakesItem ways self.old self.new (Seen.Byte byte)) }
    {
        if !ways.takes(byte.way) {
            self.others = self.others.saturating_add(1);
            return Ok(());
        }
        match byte.way {
            Way::A => push(&mut self.a, byte),
            Way::B => push(&mut self.b, byte),
        }
    }

    // Counts an event that isn't an error.
    fn count(&mut self, event: LineEvent)
        ensures { (ways : _) → TakesItem ways self.old self.new (Seen.Event event) }
    {
        if event.event == BREAK {
            self.breaks = self.breaks.saturating_add(1);
        } else if event.event == CONTROL_LINE {
            self.control_lines = self.control_lines.saturating_add(1);
        }
    }

    /// Takes an item of the capture. An error of a byte isn't taken, but returned.
    fn take(&mut self, ways: Ways, seen: Seen) -> Result<Option<LineEvent>, NoMemory>
        ensures taken { IfOk result (λ error. error ≡ None
            → TakesItem ways self.old self.new seen) }
        ensures right { IfOk result (λ error. error ≡ None → is_error seen ≡ false) }
        ensures error { IfOk result (λ error. IfSome error (λ e. seen ≡ Seen.Event e)) }
        ensures wrong { IfOk result (λ error. IfSome error (λ e. is_error seen ≡ true)) }
        ensures same { IfOk result (λ error. IfSome error (λ e. self.new ≡ self.old)) }
    {
        match seen {
            Seen::Byte(byte) => {
                self.keep(ways, byte)?;
                Ok(None)
            }
            Seen::Event(event) => {
                if event.event == FRAMING_ERROR {
                    return Ok(Some(event));
                }
                if event.event == PARITY_ERROR {
                    return Ok(Some(event));
                }
                self.count(event);
                Ok(None)
            }
        }
    }

    // Removes the byte to which an error belongs, if errors follow their bytes.
    fn stop_at(&mut self, follows: bool, taking: Taking, error: LineEvent)
        ensures { (items : List Seen) → HoldsItems taking.ways self.old items
            → HoldsBefore follows taking self.new items error }
    {
        if follows {
            drop_wrong(&mut self.a, taking.rate, error);
            drop_wrong(&mut self.b, taking.rate, error);
        }
    }
}

// Takes the next byte of a file, with `place` bytes before it. Returns why it is refused, if it is.
fn collect_byte<F: FormReader>(
    reader: &mut F,
    kept: &mut Kept,
    taking: Taking,
    place: u64,
    b: u8,
) -> Result<Option<BadCapture>, NoMemory>
    requires { F.taken reader.old < MAX_BYTES }
    ensures collects { IfOk result (λ refusal. (file : List ℕ) → place ≡ length file
        → Collecting F.FormReader taking reader.old kept.old file
        → CollectsByte F.FormReader taking reader.new kept.new file b refusal) }
    ensures taken { result ≡ Ok None → F.taken reader.new ≡ F.taken reader.old + 1 }
{
    let seen = match reader.feed(b) {
        Ok(Some(seen)) => seen,
        Ok(None) => return Ok(None),
        Err(bad) => return Ok(Some(bad)),
    };
    match kept.take(taking.ways, seen) {
        Ok(None) => Ok(None),
        Ok(Some(error)) => {
            kept.stop_at(F::errors_follow(), taking, error);
            Ok(Some(BadCapture::ByteError { offset: place }))
        }
        Err(NoMemory) => Err(NoMemory),
    }
}

// Takes the end of a file.
fn end_of<F: FormReader>(reader: F) -> CaptureEnd
    ensures { (file : List ℕ) (items : List Seen) → F.stands reader file items
        → EndsSo F.format file items result }
{
    match reader.finish() {
        Ok(()) => CaptureEnd::Whole,
        Err(bad) => CaptureEnd::Bad(bad),
    }
}

/// Returns the bytes of the ways of a capture that are taken, up to the first one that is refused.
/// `whole` says that the file is the whole input.
pub fn collect<F: FormReader>(
    alloc: Global,
    taking: Taking,
    whole: bool,
    file: &[u8],
) -> Result<Collected, NoMemory>
    /// The file has at most 268,435,456 bytes.
    requires { length file.now ≤ 268435456 }
    ensures { IfOk result (λ collected. Collects F.format taking whole file.now collected.kept
        collected.end) }
{
    let mut kept = Kept::new(alloc);
    let mut reader = F::begin();
    let mut place: u64 = 0;
    for b in file {
        match collect_byte(&mut reader, &mut kept, taking, place, *b) {
            Ok(None) => place += 1,
            Ok(Some(bad)) => {
                let end = CaptureEnd::Bad(bad);
                return Ok(Collected { kept, end });
            }
            Err(NoMemory) => return Err(NoMemory),
        }
    }
    if !whole {
        let end = CaptureEnd::Open;
        return Ok(Collected { kept, end });
    }
    let end = end_of(reader);
    Ok(Collected { kept, end })
}
