//! The bytes of a way, written to the output as ticks.
ghost use Rattle.std.specs.Prelude.{◌≡◌, ◌∷◌, [], ◌++◌, List};
ghost use Rattle.yasir_io.specs.Flushed.{NoneFlushed};
ghost use Rattle.yasir_ticks.specs.Ticks.{silent};
ghost use Rattle.yasir_ticks.specs.declared.tick.Tick.TheVariants.{Byte};
ghost use Rattle.yasir_ticks.specs.TickRun.{run_ticks};
ghost use Rattle.line_texts.specs.Adding.{TextHasRoom, IsShort};
ghost use Rattle.line_texts.specs.Sending.{HaveCause};
ghost use Rattle.line_texts.specs.Texts.{writing};
ghost use Rattle.line_stamps.specs.declared.capture.CaptureByte.{CaptureByte};
ghost use Rattle.line_stamps.specs.Placing.{PlacingHasTaken};
ghost use Rattle.line_capture.specs.Placed.{PushesLine, PlacesBytes, PlacesNext, WritesLine};
ghost use Rattle.line_capture.specs.Placed.{CountsOverlaps, CountsNext};

use line_stamps::{CaptureByte, Placer, Timing, Unplaced};
use line_texts::Texts;
use yasir_io::{Failed, Sink};
use yasir_ticks::TickRun;

/// The most ticks of a line that are written, as many as `link_replay` takes.
pub const MAX_LINE_TICKS: u64 = 16_777_216;

// The most silent ticks that are added at once.
const MOST_SILENCE: u32 = 999_999;

/// Why no more bytes of a way are placed.
#[derive(Clone, Copy, Debug, PartialEq, Eq)]
pub enum LineStop {
    /// All bytes are placed.
    AllPlaced,
    /// The next byte can't be placed.
    Unplaced(Unplaced),
    /// The line would have this many ticks with the next byte, more than are written.
    TooLong(u64),
}

/// How far the bytes of a way were placed.
#[derive(Clone, Copy, Debug, PartialEq, Eq)]
pub struct LineEnd {
    /// How many bytes were placed.
    pub placed: u64,
    /// Why no more were placed.
    pub stop: LineStop,
}

// Adds the ticks of a short run. If the room for the texts is full then, all that waits is written.
#[inline(always)]
fn push_short<O: Sink, L: Sink>(
    texts: &mut Texts,
    out: &mut O,
    log: &mut L,
    run: TickRun<'_>,
) -> Result<(), Failed>
    requires room { TextHasRoom texts.old }
    requires short { IsShort (run_ticks run) }
    ensures { PushesLine O.Sink L.Sink (writing texts.old out.old log.old)
        (writing texts.new out.new log.new) (run_ticks run.entry) result }
{
    texts.add_run(run);
    if texts.has_room() {
        return Ok(());
    }
    texts.hand_out(out, log)
}

// Adds silent ticks.
#[inline]
fn push_silence<O: Sink, L: Sink>(
    texts: &mut Texts,
    out: &mut O,
    log: &mut L,
    silence: u32,
) -> Result<(), Failed>
    requires { TextHasRoom texts.old }
    ensures { PushesLine O.Sink L.Sink (writing texts.old out.old log.old)
        (writing texts.new out.new log.new) (silent silence) result }
{
    let mut left = silence;
    while left > 0 {
        let part = left.min(MOST_SILENCE);
        match push_short(texts, out, log, TickRun::Silence(part)) {
            Ok(()) => left -= part,
            Err(Failed) => return Err(Failed),
        }
    }
    Ok(())
}

// Adds silent ticks, and a byte after them.
#[inline]
fn push_byte<O: Sink, L: Sink>(
    texts: &mut Texts,
    out: &mut O,
    log: &mut L,
    silence: u32,
    byte: u8,
) -> Result<(), Failed>
    requires { TextHasRoom texts.old }
    ensures { PushesLine O.Sink L.Sink (writing texts.old out.old log.old)
        (writing texts.new out.new log.new) (silent silence ++ Byte byte ∷ []) result }
{
    match push_silence(texts, out, log, silence) {
        Ok(()) => {}
        Err(Failed) => return Err(Failed),
    }
    push_short(texts, out, log, TickRun::Bytes(&[byte]))
}

// Places the next byte, and adds it and the silence before it to the text.
#[inline]
fn place_next<O: Sink, L: Sink>(
    placer: &mut Placer,
    byte: CaptureByte,
    texts: &mut Texts,
    out: &mut O,
    log: &mut L,
) -> Result<LineStop, Failed>
    requires taken { (cs : List CaptureByte) × PlacingHasTaken placer.old cs }
    requires room { TextHasRoom texts.old }
    ensures { (cs : List CaptureByte) → PlacingHasTaken placer.old cs
        → PlacesNext O.Sink L.Sink placer.old placer.new cs byte (writing texts.old out.old log.old)
        (writing texts.new out.new log.new) result }
{
    let silence = match placer.place(byte) {
        Ok(silence) => silence,
        Err(why) => return Ok(LineStop::Unplaced(why)),
    };
    let ticks = placer.ticks();
    if ticks > MAX_LINE_TICKS {
        return Ok(LineStop::TooLong(ticks));
    }
    match push_byte(texts, out, log, silence as u32, byte.byte) {
        Ok(()) => Ok(LineStop::AllPlaced),
        Err(Failed) => Err(Failed),
    }
}

// Places the bytes of a way, up to the first one that isn't placed.
fn place_bytes<O: Sink, L: Sink>(
    timing: Timing,
    bytes: &[CaptureByte],
    texts: &mut Texts,
    out: &mut O,
    log: &mut L,
) -> Result<LineEnd, Failed>
    requires { TextHasRoom texts.old }
    ensures { PlacesBytes O.Sink L.Sink timing bytes.now (writing texts.old out.old log.old)
        (writing texts.new out.new log.new) result }
{
    let mut placer = Placer::new(timing);
    let mut placed: u64 = 0;
    for byte in bytes {
        match place_next(&mut placer, *byte, texts, out, log) {
            Ok(LineStop::AllPlaced) => placed += 1,
            Ok(LineStop::Unplaced(why)) => {
                let stop = LineStop::Unplaced(why);
                return Ok(LineEnd { placed, stop });
            }
            Ok(LineStop::TooLong(count)) => {
                let stop = LineStop::TooLong(count);
                return Ok(LineEnd { placed, stop });
            }
            Err(Failed) => return Err(Failed),
        }
    }
    let stop = LineStop::AllPlaced;
    Ok(LineEnd { placed, stop })
}

/// Writes the bytes of a way as the tick text of their line, up to the first byte that isn't
/// placed.
pub fn write_line<O: Sink, L: Sink>(
    timing: Timing,
    bytes: &[CaptureByte],
    out: &mut O,
    log: &mut L,
) -> Result<LineEnd, Failed>
    /// `out` has got the canonical text of the way's line, up to the first byte that isn't placed,
    /// and the end says how many bytes overlap and why the line stopped. After a failed write it
    /// has got a front of the text of some first ticks.
    ensures line { WritesLine timing bytes.now (O.held out.old) (O.held out.new) result }
    /// The log is as it was.
    ensures log { L.held log.new ≡ L.held log.old }
    /// A write fails only if a count of the sinks' faults rose. Neither count ever falls, and if no
    /// write fails both are as they were.
    ensures cause { HaveCause (O.faults out.old) (O.faults out.new) (L.faults log.old)
        (L.faults log.new) result }
    /// Neither sink is flushed.
    ensures flushes { NoneFlushed O.Sink L.Sink out.old out.new log.old log.new }
{
    let mut texts = Texts::new();
    let end = match place_bytes(timing, bytes, &mut texts, out, log) {
        Ok(end) => end,
        Err(Failed) => return Err(Failed),
    };
    match texts.finish(out, log) {
        Ok(()) => Ok(end),
        Err(Failed) => Err(Failed),
    }
}

// Takes the next byte, so that it is counted if it overlaps the one before it. Returns whether it
// is neither early nor late.
pub(crate) fn count_next(placer: &mut Placer, byte: CaptureByte) -> bool
    ensures { (cs : List CaptureByte) → PlacingHasTaken placer.old cs
        → CountsNext placer.old placer.new cs byte result }
{
    match placer.place(byte) {
        Ok(_) => true,
        Err(Unplaced::Overlap) => true,
        Err(Unplaced::Early) => false,
        Err(Unplaced::Late) => false,
    }
}

/// Returns how many bytes of a way overlap the one before them, up to the first one that is early
/// or late. The count stops at 2^64 - 1.
pub fn count_overlaps(timing: Timing, bytes: &[CaptureByte]) -> u64
    ensures { CountsOverlaps timing bytes.now result }
{
    let mut placer = Placer::new(timing);
    for byte in bytes {
        if !count_next(&mut placer, *byte) {
            return placer.overlaps();
        }
    }
    placer.overlaps()
}
