//! Tests of texts that are written, by known ones, and of how often a sink is written to.
ghost use Rattle.std.specs.Prelude.{◌≡◌, true};
ghost use Rattle.line_texts.specs.Adding.{TextHasRoom};

use line_texts::{Texts, answer_run, short_front};
use std::alloc::Global;
use std::test::Fail;
use yasir_io::{Failed, MemSink, Plan, Sink};
use yasir_ticks::TickRun;

/// Forty bytes of 7. `LINES_OF_SEVENS` is their text, which has two lines.
const SEVENS: [u8; 40] = [7; 40];

const LINES_OF_SEVENS: &[u8] =
    b"+0707070707070707070707070707070707070707070707070707070707070707\n+0707070707070707\n";

// Whether there is room for a run, once what waits is handed out if there was none.
fn has_made_room<O: Sink, L: Sink>(texts: &mut Texts, out: &mut O, log: &mut L) -> bool
    ensures { result ≡ true → TextHasRoom texts.new }
{
    if texts.has_room() {
        return true;
    }
    match texts.hand_out(out, log) {
        Ok(()) => true,
        Err(Failed) => false,
    }
}

// Whether a text of these short runs is written, each run in one call.
fn is_added(out: &mut MemSink, log: &mut MemSink, runs: &[TickRun<'_>]) -> bool {
    let mut texts = Texts::new();
    for run in runs {
        if !has_made_room(&mut texts, out, log) {
            return false;
        }
        texts.add_run(short_front(*run));
    }
    texts.finish(out, log).is_ok()
}

// Whether this is the text of these runs.
fn is_text(alloc: Global, runs: &[TickRun<'_>], text: &[u8]) -> Result<bool, Fail> {
    let mut out = MemSink::with_room(alloc, 200, 512, Plan::new())?;
    let mut log = MemSink::with_room(alloc, 0, 512, Plan::new())?;
    Ok(is_added(&mut out, &mut log, runs) && out.held() == text)
}

// Runs, and their text.
type Row = (&'static [TickRun<'static>], &'static [u8]);

const ROWS: [Row; 4] = [
    (
        &[
            TickRun::Silence(9),
            TickRun::Bytes(&[15]),
            TickRun::Silence(10),
        ],
        b"-9\n+0f\n-10\n",
    ),
    (
        &[
            TickRun::Silence(90),
            TickRun::Silence(9),
            TickRun::Bytes(&[0, 171]),
        ],
        b"-99\n+00ab\n",
    ),
    (
        &[
            TickRun::Bytes(&[1]),
            TickRun::Bytes(&[]),
            TickRun::Silence(100),
        ],
        b"+01\n-100\n",
    ),
    (
        &[
            TickRun::Silence(999_999),
            TickRun::Silence(2),
            TickRun::Silence(0),
        ],
        b"-1000000\n-1\n",
    ),
];

// Whether forty bytes of 7 are written in two lines, in one run and in three.
fn sevens_are_cut(alloc: Global) -> Result<bool, Fail> {
    let (seven, many) = (&SEVENS[..7], &SEVENS[..26]);
    let runs = [
        TickRun::Bytes(seven),
        TickRun::Bytes(many),
        TickRun::Bytes(seven),
    ];
    let whole = [TickRun::Bytes(&SEVENS)];
    Ok(is_text(alloc, &runs, LINES_OF_SEVENS)? && is_text(alloc, &whole, LINES_OF_SEVENS)?)
}

#[test]
fn runs_are_joined_and_cut_into_lines(rt: HostRuntime) -> Result<(), Fail> {
    for (runs, text) in &ROWS {
        assert!(rt; is_text(rt.alloc(), runs, text)?);
    }
    assert!(rt; sevens_are_cut(rt.alloc())?);
    Ok(())
}

// Whether a note before three silent ticks is taken, and another silent tick and a byte after it.
fn is_noted(texts: &mut Texts, out: &mut MemSink, log: &mut MemSink) -> bool {
    if !has_made_room(texts, out, log) {
        return false;
    }
    texts.add_noted(b"note\n", short_front(answer_run(3, &[])));
    if !has_made_room(texts, out, log) {
        return false;
    }
    texts.add_run(short_front(TickRun::Silence(1)));
    if !has_made_room(texts, out, log) {
        return false;
    }
    texts.add_run(short_front(TickRun::Bytes(&[255])));
    true
}

// Whether all of this is written.
fn is_finished(out: &mut MemSink, log: &mut MemSink) -> bool {
    let mut texts = Texts::new();
    let noted = is_noted(&mut texts, out, log);
    texts.finish(out, log).is_ok() && noted
}

// Whether the note goes to the log, and the ticks to the other sink.
fn goes_to_the_log(alloc: Global) -> Result<bool, Fail> {
    let mut out = MemSink::with_room(alloc, 20, 512, Plan::new())?;
    let mut log = MemSink::with_room(alloc, 20, 512, Plan::new())?;
    Ok(
        is_finished(&mut out, &mut log)
            && out.held() == b"-4\n+ff\n".as_slice()
            && log.held() == b"note\n".as_slice(),
    )
}

#[test]
fn a_note_goes_to_the_log(rt: HostRuntime) -> Result<(), Fail> {
    assert!(rt; goes_to_the_log(rt.alloc())?);
    Ok(())
}

/// A sink that takes all of each piece, and counts the pieces and their bytes.
#[derive(Drop)]
struct CountedSink {
    writes: u64,
    bytes: u64,
    flushes: u64,
    unflushed: bool,
}

const NO_WRITES: CountedSink = CountedSink {
    writes: 0,
    bytes: 0,
    flushes: 0,
    unflushed: false,
};

impl Sink for CountedSink {
    ghost use Rattle.std.specs.Prelude.{None};

    ghost held = { λ _. None };

    ghost faults = { λ _. 0 };

    ghost flushes = { λ sink. sink.flushes };

    ghost unflushed = { λ sink. sink.unflushed };

    fn write(&mut self, piece: &[u8]) -> Result<usize, Failed> {
        self.writes = self.writes.saturating_add(1);
        self.bytes = self.bytes.saturating_add(piece.len() as u64);
        if !piece.is_empty() {
            self.unflushed = true;
        }
        Ok(piece.len())
    }

    fn flush(&mut self) -> Result<(), Failed> {
        self.flushes = self.flushes.saturating_add(1);
        self.unflushed = false;
        Ok(())
    }
}

// Whether 2,000 lines of 32 bytes are written.
fn are_written(out: &mut CountedSink, log: &mut CountedSink) -> bool {
    let mut texts = Texts::new();
    for _ in 0..2000 {
        if !has_made_room(&mut texts, out, log) {
            return false;
        }
        texts.add_run(short_front(TickRun::Bytes(&SEVENS[..32])));
    }
    texts.finish(out, log).is_ok()
}

// Of a room of 65,536 bytes, fewer than 726 are left after 982 lines of 66 bytes, so 2,000 lines go
// out in three writes.
#[test]
fn lines_go_out_by_full_buffers(rt: HostRuntime) -> Result<(), Fail> {
    let mut out = NO_WRITES;
    let mut log = NO_WRITES;
    assert!(rt; are_written(&mut out, &mut log));
    assert!(rt; (out.writes, out.bytes, log.writes) == (3, 2000 * 66, 0));
    Ok(())
}
