//! The text of a line and the lines of notes, written so that a note goes out before the ticks into
//! which it falls.
ghost use Rattle.std.specs.Prelude.{◌≡◌, ◌≤◌, List, [], length, true};
ghost use Rattle.std.specs.Prelude.{OnOk, OnErr};
ghost use Rattle.yasir_io.specs.Flushed.{NoneFlushed};
ghost use Rattle.yasir_io.specs.TextBuffer.{waiting_bytes};
ghost use Rattle.yasir_ticks.specs.TickRun.{run_ticks};
ghost use Rattle.yasir_ticks.specs.declared.tick.Tick.{Tick};
ghost use Rattle.line_texts.specs.Writer.{WriterHasWritten};
ghost use Rattle.line_texts.specs.Sending.{LineAndNotes, SinkTexts, sink_texts, SendsTexts};
ghost use Rattle.line_texts.specs.Sending.{TextsHaveSent, HasSentFronts, HaveCause};
ghost use Rattle.line_texts.specs.Texts.{waiting_in, writing, HandsOut};
ghost use Rattle.line_texts.specs.Adding.{IsShort, TextHasRoom, HasLineRoom, TextAdds, ClosesText};

use crate::adding::{add_bytes, add_silence};
use crate::line_room::LineRoom;
use crate::line_writer::LineWriter;
use yasir_io::{Failed, Sink, TextBuffer};
use yasir_ticks::TickRun;

/// The most bytes of text that a short run completes, ten lines of 66 bytes, and of the line that
/// isn't filled then.
const MOST_OF_LINES: usize = 726;

/// The most bytes that the line of a note has.
const MOST_OF_NOTE: usize = 640;

/// The other line as canonical tick text, and a line for each note. Before a byte of the ticks goes
/// out, all notes so far go to the log.
#[derive(Drop)]
pub struct Texts {
    pub(crate) writer: LineWriter,
    pub(crate) ticks: LineRoom,
    notes: TextBuffer,
}

impl Texts {
    /// Returns texts to which nothing has been added.
    pub fn new() -> Texts
        /// The writer has been given no tick.
        ensures written { WriterHasWritten result.writer [] [] }
        /// No text of ticks waits.
        ensures ticks { result.ticks.items ≡ [] }
        /// No note waits.
        ensures notes { waiting_bytes result.notes ≡ [] }
        /// There is room for what a few ticks complete.
        ensures room { TextHasRoom result }
    {
        Texts {
            writer: LineWriter::new(),
            ticks: LineRoom::new(),
            notes: TextBuffer::new(),
        }
    }

    /// Whether there is room for the ten lines of a short run and the line that isn't filled then,
    /// and for the line of a note.
    #[inline]
    pub fn has_room(&self) -> bool
        /// If it is true, there is room.
        ensures room { result ≡ true → TextHasRoom self.now }
        /// If there is room, it is true.
        ensures full { TextHasRoom self.now → result ≡ true }
    {
        self.ticks.has_room(MOST_OF_LINES) && self.notes.text.has_room(MOST_OF_NOTE)
    }

    /// Adds a short run to the text of the other line. If its ticks complete no line, only the
    /// writer takes them.
    #[inline(always)]
    pub fn add_run(&mut self, run: TickRun<'_>)
        /// There is room for what a few ticks complete.
        requires room { TextHasRoom self.old }
        /// The run has at most 300 ticks, or fewer than 1,000,000 that are all silent.
        requires short { IsShort (run_ticks run) }
        /// The text of the lines that these ticks complete waits behind the rest.
        ensures adds { TextAdds (waiting_in self.old) (waiting_in self.new) (run_ticks run.entry) [] }
        /// There is room for the line that isn't filled.
        ensures line_room { HasLineRoom self.new }
    {
        match run {
            TickRun::Bytes(bytes) => {
                if !self.writer.join_bytes(bytes) {
                    add_bytes(self, bytes);
                }
            }
            TickRun::Silence(ticks) => {
                if !self.writer.join_silence(ticks) {
                    add_silence(self, ticks);
                }
            }
        }
    }

    /// Adds a note's line to the text of the notes, and the short run into which the note falls to
    /// the text of the other line.
    #[inline(always)]
    pub fn add_noted(&mut self, note: &[u8], run: TickRun<'_>)
        /// There is room for what a few ticks complete.
        requires room { TextHasRoom self.old }
        /// The run has at most 300 ticks, or fewer than 1,000,000 that are all silent.
        requires short { IsShort (run_ticks run) }
        /// The note's line has at most 640 bytes.
        requires line { length note.now ≤ 640 }
        /// The note, and the text of the lines that these ticks complete, wait behind the rest.
        ensures adds { TextAdds (waiting_in self.old) (waiting_in self.new) (run_ticks run.entry)
            note.now }
        /// There is room for the line that isn't filled.
        ensures line_room { HasLineRoom self.new }
    {
        self.add_run(run);
        self.notes.text.append(note);
    }

    /// Returns the notes that wait.
    #[inline]
    pub fn note_text(&self) -> &[u8]
        ensures { result.now ≡ waiting_bytes self.now.notes }
    {
        self.notes.text.as_slice()
    }

    /// Returns the lines of ticks that wait.
    #[inline]
    pub fn tick_text(&self) -> &[u8]
        ensures { result.now ≡ self.now.ticks.items }
    {
        self.ticks.as_slice()
    }

    /// Adds the line that isn't filled to the text of the ticks. The next call must be `empty`.
    pub fn close(&mut self)
        /// There is room for the line that isn't filled.
        requires { HasLineRoom self.old }
        ensures { ClosesText (waiting_in self.old) (waiting_in self.new) }
    {
        self.writer.finish(&mut self.ticks);
    }

    /// Discards all that waits, once it has been written, so that the texts are as new.
    pub fn empty(&mut self)
        /// The writer has been given no tick.
        ensures written { WriterHasWritten self.new.writer [] [] }
        /// No text of ticks waits.
        ensures ticks { self.new.ticks.items ≡ [] }
        /// No note waits.
        ensures notes { waiting_bytes self.new.notes ≡ [] }
    {
        self.writer = LineWriter::new();
        self.ticks.empty();
        if !self.notes.text.as_slice().is_empty() {
            self.notes = TextBuffer::new();
        }
    }

    /// Writes the notes that wait to the log, and then the lines of ticks that wait to `out`.
    /// After that nothing waits but the line that isn't filled yet. It is up to the caller to flush
    /// both sinks.
    #[inline(never)]
    pub fn hand_out<O: Sink, L: Sink>(&mut self, out: &mut O, log: &mut L) -> Result<(), Failed>
        ensures { HandsOut O.Sink L.Sink (writing self.old out.old log.old)
            (writing self.new out.new log.new) result }
    {
        self.notes.drain(log)?;
        self.ticks.drain(out)
    }

    /// Writes the last line of the ticks and all that waits, the notes first.
    pub fn finish<O: Sink, L: Sink>(self, out: &mut O, log: &mut L) -> Result<(), Failed>
        /// Both sinks have got all of their texts.
        ensures ok { OnOk result ((made : LineAndNotes) (before : SinkTexts) (line : List Tick)
            → SendsTexts made (waiting_in self) before (sink_texts (O.held out.old) (L.held log.old))
            line
            → TextsHaveSent made before (sink_texts (O.held out.new) (L.held log.new)) line) }
        /// After a failed write each sink has got a front of its text, the notes first.
        ensures err { OnErr result ((made : LineAndNotes) (before : SinkTexts) (line : List Tick)
            → SendsTexts made (waiting_in self) before (sink_texts (O.held out.old) (L.held log.old))
            line
            → HasSentFronts made before (sink_texts (O.held out.new) (L.held log.new)) line) }
        /// A write fails only if a count of the sinks' faults rose. Neither count ever falls, and
        /// if no write fails both are as they were.
        ensures cause { HaveCause (O.faults out.old) (O.faults out.new) (L.faults log.old)
            (L.faults log.new) result }
        /// Neither sink is flushed.
        ensures flushes { NoneFlushed O.Sink L.Sink out.old out.new log.old log.new }
    {
        let Texts {
            writer,
            mut ticks,
            mut notes,
        } = self;
        notes.drain(log)?;
        ticks.make_room(out)?;
        writer.finish(&mut ticks);
        ticks.drain(out)
    }
}
