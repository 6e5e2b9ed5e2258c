//! A reader of lines of tick text as they come, with no limit on how many there are.
ghost use Rattle.std.specs.Prelude.{◌≡◌, ℕ, ◌+◌, ◌-◌, ◌<◌, ◌≤◌, List, [], length, true, false};
ghost use Rattle.yasir_ticks.specs.Reader.{reader_line};
ghost use Rattle.line_commands.specs.Counted.{capped};

use tick_drive::{End, TooMuch};
use yasir_ticks::{BadTicks, Content, FedLine, Run, TickReader};

/// The most bytes that may come one after the other without ending a line with ticks.
const MAX_LINE: u32 = 2_147_483_648;

/// How many bytes were read, at most up to the end of a line, and what the line represents that
/// ended with them.
#[derive(Drop)]
pub struct ReadBytes {
    /// How many bytes were read, from the front of those given.
    pub taken: usize,
    /// What the line represents that ended with the last of them, or `NoTick` if no line with ticks
    /// ended.
    pub content: Content,
}

/// A reader of tick text without marks, for a text of any length: a new reader takes over after
/// each line, and lines are counted separately. The count stays at its greatest value.
#[derive(Drop)]
pub struct LineReader {
    reader: TickReader,
    // how many bytes the reader was fed
    since: u32,
    // whether the last of them ended a line
    ended: bool,
    // the line, counted from 1, in which the reader began
    line: u32,
    ghost lines: { reader_line reader ≤ since + 1 },
}

// Returns a refusal with its line in the whole text, from a refusal by a reader that began in line
// `line`.
fn in_text(line: u32, bad: BadTicks) -> BadTicks
    ensures line { result.line ≡ capped (line + (bad.line - 1)) }
    ensures why { result.why ≡ bad.why }
{
    BadTicks {
        line: line.saturating_add(bad.line.saturating_sub(1)),
        why: bad.why,
    }
}

impl LineReader {
    ghost use Rattle.std.specs.Prelude.{IfOk, IfErr};
    ghost use Rattle.line_commands.specs.Lines.{HasRead, FeedAnswer, LinesFinishAnswer, IsOfText, lent_lines};

    /// Returns a reader of a text of which nothing has come.
    pub fn new() -> LineReader
        ensures { HasRead result [] }
    {
        LineReader {
            reader: TickReader::new(0),
            since: 0,
            ended: false,
            line: 1,
        }
    }

    /// Returns the bytes of the line that ended last, if it was a line of bytes.
    #[inline]
    pub fn line_bytes(&self) -> &[u8]
        /// They are the bytes of the last line that ended, if it was a line of bytes.
        ensures bytes { result.now ≡ lent_lines self.now }
        /// There are at most 32.
        ensures few { length result.now ≤ 32 }
    {
        self.reader.line_bytes()
    }

    // Starts a new reader, if a line has ended.
    fn renew(&mut self)
        ensures read { (text : List ℕ) → HasRead self.old text → HasRead self.new text }
        ensures begun { self.new.ended ≡ false }
    {
        if !self.ended {
            return;
        }
        let more = self.reader.line().saturating_sub(1);
        self.line = self.line.saturating_add(more);
        self.reader = TickReader::new(0);
        self.since = 0;
        self.ended = false;
    }

    /// Reads bytes up to and including the end of the line, or all of them if the line doesn't end.
    pub fn feed(&mut self, bytes: &[u8]) -> Result<ReadBytes, End>
        /// There is at least one byte.
        requires some { 0 < length bytes.now }
        /// There are at most 65,536 bytes.
        requires few { length bytes.now ≤ 65536 }
        /// Unless the text is refused, at least one byte is taken.
        ensures progress { IfOk result (λ found. 0 < found.taken) }
        /// No more bytes are taken than there are.
        ensures within { IfOk result (λ found. found.taken ≤ length bytes.now) }
        /// An error is a refused text or one that is too long, and no fault.
        ensures of_text { IfErr result IsOfText }
        /// What is returned are the items of the line that ended, if one did. A refusal has the
        /// place and the cause of the text's refused byte. A text is too long only if more than
        /// 2^31 bytes came after the last line with ticks.
        ensures answer { (text : List ℕ) → HasRead self.old text
            → FeedAnswer self.new text bytes.now result }
    {
        self.renew();
        if self.since > MAX_LINE {
            return Err(End::TooLong {
                what: TooMuch::Bytes,
                count: u64::from(self.since),
            });
        }
        let FedLine { taken, line } = self.reader.feed_line(bytes);
        self.since += taken as u32;
        match line {
            Ok(content) => {
                self.ended = bytes[taken - 1] == b'\n';
                Ok(ReadBytes { taken, content })
            }
            Err(bad) => Err(End::Refused(in_text(self.line, bad))),
        }
    }

    /// Takes the end of the text, and returns the run of a last line without an LF.
    pub fn finish(self) -> Result<Run, End>
        /// An error is a refused text or one that is too long, and no fault.
        ensures of_text { IfErr result IsOfText }
        /// The text is right, with the run of the last line; or it is refused at its refused place,
        /// for its cause.
        ensures answer { (text : List ℕ) → HasRead self text → LinesFinishAnswer text result }
    {
        let LineReader { reader, line, .. } = self;
        match reader.finish() {
            Ok(run) => Ok(run),
            Err(bad) => Err(End::Refused(in_text(line, bad))),
        }
    }
}
