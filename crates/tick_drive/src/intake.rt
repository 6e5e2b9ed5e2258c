//! The bytes of an input on their way to the reader of tick text. They are counted, up to the most
//! that are read.
ghost use Rattle.std.specs.Prelude.{◌≡◌, ℕ, ◌+◌, ◌≤◌, ◌<◌, List, [], length, Option, IfOk, IfSome};
ghost use Rattle.std.specs.Prelude.{false};
ghost use Rattle.yasir_ticks.specs.Reader.{reader_line};

use crate::{End, TooMuch};
use yasir_io::{Failed, Pieces, Source};
use yasir_ticks::{Content, FedLine, Run, TickReader, UsualLine};

#[cfg(test)]
mod turn_tests;

// The most bytes that a line has with its LF: a comment of 120 bytes after its `#`.
const USUAL: usize = 122;

/// The most bytes of an input that are read.
pub const MAX_INPUT_BYTES: u32 = 268_435_456;

/// The bytes of an input, fed in order to a reader of tick text.
#[derive(Drop)]
pub struct Intake {
    pieces: Pieces,
    reader: TickReader,
    // how many bytes may still be met
    room: u32,
    ghost lines: { reader_line reader + room ≤ 268435457 },
    ghost within: { room ≤ 268435456 },
}

impl Intake {
    ghost use Rattle.tick_drive.specs.Intake.{HasMet, HasFed, MeetsLine, StepAnswer, FinishAnswer};
    ghost use Rattle.tick_drive.specs.Intake.{lent};
    ghost use Rattle.yasir_ticks.specs.Reader.{items_of_content};
    ghost use Rattle.std.specs.Prelude.{None};
    ghost use Rattle.yasir_io.specs.Pieces.{kept_bytes};
    ghost use Rattle.tick_drive.specs.Input.{is_read_answer, IsReadCause};

    /// Returns an intake that has met nothing yet of a text with exactly `marks` marks.
    pub fn new(marks: u8) -> Intake
        ensures { (before : Option (List ℕ)) → HasMet result marks before before [] }
    {
        Intake {
            pieces: Pieces::new(),
            reader: TickReader::new(marks),
            room: MAX_INPUT_BYTES,
        }
    }

    /// Returns the bytes of the line that a step ended last, if it was one of bytes.
    #[inline]
    pub fn line_bytes(&self) -> &[u8]
        ensures bytes { result.now ≡ lent self.now }
        ensures few { length result.now ≤ 32 }
    {
        self.reader.line_bytes()
    }

    /// Meets a usual line (bytes, silent ticks or a comment), if as many bytes are kept as the
    /// longest line has. Returns what the line represents.
    #[inline(always)]
    pub fn usual_line(&mut self) -> Option<Content>
        ensures answer { IfSome result (λ content. (marks : ℕ) (before now : Option (List ℕ))
            (text : List ℕ) → HasMet self.old marks before now text
            → MeetsLine self.new marks before now text (items_of_content content (lent self.new))) }
        ensures counted { IfSome result (λ content. self.new.room < self.old.room) }
        ensures none { result ≡ None → self.new ≡ self.old }
    {
        let kept = self.pieces.kept();
        if kept.len() < USUAL || self.room < USUAL as u32 {
            return None;
        }
        let UsualLine { taken, content } = self.reader.take_usual(&kept[..USUAL])?;
        self.room -= taken as u32;
        self.pieces.skip(taken);
        Some(content)
    }

    /// Meets bytes up to the end of a line, or up to the last one that was read. Returns what the
    /// line represents, `NoTick` if none ended, or `None` at the input's end.
    #[inline(never)]
    pub fn step<S: Source>(&mut self, source: &mut S) -> Result<Option<Content>, End>
        ensures answer { (marks : ℕ) (before : Option (List ℕ)) (text : List ℕ)
            → HasMet self.old marks before (S.left source.old) text
            → StepAnswer self.new marks before (S.left source.new) text result }
        ensures counted { IfOk result (λ next. IfSome next
            (λ content. self.new.room < self.old.room)) }
        ensures cause { IsReadCause (S.faults source.old) (S.faults source.new)
            (is_read_answer result) }
    {
        match self.pieces.fill(source) {
            Ok(true) => self.feed_kept(),
            Ok(false) => Ok(None),
            Err(Failed) => Err(End::ReadFault),
        }
    }

    // Feeds bytes that are kept.
    #[inline(always)]
    fn feed_kept(&mut self) -> Result<Option<Content>, End>
        requires { 0 < length (kept_bytes self.old.pieces) }
        ensures answer { (marks : ℕ) (before now : Option (List ℕ)) (text : List ℕ)
            → HasMet self.old marks before now text
            → StepAnswer self.new marks before now text result }
        ensures counted { IfOk result (λ next. IfSome next
            (λ content. self.new.room < self.old.room)) }
        ensures no_read { is_read_answer result ≡ false }
    {
        if self.room == 0 {
            return Err(End::TooLong {
                what: TooMuch::Bytes,
                count: u64::from(MAX_INPUT_BYTES) + 1,
            });
        }
        let kept = self.pieces.kept();
        let within = kept.len().min(self.room as usize);
        let FedLine { taken, line } = self.reader.feed_line(&kept[..within]);
        self.room -= taken as u32;
        self.pieces.skip(taken);
        match line {
            Ok(content) => Ok(Some(content)),
            Err(bad) => Err(End::Refused(bad)),
        }
    }

    /// Returns the run of the last line, at the input's end.
    pub fn finish(self) -> Result<Run, End>
        ensures { (marks : ℕ) (text : List ℕ) → HasFed self marks text
            → FinishAnswer marks text result }
    {
        let Intake {
            pieces: _,
            reader,
            room: _,
        } = self;
        match reader.finish() {
            Ok(run) => Ok(run),
            Err(bad) => Err(End::Refused(bad)),
        }
    }
}
