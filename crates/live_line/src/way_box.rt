//! What one way of a live line makes of its ticks.
ghost use Rattle.std.specs.Prelude.{◌≡◌, ℕ, ◌+◌, ◌≤◌, ◌<◌, List};
ghost use Rattle.yasir_ticks.specs.declared.TheConstants.{MAX_TICKS};
ghost use Rattle.yasir_ticks.specs.declared.tick.Tick.{Tick};
ghost use Rattle.link_format.specs.Setup.{Setup};
ghost use Rattle.sequence_journal.specs.declared.numbers.TheConstants.{LIMIT};
ghost use Rattle.line_texts.specs.Adding.{TextHasRoom, HasLineRoom};
ghost use Rattle.line_texts.specs.Sending.{LineAndNotes};
ghost use Rattle.line_texts.specs.Texts.{waiting_in};
ghost use Rattle.live_line.specs.WayText.{AreEnded};
ghost use Rattle.live_line.specs.WayBoxes.{AddsAfterAny};

use line_commands::LineBox;
use line_texts::Texts;
use yasir_ticks::Tick;

/// A box of which each note's line ends with an LF.
pub trait EndedNotes: LineBox {
    /// The line of a note ends with an LF, or is empty.
    ghost ended_line: { (note : Self.Note) → AreEnded (Self.line_of note) };
}

/// What one way of a live line makes of its ticks, in memory: ticks of the other line, and notes.
pub trait WayBox: Drop {
    /// What is made of a line, for a setup.
    ghost made: { Setup → LineAndNotes };

    /// The last number used for a line, for a setup.
    ghost number_for: { Setup → List Tick → ℕ };

    /// Holds if it began with this setup and has taken this line.
    ghost stands: { Self → Setup → List Tick → Type 0 };

    /// How many ticks it has taken.
    ghost taken: { Self → ℕ };

    /// The last number that it has used.
    ghost number: { Self → ℕ };

    /// Holds if it may take ticks.
    ghost ready: { Self → Type 0 };

    /// The last number that it has used is the one for its line.
    ghost number_is: { (value : Self) (setup : Setup) (line : List Tick) → stands value setup line
        → number value ≡ number_for setup line };

    /// Takes the next tick, and adds what it makes of it to texts.
    fn take(&mut self, tick: Tick, texts: &mut Texts)
        /// It has taken fewer than 2^62 ticks.
        requires count { taken self.old < MAX_TICKS }
        /// It may take ticks.
        requires ready { ready self.old }
        /// There is room for what a few ticks complete.
        requires room { TextHasRoom texts.old }
        /// The tick is counted.
        ensures counted { taken self.new ≡ taken self.old + 1 }
        /// It may take more ticks.
        ensures ready { ready self.new }
        /// The last number used doesn't fall.
        ensures rises { number self.old ≤ number self.new }
        /// There is room for the line that isn't filled.
        ensures line_room { HasLineRoom texts.new }
        /// What is made of the tick was added to the texts.
        ensures adds { AddsAfterAny made stands self.old self.new texts.old texts.new tick }
        /// If each line of the notes had ended, each line has.
        ensures ended { AreEnded (waiting_in texts.old).notes
            → AreEnded (waiting_in texts.new).notes };

    /// Returns the last number that it has used.
    fn last_number(&self) -> u64
        /// It is the last number used.
        ensures value { result ≡ number self.now }
        /// It is at most 2^48 - 1.
        ensures within { result ≤ LIMIT };
}
