//! What listing a recording needs from a box: the frames that it seals or passes, with their bytes.
ghost use Rattle.std.specs.Prelude.{◌≡◌, ℕ, ◌+◌, ◌<◌, ◌≤◌, List, [], ◌∷◌, ◌++◌, length};
ghost use Rattle.std.specs.Prelude.{map, take};
ghost use Rattle.yasir_ticks.specs.Ticks.{silent};
ghost use Rattle.yasir_ticks.specs.declared.tick.Tick.{Tick};
ghost use Rattle.yasir_ticks.specs.declared.tick.Tick.TheVariants.{Byte};
ghost use Rattle.frame_ending.specs.Answered.{answered};
ghost use Rattle.link_format.specs.NumberedFrame.{NumberedFrame};
ghost use Rattle.link_format.specs.Setup.{Setup, setup_of};
ghost use Rattle.sequence_journal.specs.declared.numbers.TheConstants.{LIMIT};
ghost use Rattle.session_lists.specs.FrameBox.{Numbering, AnswersFrame, AnswersFrameRun};
ghost use Rattle.session_lists.specs.FrameList.{longest_frame};

use frame_ending::RunBytes;
use link_format::Dir;
use yasir_ticks::{MAX_TICKS, Tick};

/// The number of a frame that a box seals or passes, and the tick of its first byte.
#[derive(Clone, Copy, Debug, PartialEq, Eq)]
pub struct Numbered {
    /// The number with which the box seals or passes the frame.
    pub number: u64,
    /// The tick of the frame's first byte on the line that the box takes, counted from 0.
    pub start: u64,
}

/// What a box returns for a tick: the tick of the other line, and the frame that it seals or passes
/// in this step, if there is one.
#[derive(Clone, Copy, Debug, PartialEq, Eq)]
pub struct FrameStep {
    /// The next tick of the other line.
    pub tick: Tick,
    /// The frame that the box seals or passes in this step, if there is one.
    pub frame: Option<Numbered>,
}

/// A box between two lines that seals frames or passes them, with numbers above the floor that it
/// is made with. It shows the bytes of each.
pub trait FrameBox: Drop {
    /// Holds if a box that was made with this setup has taken these ticks.
    ghost stands: { Self → Setup → List Tick → Type 0 };

    /// How many ticks it has taken.
    ghost taken: { Self → ℕ };

    /// Whether it may take a tick.
    ghost able: { Self → Type 0 };

    /// What a box with this setup makes of a line.
    ghost numbering: { Setup → Numbering };

    /// What must hold of the widths that it is made with.
    ghost widths_fit: { Type 0 };

    /// The bytes that it shows.
    ghost shown: { Self → List ℕ };

    /// A box that has taken no tick, and whose last number was this floor.
    fn new(key: &[u8], dir: Dir, floor: u64) -> Self
        /// The widths of the box are ones that it can be made with.
        requires widths { widths_fit }
        /// The floor is at most 2^48 - 1.
        requires within { floor ≤ LIMIT }
        /// It has taken 0 ticks.
        ensures taken { taken result ≡ 0 }
        /// It may go on.
        ensures able { able result }
        /// It begins with this key, direction and floor, with no tick taken.
        ensures stands { stands result (setup_of key.now dir floor) [] }
        /// Of no tick, there is no frame.
        ensures nothing { (setup : Setup) → (numbering setup).frames [] ≡ [] }
        /// Of no tick, the other line has none.
        ensures no_tick { (setup : Setup) → (numbering setup).other_line [] ≡ [] };

    /// Takes the next tick.
    fn step(&mut self, t: Tick) -> FrameStep
        /// Fewer than 2^62 ticks were taken before.
        requires room { taken self.old < MAX_TICKS }
        /// The box may go on.
        requires able { able self.old }
        /// One more tick is taken.
        ensures taken { taken self.new ≡ taken self.old + 1 }
        /// The box may go on.
        ensures able { able self.new }
        /// The box has taken this tick after its line.
        ensures stands { (setup : Setup) (line : List Tick) → stands self.old setup line
            → stands self.new setup (line ++ t ∷ []) }
        /// The tick that leaves and the frame, if there is one, with the bytes that are shown, are
        /// what the definition adds in this step.
        ensures answer { (setup : Setup) (line : List Tick) → stands self.old setup line
            → AnswersFrame (numbering setup) line t result (shown self.new) };

    /// Takes the first of these bytes, one a tick, and returns how many. While it takes them, it
    /// sends either only silence or only bytes, and seals or passes no frame. Puts the bytes that
    /// it sends into `sent`, or none for silence. If the result is 0, the caller goes on with
    /// `step`.
    fn pass_bytes(&mut self, _bytes: &[u8], sent: &mut RunBytes) -> usize
        /// The box has then taken at most 2^62 ticks.
        requires room { taken self.old + length _bytes.now ≤ MAX_TICKS }
        /// The box may go on.
        requires able { able self.old }
        /// No more bytes are taken than there are.
        ensures within { result ≤ length _bytes.now }
        /// The ticks that are taken are counted.
        ensures taken { taken self.new ≡ taken self.old + result }
        /// The box may go on.
        ensures able { able self.new }
        /// The box has taken these ticks after its line.
        ensures stands { (setup : Setup) (line : List Tick) → stands self.old setup line
            → stands self.new setup (line ++ map Byte (take result _bytes.now)) }
        /// What leaves is what the other line goes on with, and no frame falls into these ticks.
        ensures answers { (setup : Setup) (line : List Tick) → stands self.old setup line
            → AnswersFrameRun (numbering setup) line (map Byte (take result _bytes.now))
            (answered result sent.new.items) }
    {
        sent.clear();
        0
    }

    /// Takes the first of this many silent ticks, and returns how many. While it takes them, it
    /// sends either only silence or only bytes, and seals or passes no frame. Puts the bytes that
    /// it sends into `sent`, or none for silence. If the result is 0, the caller goes on with
    /// `step`.
    fn pass_silence(&mut self, _ticks: u32, sent: &mut RunBytes) -> u32
        /// The box has then taken at most 2^62 ticks.
        requires room { taken self.old + _ticks ≤ MAX_TICKS }
        /// The box may go on.
        requires able { able self.old }
        /// No more ticks are taken than there are.
        ensures within { result ≤ _ticks }
        /// The ticks that are taken are counted.
        ensures taken { taken self.new ≡ taken self.old + result }
        /// The box may go on.
        ensures able { able self.new }
        /// The box has taken these ticks after its line.
        ensures stands { (setup : Setup) (line : List Tick) → stands self.old setup line
            → stands self.new setup (line ++ silent result) }
        /// What leaves is what the other line goes on with, and no frame falls into these ticks.
        ensures answers { (setup : Setup) (line : List Tick) → stands self.old setup line
            → AnswersFrameRun (numbering setup) line (silent result)
            (answered result sent.new.items) }
    {
        sent.clear();
        0
    }

    /// The bytes of the frame of the last step, if that step had one.
    fn bytes(&self) -> &[u8]
        /// They are the bytes that the box shows.
        ensures bytes { result.now ≡ shown self.now }
        /// There are at most as many as the longest frame has.
        ensures short { length result.now ≤ longest_frame };
}
