//! What a command needs from a box: a line of text for each note.
ghost use Rattle.std.specs.Prelude.{◌≡◌, ℕ, List};
ghost use Rattle.yasir_ticks.specs.declared.tick.Tick.{Tick};
ghost use Rattle.frame_ending.specs.Causal.{IsCausal};
ghost use Rattle.link_format.specs.NumberedFrame.{numbers_of};
ghost use Rattle.link_format.specs.Setup.{Setup};
ghost use Rattle.link_box.specs.Walking.{frames_of};
ghost use Rattle.sequence_journal.specs.Uptimes.{RiseFrom};

use crate::note_lines::NoteLine;
use link_box::LinkBox;

/// A box of a link, with a line of text for each of its notes.
pub trait LineBox: LinkBox {
    /// The line of a note.
    ghost line_of: { Self.Note → List ℕ };

    /// Returns the line of a note.
    fn note_line(note: &Self::Note) -> NoteLine
        ensures { result.items ≡ line_of note.now };

    /// The numbers that the box uses rise from the floor of its journal, so none is used twice.
    ghost rising: { (setup : Setup) (line : List Tick)
        → RiseFrom setup.floor (numbers_of (frames_of Self.walking setup line)) };

    /// The walk of the box is causal: it needs no tick of its line before its time.
    ghost causal: { (value : Self) (last : ℕ) (setup : Setup) (line : List Tick)
        → Self.stands value last setup line → IsCausal (Self.walking.walker setup) };
}
