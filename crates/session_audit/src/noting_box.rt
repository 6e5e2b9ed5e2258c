//! What an audit needs from a box: which frame a note numbers.
ghost use Rattle.std.specs.Prelude.{◌≡◌, ℕ, List, Option};
ghost use Rattle.yasir_ticks.specs.declared.tick.Tick.{Tick};
ghost use Rattle.frame_ending.specs.Causal.{IsCausal};
ghost use Rattle.frame_ending.specs.SoFar.{live_bytes_so_far};
ghost use Rattle.link_format.specs.Setup.{Setup};
ghost use Rattle.session_lists.specs.declared.frame_box.Numbered.{Numbered};
ghost use Rattle.session_audit.specs.FramesOf.{HasFrames};

use line_rules::LineRules;
use link_box::LinkBox;
use session_lists::Numbered;

/// A box of a link, by the rules `R`, whose notes tell which frames it numbers. In the step of such
/// a note, the bytes of its frame are the live bytes of the line's last burst.
pub trait NotingBox<R: LineRules>: LinkBox {
    /// Number and start of the frame of a note, if it has one.
    ghost told: { Self.Note → Option Numbered };

    /// Returns number and start of the frame of a note, if it has one.
    fn numbered(note: Self::Note) -> Option<Numbered>
        ensures { result ≡ told note };

    /// The live bytes of the line's last burst, as the rules see them.
    fn live(&self) -> &R
        ensures { (last : ℕ) (setup : Setup) (line : List Tick)
            → Self.stands self.now last setup line
            → R.stands result.now (live_bytes_so_far R.rules line) };

    /// The box needs no tick of its line before its time.
    ghost causal: { (value : Self) (last : ℕ) (setup : Setup) (line : List Tick)
        → Self.stands value last setup line → IsCausal (Self.walking.walker setup) };

    /// The frame of a note has the live bytes of its burst, and `told` gives its number and start.
    ghost has_frames: { (setup : Setup)
        → HasFrames (Self.walking.walker setup) R.rules Self.walking.frame_in Self.walking.brief
        told };
}
