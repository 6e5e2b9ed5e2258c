//! The law that a link which is sent back the way it came passes nothing.
ghost use Rattle.std.specs.Prelude.{◌≡◌, ◌≢◌, ℕ, List, [], All, Contains};
ghost use Rattle.yasir_ticks.specs.declared.tick.Tick.{Tick};
ghost use Rattle.link_format.specs.Tag.{tag_text};
ghost use Rattle.link_format.specs.NumberedFrame.{NumberedFrame};
ghost use Rattle.link_format.specs.Profile.{Profile};
ghost use Rattle.link_box.specs.Sealing.{link_line, sealed};
ghost use Rattle.link_box.specs.Checking.{passed};
ghost use Rattle.receiver_laws.specs.Accounted.{forged};
ghost use Rattle.receiver_laws.specs.Fitting.{IsFit};
ghost use Rattle.receiver_laws.specs.Reflected.{with_tags, TagsMatch, IsReflected};

use line_rules::LineRules;

/// A law of the transmitter's and the receiver's definitions, for the rules of each protocol, each
/// fit profile, any floors and any line of a device: a link that is sent back the way it came, so
/// that the receiver of the line's other direction takes it under the same key, passes nothing,
/// unless tags of the two directions match by chance. A frame that does pass there was sealed, and
/// its packet is on the link. The number with which it passes has the packet's word, and the other
/// direction's tag for that number and the frame is the packet's. The text that is tagged in one
/// direction is never one that is tagged in the other. If the transmitter of the other direction
/// has sealed nothing, each frame that passes counts as forged.
pub fn reflected_links_pass_nothing<R: LineRules>()
    /// Each frame that passes there was sealed, its packet is on the link, and with the number with
    /// which it passes the tags of both directions match.
    ensures reflected { (profile : Profile) (other : ℕ → List ℕ → List ℕ) → IsFit profile R.rules
        → (seal_floor check_floor : ℕ) (line : List Tick)
        → All (IsReflected profile other (link_line profile R.rules seal_floor line)
        (sealed profile R.rules seal_floor line))
        (passed (with_tags profile other) R.rules check_floor
        (link_line profile R.rules seal_floor line)) }
    /// If no number gives matching tags for a frame that was sealed, nothing passes.
    ensures nothing { (profile : Profile) (other : ℕ → List ℕ → List ℕ) → IsFit profile R.rules
        → (seal_floor check_floor : ℕ) (line : List Tick)
        → ((f : NumberedFrame) (number : ℕ) → Contains (sealed profile R.rules seal_floor line) f
        → ¬ TagsMatch profile other f.number number f.frame)
        → passed (with_tags profile other) R.rules check_floor
        (link_line profile R.rules seal_floor line) ≡ [] }
    /// The text that is tagged in one direction is never one that is tagged in the other.
    ensures texts_differ { (label direction other number other_number : ℕ)
        (frame other_frame : List ℕ) → direction ≢ other
        → tag_text label direction frame number ≢ tag_text label other other_frame other_number }
    /// If nothing was sealed, each frame that passes counts as forged.
    ensures all_forged { (passed_ones : List NumberedFrame) → forged [] passed_ones ≡ passed_ones }
{}
