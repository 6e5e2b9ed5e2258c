//! Laws of the definitions.
ghost use Rattle.std.specs.Prelude.{◌≡◌, ◌↔◌, ℕ, List, IsTrue};
ghost use Rattle.line_rules.specs.Bytes.{AreBytes};
ghost use Rattle.dnp_link_frame.specs.Crc.{crc_dnp, register_of};
ghost use Rattle.line_rules.specs.Endings.{EndsInCheck};
ghost use Rattle.dnp_link_frame.specs.Frame.{IsDnpFrame, IsFrameOf};
ghost use Rattle.dnp_link_frame.specs.Endings.{IsGoodHeader, HasRightDnpEnding};
ghost use Rattle.dnp_link_frame.specs.Rules.{dnp_rules};
ghost use Rattle.dnp_link_frame.specs.declared.header.Header.{Header};

/// What `dnp_rules` calls a frame, a good header and a right ending is what the DNP3 link layer
/// calls so.
pub fn frames_of_the_standard()
    /// It holds for frames.
    ensures frames { (x : List ℕ) → AreBytes x → IsTrue (dnp_rules.is_frame x) ↔ IsDnpFrame x }
    /// It holds for good headers.
    ensures headers { (x : List ℕ) → AreBytes x
        → IsTrue (dnp_rules.is_good_header x) ↔ IsGoodHeader x }
    /// It holds for right endings.
    ensures right_endings { (x : List ℕ)
        → IsTrue (dnp_rules.has_right_ending x) ↔ HasRightDnpEnding x }
{}

/// A frame has only one header and only one user data. So `build` and `user_data` undo each other:
/// `user_data` of a frame that `build` made returns what it was made from, and `build` of what
/// `user_data` returned for a frame makes that frame.
pub fn one_header_and_user_data()
    /// No frame is made of two different headers.
    ensures header { (header other : Header) (user more frame : List ℕ)
        → IsFrameOf header user frame → IsFrameOf other more frame → header ≡ other }
    /// No frame is made of two different lists of user data.
    ensures user { (header other : Header) (user more frame : List ℕ)
        → IsFrameOf header user frame → IsFrameOf other more frame → user ≡ more }
{}

/// The last two of at least two bytes are the CRC of those before, low byte first, exactly if the
/// register after all the bytes is 66C5.
pub fn register_of_a_right_ending()
    ensures { (x : List ℕ) → AreBytes x
        → (register_of x ≡ 0x66C5) ↔ EndsInCheck crc_dnp x }
{}
