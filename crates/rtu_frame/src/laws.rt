//! Laws of the definitions.
ghost use Rattle.std.specs.Prelude.{◌≡◌, ◌↔◌, ℕ, List, IsTrue};
ghost use Rattle.line_rules.specs.Bytes.{AreBytes};
ghost use Rattle.rtu_frame.specs.Crc.{crc_rtu};
ghost use Rattle.rtu_frame.specs.Frame.{IsFrame, HasRightEnding};
ghost use Rattle.rtu_frame.specs.Rules.{rtu_rules};

/// What `rtu_rules` calls a frame and a right ending is what Modbus RTU calls so.
pub fn frames_of_the_standard()
    /// It holds for frames.
    ensures frames { (x : List ℕ) → IsTrue (rtu_rules.is_frame x) ↔ IsFrame x }
    /// It holds for right endings.
    ensures right_endings { (x : List ℕ)
        → IsTrue (rtu_rules.has_right_ending x) ↔ HasRightEnding x }
{}

/// The last two of at least two bytes are the CRC of those before, low byte first, exactly if the
/// CRC of all the bytes is 0.
pub fn crc_of_a_right_ending()
    ensures { (x : List ℕ) → AreBytes x → (crc_rtu x ≡ 0) ↔ HasRightEnding x }
{}
