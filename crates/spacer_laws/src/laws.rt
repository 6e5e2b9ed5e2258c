//! Laws of a spacer: its frames are spaced, and all that it accepts leaves.
ghost use Rattle.std.specs.Prelude.{◌≡◌, ◌+◌, ◌*◌, ◌≤◌, ◌⊎◌, ℕ, List, length};
ghost use Rattle.yasir_ticks.specs.Ticks.{AreTicks};
ghost use Rattle.yasir_ticks.specs.declared.TheConstants.{T3_5_TICKS};
ghost use Rattle.yasir_ticks.specs.declared.tick.Tick.{Tick};
ghost use Rattle.device_model.specs.Frames.{FrameRead};
ghost use Rattle.device_model.specs.HuntFamily.{hunt_family};
ghost use Rattle.device_model.specs.RtuFamily.{rtu_family_reads};
ghost use Rattle.device_model.specs.RtuReads.{rtu_reads};
ghost use Rattle.device_model.specs.Stated.{StatedDevice, stated_rules, stated_reads};
ghost use Rattle.device_model.specs.Stated.{stated_silence, IsStatedWithin};
ghost use Rattle.link_format.specs.Profile.{Profile, HasTags};
ghost use Rattle.line_spacer.specs.Spacing.{accepted_of};
ghost use Rattle.spacer_laws.specs.Delivering.{IsSpacedForSealing, DeliversSpaced};
ghost use Rattle.spacer_laws.specs.Leaving.{AllLeave};
ghost use Rattle.spacer_laws.specs.SpacesOut.{ReadsFrames, SpacesOut};

use device_model::Hunted;
use line_rules::LineRules;

/// A law of the spacer's definitions, for each line, at every moment, and each gap of at least the
/// silence that divides bursts: the spaced line carries whole frames of the protocol, at least the
/// gap apart, and nothing else. The last of them may still be unfinished. These frames are the
/// bursts of the spaced line, and a device that hears as the spacer does reads each of them once it
/// has ended. This holds for each stated device: the Modbus RTU device and the DNP3 device, and the
/// members of both families. A Modbus RTU member must have a cut from 2 silent ticks up to the gap.
pub fn frames_are_spaced()
    ensures { (device : StatedDevice) (gap cap : ℕ) (line : List Tick) → T3_5_TICKS ≤ gap
        → IsStatedWithin gap device
        → SpacesOut (stated_rules device) (stated_reads device) (stated_reads device)
        (stated_silence device) gap cap line }
{}

/// The law `frames_are_spaced` for the rules of each protocol whose devices hunt for frames, and
/// each hunting device: one that ignores silence, with a cut of 0, and one that forgets what it has
/// taken at two or more silent ticks in a row.
pub fn hunted_frames_are_spaced<R: Hunted>()
    ensures { (cut gap cap : ℕ) (line : List Tick) → T3_5_TICKS ≤ gap → (cut ≡ 0) ⊎ (2 ≤ cut)
        → SpacesOut R.rules (hunt_family R.FIRST R.SECOND R.rules cut)
        (hunt_family R.FIRST R.SECOND R.rules cut) 0 gap cap line }
{}

/// A law of the spacer's definitions, for each line and each gap: all frames that are accepted of
/// the line have left once enough silent ticks follow it. There must be enough for as many of the
/// longest frames as may wait and one more, each with its gap, and for the silence that ends the
/// last frame. The same holds for the members of the family. For devices that hunt for frames see
/// `hunted_accepted_frames_leave`.
pub fn accepted_frames_leave()
    /// It holds for a Modbus RTU device, whose longest frame has 256 bytes.
    ensures rtu { (gap cap : ℕ) (line : List Tick) (rest : ℕ)
        → (cap + 1) * (256 + gap) + T3_5_TICKS ≤ rest → AllLeave rtu_reads gap cap line rest }
    /// It holds for each member of the Modbus RTU family, with its cut as the silence that ends the
    /// last frame.
    ensures rtu_family { (cut pause gap cap : ℕ) (line : List Tick) (rest : ℕ)
        → (cap + 1) * (256 + gap) + cut ≤ rest
        → AllLeave (rtu_family_reads cut pause) gap cap line rest }
{}

/// The law `accepted_frames_leave` for the rules of each protocol whose devices hunt for frames, as
/// those of DNP3, and each hunting device: one that ignores silence, with a cut of 0, and one that
/// forgets what it has taken at `cut` silent ticks in a row. No silence is needed to end the last
/// frame.
pub fn hunted_accepted_frames_leave<R: Hunted>()
    ensures { (cut gap cap : ℕ) (line : List Tick) (rest : ℕ) → AreTicks line
        → (cap + 1) * (R.rules.longest + gap) ≤ rest
        → AllLeave (hunt_family R.FIRST R.SECOND R.rules cut) gap cap line rest }
{}

/// A law of the spacer's, the transmitter's and the receiver's definitions, for the rules of each
/// protocol, each profile, and any spacer that reads only frames of the protocol: with the gap of
/// the profile, and once all accepted frames have left, the transmitter seals exactly these frames,
/// in order. If nothing is changed on the link, all of them pass, and the receiver's line is the
/// spaced line, later by the receiver's delay.
pub fn spaced_frames_are_sealed<R: LineRules>()
    ensures { (profile : Profile) → HasTags profile → 1 ≤ profile.word_len
        → (heard : List Tick → List FrameRead) → ReadsFrames R.rules heard
        → (gap cap floor behind : ℕ) (line : List Tick) (more rest : ℕ)
        → IsSpacedForSealing profile gap floor behind (length line) (accepted_of heard gap cap line)
        more
        → DeliversSpaced profile R.rules heard gap cap floor behind line more rest }
{}
