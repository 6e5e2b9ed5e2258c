//! Laws of what a receiver holds back: it all leaves in time, and a device reads all frames that
//! passed.
ghost use Rattle.std.specs.Prelude.{◌+◌, ◌≤◌, ℕ, List};
ghost use Rattle.yasir_ticks.specs.Ticks.{AreTicks};
ghost use Rattle.yasir_ticks.specs.declared.tick.Tick.{Tick};
ghost use Rattle.device_model.specs.Stated.{StatedDevice, stated_rules, stated_reads};
ghost use Rattle.device_model.specs.Stated.{stated_silence, stated_lack, IsStatedWithin};
ghost use Rattle.link_format.specs.Profile.{Profile, delay};
ghost use Rattle.link_box.specs.Timely.{IsTimely};
ghost use Rattle.receiver_laws.specs.AllLeft.{HasAllLeft, ReadsAllThatPassed};
ghost use Rattle.receiver_laws.specs.Recovery.{LackAtMost};

use line_rules::LineRules;

/// A law of the receiver's definitions, for the rules of each protocol, each profile whose delay is
/// long enough for the header, and each floor: once a link has ended, all that the receiver held
/// back has left after the delay and one more tick for each byte that a burst of the protocol can
/// lack. From then on only silence leaves, and nothing more passes.
pub fn all_leaves_in_time<R: LineRules>()
    ensures { (profile : Profile) → IsTimely profile R.rules
        → (most : ℕ) → LackAtMost R.rules most
        → (floor : ℕ) (link : List Tick) → AreTicks link
        → (rest more : ℕ) → delay profile + most ≤ rest
        → HasAllLeft profile R.rules floor link rest more }
{}

/// A law of the receiver's definitions, for each profile whose delay is long enough for the header,
/// each floor and link: if the link is followed by silence until all has left, and the receiver's
/// line then by as much silence as a stated device awaits after a frame, the device reads from that
/// line all frames that passed, each as late as the receiver is, and nothing else. So the frames
/// that are read from a recording of the receiver's line never differ from those that pass of a
/// recording of the link, if both recordings are long enough. The stated devices are those of
/// `device_reads_what_passed`.
pub fn recorded_line_reads_all_that_passed()
    ensures { (device : StatedDevice) (profile : Profile) → IsStatedWithin (delay profile) device
        → IsTimely profile (stated_rules device)
        → (floor : ℕ) (link : List Tick) → AreTicks link
        → (rest more : ℕ) → delay profile + stated_lack device ≤ rest
        → stated_silence device ≤ more
        → ReadsAllThatPassed (stated_rules device) (stated_reads device) profile floor link rest
        more }
{}
