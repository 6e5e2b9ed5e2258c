//! The main laws of the receiver: what a device behind it reads has passed and was sealed.
ghost use Rattle.std.specs.Prelude.{◌≡◌, ◌∷◌, ◌++◌, ℕ, List, Contains};
ghost use Rattle.yasir_ticks.specs.declared.tick.Tick.{Tick};
ghost use Rattle.link_box.specs.Sealing.{sealed};
ghost use Rattle.yasir_ticks.specs.Bursts.{Burst, bursts};
ghost use Rattle.device_model.specs.Stated.{StatedDevice, stated_rules, stated_reads};
ghost use Rattle.device_model.specs.Stated.{stated_silence, IsStatedWithin};
ghost use Rattle.frame_ending.specs.Walk.{state_after};
ghost use Rattle.frame_ending.specs.Longer.{Begins, Extends};
ghost use Rattle.link_format.specs.Profile.{Profile, HasTags, delay};
ghost use Rattle.link_box.specs.Checking.{checker, at_floor, passed};
ghost use Rattle.link_box.specs.Packet.{IsPacket};
ghost use Rattle.link_box.specs.Timely.{IsTimely};
ghost use Rattle.link_box.specs.Verdicts.{CheckState, checked};
ghost use Rattle.link_box.specs.Verdicts.Verdict.{passed_with};
ghost use Rattle.receiver_laws.specs.Accounted.{IsAccountedFor};
ghost use Rattle.receiver_laws.specs.Headline.{ReadsWhatWasSealed};
ghost use Rattle.receiver_laws.specs.Reading.{ReadsWhatPassed};
ghost use Rattle.receiver_laws.specs.Standing.{HavePassed, numbered_frame};

use line_rules::LineRules;

/// A law of the receiver's definitions, for each profile, floor and link: at every moment, a stated
/// device on the receiver's line has read only frames that have passed, and it has read all of them
/// once silence follows for the delay and for as long as a frame takes to end. The stated devices
/// are the Modbus RTU device and the DNP3 device, and the members of both families. A Modbus RTU
/// member ends a burst at `cut` silent ticks in a row, with a cut from 2 up to the receiver's
/// delay, and allows up to `gap` of them in a row inside a frame, with a gap of 1 or more. A DNP3
/// member forgets what it has taken at `cut` silent ticks in a row, with a cut of 2 or more. If its
/// cut is 0, it ignores silence.
pub fn device_reads_what_passed()
    ensures { (device : StatedDevice) (profile : Profile) → IsStatedWithin (delay profile) device
        → (floor : ℕ) (link : List Tick)
        → ReadsWhatPassed (stated_rules device) (stated_reads device) (stated_silence device)
        profile floor link }
{}

/// A law of the receiver's definitions, for the rules of each protocol, each profile whose delay is
/// long enough for the header, and each floor: the notes, the receiver's line and the passed frames
/// of a longer link begin with those of the link so far.
pub fn longer_links<R: LineRules>()
    /// The notes and the receiver's line of a longer link begin with those of the link.
    ensures extends { (profile : Profile) → IsTimely profile R.rules
        → (floor : ℕ) (link more : List Tick)
        → Extends (checker profile R.rules) (at_floor floor) link more }
    /// The frames that pass of a longer link begin with those of the link.
    ensures kept { (profile : Profile) → IsTimely profile R.rules
        → (floor : ℕ) (link more : List Tick)
        → Begins (passed profile R.rules floor link) (passed profile R.rules floor (link ++ more)) }
{}

/// A law of the receiver's definitions, for the rules of each protocol and each profile, floor and
/// link: the numbers of the passed frames rise from the floor, so none passes twice, and none is
/// above the limit. Each is a frame of the protocol, and its packet, with the word and tag of its
/// number, is on the link, if the link's bytes are below 256 and a word has at least one byte.
pub fn passed_frames_stand_on_the_link<R: LineRules>()
    ensures { (profile : Profile) (floor : ℕ) (link : List Tick)
        → HavePassed profile R.rules floor link (passed profile R.rules floor link) }
{}

/// A law of the receiver's definitions, for the rules of each protocol, each profile whose tags
/// have its tag length, and each state: the verdict on a whole packet is that it passes with its
/// number. So on any link, whatever else is on it, each burst that is a whole packet in the state
/// in which the bursts before it leave the receiver is among the frames that pass.
pub fn whole_packets_pass<R: LineRules>()
    /// The verdict on a whole packet is that it passes with its number.
    ensures verdict { (profile : Profile) → HasTags profile
        → (s : CheckState) (d : Burst) (number : ℕ) → IsPacket profile R.rules s d number
        → checked profile R.rules s d ≡ passed_with number }
    /// On any link, each burst that is a whole packet in the state in which the bursts before it
    /// leave the receiver is among the frames that pass.
    ensures passes { (profile : Profile) → HasTags profile
        → (floor : ℕ) (link : List Tick) (front : List Burst) (d : Burst) (back : List Burst)
        (number : ℕ) → bursts link ≡ front ++ d ∷ back
        → IsPacket profile R.rules
        (state_after (checker profile R.rules) (at_floor floor) front) d number
        → Contains (passed profile R.rules floor link) (numbered_frame R.rules d number) }
{}

/// A law of the transmitter's and the receiver's definitions, for the rules of each protocol, each
/// profile, any floors, any line of a device and any link: however the link came about, the frames
/// that passed and aren't forged are, with their numbers, a subsequence of those that were sealed.
/// Numbers rise on both sides, so none is sealed or passed twice. A frame is forged if it passed,
/// so that its tag fits, but wasn't sealed with its number.
pub fn passed_frames_are_accounted_for<R: LineRules>()
    ensures { (profile : Profile) (seal_floor check_floor : ℕ) (line link : List Tick)
        → IsAccountedFor seal_floor check_floor (sealed profile R.rules seal_floor line)
        (passed profile R.rules check_floor link) }
{}

/// A law of the transmitter's and the receiver's definitions, for each profile, any floors, any
/// line of a device and any link: however the link was altered, cut, repeated or reordered, the
/// frames that a stated device behind the receiver reads are a subsequence of those that the
/// transmitter sealed, unless one that passed is forged. The stated devices are those of
/// `device_reads_what_passed`.
pub fn device_reads_what_was_sealed()
    ensures { (device : StatedDevice) (profile : Profile) → IsStatedWithin (delay profile) device
        → (seal_floor check_floor : ℕ) (line link : List Tick)
        → ReadsWhatWasSealed (stated_rules device) (stated_reads device) (stated_silence device)
        profile seal_floor check_floor line link }
{}
