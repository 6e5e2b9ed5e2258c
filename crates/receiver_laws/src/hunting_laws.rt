//! Laws for every device that hunts for frames behind the receiver.
ghost use Rattle.std.specs.Prelude.{ℕ, ◌≤◌, List};
ghost use Rattle.yasir_ticks.specs.declared.tick.Tick.{Tick};
ghost use Rattle.device_model.specs.Frames.{FrameRead};
ghost use Rattle.device_model.specs.Hunt.{hunt_line, hunt_anew};
ghost use Rattle.link_format.specs.Profile.{Profile};
ghost use Rattle.receiver_laws.specs.Headline.{ReadsWhatWasSealed};
ghost use Rattle.receiver_laws.specs.Hunters.{IsHunter};
ghost use Rattle.receiver_laws.specs.OverUptimes.{BoxUptime, BothGoOn, ReadsOverUptimes};
ghost use Rattle.receiver_laws.specs.Reading.{ReadsWhatPassed};

use device_model::Hunted;

/// A law of the receiver's definitions, for the rules of each protocol whose devices hunt for
/// frames, and each profile, floor and link: at every moment, a device that hunts on the receiver's
/// line has read only frames that have passed, and all of them once silence follows for the delay.
/// The same holds for a device that forgets what it has taken at `cut` silent ticks in a row, with
/// a cut of 2 or more, and then hunts anew. It also holds for any device that takes contiguous
/// ticks, in which no two silent ones come in a row, as the hunt does if the hunt takes all of
/// them, and is then at rest, whatever it makes of longer silence inside a frame (`IsHunter`).
pub fn hunting_device_reads_what_passed<R: Hunted>()
    /// It holds for a device that hunts.
    ensures hunt { (profile : Profile) (floor : ℕ) (link : List Tick)
        → ReadsWhatPassed R.rules (hunt_line R.FIRST R.SECOND R.rules) 0 profile floor link }
    /// It holds for a device that hunts anew after `cut` silent ticks, for a cut of at least 2.
    ensures anew { (cut : ℕ) (profile : Profile) (floor : ℕ) (link : List Tick) → 2 ≤ cut
        → ReadsWhatPassed R.rules (hunt_anew R.FIRST R.SECOND R.rules cut 0) 0 profile floor link }
    /// It holds for each other device that is an `IsHunter`.
    ensures others { (read : ℕ → List Tick → List FrameRead)
        → IsHunter R.FIRST R.SECOND R.rules read
        → (profile : Profile) (floor : ℕ) (link : List Tick)
        → ReadsWhatPassed R.rules (read 0) 0 profile floor link }
{}

/// A law of the transmitter's and the receiver's definitions, for the rules of each protocol whose
/// devices hunt for frames, and each profile, any floors, any line of a device and any link:
/// however the link was altered, cut, repeated or reordered, the frames that a hunting device
/// behind the receiver reads are a subsequence of those that the transmitter sealed, unless one
/// that passed is forged. The same holds for the other devices of
/// `hunting_device_reads_what_passed`.
pub fn hunting_device_reads_what_was_sealed<R: Hunted>()
    /// It holds for a device that hunts.
    ensures hunt { (profile : Profile) (seal_floor check_floor : ℕ) (line link : List Tick)
        → ReadsWhatWasSealed R.rules (hunt_line R.FIRST R.SECOND R.rules) 0 profile seal_floor
        check_floor line link }
    /// It holds for a device that hunts anew after `cut` silent ticks, for a cut of at least 2.
    ensures anew { (cut : ℕ) (profile : Profile) (seal_floor check_floor : ℕ)
        (line link : List Tick) → 2 ≤ cut
        → ReadsWhatWasSealed R.rules (hunt_anew R.FIRST R.SECOND R.rules cut 0) 0 profile seal_floor
        check_floor line link }
    /// It holds for each other device that is an `IsHunter`.
    ensures others { (read : ℕ → List Tick → List FrameRead)
        → IsHunter R.FIRST R.SECOND R.rules read
        → (profile : Profile) (seal_floor check_floor : ℕ) (line link : List Tick)
        → ReadsWhatWasSealed R.rules (read 0) 0 profile seal_floor check_floor line link }
{}

/// A law of the transmitter's and the receiver's definitions, for the rules of each protocol whose
/// devices hunt for frames, each profile, and any uptimes of both boxes of which none loads a floor
/// below the last number of the one before: the frames that a hunting device behind the receiver
/// reads in all uptimes are a subsequence of those that the transmitter sealed in all uptimes,
/// unless one that passed is forged. The same holds for the other devices of
/// `hunting_device_reads_what_passed`. It is a premise that the device is at rest when each uptime
/// of the receiver begins.
pub fn hunting_device_reads_sealed_over_uptimes<R: Hunted>()
    /// It holds for a device that hunts.
    ensures hunt { (profile : Profile) (seal_floor check_floor : ℕ) (seals checks : List BoxUptime)
        → BothGoOn profile R.rules seal_floor check_floor seals checks
        → ReadsOverUptimes R.rules (hunt_line R.FIRST R.SECOND R.rules) profile seal_floor
        check_floor seals checks }
    /// It holds for a device that hunts anew after `cut` silent ticks, for a cut of at least 2.
    ensures anew { (cut : ℕ) (profile : Profile) (seal_floor check_floor : ℕ)
        (seals checks : List BoxUptime) → 2 ≤ cut
        → BothGoOn profile R.rules seal_floor check_floor seals checks
        → ReadsOverUptimes R.rules (hunt_anew R.FIRST R.SECOND R.rules cut 0) profile seal_floor
        check_floor seals checks }
    /// It holds for each other device that is an `IsHunter`.
    ensures others { (read : ℕ → List Tick → List FrameRead)
        → IsHunter R.FIRST R.SECOND R.rules read
        → (profile : Profile) (seal_floor check_floor : ℕ) (seals checks : List BoxUptime)
        → BothGoOn profile R.rules seal_floor check_floor seals checks
        → ReadsOverUptimes R.rules (read 0) profile seal_floor check_floor seals checks }
{}
