//! Laws over any number of uptimes of both boxes, each box over its own journal.
ghost use Rattle.std.specs.Prelude.{ℕ, List};
ghost use Rattle.yasir_ticks.specs.declared.tick.Tick.{Tick};
ghost use Rattle.yasir_io.specs.Disks.{Slots};
ghost use Rattle.device_model.specs.Stated.{StatedDevice, stated_rules, stated_reads};
ghost use Rattle.device_model.specs.Stated.{IsStatedWithin};
ghost use Rattle.sequence_journal.specs.declared.link.LinkId.{LinkId};
ghost use Rattle.sequence_journal.specs.Uptimes.{RiseFrom, HasNoFloorBelow};
ghost use Rattle.link_format.specs.NumberedFrame.{NumberedFrame, numbers_of};
ghost use Rattle.link_format.specs.Profile.{Profile, delay};
ghost use Rattle.receiver_laws.specs.Accounted.{IsAccountedFor};
ghost use Rattle.receiver_laws.specs.OverUptimes.{BoxUptime, GoOnFrom, ShareDisk, BothGoOn};
ghost use Rattle.receiver_laws.specs.OverUptimes.{sealed_over, passed_over_uptimes};
ghost use Rattle.receiver_laws.specs.OverUptimes.{ReadsOverUptimes};

use line_rules::LineRules;

/// A law of the transmitter's and the receiver's definitions, for the rules of each protocol, each
/// profile, and any uptimes of both boxes, at whatever moments they ended, of which none loads a
/// floor below the last number of the one before: however the link came about, the frames that
/// passed in all uptimes and aren't forged are, with their numbers, a subsequence of those that
/// were sealed in all uptimes. Numbers rise over all uptimes on both sides, so none is sealed or
/// passed twice. A frame is forged here if it passed, but no uptime sealed it with its number.
///
/// Uptimes over one disk load such floors if each begins on the image that the one before left and
/// is an uptime with the numbers of its frames. Between two of them, runs may end before they have
/// loaded a floor. All that the law asks of the numbers is that they rise on each side.
pub fn uptimes_are_accounted_for<R: LineRules>()
    /// The frames that passed in all uptimes and aren't forged are, with their numbers, a
    /// subsequence of those that were sealed in all uptimes, and numbers rise over all uptimes on
    /// both sides.
    ensures over { (profile : Profile) (seal_floor check_floor : ℕ) (seals checks : List BoxUptime)
        → BothGoOn profile R.rules seal_floor check_floor seals checks
        → IsAccountedFor seal_floor check_floor (sealed_over profile R.rules seals)
        (passed_over_uptimes profile R.rules checks) }
    /// Uptimes over one disk, each of which begins on the image that the one before left, load no
    /// floor below the last number of the one before.
    ensures on_a_disk { (frames : ℕ → List Tick → List NumberedFrame) (link : LinkId)
        (begins : Slots) (floor : ℕ) (uptimes : List BoxUptime)
        → HasNoFloorBelow link floor begins
        → ShareDisk frames link begins uptimes → GoOnFrom frames floor uptimes }
    /// All that the law asks of the numbers is that they rise on each side.
    ensures rising { (seal_floor check_floor : ℕ) (sealed_ones passed_ones : List NumberedFrame)
        → RiseFrom seal_floor (numbers_of sealed_ones)
        → RiseFrom check_floor (numbers_of passed_ones)
        → IsAccountedFor seal_floor check_floor sealed_ones passed_ones }
{}

/// A law of the transmitter's and the receiver's definitions, for each profile and any uptimes of
/// both boxes of which none loads a floor below the last number of the one before: however the link
/// was altered, cut, repeated or reordered, also from one uptime to another, the frames that a
/// stated device behind the receiver reads in all uptimes are a subsequence of those that the
/// transmitter sealed in all uptimes, unless one that passed is forged. The stated devices are
/// those of `device_reads_what_passed`.
///
/// It is a premise that the device is at rest when each uptime of the receiver begins: it begins to
/// read the receiver's line anew there. Nothing is said about what it makes of a burst that a stop
/// of the receiver cut short.
pub fn device_reads_what_was_sealed_over_uptimes()
    ensures { (device : StatedDevice) (profile : Profile) → IsStatedWithin (delay profile) device
        → (seal_floor check_floor : ℕ) (seals checks : List BoxUptime)
        → BothGoOn profile (stated_rules device) seal_floor check_floor seals checks
        → ReadsOverUptimes (stated_rules device) (stated_reads device) profile seal_floor
        check_floor seals checks }
{}
