//! Laws of a spacer behind the receiver: to every device it gives only frames that were sealed.
ghost use Rattle.std.specs.Prelude.{◌≡◌, ◌≤◌, ◌⊎◌, ℕ, List};
ghost use Rattle.yasir_ticks.specs.declared.TheConstants.{T3_5_TICKS};
ghost use Rattle.yasir_ticks.specs.declared.tick.Tick.{Tick};
ghost use Rattle.device_model.specs.HuntFamily.{hunt_family};
ghost use Rattle.device_model.specs.Stated.{StatedDevice, stated_rules, stated_reads};
ghost use Rattle.device_model.specs.Stated.{stated_silence, IsStatedWithin};
ghost use Rattle.link_format.specs.Profile.{Profile, HasTags, delay};
ghost use Rattle.receiver_laws.specs.Untouched.{IsUntouchedLink};
ghost use Rattle.spacer_laws.specs.GivingAll.{HasRoomFor, GivesAll};
ghost use Rattle.spacer_laws.specs.Guarding.{GivesOnlySealed};

use device_model::Hunted;

/// A law of the spacer's, the transmitter's and the receiver's definitions, for each profile, any
/// floors, any line of a device and any link, at every moment, and each gap of at least the silence
/// that divides bursts: however the link was altered, cut, repeated or reordered, a spacer that
/// hears the receiver's line gives only silence and frames that have passed. The frames are whole,
/// in order and at least the gap apart, and each number comes at most once. The last of them may
/// still be unfinished. If none of the frames that passed is forged, they are frames that were
/// sealed, in their order.
///
/// So this holds for any device behind the spacer, whatever it makes of bytes and silence. The
/// spacer may hear as each stated device does: as a Modbus RTU device or a DNP3 device, or as a
/// member of either family. A Modbus RTU member must have a cut from 2 silent ticks up to the
/// receiver's delay.
pub fn only_sealed_frames_are_given()
    ensures { (device : StatedDevice) (profile : Profile) → IsStatedWithin (delay profile) device
        → (gap cap seal_floor check_floor : ℕ) (line link : List Tick) → T3_5_TICKS ≤ gap
        → GivesOnlySealed profile (stated_rules device) (stated_reads device) gap cap seal_floor
        check_floor line link }
{}

/// The law `only_sealed_frames_are_given` for the rules of each protocol whose devices hunt for
/// frames, and a spacer that hears as any hunting device does: one that ignores silence, with a cut
/// of 0, or one that forgets what it has taken at two or more silent ticks in a row.
pub fn only_sealed_hunted_frames_are_given<R: Hunted>()
    ensures { (cut : ℕ) (profile : Profile) (gap cap seal_floor check_floor : ℕ)
        (line link : List Tick) → T3_5_TICKS ≤ gap → (cut ≡ 0) ⊎ (2 ≤ cut)
        → GivesOnlySealed profile R.rules (hunt_family R.FIRST R.SECOND R.rules cut) gap cap
        seal_floor check_floor line link }
{}

/// A law of the spacer's, the transmitter's and the receiver's definitions, for each profile, any
/// floors, and any line of a device whose frames are spaced: if nothing is changed on the link, and
/// as many frames may wait as come while the longest is sent, a spacer behind the receiver loses no
/// frame. It gives all of them, in order, each whole and byte after byte. It begins with each at
/// most this many ticks after the frame began on the device's line: the receiver's delay, the ticks
/// of the longest frame, and the ticks after a frame's end that it takes to read it. This holds for
/// each spacer of `only_sealed_frames_are_given`.
pub fn untouched_link_gives_all()
    ensures { (device : StatedDevice) (profile : Profile) → IsStatedWithin (delay profile) device
        → HasTags profile → 1 ≤ profile.word_len
        → (floor behind : ℕ) (line : List Tick) (more rest most gap cap : ℕ)
        → IsUntouchedLink profile (stated_rules device) floor behind line more
        → HasRoomFor profile most gap cap line
        → GivesAll profile (stated_rules device) (stated_reads device) (stated_silence device) most
        gap cap floor behind line more rest }
{}

/// The law `untouched_link_gives_all` for the rules of each protocol whose devices hunt for frames,
/// and a spacer that hears as any hunting device does: one that ignores silence, with a cut of 0,
/// or one that forgets what it has taken at two or more silent ticks in a row.
pub fn untouched_link_gives_all_hunted<R: Hunted>()
    ensures { (cut : ℕ) (profile : Profile) → HasTags profile → 1 ≤ profile.word_len
        → (floor behind : ℕ) (line : List Tick) (more rest most gap cap : ℕ)
        → IsUntouchedLink profile R.rules floor behind line more
        → HasRoomFor profile most gap cap line
        → (cut ≡ 0) ⊎ (2 ≤ cut)
        → GivesAll profile R.rules (hunt_family R.FIRST R.SECOND R.rules cut) 0
        most gap cap floor behind line more rest }
{}
