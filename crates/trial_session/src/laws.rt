//! The law that each drawn frame is sealed, and that the device reads as many as pass.
ghost use Rattle.std.specs.Prelude.{◌≤◌, ℕ};
ghost use Rattle.device_model.specs.Stated.{StatedDevice, stated_rules, stated_reads};
ghost use Rattle.device_model.specs.Stated.{IsStatedWithin};
ghost use Rattle.link_format.specs.Profile.{Profile, HasTags, delay, trailer_len};
ghost use Rattle.trial_session.specs.DrawLaws.{stated_drawing};
ghost use Rattle.trial_session.specs.Summaries.{trial_summary};
ghost use Rattle.trial_session.specs.Telling.{Tells};

/// A law of the definitions of a session, for both protocols and each profile with a trailer of at
/// most 20 bytes: if there are enough numbers, each frame that is drawn is sealed, and a stated
/// device reads as many frames as the receiver passes: the Modbus RTU device, the DNP3 device, or a
/// member of either family. A Modbus RTU member must have a cut from 2 silent ticks up to the
/// receiver's delay.
pub fn sessions_tell()
    ensures { (device : StatedDevice) (profile : Profile) → IsStatedWithin (delay profile) device
        → HasTags profile → 1 ≤ profile.word_len
        → trailer_len profile ≤ 20 → (seed count : ℕ) → count ≤ profile.limit
        → Tells (trial_summary (stated_drawing device) profile (stated_rules device)
        (stated_reads device) seed count) count }
{}
