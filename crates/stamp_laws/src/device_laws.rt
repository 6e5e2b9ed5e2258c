//! What the stated devices read of the line of a capture.

ghost use Rattle.std.specs.Prelude.{◌≡◌, ◌++◌, ◌≤◌, ℕ, List, map};
ghost use Rattle.yasir_ticks.specs.Ticks.{silent};
ghost use Rattle.yasir_ticks.specs.declared.TheConstants.{T3_5_TICKS};
ghost use Rattle.line_rules.specs.Rules.{Rules};
ghost use Rattle.device_model.specs.Hunt.{hunt, hunt_line};
ghost use Rattle.device_model.specs.RtuReads.{rtu_reads};
ghost use Rattle.line_stamps.specs.declared.capture.CaptureByte.{CaptureByte};
ghost use Rattle.line_stamps.specs.declared.timing.Spacing.TheVariants.{ByTime, ByRecord};
ghost use Rattle.line_stamps.specs.declared.timing.Timing.{Timing};
ghost use Rattle.line_stamps.specs.Parts.{character};
ghost use Rattle.line_stamps.specs.Places.{line_of_places, placed};
ghost use Rattle.stamp_laws.specs.Cuts.{frame_cut};
ghost use Rattle.stamp_laws.specs.HuntedBytes.{timed_byte};
ghost use Rattle.stamp_laws.specs.RecordFrames.{records_that_are_frames};
ghost use Rattle.stamp_laws.specs.TimedFrames.{frames_by_time};

/// A law of the definitions, for captures that are placed by their times: after the line and four
/// silent ticks or more, the stated Modbus RTU device has read the same frames of it as a device
/// that measures 1.5 and 3.5 characters of silence by time reads of the capture, each in the tick
/// of its first byte, and no other.
pub fn times_tell_what_is_read()
    ensures { (t : Timing) (cs : List CaptureByte) (n : ℕ) → t.spacing ≡ ByTime → T3_5_TICKS ≤ n
        → rtu_reads (line_of_places t cs ++ silent n)
        ≡ map frame_cut (frames_by_time (character t.rate) (placed t cs)) }
{}

/// A law of the definitions, for captures whose records are taken for frames: after the line and
/// four silent ticks or more, the stated Modbus RTU device has read each record that is a frame,
/// whatever its time, and nothing else.
pub fn records_tell_what_is_read()
    ensures { (t : Timing) (cs : List CaptureByte) (n : ℕ) → t.spacing ≡ ByRecord → T3_5_TICKS ≤ n
        → rtu_reads (line_of_places t cs ++ silent n)
        ≡ map frame_cut (records_that_are_frames (placed t cs)) }
{}

/// A law of the definitions, for each device that hunts for frames and ignores silence, as a DNP3
/// device does, by any two bytes with which a header begins and any rules: it reads of the line
/// what it reads of the bytes of the capture, whatever their times and whatever is taken for a
/// frame. Each frame is in the tick of its first byte.
pub fn bytes_tell_what_hunters_read()
    ensures { (first second : ℕ) (rules : Rules) (t : Timing) (cs : List CaptureByte) (n : ℕ)
        → hunt_line first second rules (line_of_places t cs ++ silent n)
        ≡ hunt first second rules 0 (map timed_byte (placed t cs)) }
{}
