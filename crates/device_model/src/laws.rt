//! Laws of the devices' definitions: what a transmitter takes for a frame is what a device reads.
ghost use Rattle.std.specs.Prelude.{◌≡◌, true, List};
ghost use Rattle.std.specs.List.{Contains};
ghost use Rattle.yasir_ticks.specs.Ticks.{bytes_in};
ghost use Rattle.yasir_ticks.specs.Bursts.{Burst, bursts};
ghost use Rattle.yasir_ticks.specs.declared.TheConstants.{T1_5_TICKS};
ghost use Rattle.yasir_ticks.specs.declared.tick.Tick.{Tick};
ghost use Rattle.frame_ending.specs.LiveBytes.{live_bytes};
ghost use Rattle.rtu_frame.specs.Rules.{rtu_rules};
ghost use Rattle.device_model.specs.Forwarded.{is_forwarded, rtu_forwarded};
ghost use Rattle.device_model.specs.Hunt.{Timed};
ghost use Rattle.device_model.specs.HuntLaws.{HuntsByCases};
ghost use Rattle.device_model.specs.RtuReads.{is_frame_body, rtu_reads};
ghost use Rattle.device_model.specs.Stated.{StatedDevice, stated_reads, member_of};

use crate::hunted::Hunted;

/// What a transmitter takes for a frame is what a Modbus RTU device reads: a burst meets the test
/// of the one exactly if it meets that of the other, and then all its bytes are live. So the frames
/// that the device reads are those that are forwarded, from the bursts that four silent ticks
/// follow. This is a law of the definitions, for each line.
pub fn forwarded_frames_are_read()
    /// A burst is forwarded as a frame exactly if the device takes its ticks for a frame.
    ensures same { (line : List Tick) (d : Burst) → Contains (bursts line) d
        → is_forwarded rtu_rules d ≡ is_frame_body T1_5_TICKS d.body }
    /// If the device takes a burst for a frame, all its bytes are live.
    ensures whole { (line : List Tick) (d : Burst) → Contains (bursts line) d
        → is_frame_body T1_5_TICKS d.body ≡ true
        → live_bytes rtu_rules d ≡ bytes_in d.body }
    /// What the device reads of a line are the frames that are forwarded, from the bursts that four
    /// silent ticks follow.
    ensures read { (line : List Tick) → rtu_reads line ≡ rtu_forwarded line }
{}

/// What is read from a list of bytes, case by case. This is a law of the hunt, for the rules of
/// each protocol whose devices hunt for frames.
pub fn hunts_by_cases<R: Hunted>()
    ensures { (x : List Timed) → HuntsByCases R.FIRST R.SECOND R.rules x }
{}

/// The Modbus RTU device and the DNP3 device are members of the families: the one for which four
/// silent ticks end a burst and which allows one inside a frame, and the one that ignores silence.
/// This is a law of the definitions, for each line.
pub fn stated_devices_are_members()
    ensures { (device : StatedDevice) (line : List Tick)
        → stated_reads device line ≡ stated_reads (member_of device) line }
{}
