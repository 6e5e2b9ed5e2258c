//! The law that a link works again by itself once it is left alone.
ghost use Rattle.std.specs.Prelude.{◌≤◌, ◌-◌, ℕ, List};
ghost use Rattle.yasir_ticks.specs.Ticks.{AreTicks};
ghost use Rattle.yasir_ticks.specs.declared.tick.Tick.{Tick};
ghost use Rattle.link_format.specs.Profile.{Profile, HasTags};
ghost use Rattle.device_model.specs.Stated.{StatedDevice, stated_rules, stated_lack};
ghost use Rattle.receiver_laws.specs.Recovery.{IsLeftAlone, LackAtMost, Recovers};

use line_rules::LineRules;

/// A law of the transmitter's and the receiver's definitions, for the rules of each protocol and
/// each profile: a link that is left alone from a tick on works again by itself, whatever was on it
/// before. Each packet that is due passes. A packet is due if it is whole, its number is near
/// enough to the receiver's floor, and it starts late enough after the first of the four silent
/// ticks: by at least the receiver's delay, and a tick for each byte that a burst of the protocol
/// can lack.
pub fn untouched_link_recovers<R: LineRules>()
    /// Each packet that is due passes, if tags have their length, words have a byte or more, the
    /// link's bytes are below 256, and the transmitter's floor is within the limit.
    ensures recovers { (profile : Profile) → HasTags profile → 1 ≤ profile.word_len
        → (most : ℕ) → LackAtMost R.rules most
        → (seal_floor check_floor : ℕ) → seal_floor ≤ profile.limit
        → (line link : List Tick) → AreTicks link → (tick : ℕ)
        → IsLeftAlone profile R.rules seal_floor check_floor line link tick
        → Recovers profile R.rules seal_floor check_floor line link tick most }
    /// By any protocol's rules, a burst lacks at most the bytes that the longest frame has after
    /// its header.
    ensures lacks { LackAtMost R.rules (R.rules.longest - R.rules.header_len) }
{}

/// A law of the rules of the stated devices: in Modbus RTU, in which no header says a size, a burst
/// lacks no byte, and in DNP3 at most 282, those after the header of the longest frame.
pub fn lacking_bytes_are_bounded()
    ensures { (device : StatedDevice) → LackAtMost (stated_rules device) (stated_lack device) }
{}
