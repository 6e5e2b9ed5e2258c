//! The law that an untouched link delivers all of a device's line.
ghost use Rattle.std.specs.Prelude.{◌≤◌, ℕ, List};
ghost use Rattle.yasir_ticks.specs.declared.tick.Tick.{Tick};
ghost use Rattle.link_format.specs.Profile.{Profile, HasTags};
ghost use Rattle.receiver_laws.specs.Untouched.{IsUntouchedLink, DeliversAll};

use line_rules::LineRules;

/// A law of the transmitter's and the receiver's definitions, for the rules of each protocol and
/// each profile: if a device's frames are spaced and nothing is changed on the link, all of them
/// pass, and the receiver's line is the device's line, later by the receiver's delay.
pub fn untouched_link_delivers_all<R: LineRules>()
    ensures { (profile : Profile) → HasTags profile → 1 ≤ profile.word_len
        → (floor behind : ℕ) (line : List Tick) (more rest : ℕ)
        → IsUntouchedLink profile R.rules floor behind line more
        → DeliversAll profile R.rules floor behind line more rest }
{}
