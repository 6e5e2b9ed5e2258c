//! The law that both profiles meet what the other laws ask of a profile.
ghost use Rattle.std.specs.Prelude.{ℕ};
ghost use Rattle.link_format.specs.Setup.{Setup};
ghost use Rattle.receiver_laws.specs.Fitting.{IsFit, StatedProfile, stated_profile};

use line_rules::LineRules;

/// A law of both profiles, with the rules of each protocol: they meet all that the other laws ask
/// of a profile, whatever the protocol's number, the limit, the key, the direction and the floor.
/// So each of those laws holds of both.
pub fn stated_profiles_are_fit<R: LineRules>()
    ensures { (which : StatedProfile) (label limit : ℕ) (setup : Setup)
        → IsFit (stated_profile which label limit setup) R.rules }
{}
