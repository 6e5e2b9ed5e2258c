//! What is done to the link in a period of a session.
ghost use Rattle.std.specs.Prelude.{◌≡◌};
ghost use Rattle.trial_session.specs.Alterations.{alteration_of};

/// What is done to the ticks of a period on the link.
#[derive(Clone, Copy, Debug, PartialEq, Eq)]
pub enum Alteration {
    /// Nothing.
    Nothing,
    /// The byte at this place has the bits of `value` turned. A silent tick there becomes the byte
    /// `value`.
    Change { place: usize, value: u8 },
    /// The whole period is silent.
    Lose,
    /// The first half of the period comes again in place of the second half.
    Repeat,
    /// All ticks from this place on are silent.
    CutOff { place: usize },
}

/// Returns the alteration of a kind, which is a number from 0 to 7. Half of the kinds change
/// nothing.
pub fn alteration_of(kind: u32, place: usize, value: u8) -> Alteration
    ensures { result ≡ alteration_of kind place value }
{
    match kind {
        4 => Alteration::Change { place, value },
        5 => Alteration::Lose,
        6 => Alteration::Repeat,
        7 => Alteration::CutOff { place },
        _ => Alteration::Nothing,
    }
}
