//! The phases of a receiver.
ghost use Rattle.std.specs.Prelude.{◌≡◌};
ghost use Rattle.check_receiver.specs.Phases.{is_open, passes_in, settled};

/// What a receiver is doing. The first byte of a burst that doesn't start too soon opens its
/// verdict, and the burst's note ends that. The receiver is then idle as soon as all of the burst
/// that leaves has left, which is at once if nothing of it leaves.
#[derive(Clone, Copy)]
pub enum Phase {
    /// No verdict is open, and everything has left.
    Idle,
    /// The verdict on a burst is open.
    Open,
    /// The verdict on a burst is known, whether it passes or is refused, and some of its live ticks
    /// are still leaving, or the fill after those of a refused one.
    Leaving { passed: bool },
}

impl Phase {
    /// Whether a verdict is open.
    #[inline]
    pub fn is_open(self) -> bool
        ensures { result ≡ is_open self }
    {
        match self {
            Phase::Open => true,
            Phase::Idle | Phase::Leaving { .. } => false,
        }
    }

    /// Whether a burst that has passed is still leaving.
    #[inline]
    pub fn passes(self) -> bool
        ensures { result ≡ passes_in self }
    {
        match self {
            Phase::Leaving { passed } => passed,
            Phase::Idle | Phase::Open => false,
        }
    }

    /// Returns the phase at the end of a step, if the last live tick leaves `until` steps later,
    /// and `owes` says whether bytes of a fill are owed. When all of a burst has left, the receiver
    /// is idle.
    #[inline]
    pub fn settled(self, until: u8, owes: bool) -> Phase
        ensures { result ≡ settled self until owes }
    {
        match self {
            Phase::Idle => Phase::Idle,
            Phase::Open => Phase::Open,
            Phase::Leaving { passed } => {
                if until > 0 {
                    return Phase::Leaving { passed };
                }
                if owes {
                    return Phase::Leaving { passed };
                }
                Phase::Idle
            }
        }
    }
}
