//! The bytes that leave for one burst, and the ending that is spoiled if the burst is refused.
ghost use Rattle.std.specs.Prelude.{◌≡◌, ℕ, ◌-◌, List, ◌∷◌, [], ◌++◌, Bool, true, false};
ghost use Rattle.std.specs.Prelude.{nat_lt};
ghost use Rattle.line_rules.specs.Outlet.{OutletStandsForTicks, OutletRefuses, owed_by, refused_by, emitted};
ghost use Rattle.line_rules.specs.Outlet.{owed_after, filled, filled_bytes};

use crate::LineRules;

/// The bytes that leave for one burst. Only the last one, and what follows it, depends on whether
/// the burst passes; the others can leave before that is known. So the outlet hears of a burst at
/// its verdict, and only if the burst is refused.
///
/// The last byte of a burst that isn't passed is spoiled, unless bytes that the header says are
/// still lacking. Then a fill of bytes 00 follows, up to the size that the header says, and the
/// last byte of the fill is spoiled: a device that counts bytes waits for no more after it.
#[derive(Drop)]
pub struct Outlet<R> {
    // all bytes of the last burst that was refused, and those of its fill that have left
    refused: R,
    // how many bytes of a fill haven't left yet
    owed: u16,
}

impl<R: LineRules> Outlet<R> {
    /// Makes an outlet that has sent no byte, and owes none.
    pub fn new() -> Outlet<R>
        ensures { owed_by result ≡ 0 }
    {
        Outlet {
            refused: R::fresh(),
            owed: 0,
        }
    }

    /// Begins with another burst, of which no byte has left.
    #[inline]
    pub fn begin(&mut self)
        /// No byte of a fill is owed.
        ensures owed { owed_by self.new ≡ 0 }
        /// The bytes of the last refused burst are as they were.
        ensures refused { refused_by self.new ≡ refused_by self.old }
    {
        self.owed = 0;
    }

    /// Takes the bytes of a burst that is refused: all of them, those that have left and those that
    /// haven't left yet.
    #[inline]
    pub fn refuse(&mut self, all: R)
        /// These are the bytes of the last refused burst.
        ensures refused { refused_by self.new ≡ all }
        /// What is owed of a fill is as it was.
        ensures owed { owed_by self.new ≡ owed_by self.old }
    {
        self.refused = all;
    }

    /// Returns what leaves for the next byte of the burst: itself, unless it is the last one of a
    /// burst that isn't passed. Such a burst must have been refused before.
    #[inline]
    pub fn emit(&mut self, b: u8, last: bool, passed: bool) -> u8
        /// It is the byte itself; but the last one of a burst that isn't passed and lacks no byte
        /// is spoiled.
        ensures answer { (x : List ℕ)
            → (last ≡ true → passed ≡ false → OutletRefuses R.LineRules self.old (x ++ b ∷ []))
            → result ≡ emitted R.rules x b last passed }
        /// Of a fill, as many bytes are owed as the burst lacks after its last byte, if it isn't
        /// passed, and otherwise none.
        ensures owed { (x : List ℕ)
            → (last ≡ true → passed ≡ false → OutletRefuses R.LineRules self.old (x ++ b ∷ []))
            → owed_by self.new ≡ owed_after R.rules x b last passed }
        /// The outlet represents the bytes with this one.
        ensures stands { (x : List ℕ)
            → (last ≡ true → passed ≡ false → OutletRefuses R.LineRules self.old (x ++ b ∷ []))
            → OutletStandsForTicks R.LineRules self.new (x ++ b ∷ []) }
        /// The bytes of the last refused burst are as they were.
        ensures refused { refused_by self.new ≡ refused_by self.old }
    {
        if !last {
            self.owed = 0;
            return b;
        }
        if passed {
            self.owed = 0;
            return b;
        }
        self.owed = self.refused.lacking();
        if self.owed > 0 {
            return b;
        }
        if self.refused.ends_right() { b ^ 1 } else { b }
    }

    /// Returns the next byte of the fill, or `None` if none is owed.
    #[inline]
    pub fn fill(&mut self) -> Option<u8>
        /// The outlet represents its bytes with the one that is returned.
        ensures stands { (x : List ℕ) → OutletStandsForTicks R.LineRules self.old x
            → OutletStandsForTicks R.LineRules self.new (x ++ filled_bytes result) }
        /// It is 00, or for the last byte of the fill what 00 is spoiled to; or none if none is
        /// owed.
        ensures answer { (x : List ℕ) → OutletStandsForTicks R.LineRules self.old x
            → result ≡ filled R.rules x (owed_by self.old) }
        /// One byte fewer is owed.
        ensures owed { (x : List ℕ) → OutletStandsForTicks R.LineRules self.old x
            → owed_by self.new ≡ owed_by self.old - 1 }
        /// If none is owed, the outlet is as it was.
        ensures unowed { owed_by self.old ≡ 0 → self.new ≡ self.old }
    {
        if self.owed == 0 {
            return None;
        }
        // there is room for what a frame lacks
        if self.refused.full() {
            return None;
        }
        self.refused.take(0);
        self.owed -= 1;
        if self.owed > 0 {
            return Some(0);
        }
        if self.refused.ends_right() {
            Some(1)
        } else {
            Some(0)
        }
    }

    /// Whether the outlet owes bytes of a fill.
    #[inline]
    pub fn owes(&self) -> bool
        ensures { result ≡ nat_lt 0 (owed_by self.now) }
    {
        self.owed > 0
    }
}
