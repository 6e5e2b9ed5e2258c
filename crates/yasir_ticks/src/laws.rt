//! The law of canonical text.
ghost use Rattle.std.specs.Prelude.{◌≡◌, List, map};
ghost use Rattle.yasir_ticks.specs.CanonicalText.{canonical_text};
ghost use Rattle.yasir_ticks.specs.TickText.{IsTickText};
ghost use Rattle.yasir_ticks.specs.Ticks.{AreTicks};
ghost use Rattle.yasir_ticks.specs.Ticks.Item.{tick};
ghost use Rattle.yasir_ticks.specs.declared.tick.Tick.{Tick};

/// A law of canonical text: for any ticks it is a right tick text without a mark, and represents
/// these ticks. So no two different lists of ticks have the same canonical text.
pub fn canonical_text_stands_for_its_ticks()
    /// The canonical text of ticks is a right tick text without a mark, and represents these ticks.
    ensures stands { (ticks : List Tick) → AreTicks ticks
        → IsTickText 0 (canonical_text ticks) (map tick ticks) }
    /// No two different lists of ticks have the same canonical text.
    ensures alone { (a b : List Tick) → AreTicks a → AreTicks b
        → canonical_text a ≡ canonical_text b → a ≡ b }
{}
