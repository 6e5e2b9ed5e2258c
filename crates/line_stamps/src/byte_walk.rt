//! Readers that take a format byte by byte: where such a reader gets to over a whole list of bytes,
ghost use Rattle.std.specs.Prelude.{◌≡◌, ℕ, ◌++◌, List, Option, Result, Ok};
ghost use Rattle.line_stamps.specs.Walks.{walk, after_items};

/// A law of the definitions: it doesn't matter in which pieces the bytes come. If a reader gets to
/// `to` over the first list, its walk over both lists gives the items of the first one, and then
/// what its walk over the second one from `to` gives.
pub fn walks_in_pieces()
    ensures { (step : ℕ → ℕ → Result (ℕ × Option ℕ) ℕ) (from to : ℕ) (first second items : List ℕ)
        → walk step from first ≡ Ok (to, items)
        → walk step from (first ++ second) ≡ after_items items (walk step to second) }
{}
