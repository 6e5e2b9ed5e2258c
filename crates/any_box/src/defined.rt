//! What each of the eight boxes and of the four spacers is by the definitions, as clauses say it
//! that name no protocol and no profile.
ghost use Rattle.std.specs.Prelude.{◌≡◌, ℕ, List, [], length};
ghost use Rattle.yasir_ticks.specs.declared.tick.Tick.{Tick};
ghost use Rattle.link_format.specs.Setup.{Setup};
ghost use Rattle.any_box.specs.Noting.{Definition};
ghost use Rattle.any_box.specs.declared.kind.Kind.{Kind};

/// The boxes of all kinds, as one type.
pub trait DefinedBox {
    /// What a box of a kind makes of a line by the definitions.
    ghost defined: { Kind → Definition };

    /// Holds if a box with this setup has taken these ticks, and the last number that it used is
    /// this one.
    ghost stands: { Self → ℕ → Setup → List Tick → Type 0 };
}

/// The spacers of all kinds, as one type.
pub trait DefinedSpacer {
    /// How many ticks a spacer has taken.
    ghost taken: { Self → ℕ };

    /// Holds if a spacer, with room for this many frames to wait, has taken this line.
    ghost stands: { ℕ → Self → List Tick → Type 0 };
}
