//! The direction of a line, and its number in the tagged text.
ghost use Rattle.std.specs.Prelude.{◌≡◌};
ghost use Rattle.link_format.specs.Directions.{opposite_of};
ghost use Rattle.link_format.specs.Tag.{direction_number};

/// The direction of a line between two ends, a and b.
#[derive(Clone, Copy, Debug, PartialEq, Eq)]
pub enum Dir {
    /// From a to b.
    Ab,
    /// From b to a.
    Ba,
}

impl Dir {
    /// Returns the number of the direction in the tagged text: 0 for `ab`, 1 for `ba`.
    #[inline]
    pub fn number(self) -> u8
        ensures { result ≡ direction_number self }
    {
        match self {
            Dir::Ab => 0,
            Dir::Ba => 1,
        }
    }

    /// Returns the other direction of the line.
    #[inline]
    pub fn opposite(self) -> Dir
        ensures { result ≡ opposite_of self }
    {
        match self {
            Dir::Ab => Dir::Ba,
            Dir::Ba => Dir::Ab,
        }
    }
}
