//! The rate of a line: its baud, and the bits of a character.

ghost use Rattle.std.specs.Prelude.{◌≤◌};

/// The slowest rate, in baud.
pub const SLOWEST: u32 = 300;

/// The fastest rate, in baud.
pub const FASTEST: u32 = 115_200;

/// The rate of a line: 300 to 115,200 baud, and a character of 10 or 11 bits, including its start
/// and stop bits.
#[derive(Clone, Copy, Debug, PartialEq, Eq)]
pub struct Rate {
    /// The speed of the line, in baud.
    pub baud: u32,
    /// The length of a character, in bits.
    pub bits: u8,
    ghost slowest: { 300 ≤ baud },
    ghost fastest: { baud ≤ 115200 },
    ghost fewest_bits: { 10 ≤ bits },
    ghost most_bits: { bits ≤ 11 },
}

impl Rate {
    ghost use Rattle.std.specs.Prelude.{◌≡◌};
    ghost use Rattle.line_stamps.specs.Parts.{character};

    /// Returns the length of a character in parts, of which a nanosecond has `baud`.
    #[inline]
    pub fn character(&self) -> u64
        ensures { result ≡ character self.now }
    {
        u64::from(self.bits) * 1_000_000_000
    }
}
