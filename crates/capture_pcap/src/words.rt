//! Numbers of four and of two bytes, in the order of a file.
ghost use Rattle.std.specs.Prelude.{◌≡◌, ◌≤◌, length};

use byteorder::{BigEndian, ByteOrder, LittleEndian};

/// In which order a file has the bytes of its numbers.
#[derive(Clone, Copy, Debug, PartialEq, Eq)]
pub enum Order {
    /// The highest byte first.
    Big,
    /// The lowest byte first.
    Little,
}

/// What the fraction of a packet's time counts.
#[derive(Clone, Copy, Debug, PartialEq, Eq)]
pub enum Resolution {
    /// Microseconds: the file begins with the magic number A1B2C3D4.
    Microseconds,
    /// Nanoseconds: the file begins with the magic number A1B23C4D.
    Nanoseconds,
}

/// How a file has its numbers and its times.
#[derive(Clone, Copy, Debug, PartialEq, Eq)]
pub struct Clock {
    /// The order of the bytes of its numbers.
    pub order: Order,
    /// The unit of the fractions of its times.
    pub resolution: Resolution,
}

impl Resolution {
    ghost use Rattle.capture_pcap.specs.Words.{nanoseconds};

    /// Returns how many nanoseconds a unit of this resolution is.
    #[inline]
    pub fn nanoseconds(self) -> u32
        /// It is the number by the definition.
        ensures value { result ≡ nanoseconds self }
        /// It is at most 1,000.
        ensures small { result ≤ 1000 }
    {
        match self {
            Resolution::Microseconds => 1000,
            Resolution::Nanoseconds => 1,
        }
    }
}

impl Order {
    ghost use Rattle.capture_pcap.specs.Words.{number, short_number};

    /// Returns the number in the first four bytes.
    #[inline]
    pub fn number(self, word: &[u8]) -> u32
        /// There are at least four bytes.
        requires { 4 ≤ length word.now }
        ensures { result ≡ number self word.now }
    {
        match self {
            Order::Big => BigEndian::read_u32(word),
            Order::Little => LittleEndian::read_u32(word),
        }
    }

    /// Returns the number in the first two bytes.
    #[inline]
    pub fn short_number(self, word: &[u8]) -> u16
        /// There are at least two bytes.
        requires { 2 ≤ length word.now }
        ensures { result ≡ short_number self word.now }
    {
        match self {
            Order::Big => BigEndian::read_u16(word),
            Order::Little => LittleEndian::read_u16(word),
        }
    }
}
