//! Computed tables for a CRC of 16 bits, by which it takes a byte at a time.
ghost use Rattle.std.specs.Prelude.{◌≡◌, ℕ, ◌*◌, ◌<◌, ◌≤◌, [], ◌∷◌, slice_index};
ghost use Rattle.line_rules.specs.Crc.{bit_steps, crc};
ghost use Rattle.line_rules.specs.CrcTables.{AreCrcTables};

use crate::crc_bits::after_bits;
use crate::crc_tables::{CrcTables, shifted, step_by_table};

/// Tables for a CRC of 16 bits over the polynomial `POLY`, computed when they are made. A program
/// has the tables of its polynomials as constants instead.
#[derive(Drop)]
pub struct CrcTable<const POLY: u16> {
    tables: CrcTables,
    ghost right: { AreCrcTables POLY tables },
}

impl<const POLY: u16> CrcTable<POLY> {
    /// Computes the tables of the polynomial `POLY`.
    pub fn new() -> CrcTable<POLY> {
        CrcTable {
            tables: [
                Self::after_bytes(1),
                Self::after_bytes(2),
                Self::after_bytes(3),
                Self::after_bytes(4),
                Self::after_bytes(5),
                Self::after_bytes(6),
                Self::after_bytes(7),
                Self::after_bytes(8),
                Self::after_bytes(9),
                Self::after_bytes(10),
                Self::after_bytes(11),
                Self::after_bytes(12),
                Self::after_bytes(13),
                Self::after_bytes(14),
                Self::after_bytes(15),
                Self::after_bytes(16),
                Self::after_bytes(17),
                Self::after_bytes(18),
            ],
        }
    }

    // Returns, for each byte, what the single-bit shifts of `count` bytes make of it: eight for
    // each of them.
    fn after_bytes(count: u8) -> [u16; 256]
        requires { count ≤ 18 }
        ensures { (byte : ℕ) → byte < 256
            → slice_index result byte ≡ bit_steps POLY (8 * count) byte }
    {
        let mut entries = [0; 256];
        for byte in 0..256 {
            entries[byte] = after_bits::<POLY>(byte as u16, 8 * count);
        }
        entries
    }

    /// Returns what eight single-bit shifts make of `i`.
    #[inline]
    pub fn entry(&self, i: u8) -> u16
        ensures { result ≡ bit_steps POLY 8 i }
    {
        shifted::<POLY>(&self.tables, 0, i)
    }

    /// Returns the register after the byte `b`, if it was `r` before.
    #[inline]
    pub fn step(&self, r: u16, b: u8) -> u16
        ensures { result ≡ crc POLY r (b ∷ []) }
    {
        step_by_table::<POLY>(&self.tables, r, b)
    }
}
