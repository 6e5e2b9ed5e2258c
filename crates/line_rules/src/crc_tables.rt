//! Eighteen tables for a CRC of 16 bits, by which it takes up to eighteen bytes at a time.
ghost use Rattle.std.specs.Prelude.{◌≡◌, suc, ◌*◌, ◌<◌, ◌≤◌, [], ◌∷◌, length};
ghost use Rattle.line_rules.specs.Crc.{bit_steps, crc};
ghost use Rattle.line_rules.specs.CrcTables.{AreCrcTables};

// The most bytes that are taken at once, and so the number of tables.
const TOGETHER: usize = 18;

/// Tables by which a CRC of 16 bits takes up to eighteen bytes at once. For each byte, the first
/// table has what 8 single-bit shifts of the register make of it, the second what 16 make of it,
/// and so on up to 144.
pub type CrcTables = [[u16; 256]; 18];

// Returns what the single-bit shifts of `place + 1` bytes make of `byte`: eight for each of them.
#[inline]
pub(crate) fn shifted<const POLY: u16>(tables: &CrcTables, place: usize, byte: u8) -> u16
    requires right { AreCrcTables POLY tables.now }
    requires within { place < 18 }
    ensures { result ≡ bit_steps POLY (8 * suc place) byte }
{
    tables[place][usize::from(byte)]
}

/// Returns the register after the byte `b`, if it was `r` before, by the tables of the polynomial.
#[inline]
pub fn step_by_table<const POLY: u16>(tables: &CrcTables, r: u16, b: u8) -> u16
    /// The tables are those of the polynomial.
    requires { AreCrcTables POLY tables.now }
    ensures { result ≡ crc POLY r (b ∷ []) }
{
    let low = (r % 256) as u8;
    (r / 256) ^ shifted::<POLY>(tables, 0, low ^ b)
}

/// Returns the register after two to eighteen bytes, if it was `r` before, by the tables of the
/// polynomial. It takes all of them at once: each byte of the register and of `bytes` goes through
/// its own shifts and those of the bytes after it, independently of the others.
#[inline]
pub fn crc_at_once<const POLY: u16>(tables: &CrcTables, r: u16, bytes: &[u8]) -> u16
    /// The tables are those of the polynomial.
    requires right { AreCrcTables POLY tables.now }
    /// There are at least two bytes.
    requires some { 2 ≤ length bytes.now }
    /// There are at most eighteen bytes.
    requires few { length bytes.now ≤ 18 }
    ensures { result ≡ crc POLY r bytes.now }
{
    let (low, high) = ((r % 256) as u8, (r / 256) as u8);
    let last = bytes.len() - 1;
    let mut behind = 0;
    for place in 2..bytes.len() {
        behind ^= shifted::<POLY>(tables, last - place, bytes[place]);
    }
    behind
        ^ (shifted::<POLY>(tables, last - 1, high ^ bytes[1])
            ^ shifted::<POLY>(tables, last, low ^ bytes[0]))
}

/// Returns the register after these bytes, if it was `r` before, by the tables of the polynomial.
/// It takes eighteen bytes at a time.
#[inline]
pub fn crc_by_tables<const POLY: u16>(tables: &CrcTables, r: u16, bytes: &[u8]) -> u16
    /// The tables are those of the polynomial.
    requires { AreCrcTables POLY tables.now }
    ensures { result ≡ crc POLY r bytes.now }
{
    let mut register = r;
    let mut following = bytes;
    while let Some((together, more)) = following.split_first_chunk::<TOGETHER>() {
        register = crc_at_once::<POLY>(tables, register, together);
        following = more;
    }
    macro_rules! by_length {
        ($($length:literal)*) => {
            match following.len() {
                $($length => crc_at_once::<POLY>(tables, register, following),)*
                1 => step_by_table::<POLY>(tables, register, following[0]),
                _ => register,
            }
        };
    }
    by_length!(2 3 4 5 6 7 8 9 10 11 12 13 14 15 16 17)
}
