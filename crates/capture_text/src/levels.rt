//! The levels of a wire in a tick, bit by bit.
ghost use Rattle.std.specs.Prelude.{◌≡◌, ◌+◌, ◌<◌, ◌≤◌, ◌++◌, length, replicate, true};
ghost use Rattle.capture_text.specs.Levels.{data_levels, parity_levels, byte_levels, tick_levels};

use arrayvec::ArrayVec;
use yasir_ticks::Tick;

/// Levels of a wire, bit by bit: `true` is high, the level of silence.
pub type Levels = ArrayVec<bool, 11>;

/// Appends `count` bits of a byte, the lowest first.
fn push_data(levels: &mut Levels, byte: u8, count: u8)
    requires { length levels.old.items + count ≤ 11 }
    ensures levels { levels.new.items ≡ levels.old.items ++ data_levels count byte }
    ensures long { length levels.new.items ≡ length levels.old.items + count }
{
    if count == 0 {
        return;
    }
    levels.push(byte % 2 == 1);
    push_data(levels, byte / 2, count - 1);
}

/// Returns the levels of a quiet wire for `bits` bits.
#[tactic(auto, using(crate::proofs::LevelLaws::high_front))]
fn high_levels(bits: u8) -> Levels
    requires { bits ≤ 11 }
    ensures { result.items ≡ replicate bits true }
{
    let mut levels = Levels::from([true; 11]);
    levels.truncate(usize::from(bits));
    levels
}

/// Appends the parity bit of a byte if a character has 11 bits. It makes the number of high bits
/// even.
fn push_parity(levels: &mut Levels, bits: u8, byte: u8)
    requires { length levels.old.items < 11 }
    ensures levels { levels.new.items ≡ levels.old.items ++ parity_levels bits byte }
    ensures long { length levels.new.items ≤ length levels.old.items + 1 }
{
    if bits != 11 {
        return;
    }
    levels.push(byte.count_ones() % 2 == 1);
}

/// Returns the levels of a byte: a start bit, eight bits of data, the lowest first, an even parity
/// bit if a character has 11 bits, and a stop bit.
fn byte_levels(bits: u8, byte: u8) -> Levels
    ensures { result.items ≡ byte_levels bits byte }
{
    let mut levels = Levels::new();
    levels.push(false);
    push_data(&mut levels, byte, 8);
    push_parity(&mut levels, bits, byte);
    levels.push(true);
    levels
}

/// Returns the levels of a wire in a tick, with `bits` bits for each character.
pub fn tick_levels(bits: u8, tick: Tick) -> Levels
    /// A character has at most 11 bits.
    requires { bits ≤ 11 }
    ensures { result.items ≡ tick_levels bits tick }
{
    match tick {
        Tick::Silent => high_levels(bits),
        Tick::Byte(byte) => byte_levels(bits, byte),
    }
}
