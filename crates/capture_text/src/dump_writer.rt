//! A writer of value change dumps, tick by tick.
ghost use Rattle.std.specs.Prelude.{◌≡◌, ℕ, ◌+◌, ◌<◌, ◌≤◌, ◌^◌, ◌++◌, ◌∷◌, [], List};
ghost use Rattle.yasir_ticks.specs.declared.tick.Tick.{Tick};
ghost use Rattle.capture_text.specs.Dump.{dump_front, dump_text, dump_end};

use crate::changes::{TickText, bit_start, tick_text};
use crate::text::{ChangeText, Wires, dump_front, time_line};
use line_stamps::Rate;
use yasir_ticks::Tick;

/// A writer of a dump, in constant memory. It takes one tick of both wires at a time, and returns
/// its text.
#[derive(Clone, Copy, Debug)]
pub struct DumpWriter {
    rate: Rate,
    wires: Wires,
    ticks: u32,
    ghost few: { ticks ≤ 2 ^ 24 },
}

impl DumpWriter {
    ghost use Rattle.capture_text.specs.Writer.{HasWritten, rate_of, wires_of, ticks_of};

    /// Returns a writer that was given no tick. The front of its dump counts as written.
    pub fn new(rate: Rate, wires: Wires) -> DumpWriter
        /// The text so far is the front of a dump of these wires.
        ensures begins { HasWritten result [] [] (dump_front wires) }
        /// It has this rate.
        ensures rate { rate_of result ≡ rate }
        /// It has these wires.
        ensures wires { wires_of result ≡ wires }
        /// It has taken 0 ticks.
        ensures ticks { ticks_of result ≡ 0 }
    {
        DumpWriter {
            rate,
            wires,
            ticks: 0,
        }
    }

    /// Returns the front of the dump, which comes before all ticks.
    pub fn front(&self) -> &'static [u8]
        ensures { result.now ≡ dump_front (wires_of self.now) }
    {
        dump_front(self.wires)
    }

    /// Returns how many ticks the writer was given.
    pub fn ticks(&self) -> u32
        ensures { result ≡ ticks_of self.now }
    {
        self.ticks
    }

    /// Returns the text of the next tick of both wires. For a dump with one wire, give silence for
    /// the other one.
    pub fn tick(&mut self, a: Tick, b: Tick) -> TickText
        /// Fewer than 2^24 ticks were taken before.
        requires { ticks_of self.old < 2 ^ 24 }
        /// The text so far goes on with the text that is returned, for one tick more of both wires.
        ensures writes { (xs ys : List Tick) (text : List ℕ) → HasWritten self.old xs ys text
            → HasWritten self.new (xs ++ a ∷ []) (ys ++ b ∷ []) (text ++ result.items) }
        /// The rate stays.
        ensures rate { rate_of self.new ≡ rate_of self.old }
        /// The wires stay.
        ensures wires { wires_of self.new ≡ wires_of self.old }
        /// One more tick is taken.
        ensures ticks { ticks_of self.new ≡ ticks_of self.old + 1 }
    {
        let bit = (u64::from(self.ticks) + 1) * u64::from(self.rate.bits);
        let text = tick_text(self.rate, bit, a, b);
        self.ticks += 1;
        text
    }

    /// Returns the end of the dump, which follows its last tick.
    pub fn end(&self) -> ChangeText
        /// It is the end of a dump of so many ticks.
        ensures end { result.items ≡ dump_end (rate_of self.now) (ticks_of self.now) }
        /// The text so far and this end are the dump of the ticks that were taken.
        ensures whole { (a b : List Tick) (text : List ℕ) → HasWritten self.now a b text
            → text ++ result.items ≡ dump_text (rate_of self.now) (wires_of self.now) a b }
    {
        let bit = (u64::from(self.ticks) + 2) * u64::from(self.rate.bits);
        time_line(bit_start(self.rate, bit))
    }
}
