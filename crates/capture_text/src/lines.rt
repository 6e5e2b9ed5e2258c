//! The whole dump of two lines.
ghost use Rattle.std.specs.Prelude.{◌≡◌, ◌<◌, ◌≤◌, ◌^◌, length, get_or, max, IfOk};
ghost use Rattle.yasir_ticks.specs.declared.tick.Tick.TheVariants.{Silent};
ghost use Rattle.capture_text.specs.Dump.{dump_text, wires_for};

use crate::dump_writer::DumpWriter;
use crate::text::Wires;
use line_stamps::Rate;
use std::alloc::{AllocError, Global};
use yasir_ticks::Tick;

/// Returns the wires of a dump whose way B is this line: both if the line has ticks, otherwise only
/// that of way A.
fn wires_for(b: &[Tick]) -> Wires
    ensures { result ≡ wires_for b.now }
{
    match b {
        [] => Wires::One,
        [_, ..] => Wires::Two,
    }
}

/// Returns tick `n` of a line, which is silent after its end.
fn tick_at(line: &[Tick], n: usize) -> Tick
    ensures { result ≡ get_or line.now n Silent }
{
    if n < line.len() {
        line[n]
    } else {
        Tick::Silent
    }
}

/// Returns how many ticks the longer of two lines has.
fn longest(a: &[Tick], b: &[Tick]) -> usize
    ensures { result ≡ max (length a.now) (length b.now) }
{
    if a.len() < b.len() { b.len() } else { a.len() }
}

/// Returns the dump of the two ways of a line, each of which has at most 2^24 ticks. The shorter
/// one is silent after its end.
pub fn dump(alloc: Global, rate: Rate, a: &[Tick], b: &[Tick]) -> Result<Vec<u8>, AllocError>
    /// Way A has at most 2^24 ticks.
    requires a { length a.now ≤ 2 ^ 24 }
    /// Way B has at most 2^24 ticks.
    requires b { length b.now ≤ 2 ^ 24 }
    ensures { IfOk result (λ text. text.items ≡ dump_text rate (wires_for b.now) a.now b.now) }
{
    let mut writer = DumpWriter::new(rate, wires_for(b));
    let mut text = Vec::new(alloc);
    text.extend_from_slice(writer.front())?;
    let ticks = longest(a, b);
    for n in 0..ticks {
        let piece = writer.tick(tick_at(a, n), tick_at(b, n));
        text.extend_from_slice(piece.as_slice())?;
    }
    text.extend_from_slice(writer.end().as_slice())?;
    Ok(text)
}
