//! What is made of the line of one way, on its way out in the streams of both: notes and the text
//! of ticks, each handed on at once.
ghost use Rattle.std.specs.Prelude.{◌≡◌, ℕ, List, length};
ghost use Rattle.yasir_ticks.specs.declared.tick.Tick.{Tick};
ghost use Rattle.line_texts.specs.Sending.{LineAndNotes};
ghost use Rattle.line_commands.specs.History.{Event, History, told_then};
ghost use Rattle.line_commands.specs.LiveText.{IsTextOf};
ghost use Rattle.line_commands.specs.Sent.{WritesCause};
ghost use Rattle.live_line.specs.BothWays.{HandedBoth, IsInOrderBoth};
ghost use Rattle.live_line.specs.SentBoth.{SendsWay, HandsOnWay};
ghost use Rattle.live_line.specs.WayText.{AreEnded};
ghost use Rattle.live_line.specs.declared.ways.Way.{Way};

use crate::{Lettering, Way};
use line_commands::{Output, Port, send};
use yasir_io::Failed;

/// How many bytes of a text get their letters at once.
const PIECE: usize = 2048;

/// Writes the lines of a text to an output, each with the letter of a way before it. They are
/// written and flushed in pieces.
pub fn send_way<P: Port>(port: &mut P, way: Way, to: Output, text: &[u8]) -> Result<(), Failed>
    ensures { SendsWay P.Port port.old port.new way to text.now result }
{
    let mut lettering = Lettering::new(way);
    let mut left = text;
    while !left.is_empty() {
        let count = left.len().min(PIECE);
        let lettered = lettering.put(&left[..count]);
        match send(port, to, lettered.as_slice()) {
            Ok(()) => {}
            Err(Failed) => return Err(Failed),
        }
        left = &left[count..];
    }
    Ok(())
}

/// Hands on what is made of some ticks of a way: the lines of their notes, and then a text of the
/// ticks of the other line, each line with the letter of the way before it. Both are flushed.
pub fn hand_on_way<P: Port>(port: &mut P, way: Way, notes: &[u8], text: &[u8]) -> Result<(), Failed>
    /// Each line of the notes has ended.
    requires { AreEnded notes.now }
    /// If what is made of both ways was written and flushed in order, the notes of these ticks and
    /// the text of the other line's ticks then are too. If a call failed, fronts of them were
    /// written, the notes first.
    ensures hands { (answer : List Tick) → IsTextOf text.now answer
        → HandsOnWay P.Port port.old port.new way answer notes.now result }
    /// An output's count of faults rose if a call failed, and none did otherwise. Nothing was read.
    ensures cause { WritesCause P.Port port.old port.new result }
{
    match send_way(port, way, Output::Log, notes) {
        Ok(()) => {}
        Err(Failed) => return Err(Failed),
    }
    send_way(port, way, Output::Out, text)
}

/// A law of histories: if what is made of both ways is handed on, each call came when it may come.
/// Before each read, all that is made of the lines read before was written and flushed, for both
/// ways. Before each write of a text, the notes that fall into its ticks were.
pub fn handed_ways_are_in_order()
    ensures { (made : Way → LineAndNotes) (start now : History) (read : List ℕ)
        (lines : Way → List Tick) → HandedBoth made start now read lines
        → (events : List Event) × (now ≡ told_then start events)
        × IsInOrderBoth made lines events }
{}
