//! Reads of a live line: each comes only after all that is made of the lines read before is written
//! and flushed.
ghost use Rattle.std.specs.Prelude.{◌≡◌, ℕ, ◌≤◌, ◌<◌, ◌++◌, List, length, take, IfOk, OnErr};
ghost use Rattle.std.specs.Io.KnownBytes.{prepend_known, IsAtEnd};
ghost use Rattle.yasir_io.specs.Causes.{HasCause};
ghost use Rattle.yasir_ticks.specs.Ticks.{ticks_in};
ghost use Rattle.yasir_ticks.specs.TickText.{ended_items};
ghost use Rattle.yasir_ticks.specs.declared.tick.Tick.{Tick};
ghost use Rattle.line_texts.specs.Sending.{LineAndNotes};
ghost use Rattle.line_commands.specs.History.{Event, History, told_then};
ghost use Rattle.line_commands.specs.Order.{Handed, IsInOrder};
ghost use Rattle.line_commands.specs.declared.port.Output.{Output};

use crate::Port;
use yasir_io::Failed;

/// Reads the next bytes of a line into the front of `buf`, for a caller that has written and
/// flushed what is made of all lines that have ended. Returns how many: 0 only at the end of the
/// input, or if `buf` has no room.
pub fn read_on<P: Port>(port: &mut P, buf: &mut [u8]) -> Result<usize, Failed>
    /// No more bytes are read than `buf` has room for.
    ensures within { IfOk result (λ n. n ≤ length buf.new) }
    /// If what is made of all lines that had ended was written and flushed in order, it is so
    /// behind a read that gives bytes.
    ensures bytes { IfOk result (λ n. (made : LineAndNotes) (start : History)
        (read : List ℕ) → Handed made start (P.history port.old) read (ticks_in (ended_items read))
        → Handed made start (P.history port.new) (read ++ take n buf.new)
        (ticks_in (ended_items read))) }
    /// It is so behind a read that fails.
    ensures err { OnErr result ((made : LineAndNotes) (start : History)
        (read : List ℕ) → Handed made start (P.history port.old) read (ticks_in (ended_items read))
        → Handed made start (P.history port.new) read (ticks_in (ended_items read))) }
    /// What is read is the front of what the input had left.
    ensures left { IfOk result (λ n.
        P.left port.old ≡ prepend_known (take n buf.new) (P.left port.new)) }
    /// Nothing is read only at the end of the input, or if `buf` has no room.
    ensures end { IfOk result (λ n. n ≡ 0 → 0 < length buf.new → IsAtEnd (P.left port.new)) }
    /// A read that fails takes nothing.
    ensures left_same { OnErr result (P.left port.new ≡ P.left port.old) }
    /// The input's count of faults rose if the read failed, and is as it was otherwise.
    ensures cause { HasCause (P.read_faults port.old) (P.read_faults port.new) result }
    /// The outputs' counts of faults are as they were.
    ensures outputs { (to : Output) → P.write_faults port.new to ≡ P.write_faults port.old to }
{
    match port.read(buf) {
        Ok(n) => Ok(n),
        Err(Failed) => Err(Failed),
    }
}

/// A law of histories: if what is made of a line is handed on, each call came when it may come.
/// Before each read, all that is made of the lines read before was written and flushed. Before each
/// write of the other line's text, the notes that fall into its ticks were.
pub fn handed_lines_are_in_order()
    ensures { (made : LineAndNotes) (start now : History) (read : List ℕ)
        (line : List Tick) → Handed made start now read line
        → (events : List Event) × (now ≡ told_then start events) × IsInOrder made line events }
{}
