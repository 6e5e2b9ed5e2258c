//! Reads of a stream of two ways: each comes only after all that is made of the lines read before
//! is written and flushed, for both ways.
ghost use Rattle.std.specs.Prelude.{◌≡◌, ℕ, ◌≤◌, ◌<◌, ◌++◌, List, length, take, IfOk, OnErr};
ghost use Rattle.std.specs.Io.KnownBytes.{prepend_known, IsAtEnd};
ghost use Rattle.yasir_io.specs.Causes.{HasCause};
ghost use Rattle.line_texts.specs.Sending.{LineAndNotes};
ghost use Rattle.line_commands.specs.History.{History};
ghost use Rattle.line_commands.specs.declared.port.Output.{Output};
ghost use Rattle.live_line.specs.BothWays.{HandedBoth, lines_in};
ghost use Rattle.live_line.specs.declared.ways.Way.{Way};

use line_commands::Port;
use yasir_io::Failed;

/// Reads the next bytes of a stream of both ways into the front of `buf`, for a caller that has
/// written and flushed what is made of all lines that have ended. Returns how many: 0 only at the
/// end of the input, or if `buf` has no room.
pub fn read_ways<P: Port>(port: &mut P, buf: &mut [u8]) -> Result<usize, Failed>
    /// No more bytes are read than `buf` has room for.
    ensures within { IfOk result (λ n. n ≤ length buf.new) }
    /// If what is made of all lines that had ended was written and flushed in order, it is so
    /// behind a read that gives bytes.
    ensures bytes { IfOk result (λ n. (made : Way → LineAndNotes) (start : History)
        (read : List ℕ) → HandedBoth made start (P.history port.old) read (lines_in read)
        → HandedBoth made start (P.history port.new) (read ++ take n buf.new) (lines_in read)) }
    /// It is so behind a read that fails.
    ensures err { OnErr result ((made : Way → LineAndNotes) (start : History)
        (read : List ℕ) → HandedBoth made start (P.history port.old) read (lines_in read)
        → HandedBoth made start (P.history port.new) read (lines_in read)) }
    /// What is read is the front of what the input had left.
    ensures left { IfOk result (λ n.
        P.left port.old ≡ prepend_known (take n buf.new) (P.left port.new)) }
    /// Nothing is read only at the end of the input, or if `buf` has no room.
    ensures end { IfOk result (λ n. n ≡ 0 → 0 < length buf.new → IsAtEnd (P.left port.new)) }
    /// A read that fails takes nothing.
    ensures left_same { OnErr result (P.left port.new ≡ P.left port.old) }
    /// The input's count of faults rose if the read failed, and is as it was otherwise.
    ensures cause { HasCause (P.read_faults port.old) (P.read_faults port.new) result }
    /// The outputs' counts of faults are as they were.
    ensures outputs { (to : Output) → P.write_faults port.new to ≡ P.write_faults port.old to }
{
    match port.read(buf) {
        Ok(n) => Ok(n),
        Err(Failed) => Err(Failed),
    }
}
