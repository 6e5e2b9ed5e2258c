//! How a command over an input ends: from the end of its input to its status.
ghost use Rattle.std.specs.Prelude.{◌≡◌, ℕ, true, false};
ghost use Rattle.tick_drive.specs.Input.{IsReadCause, is_read_fault};
ghost use Rattle.command_ends.specs.Causes.{InputCause, DiskCause, SinkCause};
ghost use Rattle.command_ends.specs.Flushes.{FlushesAtEnd};
ghost use Rattle.line_commands.specs.OverInput.{has_stopped, EndsAs};

use command_ends::{Status, flush_both, status_of};
use tick_drive::End;
use yasir_io::Sink;

/// Returns the status of a run whose input ended like this, and which wasn't stopped, once all that
/// it made was written. After a whole input both sinks are flushed.
pub fn end_run<O: Sink, L: Sink>(end: End, out: &mut O, log: &mut L) -> Status
    requires { has_stopped end ≡ false }
    ensures status { EndsAs end result }
    ensures out { O.held out.new ≡ O.held out.old }
    ensures log { L.held log.new ≡ L.held log.old }
    ensures input { (before now : ℕ) → IsReadCause before now (is_read_fault end)
        → InputCause before now result }
    ensures disk { (before now : ℕ) → now ≡ before → DiskCause before now result }
    ensures sinks { SinkCause (O.faults out.old) (O.faults out.new)
        (L.faults log.old) (L.faults log.new) result }
    ensures flushes { FlushesAtEnd O.Sink L.Sink out.old out.new log.old log.new result }
{
    match end {
        End::Whole => flush_both(out, log),
        _ => status_of(end),
    }
}
