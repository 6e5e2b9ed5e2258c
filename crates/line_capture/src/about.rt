//! The commands `help` and `version`: each prints a text of the program.
ghost use Rattle.std.specs.Prelude.{◌≡◌, ◌⊎◌};
ghost use Rattle.command_ends.specs.Causes.{SinkCause};
ghost use Rattle.command_ends.specs.declared.status.Status.{Status};
ghost use Rattle.command_ends.specs.Flushes.{FlushesAtEnd};
ghost use Rattle.line_capture.specs.About.{PrintsAlone};
ghost use Rattle.line_capture.specs.Outcomes.{status_in};
ghost use Rattle.line_capture.specs.Takes.{held};
ghost use Rattle.line_capture.specs.declared.outcome.Outcome.{Outcome};

use crate::outcome::Outcome;
use command_ends::print_text;
use yasir_io::Sink;

/// The line that `version` prints: the name of the program and its version.
pub const VERSION_LINE: [u8; 19] = *b"line_capture 0.7.0\n";

/// The page that `help` prints.
pub const HELP_PAGE: [u8; 1091] =
    *b"line_capture turns captures of a serial line into tick text, and back.

  take FORM RATE WAY         read a capture, write tick text
  take FORM RATE WAY frames  the same, if each record is a whole frame
  give FORM RATE             read tick text, write a capture
  help                       print this page (also --help, -h)
  version                    print the version (also --version)

FORM  to take: pcap (pcap or pcapng, link type 250), text, logic2 or sigrok
      to give: pcap, text or vcd
RATE  baud, x and the bits of a character: 9600x10 (8N1), 9600x11 (8E1, 8N2)
WAY   a, b or both

text has lines SECONDS HEX. Write microseconds with six digits: socat 1.7.4
has .000132995 for 132995 of them, which must become .132995.

Captures are read from standard input. Results go to standard output, what was
counted and one fault line to standard error. The status is 0 only if all is
done.

  line_capture take pcap 9600x11 a < tap.pcap > requests.ticks
  line_capture give vcd 9600x11 < line.ticks > wires.vcd

docs/LINE_CAPTURE.md has the forms, the statuses, and more examples.
";

/// Prints a text of the program, and nothing else.
pub fn print_alone<O: Sink, L: Sink>(text: &[u8], out: &mut O, log: &mut L) -> Outcome
    /// `out` has got the text, or a front of it if a write or a flush failed. The log holds what it
    /// held.
    ensures prints { PrintsAlone text.now (held (O.held out.old) (L.held log.old))
        (held (O.held out.new) (L.held log.new)) result }
    /// The outcome is done or a failed write.
    ensures outcome { (result ≡ Outcome.Ended Status.Done) ⊎ (result ≡ Outcome.Ended Status.WriteFault) }
    /// If the outcome is a failed write, a count of a sink's faults rose. If it is done, neither
    /// count changed.
    ensures sinks { SinkCause (O.faults out.old) (O.faults out.new) (L.faults log.old)
        (L.faults log.new) (status_in result) }
    /// Both sinks were flushed, after all that was written, if the outcome is done.
    ensures flushes { FlushesAtEnd O.Sink L.Sink out.old out.new log.old log.new (status_in result) }
{
    Outcome::Ended(print_text(text, out, log))
}
