//! The commands `help` and `version`: each prints a text of the program.
ghost use Rattle.std.specs.Prelude.{Some};
ghost use Rattle.command_ends.specs.Ends.{outside_before, outside_after};
ghost use Rattle.link_replay.specs.declared.words.Command.TheVariants.{Help, Version};
ghost use Rattle.link_replay.specs.AboutCommands.{Helps, TellsVersion};
ghost use Rattle.link_replay.specs.Commands.{HasCauses};

use crate::commands::printing::print_alone;
use command_ends::{Ends, Status};
use yasir_io::{Sink, SlotDisk, Source};

/// The line that `version` prints: the name of the program and its version.
pub const VERSION_LINE: [u8; 18] = *b"link_replay 0.7.0\n";

/// The page that `help` prints.
pub const HELP_PAGE: [u8; 2524] =
    *b"link_replay runs the boxes that protect a serial line, over recorded lines and
over lines as they come.

  read P                        print the frames that a device reads
  init P DIR JOURNAL            make a new journal
  seal P DIR KEY JOURNAL        transmitter: turn a device's line into the link
  check P DIR KEY JOURNAL       receiver: turn the link into a device's line
  live seal P DIR KEY JOURNAL   the transmitter, on a line as it comes
  live check P DIR KEY JOURNAL  the receiver, on a line as it comes
  live line P DIR KEY SENT GOT  both ways of a line as it comes, with a spacer
  space P                       a spacer: send on what is read, frame by frame
  replay P DIR KEY              list what was sealed, passed, read and forged
  audit P DIR KEY F G [LEAST..MOST] [spaced]  judge a session by recordings
  duplex P DIR KEY              one box for both directions
  two_wire P DIR SIDE WINDOW PAUSE KEY  the same, on wires where all take turns
  trial P SEED COUNT            attack a session that is made from a number
  poll P SEED COUNT             poll over two wires, attacked, from a number
  vectors                       check the known answers of the standards
  help                          print this page (also --help, -h)
  version                       print the version (also --version)

P        rtu or dnp3; with longer tags rtu24 or dnp24, but not for read
DIR      ab or ba
KEY      the path of a key: 32 to 128 hex digits
JOURNAL  the path of a box's journal
SENT     the path of the transmitter's journal, GOT that of the receiver's
SIDE     for whom the box speaks to its device: asks or answers
WINDOW   the silent ticks in which an answer must begin, up to 1000000
PAUSE    the silent ticks behind an answer's end, up to 1000000
F, G     the last numbers of transmitter and receiver before the session
LEAST..MOST  how many ticks later than the receiver frames may be read
spaced   a spacer is in front of the third recording
SEED     0 to 4294967295
COUNT    1 to 10000

Lines are read from standard input. Results go to standard output, notes and
one fault line to standard error. The status is 0 only if all is done.

  link_replay read rtu < line.ticks
  link_replay init rtu ab sent.journal
  link_replay seal rtu ab key.txt sent.journal < line.ticks > link.ticks
  link_replay init rtu ab received.journal
  link_replay check rtu ab key.txt received.journal < link.ticks
  link_replay trial rtu 7 100

docs/USAGE.md has the texts, the statuses, and more examples.
";

/// Prints the page that lists the program's words.
#[tactic(auto, using(crate::proofs::HelpPage::page_names_commands))]
pub fn print_help<K: Source, S: Source, O: Sink, L: Sink, D: SlotDisk>(
    ends: Ends<K, S, O, L, D>,
) -> Status
    ensures helps { Helps O.Sink L.Sink (outside_before ends.entry) (outside_after ends.exit)
        result }
    ensures causes { HasCauses K.Source S.Source O.Sink L.Sink D.SlotDisk (Some Help)
        (outside_before ends.entry) (outside_after ends.exit) result }
{
    print_alone(&HELP_PAGE, ends)
}

/// Prints the program's name and version.
pub fn print_version<K: Source, S: Source, O: Sink, L: Sink, D: SlotDisk>(
    ends: Ends<K, S, O, L, D>,
) -> Status
    ensures tells { TellsVersion O.Sink L.Sink (outside_before ends.entry)
        (outside_after ends.exit) result }
    ensures causes { HasCauses K.Source S.Source O.Sink L.Sink D.SlotDisk (Some Version)
        (outside_before ends.entry) (outside_after ends.exit) result }
{
    print_alone(&VERSION_LINE, ends)
}
