//! The program over the ends that it is handed: it reads its words, and does what they ask for.
ghost use Rattle.std.specs.Prelude.{◌≡◌, ◌↔◌, ◌≢◌, [], Option, Some, None, map};
ghost use Rattle.std.specs.String.{string_bytes};
ghost use Rattle.command_ends.specs.Ends.{outside_before, outside_after};
ghost use Rattle.command_ends.specs.Programs.{EndsLog};
ghost use Rattle.command_ends.specs.Reasons.{told_by};
ghost use Rattle.live_ways.specs.WayStreams.{IsLineCalm};
ghost use Rattle.link_replay.specs.OverFiles.{outside_of};
ghost use Rattle.link_replay.specs.declared.words.Command.{Command};
ghost use Rattle.link_replay.specs.Words.{Asks, AreFloors, IsOverOne, IsRecorded, TakesMemory};
ghost use Rattle.link_replay.specs.Commands.{Does, KeepsDisk, HasCauses, FlushesAfter};
ghost use Rattle.link_replay.specs.TwoDisks.{DoesOverTwo, KeepsDisks, HasCausesOverTwo, disk_of};
ghost use Rattle.link_replay.specs.TwoDisks.{RunsSo, MayDoOverTwo};
ghost use Rattle.link_replay.specs.TwoDisks.{EndsWellOverTwo};
ghost use Rattle.link_replay.specs.LiveCommands.{FlushesFault};
ghost use Rattle.link_replay.specs.UsageLines.{fault_text};

use crate::commands::about::{print_help, print_version};
use crate::commands::audit::audit;
use crate::commands::check::check;
use crate::commands::duplex::duplex;
use crate::commands::init::make_journal;
use crate::commands::live::{Linked, live_check, live_line, live_seal};
use crate::commands::poll::{Drawn, poll};
use crate::commands::read::read_line;
use crate::commands::replay::replay;
use crate::commands::seal::seal;
use crate::commands::space::space;
use crate::commands::tables::print_tables;
use crate::commands::trial::try_link;
use crate::commands::wires::{SharedLine, drive_two_wires};
use crate::usage::fault_text;
use crate::{BothDisks, Command, Ended, read_words};
use command_ends::{Ends, Reasons, Status, write_fault_line};
use line_commands::Streams;
use live_line::Way;
use std::alloc::Global;
use yasir_io::{Failed, Sink, SlotDisk, Source, TellsReason, write_all};

// Does what a command that takes memory asks for. It doesn't write the fault line.
fn perform_in_memory<K: Source, S: Source, O: Sink, L: Sink, D: SlotDisk>(
    alloc: Global,
    command: Command,
    ends: Ends<K, S, O, L, D>,
) -> Status
    requires floors { AreFloors (Some command) }
    requires memory { TakesMemory command }
    ensures used { result ≡ Status.Usage → ⊥ }
    ensures does { Does K.Source S.Source O.Sink L.Sink D.SlotDisk (Some command)
        (outside_before ends.entry) (outside_after ends.exit) result }
    ensures any_moment { KeepsDisk D.SlotDisk (Some command) ends.entry.disk.now
        (outside_after ends.exit).disk }
    ensures causes { HasCauses K.Source S.Source O.Sink L.Sink D.SlotDisk (Some command)
        (outside_before ends.entry) (outside_after ends.exit) result }
{
    match command {
        Command::Replay(proto, profile, dir) => replay(alloc, proto, profile, dir, ends),
        Command::Poll(proto, profile, seed, count) => {
            let drawn = Drawn {
                proto,
                profile,
                seed,
                count,
            };
            poll(alloc, drawn, ends)
        }
        Command::Space(proto, profile) => space(alloc, proto, profile, ends),
        Command::Audit(asked) => audit(alloc, asked, ends),
        Command::Duplex(proto, profile, dir) => duplex(alloc, proto, profile, dir, ends),
        Command::TwoWire(proto, profile, dir, side, waits) => {
            let of = SharedLine {
                proto,
                profile,
                dir,
                side,
                waits,
            };
            drive_two_wires(alloc, of, ends)
        }
        _ => unreachable!(),
    }
}

// Does what a command over a recording asks for, or one that reads no line. It doesn't write the
// fault line.
fn perform<K: Source, S: Source, O: Sink, L: Sink, D: SlotDisk>(
    alloc: Global,
    command: Command,
    ends: Ends<K, S, O, L, D>,
) -> Status
    requires floors { AreFloors (Some command) }
    requires recorded { IsRecorded command }
    ensures used { result ≡ Status.Usage → ⊥ }
    ensures does { Does K.Source S.Source O.Sink L.Sink D.SlotDisk (Some command)
        (outside_before ends.entry) (outside_after ends.exit) result }
    ensures any_moment { KeepsDisk D.SlotDisk (Some command) ends.entry.disk.now
        (outside_after ends.exit).disk }
    ensures causes { HasCauses K.Source S.Source O.Sink L.Sink D.SlotDisk (Some command)
        (outside_before ends.entry) (outside_after ends.exit) result }
{
    match command {
        Command::Init(proto, profile, dir) => make_journal(proto, profile, dir, ends),
        Command::Read(proto) => read_line(proto, ends),
        Command::Vectors => print_tables(ends),
        Command::Seal(proto, profile, dir) => seal(proto, profile, dir, ends),
        Command::Check(proto, profile, dir) => check(proto, profile, dir, ends),
        Command::Trial(proto, profile, seed, count) => {
            try_link(proto, profile, seed, count, ends)
        }
        Command::LiveSeal(..) | Command::LiveCheck(..) | Command::LiveLine(..) => unreachable!(),
        Command::Help => print_help(ends),
        Command::Version => print_version(ends),
        _ => perform_in_memory(alloc, command, ends),
    }
}

// Does what a command over one disk, or none, asks for. It doesn't write the fault line.
fn answer_over_one<K: Source, S: Source, O: Sink, L: Sink, D: SlotDisk>(
    alloc: Global,
    command: Command,
    key: &mut K,
    streams: &mut Streams<S, O, L>,
    disk: &mut D,
) -> Status
    requires floors { AreFloors (Some command) }
    requires one { IsOverOne (Some command) }
    ensures used { result ≡ Status.Usage → ⊥ }
    ensures does { Does K.Source S.Source O.Sink L.Sink D.SlotDisk (Some command)
        (outside_of key.old streams.old disk.old) (outside_of key.new streams.new disk.new)
        result }
    ensures any_moment { KeepsDisk D.SlotDisk (Some command) disk.old disk.new }
    ensures causes { HasCauses K.Source S.Source O.Sink L.Sink D.SlotDisk (Some command)
        (outside_of key.old streams.old disk.old) (outside_of key.new streams.new disk.new)
        result }
{
    match command {
        Command::LiveSeal(proto, profile, dir) => {
            let of = Linked {
                proto,
                profile,
                dir,
            };
            live_seal(of, key, streams, disk)
        }
        Command::LiveCheck(proto, profile, dir) => {
            let of = Linked {
                proto,
                profile,
                dir,
            };
            live_check(of, key, streams, disk)
        }
        Command::LiveLine(..) => unreachable!(),
        _ => {
            let ends = Ends {
                key,
                input: &mut streams.input,
                out: &mut streams.out,
                log: &mut streams.log,
                disk,
            };
            perform(alloc, command, ends)
        }
    }
}

// Does what a command asks for. Only `live line` is handed the second disk. It doesn't write the
// fault line.
fn answer_command<K: Source, S: Source, O: Sink, L: Sink, D: SlotDisk>(
    alloc: Global,
    command: Command,
    key: &mut K,
    streams: &mut Streams<S, O, L>,
    disks: &mut BothDisks<D>,
) -> Ended
    requires { AreFloors (Some command) }
    ensures used { result.status ≡ Status.Usage → ⊥ }
    ensures does { DoesOverTwo K.Source S.Source O.Sink L.Sink D.SlotDisk (Some command)
        (outside_of key.old streams.old disks.old) (outside_of key.new streams.new disks.new)
        result }
    ensures any_moment { KeepsDisks D.SlotDisk (Some command) disks.old disks.new }
    ensures causes { HasCausesOverTwo K.Source S.Source O.Sink L.Sink D.SlotDisk (Some command)
        (outside_of key.old streams.old disks.old) (outside_of key.new streams.new disks.new)
        result }
    ensures done { MayDoOverTwo K.Source S.Source O.Sink L.Sink D.SlotDisk (Some command)
        (outside_of key.old streams.old disks.old)
        → IsLineCalm K.Source S.Source O.Sink L.Sink D.SlotDisk
        (outside_of key.old streams.old disks.old) (outside_of key.new streams.new disks.new)
        → EndsWellOverTwo K.Source S.Source O.Sink L.Sink D.SlotDisk (Some command)
        (outside_of key.old streams.old disks.old) result }
{
    match command {
        Command::LiveLine(proto, profile, dir) => {
            let of = Linked {
                proto,
                profile,
                dir,
            };
            live_line(alloc, of, key, streams, disks)
        }
        _ => {
            let status = answer_over_one(alloc, command, key, streams, &mut disks.first);
            Ended { status, way: None }
        }
    }
}

// Does what was asked for, and nothing if the words fit no command. It doesn't write the fault line.
fn answer<K: Source, S: Source, O: Sink, L: Sink, D: SlotDisk>(
    alloc: Global,
    asked: Option<Command>,
    key: &mut K,
    streams: &mut Streams<S, O, L>,
    disks: &mut BothDisks<D>,
) -> Ended
    requires { AreFloors asked }
    ensures usage { (result.status ≡ Status.Usage) ↔ (asked ≡ None) }
    ensures does { DoesOverTwo K.Source S.Source O.Sink L.Sink D.SlotDisk asked
        (outside_of key.old streams.old disks.old) (outside_of key.new streams.new disks.new)
        result }
    ensures any_moment { KeepsDisks D.SlotDisk asked disks.old disks.new }
    ensures causes { HasCausesOverTwo K.Source S.Source O.Sink L.Sink D.SlotDisk asked
        (outside_of key.old streams.old disks.old) (outside_of key.new streams.new disks.new)
        result }
    ensures done { MayDoOverTwo K.Source S.Source O.Sink L.Sink D.SlotDisk asked
        (outside_of key.old streams.old disks.old)
        → IsLineCalm K.Source S.Source O.Sink L.Sink D.SlotDisk
        (outside_of key.old streams.old disks.old) (outside_of key.new streams.new disks.new)
        → EndsWellOverTwo K.Source S.Source O.Sink L.Sink D.SlotDisk asked
        (outside_of key.old streams.old disks.old) result }
{
    match asked {
        None => Ended {
            status: Status::Usage,
            way: None,
        },
        Some(command) => answer_command(alloc, command, key, streams, disks),
    }
}

// Returns the reasons that the key, the input and the journal that the end is about tell.
fn reasons_of<K: TellsReason, S: TellsReason, D: TellsReason>(
    way: Option<Way>,
    key: &K,
    input: &S,
    disks: &BothDisks<D>,
) -> Reasons
    ensures { result ≡ told_by K.told_reason S.told_reason D.told_reason key.now input.now
        (disk_of way disks.now) }
{
    match way {
        Some(Way::Incoming) => Reasons::of(key, input, &disks.second),
        _ => Reasons::of(key, input, &disks.first),
    }
}

// Returns the command that the words ask for, or `None` if they fit no command.
fn asked_by(words: &[String]) -> Option<Command>
    ensures asks { Asks (map string_bytes words.now) result }
    ensures floors { AreFloors result }
{
    match read_words(words) {
        Ok(command) => Some(command),
        Err(_) => None,
    }
}

// Writes the text of a fault, if there is one, to the log, and flushes the log behind it. If the
// write fails, nothing more is done.
fn send_fault<L: Sink>(log: &mut L, text: &[u8])
    ensures ends { EndsLog L.Sink log.old log.new text.now }
    ensures flushes { FlushesFault L.Sink log.old log.new text.now }
{
    if text.is_empty() {
        return;
    }
    match write_all(log, text) {
        Ok(()) => {}
        Err(Failed) => return,
    }
    let _ = log.flush();
}

// Writes the text of a fault to the log, behind what the command has written.
fn log_fault<L: Sink>(asked: Option<Command>, log: &mut L, text: &[u8])
    ensures ends { EndsLog L.Sink log.old log.new text.now }
    ensures flushes { FlushesAfter L.Sink asked log.old log.new text.now }
{
    match asked {
        Some(Command::LiveSeal(..) | Command::LiveCheck(..) | Command::LiveLine(..)) => {
            send_fault(log, text)
        }
        _ => write_fault_line(log, text),
    }
}

/// Runs the program: it reads its words, which are those after the program's name, and does what
/// they ask for. Only `space`, `audit`, `duplex`, `two_wire`, `replay`, `poll` and `live line` take
/// memory. The clause of `replay` in `runs` is the program's headline: the record `Headline` of
/// `specs/ReplayCommand.antt`.
pub fn run<K, S, O: Sink, L: Sink, D>(
    alloc: Global,
    words: &[String],
    key: &mut K,
    streams: &mut Streams<S, O, L>,
    disks: &mut BothDisks<D>,
) -> Ended
where
    K: Source + TellsReason,
    S: Source + TellsReason,
    D: SlotDisk + TellsReason,
    /// The status is `Usage` exactly if the words ask for no command.
    ensures usage { (result.status ≡ Status.Usage) ↔ Asks (map string_bytes words.now) None }

    /// Whatever the words ask for, what was read, written and kept is what the command's record
    /// says for the end. After it comes the fault line, if the status has one, with the reason that
    /// key, input or journal tell, and with the journal that it is about, if there are two; after
    /// words that fit no command also the words that do.
    ensures runs { (asked : Option Command) → Asks (map string_bytes words.now) asked
        → RunsSo K.Source S.Source O.Sink L.Sink D.SlotDisk
        (fault_text (map string_bytes words.now) (told_by K.told_reason S.told_reason
        D.told_reason key.new streams.new.input (disk_of result.way disks.new))) asked
        (outside_of key.old streams.old disks.old)
        (outside_of key.new streams.new disks.new) result }

    /// At any moment, a crash leaves each slot but A as before `init`. For `seal` and `check`, live
    /// or not, and for both journals of `live line`: if a crash before would have left the slots as
    /// read, none leaves a floor below theirs, or an old journal was being taken over. Other
    /// commands leave the disk as it was, and all but `live line` leave the second one so.
    ensures any_moment { (asked : Option Command) → Asks (map string_bytes words.now) asked
        → KeepsDisks D.SlotDisk asked disks.old disks.new }

    /// If all that the command is given is right and nothing outside fails, the command is done,
    /// and an audit ends with the status of its verdict. Only `replay`, `space`, `audit`, `duplex`,
    /// `two_wire`, `poll` and `live line` may end for lack of memory instead.
    ensures done { (asked : Option Command) → Asks (map string_bytes words.now) asked
        → MayDoOverTwo K.Source S.Source O.Sink L.Sink D.SlotDisk asked
        (outside_of key.old streams.old disks.old)
        → IsLineCalm K.Source S.Source O.Sink L.Sink D.SlotDisk
        (outside_of key.old streams.old disks.old)
        (outside_of key.new streams.new disks.new)
        → EndsWellOverTwo K.Source S.Source O.Sink L.Sink D.SlotDisk asked
        (outside_of key.old streams.old disks.old) result }

    /// The status of a failed read, write or call of a disk comes only if a count of such faults
    /// rose. Unless the line is live, the sinks are flushed on the way to `Done` or `Unclean`, and
    /// not otherwise, except that `out` may be if the log's flush fails.
    ensures causes { (asked : Option Command) → Asks (map string_bytes words.now) asked
        → HasCausesOverTwo K.Source S.Source O.Sink L.Sink D.SlotDisk asked
        (outside_of key.old streams.old disks.old)
        (outside_of key.new streams.new disks.new) result }
{
    let asked = asked_by(words);
    let ended = answer(alloc, asked, key, streams, disks);
    let reasons = reasons_of(ended.way, key, &streams.input, disks);
    let text = fault_text(words, &reasons, &ended);
    log_fault(asked, &mut streams.log, text.as_slice());
    ended
}
