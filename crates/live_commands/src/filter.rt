//! A box on a live line: what it makes of ticks waits until it is handed on, and before anything is
//! handed on, the disk is settled for it.
ghost use Rattle.std.specs.Prelude.{◌<◌, length};
ghost use Rattle.yasir_ticks.specs.TickRun.{run_ticks, run_items};
ghost use Rattle.tick_drive.specs.Consumers.{MayTake, Gives, GivesSome};
ghost use Rattle.live_commands.specs.AheadLines.{MayHandOn};
ghost use Rattle.live_commands.specs.Filtering.{filtering, outside, HandsOn};

use crate::ahead_lines::AheadLines;
use line_commands::{LineBox, Port, hand_on};
use sequence_journal::JournalFault;
use tick_drive::Stop;
use yasir_io::{Failed, SlotDisk};
use yasir_ticks::TickRun;

/// Hands on all that waits: settles the disk, then writes and flushes the notes, and then the text
/// of the other line.
#[inline(never)]
pub fn hand_on_all<B: LineBox, P: Port, D: SlotDisk>(
    lines: &mut AheadLines<B>,
    port: &mut P,
    disk: &mut D,
) -> Result<(), Stop>
    /// There is room for the line that isn't filled, no call on the journal has failed, and the
    /// disk is as the journal knows it.
    requires { MayHandOn B.LinkBox B.line_of lines.old (D.told disk.old) }
    /// Nothing waits then, and the disk is settled for the last number used; or a settle failed and
    /// nothing more was written; or a write or a flush failed, and each output has got a front, the
    /// notes first. Nothing is read.
    ensures { HandsOn B.LinkBox B.line_of P.Port D.SlotDisk
        (outside lines.old port.old disk.old) (outside lines.new port.new disk.new) result }
{
    match lines.settle(disk) {
        Ok(()) => {}
        Err(JournalFault) => return Err(Stop::JournalFault),
    }
    match hand_on(port, lines.note_text(), lines.tick_text()) {
        Ok(()) => {}
        Err(Failed) => return Err(Stop::WriteFault),
    }
    lines.empty();
    Ok(())
}

// Takes the first ticks of this run, and hands on all that waits if there is no room for more.
fn take_some<B: LineBox, P: Port, D: SlotDisk>(
    lines: &mut AheadLines<B>,
    port: &mut P,
    disk: &mut D,
    run: TickRun<'_>,
) -> Result<usize, Stop>
    requires some { 0 < length (run_ticks run) }
    requires may { MayTake (filtering B.LinkBox B.line_of P.Port D.SlotDisk)
        (outside lines.old port.old disk.old) (run_items run) }
    ensures { GivesSome (filtering B.LinkBox B.line_of P.Port D.SlotDisk)
        (outside lines.old port.old disk.old) (outside lines.new port.new disk.new)
        (run_items run.entry) result }
{
    let count = lines.take_some(run);
    if lines.has_room() {
        return Ok(count);
    }
    match hand_on_all(lines, port, disk) {
        Ok(()) => Ok(count),
        Err(stop) => Err(stop),
    }
}

/// Takes the ticks of a run, in order. What the box makes of them waits, and is handed on whenever
/// there is no room for more.
pub fn take_run<B: LineBox, P: Port, D: SlotDisk>(
    lines: &mut AheadLines<B>,
    port: &mut P,
    disk: &mut D,
    run: TickRun<'_>,
) -> Result<(), Stop>
    /// The box may count these ticks, the disk is as its journal knows it, and there is room for
    /// what a few ticks complete.
    requires { MayTake (filtering B.LinkBox B.line_of P.Port D.SlotDisk)
        (outside lines.old port.old disk.old) (run_items run) }
    /// The box has taken the ticks of the run, and what it makes of them is handed on or waits; or
    /// it was stopped at one of them, as a failed settle, write or flush says.
    ensures { Gives (filtering B.LinkBox B.line_of P.Port D.SlotDisk)
        (outside lines.old port.old disk.old) (outside lines.new port.new disk.new)
        (run_items run.entry) result }
{
    let mut following = run;
    while !following.is_empty() {
        match take_some(lines, port, disk, following) {
            Ok(count) => following = following.behind(count),
            Err(stop) => return Err(stop),
        }
    }
    Ok(())
}
