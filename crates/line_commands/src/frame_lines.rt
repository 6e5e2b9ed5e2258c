//! The consumer that drives a device, and writes the lines of the frames that it reads.
ghost use Rattle.std.specs.Prelude.{◌≡◌, ◌<◌, length};
ghost use Rattle.yasir_ticks.specs.TickRun.{run_ticks, run_items};
ghost use Rattle.yasir_ticks.specs.declared.tick_run.TickRun.TheVariants.{Bytes, Silence};
ghost use Rattle.tick_drive.specs.Consumers.{MayTake, GivesSome};
ghost use Rattle.line_commands.specs.FrameLines.{printing};

use command_ends::push_read_line;
use device_model::{Device, Met, hear_run};
use tick_drive::{Consumer, Stop};
use yasir_io::{Failed, Sink, TextBuffer};
use yasir_ticks::TickRun;

#[cfg(test)]
mod turn_tests;

/// Prints to a sink a line for each frame that a device reads.
#[derive(Drop)]
pub struct FrameLines<'a, V, O> {
    device: &'a mut V,
    lines: &'a mut TextBuffer,
    out: &'a mut O,
}

impl<'a, V, O> FrameLines<'a, V, O> {
    /// Returns a printer of what `device` reads. The lines wait in `lines` on their way to `out`.
    pub fn new(device: &'a mut V, lines: &'a mut TextBuffer, out: &'a mut O) -> FrameLines<'a, V, O>
        ensures device { result.device ≡ device.entry }
        ensures lines { result.lines ≡ lines.entry }
        ensures out { result.out ≡ out.entry }
    {
        FrameLines { device, lines, out }
    }
}

impl<'a, V: Device, O: Sink> FrameLines<'a, V, O> {
    // Hears a run up to a tick in which a frame is read, and adds the line of this frame. Returns
    // how many ticks it took.
    #[inline(always)]
    fn print_some(&mut self, run: TickRun<'_>) -> Result<usize, Stop>
        requires some { 0 < length (run_ticks run) }
        requires may { MayTake (printing V.Device O.Sink) self.old (run_items run) }
        ensures { GivesSome (printing V.Device O.Sink) self.old self.new (run_items run.entry)
            result }
    {
        let Met { taken, start } = hear_run(self.device, run);
        let Some(start) = start else {
            return Ok(taken);
        };
        match push_read_line(self.lines, self.out, start, self.device.frame_bytes()) {
            Ok(()) => Ok(taken),
            Err(Failed) => Err(Stop::WriteFault),
        }
    }

    // Takes the first of these bytes. If they end a frame, prints its line.
    #[inline]
    fn hear_part(&mut self, bytes: &[u8]) -> Result<usize, Stop>
        requires some { 0 < length (run_ticks (Bytes bytes)) }
        requires may { MayTake (printing V.Device O.Sink) self.old (run_items (Bytes bytes)) }
        ensures { GivesSome (printing V.Device O.Sink) self.old self.new
            (run_items (Bytes bytes.entry)) result }
    {
        self.print_some(TickRun::Bytes(bytes))
    }

    // Takes the first of these silent ticks. If they end a frame, prints its line.
    #[inline]
    fn wait_part(&mut self, ticks: u32) -> Result<usize, Stop>
        requires some { 0 < length (run_ticks (Silence ticks)) }
        requires may { MayTake (printing V.Device O.Sink) self.old (run_items (Silence ticks)) }
        ensures { GivesSome (printing V.Device O.Sink) self.old self.new
            (run_items (Silence ticks)) result }
    {
        self.print_some(TickRun::Silence(ticks))
    }
}

impl<'a, V: Device, O: Sink> Consumer for FrameLines<'a, V, O> {
    ghost use Rattle.line_commands.specs.FrameLinesLaws.{holds-none, holds-then};

    ghost meaning = { printing V.Device O.Sink };

    // Takes a run up to a tick in which a frame is read, and adds the line of this frame. Each kind
    // of run has a function of its own, so that it is compiled for its kind.
    #[inline(always)]
    fn take_some(&mut self, run: TickRun<'_>) -> Result<usize, Stop> {
        match run {
            TickRun::Bytes(bytes) => self.hear_part(bytes),
            TickRun::Silence(ticks) => self.wait_part(ticks),
        }
    }

    // A mark is no tick of the line.
    fn take_mark(&mut self) -> Result<(), Stop> {
        Ok(())
    }

    ghost went_none = { holds-none V.Device O.Sink };

    ghost went_then = { holds-then V.Device O.Sink };
}
