//! The consumer that drives a spacer, and writes the spaced line and the lost frames as text.
ghost use Rattle.std.specs.Prelude.{◌≡◌, ◌<◌, ◌≤◌, length, None};
ghost use Rattle.yasir_ticks.specs.TickRun.{run_ticks, run_items};
ghost use Rattle.yasir_ticks.specs.declared.tick_run.TickRun.TheVariants.{Bytes, Silence};
ghost use Rattle.frame_ending.specs.Answered.{answered};
ghost use Rattle.device_model.specs.Frames.{frames_lent};
ghost use Rattle.line_texts.specs.Adding.{TextHasRoom, IsShort, TextAdds};
ghost use Rattle.line_texts.specs.Texts.{waiting_in};
ghost use Rattle.tick_drive.specs.Consumers.{MayTake, GivesSome};
ghost use Rattle.line_commands.specs.SpacedLines.{spacing};
ghost use Rattle.line_commands.specs.SpacedTexts.{lost_line, lost_lines};
ghost use Rattle.line_commands.specs.OwedTexts.{WritesSome, WritesOwed};

use crate::spacers::LineSpacer;
use command_ends::{LINE_ROOM, write_frame_line};
use device_model::Met;
use line_spacer::SpaceRun;
use line_texts::{Texts, answer_run};
use tick_drive::{Consumer, Stop};
use yasir_io::{Failed, Sink, TextRoom};
use yasir_ticks::TickRun;

/// A consumer that drives a spacer: it writes the spaced line to `out` as canonical tick text, and
/// a line for each frame that is lost to `log`. The answers that are owed are added to the texts
/// when a frame is read that the spacer can't queue before they are, and at the end.
#[derive(Drop)]
pub struct SpacedLines<'a, B, O, L> {
    spacer: &'a mut B,
    texts: &'a mut Texts,
    out: &'a mut O,
    log: &'a mut L,
    // how many ticks were heard whose answers aren't added yet
    owed: usize,
}

// Adds the line of a frame that is lost, and the ticks of the run in which the frame is read. It is
// kept separate, since few frames are lost.
#[inline(never)]
fn add_lost(texts: &mut Texts, start: u64, frame: &[u8], answer: TickRun<'_>)
    requires room { TextHasRoom texts.old }
    requires short { IsShort (run_ticks answer) }
    requires frame { length frame.now ≤ 292 }
    ensures { TextAdds (waiting_in texts.old) (waiting_in texts.new) (run_ticks answer.entry)
        (lost_line (record { start = start; frame = frame.now })) }
{
    let mut line = TextRoom::<LINE_ROOM>::new();
    write_frame_line(&mut line, b"lost at ", start, frame);
    texts.add_noted(line.as_slice(), answer);
}

// Adds what a spacer lends for a run: the line of the frame that was lost in it, if one was, and
// the ticks that left.
#[inline(always)]
fn add_answer<B: LineSpacer>(texts: &mut Texts, spacer: &B, run: SpaceRun)
    requires room { TextHasRoom texts.old }
    requires short { run.taken < 1000000 }
    ensures { TextAdds (waiting_in texts.old) (waiting_in texts.new)
        (answered run.taken (B.sent spacer.now))
        (lost_lines (frames_lent run.lost (B.lent spacer.now))) }
{
    let answer = answer_run(run.taken as u32, spacer.sent_bytes());
    match run.lost {
        None => texts.add_run(answer),
        Some(start) => add_lost(texts, start, spacer.frame_bytes(), answer),
    }
}

impl<'a, B, O, L> SpacedLines<'a, B, O, L> {
    /// A consumer that drives this spacer, whose texts go to these sinks.
    pub fn new(
        spacer: &'a mut B,
        texts: &'a mut Texts,
        out: &'a mut O,
        log: &'a mut L,
    ) -> SpacedLines<'a, B, O, L>
        ensures spacer { result.spacer ≡ spacer.entry }
        ensures texts { result.texts ≡ texts.entry }
        ensures out { result.out ≡ out.entry }
        ensures log { result.log ≡ log.entry }
        ensures owed { result.owed ≡ 0 }
    {
        SpacedLines {
            spacer,
            texts,
            out,
            log,
            owed: 0,
        }
    }
}

impl<'a, B: LineSpacer, O: Sink, L: Sink> SpacedLines<'a, B, O, L> {
    // Adds the answers to the first of the `owed` ticks that are owed, to as many of them as the
    // spacer answers at once, and returns how many these are. If the room for the texts is full
    // then, all that waits is written.
    #[inline(always)]
    fn write_some(&mut self, owed: usize, read: Option<u64>) -> Result<usize, Stop>
        requires some { 0 < owed }
        requires room { TextHasRoom self.old.texts.now }
        ensures { WritesSome B.LineSpacer O.Sink L.Sink self.old self.new owed read result }
    {
        let answer = self.spacer.give_front(owed, read);
        add_answer(self.texts, &*self.spacer, answer);
        if self.texts.has_room() {
            return Ok(answer.taken);
        }
        match self.texts.hand_out(self.out, self.log) {
            Ok(()) => Ok(answer.taken),
            Err(Failed) => Err(Stop::WriteFault),
        }
    }

    // Adds the answers to all ticks that are owed, of which there is at least one. `read` is the
    // tick of the first byte of the frame that was read in the last one, if one was. It is kept
    // separate, since few runs end a frame.
    #[inline(never)]
    fn write_owed(&mut self, read: Option<u64>) -> Result<(), Stop>
        requires some { 0 < self.old.owed }
        requires room { TextHasRoom self.old.texts.now }
        ensures { WritesOwed B.LineSpacer O.Sink L.Sink self.old self.new read result }
    {
        let mut left = self.owed;
        while left > 0 {
            match self.write_some(left, read) {
                Ok(taken) => left -= taken,
                Err(stop) => return Err(stop),
            }
        }
        self.owed = 0;
        Ok(())
    }

    /// Adds the answers that are still owed at the end of a line.
    pub fn write_rest(&mut self) -> Result<(), Stop>
        requires { TextHasRoom self.old.texts.now }
        ensures { WritesOwed B.LineSpacer O.Sink L.Sink self.old self.new None result }
    {
        if self.owed == 0 {
            return Ok(());
        }
        self.write_owed(None)
    }

    // Takes a run up to the first tick in which a frame is read. If the spacer can't queue the
    // frame before the ticks that are owed are answered, their answers are added then. Returns
    // how many ticks it has taken.
    #[inline(always)]
    fn space_some(&mut self, run: TickRun<'_>) -> Result<usize, Stop>
        requires some { 0 < length (run_ticks run) }
        requires may { MayTake (spacing B.LineSpacer O.Sink L.Sink) self.old (run_items run) }
        ensures { GivesSome (spacing B.LineSpacer O.Sink L.Sink) self.old self.new
            (run_items run.entry) result }
    {
        let Met { taken, start } = self.spacer.hear_front(run);
        self.owed += taken;
        let Some(_) = start else {
            return Ok(taken);
        };
        if self.spacer.queue_read(self.owed) {
            return Ok(taken);
        }
        match self.write_owed(start) {
            Ok(()) => Ok(taken),
            Err(stop) => Err(stop),
        }
    }

    // Gives the spacer the first of these bytes.
    #[inline]
    fn hear_part(&mut self, bytes: &[u8]) -> Result<usize, Stop>
        requires some { 0 < length (run_ticks (Bytes bytes)) }
        requires may { MayTake (spacing B.LineSpacer O.Sink L.Sink) self.old
            (run_items (Bytes bytes)) }
        ensures { GivesSome (spacing B.LineSpacer O.Sink L.Sink) self.old self.new
            (run_items (Bytes bytes.entry)) result }
    {
        self.space_some(TickRun::Bytes(bytes))
    }

    // Gives the spacer the first of these silent ticks.
    #[inline]
    fn wait_part(&mut self, ticks: u32) -> Result<usize, Stop>
        requires some { 0 < length (run_ticks (Silence ticks)) }
        requires may { MayTake (spacing B.LineSpacer O.Sink L.Sink) self.old
            (run_items (Silence ticks)) }
        ensures { GivesSome (spacing B.LineSpacer O.Sink L.Sink) self.old self.new
            (run_items (Silence ticks)) result }
    {
        self.space_some(TickRun::Silence(ticks))
    }
}

impl<'a, B: LineSpacer, O: Sink, L: Sink> Consumer for SpacedLines<'a, B, O, L> {
    ghost use Rattle.line_commands.specs.SpacedLinesLaws.{holds-none, holds-then};

    ghost meaning = { spacing B.LineSpacer O.Sink L.Sink };

    // Each kind of run has a function of its own, so that `space_some` is compiled for each kind.
    #[inline(always)]
    fn take_some(&mut self, run: TickRun<'_>) -> Result<usize, Stop> {
        match run {
            TickRun::Bytes(bytes) => self.hear_part(bytes),
            TickRun::Silence(ticks) => self.wait_part(ticks),
        }
    }

    // A mark isn't a tick of the line.
    fn take_mark(&mut self) -> Result<(), Stop> {
        Ok(())
    }

    ghost went_none = { holds-none B.LineSpacer O.Sink L.Sink };

    ghost went_then = { holds-then B.LineSpacer O.Sink L.Sink };
}
