//! A box for one direction of a line, over a new journal, and what it has made of the line, kept in
//! memory.
ghost use Rattle.std.specs.Prelude.{◌≡◌, ℕ, ◌+◌, ◌<◌, ◌≤◌, List, [], ◌∷◌, ◌++◌, length, OnOk, IfOk};
ghost use Rattle.std.specs.Prelude.{Option, None, Some};
ghost use Rattle.yasir_io.specs.Steady.{steady_slots};
ghost use Rattle.yasir_ticks.specs.Ticks.{silent};
ghost use Rattle.yasir_ticks.specs.TickRun.{run_ticks};
ghost use Rattle.yasir_ticks.specs.declared.tick.Tick.{Tick};
ghost use Rattle.yasir_ticks.specs.declared.TheConstants.{MAX_TICKS};
ghost use Rattle.frame_ending.specs.Answers.{note_in};
ghost use Rattle.link_format.specs.Setup.{Setup, setup_of};
ghost use Rattle.sequence_journal.specs.Journal.{journal_link, journal_floor, Fits};
ghost use Rattle.sequence_journal.specs.Links.{HasDirection};
ghost use Rattle.sequence_journal.specs.Slots.{greatest};
ghost use Rattle.session_lists.specs.FrameList.{KeptFrames, Holds, ListIsWhole};
ghost use Rattle.line_commands.specs.TimedLines.{timed_lines};
ghost use Rattle.line_texts.specs.Adding.{TextHasRoom, IsShort};
ghost use Rattle.line_commands.specs.KeptBox.{timed_of, ticks_kept, AreTextsOf, KeepsLine, IsServed};
ghost use Rattle.line_commands.specs.KeptBox.{IsSteady, KeptTakesOn, KeptTakesUpTo, TakesSome, KeepsOn};
ghost use Rattle.line_commands.specs.KeptBox.{KeepsSome};

use crate::line_box::LineBox;
use crate::memory_text::MemoryText;
use crate::noted_steps::add_step;
use frame_ending::RunBytes;
use line_texts::{Texts, answer_run, short_front};
use link_format::Dir;
use sequence_journal::{Journal, LinkId};
use session_lists::FrameList;
use std::alloc::Global;
use yasir_io::{Failed, NoMemory, SLOT_LEN, SteadySlots};
use yasir_ticks::{MAX_TICKS, Tick, TickRun};

#[cfg(test)]
mod turn_tests;

/// A box over a new journal on a disk that never fails, and what it has made of a line.
#[derive(Drop)]
pub(crate) struct KeptBox<B> {
    line_box: B,
    journal: Journal,
    disk: SteadySlots,
    texts: Texts,
    text: MemoryText,
    // the texts' second sink, which gets nothing
    log: MemoryText,
    // the line of each note, with the tick of its step
    notes: FrameList<u64>,
    pub(crate) ticks: u64,
}

/// The text of the other line, and the line of each note with the tick of its step.
#[derive(Drop)]
pub(crate) struct KeptTexts {
    pub(crate) text: Vec<u8>,
    pub(crate) notes: FrameList<u64>,
}

// Returns a new journal of this link, on a disk whose slots hold no number.
fn new_journal(disk: &mut SteadySlots, link: &LinkId) -> Journal
    requires none { greatest (steady_slots disk.old) ≡ None }
    requires link { HasDirection link.now }
    ensures of_link { journal_link result ≡ link.now }
    ensures fits { Fits result (Some (steady_slots disk.new)) }
    ensures floor { journal_floor result ≡ 0 }
{
    Journal::init(disk, link).unwrap()
}

// Adds the line of a step's note, if the step has one.
fn push_note<B: LineBox>(
    notes: &mut FrameList<u64>,
    tick: u64,
    note: Option<B::Note>,
) -> Result<(), NoMemory>
    ensures { OnOk result ((lines : List (KeptFrames ℕ)) → Holds notes.old lines
        → Holds notes.new (lines ++ timed_lines B.line_of (note_in tick note))) }
{
    let Some(note) = note else {
        return Ok(());
    };
    let line = B::note_line(&note);
    match notes.push(tick, line.as_slice()) {
        Ok(()) => Ok(()),
        Err(_) => Err(NoMemory),
    }
}

impl<B: LineBox> KeptBox<B> {
    /// Returns a box that has taken no tick.
    pub(crate) fn new(alloc: Global, key: &[u8], dir: Dir) -> KeptBox<B>
        requires widths { B.widths_fit }
        ensures none { ticks_kept result ≡ 0 }
        ensures steady { IsSteady B.LinkBox B.line_of result }
        ensures keeps { KeepsLine B.LinkBox B.line_of result (setup_of key.now dir 0) [] }
    {
        let mut disk = SteadySlots::new([0; SLOT_LEN], [0; SLOT_LEN]);
        let link = B::link(dir);
        let journal = new_journal(&mut disk, &link);
        KeptBox {
            line_box: B::new(key, dir),
            journal,
            disk,
            texts: Texts::new(),
            text: MemoryText::new(alloc),
            log: MemoryText::new(alloc),
            notes: FrameList::new(alloc),
            ticks: 0,
        }
    }

    // Takes as many of the first ticks of this run as the box forwards, and returns how many.
    #[inline(always)]
    fn forward(&mut self, run: TickRun<'_>) -> usize
        requires count { ticks_kept self.old + length (run_ticks run) ≤ MAX_TICKS }
        requires served { IsServed B.LinkBox B.line_of self.old }
        requires room { TextHasRoom self.old.texts }
        requires short { IsShort (run_ticks run) }
        ensures takes { KeptTakesUpTo B.LinkBox B.line_of self.old self.new (run_ticks run.entry)
            result }
        ensures none { result ≡ 0 → TextHasRoom self.new.texts }
    {
        let count = self.line_box.forward(run);
        if count > 0 {
            self.texts.add_run(run.front(count));
            self.ticks += count as u64;
        }
        count
    }

    // Takes as many of the first ticks of this run as the box takes at once while the other line
    // has only silence or only bytes, and returns how many.
    #[inline(always)]
    fn pass(&mut self, run: TickRun<'_>) -> usize
        requires count { ticks_kept self.old + length (run_ticks run) ≤ MAX_TICKS }
        requires served { IsServed B.LinkBox B.line_of self.old }
        requires room { TextHasRoom self.old.texts }
        requires short { IsShort (run_ticks run) }
        ensures takes { KeptTakesUpTo B.LinkBox B.line_of self.old self.new (run_ticks run.entry)
            result }
        ensures none { result ≡ 0 → TextHasRoom self.new.texts }
    {
        let mut sent = RunBytes::new();
        let count = self.line_box.pass(run, &mut sent);
        if count > 0 {
            self.texts
                .add_run(answer_run(count as u32, sent.as_slice()));
            self.ticks += count as u64;
        }
        count
    }

    // Takes one tick. It is a separate function, since most ticks are taken in runs.
    #[inline(never)]
    fn step(&mut self, tick: Tick) -> Result<(), NoMemory>
        requires count { ticks_kept self.old < MAX_TICKS }
        requires served { IsServed B.LinkBox B.line_of self.old }
        requires room { TextHasRoom self.old.texts }
        ensures { OnOk result (KeptTakesOn B.LinkBox B.line_of self.old self.new (tick ∷ [])) }
    {
        let step = self
            .line_box
            .step(tick, &mut self.journal, &mut self.disk)
            .unwrap();
        add_step::<B>(&mut self.texts, step.tick, None);
        let Ok(()) = push_note::<B>(&mut self.notes, self.ticks, step.note) else {
            return Err(NoMemory);
        };
        self.ticks += 1;
        Ok(())
    }

    // Takes the first ticks of this run: as many as the box takes at once, or one tick if that is
    // none. Returns how many. What they add to the text waits.
    #[inline(always)]
    fn take_short(&mut self, run: TickRun<'_>) -> Result<usize, NoMemory>
        requires some { 0 < length (run_ticks run) }
        requires count { ticks_kept self.old + length (run_ticks run) ≤ MAX_TICKS }
        requires served { IsServed B.LinkBox B.line_of self.old }
        requires room { TextHasRoom self.old.texts }
        ensures { IfOk result (λ n. TakesSome B.LinkBox B.line_of self.old self.new
            (run_ticks run.entry) n) }
    {
        let short = short_front(run);
        let forwarded = self.forward(short);
        if forwarded > 0 {
            return Ok(forwarded);
        }
        let passed = self.pass(short);
        if passed > 0 {
            return Ok(passed);
        }
        match self.step(run.first()) {
            Ok(()) => Ok(1),
            Err(NoMemory) => Err(NoMemory),
        }
    }

    /// Takes the first ticks of this run: as many as the box takes at once, or one tick if that is
    /// none. Returns how many. If the room for the texts is full then, what waits goes to the
    /// memory.
    #[inline(always)]
    pub(crate) fn take_some(&mut self, run: TickRun<'_>) -> Result<usize, NoMemory>
        requires some { 0 < length (run_ticks run) }
        requires room { ticks_kept self.old + length (run_ticks run) ≤ MAX_TICKS }
        requires steady { IsSteady B.LinkBox B.line_of self.old }
        ensures { IfOk result (λ n. KeepsSome B.LinkBox B.line_of self.old self.new
            (run_ticks run.entry) n) }
    {
        let count = match self.take_short(run) {
            Ok(count) => count,
            Err(NoMemory) => return Err(NoMemory),
        };
        if self.texts.has_room() {
            return Ok(count);
        }
        match self.texts.hand_out(&mut self.text, &mut self.log) {
            Ok(()) => Ok(count),
            Err(Failed) => Err(NoMemory),
        }
    }

    /// Takes `ticks` silent ticks.
    pub(crate) fn wait(&mut self, ticks: u32) -> Result<(), NoMemory>
        requires room { ticks_kept self.old + ticks ≤ MAX_TICKS }
        requires steady { IsSteady B.LinkBox B.line_of self.old }
        ensures { OnOk result (KeepsOn B.LinkBox B.line_of self.old self.new (silent ticks)) }
    {
        let mut left = ticks;
        while left > 0 {
            match self.take_some(TickRun::Silence(left)) {
                Ok(count) => left -= count as u32,
                Err(NoMemory) => return Err(NoMemory),
            }
        }
        Ok(())
    }

    /// Ends the text of the other line, and returns it with the lines of the notes.
    pub(crate) fn finish(self) -> Result<KeptTexts, NoMemory>
        requires { IsSteady B.LinkBox B.line_of self }
        ensures whole { IfOk result (λ texts. ListIsWhole texts.notes) }
        ensures texts { IfOk result (λ texts. (setup : Setup) (line : List Tick)
            → KeepsLine B.LinkBox B.line_of self setup line
            → AreTextsOf (timed_of B.walking B.line_of setup) line texts) }
    {
        let KeptBox {
            texts,
            mut text,
            mut log,
            notes,
            ..
        } = self;
        match texts.finish(&mut text, &mut log) {
            Ok(()) => Ok(KeptTexts {
                text: text.bytes,
                notes,
            }),
            Err(Failed) => Err(NoMemory),
        }
    }
}
