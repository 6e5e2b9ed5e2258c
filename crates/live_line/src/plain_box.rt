//! A box over a journal in memory, tick by tick.
ghost use Rattle.std.specs.Prelude.{◌≡◌, ◌<◌, ◌≤◌, [], false};
ghost use Rattle.yasir_ticks.specs.TickRun.{run_ticks};
ghost use Rattle.yasir_ticks.specs.declared.TheConstants.{MAX_TICKS};
ghost use Rattle.link_format.specs.Setup.{setup_of};
ghost use Rattle.sequence_journal.specs.Journal.{journal_link, journal_floor, is_broken};
ghost use Rattle.sequence_journal.specs.declared.numbers.TheConstants.{LIMIT};
ghost use Rattle.line_commands.specs.Boxes.{line_of_note};
ghost use Rattle.line_texts.specs.Adding.{TextHasRoom, HasLineRoom, IsShort, TextAdds};
ghost use Rattle.line_texts.specs.Texts.{waiting_in};
ghost use Rattle.live_line.specs.PlainBoxes.{plain_made, plain_taken, plain_number, IsPlainReady};
ghost use Rattle.live_line.specs.PlainBoxes.{PlainStands, StepsPlain};
ghost use Rattle.live_line.specs.WayText.{AreEnded};

use crate::way_box::{EndedNotes, WayBox};
use frame_ending::BoxStep;
use line_commands::LineBox;
use line_texts::Texts;
use link_format::Dir;
use sequence_journal::{Journal, NoSlots};
use yasir_ticks::{Tick, TickRun};

/// A box over a journal in memory.
#[derive(Drop)]
pub struct PlainBox<B> {
    line_box: B,
    journal: Journal,
}

// Adds the line of a note, if there is one, and the ticks of its step.
pub(crate) fn add_noted<B: EndedNotes>(
    texts: &mut Texts,
    note: Option<B::Note>,
    answer: TickRun<'_>,
)
    requires room { TextHasRoom texts.old }
    requires short { IsShort (run_ticks answer) }
    ensures adds { TextAdds (waiting_in texts.old) (waiting_in texts.new) (run_ticks answer.entry)
        (line_of_note B.line_of note) }
    ensures ended { AreEnded (waiting_in texts.old).notes → AreEnded (waiting_in texts.new).notes }
    ensures line_room { HasLineRoom texts.new }
{
    match note {
        None => texts.add_run(answer),
        Some(note) => {
            let line = B::note_line(&note);
            texts.add_noted(line.as_slice(), answer);
        }
    }
}

impl<B: LineBox> PlainBox<B> {
    /// Returns a box that has taken no tick. Its numbers begin at the floor of this journal, which
    /// serves the box's link.
    pub fn new(key: &[u8], dir: Dir, journal: &Journal) -> PlainBox<B>
        /// The widths of the box are ones that it can be made with.
        requires widths { B.widths_fit }
        /// The journal serves the link of a box of this direction.
        requires link { journal_link journal.now ≡ B.link_in dir }
        /// No call on the journal has failed.
        requires whole { is_broken journal.now ≡ false }
        /// It has taken 0 ticks.
        ensures taken { plain_taken B.LinkBox B.line_of result ≡ 0 }
        /// It may take ticks.
        ensures ready { IsPlainReady B.LinkBox B.line_of result }
        /// The last number used is the journal's floor.
        ensures number { plain_number result ≡ journal_floor journal.now }
        /// It begins with this key and direction at the journal's floor, with no tick taken.
        ensures stands { PlainStands B.LinkBox B.line_of result
            (setup_of key.now dir (journal_floor journal.now)) [] }
    {
        PlainBox {
            line_box: B::new(key, dir),
            journal: journal.in_memory(),
        }
    }

    // Takes the next tick, and returns what the box returns.
    pub(crate) fn step(&mut self, tick: Tick) -> BoxStep<B::Note>
        requires count { plain_taken B.LinkBox B.line_of self.old < MAX_TICKS }
        requires ready { IsPlainReady B.LinkBox B.line_of self.old }
        ensures { StepsPlain B.LinkBox B.line_of self.old self.new tick result }
    {
        self.line_box
            .step(tick, &mut self.journal, &mut NoSlots)
            .unwrap()
    }

    // Returns the last number that the box has used.
    pub(crate) fn number(&self) -> u64
        ensures value { result ≡ plain_number self.now }
        ensures within { result ≤ LIMIT }
    {
        self.journal.floor()
    }
}

impl<B: EndedNotes> WayBox for PlainBox<B> {
    ghost use Rattle.link_box.specs.Walking.{number_used_after};
    ghost use Rattle.live_line.specs.WayBoxLaws.{plain-number};

    ghost made = { plain_made B.LinkBox B.line_of };

    ghost number_for = { number_used_after B.walking };

    ghost stands = { PlainStands B.LinkBox B.line_of };

    ghost taken = { plain_taken B.LinkBox B.line_of };

    ghost number = { plain_number };

    ghost ready = { IsPlainReady B.LinkBox B.line_of };

    ghost number_is = { plain-number B.LinkBox B.line_of };

    fn take(&mut self, tick: Tick, texts: &mut Texts) {
        let step = self.step(tick);
        match step.tick {
            Tick::Silent => add_noted::<B>(texts, step.note, TickRun::Silence(1)),
            Tick::Byte(byte) => add_noted::<B>(texts, step.note, TickRun::Bytes(&[byte])),
        }
    }

    fn last_number(&self) -> u64 {
        self.number()
    }
}
