//! A box with a spacer behind it, tick by tick: a device gets whole frames with silence between
//! them.
ghost use Rattle.std.specs.Prelude.{◌≡◌, ◌+◌, ◌<◌, ◌≤◌, ℕ, List, [], ◌∷◌, false, IfOk};
ghost use Rattle.yasir_ticks.specs.declared.TheConstants.{MAX_TICKS};
ghost use Rattle.yasir_ticks.specs.declared.tick.Tick.{Tick};
ghost use Rattle.device_model.specs.Frames.{FrameRead, frames_lent};
ghost use Rattle.line_spacer.specs.Stands.{AnswersSpaced};
ghost use Rattle.link_format.specs.Setup.{setup_of};
ghost use Rattle.sequence_journal.specs.Journal.{journal_link, journal_floor, is_broken};
ghost use Rattle.line_texts.specs.Sending.{LineAndNotes, AnswersNoted};
ghost use Rattle.live_line.specs.Guarded.{guarded, guarded_made, GuardedStands, IsGuardedReady};
ghost use Rattle.live_line.specs.PlainBoxes.{plain_taken, plain_number};

use crate::plain_box::{PlainBox, add_noted};
use crate::way_box::{EndedNotes, WayBox};
use device_model::Met;
use line_commands::{LineBox, LineSpacer};
use line_texts::{Texts, answer_run};
use link_format::Dir;
use sequence_journal::Journal;
use std::alloc::Global;
use yasir_io::NoMemory;
use yasir_ticks::{Tick, TickRun};

/// A box with a spacer behind it.
#[derive(Drop)]
pub struct GuardedBox<B, S> {
    plain: PlainBox<B>,
    spacer: S,
}

// Takes a tick into a spacer that owes no answer. Returns the tick of the first byte of the frame
// that is read in it, if one is.
fn hear_tick<S: LineSpacer>(spacer: &mut S, tick: Tick) -> Option<u64>
    requires { S.taken spacer.old < MAX_TICKS }
    ensures taken { S.taken spacer.new ≡ S.taken spacer.old + 1 }
    ensures owes { (line : List Tick) → S.owes spacer.old line [] []
        → S.owes spacer.new line (tick ∷ []) (frames_lent result (S.lent spacer.new)) }
{
    let Met { start, .. } = match tick {
        Tick::Silent => spacer.hear_front(TickRun::Silence(1)),
        Tick::Byte(byte) => spacer.hear_front(TickRun::Bytes(&[byte])),
    };
    start
}

impl<B: LineBox, S: LineSpacer> GuardedBox<B, S> {
    /// Returns a guarded box that has taken no tick. Its numbers begin at the floor of this
    /// journal, which serves the box's link. It takes its memory here, and none later.
    pub fn new(
        alloc: Global,
        key: &[u8],
        dir: Dir,
        journal: &Journal,
    ) -> Result<GuardedBox<B, S>, NoMemory>
        /// The widths of the box are ones that it can be made with.
        requires widths { B.widths_fit }
        /// There is at least one silent tick between frames.
        requires gap { S.gap_fits }
        /// The journal serves the link of a box of this direction.
        requires link { journal_link journal.now ≡ B.link_in dir }
        /// No call on the journal has failed.
        requires whole { is_broken journal.now ≡ false }
        /// It has taken 0 ticks.
        ensures taken { IfOk result (λ value. plain_taken B.LinkBox B.line_of value.plain ≡ 0) }
        /// It may take ticks.
        ensures ready { IfOk result (IsGuardedReady B.LinkBox B.line_of S.LineSpacer) }
        /// The last number used is the journal's floor.
        ensures number { IfOk result (λ value.
            plain_number value.plain ≡ journal_floor journal.now) }
        /// It begins with this key and direction at the journal's floor, with no tick taken.
        ensures stands { IfOk result (λ value. GuardedStands B.LinkBox B.line_of S.LineSpacer value
            (setup_of key.now dir (journal_floor journal.now)) []) }
    {
        let plain = PlainBox::new(key, dir, journal);
        match S::new(alloc) {
            Ok(spacer) => Ok(GuardedBox { plain, spacer }),
            Err(NoMemory) => Err(NoMemory),
        }
    }
}

impl<B: EndedNotes, S: LineSpacer> WayBox for GuardedBox<B, S> {
    ghost use Rattle.link_box.specs.Walking.{number_used_after};
    ghost use Rattle.live_line.specs.WayBoxLaws.{guarded-number};

    ghost made = { guarded_made B.LinkBox B.line_of S.LineSpacer };

    ghost number_for = { number_used_after B.walking };

    ghost stands = { GuardedStands B.LinkBox B.line_of S.LineSpacer };

    ghost taken = { λ value. plain_taken B.LinkBox B.line_of value.plain };

    ghost number = { λ value. plain_number value.plain };

    ghost ready = { IsGuardedReady B.LinkBox B.line_of S.LineSpacer };

    ghost number_is = { guarded-number B.LinkBox B.line_of S.LineSpacer };

    fn take(&mut self, tick: Tick, texts: &mut Texts) {
        let step = self.plain.step(tick);
        let read = hear_tick(&mut self.spacer, step.tick);
        let answer = self.spacer.give_front(1, read);
        let sent = answer_run(answer.taken as u32, self.spacer.sent_bytes());
        add_noted::<B>(texts, step.note, sent);
    }

    fn last_number(&self) -> u64 {
        self.plain.number()
    }
}

/// A law of guards: what a box returns for a run, given to a spacer, is what the guarded box
/// returns for that run, with the box's note.
pub fn guarded_answers()
    ensures { (reads : List Tick → List FrameRead) (gap room : ℕ) (made : LineAndNotes)
        (line run between answer : List Tick) (note : List ℕ) (step : ℕ) (lost : List FrameRead)
        → AnswersNoted made line run between note
        → AnswersSpaced reads gap room (made.other_line line) between answer step lost
        → AnswersNoted (guarded reads gap room made) line run answer note }
{}
