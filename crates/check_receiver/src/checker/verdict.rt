//! The verdict on a burst, and the steps into which its note falls.
use super::Checker;
use crate::phase::Phase;
use frame_ending::BoxStep;
use line_rules::{Head, LineRules};
use link_box::{CheckNote, DroppedWhy, RefusedWhy};
use link_format::Mac;
use sequence_journal::{Journal, JournalFault, LIMIT};
use yasir_io::SlotDisk;
use yasir_ticks::{MAX_TICKS, Tick};

impl<R: LineRules, M: Mac, const B: usize, const D: usize> Checker<R, M, B, D> {
    ghost use Rattle.std.specs.Prelude.{◌≡◌, ℕ, ◌+◌, ◌-◌, ◌<◌, ◌≤◌, List, ◌++◌, length};
    ghost use Rattle.std.specs.Prelude.{Some, OnOk, OnErr, IfOk, true};
    ghost use Rattle.yasir_ticks.specs.declared.tick.Tick.{Tick};
    ghost use Rattle.yasir_ticks.specs.declared.tick.Tick.TheVariants.{Silent};
    ghost use Rattle.frame_ending.specs.SoFar.{live_bytes_so_far};
    ghost use Rattle.frame_ending.specs.Stands.{ticks_taken as ticks_cut};
    ghost use Rattle.frame_ending.specs.Stands.{CutStandsFor};
    ghost use Rattle.link_format.specs.Profile.{profile_of};
    ghost use Rattle.link_format.specs.Setup.{Setup};
    ghost use Rattle.sequence_journal.specs.declared.journal.Journal.{Journal};
    ghost use Rattle.sequence_journal.specs.declared.numbers.TheConstants.{LIMIT};
    ghost use Rattle.sequence_journal.specs.Commits.{HasFailed};
    ghost use Rattle.sequence_journal.specs.Journal.{journal_floor, Fits};
    ghost use Rattle.link_box.specs.declared.check_note.CheckNote.TheVariants.{Passed, Refused};
    ghost use Rattle.link_box.specs.declared.check_note.CheckNote.TheVariants.{Dropped};
    ghost use Rattle.check_receiver.specs.Checkings.{PassesWith, CheckerKeepsJournal};
    ghost use Rattle.check_receiver.specs.Stands.{CheckerHasTaken, checker_direction};
    ghost use Rattle.yasir_ticks.specs.Bursts.{Burst};
    ghost use Rattle.line_rules.specs.Rules.{lacking_of};
    ghost use Rattle.frame_ending.specs.SoFar.{last_burst, start_so_far};
    ghost use Rattle.frame_ending.specs.LiveBytes.{live_bytes};
    ghost use Rattle.link_box.specs.declared.check_note.DroppedWhy.TheVariants.{Busy};
    ghost use Rattle.link_box.specs.declared.check_note.DroppedWhy.TheVariants.{Head as NoHead};
    ghost use Rattle.link_box.specs.Verdicts.{whole_verdict};
    ghost use Rattle.check_receiver.specs.Arrivals.{bytes_come};
    ghost use Rattle.check_receiver.specs.declared.phase.Phase.TheVariants.{Leaving};
    ghost use Rattle.check_receiver.specs.Stands.{MacHolds};
    ghost use Rattle.std.specs.Prelude.{drop, bytes_eq};
    ghost use Rattle.std.specs.Int.{w64, to_be_bytes};
    ghost use Rattle.link_box.specs.Holding.{trailer_so_far};
    ghost use Rattle.check_receiver.specs.Turning.{Turned, TurnedClear, TurnedRefused};
    ghost use Rattle.check_receiver.specs.Between.{BurstIsWhole};
    ghost use Rattle.check_receiver.specs.Between.{verdict_told};

    // Decides on a burst when the last byte of its trailer has come.
    #[inline(always)]
    pub(super) fn decide<S: SlotDisk>(
        &mut self,
        journal: &mut Journal,
        disk: &mut S,
    ) -> Result<BoxStep<CheckNote>, JournalFault>
        requires room { ticks_cut self.old.cut ≤ MAX_TICKS }
        requires fits { Fits journal.old (S.told disk.old) }
        ensures cut { OnOk result (self.new.cut ≡ self.old.cut) }
        ensures step { IfOk result (λ step. (setup : Setup) (line : List Tick) (t : Tick)
            → BurstIsWhole R.LineRules M.Mac self.old (journal_floor journal.old) setup line t
            → CheckerHasTaken R.LineRules M.Mac self.new (journal_floor journal.new) setup line t step) }
        ensures err_passes { OnErr result ((number : ℕ)
            × HasFailed journal.old journal.new (S.told disk.old) (S.told disk.new) number
            × ((setup : Setup) (line : List Tick) (t : Tick)
            → BurstIsWhole R.LineRules M.Mac self.old (journal_floor journal.old) setup line t
            → PassesWith (profile_of R.LineRules M.Mac B LIMIT setup) R.rules setup.floor line t
            number)) }
        ensures journal { CheckerKeepsJournal S.SlotDisk journal.old journal.new disk.old disk.new result }
        ensures direction { checker_direction self.new ≡ checker_direction self.old }
    {
        let number = match self.verdict(journal) {
            Ok(number) => number,
            Err(why) => return Ok(self.refuse(why)),
        };
        let Ok(()) = journal.commit(disk, number) else {
            return Err(JournalFault);
        };
        Ok(self.pass(number))
    }

    // Returns the number with which a burst with a whole trailer passes, or why it is refused.
    #[inline(always)]
    fn verdict(&mut self, journal: &Journal) -> Result<u64, RefusedWhy>
        ensures others { self.new ≡ record self.old { mac = self.new.mac } }
        ensures mac_is { (key text : List ℕ) → M.stands self.old.mac key text
            → (others : List ℕ) × M.stands self.new.mac key others }
        ensures above { IfOk result (λ number. journal_floor journal.now < number) }
        ensures within { IfOk result (λ number. number ≤ LIMIT) }
        ensures judged { (setup : Setup) (line : List Tick) (d : Burst)
            → CutStandsFor R.LineRules self.old.cut line
            → last_burst line ≡ Some d
            → MacHolds R.LineRules M.Mac setup self.old.mac self.old.arriving d
            → length (trailer_so_far R.rules d) ≡ B + M.TAG
            → verdict_told result
            ≡ whole_verdict (profile_of R.LineRules M.Mac B LIMIT setup) R.rules
            (journal_floor journal.now) (live_bytes R.rules d) (trailer_so_far R.rules d) }
    {
        if !self.cut.rules().good() {
            return Err(RefusedWhy::Form);
        }
        let floor = journal.floor();
        let Some(number) = self.arriving.number_above(floor) else {
            return Err(RefusedWhy::Number);
        };
        // neither of these happens: a full number is above the floor and within the limit
        if number <= floor {
            return Err(RefusedWhy::Number);
        }
        if number > LIMIT {
            return Err(RefusedWhy::Number);
        }
        if !self.has_tag_of(number) {
            return Err(RefusedWhy::Tag);
        }
        Ok(number)
    }

    // Whether the trailer has the tag of the burst with this number.
    fn has_tag_of(&mut self, number: u64) -> bool
        ensures others { self.new ≡ record self.old { mac = self.new.mac } }
        ensures mac_is { (key text : List ℕ) → M.stands self.old.mac key text
            → (others : List ℕ) × M.stands self.new.mac key others }
        ensures compared { (key text : List ℕ) → M.stands self.old.mac key text
            → B ≤ length (bytes_come self.old.arriving)
            → result ≡ bytes_eq (drop B (bytes_come self.old.arriving))
            (M.tag_of key (text ++ to_be_bytes w64 number)) }
    {
        self.mac.update(&number.to_be_bytes());
        let tag = self.mac.finish();
        self.arriving.has_tag(&tag)
    }

    // Passes the burst with this number, which must have been committed.
    #[inline(always)]
    fn pass(&mut self, number: u64) -> BoxStep<CheckNote>
        requires room { ticks_cut self.old.cut ≤ MAX_TICKS }
        ensures turned { Turned R.LineRules (record self.old {
          phase = Leaving true;
          earliest_start = self.new.earliest_start;
        })
            self.new Silent result.tick }
        ensures earliest { self.new.earliest_start ≡ ticks_cut self.old.cut + self.old.until }
        ensures note { (start : ℕ) × (len : ℕ) × (result.note ≡ Some (Passed number start len)) }
        ensures told { (line : List Tick) → CutStandsFor R.LineRules self.old.cut line
            → result.note ≡ Some (Passed number (start_so_far line)
            (length (live_bytes_so_far R.rules line))) }
    {
        self.phase = Phase::Leaving { passed: true };
        self.earliest_start = self.cut.ticks() + u64::from(self.until);
        let start = self.cut.start();
        let len = self.cut.rules().len();
        self.pass_by(Some(CheckNote::Passed { number, start, len }))
    }

    // Refuses the burst for this reason.
    #[inline(never)]
    pub(super) fn refuse(&mut self, why: RefusedWhy) -> BoxStep<CheckNote>
        requires room { ticks_cut self.old.cut ≤ MAX_TICKS }
        ensures turned { TurnedRefused R.LineRules self.old self.new result.tick }
        ensures earliest { (line : List Tick) → CutStandsFor R.LineRules self.old.cut line
            → self.new.earliest_start ≡ length line + self.old.until
            + lacking_of R.rules (live_bytes_so_far R.rules line) }
        ensures note { (start : ℕ) × (result.note ≡ Some (Refused start why)) }
        ensures told { (line : List Tick) → CutStandsFor R.LineRules self.old.cut line
            → result.note ≡ Some (Refused (start_so_far line) why) }
    {
        self.phase = Phase::Leaving { passed: false };
        self.earliest_start = self.cut.ticks()
            + u64::from(self.until)
            + u64::from(self.cut.rules().lacking());
        self.outlet.refuse(self.cut.rules().fork());
        let start = self.cut.start();
        self.pass_by(Some(CheckNote::Refused { start, why }))
    }

    // Drops the burst for its header: its bytes don't leave.
    #[inline(never)]
    pub(super) fn drop_headless(&mut self) -> BoxStep<CheckNote>
        ensures turned { TurnedClear R.LineRules self.old self.new result.tick }
        ensures note { (start : ℕ) × (result.note ≡ Some (Dropped start NoHead)) }
        ensures told { (line : List Tick) → CutStandsFor R.LineRules self.old.cut line
            → result.note ≡ Some (Dropped (start_so_far line) NoHead) }
    {
        self.phase = Phase::Idle;
        self.until = 0;
        self.ring.clear();
        let start = self.cut.start();
        self.pass_by(Some(CheckNote::Dropped {
            start,
            why: DroppedWhy::Head,
        }))
    }

    // Drops the burst because others are still leaving.
    #[inline(never)]
    pub(super) fn drop_busy(&mut self) -> BoxStep<CheckNote>
        ensures turned { Turned R.LineRules self.old self.new Silent result.tick }
        ensures note { (start : ℕ) × (result.note ≡ Some (Dropped start Busy)) }
        ensures told { (line : List Tick) → CutStandsFor R.LineRules self.old.cut line
            → result.note ≡ Some (Dropped (start_so_far line) Busy) }
    {
        let start = self.cut.start();
        self.pass_by(Some(CheckNote::Dropped {
            start,
            why: DroppedWhy::Busy,
        }))
    }
}
