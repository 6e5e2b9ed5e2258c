//! What a single tick does after it is cut: a byte of a burst, a byte that isn't live, or silence.
use super::{Checker, PAUSE};
use crate::phase::Phase;
use frame_ending::{BoxStep, Cut};
use line_rules::{Head, LineRules};
use link_box::{CheckNote, RefusedWhy};
use link_format::Mac;
use sequence_journal::{Journal, JournalFault, LIMIT};
use yasir_io::SlotDisk;
use yasir_ticks::{MAX_TICKS, Tick};

impl<R: LineRules, M: Mac, const B: usize, const D: usize> Checker<R, M, B, D> {
    ghost use Rattle.std.specs.Prelude.{◌≡◌, ℕ, ◌+◌, ◌-◌, ◌<◌, ◌≤◌, List, [], ◌∷◌, length};
    ghost use Rattle.std.specs.Prelude.{None, OnOk, OnErr, IfOk, true, false};
    ghost use Rattle.yasir_ticks.specs.declared.tick.Tick.{Tick};
    ghost use Rattle.yasir_ticks.specs.declared.tick.Tick.TheVariants.{Silent, Byte};
    ghost use Rattle.frame_ending.specs.declared.cut.Cut.{Cut};
    ghost use Rattle.frame_ending.specs.declared.cut.Cut.TheVariants.{Start, Live, Extra};
    ghost use Rattle.frame_ending.specs.Stands.{ticks_taken as ticks_cut};
    ghost use Rattle.yasir_ticks.specs.DelayRing.{ring_ticks};
    ghost use Rattle.link_format.specs.Profile.{profile_of};
    ghost use Rattle.link_format.specs.Setup.{Setup};
    ghost use Rattle.sequence_journal.specs.declared.journal.Journal.{Journal};
    ghost use Rattle.sequence_journal.specs.declared.numbers.TheConstants.{LIMIT};
    ghost use Rattle.sequence_journal.specs.Commits.{HasFailed};
    ghost use Rattle.sequence_journal.specs.Journal.{journal_floor, Fits};
    ghost use Rattle.check_receiver.specs.Checkings.{PassesWith, CheckerKeepsJournal};
    ghost use Rattle.check_receiver.specs.Stands.{CheckerHasTaken, checker_direction};
    ghost use Rattle.line_rules.specs.Rules.{head_of};
    ghost use Rattle.line_rules.specs.declared.head.Head.TheVariants.{Bad, Short};
    ghost use Rattle.frame_ending.specs.SoFar.{live_bytes_so_far};
    ghost use Rattle.frame_ending.specs.Stands.{CutStandsFor};
    ghost use Rattle.std.specs.Prelude.{slice_index_or};
    ghost use Rattle.check_receiver.specs.Turning.{Turned, with_until};
    ghost use Rattle.check_receiver.specs.Phases.{is_open};
    ghost use Rattle.check_receiver.specs.declared.phase.Phase.TheVariants.{Open};
    ghost use Rattle.check_receiver.specs.Between.{CheckerIsBetween, IsSilence, IsNoPass};
    ghost use Rattle.yasir_ticks.specs.Ticks.{silent};
    ghost use Rattle.line_rules.specs.declared.head.Head.TheVariants.{Good};

    // Takes the first byte of a burst.
    #[inline(always)]
    pub(super) fn begin(&mut self, byte: u8) -> BoxStep<CheckNote>
        ensures cut { self.new.cut ≡ self.old.cut }
        ensures note { IsNoPass result.note }
        ensures step { (last : ℕ) (setup : Setup) (line : List Tick) (t : Tick)
            → CheckerIsBetween R.LineRules M.Mac self.old last setup line t (Start byte)
            → CheckerHasTaken R.LineRules M.Mac self.new last setup line t result }
        ensures opens { (last : ℕ) (setup : Setup) (line : List Tick)
            → CheckerIsBetween R.LineRules M.Mac self.old last setup line (Byte byte) (Start byte)
            → self.old.earliest_start ≤ length line
            → (head_of R.rules (byte ∷ []) ≡ Bad → ⊥)
            → (result.note ≡ None) × (result.tick ≡ Silent) × (self.new.phase ≡ Open)
            × (slice_index_or (ring_ticks self.new.ring) 0 Silent ≡ Silent) }
        ensures direction { checker_direction self.new ≡ checker_direction self.old }
    {
        if self.cut.start() < self.earliest_start {
            return self.drop_busy();
        }
        self.phase = Phase::Open;
        self.arriving.begin();
        self.outlet.begin();
        self.mac.begin();
        self.mac.update(&[R::LABEL, self.direction.number(), byte]);
        match self.head() {
            Head::Bad => self.drop_headless(),
            Head::Short | Head::Good => self.enter(byte),
        }
    }

    // Takes another live byte of a burst.
    #[inline]
    pub(super) fn go_on(&mut self, byte: u8) -> BoxStep<CheckNote>
        ensures cut { self.new.cut ≡ self.old.cut }
        ensures note { IsNoPass result.note }
        ensures step { (last : ℕ) (setup : Setup) (line : List Tick) (t : Tick)
            → CheckerIsBetween R.LineRules M.Mac self.old last setup line t (Live byte)
            → CheckerHasTaken R.LineRules M.Mac self.new last setup line t result }
        ensures direction { checker_direction self.new ≡ checker_direction self.old }
    {
        if !self.phase.is_open() {
            return self.pass_by(None);
        }
        self.mac.update(&[byte]);
        match self.head() {
            Head::Bad => self.drop_headless(),
            Head::Short | Head::Good => self.enter(byte),
        }
    }

    // Puts a live byte of the burst whose verdict is open into the ring.
    #[inline(always)]
    fn enter(&mut self, byte: u8) -> BoxStep<CheckNote>
        ensures turned { Turned R.LineRules (with_until self.new.until self.old) self.new
            (Byte byte) result.tick }
        ensures until { D ≤ 64 → self.new.until ≡ D }
        ensures note { result.note ≡ None }
    {
        self.until = D as u8;
        BoxStep {
            tick: self.turn(Tick::Byte(byte)),
            note: None,
        }
    }

    // Takes a silent tick.
    #[inline(always)]
    pub(super) fn wait(&mut self) -> BoxStep<CheckNote>
        requires room { ticks_cut self.old.cut ≤ MAX_TICKS }
        ensures cut { self.new.cut ≡ self.old.cut }
        ensures note { IsNoPass result.note }
        ensures step { (last : ℕ) (setup : Setup) (line : List Tick) (cut : Cut)
            → IsSilence cut
            → CheckerIsBetween R.LineRules M.Mac self.old last setup line Silent cut
            → CheckerHasTaken R.LineRules M.Mac self.new last setup line Silent result }
        ensures direction { checker_direction self.new ≡ checker_direction self.old }
    {
        if !self.phase.is_open() {
            return self.pass_by(None);
        }
        if usize::from(self.until) + PAUSE < D {
            return self.refuse(RefusedWhy::Trailer);
        }
        // this is the second silent tick after a live byte
        if usize::from(self.until) + 2 == D {
            return self.pause();
        }
        self.pass_by(None)
    }

    // Takes the silent tick from which on the burst can have no more live bytes.
    #[inline(always)]
    fn pause(&mut self) -> BoxStep<CheckNote>
        requires room { ticks_cut self.old.cut ≤ MAX_TICKS }
        ensures cut { self.new.cut ≡ self.old.cut }
        ensures note { IsNoPass result.note }
        ensures step { (last : ℕ) (setup : Setup) (line : List Tick) (cut : Cut)
            → IsSilence cut → is_open self.old.phase ≡ true → self.old.until + 2 ≡ D
            → CheckerIsBetween R.LineRules M.Mac self.old last setup line Silent cut
            → CheckerHasTaken R.LineRules M.Mac self.new last setup line Silent result }
        ensures direction { checker_direction self.new ≡ checker_direction self.old }
    {
        match self.head() {
            Head::Short => self.drop_headless(),
            Head::Bad | Head::Good => self.pass_by(None),
        }
    }

    // Takes a byte that isn't live.
    #[inline(always)]
    pub(super) fn hear_extra<S: SlotDisk>(
        &mut self,
        byte: u8,
        journal: &mut Journal,
        disk: &mut S,
    ) -> Result<BoxStep<CheckNote>, JournalFault>
        requires room { ticks_cut self.old.cut ≤ MAX_TICKS }
        requires fits { Fits journal.old (S.told disk.old) }
        ensures cut { OnOk result (self.new.cut ≡ self.old.cut) }
        ensures step { IfOk result (λ step. (setup : Setup) (line : List Tick) (t : Tick)
            → CheckerIsBetween R.LineRules M.Mac self.old (journal_floor journal.old) setup line t
            (Extra byte)
            → CheckerHasTaken R.LineRules M.Mac self.new (journal_floor journal.new) setup line t step) }
        ensures err_passes { OnErr result ((number : ℕ)
            × HasFailed journal.old journal.new (S.told disk.old) (S.told disk.new) number
            × ((setup : Setup) (line : List Tick) (t : Tick)
            → CheckerIsBetween R.LineRules M.Mac self.old (journal_floor journal.old) setup line t
            (Extra byte)
            → PassesWith (profile_of R.LineRules M.Mac B LIMIT setup) R.rules setup.floor line t
            number)) }
        ensures journal { CheckerKeepsJournal S.SlotDisk journal.old journal.new disk.old disk.new result }
        ensures direction { checker_direction self.new ≡ checker_direction self.old }
    {
        if !self.phase.is_open() {
            return Ok(self.pass_by(None));
        }
        if usize::from(self.until) + PAUSE >= D {
            return Ok(self.refuse(RefusedWhy::Trailer));
        }
        self.arriving.take(byte);
        if self.until > 1 {
            return Ok(self.pass_by(None));
        }
        self.decide(journal, disk)
    }
}
