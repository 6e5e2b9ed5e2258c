//! The receiver: its parts, and its calls for a tick and for a run of ticks.
use crate::arriving::Arriving;
use crate::phase::Phase;
use frame_ending::{BoxStep, BurstCut, Cut, RunBytes};
use line_rules::{Head, LineRules, Outlet};
use link_box::CheckNote;
use link_format::{Dir, Mac};
use sequence_journal::{Journal, JournalFault, LIMIT};
use yasir_io::SlotDisk;
use yasir_ticks::{DelayRing, MAX_TICKS, Tick};

mod run_steps;
mod single_steps;
mod verdict;

/// How many silent ticks are between a frame and its trailer.
const PAUSE: usize = 3;

/// The receiver, by the rules `R` of a protocol, with words of `B` bytes and tags by `M`. Each live
/// byte of a burst that isn't dropped leaves `D` ticks after it came. So a burst may begin to leave
/// before the verdict on it is known, but its last byte leaves right after the verdict, and can be
/// spoiled if the burst is refused. For this, `D` is one tick more than the pause, the word and the
/// tag together.
///
/// Of a frame it keeps only the bytes that haven't left yet. Each live byte also goes into the text
/// of the tag as it comes, and may wait in the MAC. The bytes of a trailer are kept, and the tag is
/// made only if the burst is a frame with a whole trailer.
#[derive(Drop)]
pub struct Checker<R, M, const B: usize, const D: usize> {
    cut: BurstCut<R>,
    mac: M,
    direction: Dir,
    // a burst that starts before this tick is dropped, as the receiver is busy
    earliest_start: u64,
    phase: Phase,
    // what has come of the trailer of the burst whose verdict is open
    arriving: Arriving<B>,
    // the live ticks that haven't left yet, and in how many steps the last of them leaves
    ring: DelayRing<D>,
    until: u8,
    outlet: Outlet<R>,
}

impl<R: LineRules, M: Mac, const B: usize, const D: usize> Checker<R, M, B, D> {
    ghost use Rattle.std.specs.Prelude.{◌≡◌, ℕ, ◌+◌, ◌-◌, ◌<◌, ◌≤◌, ◌==◌, List, [], ◌∷◌, ◌++◌};
    ghost use Rattle.std.specs.Prelude.{Some, None, OnOk, OnErr, IfOk, true, false};
    ghost use Rattle.yasir_ticks.specs.declared.tick.Tick.{Tick};
    ghost use Rattle.yasir_ticks.specs.declared.tick.Tick.TheVariants.{Silent, Byte};
    ghost use Rattle.frame_ending.specs.declared.cut.Cut.{Cut};
    ghost use Rattle.frame_ending.specs.declared.cut.Cut.TheVariants.{Start, Live, Extra};
    ghost use Rattle.frame_ending.specs.SoFar.{live_bytes_so_far};
    ghost use Rattle.frame_ending.specs.Stands.{CutStandsFor};
    ghost use Rattle.link_format.specs.Profile.{IsWordLen, profile_of};
    ghost use Rattle.link_format.specs.Setup.{Setup, setup_of};
    ghost use Rattle.sequence_journal.specs.declared.numbers.TheConstants.{LIMIT};
    ghost use Rattle.sequence_journal.specs.Commits.{HasFailed};
    ghost use Rattle.sequence_journal.specs.Journal.{journal_link, journal_floor, Fits};
    ghost use Rattle.link_format.specs.Tag.{direction_number};
    ghost use Rattle.link_box.specs.Links.{link_by};
    ghost use Rattle.check_receiver.specs.Checkings.{PassesWith, CheckerKeepsJournal};
    ghost use Rattle.check_receiver.specs.Stands.{CheckerStandsFor, CheckerHasTaken, checker_ticks};
    ghost use Rattle.line_rules.specs.Rules.{head_of};
    ghost use Rattle.frame_ending.specs.LiveBytes.{live_bytes};
    ghost use Rattle.line_rules.specs.declared.head.Head.TheVariants.{Bad};
    ghost use Rattle.check_receiver.specs.Turning.{Turned};
    ghost use Rattle.std.specs.Prelude.{length, map, take, drop, slice_index_or};
    ghost use Rattle.yasir_ticks.specs.DelayRing.{ring_ticks};
    ghost use Rattle.line_rules.specs.Outlet.{OutletStandsForTicks};
    ghost use Rattle.link_box.specs.Turns.{HasTurned};
    ghost use Rattle.check_receiver.specs.Phases.{passes_in};
    ghost use Rattle.yasir_ticks.specs.Ticks.{silent};
    ghost use Rattle.line_rules.specs.declared.head.Head.TheVariants.{Good};
    ghost use Rattle.frame_ending.specs.Answered.{answered};
    ghost use Rattle.check_receiver.specs.Stands.{CheckerStandsAt, checker_direction};
    ghost use Rattle.check_receiver.specs.Runs.{CheckerHasTakenRun};

    /// Makes a receiver that has taken no tick, for a key of any length and a direction. A word
    /// must have at least two bytes, so that each header is judged before its first byte leaves.
    pub fn new(key: &[u8], dir: Dir) -> Checker<R, M, B, D>
        /// A word has from 1 to 4 bytes.
        requires word { IsWordLen B }
        /// A word has at least two bytes.
        requires wide { 2 ≤ B }
        /// The delay is four ticks more than word and tag have bytes.
        requires delay { D ≡ 4 + B + M.TAG }
        /// It has taken 0 ticks.
        ensures taken { checker_ticks result ≡ 0 }
        /// It has the direction that is named.
        ensures direction { checker_direction result ≡ direction_number dir }
        /// It begins with this key and direction, at whatever floor its journal has.
        ensures stands { (floor : ℕ) → CheckerStandsAt R.LineRules M.Mac result floor
            (setup_of key.now dir floor) [] }
    {
        Checker {
            cut: BurstCut::new(),
            mac: M::with_key(key),
            direction: dir,
            earliest_start: 0,
            phase: Phase::Idle,
            arriving: Arriving::none(),
            ring: DelayRing::new(),
            until: 0,
            outlet: Outlet::new(),
        }
    }

    /// Takes the next tick of the link. Returns the tick that the device is sent at the same place,
    /// and the note that falls into this step, if there is one. The journal must be that of the
    /// steps before and serve the receiver's own link, and the disk must be the journal's. Fewer
    /// than `MAX_TICKS` ticks may have been taken before.
    ///
    /// It fails if the number of a frame that passes isn't committed. Then no step may follow.
    #[inline(always)]
    pub fn step<S: SlotDisk>(
        &mut self,
        t: Tick,
        journal: &mut Journal,
        disk: &mut S,
    ) -> Result<BoxStep<CheckNote>, JournalFault>
        /// Fewer than 2^62 ticks were taken before.
        requires room { checker_ticks self.old < MAX_TICKS }
        /// The journal serves the receiver's own link.
        requires of_link { journal_link journal.old
            ≡ link_by R.LineRules M.Mac B (checker_direction self.old) }
        /// The disk is as the journal knows it.
        requires fits { Fits journal.old (S.told disk.old) }

        /// A step that succeeds counts its tick.
        ensures taken { OnOk result (checker_ticks self.new ≡ checker_ticks self.old + 1) }
        /// What is returned is the tick that the definition's line goes on with, and the note that
        /// falls into this step, if one does; the journal's floor is the last number that passed.
        ensures step { IfOk result (λ step. (setup : Setup) (line : List Tick)
            → CheckerStandsFor R.LineRules M.Mac self.old journal.old setup line
            → CheckerHasTaken R.LineRules M.Mac self.new (journal_floor journal.new) setup line t step) }

        /// It fails only in a step in which a burst passes by the definitions, and its number isn't
        /// committed.
        ensures err_passes { OnErr result ((number : ℕ)
            × HasFailed journal.old journal.new (S.told disk.old) (S.told disk.new) number
            × ((setup : Setup) (line : List Tick)
            → CheckerStandsFor R.LineRules M.Mac self.old journal.old setup line
            → PassesWith (profile_of R.LineRules M.Mac B LIMIT setup) R.rules setup.floor line t
            number)) }
        /// A number is committed exactly with a note that a frame passed. A fault comes only if the
        /// disk's count rose. If the journal was crash-safe, it still is, and a crash at any moment
        /// of the step leaves no floor below the one before.
        ensures journal { CheckerKeepsJournal S.SlotDisk journal.old journal.new disk.old disk.new result }
        /// The direction stays.
        ensures direction { checker_direction self.new ≡ checker_direction self.old }
    {
        let cut = self.cut.step(t);
        self.until = self.until.saturating_sub(1);
        match cut {
            Cut::Start(byte) => Ok(self.begin(byte)),
            Cut::Live(byte) => Ok(self.go_on(byte)),
            Cut::Extra(byte) => self.hear_extra(byte, journal, disk),
            Cut::Pause(_) | Cut::Closed | Cut::Quiet => Ok(self.wait()),
        }
    }

    /// Takes these bytes, one in each tick, as long as no note falls into their steps and the ticks
    /// that leave are alike, all bytes or all silence. Returns how many it has taken. Puts into
    /// `sent` the bytes that leave, one for each byte taken, or nothing if silence leaves. If it
    /// returns 0, the caller must go on with `step`.
    #[inline(always)]
    pub fn pass_bytes(&mut self, bytes: &[u8], sent: &mut RunBytes) -> usize
        /// The receiver has then taken at most 2^62 ticks.
        requires { checker_ticks self.old + length bytes.now ≤ MAX_TICKS }
        /// No more bytes are taken than there are.
        ensures within { result ≤ length bytes.now }
        /// The ticks that are taken are counted.
        ensures taken { checker_ticks self.new ≡ checker_ticks self.old + result }
        /// What leaves is what the definition's line goes on with, no note falls into these ticks,
        /// and no number is used.
        ensures run { (last : ℕ) (setup : Setup) (line : List Tick)
            → CheckerStandsAt R.LineRules M.Mac self.old last setup line
            → CheckerHasTakenRun R.LineRules M.Mac self.new last setup line
            (map Byte (take result bytes.now)) (answered result sent.new.items) }
        /// The direction stays.
        ensures direction { checker_direction self.new ≡ checker_direction self.old }
    {
        sent.clear();
        match self.phase {
            Phase::Idle => self.start_some(bytes, sent),
            Phase::Open => {
                if self.cut.live_over() {
                    return self.hear_trailer(bytes, sent);
                }
                self.follow(bytes, sent)
            }
            Phase::Leaving { .. } => self.pass_over(bytes, sent),
        }
    }

    /// Takes up to `ticks` silent ticks, as long as no note falls into their steps and the ticks
    /// that leave are alike, all bytes or all silence. Returns how many it has taken. Puts into
    /// `sent` the bytes that leave, one for each tick taken, or nothing if silence leaves. If it
    /// returns 0, the caller must go on with `step`.
    #[inline(always)]
    pub fn pass_silence(&mut self, ticks: u32, sent: &mut RunBytes) -> u32
        /// The receiver has then taken at most 2^62 ticks.
        requires { checker_ticks self.old + ticks ≤ MAX_TICKS }
        /// At most `ticks` ticks are taken.
        ensures within { result ≤ ticks }
        /// The ticks that are taken are counted.
        ensures taken { checker_ticks self.new ≡ checker_ticks self.old + result }
        /// What leaves is what the definition's line goes on with, no note falls into these ticks,
        /// and no number is used.
        ensures run { (last : ℕ) (setup : Setup) (line : List Tick)
            → CheckerStandsAt R.LineRules M.Mac self.old last setup line
            → CheckerHasTakenRun R.LineRules M.Mac self.new last setup line
            (silent result) (answered result sent.new.items) }
        /// The direction stays.
        ensures direction { checker_direction self.new ≡ checker_direction self.old }
    {
        sent.clear();
        match self.phase {
            Phase::Idle => {
                self.cut.wait_some(ticks);
                ticks
            }
            Phase::Open => self.pause_some(ticks, sent),
            Phase::Leaving { .. } => self.rest_some(ticks, sent),
        }
    }

    // Whether the running burst, or else the last one, has a whole and good header.
    #[inline]
    fn has_good_head(&self) -> bool
        ensures { result ≡ true → (line : List Tick) → CutStandsFor R.LineRules self.now.cut line
            → head_of R.rules (live_bytes_so_far R.rules line) ≡ Good }
    {
        match self.head() {
            Head::Good => true,
            Head::Short | Head::Bad => false,
        }
    }

    // Puts the tick `t` into the ring, and returns the tick that leaves in this step. The receiver
    // is idle when all of a burst has left.
    #[inline(always)]
    fn turn(&mut self, t: Tick) -> Tick
        ensures { Turned R.LineRules self.old self.new t result }
    {
        let left = self.let_out(t);
        self.phase = self.phase.settled(self.until, self.outlet.owes());
        left
    }

    // Puts the tick `t` into the ring, and returns what leaves, which goes through the outlet.
    #[inline(always)]
    fn let_out(&mut self, t: Tick) -> Tick
        ensures others { self.new
            ≡ record self.old { ring = self.new.ring; outlet = self.new.outlet } }
        ensures ring { ring_ticks self.new.ring ≡ drop 1 (ring_ticks self.old.ring) ++ t ∷ [] }
        ensures out { (x : List ℕ) → OutletStandsForTicks R.LineRules self.old.outlet x
            → HasTurned R.LineRules self.old.outlet self.new.outlet (self.old.until == 0)
            (passes_in self.old.phase) x result
            (slice_index_or (ring_ticks self.old.ring) 0 Silent) }
    {
        let passed = self.phase.passes();
        match self.ring.turn(t) {
            Tick::Byte(byte) => Tick::Byte(self.outlet.emit(byte, self.until == 0, passed)),
            Tick::Silent => match self.outlet.fill() {
                Some(byte) => Tick::Byte(byte),
                None => Tick::Silent,
            },
        }
    }

    // Makes a step in which no live byte enters the ring, with this note.
    #[inline(always)]
    fn pass_by(&mut self, note: Option<CheckNote>) -> BoxStep<CheckNote>
        ensures turned { Turned R.LineRules self.old self.new Silent result.tick }
        ensures note { result.note ≡ note }
    {
        BoxStep {
            tick: self.turn(Tick::Silent),
            note,
        }
    }

    // Returns what is known of the header of the running burst, or else of the last one.
    #[inline]
    fn head(&self) -> Head
        ensures { (line : List Tick) → CutStandsFor R.LineRules self.now.cut line
            → result ≡ head_of R.rules (live_bytes_so_far R.rules line) }
    {
        self.cut.rules().head()
    }

    /// Returns the live bytes of the running burst of the link, or else of the last one.
    #[inline]
    pub fn live_bytes(&self) -> &R
        ensures { (last : ℕ) (setup : Setup) (link : List Tick)
            → CheckerStandsAt R.LineRules M.Mac self.now last setup link
            → R.stands result.now (live_bytes_so_far R.rules link) }
    {
        self.cut.rules()
    }
}
