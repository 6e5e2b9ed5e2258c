//! The transmitter: its step for a tick, and its calls for runs of ticks.
ghost use Rattle.std.specs.Prelude.{◌≡◌, length};

use crate::silence::wait_open;
use crate::{SealNote, UnsealedWhy};
use frame_ending::{BoxStep, BurstCut, Cut, RunBytes};
use line_rules::LineRules;
use link_format::{Dir, Mac, Trailer};
use sequence_journal::{Journal, JournalFault, LIMIT};
use yasir_io::SlotDisk;
use yasir_ticks::{LineBytes, MAX_TICKS, T3_5_TICKS, Tick};

/// The transmitter, by the rules `R` of a protocol, with words of `B` bytes and tags by `M`. It
/// forwards the live bytes of each burst that isn't early, each in its own tick. After a burst that
/// it seals, it sends a trailer: the low bytes of the number, and the tag.
///
/// It keeps no frame: each live byte goes into the text of the tag as it comes, and is held nowhere
/// but in the MAC.
#[derive(Drop)]
pub struct Sealer<R, M, const B: usize> {
    cut: BurstCut<R>,
    mac: M,
    direction: Dir,
    // a burst that starts before this tick is early
    earliest_start: u64,
    trailer: Trailer<B>,
}

// Replaces what is in `sent` by these bytes, and returns how many they are.
#[inline]
fn put(sent: &mut RunBytes, bytes: &LineBytes) -> usize
    ensures items { sent.new.items ≡ bytes.now.items }
    ensures count { result ≡ length bytes.now.items }
{
    sent.clear();
    let _ = sent.try_extend_from_slice(bytes.as_slice());
    sent.len()
}

impl<R: LineRules, M: Mac, const B: usize> Sealer<R, M, B> {
    ghost use Rattle.std.specs.Prelude.{ℕ, ◌+◌, ◌<◌, ◌≤◌, nat_lt, List, [], ◌∷◌, ◌++◌, drop};
    ghost use Rattle.std.specs.Prelude.{Option, map, take};
    ghost use Rattle.std.specs.Prelude.{None, OnOk, OnErr, IfOk, IfNone};
    ghost use Rattle.yasir_ticks.specs.Ticks.{silent};
    ghost use Rattle.yasir_ticks.specs.declared.tick.Tick.{Tick};
    ghost use Rattle.yasir_ticks.specs.declared.tick.Tick.TheVariants.{Silent, Byte};
    ghost use Rattle.frame_ending.specs.declared.cut.Cut.{Cut};
    ghost use Rattle.frame_ending.specs.declared.cut.Cut.TheVariants.{Start, Live, Closed};
    ghost use Rattle.frame_ending.specs.Cuts.{IsPassing};
    ghost use Rattle.frame_ending.specs.SoFar.{start_so_far, live_bytes_so_far};
    ghost use Rattle.frame_ending.specs.Stands.{CutStandsFor};
    ghost use Rattle.frame_ending.specs.Answered.{answered};
    ghost use Rattle.link_format.specs.Profile.{IsWordLen, profile_of};
    ghost use Rattle.link_format.specs.Setup.{Setup, setup_of};
    ghost use Rattle.link_format.specs.Trailers.{bytes_unsent, first_of};
    ghost use Rattle.sequence_journal.specs.declared.numbers.TheConstants.{LIMIT};
    ghost use Rattle.sequence_journal.specs.Journal.{journal_link, journal_floor, Fits};
    ghost use Rattle.link_format.specs.Tag.{direction_number};
    ghost use Rattle.link_box.specs.Links.{link_by};
    ghost use Rattle.link_box.specs.Sealing.Judgement.{sealed_with, unsealed};
    ghost use Rattle.seal_transmitter.specs.Answers.{SealsWith, SealerKeepsJournal};
    ghost use Rattle.seal_transmitter.specs.Stands.{SealerStandsAt, SealerStandsFor, SealerHasTaken, sealer_ticks};
    ghost use Rattle.seal_transmitter.specs.Stands.{sealer_direction};
    ghost use Rattle.seal_transmitter.specs.Runs.{SealerHasTakenRun};
    ghost use Rattle.seal_transmitter.specs.Between.{SealerIsBetween, Judges, judgement_of, noteless};
    ghost use Rattle.seal_transmitter.specs.Between.{IsSealedNote, IsUnsealedNote};

    /// Makes a transmitter that has taken no tick, for a key of any length and a direction.
    pub fn new(key: &[u8], dir: Dir) -> Sealer<R, M, B>
        /// A word has from 1 to 4 bytes.
        requires word { IsWordLen B }
        /// It has taken 0 ticks.
        ensures taken { sealer_ticks result ≡ 0 }
        /// It has the direction that is named.
        ensures direction { sealer_direction result ≡ direction_number dir }
        /// It begins with this key and direction, at whatever floor its journal has.
        ensures stands { (floor : ℕ) → SealerStandsAt R.LineRules M.Mac result floor
            (setup_of key.now dir floor) [] }
    {
        Sealer {
            cut: BurstCut::new(),
            mac: M::with_key(key),
            direction: dir,
            earliest_start: 0,
            trailer: Trailer::none(),
        }
    }

    /// Takes the next tick of the device. Returns the tick of the link at the same place, and the
    /// note that falls into this step, if there is one. The journal must be that of the steps
    /// before and serve the transmitter's own link, and the disk must be the journal's. Fewer than
    /// `MAX_TICKS` ticks may have been taken before.
    ///
    /// It fails if the number of a frame isn't committed. Then the frame isn't sealed, and no step
    /// may follow.
    #[inline(always)]
    pub fn step<D: SlotDisk>(
        &mut self,
        t: Tick,
        journal: &mut Journal,
        disk: &mut D,
    ) -> Result<BoxStep<SealNote>, JournalFault>
        /// Fewer than 2^62 ticks were taken before.
        requires room { sealer_ticks self.old < MAX_TICKS }
        /// The journal serves the transmitter's own link.
        requires of_link { journal_link journal.old
            ≡ link_by R.LineRules M.Mac B (sealer_direction self.old) }
        /// The disk is as the journal knows it.
        requires fits { Fits journal.old (D.told disk.old) }

        /// A step that succeeds counts its tick.
        ensures taken { OnOk result (sealer_ticks self.new ≡ sealer_ticks self.old + 1) }
        /// What is returned is the tick that the definition's link line goes on with, and the note
        /// that falls into this step, if one does; the journal's floor is the last number sealed.
        ensures step { IfOk result (λ step. (setup : Setup) (line : List Tick)
            → SealerStandsFor R.LineRules M.Mac self.old journal.old setup line
            → SealerHasTaken R.LineRules M.Mac self.new (journal_floor journal.new) setup line t step) }

        /// It fails only in a step in which a burst is sealed by the definitions, with the next
        /// number.
        ensures err_seals { OnErr result ((setup : Setup) (line : List Tick)
            → SealerStandsFor R.LineRules M.Mac self.old journal.old setup line
            → SealsWith (profile_of R.LineRules M.Mac B LIMIT setup) R.rules setup.floor line t
            (journal_floor journal.old + 1)) }
        /// A number is committed exactly with a note that a frame is sealed. A fault comes only if
        /// the disk's count rose. If the journal was crash-safe, it still is, and a crash at any
        /// moment of the step leaves no floor below the one before.
        ensures journal { SealerKeepsJournal D.SlotDisk journal.old journal.new disk.old disk.new result }
        /// The direction stays.
        ensures direction { sealer_direction self.new ≡ sealer_direction self.old }
    {
        match self.cut.step(t) {
            Cut::Start(byte) => Ok(self.begin(byte)),
            Cut::Live(byte) => Ok(self.go_on(byte)),
            Cut::Closed => self.close(journal, disk),
            Cut::Extra(_) | Cut::Pause(_) | Cut::Quiet => Ok(self.pass()),
        }
    }

    // Forwards the first of these bytes, if it begins a burst that isn't early. Returns how many
    // bytes it has taken, one or none.
    #[inline]
    fn begin_some(&mut self, bytes: &[u8]) -> usize
        requires { sealer_ticks self.old + length bytes.now ≤ MAX_TICKS }
        ensures within { result ≤ length bytes.now }
        ensures taken { sealer_ticks self.new ≡ sealer_ticks self.old + result }
        ensures run { (last : ℕ) (setup : Setup) (line : List Tick)
            → SealerStandsAt R.LineRules M.Mac self.old last setup line
            → SealerHasTakenRun R.LineRules M.Mac self.new last setup line
            (map Byte (take result bytes.now)) (map Byte (take result bytes.now)) }
        ensures direction { sealer_direction self.new ≡ sealer_direction self.old }
    {
        if self.cut.quiet() < T3_5_TICKS {
            return 0;
        }
        if self.cut.ticks() < self.earliest_start {
            return 0;
        }
        let Some(byte) = bytes.first() else {
            return 0;
        };
        let _ = self.cut.step(Tick::Byte(*byte));
        self.mac.begin();
        self.mac.update(&[R::LABEL, self.direction.number(), *byte]);
        1
    }

    // Forwards these bytes, as long as each is another live byte of a burst that isn't early.
    // Returns how many it has taken.
    #[inline]
    fn go_on_some(&mut self, bytes: &[u8]) -> usize
        requires { sealer_ticks self.old + length bytes.now ≤ MAX_TICKS }
        ensures within { result ≤ length bytes.now }
        ensures taken { sealer_ticks self.new ≡ sealer_ticks self.old + result }
        ensures run { (last : ℕ) (setup : Setup) (line : List Tick)
            → SealerStandsAt R.LineRules M.Mac self.old last setup line
            → SealerHasTakenRun R.LineRules M.Mac self.new last setup line
            (map Byte (take result bytes.now)) (map Byte (take result bytes.now)) }
        ensures direction { sealer_direction self.new ≡ sealer_direction self.old }
    {
        if self.is_early() {
            return 0;
        }
        let count = self.cut.go_on_some(bytes);
        if count == 0 {
            return 0;
        }
        self.mac.update(&bytes[..count]);
        count
    }

    /// Forwards these bytes, one in each tick, as long as each is a live byte of a burst that isn't
    /// early. Returns how many it has taken; the ticks of the link are the same bytes. If it
    /// returns 0, the caller must go on with another call. The ticks taken before and these bytes
    /// may be at most `MAX_TICKS` together.
    #[inline(never)]
    pub fn forward(&mut self, bytes: &[u8]) -> usize
        /// The transmitter has then taken at most 2^62 ticks.
        requires { sealer_ticks self.old + length bytes.now ≤ MAX_TICKS }
        /// No more bytes are taken than there are.
        ensures within { result ≤ length bytes.now }
        /// The ticks that are taken are counted.
        ensures taken { sealer_ticks self.new ≡ sealer_ticks self.old + result }
        /// The link line goes on with these bytes, no note falls into these ticks, and no number is
        /// used.
        ensures run { (last : ℕ) (setup : Setup) (line : List Tick)
            → SealerStandsAt R.LineRules M.Mac self.old last setup line
            → SealerHasTakenRun R.LineRules M.Mac self.new last setup line
            (map Byte (take result bytes.now)) (map Byte (take result bytes.now)) }
        /// The direction stays.
        ensures direction { sealer_direction self.new ≡ sealer_direction self.old }
    {
        let begun = self.begin_some(bytes);
        let more = self.go_on_some(&bytes[begun..]);
        begun + more
    }

    /// Takes these bytes, one in each tick, as long as each is another live byte of an early burst,
    /// if nothing is left of a trailer. Returns how many it has taken; the link is silent
    /// meanwhile. The ticks taken before and these bytes may be at most `MAX_TICKS` together.
    #[inline]
    pub fn hold(&mut self, bytes: &[u8]) -> usize
        /// The transmitter has then taken at most 2^62 ticks.
        requires { sealer_ticks self.old + length bytes.now ≤ MAX_TICKS }
        /// No more bytes are taken than there are.
        ensures within { result ≤ length bytes.now }
        /// The ticks that are taken are counted.
        ensures taken { sealer_ticks self.new ≡ sealer_ticks self.old + result }
        /// The link line goes on with silence, no note falls into these ticks, and no number is
        /// used.
        ensures run { (last : ℕ) (setup : Setup) (line : List Tick)
            → SealerStandsAt R.LineRules M.Mac self.old last setup line
            → SealerHasTakenRun R.LineRules M.Mac self.new last setup line
            (map Byte (take result bytes.now)) (silent result) }
        /// The direction stays.
        ensures direction { sealer_direction self.new ≡ sealer_direction self.old }
    {
        if self.trailer.unsent().len() > 0 {
            return 0;
        }
        if !self.is_early() {
            return 0;
        }
        self.cut.go_on_some(bytes)
    }

    /// Takes these bytes, one in each tick, if they belong to a running burst that can have no more
    /// live bytes, and nothing is left of a trailer. Returns how many it has taken, all or none;
    /// the link is silent meanwhile. The ticks taken before and these bytes may be at most
    /// `MAX_TICKS` together.
    #[inline]
    pub fn pass_over(&mut self, bytes: &[u8]) -> usize
        /// The transmitter has then taken at most 2^62 ticks.
        requires { sealer_ticks self.old + length bytes.now ≤ MAX_TICKS }
        /// No more bytes are taken than there are.
        ensures within { result ≤ length bytes.now }
        /// The ticks that are taken are counted.
        ensures taken { sealer_ticks self.new ≡ sealer_ticks self.old + result }
        /// The link line goes on with silence, no note falls into these ticks, and no number is
        /// used.
        ensures run { (last : ℕ) (setup : Setup) (line : List Tick)
            → SealerStandsAt R.LineRules M.Mac self.old last setup line
            → SealerHasTakenRun R.LineRules M.Mac self.new last setup line
            (map Byte (take result bytes.now)) (silent result) }
        /// The direction stays.
        ensures direction { sealer_direction self.new ≡ sealer_direction self.old }
    {
        if self.trailer.unsent().len() > 0 {
            return 0;
        }
        self.cut.pass_over_some(bytes)
    }

    /// Takes these bytes, one in each tick, as long as each is another live byte of an early burst
    /// and something is left of the trailer. Returns the bytes of the trailer that are sent
    /// meanwhile, one for each byte taken. The ticks taken before and these bytes may be at most
    /// `MAX_TICKS` together.
    #[inline]
    pub fn send_over(&mut self, bytes: &[u8]) -> LineBytes
        /// The transmitter has then taken at most 2^62 ticks.
        requires { sealer_ticks self.old + length bytes.now ≤ MAX_TICKS }
        /// No more bytes are taken than there are.
        ensures within { length result.items ≤ length bytes.now }
        /// A tick is counted for each byte that is returned.
        ensures taken { sealer_ticks self.new ≡ sealer_ticks self.old + length result.items }
        /// The link line goes on with the bytes that are returned, no note falls into these ticks,
        /// and no number is used.
        ensures run { (last : ℕ) (setup : Setup) (line : List Tick)
            → SealerStandsAt R.LineRules M.Mac self.old last setup line
            → SealerHasTakenRun R.LineRules M.Mac self.new last setup line
            (map Byte (take (length result.items) bytes.now)) (map Byte result.items) }
        /// The direction stays.
        ensures direction { sealer_direction self.new ≡ sealer_direction self.old }
    {
        if !self.is_early() {
            return LineBytes::new();
        }
        let most = self.trailer.unsent().len().min(bytes.len());
        let count = self.cut.go_on_some(&bytes[..most]);
        self.trailer.send_some(count)
    }

    /// Takes up to `ticks` silent ticks, as long as none closes a burst, if nothing is left of a
    /// trailer. Returns how many it has taken; the link is silent too. The ticks taken before and
    /// these may be at most `MAX_TICKS` together.
    #[inline]
    pub fn keep_silent(&mut self, ticks: u32) -> u32
        /// The transmitter has then taken at most 2^62 ticks.
        requires { sealer_ticks self.old + ticks ≤ MAX_TICKS }
        /// At most `ticks` ticks are taken.
        ensures within { result ≤ ticks }
        /// The ticks that are taken are counted.
        ensures taken { sealer_ticks self.new ≡ sealer_ticks self.old + result }
        /// The link line goes on with silence, no note falls into these ticks, and no number is
        /// used.
        ensures run { (last : ℕ) (setup : Setup) (line : List Tick)
            → SealerStandsAt R.LineRules M.Mac self.old last setup line
            → SealerHasTakenRun R.LineRules M.Mac self.new last setup line
            (silent result) (silent result) }
        /// The direction stays.
        ensures direction { sealer_direction self.new ≡ sealer_direction self.old }
    {
        if self.trailer.unsent().len() > 0 {
            return 0;
        }
        wait_open(&mut self.cut, ticks)
    }

    /// Takes up to `ticks` silent ticks, as long as none closes a burst and something is left of
    /// the trailer. Returns the bytes of the trailer that are sent meanwhile, one for each tick
    /// taken. The ticks taken before and these may be at most `MAX_TICKS` together.
    #[inline]
    pub fn send_some(&mut self, ticks: u32) -> LineBytes
        /// The transmitter has then taken at most 2^62 ticks.
        requires { sealer_ticks self.old + ticks ≤ MAX_TICKS }
        /// At most `ticks` ticks are taken.
        ensures within { length result.items ≤ ticks }
        /// A tick is counted for each byte that is returned.
        ensures taken { sealer_ticks self.new ≡ sealer_ticks self.old + length result.items }
        /// The link line goes on with the bytes that are returned, no note falls into these ticks,
        /// and no number is used.
        ensures run { (last : ℕ) (setup : Setup) (line : List Tick)
            → SealerStandsAt R.LineRules M.Mac self.old last setup line
            → SealerHasTakenRun R.LineRules M.Mac self.new last setup line
            (silent (length result.items)) (map Byte result.items) }
        /// The direction stays.
        ensures direction { sealer_direction self.new ≡ sealer_direction self.old }
    {
        let most = ticks.min(self.trailer.unsent().len() as u32);
        let count = wait_open(&mut self.cut, most);
        self.trailer.send_some(count as usize)
    }

    // Takes these bytes, as long as they aren't forwarded and the link is silent. Returns how many
    // it has taken.
    #[inline]
    fn hold_some(&mut self, bytes: &[u8]) -> usize
        requires { sealer_ticks self.old + length bytes.now ≤ MAX_TICKS }
        ensures within { result ≤ length bytes.now }
        ensures taken { sealer_ticks self.new ≡ sealer_ticks self.old + result }
        ensures run { (last : ℕ) (setup : Setup) (line : List Tick)
            → SealerStandsAt R.LineRules M.Mac self.old last setup line
            → SealerHasTakenRun R.LineRules M.Mac self.new last setup line
            (map Byte (take result bytes.now)) (silent result) }
        ensures direction { sealer_direction self.new ≡ sealer_direction self.old }
    {
        let held = self.hold(bytes);
        if held > 0 {
            return held;
        }
        self.pass_over(bytes)
    }

    /// Takes these bytes, one in each tick, as long as they aren't forwarded, because they belong
    /// to an early burst or aren't live. Returns how many it has taken. Puts into `sent` the bytes
    /// of a trailer that are sent meanwhile, one for each byte taken, or nothing if the link is
    /// silent. If it returns 0, the caller must go on with another call. The ticks taken before and
    /// these bytes may be at most `MAX_TICKS` together.
    #[inline]
    pub fn pass_bytes(&mut self, bytes: &[u8], sent: &mut RunBytes) -> usize
        /// The transmitter has then taken at most 2^62 ticks.
        requires { sealer_ticks self.old + length bytes.now ≤ MAX_TICKS }
        /// No more bytes are taken than there are.
        ensures within { result ≤ length bytes.now }
        /// The ticks that are taken are counted.
        ensures taken { sealer_ticks self.new ≡ sealer_ticks self.old + result }
        /// What leaves is what the definition's link line goes on with, no note falls into these
        /// ticks, and no number is used.
        ensures run { (last : ℕ) (setup : Setup) (line : List Tick)
            → SealerStandsAt R.LineRules M.Mac self.old last setup line
            → SealerHasTakenRun R.LineRules M.Mac self.new last setup line
            (map Byte (take result bytes.now)) (answered result sent.new.items) }
        /// The direction stays.
        ensures direction { sealer_direction self.new ≡ sealer_direction self.old }
    {
        let held = self.hold_some(bytes);
        if held > 0 {
            sent.clear();
            return held;
        }
        put(sent, &self.send_over(bytes))
    }

    /// Takes up to `ticks` silent ticks, as long as none closes a burst and something is left of
    /// the trailer. Returns how many it has taken, and puts into `sent` the bytes of the trailer
    /// that are sent meanwhile, one for each tick taken. If it returns 0, the caller must go on
    /// with another call. The ticks taken before and these may be at most `MAX_TICKS` together.
    #[inline]
    pub fn pass_silence(&mut self, ticks: u32, sent: &mut RunBytes) -> u32
        /// The transmitter has then taken at most 2^62 ticks.
        requires { sealer_ticks self.old + ticks ≤ MAX_TICKS }
        /// At most `ticks` ticks are taken.
        ensures within { result ≤ ticks }
        /// The ticks that are taken are counted.
        ensures taken { sealer_ticks self.new ≡ sealer_ticks self.old + result }
        /// What leaves is what the definition's link line goes on with, no note falls into these
        /// ticks, and no number is used.
        ensures run { (last : ℕ) (setup : Setup) (line : List Tick)
            → SealerStandsAt R.LineRules M.Mac self.old last setup line
            → SealerHasTakenRun R.LineRules M.Mac self.new last setup line
            (silent result) (answered result sent.new.items) }
        /// The direction stays.
        ensures direction { sealer_direction self.new ≡ sealer_direction self.old }
    {
        if self.trailer.unsent().len() == 0 {
            sent.clear();
            return 0;
        }
        put(sent, &self.send_some(ticks)) as u32
    }

    // Whether the running burst, or else the last one, is early.
    #[inline]
    fn is_early(&self) -> bool
        ensures { (line : List Tick) → CutStandsFor R.LineRules self.now.cut line
            → result ≡ nat_lt (start_so_far line) self.now.earliest_start }
    {
        self.cut.start() < self.earliest_start
    }

    // Sends the next byte of the trailer, or silence if nothing is left of it. The step has no
    // note.
    #[inline]
    fn send(&mut self) -> BoxStep<SealNote>
        ensures rest { self.new ≡ record self.old { trailer = self.new.trailer } }
        ensures unsent { bytes_unsent self.new.trailer ≡ drop 1 (bytes_unsent self.old.trailer) }
        ensures answer { result ≡ noteless (first_of (bytes_unsent self.old.trailer)) }
    {
        BoxStep {
            tick: self.trailer.next_tick(),
            note: None,
        }
    }

    // Takes a tick that isn't forwarded and closes no burst.
    #[inline]
    fn pass(&mut self) -> BoxStep<SealNote>
        ensures cut { self.new.cut ≡ self.old.cut }
        ensures note { result.note ≡ None }
        ensures step { (last : ℕ) (setup : Setup) (line : List Tick) (t : Tick) (cut : Cut)
            → IsPassing cut
            → SealerIsBetween R.LineRules M.Mac self.old last setup line t cut
            → SealerHasTaken R.LineRules M.Mac self.new last setup line t result }
        ensures direction { sealer_direction self.new ≡ sealer_direction self.old }
    {
        self.send()
    }

    // Takes the first byte of a burst.
    #[inline]
    fn begin(&mut self, byte: u8) -> BoxStep<SealNote>
        ensures cut { self.new.cut ≡ self.old.cut }
        ensures note { result.note ≡ None }
        ensures step { (last : ℕ) (setup : Setup) (line : List Tick) (t : Tick)
            → SealerIsBetween R.LineRules M.Mac self.old last setup line t (Start byte)
            → SealerHasTaken R.LineRules M.Mac self.new last setup line t result }
        ensures direction { sealer_direction self.new ≡ sealer_direction self.old }
    {
        if self.is_early() {
            return self.send();
        }
        self.mac.begin();
        self.mac.update(&[R::LABEL, self.direction.number(), byte]);
        BoxStep {
            tick: Tick::Byte(byte),
            note: None,
        }
    }

    // Takes another live byte of a burst.
    #[inline]
    fn go_on(&mut self, byte: u8) -> BoxStep<SealNote>
        ensures cut { self.new.cut ≡ self.old.cut }
        ensures note { result.note ≡ None }
        ensures step { (last : ℕ) (setup : Setup) (line : List Tick) (t : Tick)
            → SealerIsBetween R.LineRules M.Mac self.old last setup line t (Live byte)
            → SealerHasTaken R.LineRules M.Mac self.new last setup line t result }
        ensures direction { sealer_direction self.new ≡ sealer_direction self.old }
    {
        if self.is_early() {
            return self.send();
        }
        self.mac.update(&[byte]);
        BoxStep {
            tick: Tick::Byte(byte),
            note: None,
        }
    }

    // Returns why the burst that is now closed isn't sealed, or `None` if it must be sealed.
    fn unsealed_why(&self, journal: &Journal) -> Option<UnsealedWhy>
        ensures within { IfNone result (journal_floor journal.now < LIMIT) }
        ensures judged { (setup : Setup) (line : List Tick)
            → CutStandsFor R.LineRules self.now.cut line
            → Judges R.LineRules M.Mac self.now (journal_floor journal.now) setup line
            (judgement_of result (journal_floor journal.now + 1)) }
    {
        if self.is_early() {
            return Some(UnsealedWhy::Early);
        }
        if self.cut.extra() {
            return Some(UnsealedWhy::Form);
        }
        if !self.cut.rules().good() {
            return Some(UnsealedWhy::Form);
        }
        if journal.floor() == LIMIT {
            return Some(UnsealedWhy::Spent);
        }
        None
    }

    // Judges the burst that this tick closes, and seals it or leaves it.
    fn close<D: SlotDisk>(
        &mut self,
        journal: &mut Journal,
        disk: &mut D,
    ) -> Result<BoxStep<SealNote>, JournalFault>
        requires room { sealer_ticks self.old ≤ MAX_TICKS }
        requires fits { Fits journal.old (D.told disk.old) }

        ensures cut { OnOk result (self.new.cut ≡ self.old.cut) }
        ensures step { IfOk result (λ step. (setup : Setup) (line : List Tick)
            → SealerIsBetween R.LineRules M.Mac self.old (journal_floor journal.old) setup line Silent
            Closed
            → SealerHasTaken R.LineRules M.Mac self.new (journal_floor journal.new) setup line Silent
            step) }
        ensures err_seals { OnErr result ((setup : Setup) (line : List Tick)
            → SealerIsBetween R.LineRules M.Mac self.old (journal_floor journal.old) setup line Silent
            Closed
            → SealsWith (profile_of R.LineRules M.Mac B LIMIT setup) R.rules setup.floor line Silent
            (journal_floor journal.old + 1)) }
        ensures journal { SealerKeepsJournal D.SlotDisk journal.old journal.new disk.old disk.new result }
        ensures direction { sealer_direction self.new ≡ sealer_direction self.old }
    {
        match self.unsealed_why(journal) {
            Some(why) => Ok(self.leave(why)),
            None => {
                let number = journal.floor() + 1;
                let Ok(()) = journal.commit(disk, number) else {
                    return Err(JournalFault);
                };
                Ok(self.seal(number))
            }
        }
    }

    // Leaves the closed burst without a trailer, for this reason.
    fn leave(&mut self, why: UnsealedWhy) -> BoxStep<SealNote>
        ensures cut { self.new.cut ≡ self.old.cut }
        ensures note { IsUnsealedNote why result.note }
        ensures step { (last : ℕ) (setup : Setup) (line : List Tick)
            → SealerIsBetween R.LineRules M.Mac self.old last setup line Silent Closed
            → Judges R.LineRules M.Mac self.old last setup (line ++ Silent ∷ []) (unsealed why)
            → SealerHasTaken R.LineRules M.Mac self.new last setup line Silent result }
        ensures direction { sealer_direction self.new ≡ sealer_direction self.old }
    {
        BoxStep {
            tick: self.trailer.next_tick(),
            note: Some(SealNote::Unsealed {
                start: self.cut.start(),
                why,
            }),
        }
    }

    // Seals the closed burst with this number, which must have been committed.
    fn seal(&mut self, number: u64) -> BoxStep<SealNote>
        requires room { sealer_ticks self.old ≤ MAX_TICKS }
        ensures cut { self.new.cut ≡ self.old.cut }
        ensures note { IsSealedNote number result.note }
        ensures step { (last : ℕ) (setup : Setup) (line : List Tick)
            → SealerIsBetween R.LineRules M.Mac self.old last setup line Silent Closed
            → Judges R.LineRules M.Mac self.old last setup (line ++ Silent ∷ [])
            (sealed_with number)
            → SealerHasTaken R.LineRules M.Mac self.new number setup line Silent result }
        ensures direction { sealer_direction self.new ≡ sealer_direction self.old }
    {
        self.mac.update(&number.to_be_bytes());
        let tag = self.mac.finish();
        self.trailer.load(number, &tag);
        // the tick of this step is the trailer's first one
        self.earliest_start = self.cut.ticks() + (B + M::TAG) as u64 + u64::from(T3_5_TICKS - 1);
        BoxStep {
            tick: self.trailer.next_tick(),
            note: Some(SealNote::Sealed {
                number,
                start: self.cut.start(),
                len: self.cut.rules().len(),
            }),
        }
    }

    /// Returns the live bytes of the running burst, or else of the last one.
    #[inline]
    pub fn live_bytes(&self) -> &R
        ensures { (last : ℕ) (setup : Setup) (line : List Tick)
            → SealerStandsAt R.LineRules M.Mac self.now last setup line
            → R.stands result.now (live_bytes_so_far R.rules line) }
    {
        self.cut.rules()
    }
}
