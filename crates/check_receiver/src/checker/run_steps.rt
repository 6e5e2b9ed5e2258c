//! Runs of ticks that the receiver takes at once, in each of its phases.
use super::{Checker, PAUSE};
use crate::runs::{alike_along, cut_some, lend, lend_along, noteless_front};
use frame_ending::RunBytes;
use line_rules::LineRules;
use link_format::Mac;
use yasir_ticks::{MAX_TICKS, Tick};

// The greatest number of bytes of a fill that leave at once.
const MOST_FILLED: u32 = 64;

impl<R: LineRules, M: Mac, const B: usize, const D: usize> Checker<R, M, B, D> {
    ghost use Rattle.std.specs.Prelude.{◌≡◌, ℕ, ◌+◌, ◌-◌, ◌<◌, ◌≤◌, List, [], ◌∷◌, ◌++◌, length};
    ghost use Rattle.std.specs.Prelude.{true, false};
    ghost use Rattle.check_receiver.specs.Phases.{is_open};
    ghost use Rattle.check_receiver.specs.declared.phase.Phase.TheVariants.{Idle, Open};
    ghost use Rattle.yasir_ticks.specs.declared.tick.Tick.{Tick};
    ghost use Rattle.yasir_ticks.specs.declared.tick.Tick.TheVariants.{Silent, Byte};
    ghost use Rattle.frame_ending.specs.declared.cut.Cut.TheVariants.{Start, Live};
    ghost use Rattle.frame_ending.specs.SoFar.{live_bytes_so_far};
    ghost use Rattle.yasir_ticks.specs.DelayRing.{ring_ticks};
    ghost use Rattle.link_format.specs.Setup.{Setup};
    ghost use Rattle.check_receiver.specs.Stands.{checker_ticks};
    ghost use Rattle.line_rules.specs.Rules.{head_of};
    ghost use Rattle.check_receiver.specs.Runs.{KeepsHeader};
    ghost use Rattle.frame_ending.specs.Cuts.{cut_of};
    ghost use Rattle.line_rules.specs.declared.head.Head.TheVariants.{Bad};
    ghost use Rattle.std.specs.Prelude.{slice_index_or};
    ghost use Rattle.std.specs.Prelude.{map, take};
    ghost use Rattle.yasir_ticks.specs.Ticks.{silent};
    ghost use Rattle.frame_ending.specs.Answered.{answered};
    ghost use Rattle.check_receiver.specs.Stands.{CheckerStandsAt, checker_direction};
    ghost use Rattle.check_receiver.specs.Runs.{CheckerHasTakenRun, BeginsNone};
    ghost use Rattle.line_rules.specs.Outlet.{owed_by};

    // Takes live bytes of the burst whose verdict is open, if its header is a good one.
    #[inline(never)]
    pub(super) fn follow(&mut self, bytes: &[u8], sent: &mut RunBytes) -> usize
        requires room { checker_ticks self.old + length bytes.now ≤ MAX_TICKS }
        requires phase { self.old.phase ≡ Open }
        requires empty { sent.old.items ≡ [] }
        ensures within { result ≤ length bytes.now }
        ensures taken { checker_ticks self.new ≡ checker_ticks self.old + result }
        ensures run { (last : ℕ) (setup : Setup) (line : List Tick)
            → CheckerStandsAt R.LineRules M.Mac self.old last setup line
            → CheckerHasTakenRun R.LineRules M.Mac self.new last setup line
            (map Byte (take result bytes.now)) (answered result sent.new.items) }
        ensures direction { checker_direction self.new ≡ checker_direction self.old }
    {
        if !self.has_good_head() {
            return 0;
        }
        self.follow_on(bytes, sent)
    }

    // Takes live bytes of the burst whose verdict is open. With them, its header must be a good one
    // as soon as it is whole.
    #[inline(always)]
    fn follow_on(&mut self, bytes: &[u8], sent: &mut RunBytes) -> usize
        requires room { checker_ticks self.old + length bytes.now ≤ MAX_TICKS }
        requires empty { sent.old.items ≡ [] }
        ensures within { result ≤ length bytes.now }
        ensures taken { checker_ticks self.new ≡ checker_ticks self.old + result }
        ensures run { (last : ℕ) (setup : Setup) (line : List Tick)
            → CheckerStandsAt R.LineRules M.Mac self.old last setup line
            → self.old.phase ≡ Open
            → KeepsHeader R.rules (live_bytes_so_far R.rules line) bytes.now
            → CheckerHasTakenRun R.LineRules M.Mac self.new last setup line
            (map Byte (take result bytes.now)) (answered result sent.new.items) }
        ensures silent { slice_index_or (ring_ticks self.old.ring) 0 Silent ≡ Silent
            → sent.new.items ≡ [] }
        ensures direction { checker_direction self.new ≡ checker_direction self.old }
    {
        let count = alike_along(&self.ring, bytes);
        let part = &bytes[..count];
        let taken = self.cut.go_on_some(part);
        if taken == 0 {
            return 0;
        }
        let entering = &part[..taken];
        lend_along(&self.ring, bytes, taken, sent);
        self.mac.update(entering);
        self.ring.pass_bytes(entering);
        let whole = D as u8;
        self.until = whole;
        taken
    }

    // Takes bytes of the trailer of the burst whose verdict is open, but not the last one.
    #[inline(never)]
    pub(super) fn hear_trailer(&mut self, bytes: &[u8], sent: &mut RunBytes) -> usize
        requires room { checker_ticks self.old + length bytes.now ≤ MAX_TICKS }
        requires phase { self.old.phase ≡ Open }
        requires empty { sent.old.items ≡ [] }
        ensures within { result ≤ length bytes.now }
        ensures taken { checker_ticks self.new ≡ checker_ticks self.old + result }
        ensures run { (last : ℕ) (setup : Setup) (line : List Tick)
            → CheckerStandsAt R.LineRules M.Mac self.old last setup line
            → CheckerHasTakenRun R.LineRules M.Mac self.new last setup line
            (map Byte (take result bytes.now)) (answered result sent.new.items) }
        ensures direction { checker_direction self.new ≡ checker_direction self.old }
    {
        let until = usize::from(self.until);
        // the next byte is the trailer's last one
        if until < 3 {
            return 0;
        }
        if D < until + PAUSE {
            return 0;
        }
        let most = bytes.len().min(until - 2).min(D);
        let count = self.ring.front_alike(most);
        let part = &bytes[..count];
        let taken = self.cut.pass_over_some(part);
        let heard = &part[..taken];
        lend(&self.ring, taken, sent);
        self.ring.pass_silence(taken);
        self.arriving.take_some(heard);
        self.until -= taken as u8;
        taken
    }

    // Takes silent ticks of the pause after the live bytes of the burst whose verdict is open.
    #[inline(never)]
    pub(super) fn pause_some(&mut self, ticks: u32, sent: &mut RunBytes) -> u32
        requires room { checker_ticks self.old + ticks ≤ MAX_TICKS }
        requires phase { self.old.phase ≡ Open }
        requires empty { sent.old.items ≡ [] }
        ensures within { result ≤ ticks }
        ensures taken { checker_ticks self.new ≡ checker_ticks self.old + result }
        ensures run { (last : ℕ) (setup : Setup) (line : List Tick)
            → CheckerStandsAt R.LineRules M.Mac self.old last setup line
            → CheckerHasTakenRun R.LineRules M.Mac self.new last setup line
            (silent result) (answered result sent.new.items) }
        ensures direction { checker_direction self.new ≡ checker_direction self.old }
    {
        if !self.has_good_head() {
            return 0;
        }
        let until = usize::from(self.until);
        if until + PAUSE <= D {
            return 0;
        }
        let most = (ticks as usize).min(until + PAUSE - D).min(until);
        let count = self.ring.front_alike(most.min(D));
        lend(&self.ring, count, sent);
        self.ring.pass_silence(count);
        self.cut.wait_some(count as u32);
        self.until -= count as u8;
        count as u32
    }

    // Takes bytes that begin no burst while a noted burst is still leaving, but not in the step in
    // which the last of its live ticks leaves.
    #[inline(never)]
    pub(super) fn pass_over(&mut self, bytes: &[u8], sent: &mut RunBytes) -> usize
        requires room { checker_ticks self.old + length bytes.now ≤ MAX_TICKS }
        requires phase { is_open self.old.phase ≡ false }
        requires empty { sent.old.items ≡ [] }
        ensures within { result ≤ length bytes.now }
        ensures taken { checker_ticks self.new ≡ checker_ticks self.old + result }
        ensures run { (last : ℕ) (setup : Setup) (line : List Tick)
            → CheckerStandsAt R.LineRules M.Mac self.old last setup line
            → CheckerHasTakenRun R.LineRules M.Mac self.new last setup line
            (map Byte (take result bytes.now)) (answered result sent.new.items) }
        ensures direction { checker_direction self.new ≡ checker_direction self.old }
    {
        // the last live tick leaves in the next step, or a fill leaves
        if self.until < 2 {
            return 0;
        }
        let most = bytes.len().min(usize::from(self.until) - 1).min(D);
        let count = self.ring.front_alike(most);
        let taken = cut_some(&mut self.cut, &bytes[..count]);
        lend(&self.ring, taken, sent);
        self.ring.pass_silence(taken);
        self.until -= taken as u8;
        taken
    }

    // Takes bytes while the receiver is idle: those of a burst that is noted, or the first ones of
    // a burst that doesn't start too soon, as long as its header isn't whole, or is a good one.
    #[inline(never)]
    pub(super) fn start_some(&mut self, bytes: &[u8], sent: &mut RunBytes) -> usize
        requires room { checker_ticks self.old + length bytes.now ≤ MAX_TICKS }
        requires phase { self.old.phase ≡ Idle }
        requires empty { sent.old.items ≡ [] }
        ensures within { result ≤ length bytes.now }
        ensures taken { checker_ticks self.new ≡ checker_ticks self.old + result }
        ensures run { (last : ℕ) (setup : Setup) (line : List Tick)
            → CheckerStandsAt R.LineRules M.Mac self.old last setup line
            → CheckerHasTakenRun R.LineRules M.Mac self.new last setup line
            (map Byte (take result bytes.now)) (answered result sent.new.items) }
        ensures direction { checker_direction self.new ≡ checker_direction self.old }
    {
        let passed = cut_some(&mut self.cut, bytes);
        if passed > 0 {
            return passed;
        }
        if self.cut.ticks() < self.earliest_start {
            return 0;
        }
        let front = noteless_front::<R>(bytes);
        if front.is_empty() {
            return 0;
        }
        let first = front[0];
        self.start(first);
        1 + self.follow_on(&front[1..], sent)
    }

    // Takes the first byte of a burst that doesn't start too soon. The byte must not be a bad
    // header by itself, and all live ticks must have left.
    #[inline]
    fn start(&mut self, first: u8)
        requires room { checker_ticks self.old < MAX_TICKS }
        ensures taken { checker_ticks self.new ≡ checker_ticks self.old + 1 }
        ensures run { (last : ℕ) (setup : Setup) (line : List Tick)
            → CheckerStandsAt R.LineRules M.Mac self.old last setup line
            → cut_of R.rules line (Byte first) ≡ Start first
            → self.old.until ≡ 0 → self.old.earliest_start ≤ length line
            → (head_of R.rules (first ∷ []) ≡ Bad → ⊥)
            → CheckerHasTakenRun R.LineRules M.Mac self.new last setup line
            (Byte first ∷ []) (Silent ∷ [])
            × (self.new.phase ≡ Open)
            × (slice_index_or (ring_ticks self.new.ring) 0 Silent ≡ Silent)
            × (live_bytes_so_far R.rules (line ++ Byte first ∷ []) ≡ first ∷ []) }
        ensures direction { checker_direction self.new ≡ checker_direction self.old }
    {
        let _ = self.cut.step(Tick::Byte(first));
        let _ = self.begin(first);
    }

    // Takes silent ticks while a noted burst is still leaving, but not in the step in which the
    // last of its live ticks leaves.
    #[inline(never)]
    pub(super) fn rest_some(&mut self, ticks: u32, sent: &mut RunBytes) -> u32
        requires room { checker_ticks self.old + ticks ≤ MAX_TICKS }
        requires phase { is_open self.old.phase ≡ false }
        requires empty { sent.old.items ≡ [] }
        ensures within { result ≤ ticks }
        ensures taken { checker_ticks self.new ≡ checker_ticks self.old + result }
        ensures run { (last : ℕ) (setup : Setup) (line : List Tick)
            → CheckerStandsAt R.LineRules M.Mac self.old last setup line
            → CheckerHasTakenRun R.LineRules M.Mac self.new last setup line
            (silent result) (answered result sent.new.items) }
        ensures direction { checker_direction self.new ≡ checker_direction self.old }
    {
        if self.until == 0 {
            return self.fill_some(ticks, sent);
        }
        // the last live tick leaves in the next step
        if self.until < 2 {
            return 0;
        }
        let still = usize::from(self.until) - 1;
        let most = (ticks as usize).min(still).min(D);
        let count = self.ring.front_alike(most);
        lend(&self.ring, count, sent);
        self.ring.pass_silence(count);
        self.cut.wait_some(count as u32);
        self.until -= count as u8;
        count as u32
    }

    // Takes silent ticks while a fill leaves.
    #[inline(never)]
    fn fill_some(&mut self, ticks: u32, sent: &mut RunBytes) -> u32
        requires room { checker_ticks self.old + ticks ≤ MAX_TICKS }
        requires phase { is_open self.old.phase ≡ false }
        requires until { self.old.until ≡ 0 }
        requires empty { sent.old.items ≡ [] }
        ensures within { result ≤ ticks }
        ensures taken { checker_ticks self.new ≡ checker_ticks self.old + result }
        ensures run { (last : ℕ) (setup : Setup) (line : List Tick)
            → CheckerStandsAt R.LineRules M.Mac self.old last setup line
            → CheckerHasTakenRun R.LineRules M.Mac self.new last setup line
            (silent result) (answered result sent.new.items) }
        ensures direction { checker_direction self.new ≡ checker_direction self.old }
    {
        let most = ticks.min(MOST_FILLED);
        for count in 0..most {
            if !self.outlet.owes() {
                return count;
            }
            let byte = self.fill_one(Tick::Silent);
            let _ = sent.try_push(byte);
        }
        most
    }

    // Takes a tick that begins no burst, and returns the byte of a fill that leaves for it.
    #[inline(always)]
    fn fill_one(&mut self, t: Tick) -> u8
        requires { checker_ticks self.old < MAX_TICKS }
        ensures taken { checker_ticks self.new ≡ checker_ticks self.old + 1 }
        ensures until { self.new.until ≡ self.old.until }
        ensures phase { is_open self.old.phase ≡ false → is_open self.new.phase ≡ false }
        ensures run { (last : ℕ) (setup : Setup) (line : List Tick)
            → CheckerStandsAt R.LineRules M.Mac self.old last setup line
            → is_open self.old.phase ≡ false → self.old.until ≡ 0 → 0 < owed_by self.old.outlet
            → BeginsNone R.rules line t
            → CheckerHasTakenRun R.LineRules M.Mac self.new last setup line (t ∷ []) (Byte result ∷ []) }
        ensures direction { checker_direction self.new ≡ checker_direction self.old }
    {
        let _ = self.cut.step(t);
        match self.turn(Tick::Silent) {
            Tick::Byte(byte) => byte,
            Tick::Silent => 0,
        }
    }
}
