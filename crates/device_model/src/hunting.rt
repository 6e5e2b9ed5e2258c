//! A device that hunts for frames among all bytes, and ignores silence.
ghost use Rattle.std.specs.Prelude.{◌≡◌, ℕ, ◌<◌, ◌≤◌, length, slice_index};

use crate::device::{Device, Met};
use crate::hunted::Hunted;
use arrayvec::ArrayVec;
use memchr::memchr;
use yasir_ticks::Tick;

// How many bytes mark that a header begins.
const MARK_LEN: u8 = 2;

// What one step takes of some bytes.
#[derive(Clone, Copy)]
struct Part {
    taken: usize,
    // whether a frame is read with the last of them
    reads: bool,
}

/// A device that hunts for frames by the rules `R`: it ignores silence, looks for the two bytes
/// with which a header begins, and drops a bad header whole. If a good header begins, it takes as
/// many bytes as that says, and reads them if they are a frame.
#[derive(Drop)]
pub struct HuntingDevice<R> {
    pub(crate) ticks: u64,
    // the bytes of which nothing is decided yet, and the tick of the first of them; or else those
    // of the frame that was read last, which are lent until the next byte
    bytes: ArrayVec<u8, 292>,
    start: u64,
    lends: bool,
    // how many bytes are lacking of a header that has begun, or of the frame after it; otherwise 0
    lacking: u16,
    // what the rules have taken: the header, when it is whole, and what follows only when all of it
    // is there
    rules: R,
}

// Returns how many of these bytes come before the first one that is `byte`.
#[inline]
fn bytes_before(byte: u8, bytes: &[u8]) -> usize
    ensures within { result ≤ length bytes.now }
    ensures other { (k : ℕ) → k < result → slice_index bytes.now k ≡ byte → ⊥ }
    ensures first { result < length bytes.now → slice_index bytes.now result ≡ byte }
{
    if !bytes.is_empty() && bytes[0] == byte {
        return 0;
    }
    match memchr(byte, bytes) {
        Some(at) => at,
        None => bytes.len(),
    }
}

impl<R: Hunted> HuntingDevice<R> {
    ghost use Rattle.std.specs.Prelude.{◌+◌, ◌-◌, false, List, [], ◌∷◌, ◌++◌, take};
    ghost use Rattle.line_rules.specs.Rules.{lacking_of};
    ghost use Rattle.device_model.specs.Frames.{frames_lent};
    ghost use Rattle.device_model.specs.Hunt.{Timed, header_hunted};
    ghost use Rattle.device_model.specs.HuntingDevice.{HeardBy, HuntTakesRun, frames_told};
    ghost use Rattle.device_model.specs.HuntingDevice.{HuntHasRoom, LetsGo, GoesBehind};

    // Returns how many bytes a header has after the two that mark it.
    #[inline]
    fn behind_mark() -> u16
        ensures { result ≡ R.HEADER_LEN - 2 }
    {
        u16::from(R::HEADER_LEN.saturating_sub(MARK_LEN))
    }

    // Holds these bytes as well; there is room for as many as a frame has.
    #[inline]
    fn keep(&mut self, bytes: &[u8])
        ensures ticks { self.new.ticks ≡ self.old.ticks }
        ensures start { self.new.start ≡ self.old.start }
        ensures lends { self.new.lends ≡ self.old.lends }
        ensures lacking { self.new.lacking ≡ self.old.lacking }
        ensures rules { self.new.rules ≡ self.old.rules }
        ensures bytes { length self.old.bytes.items + length bytes.now ≤ 292
            → self.new.bytes.items ≡ self.old.bytes.items ++ bytes.now }
    {
        let _ = self.bytes.try_extend_from_slice(bytes);
    }

    // Lets go of all bytes: it holds none any more, and lends none.
    #[inline]
    pub(crate) fn lose(&mut self)
        ensures ticks { self.new.ticks ≡ self.old.ticks }
        ensures start { self.new.start ≡ self.old.start }
        ensures rules { self.new.rules ≡ self.old.rules }
        ensures bytes { self.new.bytes.items ≡ [] }
        ensures lends { self.new.lends ≡ false }
        ensures lacking { self.new.lacking ≡ 0 }
    {
        self.bytes.clear();
        self.lends = false;
        self.lacking = 0;
    }

    // Lends a frame no longer, if it lends one.
    #[inline]
    fn let_go(&mut self)
        requires { self.old.lacking ≡ 0 }
        ensures ticks { self.new.ticks ≡ self.old.ticks }
        ensures hears { (x : List Timed) → HeardBy R.LineRules R.FIRST R.SECOND self.old x
            → HeardBy R.LineRules R.FIRST R.SECOND self.new x }
        ensures lends { self.new.lends ≡ false }
        ensures lacking { self.new.lacking ≡ 0 }
    {
        if self.lends {
            self.lose();
        }
    }

    // Takes what follows the header by the rules, when all that was lacking is there. Returns
    // whether the bytes are a frame. If so, they are lent, and otherwise they are dropped.
    #[inline]
    fn end(&mut self) -> bool
        ensures ticks { self.new.ticks ≡ self.old.ticks }
        ensures goes { self.old.lacking ≡ 0 → R.rules.header_len ≤ length self.old.bytes.items
            → R.stands self.old.rules (header_hunted R.rules self.old.bytes.items)
            → HuntHasRoom R.rules self.old.bytes.items
            → LetsGo R.rules self.old.start self.old.bytes.items self.new result }
    {
        let header = usize::from(R::HEADER_LEN).min(self.bytes.len());
        self.rules.take_some(&self.bytes.as_slice()[header..]);
        if !self.rules.good() {
            self.lose();
            return false;
        }
        self.lends = true;
        true
    }

    // Takes a whole header by the rules, which say how many bytes follow. Returns whether none
    // follows and the header is a frame by itself.
    #[inline]
    fn meet_header(&mut self) -> bool
        ensures ticks { self.new.ticks ≡ self.old.ticks }
        ensures behind { HuntHasRoom R.rules self.old.bytes.items
            → 0 < lacking_of R.rules self.old.bytes.items
            → GoesBehind R.LineRules self.old self.new result }
        ensures goes { HuntHasRoom R.rules self.old.bytes.items
            → length self.old.bytes.items ≡ R.rules.header_len
            → lacking_of R.rules self.old.bytes.items ≡ 0
            → LetsGo R.rules self.old.start self.old.bytes.items self.new result }
    {
        self.rules.restart();
        self.rules.take_some(self.bytes.as_slice());
        self.lacking = self.rules.lacking();
        if self.lacking == 0 {
            return self.end();
        }
        false
    }

    // Takes the first of these bytes when a header has begun: as many as are lacking of it, or of
    // the frame after it.
    #[inline]
    fn go_on(&mut self, following: &[u8]) -> Part
        requires { 0 < self.old.lacking }
        ensures some { 0 < length following.now → 0 < result.taken }
        ensures within { result.taken ≤ length following.now }
        ensures takes { (at : ℕ) → HuntTakesRun R.LineRules R.FIRST R.SECOND self.old self.new at
            (take result.taken following.now)
            (frames_told result.reads self.new.start self.new.bytes.items) }
    {
        let taken = following.len().min(usize::from(self.lacking));
        self.keep(&following[..taken]);
        self.lacking -= taken as u16;
        if self.lacking > 0 {
            return Part {
                taken,
                reads: false,
            };
        }
        if self.bytes.len() == usize::from(R::HEADER_LEN) {
            let reads = self.meet_header();
            return Part { taken, reads };
        }
        let reads = self.end();
        Part { taken, reads }
    }

    // Begins a header with the first two of these bytes, and goes on with the others.
    #[inline]
    fn begin_header(&mut self, at: u64, following: &[u8]) -> Part
        requires none { self.old.bytes.items ≡ [] }
        requires lends { self.old.lends ≡ false }
        requires two { 2 ≤ length following.now }
        requires first { slice_index following.now 0 ≡ R.FIRST }
        requires second { slice_index following.now 1 ≡ R.SECOND }
        ensures some { 0 < result.taken }
        ensures within { result.taken ≤ length following.now }
        ensures takes { HuntTakesRun R.LineRules R.FIRST R.SECOND self.old self.new at
            (take result.taken following.now)
            (frames_told result.reads self.new.start self.new.bytes.items) }
    {
        let mark = usize::from(MARK_LEN);
        self.start = at;
        self.keep(&following[..mark]);
        self.lacking = Self::behind_mark();
        let part = self.go_on(&following[mark..]);
        Part {
            taken: mark + part.taken,
            reads: part.reads,
        }
    }

    // Takes a byte that may be the first one of a header, and drops what is held before it.
    #[inline]
    fn begin(&mut self, at: u64, byte: u8)
        requires lends { self.old.lends ≡ false }
        requires lacking { self.old.lacking ≡ 0 }
        requires other { length self.old.bytes.items ≡ 1 → byte ≡ R.SECOND → ⊥ }
        ensures { HuntTakesRun R.LineRules R.FIRST R.SECOND self.old self.new at (byte ∷ []) [] }
    {
        self.lose();
        if byte == R::FIRST {
            self.start = at;
            self.keep(&[byte]);
        }
    }

    // Takes a byte when no header has begun yet.
    #[inline]
    fn look(&mut self, at: u64, byte: u8)
        requires lends { self.old.lends ≡ false }
        requires lacking { self.old.lacking ≡ 0 }
        ensures { HuntTakesRun R.LineRules R.FIRST R.SECOND self.old self.new at (byte ∷ []) [] }
    {
        if self.bytes.len() == 1 && byte == R::SECOND {
            self.keep(&[byte]);
            self.lacking = Self::behind_mark();
        } else {
            self.begin(at, byte);
        }
    }

    // Takes the first of these bytes when no header has begun yet: those before the first one that
    // can begin a header, or those that a header that begins takes, or a single byte.
    #[inline]
    fn seek(&mut self, at: u64, following: &[u8]) -> Part
        requires some { 0 < length following.now }
        requires lends { self.old.lends ≡ false }
        requires lacking { self.old.lacking ≡ 0 }
        ensures some { 0 < result.taken }
        ensures within { result.taken ≤ length following.now }
        ensures takes { HuntTakesRun R.LineRules R.FIRST R.SECOND self.old self.new at
            (take result.taken following.now)
            (frames_told result.reads self.new.start self.new.bytes.items) }
    {
        if self.bytes.is_empty() {
            let passed = bytes_before(R::FIRST, following);
            if passed > 0 {
                return Part {
                    taken: passed,
                    reads: false,
                };
            }
            if following.len() > 1 && following[1] == R::SECOND {
                return self.begin_header(at, following);
            }
        }
        self.look(at, following[0]);
        Part {
            taken: 1,
            reads: false,
        }
    }

    // Takes the first of these bytes, as many as one step takes.
    #[inline]
    fn hear_part(&mut self, at: u64, following: &[u8]) -> Part
        requires { 0 < length following.now }
        ensures some { 0 < result.taken }
        ensures within { result.taken ≤ length following.now }
        ensures takes { HuntTakesRun R.LineRules R.FIRST R.SECOND self.old self.new at
            (take result.taken following.now)
            (frames_told result.reads self.new.start self.new.bytes.items) }
    {
        if self.lacking > 0 {
            return self.go_on(following);
        }
        self.let_go();
        self.seek(at, following)
    }

    // Takes the next byte of the line. Returns the tick of the first byte of the frame that is read
    // with it, if one is.
    #[inline]
    pub(crate) fn hear_byte(&mut self, at: u64, byte: u8) -> Option<u64>
        ensures { HuntTakesRun R.LineRules R.FIRST R.SECOND self.old self.new at (byte ∷ [])
            (frames_lent result self.new.bytes.items) }
    {
        let part = self.hear_part(at, &[byte]);
        if part.reads {
            return Some(self.start);
        }
        None
    }
}

impl<R: Hunted> Device for HuntingDevice<R> {
    ghost use Rattle.device_model.specs.Hunt.{hunt_line};
    ghost use Rattle.device_model.specs.HuntingDevice.{HuntStandsFor, frame_kept};

    ghost reads = { hunt_line R.FIRST R.SECOND R.rules };

    ghost stands = { HuntStandsFor R.LineRules R.FIRST R.SECOND };

    ghost taken = { λ d. d.ticks };

    ghost lent = { frame_kept };

    fn fresh() -> Self {
        HuntingDevice {
            ticks: 0,
            bytes: ArrayVec::new(),
            start: 0,
            lends: false,
            lacking: 0,
            rules: R::fresh(),
        }
    }

    #[inline]
    fn frame_bytes(&self) -> &[u8] {
        self.bytes.as_slice()
    }

    #[inline]
    fn step(&mut self, t: Tick) -> Option<u64> {
        let at = self.ticks;
        self.ticks += 1;
        match t {
            Tick::Byte(byte) => self.hear_byte(at, byte),
            Tick::Silent => None,
        }
    }

    #[inline]
    fn hear(&mut self, bytes: &[u8]) -> Met {
        let from = self.ticks;
        let mut taken = 0;
        while taken < bytes.len() {
            let part = self.hear_part(from + taken as u64, &bytes[taken..]);
            taken += part.taken;
            if part.reads {
                self.ticks = from + taken as u64;
                return Met {
                    taken,
                    start: Some(self.start),
                };
            }
        }
        self.ticks = from + bytes.len() as u64;
        Met {
            taken: bytes.len(),
            start: None,
        }
    }

    // Takes silent ticks, and ignores them, however many they are.
    #[inline]
    fn wait(&mut self, ticks: usize) -> Met {
        self.ticks += ticks as u64;
        Met {
            taken: ticks,
            start: None,
        }
    }
}
