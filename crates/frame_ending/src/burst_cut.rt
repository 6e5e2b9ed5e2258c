//! The machine that cuts a line into bursts, and tells which bytes of a burst are live.
use crate::Cut;
use line_rules::LineRules;
use yasir_ticks::{MAX_TICKS, T1_5_TICKS, T3_5_TICKS, Tick};

/// Cuts a line into bursts, a tick at a time, and tells the live bytes of each burst by the rules
/// `R`: those before the first two silent ticks in a row, as many as there is room for.
///
/// What it tells of a burst is about the running one, or the last one if none runs.
#[derive(Drop)]
pub struct BurstCut<R> {
    taken: u64,
    // silent ticks since the last byte, counted up to `T3_5_TICKS`
    quiet: u8,
    // the tick of the first byte, and the tick of the last live byte
    start: u64,
    last_live: u64,
    // whether there was a byte that isn't live
    extra: bool,
    // whether there were two silent ticks in a row
    paused: bool,
    // the live bytes
    rules: R,
}

impl<R: LineRules> BurstCut<R> {
    ghost use Rattle.std.specs.Prelude.{◌≡◌, ℕ, ◌+◌, ◌<◌, ◌≤◌, false, true, ◌||◌, List, [], ◌∷◌};
    ghost use Rattle.std.specs.Prelude.{◌++◌, length, map, take, replicate};
    ghost use Rattle.yasir_ticks.specs.Ticks.{silent};
    ghost use Rattle.yasir_ticks.specs.declared.tick.Tick.{Tick};
    ghost use Rattle.yasir_ticks.specs.declared.tick.Tick.TheVariants.{Silent, Byte};
    ghost use Rattle.frame_ending.specs.SoFar.{start_so_far, live_bytes_so_far, last_live_so_far};
    ghost use Rattle.frame_ending.specs.SoFar.{has_extra_so_far, is_over_so_far, quiet_so_far};
    ghost use Rattle.frame_ending.specs.declared.cut.Cut.TheVariants.{Live, Quiet, Extra};
    ghost use Rattle.frame_ending.specs.Cuts.{cut_of, cuts_after};
    ghost use Rattle.frame_ending.specs.Stands.{CutStandsFor, ticks_taken};

    /// Returns a value that has taken no tick.
    pub fn new() -> BurstCut<R>
        /// It has taken 0 ticks.
        ensures taken { ticks_taken result ≡ 0 }
        /// It has taken no tick of a line.
        ensures stands { CutStandsFor R.LineRules result [] }
    {
        BurstCut {
            taken: 0,
            quiet: T3_5_TICKS,
            start: 0,
            last_live: 0,
            extra: false,
            paused: false,
            rules: R::fresh(),
        }
    }

    // Takes the first byte of a burst.
    #[inline]
    fn begin(&mut self, byte: u8) -> Cut
        requires room { self.old.taken < MAX_TICKS }
        requires quiet { T3_5_TICKS ≤ self.old.quiet }
        ensures taken { self.new.taken ≡ self.old.taken + 1 }
        ensures stands { (line : List Tick) → CutStandsFor R.LineRules self.old line
            → CutStandsFor R.LineRules self.new (line ++ Byte byte ∷ []) }
        ensures answer { (line : List Tick) → CutStandsFor R.LineRules self.old line
            → result ≡ cut_of R.rules line (Byte byte) }
    {
        self.rules.restart();
        self.rules.take(byte);
        self.start = self.taken;
        self.last_live = self.taken;
        self.extra = false;
        self.paused = false;
        self.quiet = 0;
        self.taken += 1;
        Cut::Start(byte)
    }

    // Takes a live byte after the first byte of a burst.
    #[inline]
    fn go_on(&mut self, byte: u8) -> Cut
        requires room { self.old.taken < MAX_TICKS }
        requires quiet { self.old.quiet < T3_5_TICKS }
        requires open { self.old.paused ≡ false }
        requires fits { R.is_full self.old.rules ≡ false }
        ensures taken { self.new.taken ≡ self.old.taken + 1 }
        ensures stands { (line : List Tick) → CutStandsFor R.LineRules self.old line
            → CutStandsFor R.LineRules self.new (line ++ Byte byte ∷ []) }
        ensures answer { (line : List Tick) → CutStandsFor R.LineRules self.old line
            → result ≡ cut_of R.rules line (Byte byte) }
    {
        self.rules.take(byte);
        self.last_live = self.taken;
        self.quiet = 0;
        self.taken += 1;
        Cut::Live(byte)
    }

    // Takes a byte of a burst that isn't live.
    #[inline]
    fn pass_over(&mut self, byte: u8) -> Cut
        requires room { self.old.taken < MAX_TICKS }
        requires quiet { self.old.quiet < T3_5_TICKS }
        requires over { (self.old.paused || R.is_full self.old.rules) ≡ true }
        ensures taken { self.new.taken ≡ self.old.taken + 1 }
        ensures stands { (line : List Tick) → CutStandsFor R.LineRules self.old line
            → CutStandsFor R.LineRules self.new (line ++ Byte byte ∷ []) }
        ensures answer { (line : List Tick) → CutStandsFor R.LineRules self.old line
            → result ≡ cut_of R.rules line (Byte byte) }
    {
        self.extra = true;
        self.quiet = 0;
        self.taken += 1;
        Cut::Extra(byte)
    }

    #[inline]
    fn hear(&mut self, byte: u8) -> Cut
        requires { self.old.taken < MAX_TICKS }
        ensures taken { self.new.taken ≡ self.old.taken + 1 }
        ensures stands { (line : List Tick) → CutStandsFor R.LineRules self.old line
            → CutStandsFor R.LineRules self.new (line ++ Byte byte ∷ []) }
        ensures answer { (line : List Tick) → CutStandsFor R.LineRules self.old line
            → result ≡ cut_of R.rules line (Byte byte) }
    {
        if self.quiet >= T3_5_TICKS {
            return self.begin(byte);
        }
        if self.paused {
            return self.pass_over(byte);
        }
        if self.rules.full() {
            return self.pass_over(byte);
        }
        self.go_on(byte)
    }

    #[inline]
    fn wait(&mut self) -> Cut
        requires { self.old.taken < MAX_TICKS }
        ensures taken { self.new.taken ≡ self.old.taken + 1 }
        ensures stands { (line : List Tick) → CutStandsFor R.LineRules self.old line
            → CutStandsFor R.LineRules self.new (line ++ Silent ∷ []) }
        ensures answer { (line : List Tick) → CutStandsFor R.LineRules self.old line
            → result ≡ cut_of R.rules line Silent }
    {
        self.taken += 1;
        if self.quiet >= T3_5_TICKS {
            return Cut::Quiet;
        }
        self.quiet += 1;
        self.paused |= self.quiet >= T1_5_TICKS;
        if self.quiet < T3_5_TICKS {
            Cut::Pause(self.quiet)
        } else {
            Cut::Closed
        }
    }

    /// Takes the next tick, and returns what it is. Fewer than `MAX_TICKS` ticks were taken before.
    #[inline]
    pub fn step(&mut self, t: Tick) -> Cut
        /// Fewer than 2^62 ticks were taken before.
        requires { ticks_taken self.old < MAX_TICKS }
        /// One more tick is taken.
        ensures taken { ticks_taken self.new ≡ ticks_taken self.old + 1 }
        /// The value has taken this tick after its line.
        ensures stands { (line : List Tick) → CutStandsFor R.LineRules self.old line
            → CutStandsFor R.LineRules self.new (line ++ t ∷ []) }
        /// What is returned is what the tick is by the definition, after this line.
        ensures answer { (line : List Tick) → CutStandsFor R.LineRules self.old line
            → result ≡ cut_of R.rules line t }
    {
        match t {
            Tick::Silent => self.wait(),
            Tick::Byte(byte) => self.hear(byte),
        }
    }

    /// Takes the first of these bytes, one a tick, as long as each is another live byte of the
    /// running burst, and returns how many. It takes none if no burst runs.
    #[inline]
    pub fn go_on_some(&mut self, bytes: &[u8]) -> usize
        /// The value has then taken at most 2^62 ticks.
        requires { ticks_taken self.old + length bytes.now ≤ MAX_TICKS }
        /// No more bytes are taken than there are.
        ensures within { result ≤ length bytes.now }
        /// The ticks that are taken are counted.
        ensures taken { ticks_taken self.new ≡ ticks_taken self.old + result }
        /// The value has taken these ticks after its line.
        ensures stands { (line : List Tick) → CutStandsFor R.LineRules self.old line
            → CutStandsFor R.LineRules self.new (line ++ map Byte (take result bytes.now)) }
        /// Each of them is a live byte by the definition.
        ensures live { (line : List Tick) → CutStandsFor R.LineRules self.old line
            → cuts_after R.rules line (map Byte (take result bytes.now))
            ≡ map Live (take result bytes.now) }
        /// If not all are taken, the next byte wouldn't be another live one.
        ensures all { result < length bytes.now → (line : List Tick) (b : ℕ)
            → CutStandsFor R.LineRules self.new line → cut_of R.rules line (Byte b) ≡ Live b → ⊥ }
    {
        if self.quiet >= T3_5_TICKS {
            return 0;
        }
        if self.paused {
            return 0;
        }
        let count = self.rules.take_some(bytes);
        if count > 0 {
            self.taken += count as u64;
            self.last_live = self.taken - 1;
            self.quiet = 0;
        }
        count
    }

    /// Takes `ticks` silent ticks if no burst runs, and returns how many it took: all or none.
    #[inline]
    pub fn rest_through(&mut self, ticks: u32) -> u32
        /// The value has then taken at most 2^62 ticks.
        requires { ticks_taken self.old + ticks ≤ MAX_TICKS }
        /// At most `ticks` ticks are taken.
        ensures within { result ≤ ticks }
        /// The ticks that are taken are counted.
        ensures taken { ticks_taken self.new ≡ ticks_taken self.old + result }
        /// The value has taken these ticks after its line.
        ensures stands { (line : List Tick) → CutStandsFor R.LineRules self.old line
            → CutStandsFor R.LineRules self.new (line ++ silent result) }
        /// Each of them is silence outside a burst, by the definition.
        ensures quiet { (line : List Tick) → CutStandsFor R.LineRules self.old line
            → cuts_after R.rules line (silent result) ≡ replicate result Quiet }
        /// If not all are taken, another silent tick wouldn't be one outside a burst.
        ensures all { result < ticks → (line : List Tick) → CutStandsFor R.LineRules self.new line
            → cut_of R.rules line Silent ≡ Quiet → ⊥ }
    {
        if self.quiet < T3_5_TICKS {
            return 0;
        }
        self.taken += u64::from(ticks);
        ticks
    }

    // Whether no more bytes of a running burst can be live.
    #[inline]
    fn is_over(&self) -> bool
        ensures { result ≡ (self.now.paused || R.is_full self.now.rules) }
    {
        self.paused || self.rules.full()
    }

    /// Takes these bytes, one a tick, if a burst runs and no more bytes of it can be live, and
    /// returns how many it took: all or none.
    #[inline]
    pub fn pass_over_some(&mut self, bytes: &[u8]) -> usize
        /// The value has then taken at most 2^62 ticks.
        requires { ticks_taken self.old + length bytes.now ≤ MAX_TICKS }
        /// No more bytes are taken than there are.
        ensures within { result ≤ length bytes.now }
        /// The ticks that are taken are counted.
        ensures taken { ticks_taken self.new ≡ ticks_taken self.old + result }
        /// The value has taken these ticks after its line.
        ensures stands { (line : List Tick) → CutStandsFor R.LineRules self.old line
            → CutStandsFor R.LineRules self.new (line ++ map Byte (take result bytes.now)) }
        /// Each of them is a byte of the burst that isn't live, by the definition.
        ensures extra { (line : List Tick) → CutStandsFor R.LineRules self.old line
            → cuts_after R.rules line (map Byte (take result bytes.now))
            ≡ map Extra (take result bytes.now) }
        /// If not all are taken, the next byte wouldn't be one that isn't live.
        ensures all { result < length bytes.now → (line : List Tick) (b : ℕ)
            → CutStandsFor R.LineRules self.new line → cut_of R.rules line (Byte b) ≡ Extra b → ⊥ }
    {
        if self.quiet >= T3_5_TICKS {
            return 0;
        }
        let over = self.is_over();
        if !over {
            return 0;
        }
        let count = bytes.len();
        if count == 0 {
            return 0;
        }
        self.extra = true;
        self.quiet = 0;
        self.taken += count as u64;
        count
    }

    /// Takes `ticks` silent ticks.
    #[inline]
    pub fn wait_some(&mut self, ticks: u32)
        /// The value has then taken at most 2^62 ticks.
        requires { ticks_taken self.old + ticks ≤ MAX_TICKS }
        /// These ticks are counted.
        ensures taken { ticks_taken self.new ≡ ticks_taken self.old + ticks }
        /// The value has taken these silent ticks after its line.
        ensures stands { (line : List Tick) → CutStandsFor R.LineRules self.old line
            → CutStandsFor R.LineRules self.new (line ++ silent ticks) }
    {
        let count = u64::from(ticks);
        self.taken += count;
        if self.quiet >= T3_5_TICKS {
            return;
        }
        let still = u32::from(T3_5_TICKS - self.quiet);
        let quiet = self.quiet + ticks.min(still) as u8;
        self.paused |= quiet >= T1_5_TICKS;
        self.quiet = quiet;
    }

    /// Returns the live bytes.
    #[inline]
    pub fn rules(&self) -> &R
        ensures { (line : List Tick) → CutStandsFor R.LineRules self.now line
            → R.stands result.now (live_bytes_so_far R.rules line) }
    {
        &self.rules
    }

    /// Returns the tick of the burst's first byte, or 0 before the first burst.
    #[inline]
    pub fn start(&self) -> u64
        ensures { (line : List Tick) → CutStandsFor R.LineRules self.now line
            → result ≡ start_so_far line }
    {
        self.start
    }

    /// Returns the tick of the last live byte, or 0 before the first burst.
    #[inline]
    pub fn last_live(&self) -> u64
        ensures { (line : List Tick) → CutStandsFor R.LineRules self.now line
            → result ≡ last_live_so_far R.rules line }
    {
        self.last_live
    }

    /// Whether the burst has a byte that isn't live.
    #[inline]
    pub fn extra(&self) -> bool
        ensures { (line : List Tick) → CutStandsFor R.LineRules self.now line
            → result ≡ has_extra_so_far R.rules line }
    {
        self.extra
    }

    /// Whether no more bytes of the burst can be live: there were two silent ticks in a row in it
    /// or after it, or the room is full.
    #[inline]
    pub fn live_over(&self) -> bool
        ensures { (line : List Tick) → CutStandsFor R.LineRules self.now line
            → result ≡ is_over_so_far R.rules line }
    {
        self.is_over()
    }

    /// Returns the number of silent ticks since the last byte, counted up to `T3_5_TICKS`. A burst
    /// runs while there are fewer than that.
    #[inline]
    pub fn quiet(&self) -> u8
        ensures { (line : List Tick) → CutStandsFor R.LineRules self.now line
            → result ≡ quiet_so_far line }
    {
        self.quiet
    }

    /// Returns how many ticks were taken.
    #[inline]
    pub fn ticks(&self) -> u64
        /// It is what the value has counted.
        ensures taken { result ≡ ticks_taken self.now }
        /// It is the length of the line that was taken.
        ensures count { (line : List Tick) → CutStandsFor R.LineRules self.now line
            → result ≡ length line }
    {
        self.taken
    }
}
