//! Modbus RTU devices with other silences than the standard's.
use crate::device::Met;
use crate::silence::Silence;
use arrayvec::ArrayVec;
use rtu_frame::is_frame;
use yasir_ticks::{MAX_TICKS, Tick};

/// How many bytes a frame has at most.
const LONGEST: usize = 256;

/// A Modbus RTU device with silences of its own: it takes `cut` silent ticks together for the end
/// of a burst, and reads the burst if at most `gap` silent ticks are together in it and its bytes
/// are a frame. The standard asks for 3.5 and 1.5 character times (Modbus over Serial Line V1.02),
/// which are a cut of 4 and a gap of 1.
#[derive(Drop)]
pub struct RtuFamily {
    ticks: u64,
    silence: Silence,
    gap: u8,
    // of the running burst, or else of the last one: the tick of its first byte, whether it can't
    // be a frame any more, and its bytes if it can
    start: u64,
    broken: bool,
    bytes: ArrayVec<u8, 292>,
}

impl RtuFamily {
    ghost use Rattle.std.specs.Prelude.{◌≡◌, ℕ, ◌+◌, ◌<◌, ◌≤◌, ◌||◌, nat_lt, false, List};
    ghost use Rattle.std.specs.Prelude.{[], ◌∷◌, ◌++◌, length, map, take, ◌⊎◌, None, if◌then◌else◌};
    ghost use Rattle.std.specs.Prelude.{nat_le};
    ghost use Rattle.yasir_ticks.specs.Ticks.{silent};
    ghost use Rattle.yasir_ticks.specs.declared.tick.Tick.{Tick};
    ghost use Rattle.yasir_ticks.specs.declared.tick.Tick.TheVariants.{Silent, Byte};
    ghost use Rattle.device_model.specs.Frames.{frames_lent};
    ghost use Rattle.device_model.specs.RtuFamily.{RtuFamilyStandsFor, rtu_family_reads};
    ghost use Rattle.device_model.specs.RtuFamily.{ticks_heard, bytes_lent, frame_at_end};

    /// Makes a device that has heard nothing. `cut` is 2 to 18 silent ticks, and `gap` is at least
    /// 1 and less than `cut`.
    pub fn new(cut: u8, gap: u8) -> RtuFamily
        /// The cut is at least 2.
        requires shortest { 2 ≤ cut }
        /// The cut is at most 18.
        requires longest { cut ≤ 18 }
        /// The gap is at least 1.
        requires some { 1 ≤ gap }
        /// The gap is less than the cut.
        requires within { gap < cut }
        /// It has taken 0 ticks.
        ensures taken { ticks_heard result ≡ 0 }
        /// It has heard no tick.
        ensures stands { RtuFamilyStandsFor cut gap result [] }
        /// Of no tick, nothing is read.
        ensures nothing { rtu_family_reads cut gap [] ≡ [] }
    {
        RtuFamily {
            ticks: 0,
            silence: Silence::new(cut),
            gap,
            start: 0,
            broken: false,
            bytes: ArrayVec::new(),
        }
    }

    // Takes the first byte of a burst.
    #[inline]
    fn begin(&mut self, byte: u8)
        requires { self.old.ticks < MAX_TICKS }
        ensures ticks { self.new.ticks ≡ self.old.ticks + 1 }
        ensures cut { self.new.silence.cut ≡ self.old.silence.cut }
        ensures quiet { self.new.silence.quiet ≡ 0 }
        ensures gap { self.new.gap ≡ self.old.gap }
        ensures start { self.new.start ≡ self.old.ticks }
        ensures broken { self.new.broken ≡ false }
        ensures bytes { self.new.bytes.items ≡ byte ∷ [] }
    {
        self.start = self.ticks;
        self.broken = false;
        self.bytes.clear();
        self.bytes.push(byte);
        self.silence.end();
        self.ticks += 1;
    }

    // Keeps another byte of a burst, if the burst can still be a frame with it.
    #[inline]
    fn keep(&mut self, byte: u8)
        ensures ticks { self.new.ticks ≡ self.old.ticks }
        ensures silence { self.new.silence ≡ self.old.silence }
        ensures gap { self.new.gap ≡ self.old.gap }
        ensures start { self.new.start ≡ self.old.start }
        ensures broken { self.new.broken ≡ (self.old.broken
            || (nat_lt self.old.gap self.old.silence.quiet
            || nat_le 256 (length self.old.bytes.items))) }
        ensures bytes { self.new.broken ≡ false
            → self.new.bytes.items ≡ self.old.bytes.items ++ byte ∷ [] }
    {
        if self.silence.ticks() > self.gap || self.bytes.len() >= LONGEST {
            self.broken = true;
            return;
        }
        self.bytes.push(byte);
    }

    // Takes another byte of a burst.
    #[inline]
    fn go_on(&mut self, byte: u8)
        requires { self.old.ticks < MAX_TICKS }
        ensures ticks { self.new.ticks ≡ self.old.ticks + 1 }
        ensures cut { self.new.silence.cut ≡ self.old.silence.cut }
        ensures quiet { self.new.silence.quiet ≡ 0 }
        ensures gap { self.new.gap ≡ self.old.gap }
        ensures start { self.new.start ≡ self.old.start }
        ensures broken { self.new.broken ≡ (self.old.broken
            || (nat_lt self.old.gap self.old.silence.quiet
            || nat_le 256 (length self.old.bytes.items))) }
        ensures bytes { self.new.broken ≡ false
            → self.new.bytes.items ≡ self.old.bytes.items ++ byte ∷ [] }
    {
        self.keep(byte);
        self.silence.end();
        self.ticks += 1;
    }

    // Keeps more bytes of a burst, for which there is room. A single byte is pushed, which costs
    // less than the copy of a run.
    #[inline(always)]
    fn keep_some(&mut self, bytes: &[u8])
        requires { length self.old.bytes.items + length bytes.now ≤ 256 }
        ensures ticks { self.new.ticks ≡ self.old.ticks }
        ensures silence { self.new.silence ≡ self.old.silence }
        ensures gap { self.new.gap ≡ self.old.gap }
        ensures start { self.new.start ≡ self.old.start }
        ensures broken { self.new.broken ≡ self.old.broken }
        ensures bytes { self.new.bytes.items ≡ self.old.bytes.items ++ bytes.now }
    {
        if let [byte] = bytes {
            self.bytes.push(*byte);
            return;
        }
        let _ = self.bytes.try_extend_from_slice(bytes);
    }

    // Takes more bytes of a burst, right after its last one.
    #[inline(always)]
    fn go_on_some(&mut self, bytes: &[u8])
        requires { self.old.ticks + length bytes.now ≤ MAX_TICKS }
        ensures ticks { self.new.ticks ≡ self.old.ticks + length bytes.now }
        ensures silence { self.new.silence ≡ self.old.silence }
        ensures gap { self.new.gap ≡ self.old.gap }
        ensures start { self.new.start ≡ self.old.start }
        ensures broken { self.new.broken ≡ (self.old.broken
            || nat_lt 256 (length self.old.bytes.items + length bytes.now)) }
        ensures bytes { self.new.broken ≡ false
            → self.new.bytes.items ≡ self.old.bytes.items ++ bytes.now }
    {
        self.ticks += bytes.len() as u64;
        if self.bytes.len() + bytes.len() > LONGEST {
            self.broken = true;
            return;
        }
        self.keep_some(bytes);
    }

    // Returns the tick of the first byte of a burst that ends, if the burst is a frame.
    #[inline]
    fn close(&self) -> Option<u64>
        ensures { frames_lent result self.now.bytes.items
            ≡ frame_at_end self.now.broken self.now.start self.now.bytes.items }
    {
        if self.broken {
            return None;
        }
        if !is_frame(self.bytes.as_slice()) {
            return None;
        }
        Some(self.start)
    }

    #[inline]
    fn hear_byte(&mut self, byte: u8)
        requires { ticks_heard self.old < MAX_TICKS }
        ensures taken { ticks_heard self.new ≡ ticks_heard self.old + 1 }
        ensures quiet { self.new.silence.quiet ≡ 0 }
        ensures stands { (cut gap : ℕ) (line : List Tick)
            → RtuFamilyStandsFor cut gap self.old line
            → RtuFamilyStandsFor cut gap self.new (line ++ Byte byte ∷ []) }
        ensures answer { (cut gap : ℕ) (line : List Tick)
            → RtuFamilyStandsFor cut gap self.old line
            → rtu_family_reads cut gap (line ++ Byte byte ∷ [])
            ≡ rtu_family_reads cut gap line ++ [] }
    {
        if self.silence.has_parted() {
            self.begin(byte);
            return;
        }
        self.go_on(byte);
    }

    #[inline]
    fn wait_tick(&mut self) -> Option<u64>
        requires { ticks_heard self.old < MAX_TICKS }
        ensures taken { ticks_heard self.new ≡ ticks_heard self.old + 1 }
        ensures cut { self.new.silence.cut ≡ self.old.silence.cut }
        ensures quiet { self.new.silence.quiet
            ≡ (if nat_lt self.old.silence.quiet self.old.silence.cut
            then self.old.silence.quiet + 1 else self.old.silence.quiet) }
        ensures stands { (cut gap : ℕ) (line : List Tick)
            → RtuFamilyStandsFor cut gap self.old line
            → RtuFamilyStandsFor cut gap self.new (line ++ Silent ∷ []) }
        ensures answer { (cut gap : ℕ) (line : List Tick)
            → RtuFamilyStandsFor cut gap self.old line
            → rtu_family_reads cut gap (line ++ Silent ∷ [])
            ≡ rtu_family_reads cut gap line ++ frames_lent result self.new.bytes.items }
    {
        self.ticks += 1;
        if self.silence.wait() {
            return self.close();
        }
        None
    }

    // Takes silent ticks in none of which the silence parts the line.
    #[inline]
    fn wait_some(&mut self, ticks: usize)
        requires some { ticks_heard self.old + ticks ≤ MAX_TICKS }
        requires parts { (self.old.silence.cut ≤ self.old.silence.quiet)
            ⊎ (self.old.silence.quiet + ticks < self.old.silence.cut) }
        ensures taken { ticks_heard self.new ≡ ticks_heard self.old + ticks }
        ensures cut { self.new.silence.cut ≡ self.old.silence.cut }
        ensures quiet { self.new.silence.quiet
            ≡ (if nat_lt self.old.silence.quiet self.old.silence.cut
            then self.old.silence.quiet + ticks else self.old.silence.quiet) }
        ensures stands { (cut gap : ℕ) (line : List Tick)
            → RtuFamilyStandsFor cut gap self.old line
            → RtuFamilyStandsFor cut gap self.new (line ++ silent ticks) }
    {
        self.ticks += ticks as u64;
        self.silence.wait_some(ticks);
    }

    // Takes bytes that come after silence. It is a function of its own, as most bytes come right
    // after another one.
    #[inline(never)]
    fn hear_behind(&mut self, bytes: &[u8])
        requires { ticks_heard self.old + length bytes.now ≤ MAX_TICKS }
        ensures taken { ticks_heard self.new ≡ ticks_heard self.old + length bytes.now }
        ensures stands { (cut gap : ℕ) (line : List Tick)
            → RtuFamilyStandsFor cut gap self.old line
            → RtuFamilyStandsFor cut gap self.new (line ++ map Byte bytes.now) }
        ensures answer { (cut gap n : ℕ) (line : List Tick)
            → RtuFamilyStandsFor cut gap self.old line
            → rtu_family_reads cut gap (line ++ map Byte (take n bytes.now))
            ≡ rtu_family_reads cut gap line }
    {
        let Some((first, others)) = bytes.split_first() else {
            return;
        };
        self.hear_byte(*first);
        self.go_on_some(others);
    }

    /// Takes the next ticks, which have these bytes. No frame is read in them. The ticks taken
    /// before and these may be at most `MAX_TICKS` together.
    #[inline(always)]
    pub fn hear(&mut self, bytes: &[u8])
        /// The device has then taken at most 2^62 ticks.
        requires { ticks_heard self.old + length bytes.now ≤ MAX_TICKS }
        /// A tick is counted for each byte.
        ensures taken { ticks_heard self.new ≡ ticks_heard self.old + length bytes.now }
        /// The device has heard these ticks after its line.
        ensures stands { (cut gap : ℕ) (line : List Tick)
            → RtuFamilyStandsFor cut gap self.old line
            → RtuFamilyStandsFor cut gap self.new (line ++ map Byte bytes.now) }
        /// Nothing more is read up to any of these ticks.
        ensures answer { (cut gap n : ℕ) (line : List Tick)
            → RtuFamilyStandsFor cut gap self.old line
            → rtu_family_reads cut gap (line ++ map Byte (take n bytes.now))
            ≡ rtu_family_reads cut gap line }
    {
        if self.silence.ticks() == 0 {
            self.go_on_some(bytes);
            return;
        }
        self.hear_behind(bytes);
    }

    /// Takes this many silent ticks, up to the first one in which a frame is read, which is lent
    /// then. The ticks taken before and these may be at most `MAX_TICKS` together.
    pub fn wait(&mut self, ticks: usize) -> Met
        /// The device has then taken at most 2^62 ticks.
        requires { ticks_heard self.old + ticks ≤ MAX_TICKS }
        /// If there are ticks, at least one is taken.
        ensures some { 0 < ticks → 0 < result.taken }
        /// At most `ticks` ticks are taken.
        ensures within { result.taken ≤ ticks }
        /// If no frame is read, all ticks are taken.
        ensures whole { result.start ≡ None → result.taken ≡ ticks }
        /// The ticks that are taken are counted.
        ensures taken { ticks_heard self.new ≡ ticks_heard self.old + result.taken }
        /// The device has heard these ticks after its line.
        ensures stands { (cut gap : ℕ) (line : List Tick)
            → RtuFamilyStandsFor cut gap self.old line
            → RtuFamilyStandsFor cut gap self.new (line ++ silent result.taken) }
        /// The frame that is returned, if one is, is exactly what these ticks add to what is read.
        ensures answer { (cut gap : ℕ) (line : List Tick)
            → RtuFamilyStandsFor cut gap self.old line
            → rtu_family_reads cut gap (line ++ silent result.taken)
            ≡ rtu_family_reads cut gap line ++ frames_lent result.start (bytes_lent self.new) }
        /// Before the last of these ticks nothing more is read.
        ensures before { (cut gap n : ℕ) → n < result.taken → (line : List Tick)
            → RtuFamilyStandsFor cut gap self.old line
            → rtu_family_reads cut gap (line ++ silent n) ≡ rtu_family_reads cut gap line }
    {
        let left = usize::from(self.silence.left());
        if left == 0 {
            self.wait_some(ticks);
            return Met {
                taken: ticks,
                start: None,
            };
        }
        if ticks < left {
            self.wait_some(ticks);
            return Met {
                taken: ticks,
                start: None,
            };
        }
        self.wait_some(left - 1);
        if let Some(start) = self.wait_tick() {
            return Met {
                taken: left,
                start: Some(start),
            };
        }
        self.wait_some(ticks - left);
        Met {
            taken: ticks,
            start: None,
        }
    }

    /// Returns the bytes of the frame that was read in the last tick taken: those that are kept of
    /// the running burst, or else of the last one.
    #[inline]
    pub fn frame_bytes(&self) -> &[u8]
        /// They are the bytes that the device lends.
        ensures bytes { result.now ≡ bytes_lent self.now }
        /// There are at most 292.
        ensures few { length result.now ≤ 292 }
    {
        self.bytes.as_slice()
    }

    /// Takes the next tick of the line. If a frame is read in this very tick, returns the tick of
    /// its first byte, and lends its bytes. Otherwise returns `None`. Fewer than `MAX_TICKS` ticks
    /// may have been taken before.
    #[inline]
    pub fn step(&mut self, t: Tick) -> Option<u64>
        /// Fewer than 2^62 ticks were taken before.
        requires { ticks_heard self.old < MAX_TICKS }
        /// One more tick is taken.
        ensures taken { ticks_heard self.new ≡ ticks_heard self.old + 1 }
        /// The device has heard this tick after its line.
        ensures stands { (cut gap : ℕ) (line : List Tick)
            → RtuFamilyStandsFor cut gap self.old line
            → RtuFamilyStandsFor cut gap self.new (line ++ t ∷ []) }
        /// The frame that is returned, if one is, is exactly what is read of the line with this
        /// tick and not of the line without it.
        ensures answer { (cut gap : ℕ) (line : List Tick)
            → RtuFamilyStandsFor cut gap self.old line
            → rtu_family_reads cut gap (line ++ t ∷ [])
            ≡ rtu_family_reads cut gap line ++ frames_lent result (bytes_lent self.new) }
    {
        match t {
            Tick::Byte(byte) => {
                self.hear_byte(byte);
                None
            }
            Tick::Silent => self.wait_tick(),
        }
    }
}
