//! How long a line has been silent, as a device counts it.

/// How long a line has been silent, as a device counts it: up to the silence that parts the line.
#[derive(Clone, Copy)]
pub(crate) struct Silence {
    // this many silent ticks together part the line; with 0 no silence does
    cut: u8,
    // the silent ticks since the last byte, counted up to `cut`
    quiet: u8,
}

impl Silence {
    ghost use Rattle.std.specs.Prelude.{◌≡◌, ◌+◌, ◌-◌, ◌<◌, ◌≤◌, ◌⊎◌, ◌==◌, nat_le, nat_lt};
    ghost use Rattle.std.specs.Prelude.{if◌then◌else◌};

    // Starts to count at the start of a line, which counts as silence.
    pub(crate) fn new(cut: u8) -> Silence
        ensures cut { result.cut ≡ cut }
        ensures quiet { result.quiet ≡ cut }
    {
        Silence { cut, quiet: cut }
    }

    // Returns the silent ticks since the last byte, counted up to `cut`.
    #[inline]
    pub(crate) fn ticks(&self) -> u8
        ensures { result ≡ self.now.quiet }
    {
        self.quiet
    }

    // Whether the silence has parted the line.
    #[inline]
    pub(crate) fn has_parted(&self) -> bool
        ensures { result ≡ nat_le self.now.cut self.now.quiet }
    {
        self.quiet >= self.cut
    }

    // Takes another silent tick. Returns whether the silence parts the line in this very tick.
    #[inline]
    pub(crate) fn wait(&mut self) -> bool
        ensures cut { self.new.cut ≡ self.old.cut }
        ensures quiet { self.new.quiet
            ≡ (if nat_lt self.old.quiet self.old.cut then self.old.quiet + 1 else self.old.quiet) }
        ensures parts { result ≡ self.old.quiet + 1 == self.old.cut }
    {
        if self.quiet >= self.cut {
            return false;
        }
        self.quiet += 1;
        self.quiet == self.cut
    }

    // Returns how many more silent ticks part the line, or 0 if it has been parted.
    #[inline]
    pub(crate) fn left(&self) -> u8
        ensures { result ≡ self.now.cut - self.now.quiet }
    {
        self.cut.saturating_sub(self.quiet)
    }

    // Takes this many more silent ticks, in none of which the silence parts the line.
    #[inline]
    pub(crate) fn wait_some(&mut self, ticks: usize)
        requires { (self.old.cut ≤ self.old.quiet) ⊎ (self.old.quiet + ticks < self.old.cut) }
        ensures cut { self.new.cut ≡ self.old.cut }
        ensures quiet { self.new.quiet
            ≡ (if nat_lt self.old.quiet self.old.cut then self.old.quiet + ticks else self.old.quiet) }
    {
        if self.quiet < self.cut {
            self.quiet += ticks as u8;
        }
    }

    // Ends the silence with a byte.
    #[inline]
    pub(crate) fn end(&mut self)
        ensures cut { self.new.cut ≡ self.old.cut }
        ensures quiet { self.new.quiet ≡ 0 }
    {
        self.quiet = 0;
    }
}
