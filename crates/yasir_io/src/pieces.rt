//! The bytes of a source, read in large pieces and returned one by one.
ghost use Rattle.std.specs.Prelude.{◌≤◌};
ghost use Rattle.yasir_io.specs.declared.pieces.TheConstants.{PIECE_LEN};

use crate::{Failed, Source};

/// The most bytes that are read at once.
const PIECE_LEN: usize = 65_536;

/// The bytes of one source, one after the other. They are read in pieces, so that there are few
/// calls of the source.
#[derive(Drop)]
pub struct Pieces {
    bytes: [u8; PIECE_LEN],
    place: usize,
    end: usize,
    ended: bool,
    ghost ordered: { place ≤ end },
    ghost within: { end ≤ PIECE_LEN },
}

impl Pieces {
    ghost use Rattle.std.specs.Prelude.{◌≡◌, ◌<◌, List, ℕ, [], ◌∷◌, length, take, drop, true};
    ghost use Rattle.std.specs.Prelude.{false, Ok, None, Some, OnErr, OnSome, IfOk};
    ghost use Rattle.std.specs.Option.{option_to_list};
    ghost use Rattle.std.specs.Io.KnownBytes.{prepend_known, IsAtEnd};
    ghost use Rattle.yasir_io.specs.Causes.{HasCause};
    ghost use Rattle.yasir_io.specs.Pieces.{kept_bytes, has_ended, to_come};

    /// Returns pieces of which nothing has been read yet.
    pub fn new() -> Pieces
        /// No byte is kept.
        ensures kept { kept_bytes result ≡ [] }
        /// No read has returned 0.
        ensures ended { has_ended result ≡ false }
    {
        Pieces {
            bytes: [0; PIECE_LEN],
            place: 0,
            end: 0,
            ended: false,
        }
    }

    /// Returns the next byte, or `None` if no byte is kept and a read has returned 0. From then on
    /// it is always `None`.
    #[inline]
    pub fn next<S: Source>(&mut self, source: &mut S) -> Result<Option<u8>, Failed>
        /// Each byte comes exactly once, in its order.
        ensures next { IfOk result (λ next. to_come self.old (S.left source.old)
            ≡ prepend_known (option_to_list next) (to_come self.new (S.left source.new))) }
        /// A read that fails loses no byte.
        ensures err { OnErr result (to_come self.new (S.left source.new)
            ≡ to_come self.old (S.left source.old)) }

        /// A byte that is kept is returned without a read.
        ensures kept { (b : ℕ) (rest : List ℕ) → kept_bytes self.old ≡ b ∷ rest
            → (result ≡ Ok (Some b)) × (kept_bytes self.new ≡ rest) × (source.new ≡ source.old) }

        /// A byte that is returned doesn't end the pieces.
        ensures still_open { IfOk result
            (λ next. OnSome next (has_ended self.new ≡ has_ended self.old)) }
        /// A read that fails doesn't end the pieces.
        ensures err_open { OnErr result (has_ended self.new ≡ has_ended self.old) }

        /// A read fails only if nothing is kept.
        ensures err_kept { OnErr result ((kept_bytes self.old ≡ []) × (kept_bytes self.new ≡ [])) }

        /// If there is no next byte, the pieces have ended, and nothing is kept.
        ensures end { result ≡ Ok None → (has_ended self.new ≡ true) × (kept_bytes self.new ≡ []) }
        /// The pieces end only at the end of the source.
        ensures nothing_left { result ≡ Ok None → has_ended self.old ≡ false
            → IsAtEnd (S.left source.new) }
        /// Once they have ended and nothing is kept, there is no next byte, and nothing changes.
        ensures for_good { has_ended self.old ≡ true → kept_bytes self.old ≡ []
            → (result ≡ Ok None) × (self.new ≡ self.old) × (source.new ≡ source.old) }

        /// The source's count of faults rose if a read failed, and is as it was otherwise.
        ensures cause { HasCause (S.faults source.old) (S.faults source.new) result }
    {
        if self.place == self.end {
            return self.next_of_read(source);
        }
        let byte = self.bytes[self.place];
        self.place += 1;
        Ok(Some(byte))
    }

    // Returns the next byte if none is kept: the first one of a read, unless the end was reached
    // before.
    #[inline(never)]
    fn next_of_read<S: Source>(&mut self, source: &mut S) -> Result<Option<u8>, Failed>
        requires { self.old.place ≡ self.old.end }
        ensures next { IfOk result (λ next. S.left source.old
            ≡ prepend_known (option_to_list next) (to_come self.new (S.left source.new))) }
        ensures err { OnErr result (to_come self.new (S.left source.new) ≡ S.left source.old) }
        ensures still_open { IfOk result
            (λ next. OnSome next (has_ended self.new ≡ has_ended self.old)) }
        ensures err_open { OnErr result (has_ended self.new ≡ has_ended self.old) }
        ensures err_kept { OnErr result (kept_bytes self.new ≡ []) }
        ensures end { result ≡ Ok None → (has_ended self.new ≡ true) × (kept_bytes self.new ≡ []) }
        ensures nothing_left { result ≡ Ok None → has_ended self.old ≡ false
            → IsAtEnd (S.left source.new) }
        ensures for_good { has_ended self.old ≡ true
            → (result ≡ Ok None) × (self.new ≡ self.old) × (source.new ≡ source.old) }
        ensures cause { HasCause (S.faults source.old) (S.faults source.new) result }
    {
        if !self.fill(source)? {
            return Ok(None);
        }
        let first = self.kept()[0];
        self.skip(1);
        Ok(Some(first))
    }

    /// Returns the bytes that are kept, in their order.
    #[inline]
    pub fn kept(&self) -> &[u8]
        ensures { result.now ≡ kept_bytes self.now }
    {
        &self.bytes[self.place..self.end]
    }

    /// Skips the first `n` of the bytes that are kept.
    #[inline]
    pub fn skip(&mut self, n: usize)
        /// At least `n` bytes are kept.
        requires { n ≤ length (kept_bytes self.old) }
        /// All but the first `n` of the bytes that were kept are kept.
        ensures kept { kept_bytes self.new ≡ drop n (kept_bytes self.old) }
        /// Whether the pieces have ended is as it was.
        ensures ended { has_ended self.new ≡ has_ended self.old }
    {
        self.place += n;
    }

    /// Reads if no byte is kept, and returns whether one is kept then. None is if a read has
    /// returned 0, this one or an earlier one.
    #[inline(always)]
    pub fn fill<S: Source>(&mut self, source: &mut S) -> Result<bool, Failed>
        /// No byte is lost.
        ensures same { to_come self.new (S.left source.new) ≡ to_come self.old (S.left source.old) }
        /// If it returns true, a byte is kept.
        ensures some { result ≡ Ok true → 0 < length (kept_bytes self.new) }

        /// If a byte is kept, nothing is read.
        ensures kept { 0 < length (kept_bytes self.old)
            → (result ≡ Ok true) × (self.new ≡ self.old) × (source.new ≡ source.old) }

        /// Bytes that come don't end the pieces.
        ensures still_open { result ≡ Ok true → has_ended self.new ≡ has_ended self.old }
        /// A read that fails doesn't end the pieces.
        ensures err_open { OnErr result (has_ended self.new ≡ has_ended self.old) }

        /// A read fails only if nothing is kept.
        ensures err_kept { OnErr result ((kept_bytes self.old ≡ []) × (kept_bytes self.new ≡ [])) }

        /// If it returns false, the pieces have ended, and nothing is kept.
        ensures end { result ≡ Ok false → (has_ended self.new ≡ true) × (kept_bytes self.new ≡ []) }
        /// The pieces end only at the end of the source.
        ensures nothing_left { result ≡ Ok false → has_ended self.old ≡ false
            → IsAtEnd (S.left source.new) }
        /// Once they have ended and nothing is kept, it returns false, and nothing changes.
        ensures for_good { has_ended self.old ≡ true → kept_bytes self.old ≡ []
            → (result ≡ Ok false) × (self.new ≡ self.old) × (source.new ≡ source.old) }

        /// The source's count of faults rose if a read failed, and is as it was otherwise.
        ensures cause { HasCause (S.faults source.old) (S.faults source.new) result }
    {
        if !self.kept().is_empty() {
            return Ok(true);
        }
        match self.read_piece(source) {
            Ok(some) => Ok(some),
            Err(Failed) => Err(Failed),
        }
    }

    // Reads the next piece. This is a function of its own, since few bytes need a read.
    #[inline(never)]
    fn read_piece<S: Source>(&mut self, source: &mut S) -> Result<bool, Failed>
        requires { length (kept_bytes self.old) ≡ 0 }
        ensures same { to_come self.new (S.left source.new) ≡ to_come self.old (S.left source.old) }
        ensures some { result ≡ Ok true → 0 < length (kept_bytes self.new) }
        ensures still_open { result ≡ Ok true → has_ended self.new ≡ has_ended self.old }
        ensures err_open { OnErr result (has_ended self.new ≡ has_ended self.old) }
        ensures err_kept { OnErr result (kept_bytes self.new ≡ []) }
        ensures end { result ≡ Ok false → (has_ended self.new ≡ true) × (kept_bytes self.new ≡ []) }
        ensures nothing_left { result ≡ Ok false → has_ended self.old ≡ false
            → IsAtEnd (S.left source.new) }
        ensures for_good { has_ended self.old ≡ true
            → (result ≡ Ok false) × (self.new ≡ self.old) × (source.new ≡ source.old) }
        ensures cause { HasCause (S.faults source.old) (S.faults source.new) result }
    {
        if self.ended {
            return Ok(false);
        }
        let n = source.read(&mut self.bytes)?;
        if n == 0 {
            self.ended = true;
            return Ok(false);
        }
        self.keep(n);
        Ok(true)
    }

    // Keeps the first `n` bytes of what was read.
    fn keep(&mut self, n: usize)
        requires { n ≤ PIECE_LEN }
        ensures kept { kept_bytes self.new ≡ take n self.old.bytes }
        ensures count { length (kept_bytes self.new) ≡ n }
        ensures ended { has_ended self.new ≡ has_ended self.old }
    {
        self.place = 0;
        self.end = n;
    }
}
