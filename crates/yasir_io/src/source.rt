//! Where bytes come from.
ghost use Rattle.std.specs.Prelude.{◌≡◌, ℕ, ◌≤◌, ◌<◌, Option, List, take, length, IfOk, OnErr};
ghost use Rattle.std.specs.Io.KnownBytes.{prepend_known, IsAtEnd};
ghost use Rattle.yasir_io.specs.Causes.{HasCause};

use crate::Failed;

/// Where bytes come from.
pub trait Source {
    /// The bytes that are left, if the source tells them.
    ghost left: { Self → Option (List ℕ) };

    /// How often a read has failed.
    ghost faults: { Self → ℕ };

    /// Moves the first bytes that are left into the front of `buf`, and returns how many. This is
    /// at most the length of `buf`, and 0 only at the end, or if `buf` has no room.
    fn read(&mut self, buf: &mut [u8]) -> Result<usize, Failed>
        /// No more bytes are read than `buf` has room for.
        ensures within { IfOk result (λ n. n ≤ length buf.new) }
        /// What is read is the front of what was left.
        ensures bytes { IfOk result (λ n.
            left self.old ≡ prepend_known (take n buf.new) (left self.new)) }
        /// Nothing is read only at the end, or if `buf` has no room.
        ensures end { IfOk result (λ n. n ≡ 0 → 0 < length buf.new → IsAtEnd (left self.new)) }
        /// A read that fails takes nothing.
        ensures err { OnErr result (left self.new ≡ left self.old) }
        /// The count of faults rose if the read failed, and is as it was otherwise.
        ensures cause { HasCause (faults self.old) (faults self.new) result };
}
