//! A source in memory that fails at chosen calls, for tests.
ghost use Rattle.std.specs.Prelude.{◌≤◌};

use crate::calls::{Calls, Plan};
use crate::{Failed, Reason, Source, TellsReason};

/// Bytes in memory as a source, which fails at chosen calls.
#[derive(Drop)]
pub struct MemSource<'a> {
    bytes: &'a [u8],
    piece: usize,
    calls: Calls,
    ghost some: { 1 ≤ piece },
    ghost within: { piece ≤ 512 },
}

impl<'a> MemSource<'a> {
    ghost use Rattle.std.specs.Prelude.{◌≡◌, ◌≤◌};
    ghost use Rattle.yasir_io.specs.MemSource.{source_bytes, source_plan, source_calls};
    ghost use Rattle.yasir_io.specs.MemSource.{source_piece, source_faults};

    /// Returns a source of these bytes. A call moves at most `piece` of them. The calls in `fail`,
    /// counted from 1, fail.
    pub fn new(bytes: &'a [u8], piece: u16, fail: Plan) -> MemSource<'a>
        /// A call may move at least one byte.
        requires some { 1 ≤ piece }
        /// A call may move at most 512 bytes.
        requires within { piece ≤ 512 }
        /// It has these bytes left.
        ensures bytes { source_bytes result ≡ bytes.now }
        /// A call moves at most `piece` bytes.
        ensures piece { source_piece result ≡ piece }
        /// These calls are planned to fail.
        ensures plan { source_plan result ≡ fail.items }
        /// It has counted 0 calls.
        ensures calls { source_calls result ≡ 0 }
        /// No call has failed.
        ensures faults { source_faults result ≡ 0 }
    {
        MemSource {
            bytes,
            piece: usize::from(piece),
            calls: Calls::new(fail),
        }
    }
}

impl<'a> TellsReason for MemSource<'a> {
    ghost use Rattle.std.specs.Prelude.{None};

    ghost told_reason = { λ _. None };

    fn reason(&self) -> Option<Reason> {
        None
    }
}

impl<'a> Source for MemSource<'a> {
    ghost use Rattle.std.specs.Prelude.{◌≡◌, ◌+◌, ◌-◌, ◌^◌, ◌<◌, ◌≤◌, ◌↔◌, min, take, length, Some};
    ghost use Rattle.std.specs.Prelude.{IsErr, IfOk, OnErr};
    ghost use Rattle.std.specs.Io.KnownBytes.{prepend_known, IsAtEnd};
    ghost use Rattle.yasir_io.specs.Causes.{HasCause};
    ghost use Rattle.yasir_io.specs.MemSource.{source_bytes, source_plan, source_calls};
    ghost use Rattle.yasir_io.specs.MemSource.{source_piece, SourceFails};

    ghost left = { λ source. Some (source_bytes source) };

    ghost faults = { λ source. source.calls.faults.count };

    fn read(&mut self, buf: &mut [u8]) -> Result<usize, Failed>
        ensures within { IfOk result (λ n. n ≤ length buf.new) }
        ensures bytes { IfOk result (λ n. Some (source_bytes self.old)
            ≡ prepend_known (take n buf.new) (Some (source_bytes self.new))) }
        ensures end { IfOk result (λ n. n ≡ 0 → 0 < length buf.new
            → IsAtEnd (Some (source_bytes self.new))) }
        ensures err { OnErr result (Some (source_bytes self.new) ≡ Some (source_bytes self.old)) }
        ensures cause { HasCause self.old.calls.faults.count self.new.calls.faults.count result }

        // Exactly the planned calls fail, and any other moves as much as it may.
        ensures fails { IsErr result ↔ SourceFails self.old }
        ensures size { IfOk result (λ n. n
            ≡ min (min (length (source_bytes self.old)) (source_piece self.old)) (length buf.new)) }
        ensures calls { source_calls self.new ≡ min (source_calls self.old + 1) (2 ^ 64 - 1) }
        ensures plan { source_plan self.new ≡ source_plan self.old }
        ensures piece { source_piece self.new ≡ source_piece self.old }
    {
        self.calls.begin()?;
        let n = self.bytes.len().min(self.piece).min(buf.len());
        let (front, rest) = self.bytes.split_at(n);
        buf[..n].copy_from_slice(front);
        self.bytes = rest;
        Ok(n)
    }
}
