//! A sink in memory that fails at chosen calls, for tests.
ghost use Rattle.std.specs.Prelude.{◌≤◌, vec_len, vec_capacity};

use crate::calls::{Calls, NoMemory, Plan};
use crate::flushes::Flushes;
use crate::{Failed, Sink};
use std::alloc::Global;

/// A sink in memory with a fixed room, which fails at chosen calls.
#[derive(Drop)]
pub struct MemSink {
    bytes: Vec<u8>,
    room: usize,
    piece: usize,
    calls: Calls,
    flushes: Flushes,
    ghost some: { 1 ≤ piece },
    ghost held: { vec_len bytes ≤ room },
    ghost reserved: { room ≤ vec_capacity bytes },
}

impl MemSink {
    ghost use Rattle.std.specs.Prelude.{◌≡◌, ◌≤◌, [], IfOk, false};
    ghost use Rattle.yasir_io.specs.MemSink.{sink_bytes, sink_room, sink_plan, sink_calls};
    ghost use Rattle.yasir_io.specs.MemSink.{sink_piece, sink_faults, sink_flushes, sink_unflushed};

    /// Returns an empty sink with room for `room` bytes, which is allocated at once. A call moves
    /// at most `piece` bytes. The calls in `fail`, counted from 1, fail.
    pub fn with_room(
        alloc: Global,
        room: usize,
        piece: u16,
        fail: Plan,
    ) -> Result<MemSink, NoMemory>
        /// A call may move at least one byte.
        requires some { 1 ≤ piece }
        /// A call may move at most 512 bytes.
        requires within { piece ≤ 512 }
        /// It holds no byte.
        ensures bytes { IfOk result (λ sink. sink_bytes sink ≡ []) }
        /// It has this room.
        ensures room { IfOk result (λ sink. sink_room sink ≡ room) }
        /// A call moves at most `piece` bytes.
        ensures piece { IfOk result (λ sink. sink_piece sink ≡ piece) }
        /// These calls are planned to fail.
        ensures plan { IfOk result (λ sink. sink_plan sink ≡ fail.items) }
        /// It has counted 0 calls.
        ensures calls { IfOk result (λ sink. sink_calls sink ≡ 0) }
        /// No call has failed.
        ensures faults { IfOk result (λ sink. sink_faults sink ≡ 0) }
        /// It was never flushed.
        ensures flushes { IfOk result (λ sink. sink_flushes sink ≡ 0) }
        /// Nothing was written to it.
        ensures unflushed { IfOk result (λ sink. sink_unflushed sink ≡ false) }
    {
        let Ok(bytes) = Vec::with_capacity(alloc, room) else {
            return Err(NoMemory);
        };
        Ok(MemSink {
            bytes,
            room,
            piece: usize::from(piece),
            calls: Calls::new(fail),
            flushes: Flushes::none(),
        })
    }

    /// Returns the bytes held. This doesn't count as a call.
    pub fn held(&self) -> &[u8]
        ensures { result.now ≡ sink_bytes self.now }
    {
        self.bytes.as_slice()
    }

    /// Returns how often a flush has ended well. This doesn't count as a call.
    pub fn flushes(&self) -> u64
        ensures { result ≡ sink_flushes self.now }
    {
        self.flushes.count
    }
}

impl Sink for MemSink {
    ghost use Rattle.std.specs.Prelude.{◌≡◌, ◌+◌, ◌-◌, ◌^◌, ◌<◌, ◌≤◌, ◌↔◌, min, take, length, Some};
    ghost use Rattle.std.specs.Prelude.{true, IsErr, IfOk, OnErr};
    ghost use Rattle.std.specs.Io.KnownBytes.{append_known};
    ghost use Rattle.yasir_io.specs.Causes.{HasCause};
    ghost use Rattle.yasir_io.specs.Flushing.{IsCounted};
    ghost use Rattle.yasir_io.specs.MemSink.{sink_bytes, sink_room, sink_plan, sink_calls};
    ghost use Rattle.yasir_io.specs.MemSink.{sink_piece, sink_flushes, sink_unflushed};
    ghost use Rattle.yasir_io.specs.MemSink.{SinkFails, WriteFails};

    ghost held = { λ sink. Some (sink_bytes sink) };

    ghost faults = { λ sink. sink.calls.faults.count };

    ghost flushes = { λ sink. sink_flushes sink };

    ghost unflushed = { λ sink. sink_unflushed sink };

    fn write(&mut self, piece: &[u8]) -> Result<usize, Failed>
        ensures within { IfOk result (λ n. n ≤ length piece.now) }
        ensures some { IfOk result (λ n. 0 < length piece.now → 0 < n) }
        ensures bytes { IfOk result (λ n. Some (sink_bytes self.new)
            ≡ append_known (Some (sink_bytes self.old)) (take n piece.now)) }
        ensures err { OnErr result (Some (sink_bytes self.new) ≡ Some (sink_bytes self.old)) }
        ensures cause { HasCause self.old.calls.faults.count self.new.calls.faults.count result }
        ensures flushes { sink_flushes self.new ≡ sink_flushes self.old }
        ensures unflushed { IfOk result (λ n. 0 < n → sink_unflushed self.new ≡ true) }
        ensures as_it_was { IfOk result (λ n. n ≡ 0
            → sink_unflushed self.new ≡ sink_unflushed self.old) }
        ensures err_as_it_was { OnErr result (sink_unflushed self.new ≡ sink_unflushed self.old) }

        // A call fails exactly if that is planned, or if it finds no room. Any other call moves as
        // much as it may.
        ensures fails { IsErr result ↔ WriteFails self.old piece.now }
        ensures size { IfOk result (λ n. n
            ≡ min (min (length piece.now) (sink_piece self.old))
            (sink_room self.old - length (sink_bytes self.old))) }
        ensures calls { sink_calls self.new ≡ min (sink_calls self.old + 1) (2 ^ 64 - 1) }
        ensures plan { sink_plan self.new ≡ sink_plan self.old }
        ensures piece { sink_piece self.new ≡ sink_piece self.old }
        ensures room { sink_room self.new ≡ sink_room self.old }
    {
        self.calls.begin()?;
        let n = piece
            .len()
            .min(self.piece)
            .min(self.room - self.bytes.len());
        if n == 0 && !piece.is_empty() {
            return Err(self.calls.faults.add());
        }
        self.bytes.extend_from_slice(&piece[..n]).unwrap();
        self.flushes.wait(n);
        Ok(n)
    }

    fn flush(&mut self) -> Result<(), Failed>
        ensures same { Some (sink_bytes self.new) ≡ Some (sink_bytes self.old) }
        ensures cause { HasCause self.old.calls.faults.count self.new.calls.faults.count result }
        ensures counted { IsCounted (sink_flushes self.old) (sink_flushes self.new)
            (sink_unflushed self.new) result }
        ensures err_as_it_was { OnErr result (sink_unflushed self.new ≡ sink_unflushed self.old) }
        ensures fails { IsErr result ↔ SinkFails self.old }
        ensures calls { sink_calls self.new ≡ min (sink_calls self.old + 1) (2 ^ 64 - 1) }
        ensures plan { sink_plan self.new ≡ sink_plan self.old }
        ensures piece { sink_piece self.new ≡ sink_piece self.old }
        ensures room { sink_room self.new ≡ sink_room self.old }
    {
        self.calls.begin()?;
        self.flushes.add();
        Ok(())
    }
}
