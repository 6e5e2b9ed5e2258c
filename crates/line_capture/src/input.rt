//! The whole input, kept in memory.
ghost use Rattle.std.specs.Prelude.{◌≡◌, ◌≤◌, [], ◌++◌, length, take, Option, List, ℕ, IfOk, OnErr};
ghost use Rattle.yasir_io.specs.Causes.{Rose};
ghost use Rattle.tick_drive.specs.Input.{max_bytes};
ghost use Rattle.line_capture.specs.Inputs.{ReadsInput, IsReadOf};

use std::alloc::Global;
use yasir_io::{NoMemory, Source};

/// The most bytes of an input that are read: 268,435,456.
pub const MAX_INPUT_BYTES: usize = 268_435_456;

/// The most bytes that are read at once.
const PIECE_LEN: usize = 65_536;

/// How the reading of an input ended.
#[derive(Clone, Copy, Debug, PartialEq, Eq)]
pub enum ReadEnd {
    /// The input ended.
    Whole,
    /// A read failed.
    Failed,
    /// More bytes came than are read.
    TooLong,
}

/// The bytes of an input, and how its reading ended.
#[derive(Drop)]
pub struct Input {
    /// The bytes that were read.
    pub bytes: Vec<u8>,
    /// How their reading ended.
    pub end: ReadEnd,
}

/// Reads the input to its end, or until a read fails or too many bytes came. Memory is taken for
/// what was read, up to three times as much while it grows.
pub fn read_input<S: Source>(alloc: Global, source: &mut S) -> Result<Input, NoMemory>
    /// The bytes that are returned are the front of what the input had left, and the end says why
    /// no more was read: the input's end, a failed read, or too many bytes.
    ensures reads { IfOk result (λ input. ReadsInput (S.left source.old) (S.left source.new)
        input.bytes.items input.end) }
    /// At most 268,435,456 bytes are returned.
    ensures few { IfOk result (λ input. length input.bytes.items ≤ max_bytes) }
    /// The input's count of faults never falls.
    ensures never_falls { S.faults source.old ≤ S.faults source.new }
    /// The input's count of faults rose if a read failed, and is as it was otherwise.
    ensures failed { IfOk result (λ input. IsReadOf (S.faults source.old) (S.faults source.new)
        input.end) }
    /// If there was no memory, the input's count of faults is as it was.
    ensures no_memory { OnErr result (S.faults source.new ≡ S.faults source.old) }
{
    let mut bytes = Vec::new(alloc);
    let mut piece = [0; PIECE_LEN];
    loop {
        let Ok(n) = source.read(&mut piece) else {
            let end = ReadEnd::Failed;
            return Ok(Input { bytes, end });
        };
        if n == 0 {
            let end = ReadEnd::Whole;
            return Ok(Input { bytes, end });
        }
        let kept = n.min(MAX_INPUT_BYTES - bytes.len());
        let Ok(()) = bytes.extend_from_slice(&piece[..kept]) else {
            return Err(NoMemory);
        };
        if kept < n {
            let end = ReadEnd::TooLong;
            return Ok(Input { bytes, end });
        }
    }
}
