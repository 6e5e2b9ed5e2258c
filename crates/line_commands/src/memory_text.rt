//! A text in memory, as a sink.
ghost use Rattle.std.specs.Prelude.{◌≡◌, [], Some};
ghost use Rattle.line_commands.specs.MemoryText.{text_bytes};

use std::alloc::Global;
use yasir_io::{Failed, Sink};

/// A text in memory, of any length. A write fails if there is no memory for it.
#[derive(Drop)]
pub struct MemoryText {
    pub bytes: Vec<u8>,
    faults: u64,
    flushes: u64,
    unflushed: bool,
}

impl MemoryText {
    /// Returns an empty text.
    pub fn new(alloc: Global) -> MemoryText
        ensures { text_bytes result ≡ [] }
    {
        MemoryText {
            bytes: Vec::new(alloc),
            faults: 0,
            flushes: 0,
            unflushed: false,
        }
    }
}

impl Sink for MemoryText {
    ghost held = { λ text. Some (text_bytes text) };

    ghost faults = { λ text. text.faults };

    ghost flushes = { λ text. text.flushes };

    ghost unflushed = { λ text. text.unflushed };

    fn write(&mut self, piece: &[u8]) -> Result<usize, Failed> {
        let Ok(()) = self.bytes.extend_from_slice(piece) else {
            self.faults = self.faults.saturating_add(1);
            return Err(Failed);
        };
        if !piece.is_empty() {
            self.unflushed = true;
        }
        Ok(piece.len())
    }

    fn flush(&mut self) -> Result<(), Failed> {
        self.flushes = self.flushes.saturating_add(1);
        self.unflushed = false;
        Ok(())
    }
}
