//! The canonical text of ticks, as it grows in memory.
ghost use Rattle.std.specs.Prelude.{◌≡◌, ◌<◌, List, ◌∷◌, ◌++◌, [], IfOk, OnOk};
ghost use Rattle.yasir_ticks.specs.Ticks.{silent};
ghost use Rattle.yasir_ticks.specs.CanonicalText.{canonical_text};
ghost use Rattle.yasir_ticks.specs.TickRun.{run_ticks};
ghost use Rattle.yasir_ticks.specs.declared.tick.Tick.{Tick};
ghost use Rattle.line_texts.specs.Adding.{IsShort};
ghost use Rattle.wire_commands.specs.TickLines.{HasWritten, HasRoom};

use line_commands::MemoryText;
use line_texts::Texts;
use std::alloc::Global;
use yasir_io::{Failed, NoMemory};
use yasir_ticks::{Tick, TickRun};

/// The text of ticks, in memory.
#[derive(Drop)]
pub(crate) struct TickLines {
    texts: Texts,
    text: MemoryText,
    // the texts' second sink, which gets nothing
    log: MemoryText,
}

impl TickLines {
    /// Returns the text of no tick.
    pub(crate) fn new(alloc: Global) -> TickLines
        ensures room { HasRoom result }
        ensures none { HasWritten result [] }
    {
        TickLines {
            texts: Texts::new(),
            text: MemoryText::new(alloc),
            log: MemoryText::new(alloc),
        }
    }

    /// Adds a short run of ticks. What waits is handed on if there is no room for another one.
    pub(crate) fn add(&mut self, run: TickRun<'_>) -> Result<(), NoMemory>
        requires room { HasRoom self.old }
        requires short { IsShort (run_ticks run) }
        ensures room { OnOk result (HasRoom self.new) }
        ensures written { OnOk result ((line : List Tick) → HasWritten self.old line
            → HasWritten self.new (line ++ run_ticks run.entry)) }
    {
        self.texts.add_run(run);
        if self.texts.has_room() {
            return Ok(());
        }
        match self.texts.hand_out(&mut self.text, &mut self.log) {
            Ok(()) => Ok(()),
            Err(Failed) => Err(NoMemory),
        }
    }

    /// Adds a tick.
    pub(crate) fn add_tick(&mut self, tick: Tick) -> Result<(), NoMemory>
        requires room { HasRoom self.old }
        ensures room { OnOk result (HasRoom self.new) }
        ensures written { OnOk result ((line : List Tick) → HasWritten self.old line
            → HasWritten self.new (line ++ tick ∷ [])) }
    {
        match tick {
            Tick::Silent => self.add(TickRun::Silence(1)),
            Tick::Byte(byte) => self.add(TickRun::Bytes(&[byte])),
        }
    }

    /// Adds a tick and a short run behind it, which may have no tick.
    pub(crate) fn add_first(&mut self, first: Tick, rest: TickRun<'_>) -> Result<(), NoMemory>
        requires room { HasRoom self.old }
        requires short { IsShort (run_ticks rest) }
        ensures room { OnOk result (HasRoom self.new) }
        ensures written { OnOk result ((line : List Tick) → HasWritten self.old line
            → HasWritten self.new (line ++ first ∷ run_ticks rest.entry)) }
    {
        let Ok(()) = self.add_tick(first) else {
            return Err(NoMemory);
        };
        if rest.is_empty() {
            return Ok(());
        }
        self.add(rest)
    }

    /// Ends the text, and returns it.
    pub(crate) fn finish(self) -> Result<Vec<u8>, NoMemory>
        ensures { IfOk result (λ text. (line : List Tick) → HasWritten self line
            → text.items ≡ canonical_text line) }
    {
        let TickLines {
            texts,
            mut text,
            mut log,
        } = self;
        match texts.finish(&mut text, &mut log) {
            Ok(()) => Ok(text.bytes),
            Err(Failed) => Err(NoMemory),
        }
    }
}
