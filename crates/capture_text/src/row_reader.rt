//! A reader of exports that have one row on each line.
ghost use Rattle.std.specs.Prelude.{◌≡◌, ℕ, ◌+◌, ◌<◌, ◌≤◌, ◌++◌, ◌∷◌, [], List, length, Ok, Err, None};
ghost use Rattle.std.specs.Prelude.{Option, Result, OnOk, IfErr};
ghost use Rattle.line_stamps.specs.declared.TheConstants.{MAX_BYTES};
ghost use Rattle.capture_text.specs.Rows.{rows_may_end, row_without_return, seen_in_row};

use crate::names::Names;
use crate::{BadRow, MAX_LINE, RowFault, RowForm, RowItem, Stage, What};
use arrayvec::ArrayVec;
use line_stamps::{CaptureByte, CaptureReader, LineEvent, Seen, Way};

/// A reader of an export that has one row on each line, byte by byte, in constant memory. It
/// returns what a row says when it takes the LF at the end of the row.
#[derive(Drop)]
pub struct RowReader<F> {
    form: F,
    stage: Stage,
    names: Names,
    // the bytes of the line so far
    line: ArrayVec<u8, MAX_LINE>,
    refused: Option<BadRow>,
    // how many bytes it took, how many of them come before the line so far, and how many lines
    // ended
    taken: u64,
    begun: u64,
    ended: u64,
    ghost fewer: { ended ≤ taken },
    ghost before: { begun ≤ taken },
    ghost bounded: { taken ≤ MAX_BYTES },
}

/// Returns what a row says, on the way of its channel.
fn seen_on(way: Way, item: RowItem) -> Seen
    ensures { result ≡ seen_in_row way item }
{
    match item.what {
        What::Byte(byte) => Seen::Byte(CaptureByte {
            way,
            start: item.start,
            first: true,
            byte,
        }),
        What::Event(event) => Seen::Event(LineEvent {
            way: Some(way),
            start: item.start,
            event,
            bytes: 0,
        }),
    }
}

/// Returns a line without the CR at its end, if it has one.
fn without_return(line: &[u8]) -> &[u8]
    ensures { result.now ≡ row_without_return line.now }
{
    if line.is_empty() {
        return line;
    }
    if line[line.len() - 1] == b'\r' {
        &line[..line.len() - 1]
    } else {
        line
    }
}

/// Whether an export may end at a stage.
fn may_end(stage: Stage) -> bool
    ensures { result ≡ rows_may_end stage }
{
    matches!(stage, Stage::Rows | Stage::Done)
}

impl<F: RowForm> RowReader<F> {
    ghost use Rattle.capture_text.specs.Rows.{IsExport, line_at, rows_step_at, rows_may_end_at};
    ghost use Rattle.capture_text.specs.RowReader.{RowReaderStandsFor, RowReaderHasRefused, row_bytes_taken, place_of};
    ghost use Rattle.capture_text.specs.RowReader.{RowReaderTakes};
    ghost use Rattle.capture_text.specs.RowReader.{TakesRowLine};
    ghost use Rattle.capture_text.specs.declared.row_fault.BadRow.{BadRow};
    ghost use Rattle.line_stamps.specs.declared.seen.Seen.{Seen};

    /// Takes the end of the line.
    fn end_line(&mut self) -> Result<Option<Seen>, RowFault>
        ensures { TakesRowLine F.row_at F.name_of self.old result self.new }
    {
        let line = without_return(self.line.as_slice());
        let row = match self.form.row(self.stage, line) {
            Ok(row) => row,
            Err(why) => return Err(why),
        };
        let Some(item) = row.item else {
            self.stage = row.next;
            self.line.clear();
            return Ok(None);
        };
        let Some(way) = self.names.way_of(self.form.name(line)) else {
            return Err(RowFault::Channel);
        };
        self.stage = row.next;
        self.line.clear();
        Ok(Some(seen_on(way, item)))
    }

    /// Takes one byte: an LF ends the line, and any other byte is added to it.
    #[inline]
    fn step(&mut self, b: u8) -> Result<Option<Seen>, RowFault>
        requires { row_bytes_taken self.old < MAX_BYTES }
        ensures { RowReaderTakes F.row_at F.name_of self.old b result self.new }
    {
        if b == b'\n' {
            let seen = match self.end_line() {
                Ok(seen) => seen,
                Err(why) => return Err(why),
            };
            self.taken += 1;
            self.begun = self.taken;
            self.ended += 1;
            return Ok(seen);
        }
        if self.line.len() >= MAX_LINE {
            return Err(RowFault::Long);
        }
        self.line.push(b);
        self.taken += 1;
        Ok(None)
    }

    /// Whether the export may end here.
    fn may_end(&self) -> bool
        ensures { result ≡ rows_may_end_at (place_of self.now) }
    {
        may_end(self.stage) && self.line.is_empty()
    }

    /// Returns a refusal of the line so far.
    fn refusal(&self, why: RowFault) -> BadRow
        ensures offset { result.offset ≡ self.now.begun }
        ensures line { result.line ≡ self.now.ended + 1 }
        ensures why { result.why ≡ why }
    {
        BadRow {
            offset: self.begun,
            line: self.ended + 1,
            why,
        }
    }
}

impl<F: RowForm> CaptureReader for RowReader<F> {
    ghost use Rattle.capture_text.specs.Rows.{IsExport, AreRowsSoFar};
    ghost use Rattle.capture_text.specs.RowReader.{RowReaderStandsFor, RowReaderHasRefused, RowReaderRefuses};
    ghost use Rattle.capture_text.specs.RowReader.{row_bytes_taken};

    type Refusal = BadRow;

    ghost format = { IsExport F.row_at F.name_of };

    ghost begins = { AreRowsSoFar F.row_at F.name_of };

    ghost stands = { RowReaderStandsFor F.row_at F.name_of };

    ghost refuses = { RowReaderRefuses F.row_at F.name_of };

    ghost has_refused = { RowReaderHasRefused };

    ghost bytes_taken = { row_bytes_taken };

    fn start() -> RowReader<F> {
        RowReader {
            form: F::form(),
            stage: Stage::Start,
            names: Names::new(),
            line: ArrayVec::new(),
            refused: None,
            taken: 0,
            begun: 0,
            ended: 0,
        }
    }

    fn taken(&self) -> u64 {
        self.taken
    }

    #[inline]
    fn feed(&mut self, b: u8) -> Result<Option<Seen>, BadRow> {
        if let Some(bad) = self.refused {
            return Err(bad);
        }
        match self.step(b) {
            Ok(seen) => Ok(seen),
            Err(why) => {
                let bad = self.refusal(why);
                self.refused = Some(bad);
                Err(bad)
            }
        }
    }

    fn finish(self) -> Result<(), BadRow> {
        if let Some(bad) = self.refused {
            return Err(bad);
        }
        if self.may_end() {
            return Ok(());
        }
        Err(self.refusal(RowFault::End))
    }
}
