//! `line_capture`: turns captures of a serial line into tick text, and tick text into captures.
//!
//!     line_capture take pcap 9600x11 a < tap.pcap > line.ticks
//!     line_capture give vcd 9600x11 < line.ticks > wires.vcd
#![tactic(auto)]

mod about;
mod bad_capture;
mod collect;
mod distances;
mod give;
mod input;
mod laws;
mod outcome;
mod placing;
mod program;
mod reader;
mod records;
mod take;
#[cfg(test)]
mod tests;
mod usage;
mod words;

pub use bad_capture::BadCapture;
pub use collect::{CaptureEnd, Collected, Kept, collect};
pub use command_ends::NOT_GIVEN;
pub use distances::{Distances, count_distances};
pub use give::{Giving, give};
pub use input::{Input, MAX_INPUT_BYTES, ReadEnd, read_input};
pub use laws::what_was_given_is_taken;
pub use outcome::Outcome;
pub use placing::{LineEnd, LineStop, MAX_LINE_TICKS, count_overlaps, write_line};
pub use program::{run, run_over_args};
pub use reader::FormReader;
pub use records::{MAX_RECORD_BYTES, RecordForm, recorded};
use std::process::ExitCode;
pub use take::{Taking, take};
pub use words::{Command, GiveForm, TakeForm, Usage, Ways, read_words};
use yasir_io::{StderrSink, StdinSource, StdoutSink};

fn main(rt: HostRuntime) -> ExitCode {
    ExitCode::from(run_over_args(
        rt.alloc(),
        std::env::args(&rt),
        &mut StdinSource::new(rt.stdin()),
        &mut StdoutSink::new(rt.stdout()),
        &mut StderrSink::new(rt.stderr()),
    ))
}
