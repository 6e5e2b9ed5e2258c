//! `link_replay`: a program that runs the boxes, and models of the devices, over recorded lines,
//! and the boxes over lines as they come.
//! `docs/USAGE.md` describes its words, and `link_replay help` prints a page of them:
//!
//!     link_replay init rtu ab sent.journal
//!     link_replay seal rtu ab key.txt sent.journal < line.ticks > link.ticks
#![tactic(auto)]

mod commands;
mod over_files;
mod program;
#[cfg(test)]
mod rows;
#[cfg(test)]
mod tests;
mod usage;
mod words;

pub use command_ends::{NOT_GIVEN, Profile, Proto, Usage};
use line_commands::Streams;
pub use link_format::Dir;
pub use live_ways::{BothDisks, Ended};
pub use over_files::run_over_files;
pub use program::run;
use std::process::ExitCode;
pub use words::{Command, journal_word, key_word, makes_journal, read_words, second_word};
use yasir_io::{StderrSink, StdinSource, StdoutSink};

fn main(rt: HostRuntime) -> ExitCode {
    let mut streams = Streams {
        input: StdinSource::new(rt.stdin()),
        out: StdoutSink::new(rt.stdout()),
        log: StderrSink::new(rt.stderr()),
    };
    ExitCode::from(run_over_files(&rt, std::env::args(&rt), &mut streams))
}
