//! How often an input is read, and how often its reader is fed: a read fills the whole buffer, and
//! a line is fed at once. No clause says so.
ghost use Rattle.std.specs.Prelude.{Some};
ghost use Rattle.yasir_io.specs.Steady.{steady_bytes};

use super::Intake;
use std::alloc::Global;
use std::test::Fail;
use yasir_io::{Failed, Source, SteadySource};

/// A source that fills each buffer as far as it can, and counts the reads.
#[derive(Drop)]
struct CountedSource<'a> {
    source: SteadySource<'a>,
    reads: u32,
}

impl<'a> Source for CountedSource<'a> {
    ghost left = { λ value. Some (steady_bytes value.source) };

    ghost faults = { λ _. 0 };

    fn read(&mut self, buf: &mut [u8]) -> Result<usize, Failed> {
        self.reads = self.reads.saturating_add(1);
        self.source.read(buf)
    }
}

/// How many lines the input has, of 66 bytes each.
const LINES: u32 = 2000;

fn full_lines(alloc: Global) -> Result<Vec<u8>, Fail> {
    let mut text = Vec::new(alloc);
    for _ in 0..LINES {
        text.extend_from_slice(
            b"+000102030405060708090a0b0c0d0e0f101112131415161718191a1b1c1d1e1f\n",
        )?;
    }
    Ok(text)
}

// Returns how many lines are taken at once up to the end of the input, and how many steps are
// needed for the other bytes.
fn turns_over(source: &mut CountedSource<'_>) -> Result<(u32, u32), Fail> {
    let mut intake = Intake::new(0);
    let (mut usual, mut steps) = (0_u32, 0_u32);
    for _ in 0..1_000_000 {
        if intake.usual_line().is_some() {
            usual = usual.saturating_add(1);
            continue;
        }
        match intake.step(source) {
            Ok(Some(_)) => steps = steps.saturating_add(1),
            Ok(None) => return Ok((usual, steps)),
            Err(_) => return Err(Fail::from("the text is refused")),
        }
    }
    Err(Fail::from("the text has no end"))
}

// The input has 132,000 bytes, which come in reads of 65,536, 65,536, 928 and 0. The first step
// reads, and takes the first line. Two lines are split between two pieces, and each of their parts
// takes a step. The last line takes one, since fewer bytes are kept then than the longest line has.
// All others are taken at once.
#[test]
fn a_line_costs_a_step_and_a_piece_a_read(rt: HostRuntime) -> Result<(), Fail> {
    let text = full_lines(rt.alloc())?;
    let mut source = CountedSource {
        source: SteadySource::new(text.as_slice()),
        reads: 0,
    };
    assert_eq!(rt; turns_over(&mut source)?, (LINES - 4, 6));
    assert_eq!(rt; source.reads, 4);
    Ok(())
}
