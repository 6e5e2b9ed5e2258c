//! How often the loops over a text call a device: a run is heard at once. No clause says so.
ghost use Rattle.std.specs.Prelude.{[]};

use super::FrameLines;
use device_model::{Device, Met};
use std::alloc::Global;
use std::test::Fail;
use tick_drive::{End, drive};
use yasir_io::{MemSink, Plan, SteadySource, TextBuffer};
use yasir_ticks::Tick;

/// How often a device heard runs of bytes, runs of silence, and single ticks.
#[derive(Clone, Copy, Debug, PartialEq, Eq)]
struct Calls {
    bytes: u32,
    silence: u32,
    step: u32,
}

/// A device that reads no frame, and counts the calls.
#[derive(Drop)]
struct Deaf {
    taken: u64,
    calls: Calls,
}

impl Device for Deaf {
    ghost reads = { λ line. [] };

    ghost stands = { λ value line. Unit {0} };

    ghost taken = { λ value. value.taken };

    ghost lent = { λ value. [] };

    fn fresh() -> Self {
        Deaf {
            taken: 0,
            calls: Calls {
                bytes: 0,
                silence: 0,
                step: 0,
            },
        }
    }

    fn frame_bytes(&self) -> &[u8] {
        &[]
    }

    fn step(&mut self, _t: Tick) -> Option<u64> {
        self.calls.step = self.calls.step.saturating_add(1);
        self.taken += 1;
        None
    }

    fn hear(&mut self, bytes: &[u8]) -> Met {
        self.calls.bytes = self.calls.bytes.saturating_add(1);
        self.taken += bytes.len() as u64;
        Met {
            taken: bytes.len(),
            start: None,
        }
    }

    fn wait(&mut self, ticks: usize) -> Met {
        self.calls.silence = self.calls.silence.saturating_add(1);
        self.taken += ticks as u64;
        Met {
            taken: ticks,
            start: None,
        }
    }
}

// Two lines of bytes, and two of silence, one of them as long as a line of silence may be.
const TEXT: &[u8] = b"+000102030405060708090a0b0c0d0e0f101112131415161718191a1b1c1d1e1f\n\
      -1000000\n\
      +41\n\
      -40\n";

// Returns how often a device is called that hears the text.
fn calls_of(alloc: Global) -> Result<Calls, Fail> {
    let mut device = Deaf::fresh();
    let mut lines = TextBuffer::new();
    let mut input = SteadySource::new(TEXT);
    let mut out = MemSink::with_room(alloc, 0, 512, Plan::new())?;
    let mut printer = FrameLines::new(&mut device, &mut lines, &mut out);
    match drive(0, &mut input, &mut printer) {
        End::Whole => Ok(device.calls),
        _ => Err(Fail::from("the text isn't whole")),
    }
}

#[test]
fn a_line_of_text_costs_a_call_of_the_device(rt: HostRuntime) -> Result<(), Fail> {
    let calls = Calls {
        bytes: 2,
        silence: 2,
        step: 0,
    };
    assert_eq!(rt; calls_of(rt.alloc())?, calls);
    Ok(())
}
