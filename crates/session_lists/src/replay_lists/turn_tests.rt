//! How often the loops over two recordings call the boxes and the device: a run is handed over
//! whole, and so is what the receiver sends for it. No contract says so.
ghost use Rattle.std.specs.Prelude.{[], refl};

use super::ReplayLists;
use crate::frame_box::{FrameBox, FrameStep};
use crate::recordings::list_recordings;
use device_model::{Device, Met};
use frame_ending::RunBytes;
use link_format::Dir;
use std::alloc::Global;
use std::test::Fail;
use tick_drive::End;
use yasir_io::{MemSink, Plan, SteadySource};
use yasir_ticks::Tick;

/// How many calls took a run of bytes, a run of silence, and a single tick.
#[derive(Clone, Copy, Debug, PartialEq, Eq)]
pub(crate) struct Calls {
    pub(crate) bytes: u32,
    pub(crate) silence: u32,
    pub(crate) step: u32,
}

const NO_CALLS: Calls = Calls {
    bytes: 0,
    silence: 0,
    step: 0,
};

/// A box that is a mere wire: it sends on what it takes, unchanged, and counts the calls.
#[derive(Drop)]
pub(crate) struct Wire {
    taken: u64,
    pub(crate) calls: Calls,
}

impl FrameBox for Wire {
    ghost stands = { λ value setup line. Unit {0} };

    ghost taken = { λ value. value.taken };

    ghost able = { λ value. Unit {0} };

    ghost numbering = { λ setup. record {
      other_line = λ line. line;
      frames = λ _. [];
    } };

    ghost widths_fit = { Unit {0} };

    ghost shown = { λ value. [] };

    fn new(_key: &[u8], _dir: Dir, _floor: u64) -> Self {
        Wire {
            taken: 0,
            calls: NO_CALLS,
        }
    }

    fn step(&mut self, t: Tick) -> FrameStep {
        self.calls.step = self.calls.step.saturating_add(1);
        self.taken += 1;
        FrameStep {
            tick: t,
            frame: None,
        }
    }

    fn pass_bytes(&mut self, bytes: &[u8], sent: &mut RunBytes) -> usize {
        self.calls.bytes = self.calls.bytes.saturating_add(1);
        let count = bytes.len().min(sent.capacity());
        sent.clear();
        sent.try_extend_from_slice(&bytes[..count]).unwrap();
        self.taken += count as u64;
        count
    }

    fn pass_silence(&mut self, ticks: u32, sent: &mut RunBytes) -> u32 {
        self.calls.silence = self.calls.silence.saturating_add(1);
        sent.clear();
        self.taken += u64::from(ticks);
        ticks
    }

    fn bytes(&self) -> &[u8] {
        &[]
    }
}

/// A device that reads no frame, and counts the calls.
#[derive(Drop)]
pub(crate) struct Deaf {
    taken: u64,
    pub(crate) calls: Calls,
}

impl Device for Deaf {
    ghost reads = { λ line. [] };

    ghost stands = { λ value line. Unit {0} };

    ghost taken = { λ value. value.taken };

    ghost lent = { λ value. [] };

    fn fresh() -> Self {
        Deaf {
            taken: 0,
            calls: NO_CALLS,
        }
    }

    fn frame_bytes(&self) -> &[u8] {
        &[]
    }

    fn step(&mut self, _t: Tick) -> Option<u64> {
        self.calls.step = self.calls.step.saturating_add(1);
        self.taken += 1;
        None
    }

    fn hear(&mut self, bytes: &[u8]) -> Met {
        self.calls.bytes = self.calls.bytes.saturating_add(1);
        self.taken += bytes.len() as u64;
        Met {
            taken: bytes.len(),
            start: None,
        }
    }

    fn wait(&mut self, ticks: usize) -> Met {
        self.calls.silence = self.calls.silence.saturating_add(1);
        self.taken += ticks as u64;
        Met {
            taken: ticks,
            start: None,
        }
    }
}

/// How many silent ticks the transmitter gets after its recording.
const DEVICE_REST: u32 = 24;

// Two lines of bytes and two of silence before the mark, and one line of each after it.
const TEXT: &[u8] = b"+000102030405060708090a0b0c0d0e0f101112131415161718191a1b1c1d1e1f\n\
      -1000000\n\
      +41\n\
      -40\n\
      %\n\
      +000102030405060708090a0b0c0d0e0f101112131415161718191a1b1c1d1e1f\n\
      -1000000\n";

// The lists after both recordings, with two wires as the boxes and a device that reads nothing.
fn listed(alloc: Global) -> Result<ReplayLists<Wire, Wire, Deaf>, Fail> {
    let mut lists: ReplayLists<Wire, Wire, Deaf> = ReplayLists::new(alloc, &[0; 16], Dir::Ab);
    let mut input = SteadySource::new(TEXT);
    let mut out = MemSink::with_room(alloc, 0, 512, Plan::new())?;
    let mut log = MemSink::with_room(alloc, 0, 512, Plan::new())?;
    match list_recordings(DEVICE_REST, &mut lists, &mut input, &mut out, &mut log) {
        End::Whole => Ok(lists),
        _ => Err(Fail::from("the text isn't whole")),
    }
}

// Each line of a recording goes to its box in one call, and what the receiver sends for it goes to
// the device in one call. The silence after the link is one more run, and the silence after the
// device's line goes tick by tick.
#[test]
fn a_line_of_text_costs_a_call_of_its_box(rt: HostRuntime) -> Result<(), Fail> {
    let lists = listed(rt.alloc())?;
    let sealer = Calls {
        bytes: 2,
        silence: 2,
        step: DEVICE_REST,
    };
    let behind_the_mark = Calls {
        bytes: 1,
        silence: 2,
        step: 0,
    };
    assert_eq!(rt; lists.sealer.calls, sealer);
    assert_eq!(rt; lists.checker.calls, behind_the_mark);
    assert_eq!(rt; lists.device.calls, behind_the_mark);
    Ok(())
}
