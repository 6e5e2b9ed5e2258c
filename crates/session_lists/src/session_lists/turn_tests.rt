//! How often the loop over three recordings calls the boxes and the device: each run is handed over
//! whole. No contract says so.
ghost use Rattle.std.specs.Prelude.{[]};
ghost use Rattle.session_lists.specs.FrameList.{Holds};

use super::{Floors, SessionLists, Timing};
use crate::frame_list::FrameList;
use crate::guard::Guard;
use crate::lateness::Lateness;
use crate::replay_lists::turn_tests::{Calls, Deaf, Wire};
use crate::sessions::list_session;
use link_format::Dir;
use std::alloc::Global;
use std::test::Fail;
use tick_drive::End;
use yasir_io::{NoMemory, SteadySource};
use yasir_ticks::Tick;

// Three recordings, separated by marks: a line of bytes and one of silence, then one of each, then
// two lines of bytes and one of silence.
const TEXT: &[u8] = b"+000102030405060708090a0b0c0d0e0f101112131415161718191a1b1c1d1e1f\n\
      -1000000\n\
      %\n\
      +000102030405060708090a0b0c0d0e0f101112131415161718191a1b1c1d1e1f\n\
      -1000000\n\
      %\n\
      +000102030405060708090a0b0c0d0e0f101112131415161718191a1b1c1d1e1f\n\
      +41\n\
      -1000000\n";

const FLOORS: Floors = Floors { sent: 0, got: 0 };

const TIMING: Timing = Timing {
    late: Lateness {
        late: 18,
        least: 0,
        most: 0,
    },
    spaced: false,
    sent_rest: 24,
    link_rest: 320,
    received_rest: 4,
};

/// A guard that hears every tick, and behind which nothing is read.
#[derive(Drop)]
struct Absent {
    taken: u64,
    frames: FrameList<u64>,
}

impl Guard for Absent {
    ghost reads = { λ line. [] };

    ghost stands = { λ value line. Holds value.frames [] };

    ghost taken = { λ value. value.taken };

    ghost gap_fits = { Unit {0} };

    fn new(alloc: Global) -> Result<Self, NoMemory> {
        Ok(Absent {
            taken: 0,
            frames: FrameList::new(alloc),
        })
    }

    fn hear(&mut self, _tick: Tick) -> Result<(), NoMemory> {
        self.taken += 1;
        Ok(())
    }

    fn frames(&self) -> &FrameList<u64> {
        &self.frames
    }
}

// The lists after all three recordings, with two wires as the boxes and a device that reads
// nothing.
fn listed(alloc: Global) -> Result<SessionLists<Wire, Wire, Deaf, Absent>, Fail> {
    let mut lists: SessionLists<Wire, Wire, Deaf, Absent> = SessionLists::new(
        alloc,
        &[0; 16],
        Dir::Ab,
        FLOORS,
        TIMING,
    )?;
    let mut input = SteadySource::new(TEXT);
    match list_session(&mut lists, &mut input) {
        End::Whole => Ok(lists),
        _ => Err(Fail::from("the text isn't whole")),
    }
}

// Each line of a recording goes to its box, or to the device, in one call. The silence after a
// recording goes tick by tick.
#[test]
fn a_line_of_three_costs_one_call(rt: HostRuntime) -> Result<(), Fail> {
    let lists = listed(rt.alloc())?;
    let sealer = Calls {
        bytes: 1,
        silence: 1,
        step: TIMING.sent_rest,
    };
    let checker = Calls {
        bytes: 1,
        silence: 1,
        step: TIMING.link_rest,
    };
    let device = Calls {
        bytes: 2,
        silence: 1,
        step: TIMING.received_rest,
    };
    assert_eq!(rt; lists.sealer.calls, sealer);
    assert_eq!(rt; lists.checker.calls, checker);
    assert_eq!(rt; lists.device.calls, device);
    Ok(())
}
