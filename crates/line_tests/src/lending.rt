//! Frames that are lent: a query of Modbus RTU and the reset of a DNP3 link, by runs and by ticks.
ghost use Rattle.std.specs.Prelude.{◌+◌, ◌≤◌, length};

use device_model::hunters::*;
use device_model::*;
use yasir_ticks::Tick;

const QUERY: &[u8] = b"\x01\x03\x00\x00\x00\x0A\xC5\xCD";

// The reset, and a byte after it.
const RESET: &[u8] = b"\x05\x64\x05\xC0\x01\x00\x00\x04\xE9\x21\x00";

fn met(taken: usize, start: Option<u64>) -> Met {
    Met { taken, start }
}

// Returns whether a device that hears these bytes after a silent tick, and then nine silent ticks,
// meets this, and lends this frame in the end.
fn waits<D: Device + Drop>(bytes: &[u8], heard: Met, waited: Met, frame: &[u8]) -> bool
    requires { 2 + length bytes.now ≤ 100 }
{
    let mut device = D::fresh();
    if device.step(Tick::Silent).is_some() {
        return false;
    }
    if device.hear(bytes) != heard || device.wait(9) != waited {
        return false;
    }
    device.frame_bytes() == frame
}

#[test]
fn frames_are_lent(rt: HostRuntime) {
    assert!(rt; waits::<RtuDevice>(QUERY, met(8, None), met(4, Some(1)), QUERY));
    assert!(rt; waits::<DnpDevice>(RESET, met(10, Some(1)), met(9, None), &RESET[..10]));
}
