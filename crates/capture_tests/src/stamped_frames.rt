//! What the Modbus RTU device reads of small captures, at 1,000 baud and 10 bits, where a character
//! is 10 ms. A test also calls each law.

ghost use Rattle.std.specs.Prelude.{◌<◌, length};

use device_model::{Device, RtuDevice};
use line_stamps::{CaptureByte, Placer, Rate, Spacing, Timing, Way};
use stamp_laws::*;
use std::alloc::{AllocError, Global};
use std::test::Fail;
use yasir_ticks::Tick;

// a request to read ten registers
const REQUEST: &[u8] = b"\x01\x03\x00\x00\x00\x0A\xC5\xCD";

// Returns the ticks of a capture that has this request at each of these times, in microseconds, and
// four silent ticks after them.
fn ticks_of(alloc: Global, spacing: Spacing, times: &[u64]) -> Result<Vec<Tick>, Fail> {
    let rate = Rate::read("1000x10").ok_or("no rate")?;
    let mut placer = Placer::new(Timing {
        rate,
        spacing,
        origin: 0,
    });
    let mut line = Vec::new(alloc);
    for time in times {
        for (at, byte) in REQUEST.iter().enumerate() {
            let silence = placer.place(CaptureByte {
                way: Way::A,
                start: time.saturating_mul(1000),
                first: at == 0,
                byte: *byte,
            });
            let Ok(silence) = silence else {
                return Err("not placed".into());
            };
            for _ in 0..silence {
                line.push(Tick::Silent)?;
            }
            line.push(Tick::Byte(*byte))?;
        }
    }
    for _ in 0..4 {
        line.push(Tick::Silent)?;
    }
    Ok(line)
}

// Returns the ticks in which the frames begin that the device reads of this line.
fn starts_of(alloc: Global, line: &[Tick]) -> Result<Vec<u64>, AllocError>
    requires { length line.now < 1000 }
{
    let mut device = RtuDevice::fresh();
    let mut starts = Vec::new(alloc);
    for tick in line {
        if let Some(start) = device.step(*tick) {
            starts.push(start)?;
        }
    }
    Ok(starts)
}

fn read_starts(alloc: Global, spacing: Spacing, times: &[u64]) -> Result<Vec<u64>, Fail> {
    let line = ticks_of(alloc, spacing, times)?;
    if line.len() >= 1000 {
        return Err("a long line".into());
    }
    Ok(starts_of(alloc, line.as_slice())?)
}

#[test]
fn frames_of_captures(rt: HostRuntime) -> Result<(), Fail> {
    let alloc = rt.alloc();
    // the first request ends after 80 ms, and 3.5 characters are 35 ms
    let starts = read_starts(alloc, Spacing::ByTime, &[0, 115_000])?;
    assert_eq!(rt; starts.as_slice(), [0, 12].as_slice());
    let starts = read_starts(alloc, Spacing::ByTime, &[0, 114_999])?;
    assert_eq!(rt; starts.len(), 0);
    // records that overlap
    let starts = read_starts(alloc, Spacing::ByRecord, &[0, 60_000])?;
    assert_eq!(rt; starts.as_slice(), [0, 12].as_slice());
    Ok(())
}

#[test]
fn laws() {
    times_tell_what_is_read();
    records_tell_what_is_read();
    bytes_tell_what_hunters_read();
}
