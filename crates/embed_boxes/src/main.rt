//! `embed_boxes`: an example of both boxes inside another program, which gives them one tick at a
//! time and uses no file. This is what to copy into the firmware of a gateway:
//!
//!     let mut sealer: Sealer<Rtu, HmacSha1, 2> = Sealer::new(&key, Dir::Ab);
//!     let step = sealer.step(tick, &mut journal, &mut disk)?;
//!
//! The program carries one request over a link that nobody touches. It prints the line of the
//! device that sends, the link, and the line that the other device gets. A byte is printed as two
//! hex digits, and a silent tick as a point.
#![tactic(auto)]

mod carrying;

pub use carrying::{Carried, NotCarried, carry};
use std::alloc::{AllocError, Global};
use std::io;
use std::process::ExitCode;
use yasir_ticks::Tick;

/// The key of the examples. A real box must have a secret one.
const KEY: [u8; 16] = [0, 1, 2, 3, 4, 5, 6, 7, 8, 9, 10, 11, 12, 13, 14, 15];

/// A request of Modbus RTU: read ten registers of device 1.
const REQUEST: [u8; 8] = [0x01, 0x03, 0x00, 0x00, 0x00, 0x0a, 0xc5, 0xcd];

/// How many silent ticks follow the request: as many as the transmitter and the receiver need.
const REST: usize = 36;

const DIGITS: &[u8; 16] = b"0123456789abcdef";

// Returns the line of the device that sends.
fn device_line(alloc: Global) -> Result<Vec<Tick>, AllocError> {
    let mut line = Vec::new(alloc);
    for byte in &REQUEST {
        line.push(Tick::Byte(*byte))?;
    }
    for _ in 0..REST {
        line.push(Tick::Silent)?;
    }
    Ok(line)
}

// Returns the text of a line.
fn text_of(alloc: Global, line: &[Tick]) -> Result<String, AllocError> {
    let mut text = String::new(alloc);
    for tick in line {
        match tick {
            Tick::Byte(byte) => {
                text.push(DIGITS[usize::from(*byte / 16)] as char)?;
                text.push(DIGITS[usize::from(*byte % 16)] as char)?;
            }
            Tick::Silent => text.push('.')?,
        }
    }
    Ok(text)
}

// Prints the three lines.
fn print_carried(rt: &HostRuntime) -> io::Result<()> {
    let line = device_line(rt.alloc())?;
    let Ok(carried) = carry(rt.alloc(), &KEY, line.as_slice()) else {
        return Err(io::ErrorKind::Other.into());
    };
    println!(rt; "device   {}", text_of(rt.alloc(), line.as_slice())?)?;
    println!(rt;
        "link     {}",
        text_of(rt.alloc(), carried.link.as_slice())?
    )?;
    println!(rt;
        "received {}",
        text_of(rt.alloc(), carried.received.as_slice())?
    )
}

fn main(rt: HostRuntime) -> ExitCode {
    match print_carried(&rt) {
        Ok(()) => ExitCode::SUCCESS,
        Err(_) => ExitCode::FAILURE,
    }
}
