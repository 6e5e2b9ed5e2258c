//! The spacer: a box that takes in whole frames from a line, queues them, and sends them on another
//! line with silence between them.
//!
//! A spacer that hears a Modbus RTU line, with a gap of 21 ticks and room for 64 frames that wait:
//!
//!     let mut spacer: Spacer<RtuDevice, 21> = Spacer::new(alloc, 64)?;
//!     let step = spacer.step(tick);
//!     send(step.tick);
#![tactic(auto)]

mod frame_queue;
mod spacer;

pub use spacer::{SpaceRun, SpaceStep, Spacer};
