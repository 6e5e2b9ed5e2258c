//! The loop that drives a recorded input into whatever takes its ticks, proved for every consumer
//! at once.
//!
//! An input without marks goes into a consumer, followed by 24 silent ticks:
//!
//!     match drive_to_rest(0, 24, &mut input, &mut consumer) {
//!         End::Whole => {}
//!         end => return status_of(end),
//!     }
#![tactic(auto)]

mod consumer;
mod end;
mod input_loop;
mod intake;

pub use consumer::{Consumer, Stop};
pub use end::{End, TooMuch};
pub use input_loop::{MAX_INPUT_TICKS, drive, drive_to_rest, drive_with_room};
pub use intake::MAX_INPUT_BYTES;
