//! Times and ticks of captures, and readers that take a format byte by byte.
//!
//! Times of a capture, and the ticks of a line that they represent.
//!
//! Times are exact: a nanosecond has as many parts as the rate has baud, so that a character of 11
//! bits has 11,000,000,000 parts at each rate.
//!
//! The silence before a byte of a capture, in ticks:
//!
//!     if let Some(rate) = Rate::read("9600x11") {
//!         let mut placer = Placer::new(Timing { rate, spacing: Spacing::ByTime, origin: 0 });
//!         let silent_ticks = placer.place(byte)?;
//!     }
//!
//! Readers that take a format byte by byte: where such a reader gets to over a whole list of bytes,
//! what it gives, and what must be shown for it to read a format exactly.
//!
//! `walks_in_pieces` is a law, for places, items and faults that are numbers. A function whose
//! proof needs the law calls it. The call does nothing when it runs:
//!
//!     walks_in_pieces();
#![tactic(auto)]

mod byte_walk;
mod capture;
mod capture_reader;
mod giving;
mod laws;
mod placer;
mod rate;
mod rate_word;
mod rounding;
mod seen;
mod timing;

pub use byte_walk::walks_in_pieces;
pub use capture::{CaptureByte, Way};
pub use capture_reader::CaptureReader;
pub use giving::tick_start;
pub use laws::{
    bytes_stand_in_their_ticks, records_are_parted, same_bytes_in_the_same_order,
    silences_keep_their_edges, ticks_keep_to_the_times, what_was_given_is_taken,
};
pub use placer::{Placer, Unplaced};
pub use rate::Rate;
pub use rounding::{nearest, ticks_between};
pub use seen::{LineEvent, Seen};
pub use timing::{Spacing, Timing};

/// Drift between ticks and times is taken up only in silences of more ticks than this, and none of
/// them becomes shorter than this.
pub const DRIFT_SILENCE: u64 = 320;

/// The limit of times, in parts after the origin, and of ticks: 2^62. Both the time and the tick of
/// each byte that is placed are below it. As a time it is 11 hours at 115,200 baud, and at least
/// 419,244,183 characters at each rate.
pub const TIME_LIMIT: u64 = 4_611_686_018_427_387_904;

/// The greatest number of bytes that a reader takes of a capture: 2^62.
pub const MAX_BYTES: u64 = 4_611_686_018_427_387_904;
