//! A box on a live line. Tick text comes in pieces. What the box makes of the lines that have ended
//! leaves before the next read: first its numbers go to the journal, then the notes leave, and then
//! the other line.
//!
//!     let of = LiveLink { link, dir, rest: CHECK_REST };
//!     let status = live_line::<Checker<Rtu, HmacSha1, 2, 18>, _, _, _>(
//!         &of, &mut key, &mut port, &mut disk,
//!     );
#![tactic(auto)]

mod ahead_lines;
mod command;
mod filter;
mod live_box;
mod over_ends;

pub use ahead_lines::AheadLines;
pub use command::{LiveLink, live_line};
pub use filter::{hand_on_all, take_run};
pub use live_box::{LiveBox, MAX_LIVE_BYTES, MAX_LIVE_TICKS, run_of};
pub use over_ends::live_over;
