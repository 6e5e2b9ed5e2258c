//! Recordings in memory: lists of their ticks, and of the frames that boxes and devices make of them.
//!
//! Several recordings in one input, each followed by a mark, kept in memory as lists of ticks.
//!
//! Two recordings in one input:
//!
//!     let mut input = SteadySource::new(b"+0102\n%\n-2\n+03\n%\n");
//!     let lists = list_ticks(alloc, 2, &mut input)?;
//!     assert_eq!(rt; lists.first(), &[Tick::Byte(1), Tick::Byte(2)]);
//!     assert_eq!(rt; lists.second(), &[Tick::Silent, Tick::Silent, Tick::Byte(3)]);
//!
//! Lists the frames of recordings. A line of a device goes through a transmitter, a link through a
//! receiver, and a line to a device. The frames that are sealed and those that pass are kept in
//! memory as lists.
//!
//! Of two recordings in one input, the frames that the device reads are kept too. Of three, which
//! come in one input or each as a list of ticks, they are compared with those that should be read:
//! the frames that have passed or, behind a spacer, those that leave it (`Guard`).
//!
//! The frames of three recordings of a session, which two marks separate in the input:
//!
//!     let mut lists = SessionLists::<S, C, RtuDevice, G>::new(alloc, &key, dir, floors, timing)?;
//!     match list_session(&mut lists, &mut input) {
//!         End::Whole => judge(lists.sealed(), lists.passed(), lists.difference()),
//!         end => refuse(end),
//!     }
#![tactic(auto)]

mod comparison;
mod expected;
mod frame_box;
mod frame_list;
mod fronts;
mod guard;
mod hearing;
mod kept;
mod lateness;
mod lines;
mod listing;
#[cfg(test)]
mod listing_tests;
mod places;
mod read_frame;
mod recordings;
mod replay_lists;
mod session_lists;
mod sessions;
mod tick_lists;

pub use comparison::Difference;
pub use frame_box::{FrameBox, FrameStep, Numbered};
pub use frame_ending::RunBytes;
pub use frame_list::FrameList;
pub use guard::Guard;
pub use lateness::Lateness;
pub use listing::list_ticks;
pub use places::is_at_its_number;
pub use read_frame::ReadFrame;
pub use recordings::{LINK_REST, list_recordings};
pub use replay_lists::{ReplayLists, hear_into, step_into};
pub use session_lists::{Floors, SessionLists, Timing};
pub use sessions::{list_lines, list_session};
pub use tick_lists::{Place, TickLists};
pub use yasir_io::NoMemory;
