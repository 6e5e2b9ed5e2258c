//! A live line of two ways in one stream of text. Each line begins with the letter of its way: `>`
//! from the device to the link, or `<` from the link to the device. What is made of both ways goes
//! out through one port, for each way the notes first.
//!
//! The bytes of a stream that are of each way:
//!
//!     let of = ways.next(byte)?;
//!
//! One way: its box takes ticks, and what it makes of them waits until it is handed on.
//!
//!     let mut lines = WayLines::new(GuardedBox::new(alloc, key, Dir::Ba, &journal)?, journal, 0);
//!     lines.take(tick);
//!     lines.hand_on(Way::Incoming, &mut port, &mut disk)?;
#![tactic(auto)]

mod ended_notes;
mod guarded_box;
mod lettered;
mod plain_box;
mod receiving;
mod sending;
mod way_box;
mod way_lines;
mod ways;

pub use guarded_box::{GuardedBox, guarded_answers};
pub use lettered::{Lettering, WayText};
pub use plain_box::PlainBox;
pub use receiving::read_ways;
pub use sending::{hand_on_way, handed_ways_are_in_order, send_way};
pub use way_box::{EndedNotes, WayBox};
pub use way_lines::WayLines;
pub use ways::{BadWay, Way, Ways};
