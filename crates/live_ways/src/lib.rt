//! The command of a live line of two ways: one stream of both comes in and one goes out, what is
//! decided of each way is written to one log, and each way has a journal on a disk of its own.
#![tactic(auto)]

mod both_disks;
mod both_ways;
mod command;
mod line_status;
mod loads;
mod rests;
mod way_end;
mod way_reader;

pub use both_disks::BothDisks;
pub use both_ways::LiveLine;
pub use command::line_over;
pub use line_status::Ended;
pub use loads::LineLinks;
pub use rests::Rests;
pub use way_end::{WayEnd, WayFault};
pub use way_reader::WayReader;
