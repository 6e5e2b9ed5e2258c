//! The receiver: it sends on the live bytes of each burst that it doesn't drop, a fixed number of
//! ticks later. A burst may begin to leave before its verdict is known, and the ending of a burst
//! that is refused is spoiled.
//!
//! For Modbus RTU with the profile y18, whose delay is 18 ticks:
//!
//!     let mut checker: Checker<Rtu, HmacSha1, 2, 18> = Checker::new(&key, Dir::Ab);
//!     let mut journal = Journal::load(&mut disk, &link)?;
//!     let step = checker.step(tick, &mut journal, &mut disk)?;
//!     send_to_device(step.tick);
#![tactic(auto)]

mod arriving;
mod boxed;
mod checker;
mod laws;
mod phase;
mod runs;

pub use checker::Checker;
pub use frame_ending::{BoxStep, RunBytes};
pub use laws::steps_are_of_an_uptime;
pub use link_box::{CheckNote, DroppedWhy, RefusedWhy};
pub use link_format::Dir;
