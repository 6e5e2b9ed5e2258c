//! The transmitter: it forwards the bursts of a device and seals those that are frames, each with a
//! number and a tag.
//!
//! For Modbus RTU with the profile y18 (two bytes of number, and HMAC-SHA-1):
//!
//!     let mut sealer: Sealer<Rtu, HmacSha1, 2> = Sealer::new(&key, Dir::Ab);
//!     let mut journal = Journal::load(&mut disk, &link)?;
//!     let step = sealer.step(tick, &mut journal, &mut disk)?;
//!     send_to_link(step.tick);
#![tactic(auto)]

mod boxed;
mod laws;
mod sealer;
mod silence;

pub use frame_ending::{BoxStep, RunBytes};
pub use laws::{longer_lines, steps_are_of_an_uptime};
pub use link_box::{SealNote, UnsealedWhy};
pub use link_format::Dir;
pub use sealer::Sealer;
