//! The box of a control centre on a line that several stations share. Each station has a key and a
//! counter of its own, and the station that a frame names chooses them.
//!
//! A transmitter over the stations of a table, for Modbus RTU and the profile y18:
//!
//!     check_names(&stations)?;
//!     let mut sealer: StationSealer<Rtu, HmacSha1, 2> =
//!         StationSealer::new(Naming::FirstByte, Dir::Ab);
//!     let step = sealer.step(tick, &mut stations)?;
//!     send_to_link(step.tick);
//!
//! A receiver over the stations of another table, whose journals are those of the other direction.
//! It serves protocols whose frames name their station in the first byte, as Modbus RTU:
//!
//!     let mut checker: StationChecker<Rtu, HmacSha1, 2, 18> = StationChecker::new(Dir::Ba);
//!     let step = checker.step(tick, &mut heard_stations)?;
//!     send_to_centre(step.tick);
//!
//! The caller keeps the stations, an array of as many as it has, and the boxes take no memory.
#![tactic(auto)]

mod check_note;
mod checker;
mod names;
mod naming;
mod note;
mod sealer;
mod station;

pub use check_note::{RefusedStationWhy, StationCheckNote};
pub use checker::StationChecker;
pub use frame_ending::BoxStep;
pub use link_box::DroppedWhy;
pub use link_format::Dir;
pub use names::{NamedTwice, check_names};
pub use naming::Naming;
pub use note::{StationNote, UnsealedStationWhy};
pub use sealer::StationSealer;
pub use station::{Station, StationKey};
