//! The devices at the end of a serial line.
//!
//! A device takes a line tick by tick, and lends a frame in the step in which it reads it:
//!
//!     let mut device = RtuDevice::fresh();
//!     for tick in &line {
//!         if let Some(start) = device.step(*tick) {
//!             print(start, device.frame_bytes());
//!         }
//!     }
#![tactic(auto)]

mod device;
mod hunted;
pub mod hunters;
mod hunting;
mod hunting_family;
mod laws;
mod rtu;
mod rtu_family;
mod run;
mod silence;

pub use device::{Device, Met};
pub use hunted::Hunted;
pub use hunting::HuntingDevice;
pub use hunting_family::HuntingFamily;
pub use laws::{forwarded_frames_are_read, hunts_by_cases, stated_devices_are_members};
pub use rtu::RtuDevice;
pub use rtu_family::RtuFamily;
pub use run::hear_run;
