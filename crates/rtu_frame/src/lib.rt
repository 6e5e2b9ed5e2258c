//! Frames of Modbus RTU and their check.
//!
//! A request becomes a frame when its CRC is appended:
//!
//!     let mut request = RtuBytes::new();
//!     request.try_extend_from_slice(&[0x01, 0x03, 0x00, 0x00, 0x00, 0x0a])?;
//!     close(&mut request)?;
//!     assert_eq!(rt; request.as_slice(), b"\x01\x03\x00\x00\x00\x0a\xc5\xcd");
//!     assert!(rt; is_frame(request.as_slice()));
#![tactic(auto)]

mod closing;
mod crc;
mod frame;
pub mod laws;
mod rtu;
mod table;

pub use closing::{NoRoom, RtuBytes, close};
pub use crc::crc16;
pub use frame::{has_right_ending, is_frame};
pub use rtu::Rtu;
