//! Frames of the DNP3 link layer (IEEE 1815) and their check.
//!
//! A reset of the link, from the master 1024 to the outstation 1, built and read again:
//!
//!     let reset = Header {
//!         control: 0xc0,
//!         destination: 1,
//!         source: 1024,
//!     };
//!     let frame = build(&reset, b"")?;
//!     assert_eq!(rt; frame.as_slice(), b"\x05\x64\x05\xc0\x01\x00\x00\x04\xe9\x21");
//!     let (header, user) = user_data(frame.as_slice())?;
//!     assert_eq!(rt; header, reset);
//!     assert_eq!(rt; user.len(), 0);
#![tactic(auto)]

mod building;
mod crc;
mod dnp;
mod header;
pub mod laws;
mod parsing;
mod size;
mod steps;
mod table;

pub use building::{DnpBytes, TooMuchData, build};
pub use crc::dnp_crc;
pub use dnp::Dnp;
pub use header::Header;
pub use parsing::{NotAFrame, UserBytes, user_data};
pub use size::size_of;
