//! Captures of a serial line as pcap and pcapng files of link type 250 (RTAC serial).
//!
//! The bytes and the events of a capture:
//!
//!     let mut reader = PcapReader::new();
//!     for b in file {
//!         match reader.feed(*b)? {
//!             Some(Seen::Byte(byte)) => keep(byte),
//!             _ => {}
//!         }
//!     }
//!     reader.finish()?;
#![tactic(auto)]

mod block;
mod body;
mod fault;
mod reader;
mod stage;
mod words;
mod writer;

pub use block::{Block, Kind, Section};
pub use body::Body;
pub use fault::{BadPcap, PcapFault};
pub use line_stamps::{LineEvent, MAX_BYTES, Seen};
pub use reader::PcapReader;
pub use stage::Stage;
pub use words::{Clock, Order, Resolution};
pub use writer::{FILE_HEADER, packet_header, written_header};
