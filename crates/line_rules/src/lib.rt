//! The rules of a protocol's frames on a serial line: what the transmitter and the receiver ask of
//! a protocol.
//!
//! The rules see a burst byte by byte, and say whether it is a frame so far. `FourBytes` is the
//! smallest example:
//!
//!     let mut burst = FourBytes::fresh();
//!     for byte in [1, 2, 3, 0] {
//!         burst.take(byte);
//!     }
//!     assert!(rt; burst.good());
//!
//! What leaves for a burst whose frame is refused: its bytes, with an ending that makes sure that
//! they aren't a frame.
//!
//! Three bytes leave as they are. The last one of a refused frame leaves spoiled:
//!
//!     let mut outlet = Outlet::<FourBytes>::new();
//!     let mut all = FourBytes::fresh();
//!     outlet.begin();
//!     for byte in [1, 2, 3] {
//!         all.take(byte);
//!         assert_eq!(rt; outlet.emit(byte, false, false), byte);
//!     }
//!     all.take(0);
//!     outlet.refuse(all);
//!     assert_eq!(rt; outlet.emit(0, true, false), 1);
#![tactic(auto)]

mod crc_bits;
mod crc_table;
mod crc_tables;
mod four_bytes;
mod head;
mod line_rules;
mod outlet;

pub use crc_bits::crc_by_bits;
pub use crc_table::CrcTable;
pub use crc_tables::{CrcTables, crc_at_once, crc_by_tables, step_by_table};
pub use four_bytes::FourBytes;
pub use head::Head;
pub use line_rules::LineRules;
pub use outlet::Outlet;
