//! Ticks of a serial line, and tick text: the recorded line that a program reads.
//!
//! A text is read byte by byte. When a line ends, it is returned as a run of ticks:
//!
//!     let mut reader = TickReader::new(0);
//!     for byte in b"+0103\n" {
//!         match reader.feed(*byte)? {
//!             Run::Bytes(bytes) => assert_eq!(rt; bytes.as_slice(), &[1, 3]),
//!             _ => {}
//!         }
//!     }
//!
//! Ticks that leave a fixed number of ticks late.
//!
//!     let mut ring = DelayRing::<3>::new();
//!     for byte in 1..4u8 {
//!         assert_eq!(rt; ring.turn(Tick::Byte(byte)), Tick::Silent);
//!     }
//!     assert_eq!(rt; ring.turn(Tick::Byte(4)), Tick::Byte(1));
#![tactic(auto)]

mod delay_ring;
mod fault;
mod hex_digits;
mod lanes;
mod laws;
mod line_room;
pub mod mark_runs;
mod place;
mod reader;
mod run;
mod tick;
mod tick_run;
mod whole_lines;

pub use delay_ring::{DelayRing, MAX_DELAY, MAX_RUN};
pub use fault::{BadTicks, TickFault};
pub use hex_digits::{digits_of, push_digits};
pub use laws::canonical_text_stands_for_its_ticks;
pub use place::Content;
pub use reader::TickReader;
pub use run::{LineBytes, Run};
pub use tick::Tick;
pub use tick_run::TickRun;
pub use whole_lines::{FedLine, UsualLine};

/// The most ticks that may be given to anything that counts its ticks: 2^62.
pub const MAX_TICKS: u64 = 4_611_686_018_427_387_904;

/// How many silent ticks between two bytes end a burst: 3.5 character times, t3.5 of Modbus over
/// Serial Line V1.02, in whole ticks.
pub const T3_5_TICKS: u8 = 4;

/// How many silent ticks between two bytes of a burst keep it from being a frame: more than 1.5
/// character times, t1.5 of Modbus over Serial Line V1.02, in whole ticks.
pub const T1_5_TICKS: u8 = 2;
