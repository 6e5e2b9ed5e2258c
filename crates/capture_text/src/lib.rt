//! Captures as text: records of bytes, what logic analysers export, and dumps that they can read.
//!
//! Captures as text: a line for each record, with its time in seconds and its bytes in hex digits.
//!
//! The bytes of a capture, each with the time of its record:
//!
//!     let mut reader = TextReader::new();
//!     for b in text {
//!         if let Some(byte) = reader.feed(*b)? {
//!             keep(byte);
//!         }
//!     }
//!     reader.finish()?;
//!
//! Captures in rows of text, as other tools export them: the table that Saleae Logic 2 exports from
//! its Async Serial analyzers, and the trace that sigrok-cli writes from its UART decoder.
//!
//! What a table says, each byte and each error with its way and its time:
//!
//!     let mut reader = Logic2Reader::start();
//!     for b in table {
//!         if let Some(seen) = reader.feed(*b)? {
//!             keep(seen);
//!         }
//!     }
//!     reader.finish()?;
//!
//! A line as a value change dump (VCD): the levels of its wires, bit by bit, for tools that decode
//! a serial line from them.
//!
//! `dump(alloc, rate, a, b)?` returns the whole dump of the two ways of a line. A `DumpWriter`
//! writes it tick by tick:
//!
//!     let mut writer = DumpWriter::new(rate, Wires::Two);
//!     out.extend_from_slice(writer.front())?;
//!     for (a, b) in ticks {
//!         out.extend_from_slice(writer.tick(a, b).as_slice())?;
//!     }
//!     out.extend_from_slice(writer.end().as_slice())?;
#![tactic(auto)]

mod changes;
mod cut;
mod decimal;
mod digits;
mod dump_writer;
mod fault;
mod laws;
mod levels;
mod lines;
mod logic2;
mod names;
mod place;
mod reader;
mod row;
mod row_fault;
mod row_reader;
mod sigrok;
mod text;
mod writer;

pub use changes::{BothLevels, Change, TickText, bit_start};
pub use digits::{hex_value, is_digit};
pub use dump_writer::DumpWriter;
pub use fault::{BadText, TextFault};
pub use laws::{levels_give_the_tick, looks_give_the_levels};
pub use levels::{Levels, tick_levels};
pub use line_stamps::MAX_BYTES;
pub use lines::dump;
pub use logic2::Logic2;
pub use reader::TextReader;
pub use row::{Row, RowForm, RowItem, Stage, What};
pub use row_fault::{BadRow, RowFault};
pub use row_reader::RowReader;
pub use sigrok::Sigrok;
pub use text::{ChangeText, Wires, change_text};
pub use writer::{LineFront, line_front};

/// A reader of the table that Logic 2 exports.
pub type Logic2Reader = RowReader<Logic2>;

/// A reader of the trace that sigrok-cli writes.
pub type SigrokReader = RowReader<Sigrok>;

/// The most bytes that a line of a table or a trace has, its LF not counted.
pub const MAX_LINE: usize = 255;

/// The most bytes that the name of a channel has.
pub const MAX_NAME: usize = 64;

/// The most ticks that a dump has: 2^24.
pub const MAX_TICKS: u32 = 16_777_216;
