//! The commands over one line, `read`, `space`, `seal`, `check` and `duplex`, and the outside of a
//! live line.
//!
//! A device that reads a recorded line, and a line of text for each frame that it reads.
//!
//!     let status = read_frames::<RtuDevice, _, _, _>(&mut input, &mut out, &mut log);
//!
//! A spacer over a recorded line: the text of the spaced line, and a line of text for each frame
//! that is lost.
//!
//!     let status = space_frames::<Spacer<RtuDevice, 21>, _, _, _>(
//!         alloc, &mut input, &mut out, &mut log,
//!     );
//!
//! The outside of a live line: an input and two outputs as one object, what is handed on to the
//! outputs, and a reader of the lines that come in.
//!
//! Notes are handed on before the ticks into which they fall:
//!
//!     let mut port = Streams { input, out, log };
//!     let count = read_on(&mut port, &mut buffer)?;
//!     let found = lines.feed(&buffer[..count])?;
//!     hand_on(&mut port, notes, text)?;
//!
//! The commands `seal` and `check`: a recorded line goes through a box. The other line goes out as
//! text, and a line of text for each note goes to the log.
//!
//! The command `seal rtu ab`, with 24 silent ticks after the input:
//!
//!     let link = LinkId { label: 1, dir: 0, profile: 18 };
//!     let status = replay_box::<Sealer<Rtu, HmacSha1, 2>, _, _, _, _, _>(
//!         &link, Dir::Ab, 24, ends,
//!     );
#![tactic(auto)]

mod both_boxes;
mod box_lines;
mod check_lines;
mod command;
#[cfg(test)]
mod counted_box;
mod driven_box;
mod frame_lines;
mod kept_box;
mod laws;
mod line_box;
mod line_rest;
mod lines;
mod memory_text;
mod note_lines;
mod note_order;
mod noted_steps;
mod port;
mod read_command;
mod receiving;
mod recording;
mod run_end;
mod seal_lines;
mod sending;
mod space_command;
mod spaced_lines;
mod spacers;
mod streams;

pub use box_lines::BoxLines;
pub use command::replay_box;
pub use laws::runs_are_uptimes;
pub use line_box::LineBox;
pub use line_rest::{CHECK_REST, SEAL_REST};
pub use lines::{LineReader, ReadBytes};
pub use memory_text::MemoryText;
pub use note_lines::{NoteLine, placed_line};
pub use port::{Output, Port};
pub use read_command::read_frames;
pub use receiving::{handed_lines_are_in_order, read_on};
pub use recording::{Recorded, print_both, record_both};
pub use sending::{hand_on, send};
pub use space_command::space_frames;
pub use spacers::LineSpacer;
pub use streams::Streams;
