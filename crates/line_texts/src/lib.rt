//! The two texts that are made of a line, on their way to two sinks: another line as canonical tick
//! text, and a line of text for each note. No byte of the ticks goes out before the notes that fall
//! into those ticks.
//!
//! A run of bytes and one of silence, as tick text:
//!
//!     let mut texts = Texts::new();
//!     texts.add_run(TickRun::Bytes(&[0, 171]));
//!     if !texts.has_room() {
//!         texts.hand_out(&mut out, &mut log)?;
//!     }
//!     texts.add_run(TickRun::Silence(90));
//!     texts.finish(&mut out, &mut log)?;
//!     assert_eq!(rt; out.held(), b"+00ab\n-90\n");
#![tactic(auto)]

mod adding;
mod line_room;
mod line_writer;
mod runs;
mod texts;

pub use runs::{answer_run, short_front};
pub use texts::Texts;
