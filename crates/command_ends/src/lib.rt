//! How the runs of the programs begin and end: the words of a link, key texts, statuses, exit
//! statuses and fault lines, and the text that all commands print.
//!
//! The links of the programs: the words that name a link, the identity of a link in a journal, and
//! the parts that make up a protocol and a profile.
//!
//! The link that `seal rtu24 ab` asks for, as its journal names it:
//!
//!     let (proto, profile) = read_link("rtu24")?;
//!     let link = link_of(proto, profile, read_dir("ab")?);
//!     assert_eq!(rt; (link.label, link.dir, link.profile), (1, 0, 24));
//!
//! The text of a key, as it is written in a file.
//!
//!     let mut source = SteadySource::new(b"000102030405060708090a0b0c0d0e0f\n");
//!     let key = read_key(&mut source)?;
//!     assert_eq!(rt; key.len(), 16);
//!
//! How a run of the program begins and ends: its words, its status, the exit status and the fault
//! line of each status, and what all commands use to print text.
//!
//! A command that prints one line, and the end of its run:
//!
//!     let status = print_text(b"link_replay 0.7.0\n", &mut out, &mut log);
//!     let line = fault_line(&Reasons::of(&key, &input, &disk), &status);
//!     write_fault_line(&mut log, line.as_slice());
//!     ExitCode::from(status.exit_status())
#![tactic(auto)]

mod ending;
mod ends;
mod fault_log;
mod frame_line;
mod given;
mod key_text;
mod link;
mod reasons;
mod status;
mod text;
mod waiting;

pub use ending::{flush_both, print_text, status_of};
pub use ends::Ends;
pub use fault_log::{fault_line, write_fault_line};
pub use frame_line::{LINE_ROOM, push_read_line, write_frame_line};
pub use given::{NOT_GIVEN, take_places, words_after_name};
pub use key_text::{Key, KeyError, read_key};
pub use link::{Profile, Proto, Usage, link_of, link_word, read_dir, read_link, read_proto};
pub use reasons::Reasons;
pub use status::{Status, Unclean};
pub use text::{Line, push_decimal};
pub use waiting::{append_decimal, append_digits};
