//! The verdict on a session, and the frames of recordings: the commands `audit` and `replay`.
//!
//! An audit of a session that has ended, by three recordings of it: which frames were sealed, which
//! passed, and what a device read.
//!
//! The transmitter and the receiver are run anew, as boxes that show the frames that they number. A
//! box itself doesn't show the bytes of a frame, so the bytes of the running or last burst are kept
//! beside it. These boxes are in this crate so that the commands that show frames can use them too.
//!
//! The verdict on a session of Modbus RTU with the profile y18, whose boxes had new journals:
//!
//!     let session = Session {
//!         proto: Proto::Rtu, profile: Profile::Y18, dir: Dir::Ab, key: &key, sent_floor: 0,
//!         got_floor: 0, tolerance: Tolerance::exact(),
//!     };
//!     match audit(alloc, &session, &device, &link, &received)?.finding {
//!         Finding::Clean => {}
//!         Finding::Empty => ask_for_other_recordings(),
//!         Finding::Forged { number, start } => alarm(number, start),
//!         Finding::Differs(difference) => alarm_at(difference.place),
//!     }
//!
//! Prints the frames of two recordings, a line of a device and a link: a line of text for each
//! frame that is sealed from the device's line, for each that passes from the link, for each that a
//! device reads from what passes, and for each that has passed and was never sealed with its
//! number.
//!
//! A box shows its frames as `ShownFrames`, of `session_audit`. `S` and `C` are such boxes:
//!
//!     let status = replay_recordings::<S, C, RtuDevice, _, _, _, _, _>(alloc, Dir::Ab, 24, ends);
#![tactic(auto)]

mod burst_bytes;
mod check_noting;
mod command;
mod frame_room;
mod groups;
mod judged_lists;
mod judging;
mod laws;
mod lines;
mod link_boxes;
mod noting_box;
mod over_input;
mod over_recordings;
mod printing;
mod seal_noting;
mod sealed_frames;
mod session;
mod shown_frames;
mod spaced_reads;
mod steady_disk;
mod unlisted;
mod untagged;
mod verdict;

pub use burst_bytes::BurstBytes;
pub use command::replay_recordings;
pub use laws::{
    clean_recordings_have_only_sealed_frames, frames_in_time_never_differ,
    own_line_of_a_receiver_never_differs,
};
pub use link_format::Dir;
pub use noting_box::NotingBox;
pub use over_input::audit_input;
pub use over_recordings::audit;
pub use sealed_frames::SealedFrames;
pub use session::{Session, Tolerance};
pub use session_lists::{Difference, NoMemory, ReadFrame};
pub use shown_frames::ShownFrames;
pub use spaced_reads::SpacedReads;
pub use steady_disk::SteadyDisk;
pub use verdict::{Counts, Finding, Verdict};
