//! The boxes of a link as one type, and the spacers as another.
//!
//! The eight boxes of a link as one type: transmitter or receiver, for Modbus RTU or DNP3, with
//! either profile. Each has its journal in memory, and a step says what the caller must write to
//! its own disk.
//!
//! The slots come from that disk. What a step says is written and synced before its tick leaves:
//!
//!     let mut held = HeldBox::new(kind, dir, key, slot_a, slot_b)?;
//!     let step = held.step(tick)?;
//!     if let Some(commit) = step.commit {
//!         write_and_sync(commit.slot, &commit.bytes)?;
//!     }
//!     send(step.tick);
//!
//! The spacers of a live line as one type: for Modbus RTU or DNP3, and for either profile. Behind a
//! receiver a spacer is a guard: whatever the device behind it makes of bytes and silence, all that
//! the device is given is whole frames that have passed, and silence.
//!
//! A spacer behind the receiver of a Modbus RTU line, with room for four frames that wait:
//!
//!     let kind = SpacerKind { proto: Proto::Rtu, profile: Profile::Y18 };
//!     let mut spacer = HeldSpacer::new(alloc, kind, 4)?;
//!     let Some(step) = spacer.step(received) else {
//!         return Err(Full);
//!     };
//!     send_to_device(step.tick);
#![tactic(auto)]

mod any_box;
mod any_note;
mod committing;
mod defined;
mod forgetful;
mod held_box;
mod held_spacer;
mod kind;
mod laws;
mod owed;

pub use any_box::{AnyBox, AnySpacer};
pub use any_note::AnyNote;
pub use command_ends::{Profile, Proto};
pub use defined::{DefinedBox, DefinedSpacer};
pub use forgetful::ForgetfulDevice;
pub use held_box::{Full, HeldBox, HeldStep};
pub use held_spacer::HeldSpacer;
pub use kind::{Kind, Part, SpacerKind};
pub use laws::writes_keep_the_floor;
pub use owed::Commit;
