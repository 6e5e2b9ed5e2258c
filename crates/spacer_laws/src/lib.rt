//! Laws of the spacer's definitions, for each line, whatever is on it: what a spaced line carries,
//! and what a device reads from it.
//!
//! Each law is the contract of a function that does nothing. `specs/` has the statements, over
//! whole lines.
//!
//! A function whose proof needs a law calls the law's function. The call does nothing when it runs,
//! and from then on the clause is a fact in the proof:
//!
//!     only_sealed_frames_are_given();
#![tactic(auto)]

mod guard_laws;
mod laws;

pub use guard_laws::{
    only_sealed_frames_are_given, only_sealed_hunted_frames_are_given, untouched_link_gives_all,
    untouched_link_gives_all_hunted,
};
pub use laws::{
    accepted_frames_leave, frames_are_spaced, hunted_accepted_frames_leave,
    hunted_frames_are_spaced, spaced_frames_are_sealed,
};
