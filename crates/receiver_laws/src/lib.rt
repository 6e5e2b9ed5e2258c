//! Laws of the receiver's definitions, for each link, whatever is on it: what a device behind the
//! receiver reads from its line, what passes, what an untouched link delivers, and how the notes,
//! the passed frames and the line go on when the link does.
//!
//! Each law is the contract of a function that does nothing. `specs/` has the statements, over
//! whole lines, and `proofs/` shows how they follow from the walk over the bursts of the link.
//!
//! A function whose proof needs a law calls the law's function. The call does nothing when it runs,
//! and from then on the clause is a fact in the proof:
//!
//!     untouched_link_delivers_all::<Rtu>();
#![tactic(auto)]

mod all_left;
mod hunting_laws;
mod laws;
mod profiles;
mod recovery;
mod reflection;
mod untouched;
mod uptime_laws;

pub use all_left::{all_leaves_in_time, recorded_line_reads_all_that_passed};
pub use hunting_laws::{
    hunting_device_reads_sealed_over_uptimes, hunting_device_reads_what_passed,
    hunting_device_reads_what_was_sealed,
};
pub use laws::{
    device_reads_what_passed, device_reads_what_was_sealed, longer_links,
    passed_frames_are_accounted_for, passed_frames_stand_on_the_link, whole_packets_pass,
};
pub use profiles::stated_profiles_are_fit;
pub use recovery::{lacking_bytes_are_bounded, untouched_link_recovers};
pub use reflection::reflected_links_pass_nothing;
pub use untouched::untouched_link_delivers_all;
pub use uptime_laws::{device_reads_what_was_sealed_over_uptimes, uptimes_are_accounted_for};
