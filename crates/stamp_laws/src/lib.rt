//! Laws about what devices read from the line of a capture.
//!
//! A function whose proof needs a law calls the law's function. The call does nothing when it runs,
//! and the clause is a fact of the proof from then on:
//!
//!     times_tell_what_is_read();
#![tactic(auto)]

mod device_laws;

pub use device_laws::{
    bytes_tell_what_hunters_read, records_tell_what_is_read, times_tell_what_is_read,
};
