//! The command `two_wire`: a two-wire box over two recordings, one of the wires to its device and one
//! of the wires of the link.
//!
//!     let end = WireEnd { outgoing: Dir::Ba, side: Side::Asks, waits };
//!     let recorded = record_wires::<S, C, _>(alloc, &key, end, &mut input)?;
//!     let status = print_both(&recorded, &mut out, &mut log);
#![tactic(auto)]

mod heard;
mod recording;
mod tick_lines;
mod wire_box;
mod wire_lines;

pub use recording::record_wires;
pub use wire_lines::WireEnd;
