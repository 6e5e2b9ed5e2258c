//! A box at one end of a two-wire line: each of its two ports shares one pair of wires with others.
//!
//!     let mut end = TwoWire::new(key, Dir::Ab, Side::Answers, Waits { window: 200, pause: 30 });
//!     loop {
//!         let (device, link) = (end.device_tick(), end.link_tick());
//!         // drives the wires with these, if they are bytes, and reads what is on them meanwhile
//!         let (device_wires, link_wires) = exchange(device, link);
//!         end.step(device_wires, link_wires, &mut sent, &mut sent_disk, &mut got, &mut got_disk)?;
//!     }
#![tactic(auto)]

mod end_box;
mod laws;
mod steady_end;

pub use end_box::TwoWire;
pub use laws::{steady_ends_make_the_wires, steps_make_the_wires};
pub use steady_end::SteadyEnd;
