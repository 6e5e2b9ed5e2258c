//! Laws of two-wire boxes: several devices on one pair of wires, and polls after any session.
#![tactic(auto)]

mod laws;

pub use laws::{
    polls_are_delivered_again, rested_boxes_go_on, several_devices_read_what_was_sealed,
};
