//! A box at one end of a two-wire line.
#![tactic(auto)]

mod gate;
mod laws;

pub use gate::{Gate, Side, Spoken, Waits, drive, hear};
pub use laws::{
    bursts_may_be_left_out, four_wire_devices_read_what_was_sealed, gates_may_lag, gates_recover,
    gates_wait_at_first, nobody_talks_at_once, polls_are_delivered, ports_are_deaf_to_themselves,
    turns_keep_apart, two_wire_box_gives_whole_bursts, two_wire_box_is_determined,
    two_wire_devices_read_what_was_sealed,
};
