//! Laws of lines that several stations share.
#![tactic(auto)]

mod laws;

pub use laws::{
    centre_reads_what_passed, centre_reads_what_was_sealed, longer_shared_lines,
    names_without_an_entry_are_refused, one_station_is_the_box_of_one, shared_links_recover,
    stations_read_what_was_sealed, untouched_shared_link_delivers_all,
};
