//! Tables of known answers, which compare what the definitions of this repository give with the
//! values of public standards.
//!
//!     let (rows, answer) = crc_table();
//!     assert_eq!(rt; (rows, answer), (4, Ok(())));
#![tactic(auto)]

mod frame;
mod table;

pub use table::{
    Case, CaseBytes, CaseKind, Miss, crc_table, frames_table, hmac_table, run_table,
    user_data_of_frames, user_table,
};
