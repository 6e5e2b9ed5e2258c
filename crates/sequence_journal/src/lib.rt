//! Numbers that outlive a crash: a box keeps the last number that it used in one of the two slots
//! of a disk, and each slot names the box's link.
//!
//! A new journal of a link, and the first number that is used on it:
//!
//!     let link = LinkId { label: 1, dir: 0, profile: 18 };
//!     let mut journal = Journal::init(&mut disk, &link)?;
//!     let number = journal.floor() + 1;
//!     journal.commit(&mut disk, number)?;
//!     assert_eq!(rt; journal.floor(), 1);
//!
//! The number is used after the commit, and not before.
#![tactic(auto)]

mod ahead;
mod journal;
mod late;
pub mod laws;
mod link;
mod no_slots;
mod numbers;
mod slots;

pub use ahead::AheadJournal;
pub use journal::{InitError, Journal, JournalFault, LoadError};
pub use late::LateJournal;
pub use link::LinkId;
pub use no_slots::NoSlots;
pub use numbers::{
    LIMIT, full_number, full_number_wide, full_with, link_in, number_in, number_in_old, slot_of,
};
