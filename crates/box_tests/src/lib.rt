//! Tests of boxes of links that the program doesn't have, of a box of any kind, and of the audit.
//!
//! They are proved apart from the crates that they test, since a crate with tests is proved twice.
#![tactic(auto)]

#[cfg(test)]
mod audits;
#[cfg(test)]
mod held_boxes;
#[cfg(test)]
mod third_links;
#[cfg(test)]
mod third_rules;
