//! Tests of streams, files, disks and journals.
//!
//! They are a crate of their own, since a crate with tests is proved twice.
#![tactic(auto)]

#[cfg(test)]
mod files;
#[cfg(test)]
mod journals;
#[cfg(test)]
mod late_journals;
#[cfg(test)]
mod one_file;
#[cfg(test)]
mod streams;
