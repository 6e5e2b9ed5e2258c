//! Tests of captures, of texts on their way to two sinks, and of the texts of keys and links.
//!
//! They are a crate of their own, since a crate with tests is proved twice.
#![tactic(auto)]

#[cfg(test)]
mod dumps;
#[cfg(test)]
mod keys;
#[cfg(test)]
mod link_words;
#[cfg(test)]
mod pcap;
#[cfg(test)]
mod row_texts;
#[cfg(test)]
mod stamped_frames;
#[cfg(test)]
mod stamps;
#[cfg(test)]
mod texts;
#[cfg(test)]
mod written_texts;
