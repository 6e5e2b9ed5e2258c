//! Tests of what lies below the boxes and beside them: tick text, CRCs, frames, tags, the ring of a
//! delay, bursts, models of devices, and the spacer.
//!
//! They are a crate of their own, since a crate with tests is proved twice.
#![tactic(auto)]

#[cfg(test)]
mod burst_turns;
#[cfg(test)]
mod bursts;
#[cfg(test)]
mod crcs;
#[cfg(test)]
mod devices;
#[cfg(test)]
mod digits;
#[cfg(test)]
mod dnp_frames;
#[cfg(test)]
mod families;
#[cfg(test)]
mod lending;
#[cfg(test)]
mod owed_answers;
#[cfg(test)]
mod rings;
#[cfg(test)]
mod rtu_frames;
#[cfg(test)]
mod spacers;
#[cfg(test)]
mod spoiler;
#[cfg(test)]
mod tables;
#[cfg(test)]
mod tags;
#[cfg(test)]
mod tick_texts;
