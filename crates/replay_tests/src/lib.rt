//! Tests of the libraries under the program: recorded lines as a device reads them, as the
//! transmitter seals them, and as the receiver checks them.
//!
//! Its functions are used only by its own tests:
//!
//!     has_read::<RtuDevice>(&rt, alloc, &line, &frames)?;
#![tactic(auto)]

#[cfg(test)]
mod altered_links;
#[cfg(test)]
mod box_parts;
#[cfg(test)]
mod checking;
#[cfg(test)]
mod dnp3_lines;
#[cfg(test)]
mod fast_paths;
#[cfg(test)]
mod fresh;
#[cfg(test)]
mod live_boxes;
#[cfg(test)]
mod live_outputs;
#[cfg(test)]
mod order;
#[cfg(test)]
mod outside;
#[cfg(test)]
mod over_boxes;
#[cfg(test)]
mod packets;
#[cfg(test)]
mod reading;
#[cfg(test)]
mod sealing;
#[cfg(test)]
mod second_profile;
#[cfg(test)]
mod taking_over;
#[cfg(test)]
mod texts;
#[cfg(test)]
mod way_lines;
#[cfg(test)]
mod way_streams;
