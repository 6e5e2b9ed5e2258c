//! The boxes of a link and the spacer for C: one handle for all of them, with the disk on C's side.
//! `bridge/yasir.h` says in C's words what each side owes the other.
//!
//! A step in C, after `yasir_new` has made the box:
//!
//!     uint8_t status = yasir_step(&box, tick, &answer, slot, sizeof slot);
//!     if (status == YASIR_COMMIT) {
//!         status = yasir_committed(&box, write_and_sync(answer.commit, slot), &answer);
//!     }
//!     if (status == YASIR_OK) send_tick(answer.is_byte, answer.byte);
#![tactic(auto)]

mod answer;
mod exports;
mod handle;
mod held;
mod kind;
mod laws;
mod loose;
mod owner;
mod spaced;
mod spacer_exports;
mod status;
#[cfg(test)]
mod tests;
mod withholding;
