//! What the transmitter and the receiver have in common: the walks over bursts that define them, and
//! the trait of a box.
//!
//! What a transmitter makes of a device's line: the definitions of its judgements, notes and ticks,
//! and the laws about them that the boxes and other laws share.
//!
//! A transmitter judges each burst of the line in turn. So it is defined as a walk over bursts.
//! `specs/` has the definitions over whole lists of ticks. `proofs/` has worked lines, and proves
//! that a judgement needs no tick before its time, and that the sealed frames are numbered in turn.
//!
//! What a transmitter says of a burst:
//!
//!     match note {
//!         SealNote::Sealed { number, start, len } => log_sealed(number, start, len),
//!         SealNote::Unsealed { start, why } => log_unsealed(start, why),
//!     }
//!
//! What a receiver makes of a link: the definitions of its verdicts, notes and ticks, and the laws
//! on them that boxes, and the laws of other crates, share.
//!
//! A receiver judges each burst of the link in turn, as a transmitter judges each burst of the
//! device's line, so it is a second walk over bursts (`Walker`). `specs/` has the definitions over
//! whole lists of ticks, and what a receiver holds between two ticks. `proofs/` has worked lines,
//! the proof that a verdict needs no tick before its time, and what one more tick adds for the
//! machine.
//!
//! What a receiver notes about a burst:
//!
//!     match note {
//!         CheckNote::Passed { number, start, len } => log_passed(number, start, len),
//!         CheckNote::Refused { start, why } => log_refused(start, why),
//!         CheckNote::Dropped { start, why } => log_dropped(start, why),
//!     }
//!
//! What the transmitter and the receiver have in common: each is a box between two lines, which
//! takes one line tick by tick or in runs, returns the other one, and uses the numbers of a
//! journal.
//!
//! Code that is generic over boxes takes what it can as a run, and the other ticks one by one:
//!
//!     let taken = take_alike(&mut line_box, run, &mut sent);
//!     if taken == 0 {
//!         let step = line_box.step(run.first(), &mut journal, &mut disk)?;
//!         send(step.tick);
//!     }
#![tactic(auto)]

mod alike;
mod box_trait;
mod check_note;
mod seal_note;

pub use alike::{put_bytes, take_alike};
pub use box_trait::LinkBox;
pub use check_note::{CheckNote, DroppedWhy, RefusedWhy};
pub use seal_note::{SealNote, UnsealedWhy};
