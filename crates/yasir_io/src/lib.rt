//! Sources and sinks of bytes, and a disk of two slots and two old ones, which are only read. Each
//! object counts its own faults.
//!
//! A sink in memory for tests, whose second call fails:
//!
//!     let mut plan = Plan::new();
//!     let _ = plan.try_push(2);
//!     let mut sink = MemSink::with_room(alloc, 100, 512, plan)?;
//!     assert!(rt; write_all(&mut sink, b"read at 0\n").is_ok());
//!     assert!(rt; sink.flush().is_err());
//!     assert_eq!(rt; sink.held(), b"read at 0\n");
#![tactic(auto)]

mod calls;
mod disk;
mod edge;
mod faults;
mod files;
mod flushes;
mod lazy_file;
mod lock;
mod mem_sink;
mod mem_slots;
mod mem_source;
mod opening;
mod pieces;
mod reason;
mod sink;
mod source;
mod steady;
mod tells;
mod text_buffer;
mod text_room;

pub use calls::{NoMemory, Plan};
pub use disk::{OLD_SLOT_LEN, OldSlotBytes, SLOT_LEN, Slot, SlotBytes, SlotDisk};
pub use edge::{StderrSink, StdinSource, StdoutSink, WriterSink};
pub use files::{FileSlots, FileSource, SlotFile};
pub use lock::{Durable, Lock};
pub use mem_sink::MemSink;
pub use mem_slots::MemSlots;
pub use mem_source::MemSource;
pub use opening::OpensFiles;
pub use pieces::Pieces;
pub use reason::{Reason, TellsReason};
pub use sink::{Sink, write_all};
pub use source::Source;
pub use steady::{SteadySlots, SteadySource};
pub use tells::{TellsHeld, TellsLeft};
pub use text_buffer::TextBuffer;
pub use text_room::TextRoom;

/// A read, a write, a flush or a call on a disk has failed. The object's count of faults says so
/// too.
#[derive(Clone, Copy, Debug, PartialEq, Eq)]
pub struct Failed;
