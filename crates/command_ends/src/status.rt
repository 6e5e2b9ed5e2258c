//! How a run of the program ended, and its exit status.
ghost use Rattle.std.specs.Prelude.{◌≡◌};

use tick_drive::TooMuch;
use yasir_io::SlotBytes;
use yasir_ticks::BadTicks;

/// A verdict of an audit that isn't clean.
#[derive(Clone, Copy, Debug, PartialEq, Eq)]
pub enum Unclean {
    /// A frame passed that wasn't sealed with its number.
    Forged,
    /// The frames that were read aren't those that passed.
    Differs,
    /// No frame was sealed, passed or read.
    Empty,
}

/// How a run of the program ended.
#[derive(Clone, Copy, Debug, PartialEq, Eq)]
pub enum Status {
    /// All of the output is written.
    Done,
    /// The words name no command.
    Usage,
    /// The input is no tick text.
    BadTicks(BadTicks),
    /// The input could not be read.
    ReadFault,
    /// Standard output or the log could not be written.
    WriteFault,
    /// The journal's disk failed.
    JournalFault,
    /// The input has more ticks or bytes than may be taken. `count` is the first sum that was too
    /// much.
    TooLong { what: TooMuch, count: u64 },
    /// There is a journal already. `floor` is its floor.
    HasJournal { floor: u64 },
    /// The key's text is no key. `place` is the length of its longest front with which some key
    /// text begins.
    BadKey { place: u32 },
    /// The disk holds no journal. `a` and `b` are its slots as they were read.
    BadJournal { a: SlotBytes, b: SlotBytes },
    /// The disk holds another link's journal. `slot` is its slot as it was read, and of two slots
    /// the one with the greater number.
    WrongLink { slot: SlotBytes },
    /// There was no memory for what is kept of the input.
    NoMemory,
    /// All of the output is written, and the verdict in it isn't clean.
    Unclean(Unclean),
}

impl Status {
    ghost use Rattle.command_ends.specs.Statuses.{exit_status_of};

    /// Returns the program's exit status.
    pub fn exit_status(&self) -> u8
        ensures { result ≡ exit_status_of self.now }
    {
        match self {
            Status::Done => 0,
            Status::Usage => 2,
            Status::BadTicks(_) => 4,
            Status::ReadFault => 5,
            Status::WriteFault => 6,
            Status::JournalFault => 7,
            Status::TooLong { .. } => 10,
            Status::HasJournal { .. } => 11,
            Status::BadKey { .. } => 3,
            Status::BadJournal { .. } => 8,
            Status::WrongLink { .. } => 12,
            Status::NoMemory => 9,
            Status::Unclean(Unclean::Forged) => 14,
            Status::Unclean(Unclean::Differs) => 15,
            Status::Unclean(Unclean::Empty) => 16,
        }
    }
}
