//! What the functions that C calls return.
ghost use Rattle.std.specs.Prelude.{◌≡◌};
ghost use Rattle.yasir_c.specs.Statuses.{status_number};

/// What a call returns to C, as a number.
#[derive(Clone, Copy)]
pub(crate) enum Status {
    /// The call did what it is for.
    Done,
    /// There is no such box, spacer or tick, or a length is wrong.
    BadArgument,
    /// No slot holds a number.
    NoJournal,
    /// The slots hold numbers for other links only.
    OtherLink,
    /// There is no memory for the box or the spacer.
    NoMemory,
    /// The box or the spacer has taken `MAX_TICKS` ticks.
    Full,
    /// A tick is taken, and its answer is withheld until C confirms a number.
    Commit,
    /// An earlier answer is still withheld.
    Waiting,
    /// A number couldn't be written, and the box returns nothing any more.
    Stopped,
    /// The handle doesn't hold what the call is for.
    Empty,
}

impl Status {
    /// Returns the number of the status, as `yasir.h` has it.
    pub(crate) fn number(self) -> u8
        ensures { result ≡ status_number self }
    {
        match self {
            Status::Done => 0,
            Status::BadArgument => 1,
            Status::NoJournal => 2,
            Status::OtherLink => 3,
            Status::NoMemory => 4,
            Status::Full => 5,
            Status::Commit => 6,
            Status::Waiting => 7,
            Status::Stopped => 8,
            Status::Empty => 9,
        }
    }
}
