//! How the reading of a live line of two ways ended.
ghost use Rattle.std.specs.Prelude.{◌≡◌};
ghost use Rattle.line_commands.specs.Lines.{IsOfText};
ghost use Rattle.live_ways.specs.Ends.{end_of, IsFaultOf};

use live_line::Way;
use tick_drive::{End, Stop, TooMuch};
use yasir_ticks::{BadTicks, TickFault};

/// How the reading of a live line of two ways ended.
#[derive(Clone, Copy, Debug, PartialEq, Eq)]
pub enum WayEnd {
    /// All of the stream was taken.
    Whole,
    /// The text of a way is no tick text. The line is counted in the stream.
    Refused(Way, BadTicks),
    /// A line of the stream begins with the letter of no way. It is its number, counted from 1.
    NoWay(u32),
    /// A way has more ticks than may be taken, or more bytes in a row that end no line with ticks.
    /// The count is the first sum that was too much.
    TooLong(Way, TooMuch, u64),
    /// So many bytes were read that nothing more is.
    TooManyBytes(u64),
    /// A read of the stream failed.
    ReadFault,
    /// What is made of a way couldn't be handed on.
    Stopped(Way, Stop),
}

/// Why one way takes no more.
#[derive(Clone, Copy, Debug, PartialEq, Eq)]
pub enum WayFault {
    /// Its text is no tick text.
    Refused(TickFault),
    /// It has more ticks than may be taken, or more bytes in a row that end no line with ticks.
    TooLong(TooMuch, u64),
    /// What is made of it couldn't be handed on.
    Stopped(Stop),
}

impl WayFault {
    /// Returns the fault of a way whose text ended its reading in this way.
    pub fn of(end: End) -> WayFault
        /// Only the text is the cause.
        requires { IsOfText end }
        /// The fault has the cause or the count of the end.
        ensures { IsFaultOf end result }
    {
        match end {
            End::Refused(bad) => WayFault::Refused(bad.why),
            End::TooLong { what, count } => WayFault::TooLong(what, count),
            End::Whole | End::ReadFault | End::Stopped(_) => unreachable!(),
        }
    }

    /// Returns the end of a stream of which a way has this fault in this line.
    pub fn end(self, way: Way, line: u32) -> WayEnd
        ensures { result ≡ end_of way line self }
    {
        match self {
            WayFault::Refused(why) => WayEnd::Refused(way, BadTicks { line, why }),
            WayFault::TooLong(what, count) => WayEnd::TooLong(way, what, count),
            WayFault::Stopped(stop) => WayEnd::Stopped(way, stop),
        }
    }
}
