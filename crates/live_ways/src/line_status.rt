//! How a run of a live line of two ways ended.
ghost use Rattle.std.specs.Prelude.{◌≡◌, Some, None};
ghost use Rattle.live_ways.specs.WayCommand.{status_of_key, status_of_end, way_of_end};

use crate::way_end::WayEnd;
use command_ends::{KeyError, Status};
use live_line::Way;
use tick_drive::{Stop, TooMuch};
use yasir_ticks::{BadTicks, TickFault};

/// The status of a run of a live line of two ways.
#[derive(Clone, Copy, Debug, PartialEq, Eq)]
pub struct Ended {
    /// The status of the run.
    pub status: Status,
    /// The way that it is about: whose text is refused or too long, what of couldn't be handed on,
    /// or whose journal failed or isn't right. It is `None` if the status is about no way alone.
    pub way: Option<Way>,
}

impl Ended {
    // A status that is about this way.
    pub(crate) fn about(way: Way, status: Status) -> Ended
        ensures status { result.status ≡ status }
        ensures way { result.way ≡ Some way }
    {
        Ended {
            status,
            way: Some(way),
        }
    }

    // A status that is about no way alone.
    pub(crate) fn of_line(status: Status) -> Ended
        ensures status { result.status ≡ status }
        ensures way { result.way ≡ None }
    {
        Ended { status, way: None }
    }

    // The status of a run whose key isn't read.
    pub(crate) fn of_key(error: KeyError) -> Ended
        ensures status { result.status ≡ status_of_key error }
        ensures way { result.way ≡ None }
    {
        match error {
            KeyError::Fault => Ended::of_line(Status::ReadFault),
            KeyError::Bad { place } => Ended::of_line(Status::BadKey { place }),
        }
    }

    // The status of a run whose stream ended like this.
    pub(crate) fn of_end(end: WayEnd) -> Ended
        ensures status { result.status ≡ status_of_end end }
        ensures way { result.way ≡ way_of_end end }
    {
        match end {
            WayEnd::Whole => Ended::of_line(Status::Done),
            WayEnd::Refused(way, bad) => Ended::about(way, Status::BadTicks(bad)),
            WayEnd::NoWay(line) => Ended::of_line(Status::BadTicks(BadTicks {
                line,
                why: TickFault::Char,
            })),
            WayEnd::TooLong(way, what, count) => {
                Ended::about(way, Status::TooLong { what, count })
            }
            WayEnd::TooManyBytes(count) => Ended::of_line(Status::TooLong {
                what: TooMuch::Bytes,
                count,
            }),
            WayEnd::ReadFault => Ended::of_line(Status::ReadFault),
            WayEnd::Stopped(way, Stop::WriteFault) => Ended::about(way, Status::WriteFault),
            WayEnd::Stopped(way, Stop::JournalFault) => Ended::about(way, Status::JournalFault),
            WayEnd::Stopped(way, Stop::NoMemory) => Ended::about(way, Status::NoMemory),
        }
    }
}
