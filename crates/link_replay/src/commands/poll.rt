//! The command `poll`: runs a session of polls over two wires at both ends.
ghost use Rattle.std.specs.Prelude.{◌≡◌, IfOk, Some};
ghost use Rattle.command_ends.specs.Ends.{outside_before, outside_after};
ghost use Rattle.link_replay.specs.declared.words.Command.TheVariants.{Poll};
ghost use Rattle.link_replay.specs.Commands.{HasCauses};
ghost use Rattle.link_replay.specs.PollCommand.{Polls, TellsPolls};

use crate::commands::printing::print_alone;
use check_receiver::Checker;
use command_ends::{Ends, Line, Profile, Proto, Status, link_word, with_link};
use poll_session::{polls_line, polls_tell};
use seal_transmitter::Sealer;
use session_audit::{SealedFrames, ShownFrames};
use session_lists::NoMemory;
use std::alloc::Global;
use yasir_io::{Sink, SlotDisk, Source, SteadySlots};

// Returns the line of a session over both boxes at each end, which are watched by boxes that show
// their frames.
macro_rules! polls_by {
    (
        [$rules:ty, $device:ty, $mac:ty, $word:literal, $delay:literal, $gap:literal],
        $alloc:expr, $name:expr, $seed:expr, $count:expr
    ) => {
        polls_line::<
            $rules,
            Sealer<$rules, $mac, $word>,
            Checker<$rules, $mac, $word, $delay>,
            SealedFrames<$rules, $mac, $word, SteadySlots>,
            ShownFrames<Checker<$rules, $mac, $word, $delay>, $rules, SteadySlots>,
            $device,
        >($alloc, $name, $seed, $count, $delay)
    };
}

// Returns the line of a session of polls, whose requests are drawn from a seed.
fn line_of_polls(
    alloc: Global,
    proto: Proto,
    profile: Profile,
    seed: u32,
    count: u32,
) -> Result<Line, NoMemory>
    ensures { IfOk result (λ line. TellsPolls proto profile seed count line.items) }
{
    let name = link_word(proto, profile);
    with_link!(proto, profile, polls_by(alloc, name, seed, count))
}

/// A link, and what a session over it is drawn from.
#[derive(Clone, Copy, Debug, PartialEq, Eq)]
pub struct Drawn {
    pub proto: Proto,
    pub profile: Profile,
    pub seed: u32,
    /// How many requests are asked.
    pub count: u32,
}

/// Polls devices over two wires at both ends of a link that is attacked, and prints what was
/// sealed, passed, held back and read of requests and answers, and how many frames were read that
/// weren't sealed.
pub fn poll<K: Source, S: Source, O: Sink, L: Sink, D: SlotDisk>(
    alloc: Global,
    drawn: Drawn,
    ends: Ends<K, S, O, L, D>,
) -> Status
    ensures polls { Polls O.Sink L.Sink drawn.proto drawn.profile drawn.seed drawn.count
        (outside_before ends.entry) (outside_after ends.exit) result }
    ensures causes { HasCauses K.Source S.Source O.Sink L.Sink D.SlotDisk
        (Some (Poll drawn.proto drawn.profile drawn.seed drawn.count)) (outside_before ends.entry)
        (outside_after ends.exit) result }
{
    polls_tell();
    match line_of_polls(alloc, drawn.proto, drawn.profile, drawn.seed, drawn.count) {
        Ok(line) => print_alone(line.as_slice(), ends),
        Err(NoMemory) => Status::NoMemory,
    }
}
