//! The command `trial`: runs a session that is made from a number.
ghost use Rattle.std.specs.Prelude.{◌≡◌, ◌≤◌, length, Some};
ghost use Rattle.command_ends.specs.Ends.{outside_before, outside_after};
ghost use Rattle.trial_session.specs.TrialLine.{trial_line};
ghost use Rattle.link_replay.specs.declared.words.Command.TheVariants.{Trial};
ghost use Rattle.link_replay.specs.Commands.{HasCauses};
ghost use Rattle.link_replay.specs.TrialCommand.{trial_counts, Tries};
ghost use Rattle.command_ends.specs.Words.{link_word};

use crate::commands::printing::print_alone;
use check_receiver::Checker;
use command_ends::{Ends, Line, Profile, Proto, Status, link_word, with_link};
use seal_transmitter::Sealer;
use trial_session::session_line;
use yasir_io::{Sink, SlotDisk, Source};

// Returns the line of a session of both boxes.
macro_rules! session_by {
    (
        [$rules:ty, $device:ty, $mac:ty, $word:literal, $delay:literal, $gap:literal],
        $name:expr, $seed:expr, $count:expr
    ) => {
        // the pause and the trailer of a packet together are one tick shorter than the receiver's
        // delay
        session_line::<$rules, Sealer<$rules, $mac, $word>, Checker<$rules, $mac, $word, $delay>, $device>(
            $name, $seed, $count, $delay - 1,
        )
    };
}

// Returns the line of a session over a link, with `count` frames that are drawn from a seed.
fn line_of_session(proto: Proto, profile: Profile, seed: u32, count: u32) -> Line
    ensures { result.items ≡ trial_line (link_word proto profile) seed count
        (trial_counts proto profile seed count) }
{
    let name = link_word(proto, profile);
    with_link!(proto, profile, session_by(name, seed, count))
}

/// Tries a link with `count` frames that are drawn from a seed, and prints how many were sealed,
/// passed, refused, dropped and read.
pub fn try_link<K: Source, S: Source, O: Sink, L: Sink, D: SlotDisk>(
    proto: Proto,
    profile: Profile,
    seed: u32,
    count: u32,
    ends: Ends<K, S, O, L, D>,
) -> Status
    ensures tries { Tries O.Sink L.Sink proto profile seed count (outside_before ends.entry)
        (outside_after ends.exit) result }
    ensures causes { HasCauses K.Source S.Source O.Sink L.Sink D.SlotDisk
        (Some (Trial proto profile seed count)) (outside_before ends.entry)
        (outside_after ends.exit) result }
{
    let line = line_of_session(proto, profile, seed, count);
    print_alone(line.as_slice(), ends)
}
