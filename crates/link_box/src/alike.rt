//! How a box takes a run of ticks by either of its calls for runs.
ghost use Rattle.std.specs.Prelude.{◌≡◌, ◌+◌, ◌≤◌, [], ◌∷◌, length, take};
ghost use Rattle.yasir_ticks.specs.TickRun.{run_ticks};
ghost use Rattle.frame_ending.specs.Answered.{answered};
ghost use Rattle.link_box.specs.Runs.{TakesRun};

use crate::LinkBox;
use frame_ending::RunBytes;
use yasir_ticks::{MAX_TICKS, TickRun};

/// The most bytes that are forwarded at once: as many as `RunBytes` has room for.
const MAX_RUN: usize = 64;

/// Puts these bytes, 64 at most, into `sent` in place of what is there.
#[inline]
pub fn put_bytes(sent: &mut RunBytes, bytes: &[u8])
    /// There are at most 64 bytes.
    requires { length bytes.now ≤ 64 }
    ensures { sent.new.items ≡ bytes.now }
{
    sent.clear();
    let _ = sent.try_extend_from_slice(bytes);
}

// Takes as many of the first of these ticks as the box forwards, and returns how many. Puts the
// bytes among them into `sent`.
#[inline]
fn forward_alike<X: LinkBox>(line_box: &mut X, run: TickRun<'_>, sent: &mut RunBytes) -> usize
    requires { X.taken line_box.old + length (run_ticks run) ≤ MAX_TICKS }
    ensures within { result ≤ length (run_ticks run.entry) }
    ensures taken { X.taken line_box.new ≡ X.taken line_box.old + result }
    ensures link { X.link_of line_box.new ≡ X.link_of line_box.old }
    ensures run { TakesRun X.walking X.stands line_box.old line_box.new
        (take result (run_ticks run.entry)) (answered result sent.new.items) }
{
    match run {
        TickRun::Bytes(bytes) => {
            let front = &bytes[..bytes.len().min(MAX_RUN)];
            let count = line_box.forward(TickRun::Bytes(front));
            put_bytes(sent, &front[..count]);
            count
        }
        TickRun::Silence(ticks) => {
            let count = line_box.forward(TickRun::Silence(ticks));
            sent.clear();
            count
        }
    }
}

/// Takes the first of these ticks, as long as the box returns silence for all of them or bytes for
/// all of them, without a note and without using a number, and returns how many. It tries `forward`
/// first, and `pass` if that takes none. Puts the bytes that the box returns into `sent`, one for
/// each tick, or none for silence. If none is taken, the caller goes on by `step`. There must be
/// room for all of these ticks: the box takes at most `MAX_TICKS`.
#[inline]
pub fn take_alike<X: LinkBox>(line_box: &mut X, run: TickRun<'_>, sent: &mut RunBytes) -> usize
    /// The box has then taken at most 2^62 ticks.
    requires { X.taken line_box.old + length (run_ticks run) ≤ MAX_TICKS }
    /// No more ticks are taken than there are.
    ensures within { result ≤ length (run_ticks run.entry) }
    /// The ticks that are taken are counted.
    ensures taken { X.taken line_box.new ≡ X.taken line_box.old + result }
    /// The link of the box stays.
    ensures link { X.link_of line_box.new ≡ X.link_of line_box.old }
    /// What is returned is what the box's walk makes of these ticks, no note falls into them, and
    /// no number is used.
    ensures run { TakesRun X.walking X.stands line_box.old line_box.new
        (take result (run_ticks run.entry)) (answered result sent.new.items) }
{
    let forwarded = forward_alike(line_box, run, sent);
    if forwarded > 0 {
        return forwarded;
    }
    line_box.pass(run, sent)
}
