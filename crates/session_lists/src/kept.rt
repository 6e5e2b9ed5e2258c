//! What is kept of the line of a box: its frames, and what is read behind a spacer.
ghost use Rattle.std.specs.Prelude.{◌≡◌, ◌+◌, ◌<◌, ◌≤◌, Bool, List, [], ◌∷◌, ◌++◌, length, take, OnOk};
ghost use Rattle.yasir_ticks.specs.TickRun.{run_ticks};
ghost use Rattle.yasir_ticks.specs.declared.TheConstants.{MAX_TICKS};
ghost use Rattle.yasir_ticks.specs.declared.tick.Tick.{Tick};
ghost use Rattle.session_lists.specs.FrameList.{Holds};
ghost use Rattle.session_lists.specs.Guarding.{Guards, guard_taken};
ghost use Rattle.session_lists.specs.Lines.{IsOpenBox, TakesOn};

use crate::frame_box::{FrameBox, Numbered};
use crate::frame_list::FrameList;
use crate::guard::Guard;
use crate::replay_lists::{pass_run, step_into};
use frame_ending::RunBytes;
use std::alloc::Global;
use yasir_io::NoMemory;
use yasir_ticks::{Tick, TickRun};

/// The frames that a box has sealed or passed, and the guard that hears the box's other line, if
/// there is one.
#[derive(Drop)]
pub(crate) struct Kept<G> {
    pub(crate) frames: FrameList<Numbered>,
    pub(crate) guard: Option<G>,
}

impl<G: Guard> Kept<G> {
    /// No frame yet, and this guard.
    pub(crate) fn new(alloc: Global, guard: Option<G>) -> Kept<G>
        ensures frames { Holds result.frames [] }
        ensures guard { result.guard ≡ guard }
    {
        Kept {
            frames: FrameList::new(alloc),
            guard,
        }
    }
}

// Lets a guard, if there is one, hear a tick.
#[inline]
fn hear<G: Guard>(guard: &mut Option<G>, tick: Tick) -> Result<(), NoMemory>
    requires { guard_taken G.Guard guard.old < MAX_TICKS }
    ensures taken { OnOk result
        (guard_taken G.Guard guard.new ≤ guard_taken G.Guard guard.old + 1) }
    ensures hears { OnOk result ((spaced : Bool) (line : List Tick)
        → Guards G.Guard spaced guard.old line
        → Guards G.Guard spaced guard.new (line ++ tick ∷ [])) }
{
    match guard {
        None => Ok(()),
        Some(guard) => guard.hear(tick),
    }
}

/// Gives a box one tick, and keeps the frame of that step, if there is one. The guard, if there is
/// one, hears the tick of the other line.
#[inline(never)]
pub(crate) fn take_tick<B: FrameBox, G: Guard>(
    line_box: &mut B,
    kept: &mut Kept<G>,
    tick: Tick,
) -> Result<(), NoMemory>
    requires room { B.taken line_box.old < MAX_TICKS }
    requires able { IsOpenBox B.FrameBox G.Guard line_box.old kept.old }
    ensures able { OnOk result (IsOpenBox B.FrameBox G.Guard line_box.new kept.new) }
    ensures takes { OnOk result (TakesOn B.FrameBox G.Guard line_box.old line_box.new kept.old
        kept.new (tick ∷ [])) }
{
    match step_into(line_box, &mut kept.frames, tick) {
        Ok(other) => hear(&mut kept.guard, other),
        Err(NoMemory) => Err(NoMemory),
    }
}

/// Gives a box the first ticks of this run that it takes at once, and returns how many. If there is
/// a guard, which hears tick by tick, it takes none.
#[inline(always)]
pub(crate) fn take_some<B: FrameBox, G: Guard>(
    line_box: &mut B,
    kept: &Kept<G>,
    run: TickRun<'_>,
) -> usize
    requires room { B.taken line_box.old + length (run_ticks run) ≤ MAX_TICKS }
    requires able { IsOpenBox B.FrameBox G.Guard line_box.old kept.now }
    ensures within { result ≤ length (run_ticks run.entry) }
    ensures able { IsOpenBox B.FrameBox G.Guard line_box.new kept.now }
    ensures takes { TakesOn B.FrameBox G.Guard line_box.old line_box.new kept.now kept.now
        (take result (run_ticks run.entry)) }
{
    match &kept.guard {
        Some(_) => 0,
        None => {
            let mut sent = RunBytes::new();
            pass_run(line_box, run, &mut sent)
        }
    }
}
