//! What is counted of what a box at one end hears: which frames are sealed there and which pass,
//! and how many bursts the gate keeps back.
ghost use Rattle.std.specs.Prelude.{◌≡◌, ◌*◌, ◌<◌};
ghost use Rattle.poll_session.specs.Watches.{held_in, quiet_and};

use link_format::Dir;
use session_lists::{FrameBox, FrameList, NoMemory, Numbered, step_into};
use std::alloc::Global;
use yasir_ticks::{MAX_TICKS, T1_5_TICKS, Tick};

/// A transmitter and a receiver that hear what a box hears at one end, and show the frames that
/// they number.
#[derive(Drop)]
pub struct Watch<X, Y> {
    sealing: X,
    sealed: FrameList<Numbered>,
    checking: Y,
    passed: FrameList<Numbered>,
    // the tick that the receiver returned last, which leaves next
    made: Tick,
    // the silent ticks that have left since the last byte that was to leave
    quiet: u64,
    held: u64,
}

// 1 if a burst begins with this tick of a receiver and the box doesn't drive the wires with it.
fn held_in(quiet: u64, made: Tick, driven: Tick) -> u64
    ensures { result ≡ held_in quiet made driven }
{
    match (made, driven) {
        (Tick::Byte(_), Tick::Silent) => u64::from(u64::from(T1_5_TICKS) <= quiet),
        _ => 0,
    }
}

// How many silent ticks a receiver has returned since its last byte, after one more.
fn quiet_and(quiet: u64, made: Tick) -> u64
    requires { quiet < 2 * MAX_TICKS }
    ensures { result ≡ quiet_and quiet made }
{
    match made {
        Tick::Silent => quiet + 1,
        Tick::Byte(_) => 0,
    }
}

impl<X: FrameBox, Y: FrameBox> Watch<X, Y> {
    ghost use Rattle.std.specs.Prelude.{◌≡◌, ℕ, ◌+◌, ◌<◌, List, [], ◌∷◌, ◌++◌, OnOk, length};
    ghost use Rattle.yasir_ticks.specs.declared.tick.Tick.{Tick};
    ghost use Rattle.link_format.specs.declared.dir.Dir.{Dir as LinkDir};
    ghost use Rattle.poll_session.specs.Watches.{MayWatch, HasWatched};

    /// Watches nothing yet. The box sends in this direction.
    pub fn new(alloc: Global, dir: Dir) -> Watch<X, Y>
        requires sealing { X.widths_fit }
        requires checking { Y.widths_fit }
        ensures able { MayWatch X.FrameBox Y.FrameBox result 0 }
        ensures watched { HasWatched X.FrameBox Y.FrameBox dir result [] [] [] }
    {
        Watch {
            sealing: X::new(&[0; 16], dir, 0),
            sealed: FrameList::new(alloc),
            checking: Y::new(&[0; 16], dir.opposite(), 0),
            passed: FrameList::new(alloc),
            made: Tick::Silent,
            quiet: u64::from(T1_5_TICKS),
            held: 0,
        }
    }

    /// Takes what is heard of the device and of the link in one more tick, in which the box drives
    /// the wires to its device with this tick.
    pub fn step(&mut self, device: Tick, link: Tick, driven: Tick) -> Result<(), NoMemory>
        requires able { MayWatch X.FrameBox Y.FrameBox self.old (X.taken self.old.sealing) }
        requires room { X.taken self.old.sealing < MAX_TICKS }
        ensures able { OnOk result (MayWatch X.FrameBox Y.FrameBox self.new
            (X.taken self.old.sealing + 1)) }
        ensures watched { OnOk result ((dir : LinkDir) (devices links drivens : List Tick)
            → HasWatched X.FrameBox Y.FrameBox dir self.old devices links drivens
            → HasWatched X.FrameBox Y.FrameBox dir self.new (devices ++ device ∷ [])
            (links ++ link ∷ []) (drivens ++ driven ∷ [])) }
    {
        let Ok(_) = step_into(&mut self.sealing, &mut self.sealed, device) else {
            return Err(NoMemory);
        };
        let Ok(made) = step_into(&mut self.checking, &mut self.passed, link) else {
            return Err(NoMemory);
        };
        self.held += held_in(self.quiet, self.made, driven);
        self.quiet = quiet_and(self.quiet, self.made);
        self.made = made;
        Ok(())
    }

    /// The frames that were sealed here.
    pub fn sealed(&self) -> &FrameList<Numbered>
        ensures { result.now ≡ self.now.sealed }
    {
        &self.sealed
    }

    /// The frames that have passed here.
    pub fn passed(&self) -> &FrameList<Numbered>
        ensures { result.now ≡ self.now.passed }
    {
        &self.passed
    }

    /// How many bursts the gate has kept back.
    pub fn held(&self) -> u64
        ensures { result ≡ self.now.held }
    {
        self.held
    }
}
