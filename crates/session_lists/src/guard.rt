//! A spacer behind a receiver, and a device behind the spacer.
ghost use Rattle.std.specs.Prelude.{◌≡◌, ◌+◌, ◌<◌, ℕ, List, [], ◌∷◌, ◌++◌, IfOk, OnOk};
ghost use Rattle.yasir_ticks.specs.declared.TheConstants.{MAX_TICKS};
ghost use Rattle.yasir_ticks.specs.declared.tick.Tick.{Tick};
ghost use Rattle.device_model.specs.Frames.{FrameRead};
ghost use Rattle.session_lists.specs.FrameList.{Holds};
ghost use Rattle.session_lists.specs.ReplayLists.{kept_reads};

use crate::frame_list::FrameList;
use std::alloc::Global;
use yasir_io::NoMemory;
use yasir_ticks::Tick;

/// A spacer behind a receiver, and a device that hears the spaced line. The frames that the device
/// reads are kept in memory.
pub trait Guard: Drop {
    /// What the device reads if the receiver sends this line.
    ghost reads: { List Tick → List FrameRead };

    /// Holds if the spacer has heard this line.
    ghost stands: { Self → List Tick → Type 0 };

    /// How many ticks the spacer has heard.
    ghost taken: { Self → ℕ };

    /// There is at least one silent tick between frames.
    ghost gap_fits: { Type 0 };

    /// A guard that has heard no tick.
    fn new(alloc: Global) -> Result<Self, NoMemory>
        /// There is at least one silent tick between frames.
        requires { gap_fits }
        /// It has heard 0 ticks.
        ensures taken { IfOk result (λ guard. taken guard ≡ 0) }
        /// It begins with no tick heard.
        ensures stands { IfOk result (λ guard. stands guard []) };

    /// Hears the next tick of the receiver's line.
    fn hear(&mut self, tick: Tick) -> Result<(), NoMemory>
        /// Fewer than 2^62 ticks were heard before.
        requires { taken self.old < MAX_TICKS }
        /// If there was memory, one more tick is heard.
        ensures taken { OnOk result (taken self.new ≡ taken self.old + 1) }
        /// If there was memory, the spacer has heard this tick after its line.
        ensures stands { OnOk result ((line : List Tick) → stands self.old line
            → stands self.new (line ++ tick ∷ [])) };

    /// The frames that the device has read, each with the tick of its first byte.
    fn frames(&self) -> &FrameList<u64>
        /// They are those that it reads of the line that the spacer has heard.
        ensures { (line : List Tick) → stands self.now line
            → Holds result.now (kept_reads (reads line)) };
}
