//! What the loop needs of a consumer, and why a consumer stops.
ghost use Rattle.std.specs.Prelude.{ℕ, ◌<◌, [], ◌∷◌, length};
ghost use Rattle.yasir_ticks.specs.Ticks.Item.{mark};
ghost use Rattle.yasir_ticks.specs.TickRun.{run_ticks, run_items};

use yasir_ticks::TickRun;

/// Why a consumer takes no more ticks.
#[derive(Clone, Copy, Debug, PartialEq, Eq)]
pub enum Stop {
    /// A sink failed.
    WriteFault,
    /// The disk of the journal failed.
    JournalFault,
    /// There was no memory for what the consumer keeps.
    NoMemory,
}

/// Takes the ticks of an input, a run at a time, and its marks. It also holds what it writes to.
/// After a stop it must not be used again.
pub trait Consumer {
    ghost use Rattle.tick_drive.specs.Consumers.{Consuming, MayTake, Gives, GivesSome};
    ghost use Rattle.tick_drive.specs.Consumers.{IsNoneDone, AreJoined};

    /// What is said of the consumer: what it has taken, where it stopped, and what calls do to what
    /// it holds.
    ghost meaning: { Consuming Self };

    /// Takes the first ticks of this run, at least one, and returns how many.
    fn take_some(&mut self, run: TickRun<'_>) -> Result<usize, Stop>
        /// There is at least one tick.
        requires some { 0 < length (run_ticks run) }
        /// The consumer may be used, and may count these ticks.
        requires may { MayTake meaning self.old (run_items run) }
        /// The consumer has taken the first ticks of the run, as many as are returned, at least
        /// one; or it stopped at one of them, and the error says why.
        ensures { GivesSome meaning self.old self.new (run_items run.entry) result };

    /// Takes a mark, which isn't a tick.
    fn take_mark(&mut self) -> Result<(), Stop>
        /// The consumer may be used.
        requires { MayTake meaning self.old (mark ∷ []) }
        /// The consumer has taken the mark; or it stopped there, and the error says why.
        ensures { Gives meaning self.old self.new (mark ∷ []) result };

    /// What is said of calls holds of no call at all.
    ghost went_none: { IsNoneDone meaning };

    /// If it holds of calls that ended well and of those after them, it holds of all of them in a
    /// row.
    ghost went_then: { AreJoined meaning };
}
