//! The consumer that keeps the ticks of up to three recordings.
ghost use Rattle.std.specs.Prelude.{◌≡◌, [], ◌∷◌, ◌++◌, OnOk};

use std::alloc::Global;
use tick_drive::{Consumer, Stop};
use yasir_io::NoMemory;
use yasir_ticks::{Tick, TickRun};

/// Which recording the next tick belongs to. Ticks after the third mark belong to none.
#[derive(Clone, Copy)]
pub enum Place {
    /// The first recording: no mark has come.
    First,
    /// The second recording: one mark has come.
    Second,
    /// The third recording: two marks have come.
    Third,
    /// No recording that is kept: three marks or more have come.
    None,
}

impl Place {
    ghost use Rattle.std.specs.Prelude.{◌≡◌};
    ghost use Rattle.session_lists.specs.ListPlaces.{place_behind};

    /// Returns the place of the ticks after one more mark.
    #[inline]
    pub fn behind(self) -> Place
        ensures { result ≡ place_behind self }
    {
        match self {
            Place::First => Place::Second,
            Place::Second => Place::Third,
            Place::Third | Place::None => Place::None,
        }
    }
}

/// The ticks of the first three recordings of an input, in one list for each. If there is no memory
/// for a tick, the lists aren't used after that.
#[derive(Drop)]
pub struct TickLists {
    first: Vec<Tick>,
    second: Vec<Tick>,
    third: Vec<Tick>,
    place: Place,
    // how many ticks were taken, of all recordings together
    taken: u64,
}

// Adds a tick at the end of a list.
fn push(list: &mut Vec<Tick>, tick: Tick) -> Result<(), NoMemory>
    ensures { OnOk result (list.new.items ≡ list.old.items ++ tick ∷ []) }
{
    match list.push(tick) {
        Ok(()) => Ok(()),
        Err(_) => Err(NoMemory),
    }
}

impl TickLists {
    ghost use Rattle.std.specs.Prelude.{◌+◌, ◌<◌};
    ghost use Rattle.yasir_ticks.specs.declared.TheConstants.{MAX_TICKS};
    ghost use Rattle.session_lists.specs.TickLists.{ticks_first, ticks_second, ticks_third};
    ghost use Rattle.session_lists.specs.TickLists.{ticks_listed, HoldsParts, TakesTick};

    /// Returns lists that have taken no tick yet.
    pub fn new(alloc: Global) -> TickLists
        /// They have 0 ticks.
        ensures none { ticks_listed result ≡ 0 }
        /// They hold the parts of no item.
        ensures holds { HoldsParts result [] }
    {
        TickLists {
            first: Vec::new(alloc),
            second: Vec::new(alloc),
            third: Vec::new(alloc),
            place: Place::First,
            taken: 0,
        }
    }

    /// Returns the ticks before the first mark.
    pub fn first(&self) -> &[Tick]
        ensures { result.now ≡ ticks_first self.now }
    {
        self.first.as_slice()
    }

    /// Returns the ticks between the first mark and the second.
    pub fn second(&self) -> &[Tick]
        ensures { result.now ≡ ticks_second self.now }
    {
        self.second.as_slice()
    }

    /// Returns the ticks between the second mark and the third.
    pub fn third(&self) -> &[Tick]
        ensures { result.now ≡ ticks_third self.now }
    {
        self.third.as_slice()
    }

    // Adds a tick to the list that it belongs to.
    fn take_tick(&mut self, tick: Tick) -> Result<(), NoMemory>
        requires { ticks_listed self.old < MAX_TICKS }
        ensures { OnOk result (TakesTick self.old self.new tick) }
    {
        self.taken += 1;
        match self.place {
            Place::First => push(&mut self.first, tick),
            Place::Second => push(&mut self.second, tick),
            Place::Third => push(&mut self.third, tick),
            Place::None => Ok(()),
        }
    }
}

impl Consumer for TickLists {
    ghost use Rattle.session_lists.specs.Listing.{listing};

    ghost meaning = { listing };

    // Takes one tick.
    fn take_some(&mut self, run: TickRun<'_>) -> Result<usize, Stop> {
        match self.take_tick(run.first()) {
            Ok(()) => Ok(1),
            Err(NoMemory) => Err(Stop::NoMemory),
        }
    }

    fn take_mark(&mut self) -> Result<(), Stop> {
        self.place = self.place.behind();
        Ok(())
    }

    ghost went_none = { λ lists able. tt };

    ghost went_then = { λ a b c result first second. tt };
}
