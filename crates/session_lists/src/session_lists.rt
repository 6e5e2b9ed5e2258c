//! Three recordings of a session: what is sealed and passed of the first two, and how the third
//! compares with what has passed.
ghost use Rattle.std.specs.Prelude.{◌≡◌, ℕ, ◌+◌, ◌<◌, ◌≤◌, List, [], ◌∷◌, ◌++◌, Ok, OnOk, IfOk};
ghost use Rattle.std.specs.Prelude.{length, ◌^◌, All, Bool};
ghost use Rattle.yasir_ticks.specs.Ticks.{silent};
ghost use Rattle.yasir_ticks.specs.TickRun.{run_ticks, run_items};
ghost use Rattle.yasir_ticks.specs.declared.tick.Tick.{Tick};
ghost use Rattle.yasir_ticks.specs.declared.TheConstants.{MAX_TICKS};
ghost use Rattle.link_format.specs.NumberedFrame.{NumberedFrame};
ghost use Rattle.link_format.specs.Setup.{setup_of};
ghost use Rattle.sequence_journal.specs.declared.numbers.TheConstants.{LIMIT};
ghost use Rattle.yasir_ticks.specs.Ticks.Item.{mark};
ghost use Rattle.tick_drive.specs.Consumers.{Gives, GivesFirst};
ghost use Rattle.session_lists.specs.declared.tick_lists.Place.TheVariants.{First, Second};
ghost use Rattle.session_lists.specs.Comparison.{difference_of};
ghost use Rattle.session_lists.specs.Expected.{AreExpected, AreInTime, expected_by};
ghost use Rattle.session_lists.specs.FrameBox.{kept_frames};
ghost use Rattle.session_lists.specs.FrameList.{Holds, list_len};
ghost use Rattle.session_lists.specs.Guarding.{Guards, guard_taken};
ghost use Rattle.session_lists.specs.SessionLists.{SetupsOfLists, HasSession, IsOpenList, AreReadInTime};
ghost use Rattle.session_lists.specs.SessionLists.{session_taken, all_rests, expected_of, parting};
ghost use Rattle.session_lists.specs.SessionListed.{MayListSession};

use crate::Place;
use crate::comparison::{Comparison, Difference};
use crate::expected::{Expected, Origin};
use crate::frame_box::{FrameBox, Numbered};
use crate::frame_list::FrameList;
use crate::fronts::{hear_front, take_front};
use crate::guard::Guard;
use crate::kept::Kept;
use crate::lateness::Lateness;
use crate::lines::{hear_line, hear_rest, take_line, take_silence};
use device_model::Device;
use link_format::Dir;
use std::alloc::Global;
use tick_drive::{Consumer, Stop};
use yasir_io::NoMemory;
use yasir_ticks::{Tick, TickRun};

#[cfg(test)]
mod turn_tests;

/// The last numbers that the boxes of a session had used before it.
#[derive(Clone, Copy, Debug, PartialEq, Eq)]
pub struct Floors {
    /// The last number that the transmitter had used.
    pub sent: u64,
    /// The last number that the receiver had passed.
    pub got: u64,
}

/// When frames must be read, and how many silent ticks come after each of three recordings.
#[derive(Clone, Copy, Debug, PartialEq, Eq)]
pub struct Timing {
    /// When a frame that should be read must be, on the line of the device that receives.
    pub late: Lateness,
    /// Whether a spacer stands behind the receiver.
    pub spaced: bool,
    /// How many silent ticks follow the line of the device that sends.
    pub sent_rest: u32,
    /// How many silent ticks follow the link.
    pub link_rest: u32,
    /// How many silent ticks follow the line of the device that receives.
    pub received_rest: u32,
}

// Returns a guard, if a spacer stands behind the receiver.
fn guard_of<G: Guard>(alloc: Global, spaced: bool) -> Result<Option<G>, NoMemory>
    requires { G.gap_fits }
    ensures taken { IfOk result (λ guard. guard_taken G.Guard guard ≡ 0) }
    ensures guards { IfOk result (λ guard. Guards G.Guard spaced guard []) }
{
    if !spaced {
        return Ok(None);
    }
    match G::new(alloc) {
        Ok(guard) => Ok(Some(guard)),
        Err(NoMemory) => Err(NoMemory),
    }
}

// Returns the frames that should be read, since they have passed or since a guard has read them.
#[inline]
fn expected_of<'a, G: Guard>(late: Lateness, passed: &'a Kept<G>) -> Expected<'a>
    ensures late { result.late ≡ late }
    ensures frames { (spaced : Bool) (passed_ones : List NumberedFrame) (line : List Tick)
        → Holds passed.now.frames (kept_frames passed_ones)
        → Guards G.Guard spaced passed.now.guard line
        → AreExpected result (expected_by spaced late.late passed_ones (G.reads line)) }
    ensures in_time { (passed_ones : List NumberedFrame)
        → Holds passed.now.frames (kept_frames passed_ones)
        → All (λ f. late.late + f.start < 2 ^ 64) passed_ones → AreInTime result }
{
    let origin = match &passed.guard {
        None => Origin::Passed(&passed.frames),
        Some(guard) => Origin::Spaced(guard.frames()),
    };
    Expected { late, origin }
}

/// Takes three recordings of a session that two marks separate. The line of the device that sends
/// goes to a transmitter `S`, the link goes to a receiver `C`, and a device `V` hears the line of
/// the device that receives. The frames that are sealed and passed are kept. If there is a guard
/// `G`, it hears the receiver's line. A frame that is read is compared with the one that should be
/// read at its place, and only the first one that isn't the same is kept. No tick is kept, and
/// nothing is written.
#[derive(Drop)]
pub struct SessionLists<S, C, V, G> {
    sealer: S,
    checker: C,
    device: V,
    sealed: Kept<G>,
    passed: Kept<G>,
    read: Comparison,
    place: Place,
    timing: Timing,
}

impl<S: FrameBox, C: FrameBox, V: Device + Drop, G: Guard> SessionLists<S, C, V, G> {
    /// Lists of no frames, with boxes that have taken no tick, for a key of any length, a
    /// direction, and the floors of transmitter and receiver.
    pub fn new(
        alloc: Global,
        key: &[u8],
        dir: Dir,
        floors: Floors,
        timing: Timing,
    ) -> Result<SessionLists<S, C, V, G>, NoMemory>
        /// The widths of the transmitter are ones that it can be made with.
        requires sealer { S.widths_fit }
        /// The widths of the receiver are ones that it can be made with.
        requires checker { C.widths_fit }
        /// A guard can be made.
        requires guard { G.gap_fits }
        /// The transmitter's floor is at most 2^48 - 1.
        requires sent { floors.sent ≤ LIMIT }
        /// The receiver's floor is at most 2^48 - 1.
        requires got { floors.got ≤ LIMIT }
        /// The silences after the recordings are at most 100,000 ticks together.
        requires short { all_rests timing ≤ 100000 }
        /// If there was memory, the lists hold the frames of no ticks, of boxes with this key and
        /// direction at these floors.
        ensures has { IfOk result (λ lists.
            HasSession S.FrameBox C.FrameBox V.Device G.Guard lists (record {
              sent = setup_of key.now dir floors.sent;
              got = setup_of key.now dir floors.got;
              timing = timing;
            }) [] [] []) }
        /// If there was memory, the lists have taken no item.
        ensures may_list { IfOk result
            (MayListSession S.FrameBox C.FrameBox V.Device G.Guard) }
    {
        match guard_of(alloc, timing.spaced) {
            Ok(guard) => Ok(SessionLists {
                sealer: S::new(key, dir, floors.sent),
                checker: C::new(key, dir, floors.got),
                device: V::fresh(),
                sealed: Kept::new(alloc, None),
                passed: Kept::new(alloc, guard),
                read: Comparison::new(),
                place: Place::First,
                timing,
            }),
            Err(NoMemory) => Err(NoMemory),
        }
    }

    // Takes the first ticks of this run, at least one, and returns how many.
    #[inline(always)]
    fn take_front(&mut self, run: TickRun<'_>) -> Result<usize, NoMemory>
        requires some { 0 < length (run_ticks run) }
        requires room { session_taken S.FrameBox C.FrameBox V.Device G.Guard self.old
            + length (run_ticks run) ≤ MAX_TICKS }
        requires able { IsOpenList S.FrameBox C.FrameBox V.Device G.Guard self.old }
        ensures { IfOk result (λ n. GivesFirst (parting S.FrameBox C.FrameBox V.Device G.Guard) self.old
            self.new (run_items run.entry) n) }
    {
        match self.place {
            Place::First => match take_front(&mut self.sealer, &mut self.sealed, run) {
                Ok(count) => Ok(count),
                Err(NoMemory) => Err(NoMemory),
            },
            Place::Second => match take_front(&mut self.checker, &mut self.passed, run) {
                Ok(count) => Ok(count),
                Err(NoMemory) => Err(NoMemory),
            },
            Place::Third | Place::None => {
                let expected = expected_of(self.timing.late, &self.passed);
                Ok(hear_front(&mut self.device, &mut self.read, expected, run))
            }
        }
    }

    /// The frames that were sealed.
    pub fn sealed(&self) -> &FrameList<Numbered>
        /// As long as the lists may be given ticks, this list has at most as many frames as ticks
        /// were taken.
        ensures few { IsOpenList S.FrameBox C.FrameBox V.Device G.Guard self.now
            → list_len result.now ≤ session_taken S.FrameBox C.FrameBox V.Device G.Guard self.now }
        /// They are the frames that are sealed of the first recording.
        ensures frames { (setups : SetupsOfLists) (device link received : List Tick)
            → HasSession S.FrameBox C.FrameBox V.Device G.Guard self.now setups device link received
            → Holds result.now (kept_frames ((S.numbering setups.sent).frames device)) }
    {
        &self.sealed.frames
    }

    /// The frames that have passed.
    pub fn passed(&self) -> &FrameList<Numbered>
        /// As long as the lists may be given ticks, this list has at most as many frames as ticks
        /// were taken.
        ensures few { IsOpenList S.FrameBox C.FrameBox V.Device G.Guard self.now
            → list_len result.now ≤ session_taken S.FrameBox C.FrameBox V.Device G.Guard self.now }
        /// They are the frames that pass of the second recording.
        ensures frames { (setups : SetupsOfLists) (device link received : List Tick)
            → HasSession S.FrameBox C.FrameBox V.Device G.Guard self.now setups device link received
            → Holds result.now (kept_frames ((C.numbering setups.got).frames link)) }
    {
        &self.passed.frames
    }

    /// How many frames were read.
    pub fn read_count(&self) -> u64
        /// As long as the lists may be given ticks, it is at most as many as ticks were taken.
        ensures few { IsOpenList S.FrameBox C.FrameBox V.Device G.Guard self.now
            → result ≤ session_taken S.FrameBox C.FrameBox V.Device G.Guard self.now }
        /// It is the number of frames that the device reads of the third recording.
        ensures count { (setups : SetupsOfLists) (device link received : List Tick)
            → HasSession S.FrameBox C.FrameBox V.Device G.Guard self.now setups device link received
            → result ≡ length (V.reads received) }
    {
        self.read.read()
    }

    /// Returns the first difference between the frames that should be read and those that were.
    /// `None` if there is no difference.
    pub fn difference(&self) -> Option<Difference>
        /// The lists are those of some recordings, and each frame that has passed is read, without a
        /// spacer, from a tick below 2^64 on.
        requires { AreReadInTime S.FrameBox C.FrameBox V.Device G.Guard self.now }
        ensures { (setups : SetupsOfLists) (device link received : List Tick)
            → HasSession S.FrameBox C.FrameBox V.Device G.Guard self.now setups device link received
            → result ≡ difference_of setups.timing.late
            (expected_of S.FrameBox C.FrameBox V.Device G.Guard setups link) (V.reads received) }
    {
        self.read
            .difference(expected_of(self.timing.late, &self.passed))
    }

    /// Takes three recordings from memory, and the link's silence after the link.
    pub(crate) fn take_lines(
        &mut self,
        device: &[Tick],
        link: &[Tick],
        received: &[Tick],
    ) -> Result<(), NoMemory>
        requires room { session_taken S.FrameBox C.FrameBox V.Device G.Guard self.old
            + length device.now + length link.now + length received.now ≤ MAX_TICKS }
        requires first { self.old.place ≡ First }
        requires able { IsOpenList S.FrameBox C.FrameBox V.Device G.Guard self.old }
        requires nothing { V.reads [] ≡ [] }
        ensures has { OnOk result ((setups : SetupsOfLists)
            → HasSession S.FrameBox C.FrameBox V.Device G.Guard self.old setups [] [] []
            → HasSession S.FrameBox C.FrameBox V.Device G.Guard self.new setups device.now
            (link.now ++ silent setups.timing.link_rest) received.now) }
        ensures able { OnOk result (IsOpenList S.FrameBox C.FrameBox V.Device G.Guard self.new) }
        ensures taken { OnOk result (session_taken S.FrameBox C.FrameBox V.Device G.Guard self.new
            ≡ session_taken S.FrameBox C.FrameBox V.Device G.Guard self.old
            + length device.now + length link.now + length received.now) }
        ensures timing { OnOk result (self.new.timing ≡ self.old.timing) }
    {
        let Ok(()) = take_line(&mut self.sealer, &mut self.sealed, device) else {
            return Err(NoMemory);
        };
        let Ok(()) = take_line(&mut self.checker, &mut self.passed, link) else {
            return Err(NoMemory);
        };
        let Ok(()) = take_silence(&mut self.checker, &mut self.passed, self.timing.link_rest) else {
            return Err(NoMemory);
        };
        self.place = Place::Third;
        let expected = expected_of(self.timing.late, &self.passed);
        hear_line(&mut self.device, &mut self.read, expected, received);
        Ok(())
    }

    /// Takes the silent ticks after the lines of the two devices. Those after the link were taken
    /// before the last line began.
    pub(crate) fn rest(&mut self) -> Result<(), NoMemory>
        requires room { session_taken S.FrameBox C.FrameBox V.Device G.Guard self.old
            + all_rests self.old.timing ≤ MAX_TICKS }
        requires able { IsOpenList S.FrameBox C.FrameBox V.Device G.Guard self.old }
        ensures rests { OnOk result ((setups : SetupsOfLists) (a b c : List Tick)
            → HasSession S.FrameBox C.FrameBox V.Device G.Guard self.old setups a b c
            → HasSession S.FrameBox C.FrameBox V.Device G.Guard self.new setups
            (a ++ silent setups.timing.sent_rest) b (c ++ silent setups.timing.received_rest)) }
        ensures able { OnOk result (IsOpenList S.FrameBox C.FrameBox V.Device G.Guard self.new) }
        ensures taken { OnOk result (session_taken S.FrameBox C.FrameBox V.Device G.Guard self.new
            ≤ session_taken S.FrameBox C.FrameBox V.Device G.Guard self.old + all_rests self.old.timing) }
    {
        let timing = self.timing;
        let Ok(()) = take_silence(&mut self.sealer, &mut self.sealed, timing.sent_rest) else {
            return Err(NoMemory);
        };
        let expected = expected_of(timing.late, &self.passed);
        hear_rest(
            &mut self.device,
            &mut self.read,
            expected,
            timing.received_rest,
        );
        Ok(())
    }

    // Takes the silence after the link, which has ended. So all frames of the link that pass have
    // done so before the last line begins.
    fn end_link(&mut self) -> Result<(), NoMemory>
        requires room { session_taken S.FrameBox C.FrameBox V.Device G.Guard self.old ≤ MAX_TICKS }
        requires second { self.old.place ≡ Second }
        requires able { IsOpenList S.FrameBox C.FrameBox V.Device G.Guard self.old }
        ensures { OnOk result (Gives (parting S.FrameBox C.FrameBox V.Device G.Guard) self.old self.new
            (mark ∷ []) (Ok tt)) }
    {
        let rest = self.timing.link_rest;
        let Ok(()) = take_silence(&mut self.checker, &mut self.passed, rest) else {
            return Err(NoMemory);
        };
        self.place = Place::Third;
        Ok(())
    }
}

impl<S: FrameBox, C: FrameBox, V: Device + Drop, G: Guard> Consumer for SessionLists<S, C, V, G> {
    ghost meaning = { parting S.FrameBox C.FrameBox V.Device G.Guard };

    #[inline(always)]
    fn take_some(&mut self, run: TickRun<'_>) -> Result<usize, Stop> {
        match self.take_front(run) {
            Ok(count) => Ok(count),
            Err(NoMemory) => Err(Stop::NoMemory),
        }
    }

    fn take_mark(&mut self) -> Result<(), Stop> {
        if let Place::Second = self.place {
            return match self.end_link() {
                Ok(()) => Ok(()),
                Err(NoMemory) => Err(Stop::NoMemory),
            };
        }
        self.place = self.place.behind();
        Ok(())
    }

    ghost went_none = { λ lists able. tt };

    ghost went_then = { λ a b c result first second. tt };
}
