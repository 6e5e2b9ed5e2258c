//! The receiver of several stations: its step for a tick.
ghost use Rattle.std.specs.Prelude.{◌≡◌, ◌<◌, ◌≤◌, false, Some, None};
ghost use Rattle.sequence_journal.specs.Journal.{journal_link, journal_floor, is_broken, Fits};
ghost use Rattle.sequence_journal.specs.Links.{HasDirection};
ghost use Rattle.sequence_journal.specs.declared.numbers.TheConstants.{LIMIT};
ghost use Rattle.link_format.specs.Profile.{IsWordLen};
ghost use Rattle.link_format.specs.Tag.{direction_number};
ghost use Rattle.link_box.specs.Links.{link_by};
ghost use Rattle.station_boxes.specs.CheckBetween.{is_busy, why_by};

use crate::names::has_name;
use crate::station::{commit_number, floor_of, key_of};
use crate::{RefusedStationWhy, Station, StationCheckNote};
use check_receiver::Checker;
use frame_ending::{BoxStep, BurstCut, Cut};
use line_rules::LineRules;
use link_box::{CheckNote, DroppedWhy, RefusedWhy};
use link_format::{Dir, Mac};
use sequence_journal::{Journal, JournalFault, LIMIT, LinkId, NoSlots};
use yasir_io::{SLOT_LEN, SlotDisk, SteadySlots};
use yasir_ticks::{MAX_TICKS, Tick};

/// The receiver of several stations, by the rules `R` of a protocol whose frames name their station
/// in the first byte, with words of `B` bytes and tags by `M`. It does with each burst what the
/// receiver of one station does, under the key and at the floor of the station that the burst names.
/// A frame that names no station of the table is refused before any key is asked for.
///
/// The receiver of one station is begun anew with each burst that isn't dropped as others are still
/// leaving, for the station that the burst names. It goes on over numbers in memory, and the number
/// with which a frame passes is committed to the journal of the station.
#[derive(Drop)]
pub struct StationChecker<R, M, const B: usize, const D: usize> {
    cut: BurstCut<R>,
    // the receiver of the station, which has taken the ticks from tick `since` on
    checker: Checker<R, M, B, D>,
    since: u64,
    // the station that the first burst from there on names
    station: u16,
    // the numbers of the receiver of the station, and those of one that has used none
    journal: Journal,
    unused: Journal,
    direction: Dir,
}

// Returns the link of a receiver of this direction.
fn link_of_box<R: LineRules, M: Mac, const B: usize>(dir: Dir) -> LinkId
    requires { IsWordLen B }
    ensures value { result ≡ link_by R.LineRules M.Mac B (direction_number dir) }
    ensures right { HasDirection result }
{
    LinkId {
        label: R::LABEL,
        dir: dir.number(),
        profile: (4 + B + M::TAG) as u8,
    }
}

// Returns a journal of this link in memory at floor 0.
fn unused_journal(link: &LinkId) -> Journal
    requires link { HasDirection link.now }
    ensures of_link { journal_link result ≡ link.now }
    ensures whole { is_broken result ≡ false }
    ensures floor { journal_floor result ≡ 0 }
{
    let mut disk = SteadySlots::new([0; SLOT_LEN], [0; SLOT_LEN]);
    Journal::init(&mut disk, link).unwrap()
}

// Returns a journal in memory, of the link of this one, which is at floor 0, at another floor.
fn journal_at(unused: &Journal, floor: u64) -> Journal
    requires whole { is_broken unused.now ≡ false }
    requires start { journal_floor unused.now ≡ 0 }
    requires within { floor ≤ LIMIT }
    ensures of_link { journal_link result ≡ journal_link unused.now }
    ensures whole { is_broken result ≡ false }
    ensures floor { journal_floor result ≡ floor }
{
    let mut journal = unused.in_memory();
    if floor > 0 {
        journal.commit(&mut NoSlots, floor).unwrap();
    }
    journal
}

// Whether a burst was dropped since others are still leaving.
fn is_dropped_busy(note: &Option<CheckNote>) -> bool
    ensures { result ≡ is_busy note.now }
{
    match note {
        Some(CheckNote::Dropped { why, .. }) => match why {
            DroppedWhy::Busy => true,
            DroppedWhy::Head => false,
        },
        Some(CheckNote::Passed { .. }) | Some(CheckNote::Refused { .. }) | None => false,
    }
}

// Returns why a burst is refused, if its station is in the table, or isn't.
fn station_why(why: RefusedWhy, listed: bool) -> RefusedStationWhy
    ensures { result ≡ why_by listed why }
{
    match why {
        RefusedWhy::Trailer => RefusedStationWhy::Trailer,
        RefusedWhy::Form => RefusedStationWhy::Form,
        RefusedWhy::Number => {
            if listed {
                RefusedStationWhy::Number
            } else {
                RefusedStationWhy::Station
            }
        }
        RefusedWhy::Tag => RefusedStationWhy::Tag,
    }
}

// Returns a step with this tick and this note.
fn noted(tick: Tick, note: StationCheckNote) -> BoxStep<StationCheckNote>
    ensures { result ≡ record { tick = tick; note = Some note } }
{
    BoxStep {
        tick,
        note: Some(note),
    }
}

impl<R: LineRules, M: Mac, const B: usize, const D: usize> StationChecker<R, M, B, D> {
    ghost use Rattle.std.specs.Prelude.{ℕ, ◌+◌, ◌≤◌, List, [], ◌∷◌, OnOk, OnErr, IfOk, All, Result, Ok};
    ghost use Rattle.yasir_ticks.specs.declared.TheConstants.{MAX_TICKS};
    ghost use Rattle.yasir_ticks.specs.declared.tick.Tick.{Tick};
    ghost use Rattle.frame_ending.specs.Stands.{ticks_taken as ticks_cut};
    ghost use Rattle.link_format.specs.Setup.{Setup};
    ghost use Rattle.check_receiver.specs.Stands.{CheckerStandsFor, CheckerHasTaken};
    ghost use Rattle.check_receiver.specs.Stands.{checker_direction, checker_ticks};
    ghost use Rattle.sequence_journal.specs.declared.link.LinkId.{LinkId};
    ghost use Rattle.stations.specs.Table.{StationEntry};
    ghost use Rattle.station_boxes.specs.CheckBetween.{FailsPassed, IsCutNext, IsHeard, UsesNoted};
    ghost use Rattle.station_boxes.specs.CheckBetween.{IsTurned};
    ghost use Rattle.station_boxes.specs.CheckStands.{IsAhead, StationsCheckFor};
    ghost use Rattle.station_boxes.specs.CheckStands.{StationsHaveChecked, check_direction};
    ghost use Rattle.station_boxes.specs.CheckStands.{stations_checked};
    ghost use Rattle.station_boxes.specs.Checks.{KeepsChecked};
    ghost use Rattle.station_boxes.specs.Served.{table_of, FitsOf, ServesOf};
    ghost use Rattle.station_boxes.specs.Walks.{StationSetup};
    ghost use Rattle.station_boxes.specs.declared.naming.Naming.TheVariants.{FirstByte};

    /// Makes a receiver that has taken no tick, for a direction. A word must have at least two bytes,
    /// so that each header is judged before its first byte leaves.
    pub fn new(dir: Dir) -> StationChecker<R, M, B, D>
        /// A word has from 1 to 4 bytes.
        requires word { IsWordLen B }
        /// A word has at least two bytes.
        requires wide { 2 ≤ B }
        /// The delay is four ticks more than word and tag have bytes.
        requires delay { D ≡ 4 + B + M.TAG }
        /// It has taken 0 ticks.
        ensures taken { stations_checked result ≡ 0 }
        /// It has the direction that is named.
        ensures direction { check_direction result ≡ direction_number dir }
        /// Its parts have taken the same ticks.
        ensures whole { IsAhead R.LineRules M.Mac result 0 }
        /// It begins with this direction, whatever table it serves, if frames name their station in
        /// the first byte.
        ensures stands { (table : List StationEntry) → StationsCheckFor R.LineRules M.Mac result table
            (record { naming = FirstByte; direction = direction_number dir; table = table }) [] }
    {
        let unused = unused_journal(&link_of_box::<R, M, B>(dir));
        StationChecker {
            cut: BurstCut::new(),
            checker: Checker::new(&[], dir),
            since: 0,
            station: 0,
            journal: journal_at(&unused, LIMIT),
            unused,
            direction: dir,
        }
    }

    /// Takes the next tick of the link. Returns the tick that the control centre is sent at the same
    /// place, and the note that falls into this step, if there is one. The stations must be those of
    /// the steps before, and each journal must serve the receiver's link. Fewer than `MAX_TICKS` ticks
    /// may have been taken before.
    ///
    /// It fails if the number of a frame that passes isn't committed. Then no step may follow.
    pub fn step<S: SlotDisk>(
        &mut self,
        t: Tick,
        stations: &mut [Station<S>],
    ) -> Result<BoxStep<StationCheckNote>, JournalFault>
        /// Fewer than 2^62 ticks were taken before.
        requires room { stations_checked self.old < MAX_TICKS }
        /// All steps before succeeded.
        requires whole { IsAhead R.LineRules M.Mac self.old 0 }
        /// Each journal serves the receiver's own link.
        requires of_link { All (ServesOf (link_by R.LineRules M.Mac B (check_direction self.old)))
            stations.old }
        /// Each disk is as its journal knows it.
        requires fits { All (FitsOf S.SlotDisk) stations.old }

        /// A step that succeeds counts its tick.
        ensures taken { OnOk result (stations_checked self.new ≡ stations_checked self.old + 1) }
        /// After a step that succeeds, another may follow.
        ensures whole { OnOk result (IsAhead R.LineRules M.Mac self.new 0) }
        /// What is returned is the tick that the definition's line goes on with, and the note that
        /// falls into this step, if one does; the floors of the stations are those after it.
        ensures step { IfOk result (λ step. (setup : StationSetup) (line : List Tick)
            → StationsCheckFor R.LineRules M.Mac self.old (table_of stations.old) setup line
            → StationsHaveChecked R.LineRules M.Mac self.new (table_of stations.new) setup line t
            step) }
        /// It fails only in a step in which a burst passes by the definitions, and the station that
        /// it names doesn't commit its number.
        ensures err_passes { OnErr result ((setup : StationSetup) (line : List Tick)
            → StationsCheckFor R.LineRules M.Mac self.old (table_of stations.old) setup line
            → FailsPassed R.LineRules M.Mac B S.SlotDisk stations.old stations.new setup line t) }
        /// A number is committed exactly with a note that a frame passed, by the station that the
        /// note names, and no other station changes. A fault comes only if the count of that
        /// station's disk rose. If its journal was crash-safe, it still is, and a crash at any moment
        /// of the step leaves no floor below the one before.
        ensures stations { KeepsChecked S.SlotDisk stations.old stations.new
            (link_by R.LineRules M.Mac B (check_direction self.old)) result }
        /// The direction stays.
        ensures direction { check_direction self.new ≡ check_direction self.old }
    {
        let cut = self.cut.step(t);
        let step = self.hear(t, cut, stations);
        self.note(step, stations)
    }

    // Takes the tick by the receiver of the last burst's station. If a burst begins and nothing is
    // still leaving, this receiver is begun anew before, for the station that the burst names.
    fn hear<S>(&mut self, t: Tick, cut: Cut, stations: &[Station<S>]) -> BoxStep<CheckNote>
        requires room { ticks_cut self.old.cut ≤ MAX_TICKS }
        requires ahead { IsAhead R.LineRules M.Mac self.old 1 }
        ensures cut { self.new.cut ≡ self.old.cut }
        ensures whole { IsAhead R.LineRules M.Mac self.new 0 }
        ensures step { (setup : StationSetup) (line : List Tick)
            → IsCutNext R.LineRules M.Mac self.old (table_of stations.now) setup line t cut
            → IsHeard R.LineRules M.Mac self.new (table_of stations.now) setup line t result }
        ensures direction { check_direction self.new ≡ check_direction self.old }
    {
        let step = self.take(t);
        match cut {
            Cut::Start(byte) => {
                if is_dropped_busy(&step.note) {
                    return step;
                }
                self.turn_to(u16::from(byte), stations);
                self.take(t)
            }
            Cut::Live(_) | Cut::Extra(_) | Cut::Pause(_) | Cut::Closed | Cut::Quiet => step,
        }
    }

    // Takes the tick by the receiver of the last burst's station.
    fn take(&mut self, t: Tick) -> BoxStep<CheckNote>
        requires room { ticks_cut self.old.cut ≤ MAX_TICKS }
        requires ahead { IsAhead R.LineRules M.Mac self.old 1 }
        ensures others { self.new
            ≡ record self.old { checker = self.new.checker; journal = self.new.journal } }
        ensures whole { IsAhead R.LineRules M.Mac self.new 0 }
        ensures step { (one : Setup) (since : List Tick)
            → CheckerStandsFor R.LineRules M.Mac self.old.checker self.old.journal one since
            → CheckerHasTaken R.LineRules M.Mac self.new.checker (journal_floor self.new.journal) one
            since t result }
        ensures used { UsesNoted (journal_floor self.old.journal) (journal_floor self.new.journal)
            result.note }
    {
        self.checker
            .step(t, &mut self.journal, &mut NoSlots)
            .unwrap()
    }

    // Begins the receiver of this station anew, with the tick that the value that cuts the line took
    // last.
    fn turn_to<S>(&mut self, station: u16, stations: &[Station<S>])
        requires room { 1 ≤ ticks_cut self.old.cut }
        requires whole { IsAhead R.LineRules M.Mac self.old 0 }
        ensures turned { IsTurned R.LineRules M.Mac self.old self.new (table_of stations.now) station }
        ensures ahead { IsAhead R.LineRules M.Mac self.new 1 }
    {
        self.checker = Checker::new(key_of(stations, station), self.direction);
        self.journal = journal_at(&self.unused, floor_of(stations, station));
        self.since = self.cut.ticks() - 1;
        self.station = station;
    }

    // Commits the number of a frame that passes, and tells the note as one of several stations.
    fn note<S: SlotDisk>(
        &mut self,
        step: BoxStep<CheckNote>,
        stations: &mut [Station<S>],
    ) -> Result<BoxStep<StationCheckNote>, JournalFault>
        requires fits { All (FitsOf S.SlotDisk) stations.old }
        ensures same { self.new ≡ self.old }
        ensures step { IfOk result (λ told. (setup : StationSetup) (line : List Tick) (t : Tick)
            → IsHeard R.LineRules M.Mac self.old (table_of stations.old) setup line t step
            → StationsHaveChecked R.LineRules M.Mac self.old (table_of stations.new) setup line t
            told) }
        ensures err_passes { OnErr result ((setup : StationSetup) (line : List Tick) (t : Tick)
            → IsHeard R.LineRules M.Mac self.old (table_of stations.old) setup line t step
            → FailsPassed R.LineRules M.Mac B S.SlotDisk stations.old stations.new setup line t) }
        ensures stations { (link : LinkId) → All (ServesOf link) stations.old
            → KeepsChecked S.SlotDisk stations.old stations.new link result }
    {
        let tick = step.tick;
        let start = self.cut.start();
        match step.note {
            Some(CheckNote::Passed { len, .. }) => {
                let number = self.journal.floor();
                let station = self.station;
                match commit_number(stations, station, number) {
                    Ok(true) => Ok(noted(
                        tick,
                        StationCheckNote::Passed {
                            station,
                            number,
                            start,
                            len,
                        },
                    )),
                    // this doesn't happen: the floors of the station and of the journal are the same
                    Ok(false) => Ok(BoxStep { tick, note: None }),
                    Err(JournalFault) => Err(JournalFault),
                }
            }
            Some(CheckNote::Refused { why, .. }) => {
                let listed = has_name(stations, self.station);
                let why = station_why(why, listed);
                Ok(noted(tick, StationCheckNote::Refused { start, why }))
            }
            Some(CheckNote::Dropped { why, .. }) => {
                Ok(noted(tick, StationCheckNote::Dropped { start, why }))
            }
            None => Ok(BoxStep { tick, note: None }),
        }
    }
}
