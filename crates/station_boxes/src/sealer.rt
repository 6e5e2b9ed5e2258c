//! The transmitter of several stations: its step for a tick.
ghost use Rattle.std.specs.Prelude.{◌≡◌};

use crate::station::{Station, Taken, key_of, take_number};
use crate::{Naming, StationNote, UnsealedStationWhy};
use arrayvec::ArrayVec;
use frame_ending::{BoxStep, BurstCut, Cut};
use line_rules::LineRules;
use link_format::{Dir, Mac, Trailer};
use sequence_journal::JournalFault;
use yasir_io::SlotDisk;
use yasir_ticks::{MAX_TICKS, T3_5_TICKS, Tick};

/// The transmitter of several stations, by the rules `R` of a protocol, with words of `B` bytes and
/// tags by `M`. It does with each burst what the transmitter of one station does, under the key and
/// with the next number of the station that the frame names. A frame that names no station of the
/// table is forwarded, and not sealed.
///
/// It keeps no frame but the first bytes, up to those that name the station. From there on each live
/// byte goes into the text of the tag as it comes.
#[derive(Drop)]
pub struct StationSealer<R, M, const B: usize> {
    cut: BurstCut<R>,
    // the text of the tag, once the station of the running burst is known
    mac: M,
    // the first bytes of the burst, up to those that name the station
    head: ArrayVec<u8, 8>,
    naming: Naming,
    direction: Dir,
    // a burst that starts before this tick is early
    earliest_start: u64,
    trailer: Trailer<B>,
}

impl<R: LineRules, M: Mac, const B: usize> StationSealer<R, M, B> {
    ghost use Rattle.std.specs.Prelude.{ℕ, ◌+◌, ◌<◌, ◌≤◌, nat_lt, List, [], ◌∷◌, ◌++◌, drop, length};
    ghost use Rattle.std.specs.Prelude.{None, OnOk, OnErr, IfOk, IfSome, All};
    ghost use Rattle.yasir_ticks.specs.declared.tick.Tick.{Tick};
    ghost use Rattle.yasir_ticks.specs.declared.tick.Tick.TheVariants.{Silent};
    ghost use Rattle.frame_ending.specs.declared.cut.Cut.{Cut};
    ghost use Rattle.frame_ending.specs.declared.cut.Cut.TheVariants.{Start, Live, Closed};
    ghost use Rattle.frame_ending.specs.Cuts.{IsPassing};
    ghost use Rattle.frame_ending.specs.SoFar.{start_so_far};
    ghost use Rattle.frame_ending.specs.Stands.{CutStandsFor};
    ghost use Rattle.link_format.specs.Profile.{IsWordLen};
    ghost use Rattle.link_format.specs.Trailers.{bytes_unsent, first_of};
    ghost use Rattle.link_format.specs.Tag.{direction_number};
    ghost use Rattle.link_box.specs.Links.{link_by};
    ghost use Rattle.link_box.specs.Sealing.Judgement.{sealed_with, unsealed};
    ghost use Rattle.stations.specs.Table.{StationEntry, table_key};
    ghost use Rattle.station_boxes.specs.Answers.{KeepsStations, one_why};
    ghost use Rattle.station_boxes.specs.Between.{IsBetween, IsFormJudged, IsOfForm, noteless};
    ghost use Rattle.station_boxes.specs.Between.{IsLeft, IsRight, IsSealedNow, FailsNext};
    ghost use Rattle.stations.specs.Shared.{SharedState};
    ghost use Rattle.station_boxes.specs.Served.{table_of, FitsOf, ServesOf};
    ghost use Rattle.station_boxes.specs.Stands.{StationsStandFor, StationsHaveTaken, sealer_ticks};
    ghost use Rattle.station_boxes.specs.Stands.{sealer_direction};
    ghost use Rattle.station_boxes.specs.Walks.{StationSetup, HasHeard, HasText};
    ghost use Rattle.station_boxes.specs.declared.note.StationNote.TheVariants.{Sealed, Unsealed};
    ghost use Rattle.station_boxes.specs.Names.{name_in};
    ghost use Rattle.sequence_journal.specs.declared.link.LinkId.{LinkId};
    ghost use Rattle.std.specs.Prelude.{Some};

    /// Makes a transmitter that has taken no tick, for frames that name their stations so, and a
    /// direction.
    pub fn new(naming: Naming, dir: Dir) -> StationSealer<R, M, B>
        /// A word has from 1 to 4 bytes.
        requires word { IsWordLen B }
        /// It has taken 0 ticks.
        ensures taken { sealer_ticks result ≡ 0 }
        /// It has the direction that is named.
        ensures direction { sealer_direction result ≡ direction_number dir }
        /// It begins with this way of naming and this direction, whatever table it serves.
        ensures stands { (table : List StationEntry) → StationsStandFor R.LineRules M.Mac result
            table
            (record { naming = naming; direction = direction_number dir; table = table }) [] }
    {
        StationSealer {
            cut: BurstCut::new(),
            mac: M::with_key(&[]),
            head: ArrayVec::new(),
            naming,
            direction: dir,
            earliest_start: 0,
            trailer: Trailer::none(),
        }
    }

    /// Takes the next tick of the control centre. Returns the tick of the link at the same place, and
    /// the note that falls into this step, if there is one. The stations must be those of the steps
    /// before, and each journal must serve the transmitter's link. Fewer than `MAX_TICKS` ticks may
    /// have been taken before.
    ///
    /// It fails if the number of a frame isn't committed. Then the frame isn't sealed, and no step
    /// may follow.
    pub fn step<D: SlotDisk>(
        &mut self,
        t: Tick,
        stations: &mut [Station<D>],
    ) -> Result<BoxStep<StationNote>, JournalFault>
        /// Fewer than 2^62 ticks were taken before.
        requires room { sealer_ticks self.old < MAX_TICKS }
        /// Each journal serves the transmitter's own link.
        requires of_link { All (ServesOf (link_by R.LineRules M.Mac B (sealer_direction self.old)))
            stations.old }
        /// Each disk is as its journal knows it.
        requires fits { All (FitsOf D.SlotDisk) stations.old }

        /// A step that succeeds counts its tick.
        ensures taken { OnOk result (sealer_ticks self.new ≡ sealer_ticks self.old + 1) }
        /// What is returned is the tick that the definition's link line goes on with, and the note
        /// that falls into this step, if one does; the floors of the stations are those after it.
        ensures step { IfOk result (λ step. (setup : StationSetup) (line : List Tick)
            → StationsStandFor R.LineRules M.Mac self.old (table_of stations.old) setup line
            → StationsHaveTaken R.LineRules M.Mac self.new (table_of stations.new) setup line t
            step) }
        /// It fails only in a step in which a burst is sealed by the definitions, with the next
        /// number of its station, and this number isn't committed.
        ensures err_seals { OnErr result ((setup : StationSetup) (line : List Tick)
            → StationsStandFor R.LineRules M.Mac self.old (table_of stations.old) setup line
            → FailsNext R.LineRules M.Mac B D.SlotDisk stations.old stations.new setup line t) }
        /// A number is committed exactly with a note that a frame is sealed, and no other station
        /// changes. A fault comes only if the count of that station's disk rose. If its journal was
        /// crash-safe, it still is, and a crash at any moment of the step leaves no floor below the
        /// one before.
        ensures stations { KeepsStations D.SlotDisk stations.old stations.new
            (link_by R.LineRules M.Mac B (sealer_direction self.old)) result }
        /// The direction stays.
        ensures direction { sealer_direction self.new ≡ sealer_direction self.old }
    {
        match self.cut.step(t) {
            Cut::Start(byte) => Ok(self.begin(byte, stations)),
            Cut::Live(byte) => Ok(self.go_on(byte, stations)),
            Cut::Closed => self.close(stations),
            Cut::Extra(_) | Cut::Pause(_) | Cut::Quiet => Ok(self.pass()),
        }
    }

    // Whether the running burst, or else the last one, is early.
    fn is_early(&self) -> bool
        ensures { (line : List Tick) → CutStandsFor R.LineRules self.now.cut line
            → result ≡ nat_lt (start_so_far line) self.now.earliest_start }
    {
        self.cut.start() < self.earliest_start
    }

    // Sends the next byte of the trailer, or silence if nothing is left of it. The step has no
    // note.
    fn send(&mut self) -> BoxStep<StationNote>
        ensures rest { self.new ≡ record self.old { trailer = self.new.trailer } }
        ensures unsent { bytes_unsent self.new.trailer ≡ drop 1 (bytes_unsent self.old.trailer) }
        ensures answer { result ≡ noteless (first_of (bytes_unsent self.old.trailer)) }
    {
        BoxStep {
            tick: self.trailer.next_tick(),
            note: None,
        }
    }

    // Takes a tick that isn't forwarded and closes no burst.
    fn pass(&mut self) -> BoxStep<StationNote>
        ensures cut { self.new.cut ≡ self.old.cut }
        ensures note { result.note ≡ None }
        ensures step { (table : List StationEntry) (setup : StationSetup) (s : SharedState)
            (line : List Tick) (t : Tick) (cut : Cut) → IsPassing cut
            → IsBetween R.LineRules M.Mac self.old table setup s line t cut
            → StationsHaveTaken R.LineRules M.Mac self.new table setup line t result }
        ensures direction { sealer_direction self.new ≡ sealer_direction self.old }
    {
        self.send()
    }

    // Takes the first byte of a burst.
    fn begin<D>(&mut self, byte: u8, stations: &[Station<D>]) -> BoxStep<StationNote>
        ensures cut { self.new.cut ≡ self.old.cut }
        ensures note { result.note ≡ None }
        ensures step { (setup : StationSetup) (s : SharedState) (line : List Tick) (t : Tick)
            → IsBetween R.LineRules M.Mac self.old (table_of stations.now) setup s line t
            (Start byte)
            → StationsHaveTaken R.LineRules M.Mac self.new (table_of stations.now) setup line t
            result }
        ensures direction { sealer_direction self.new ≡ sealer_direction self.old }
    {
        if self.is_early() {
            return self.send();
        }
        self.head.clear();
        self.hear(byte, stations);
        BoxStep {
            tick: Tick::Byte(byte),
            note: None,
        }
    }

    // Takes another live byte of a burst.
    fn go_on<D>(&mut self, byte: u8, stations: &[Station<D>]) -> BoxStep<StationNote>
        ensures cut { self.new.cut ≡ self.old.cut }
        ensures note { result.note ≡ None }
        ensures step { (setup : StationSetup) (s : SharedState) (line : List Tick) (t : Tick)
            → IsBetween R.LineRules M.Mac self.old (table_of stations.now) setup s line t
            (Live byte)
            → StationsHaveTaken R.LineRules M.Mac self.new (table_of stations.now) setup line t
            result }
        ensures direction { sealer_direction self.new ≡ sealer_direction self.old }
    {
        if self.is_early() {
            return self.send();
        }
        self.hear(byte, stations);
        BoxStep {
            tick: Tick::Byte(byte),
            note: None,
        }
    }

    // Takes a live byte into the text of the tag, or keeps it until the station is known.
    fn hear<D>(&mut self, byte: u8, stations: &[Station<D>])
        ensures others { self.new
            ≡ record self.old { mac = self.new.mac; head = self.new.head } }
        ensures heard { (setup : StationSetup) (live : List ℕ)
            → self.old.naming ≡ setup.naming
            → direction_number self.old.direction ≡ setup.direction
            → ((i : ℕ) → table_key (table_of stations.now) i ≡ table_key setup.table i)
            → HasHeard R.LineRules M.Mac self.old.mac self.old.head.items setup live
            → HasHeard R.LineRules M.Mac self.new.mac self.new.head.items setup
            (live ++ byte ∷ []) }
    {
        if self.head.len() >= self.naming.name_len() {
            self.mac.update(&[byte]);
            return;
        }
        self.head.push(byte);
        if self.head.len() < self.naming.name_len() {
            return;
        }
        self.begin_text(stations);
    }

    // Begins the text of the tag with the bytes that are kept, under the key of the station that
    // they name.
    fn begin_text<D>(&mut self, stations: &[Station<D>])
        ensures others { self.new ≡ record self.old { mac = self.new.mac } }
        ensures text { M.stands self.new.mac
            (table_key (table_of stations.now) (name_in self.old.naming self.old.head.items))
            (R.rules.label ∷ direction_number self.old.direction ∷ self.old.head.items) }
    {
        let name = self.naming.name_in(self.head.as_slice());
        self.mac = M::with_key(key_of(stations, name));
        self.mac.update(&[R::LABEL, self.direction.number()]);
        self.mac.update(self.head.as_slice());
    }

    // Begins the text of the tag if the burst has ended before the bytes that name the station.
    fn complete<D>(&mut self, stations: &[Station<D>])
        ensures others { self.new ≡ record self.old { mac = self.new.mac } }
        ensures text { (setup : StationSetup) (live : List ℕ)
            → self.old.naming ≡ setup.naming
            → direction_number self.old.direction ≡ setup.direction
            → ((i : ℕ) → table_key (table_of stations.now) i ≡ table_key setup.table i)
            → HasHeard R.LineRules M.Mac self.old.mac self.old.head.items setup live
            → HasText R.LineRules M.Mac self.new.mac setup live }
    {
        if self.head.len() >= self.naming.name_len() {
            return;
        }
        self.begin_text(stations);
    }

    // Returns why the burst that is now closed isn't sealed, whatever station it names, or `None` if
    // it is a frame.
    fn formless(&self) -> Option<UnsealedStationWhy>
        ensures form { IfSome result IsOfForm }
        ensures judged { (line : List Tick) → CutStandsFor R.LineRules self.now.cut line
            → IsFormJudged R.rules self.now.earliest_start line result }
    {
        if self.is_early() {
            return Some(UnsealedStationWhy::Early);
        }
        if self.cut.extra() {
            return Some(UnsealedStationWhy::Form);
        }
        if !self.cut.rules().good() {
            return Some(UnsealedStationWhy::Form);
        }
        None
    }

    // Judges the burst that this tick closes, and seals it or leaves it.
    fn close<D: SlotDisk>(
        &mut self,
        stations: &mut [Station<D>],
    ) -> Result<BoxStep<StationNote>, JournalFault>
        requires room { sealer_ticks self.old ≤ MAX_TICKS }
        requires fits { All (FitsOf D.SlotDisk) stations.old }

        ensures cut { OnOk result (self.new.cut ≡ self.old.cut) }
        ensures step { IfOk result (λ step. (setup : StationSetup) (s : SharedState)
            (line : List Tick)
            → IsBetween R.LineRules M.Mac self.old (table_of stations.old) setup s line Silent Closed
            → StationsHaveTaken R.LineRules M.Mac self.new (table_of stations.new) setup line Silent
            step) }
        ensures err_seals { OnErr result ((setup : StationSetup) (s : SharedState)
            (line : List Tick)
            → IsBetween R.LineRules M.Mac self.old (table_of stations.old) setup s line Silent Closed
            → FailsNext R.LineRules M.Mac B D.SlotDisk stations.old stations.new setup line Silent) }
        ensures stations { (link : LinkId) → All (ServesOf link) stations.old
            → KeepsStations D.SlotDisk stations.old stations.new link result }
        ensures direction { sealer_direction self.new ≡ sealer_direction self.old }
    {
        match self.formless() {
            Some(why) => Ok(self.leave(why)),
            None => self.close_frame(stations),
        }
    }

    // Seals the closed burst, which is a frame, if its station is in the table and has a number left.
    fn close_frame<D: SlotDisk>(
        &mut self,
        stations: &mut [Station<D>],
    ) -> Result<BoxStep<StationNote>, JournalFault>
        requires room { sealer_ticks self.old ≤ MAX_TICKS }
        requires fits { All (FitsOf D.SlotDisk) stations.old }

        ensures cut { OnOk result (self.new.cut ≡ self.old.cut) }
        ensures step { IfOk result (λ step. (setup : StationSetup) (s : SharedState)
            (line : List Tick)
            → IsBetween R.LineRules M.Mac self.old (table_of stations.old) setup s line Silent Closed
            → IsRight R.rules self.old.earliest_start (line ++ Silent ∷ [])
            → StationsHaveTaken R.LineRules M.Mac self.new (table_of stations.new) setup line Silent
            step) }
        ensures err_seals { OnErr result ((setup : StationSetup) (s : SharedState)
            (line : List Tick)
            → IsBetween R.LineRules M.Mac self.old (table_of stations.old) setup s line Silent Closed
            → IsRight R.rules self.old.earliest_start (line ++ Silent ∷ [])
            → FailsNext R.LineRules M.Mac B D.SlotDisk stations.old stations.new setup line Silent) }
        ensures stations { (link : LinkId) → All (ServesOf link) stations.old
            → KeepsStations D.SlotDisk stations.old stations.new link result }
        ensures direction { sealer_direction self.new ≡ sealer_direction self.old }
    {
        self.complete(stations);
        let name = self.naming.name_in(self.head.as_slice());
        match take_number(stations, name) {
            Ok(Taken::Number(number)) => Ok(self.seal(name, number)),
            Ok(Taken::Spent) => Ok(self.leave(UnsealedStationWhy::Spent)),
            Ok(Taken::Unlisted) => Ok(self.leave(UnsealedStationWhy::Station)),
            Err(JournalFault) => Err(JournalFault),
        }
    }

    // Leaves the closed burst without a trailer, for this reason.
    fn leave(&mut self, why: UnsealedStationWhy) -> BoxStep<StationNote>
        ensures cut { self.new.cut ≡ self.old.cut }
        ensures note { (start : ℕ) × (result.note ≡ Some (Unsealed start why)) }
        ensures step { (table : List StationEntry) (setup : StationSetup) (s : SharedState)
            (line : List Tick)
            → IsBetween R.LineRules M.Mac self.old table setup s line Silent Closed
            → IsLeft R.LineRules M.Mac B setup s (line ++ Silent ∷ []) why
            → StationsHaveTaken R.LineRules M.Mac self.new table setup line Silent result }
        ensures direction { sealer_direction self.new ≡ sealer_direction self.old }
    {
        BoxStep {
            tick: self.trailer.next_tick(),
            note: Some(StationNote::Unsealed {
                start: self.cut.start(),
                why,
            }),
        }
    }

    // Seals the closed burst for this station with this number, which must have been committed.
    fn seal(&mut self, station: u16, number: u64) -> BoxStep<StationNote>
        requires room { sealer_ticks self.old ≤ MAX_TICKS }
        ensures cut { self.new.cut ≡ self.old.cut }
        ensures note { (start : ℕ) × (len : ℕ)
            × (result.note ≡ Some (Sealed station number start len)) }
        ensures step { (old new : List StationEntry) (setup : StationSetup) (s : SharedState)
            (line : List Tick)
            → IsBetween R.LineRules M.Mac self.old old setup s line Silent Closed
            → IsSealedNow R.LineRules M.Mac B self.old.mac new setup s (line ++ Silent ∷ [])
            station number
            → StationsHaveTaken R.LineRules M.Mac self.new new setup line Silent result }
        ensures direction { sealer_direction self.new ≡ sealer_direction self.old }
    {
        self.mac.update(&number.to_be_bytes());
        let tag = self.mac.finish();
        self.trailer.load(number, &tag);
        // the tick of this step is the trailer's first one
        self.earliest_start = self.cut.ticks() + (B + M::TAG) as u64 + u64::from(T3_5_TICKS - 1);
        BoxStep {
            tick: self.trailer.next_tick(),
            note: Some(StationNote::Sealed {
                station,
                number,
                start: self.cut.start(),
                len: self.cut.rules().len(),
            }),
        }
    }
}
