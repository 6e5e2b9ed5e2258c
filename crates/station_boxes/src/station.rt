//! The stations that a box serves: the name, the key and the journal of each.
ghost use Rattle.std.specs.Prelude.{◌≡◌, ◌==◌, ◌<◌, ◌≤◌, length, position, IfSome, IfOk, OnErr, All, ℕ};
ghost use Rattle.stations.specs.Table.{table_floor, table_key};
ghost use Rattle.station_boxes.specs.Served.{table_of, FitsOf, IsPlaceOf};
ghost use Rattle.station_boxes.specs.declared.station.Station.{Station};
ghost use Rattle.station_boxes.specs.Committing.{HasTakenNumber, HasFailedNext, MayCommitAt, CommitsAt};
ghost use Rattle.station_boxes.specs.Committing.{HasCommittedOrNot, HasFailedAt};
ghost use Rattle.sequence_journal.specs.declared.numbers.TheConstants.{LIMIT};

use arrayvec::ArrayVec;
use sequence_journal::{Journal, JournalFault, LIMIT};
use yasir_io::SlotDisk;

/// The key of a station, of at most 64 bytes, which is a block of both hash functions. HMAC hashes a
/// longer key first (RFC 2104), and so may the caller.
pub type StationKey = ArrayVec<u8, 64>;

/// A station of a line, as the box of the control centre knows it.
#[derive(Drop)]
pub struct Station<D> {
    /// The name by which frames name it.
    pub name: u16,
    /// The key that the centre and the station's box share.
    pub key: StationKey,
    /// The last number that was used for the station.
    pub journal: Journal,
    /// The disk that keeps the journal.
    pub disk: D,
}

// Returns where the first station with this name is.
pub(crate) fn place_of<D>(stations: &[Station<D>], name: u16) -> Option<usize>
    ensures value { result ≡ position (λ (one : Station D). one.name == name) stations.now }
    ensures within { IfSome result (λ place. place < length stations.now) }
{
    stations.iter().position(|station| station.name == name)
}

// Returns the key of the first station with this name, or no byte if none has it.
pub(crate) fn key_of<D>(stations: &[Station<D>], name: u16) -> &[u8]
    ensures { result.now ≡ table_key (table_of stations.now) name }
{
    match place_of(stations, name) {
        Some(place) => stations[place].key.as_slice(),
        None => &[],
    }
}

// Returns the floor of the first station with this name, or the limit if none has it.
pub(crate) fn floor_of<D>(stations: &[Station<D>], name: u16) -> u64
    ensures value { result ≡ table_floor LIMIT (table_of stations.now) name }
    ensures within { result ≤ LIMIT }
{
    match place_of(stations, name) {
        Some(place) => stations[place].journal.floor(),
        None => LIMIT,
    }
}

/// What became of the next number of a station.
pub(crate) enum Taken {
    /// It is committed.
    Number(u64),
    /// The greatest number has been used.
    Spent,
    /// The station isn't in the table.
    Unlisted,
}

// Commits the next number of the first station with this name, if there is one.
pub(crate) fn take_number<D: SlotDisk>(
    stations: &mut [Station<D>],
    name: u16,
) -> Result<Taken, JournalFault>
    requires { All (FitsOf D.SlotDisk) stations.old }
    ensures taken { IfOk result (HasTakenNumber D.SlotDisk stations.old stations.new name) }
    ensures failed { OnErr result (HasFailedNext D.SlotDisk stations.old stations.new name) }
{
    match place_of(stations, name) {
        Some(place) => take_next(stations, place),
        None => Ok(Taken::Unlisted),
    }
}

// Commits the next number of the station at this place, which is the first with its name.
fn take_next<D: SlotDisk>(stations: &mut [Station<D>], place: usize) -> Result<Taken, JournalFault>
    requires within { place < length stations.old }
    requires first { (name : ℕ) × IsPlaceOf stations.old name place }
    requires fits { All (FitsOf D.SlotDisk) stations.old }
    ensures taken { IfOk result (λ taken. (name : ℕ) → IsPlaceOf stations.old name place
        → HasTakenNumber D.SlotDisk stations.old stations.new name taken) }
    ensures failed { OnErr result ((name : ℕ) → IsPlaceOf stations.old name place
        → HasFailedNext D.SlotDisk stations.old stations.new name) }
{
    let floor = stations[place].journal.floor();
    if floor == LIMIT {
        return Ok(Taken::Spent);
    }
    let number = floor + 1;
    match commit_at(stations, place, number) {
        Ok(()) => Ok(Taken::Number(number)),
        Err(JournalFault) => Err(JournalFault),
    }
}

// Commits this number of the first station with this name, if there is one and the number is above
// its floor. Returns whether it did.
pub(crate) fn commit_number<D: SlotDisk>(
    stations: &mut [Station<D>],
    name: u16,
    number: u64,
) -> Result<bool, JournalFault>
    requires within { number ≤ LIMIT }
    requires fits { All (FitsOf D.SlotDisk) stations.old }
    ensures done { IfOk result (HasCommittedOrNot D.SlotDisk stations.old stations.new name number) }
    ensures failed { OnErr result (HasFailedAt D.SlotDisk stations.old stations.new name number) }
{
    match place_of(stations, name) {
        Some(place) => commit_above(stations, place, number),
        None => Ok(false),
    }
}

// Commits this number of the station at this place, which is the first with its name, if the number
// is above its floor. Returns whether it did.
fn commit_above<D: SlotDisk>(
    stations: &mut [Station<D>],
    place: usize,
    number: u64,
) -> Result<bool, JournalFault>
    requires within { number ≤ LIMIT }
    requires place { place < length stations.old }
    requires first { (name : ℕ) × IsPlaceOf stations.old name place }
    requires fits { All (FitsOf D.SlotDisk) stations.old }
    ensures done { IfOk result (λ done. (name : ℕ) → IsPlaceOf stations.old name place
        → HasCommittedOrNot D.SlotDisk stations.old stations.new name number done) }
    ensures failed { OnErr result ((name : ℕ) → IsPlaceOf stations.old name place
        → HasFailedAt D.SlotDisk stations.old stations.new name number) }
{
    if number <= stations[place].journal.floor() {
        return Ok(false);
    }
    match commit_at(stations, place, number) {
        Ok(()) => Ok(true),
        Err(JournalFault) => Err(JournalFault),
    }
}

// Commits this number of the station at this place.
fn commit_at<D: SlotDisk>(
    stations: &mut [Station<D>],
    place: usize,
    number: u64,
) -> Result<(), JournalFault>
    requires within { place < length stations.old }
    requires may { MayCommitAt D.SlotDisk stations.old place number }
    ensures { CommitsAt D.SlotDisk stations.old stations.new place number result }
{
    let station = &mut stations[place];
    station.journal.commit(&mut station.disk, number)
}
