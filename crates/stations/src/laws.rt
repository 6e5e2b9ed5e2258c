//! The laws of lines that several stations share.
ghost use Rattle.std.specs.Prelude.{◌≡◌, ◌≤◌, ◌∷◌, ◌++◌, ◌+◌, ℕ, List, [], length, false, Contains};
ghost use Rattle.yasir_ticks.specs.declared.tick.Tick.{Tick};
ghost use Rattle.device_model.specs.Stated.{StatedDevice, stated_rules, stated_reads};
ghost use Rattle.device_model.specs.Stated.{stated_silence, IsStatedWithin};
ghost use Rattle.frame_ending.specs.Longer.{Extends};
ghost use Rattle.yasir_ticks.specs.Bursts.{Burst, bursts};
ghost use Rattle.yasir_ticks.specs.Ticks.{AreTicks};
ghost use Rattle.frame_ending.specs.Walk.{notes_of, state_after};
ghost use Rattle.link_format.specs.Profile.{Profile, HasTags, delay};
ghost use Rattle.link_box.specs.Checking.{check_notes, passed, received_line};
ghost use Rattle.link_box.specs.Sealing.{link_line, seal_notes, sealed};
ghost use Rattle.link_box.specs.Packet.{IsPacket};
ghost use Rattle.link_box.specs.Timely.{IsTimely};
ghost use Rattle.link_box.specs.Verdicts.{checked};
ghost use Rattle.receiver_laws.specs.Headline.{bytes_read};
ghost use Rattle.receiver_laws.specs.OverUptimes.{BoxUptime, GoOnFrom, bytes_over, sealed_over};
ghost use Rattle.receiver_laws.specs.OverUptimes.{passed_over_uptimes};
ghost use Rattle.receiver_laws.specs.Recovery.{LackAtMost};
ghost use Rattle.receiver_laws.specs.Reflected.{with_tags};
ghost use Rattle.receiver_laws.specs.Standing.{numbered_frame};
ghost use Rattle.stations.specs.Shared.{station_state, its_state};
ghost use Rattle.stations.specs.Shared.{shared, at_floors, sealing_box, checking_box, of_station};
ghost use Rattle.stations.specs.Shared.{bytes_of_station, sent_line, given_line, sealed_frames};
ghost use Rattle.stations.specs.Shared.{passed_frames};
ghost use Rattle.stations.specs.InTurn.{IsSharedLine, IsNear, SealsInTurn, StationPassesItsOwn};
ghost use Rattle.stations.specs.InTurn.{CentrePassesAll};
ghost use Rattle.stations.specs.StationLaws.{StationReadsSealed, CentreReads, SharedUptime};
ghost use Rattle.stations.specs.StationLaws.{station_frames_over, station_bytes_over};
ghost use Rattle.stations.specs.StationLaws.{StationGoesOn};
ghost use Rattle.stations.specs.Table.{StationTags, StationEntry, profile_for, by_station};
ghost use Rattle.stations.specs.Table.{has_station, table_floor};

use line_rules::LineRules;

/// A law of the definitions, for the rules of each protocol, each profile, any floors and any line:
/// if all frames name the same station, the boxes of several stations are the boxes of one, with
/// its notes and its other line.
pub fn one_station_is_the_box_of_one<R: LineRules>()
    /// The transmitter of several stations has the notes and the link line of the transmitter of
    /// one, at that station's floor.
    ensures seals { (profile : Profile) (floors : ℕ → ℕ) (line : List Tick)
        → (notes_of (shared (λ x. 0) R.rules (sealing_box profile R.rules)) (at_floors floors) line
        ≡ seal_notes profile R.rules (floors 0) line)
        × (sent_line (λ x. 0) profile R.rules floors line
        ≡ link_line profile R.rules (floors 0) line) }
    /// The receiver of several stations has the notes and the line of the receiver of one, at that
    /// station's floor.
    ensures checks { (profile : Profile) (floors : ℕ → ℕ) (link : List Tick)
        → (notes_of (shared (λ x. 0) R.rules (checking_box profile R.rules)) (at_floors floors) link
        ≡ check_notes profile R.rules (floors 0) link)
        × (given_line (λ x. 0) profile R.rules floors link
        ≡ received_line profile R.rules (floors 0) link) }
{}

/// A law of the definitions, for the rules of each protocol, each profile, any floors and any line:
/// the notes and the other line of a longer line begin with those of the line so far, whatever
/// station a burst comes to name as it goes on.
pub fn longer_shared_lines<R: LineRules>()
    /// The notes and the link line of a longer line begin with those of the line so far.
    ensures seals { (station : List ℕ → ℕ) (profile : Profile) (floors : ℕ → ℕ)
        (line more : List Tick)
        → Extends (shared station R.rules (sealing_box profile R.rules)) (at_floors floors) line
        more }
    /// If a header comes in time for the delay, the notes and the receiver's line of a longer link
    /// begin with those of the link so far.
    ensures checks { (station : List ℕ → ℕ) (profile : Profile) → IsTimely profile R.rules
        → (floors : ℕ → ℕ) (link more : List Tick)
        → Extends (shared station R.rules (checking_box profile R.rules)) (at_floors floors) link
        more }
{}

/// A law of the definitions, for each profile, any key of each station, any floors, any line of the
/// control centre and any link, and each station: what a stated device behind the station's box
/// reads is a subsequence of the frames that the centre's transmitter sealed for that station,
/// unless one that passed at the box is forged, with a tag under that station's key. The stated
/// devices are those of `device_reads_what_passed`. The same holds over any uptimes of both boxes of
/// which none loads a floor of the station below the last number of the one before, if the device
/// is at rest when each uptime of its box begins.
pub fn stations_read_what_was_sealed()
    /// Of one line and one link: what the device reads was sealed for its station, unless a frame
    /// that passed is forged; it has passed; and numbers rise on both sides.
    ensures line { (device : StatedDevice) (profile : Profile)
        → IsStatedWithin (delay profile) device
        → (tags : StationTags) (station : List ℕ → ℕ) (i : ℕ) (floors : ℕ → ℕ) (check_floor : ℕ)
        (line link : List Tick)
        → StationReadsSealed (floors i) check_floor
        (of_station station i (sealed_frames station (by_station profile tags station)
        (stated_rules device) floors line))
        (passed (profile_for profile tags i) (stated_rules device) check_floor link)
        (bytes_read (stated_reads device (received_line (profile_for profile tags i)
        (stated_rules device) check_floor link))) }
    /// The same of all uptimes, if those of both boxes go on from one another in the numbers of the
    /// station.
    ensures uptimes { (device : StatedDevice) (profile : Profile)
        → IsStatedWithin (delay profile) device
        → (tags : StationTags) (station : List ℕ → ℕ) (i floor check_floor : ℕ)
        (seals : List SharedUptime) (checks : List BoxUptime)
        → StationGoesOn station
        (sealed_frames station (by_station profile tags station) (stated_rules device)) i floor
        seals
        → GoOnFrom (passed (profile_for profile tags i) (stated_rules device)) check_floor checks
        → StationReadsSealed floor check_floor
        (station_frames_over station
        (sealed_frames station (by_station profile tags station) (stated_rules device)) i seals)
        (passed_over_uptimes (profile_for profile tags i) (stated_rules device) checks)
        (bytes_over (stated_reads device) (profile_for profile tags i) (stated_rules device)
        checks) }
{}

/// A law of the definitions, for each profile, any key and floor of each station, and any link: a
/// control centre that reads as a stated device does reads only frames that passed, all of them once
/// silence follows, and each has its packet on the link, with a tag under the key of the station
/// that it names.
pub fn centre_reads_what_passed()
    ensures { (device : StatedDevice) (profile : Profile) → IsStatedWithin (delay profile) device
        → (tags : StationTags) (station : List ℕ → ℕ) (floors : ℕ → ℕ) (link : List Tick)
        → CentreReads (stated_rules device) (stated_reads device) (stated_silence device) profile
        tags station floors link }
{}

/// A law of the definitions, for each profile, any key of each station, any floors, any line of a
/// station's device and any link, and each station: of what a control centre reads, the frames that
/// name the station are a subsequence of those that the station's box sealed, unless one that passed
/// and names it is forged, with a tag under that station's key. What is known of other keys, and
/// what the other boxes send, is part of the link. The same holds over any uptimes of both boxes of
/// which none loads a floor of the station below the last number of the one before, if the centre
/// is at rest when each uptime of its receiver begins.
pub fn centre_reads_what_was_sealed()
    /// Of one line and one link: what the centre reads that names the station was sealed by its
    /// box, unless a frame that passed and names it is forged; it has passed; and numbers rise on
    /// both sides.
    ensures line { (device : StatedDevice) (profile : Profile)
        → IsStatedWithin (delay profile) device
        → (tags : StationTags) (station : List ℕ → ℕ) (i : ℕ) (floors : ℕ → ℕ) (seal_floor : ℕ)
        (line link : List Tick)
        → StationReadsSealed seal_floor (floors i)
        (sealed (profile_for profile tags i) (stated_rules device) seal_floor line)
        (of_station station i (passed_frames station (by_station profile tags station)
        (stated_rules device) floors link))
        (bytes_of_station station i (bytes_read (stated_reads device (given_line station
        (by_station profile tags station) (stated_rules device) floors link)))) }
    /// The same of all uptimes, if those of both boxes go on from one another in the numbers of the
    /// station.
    ensures uptimes { (device : StatedDevice) (profile : Profile)
        → IsStatedWithin (delay profile) device
        → (tags : StationTags) (station : List ℕ → ℕ) (i seal_floor floor : ℕ)
        (seals : List BoxUptime) (checks : List SharedUptime)
        → GoOnFrom (sealed (profile_for profile tags i) (stated_rules device)) seal_floor seals
        → StationGoesOn station
        (passed_frames station (by_station profile tags station) (stated_rules device)) i floor
        checks
        → StationReadsSealed seal_floor floor
        (sealed_over (profile_for profile tags i) (stated_rules device) seals)
        (station_frames_over station
        (passed_frames station (by_station profile tags station) (stated_rules device)) i checks)
        (station_bytes_over station (stated_reads device) (by_station profile tags station)
        (stated_rules device) i checks) }
{}

/// A law of the definitions, for the rules of each protocol, each profile, any table, and each name
/// that isn't in it: no frame that names it is sealed, and none passes. A receiver's verdict on such
/// a frame is the same whatever the tags are, so that no key is asked for.
pub fn names_without_an_entry_are_refused<R: LineRules>()
    /// No frame that names a station without an entry is sealed.
    ensures seals { (profile : Profile) (station : List ℕ → ℕ) (table : List StationEntry) (i : ℕ)
        (line : List Tick) → has_station table i ≡ false
        → of_station station i
        (sealed_frames station profile R.rules (table_floor profile.limit table) line) ≡ [] }
    /// No frame that names a station without an entry passes.
    ensures passes { (profile : Profile) (station : List ℕ → ℕ) (table : List StationEntry) (i : ℕ)
        (link : List Tick) → has_station table i ≡ false
        → of_station station i
        (passed_frames station profile R.rules (table_floor profile.limit table) link) ≡ [] }
    /// A receiver's verdict on a frame that names a station without an entry is the same whatever
    /// the tags are.
    ensures keyless { (profile : Profile) (other : ℕ → List ℕ → List ℕ)
        (table : List StationEntry) (i from : ℕ) (d : Burst) → has_station table i ≡ false
        → checked (with_tags profile other) R.rules
        (station_state (table_floor profile.limit table i) from) d
        ≡ checked profile R.rules (station_state (table_floor profile.limit table i) from) d }
{}

/// A law of the definitions, for the rules of each protocol, each profile and any floors: whatever
/// was on a link, the receiver of several stations is free once the delay has passed, and a tick for
/// each byte that a burst can lack. On any link, each burst that is a whole packet for its station,
/// in the state in which the bursts before it leave the receiver, is among the frames that pass, if
/// the profile's tags have its tag length. So a shared link that is left alone works again by itself.
pub fn shared_links_recover<R: LineRules>()
    /// After any link, the receiver is free once the delay has passed, and a tick for each byte
    /// that a burst can lack.
    ensures free { (profile : Profile) (station : List ℕ → ℕ) (most : ℕ) → LackAtMost R.rules most
        → (floors : ℕ → ℕ) (link : List Tick) → AreTicks link
        → (state_after (shared station R.rules (checking_box profile R.rules)) (at_floors floors)
        (bursts link)).free_from ≤ length link + delay profile + most }
    /// Each burst of the link that is a whole packet for its station, where it finds the receiver,
    /// is among the frames that pass.
    ensures passes { (profile : Profile) → HasTags profile
        → (station : List ℕ → ℕ) (floors : ℕ → ℕ) (link : List Tick) (front : List Burst)
        (d : Burst) (back : List Burst) (number : ℕ) → bursts link ≡ front ++ d ∷ back
        → IsPacket profile R.rules (its_state station R.rules (checking_box profile R.rules)
        (state_after (shared station R.rules (checking_box profile R.rules)) (at_floors floors)
        front) d) d number
        → Contains (passed_frames station profile R.rules floors link)
        (numbered_frame R.rules d number) }
{}

/// A law of the definitions, for the rules of each protocol and each profile whose tags under each
/// key have its tag length: if a control centre's frames are spaced and nothing is changed on the
/// link, all are sealed in turn, each with the next number of the station that it names. Each
/// station's box passes all that name it, if it passes no other. A receiver of several stations
/// that has the same keys passes all, and its line is the centre's line, later by the delay.
pub fn untouched_shared_link_delivers_all<R: LineRules>()
    /// All frames of the line are sealed, each with the next number of its station.
    ensures seals { (profile : Profile) (tags : StationTags)
        → ((i : ℕ) → HasTags (profile_for profile tags i)) → 1 ≤ profile.word_len
        → (station : List ℕ → ℕ) (floors : ℕ → ℕ) (line : List Tick) (more rest : ℕ)
        → IsSharedLine station profile R.rules floors line more
        → SealsInTurn station profile tags R.rules floors line more rest }
    /// A station's box passes all frames that name it, if it passes no other.
    ensures stations { (profile : Profile) (tags : StationTags)
        → ((i : ℕ) → HasTags (profile_for profile tags i)) → 1 ≤ profile.word_len
        → (station : List ℕ → ℕ) (floors : ℕ → ℕ) (line : List Tick) (more rest : ℕ)
        → IsSharedLine station profile R.rules floors line more
        → (i behind : ℕ) → IsNear profile behind (floors i)
        → StationPassesItsOwn station profile tags R.rules floors line more rest i behind }
    /// A receiver of several stations with the same keys passes all frames, and its line is the
    /// centre's line, later by the delay.
    ensures centre { (profile : Profile) (tags : StationTags)
        → ((i : ℕ) → HasTags (profile_for profile tags i)) → 1 ≤ profile.word_len
        → (station : List ℕ → ℕ) (floors : ℕ → ℕ) (line : List Tick) (more rest : ℕ)
        → IsSharedLine station profile R.rules floors line more
        → (behind : ℕ → ℕ) → ((i : ℕ) → IsNear profile (behind i) (floors i))
        → CentrePassesAll station profile tags R.rules floors line more rest behind }
{}
