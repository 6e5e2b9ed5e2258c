//! Laws of the definitions: how a line keeps to the times of a capture.

ghost use Rattle.std.specs.Prelude.{◌≡◌, ℕ, ◌*◌, ◌<◌, List, map, None};
ghost use Rattle.yasir_ticks.specs.Ticks.{bytes_in};
ghost use Rattle.yasir_ticks.specs.declared.tick.Tick.{Tick};
ghost use Rattle.line_stamps.specs.declared.capture.CaptureByte.{CaptureByte};
ghost use Rattle.line_stamps.specs.declared.timing.Spacing.TheVariants.{ByTime, ByRecord};
ghost use Rattle.line_stamps.specs.declared.timing.Timing.{Timing};
ghost use Rattle.line_stamps.specs.declared.rate.Rate.{Rate};
ghost use Rattle.line_stamps.specs.Giving.{bytes_from, at_tick, AreStampsGiven, taken_from, IsTakenAs};
ghost use Rattle.line_stamps.specs.Parts.{character};
ghost use Rattle.line_stamps.specs.Places.{placed, line_of_places};
ghost use Rattle.line_stamps.specs.Placing.{NoneRefused};
ghost use Rattle.line_stamps.specs.Clock.{AllNext, KeepsEdges, KeepsTime, ArePartedRecords};

/// A law of the definitions: the line of a capture has the same bytes in the same order.
pub fn same_bytes_in_the_same_order()
    ensures { (t : Timing) (cs : List CaptureByte)
        → bytes_in (line_of_places t cs) ≡ map (λ c. c.byte) cs }
{}

/// A law of the definitions: each byte of a capture is on the line in the tick in which it is
/// placed.
pub fn bytes_stand_in_their_ticks()
    ensures { (t : Timing) (cs : List CaptureByte)
        → bytes_from 0 (line_of_places t cs) ≡ map at_tick (placed t cs) }
{}

/// A law of the definitions, for captures that are placed by their times: no silence is rounded
/// across 1.5 or 3.5 characters.
pub fn silences_keep_their_edges()
    ensures { (t : Timing) (cs : List CaptureByte) → t.spacing ≡ ByTime
        → AllNext (KeepsEdges (character t.rate)) (placed t cs) }
{}

/// A law of the definitions, for captures that are placed by their times: the ticks from one byte
/// to the next are at most half a tick off, unless the two overlap or drift is taken up. Drift is
/// taken up only in silences of more than 320 ticks, of which at least 320 remain.
pub fn ticks_keep_to_the_times()
    ensures { (t : Timing) (cs : List CaptureByte) → t.spacing ≡ ByTime
        → AllNext (KeepsTime (character t.rate)) (placed t cs) }
{}

/// A law of the definitions, for captures whose records are taken for frames: four silent ticks or
/// more come before the first byte of each record that follows another one, and none between the
/// bytes of one record.
pub fn records_are_parted()
    ensures { (t : Timing) (cs : List CaptureByte) → t.spacing ≡ ByRecord
        → AllNext ArePartedRecords (placed t cs) }
{}

/// A law of the definitions: bytes that were given as times of a capture are taken as the same
/// ticks, in whatever records they were given, as long as the unit of the times is shorter than
/// half a character. Then none of them is early or overlaps the one before it. The line that is
/// taken begins at tick `m` of the one that was given. After its last byte there may be silence, of
/// which a capture says nothing.
pub fn what_was_given_is_taken()
    /// What is taken of the capture is the line that was given, from tick `m` on and apart from the
    /// silence at its end.
    ensures same { (rate : Rate) (unit epoch m : ℕ) (rest : List Tick) (cs : List CaptureByte)
        → 0 < unit → 2 * (unit * rate.baud) < character rate
        → AreStampsGiven rate unit epoch None (bytes_from m rest) cs
        → IsTakenAs (taken_from rate unit epoch m) cs rest }
    /// None of the bytes is early or overlaps the one before it.
    ensures free { (rate : Rate) (unit epoch m : ℕ) (rest : List Tick) (cs : List CaptureByte)
        → 0 < unit → 2 * (unit * rate.baud) < character rate
        → AreStampsGiven rate unit epoch None (bytes_from m rest) cs
        → NoneRefused (taken_from rate unit epoch m) None cs }
{}
