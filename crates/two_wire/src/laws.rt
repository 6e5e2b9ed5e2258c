//! Laws of two-wire lines: what ports hear, turns, and what a device reads.
ghost use Rattle.std.specs.Prelude.{◌≡◌, ◌≤◌, ◌⊎◌, ◌<◌, ◌+◌, ◌++◌, ◌∷◌, ℕ, List, length};
ghost use Rattle.yasir_ticks.specs.Ticks.{silent};
ghost use Rattle.yasir_ticks.specs.declared.tick.Tick.{Tick};
ghost use Rattle.yasir_ticks.specs.declared.tick.Tick.TheVariants.{Silent, Byte};
ghost use Rattle.device_model.specs.HuntFamily.{hunt_family};
ghost use Rattle.device_model.specs.RtuFamily.{rtu_family_reads};
ghost use Rattle.device_model.specs.Stated.{StatedDevice, stated_rules, stated_reads};
ghost use Rattle.device_model.specs.Stated.{IsStatedWithin};
ghost use Rattle.line_rules.specs.Rules.{Rules};
ghost use Rattle.link_format.specs.Profile.{Profile, HasTags, delay};
ghost use Rattle.link_box.specs.Timely.{IsTimely};
ghost use Rattle.rtu_frame.specs.Rules.{rtu_rules};
ghost use Rattle.two_wire.specs.Gate.{GateState, gated, at_rest};
ghost use Rattle.two_wire.specs.Given.{GivesSome, ReadsSealed};
ghost use Rattle.two_wire.specs.declared.gate.Side.{Side};
ghost use Rattle.two_wire.specs.declared.gate.Side.TheVariants.{Asks, Answers};
ghost use Rattle.two_wire.specs.declared.gate.Spoken.{Spoken};
ghost use Rattle.two_wire.specs.declared.gate.Spoken.TheVariants.{Nobody, Asker};
ghost use Rattle.two_wire.specs.declared.gate.Waits.{Waits};
ghost use Rattle.two_wire.specs.Starts.{WaitsFirst, ReadsAnew};
ghost use Rattle.two_wire.specs.Turns.{InTurn, OthersInTurn, CoversTurns};
ghost use Rattle.two_wire.specs.TwoWire.{EndSetup, EndLines, EndWires, heard_link, IsFourWire};
ghost use Rattle.two_wire.specs.TwoWire.{IsTwoWire, SharesInTurn, HearEachOther};
ghost use Rattle.two_wire.specs.TwoWire.{ReadsOnlySealed, ReadsOnlySealedApart};
ghost use Rattle.two_wire.specs.Polling.{Polling, PollsInTurn, PollsAreDelivered};
ghost use Rattle.two_wire.specs.Polls.{Poll, polls_of, PollInTurn};
ghost use Rattle.two_wire.specs.Wires.{hears, drives, on_wires, AreApart};

use line_rules::LineRules;

/// A law of ports on shared wires.
pub fn ports_are_deaf_to_themselves()
    /// An adapter that echoes what its port sends and one that doesn't are the same to the port.
    ensures echo { (own wires : List Tick) → hears own (drives own wires) ≡ hears own wires }
    /// A port never hears a byte in a tick in which it drives the wires.
    ensures deaf { (own wires : List Tick) → length own ≡ length wires
        → AreApart own (hears own wires) }
    /// If a port never drives the wires together with the others, it hears all that they say.
    ensures other { (own other : List Tick) → AreApart own other
        → hears own (drives own other) ≡ other }
    /// If a port never drives the wires together with the others, they hear all that it says.
    ensures own { (own other : List Tick) → AreApart own other
        → hears other (drives own other) ≡ own }
    /// If nobody drives the wires together with another, one of several devices hears what the box
    /// says and what the others say.
    ensures between { (own device others : List Tick) → AreApart own (drives device others)
        → AreApart device others
        → hears device (drives own (drives device others)) ≡ drives own others }
{}

/// A law of turns: if both sides on the wires to a device keep them, nobody talks while another does.
pub fn turns_keep_apart()
    ensures { (side : Side) (waits : Waits) (spoken : Spoken) (own others : List Tick)
        → length own ≡ length others → InTurn side waits spoken own others
        → OthersInTurn side waits spoken own others → AreApart own others }
{}

/// A law of a gate that hears what the others say `lag` ticks late, and counts what its box says at
/// once, whoever spoke last before it began: if its waits fit those that the others keep, its box
/// never talks while another does.
pub fn gates_may_lag()
    ensures { (side : Side) (kept waits : Waits) (lag : ℕ) (before : Spoken)
        (ticks others : List Tick) → CoversTurns side waits lag kept
        → length ticks ≡ length others
        → OthersInTurn side kept before (gated side waits at_rest ticks (on_wires lag others))
        others
        → AreApart (gated side waits at_rest ticks (on_wires lag others)) others }
{}

/// A law of the receiver's definitions: on a line on which some of the bursts that a receiver makes
/// of a link are, whole and later, and the others are left out, a stated device reads only frames
/// that have passed, and so only frames that were sealed, unless one that passed is forged.
pub fn bursts_may_be_left_out()
    ensures { (device : StatedDevice) (profile : Profile) → IsStatedWithin (delay profile) device
        → (seal_floor check_floor late : ℕ) (line link given : List Tick)
        → GivesSome profile (stated_rules device) check_floor late link given
        → ReadsSealed (stated_rules device) (stated_reads device) profile seal_floor check_floor
        line link given }
{}

/// A law of a box, whatever is on its wires, two or four: what it gives to its device are some of
/// the bursts that its receiver makes of what it hears on the link, whole.
pub fn two_wire_box_gives_whole_bursts<R: LineRules>()
    /// It holds for a box on two wires.
    ensures two_wires { (end : EndSetup) (w : EndWires) → IsTwoWire R.rules end w
        → GivesSome end.incoming R.rules end.got_floor end.late (heard_link w) w.to_device }
    /// It holds for a box on four wires.
    ensures four_wires { (end : EndSetup) (l : EndLines) → IsFourWire R.rules end l
        → GivesSome end.incoming R.rules end.got_floor end.late l.from_link l.to_device }
{}

/// A law of a two-wire box whose ticks leave at least one tick later than they are decided: what is
/// on both pairs of wires determines with which ticks the box drives them.
pub fn two_wire_box_is_determined<R: LineRules>()
    /// It determines what the box says to its device.
    ensures device { (end : EndSetup) (v w : EndWires) → 0 < end.late
        → IsTimely end.incoming R.rules → IsTwoWire R.rules end v → IsTwoWire R.rules end w
        → v.device_wires ≡ w.device_wires → v.link_wires ≡ w.link_wires
        → v.to_device ≡ w.to_device }
    /// It determines what the box sends on the link.
    ensures link { (end : EndSetup) (v w : EndWires) → 0 < end.late
        → IsTimely end.incoming R.rules → IsTwoWire R.rules end v → IsTwoWire R.rules end w
        → v.device_wires ≡ w.device_wires → v.link_wires ≡ w.link_wires
        → v.to_link ≡ w.to_link }
{}

/// A law of a two-wire box, whatever is on the wires of the link: if the others on the wires to the
/// device keep the turns, nobody talks there while another does. So they hear just what the box
/// says, and the box hears all that they say.
pub fn nobody_talks_at_once<R: LineRules>()
    ensures { (end : EndSetup) (w : EndWires) (others : List Tick) → IsTwoWire R.rules end w
        → SharesInTurn end w others → HearEachOther w others }
{}

/// A law of a two-wire box, for each profile, any floors, any line of which frames were sealed
/// elsewhere, and whatever is on the wires of the link: of what the box says to its device, the
/// device reads only frames that have passed, so only frames that were sealed, in their order, each
/// number at most once, unless one that passed is forged. If the turns are kept on the wires to the
/// device, the same holds of what it hears there, except while it talks, and of one that is deaf for
/// longer, whenever it may be.
pub fn two_wire_devices_read_what_was_sealed()
    ensures { (device : StatedDevice) (end : EndSetup)
        → IsStatedWithin (delay end.incoming) device
        → (w : EndWires) (seal_floor : ℕ) (line : List Tick)
        → IsTwoWire (stated_rules device) end w
        → ReadsOnlySealed (stated_rules device) (stated_reads device) end w seal_floor line }
{}

/// The same law on four wires, where the device has a pair of its own: the gate needs it too beside
/// a device that is deaf while it talks, or longer.
pub fn four_wire_devices_read_what_was_sealed()
    ensures { (device : StatedDevice) (end : EndSetup)
        → IsStatedWithin (delay end.incoming) device
        → (l : EndLines) (seal_floor : ℕ) (line : List Tick)
        → IsFourWire (stated_rules device) end l
        → ReadsOnlySealedApart (stated_rules device) (stated_reads device) end l seal_floor line }
{}

/// A law of two two-wire boxes on a link on which nothing is changed, for the rules of each
/// protocol and each profile, wherever what is said is heard T ticks later at the other end: the
/// delay of the receiver, and twice the ticks that what a box decides takes to leave.
///
/// A master and devices take turns as `TakeTurns` says. An answer, of one frame or several, begins
/// after a device has waited for so long that the gate at the master's end has heard the request
/// end, and less than `window` silent ticks ago, as it hears them. Each further frame follows it by
/// the delay and three ticks at least, and before that gate takes the answer to have ended. Behind
/// an answer the master goes on when the gate at the devices' end takes it to have ended, as it
/// hears it, or where nobody answers, when that gate no longer waits and the request can be sealed.
/// The first request comes when that gate has waited for as long.
pub fn polls_are_delivered<R: LineRules>()
    /// If tags have their length and words a byte or more, nobody ever talks on the pairs of wires
    /// at both ends while another does. All frames are sealed and pass, and each is heard at the
    /// other end whole, T ticks later.
    ensures delivered { (p : Polling) (start : ℕ) (polls : List Poll) (more : ℕ)
        → HasTags p.ab → 1 ≤ p.ab.word_len → HasTags p.ba → 1 ≤ p.ba.word_len
        → PollInTurn R.rules p start polls more
        → PollsAreDelivered R.rules (polls_of p start polls more) }
    /// The same holds whenever both gates let all through, and nobody talks on any pair of wires
    /// while another does.
    ensures in_turn { (p : Polling)
        → HasTags p.ab → 1 ≤ p.ab.word_len → HasTags p.ba → 1 ≤ p.ba.word_len
        → PollsInTurn R.rules p → PollsAreDelivered R.rules p }
{}

/// A law of a gate that has just begun, for a box that asks, whatever a device heard before the box
/// was stopped, in mid-burst or not, and however long the box was down. It is about devices that
/// begin anew after `cut` silent ticks, for a cut that isn't above `window`, nor above the ticks
/// since the stop.
pub fn gates_wait_at_first()
    /// The gate says nothing until nobody else has said anything for `window` ticks together, as it
    /// hears them.
    ensures waits { (waits : Waits) (ticks heard : List Tick)
        → (gated Asks waits at_rest ticks heard
        ≡ silent (length (gated Asks waits at_rest ticks heard)))
        ⊎ WaitsFirst waits.window (gated Asks waits at_rest ticks heard) heard }
    /// A Modbus RTU device reads what the box says then as one that has heard nothing before, and
    /// besides at most one frame more than it had read.
    ensures rtu { (cut gap down : ℕ) (end : EndSetup) (l : EndLines) (before : List Tick)
        → IsFourWire rtu_rules end l → end.side ≡ Asks → cut ≤ end.waits.window
        → cut ≤ down + length l.to_device
        → ReadsAnew (rtu_family_reads cut gap) 1 down before l.to_device }
    /// A device that hunts, and begins anew after `cut` silent ticks, for a cut of at least 1,
    /// reads what the box says then as one that has heard nothing before, and besides only what it
    /// had read.
    ensures hunters { (first second : ℕ) (rules : Rules) (cut down : ℕ) (end : EndSetup)
        (l : EndLines) (before : List Tick)
        → IsFourWire rules end l → end.side ≡ Asks → 1 ≤ cut → cut ≤ end.waits.window
        → cut ≤ down + length l.to_device
        → ReadsAnew (hunt_family first second rules cut) 0 down before l.to_device }
{}

/// A law of a gate after anything that has gone wrong, as an answer that came after its window and
/// was held back, or began together with the next question. Nothing is on its way: the receiver has
/// returned two silent ticks.
pub fn gates_recover()
    /// A gate of a box that asks, whose pause isn't above its window, lets all through again that
    /// keeps the turns once `window` silent ticks have come, if it has let a byte through before.
    ensures asks { (waits : Waits) (g : GateState) (k : ℕ) (ticks others : List Tick)
        → 2 ≤ g.quiet → ((quiet : ℕ) → g.spoken ≡ Nobody quiet → ⊥) → waits.pause ≤ waits.window
        → waits.window ≤ k → length ticks ≡ length others
        → InTurn Asks waits (Asker k) ticks others
        → gated Asks waits g (silent k ++ ticks) (silent k ++ others) ≡ silent k ++ ticks }
    /// A gate of a box that answers lets all through again from the next byte of a question on in
    /// which its receiver returns silence.
    ensures answers { (waits : Waits) (g : GateState) (c : ℕ) (ticks others : List Tick)
        → 2 ≤ g.quiet → length ticks ≡ length others → InTurn Answers waits (Asker 0) ticks others
        → gated Answers waits g (Silent ∷ ticks) (Byte c ∷ others) ≡ Silent ∷ ticks }
{}
