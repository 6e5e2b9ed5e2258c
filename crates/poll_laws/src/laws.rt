//! Laws of two-wire boxes: several devices on one pair of wires, and polls after any session.
ghost use Rattle.std.specs.Prelude.{◌≡◌, ◌≤◌, ℕ, List};
ghost use Rattle.yasir_ticks.specs.declared.tick.Tick.{Tick};
ghost use Rattle.device_model.specs.Stated.{StatedDevice, stated_rules, IsStatedWithin};
ghost use Rattle.link_format.specs.Profile.{HasTags, delay};
ghost use Rattle.link_box.specs.Timely.{IsTimely};
ghost use Rattle.receiver_laws.specs.Recovery.{LackAtMost};
ghost use Rattle.two_wire.specs.declared.gate.Side.TheVariants.{Asks};
ghost use Rattle.two_wire.specs.TwoWire.{EndSetup, EndWires, IsTwoWire};
ghost use Rattle.two_wire.specs.Polling.{Polling, PollsInTurn, end_a, end_b};
ghost use Rattle.two_wire.specs.Polls.{Poll, polls_of, PollInTurn};
ghost use Rattle.two_wire.specs.Wires.{hears};
ghost use Rattle.poll_laws.specs.Among.{IsOneOfSeveral, IsDeafAmong, TellsApart, ReadsAmong};
ghost use Rattle.poll_laws.specs.Rested.{Before, HasRested, GivesAll, GoesOn};
ghost use Rattle.poll_laws.specs.Rested.{BothHaveRested, AreDeliveredThen};

use line_rules::LineRules;

/// A law of a two-wire box that asks, with several devices on its pair of wires, for each stated
/// device, each profile, any floors, any line of which frames were sealed elsewhere, and whatever is
/// on the wires of the link: if the box and all devices keep the turns, a device reads what it would
/// read of the box alone and what it would read of the others alone, interleaved, and nothing else.
/// Of the box it reads only frames that were sealed, in their order, unless one that passed is
/// forged. The frames of the others were never on the link, and nothing is said about them.
///
/// Let `gap` silent ticks be between what the box says and what the devices say: four, if they do no
/// more than keep the turns. A device that takes so many for the end of what it has heard is safe
/// whatever the others say. One that hunts and waits longer, or ignores silence, is if they say
/// whole frames alone, at each moment at which the box has been silent for two ticks.
pub fn several_devices_read_what_was_sealed()
    /// It holds for a device that is deaf while it talks and at no other time.
    ensures one { (device : StatedDevice) (end : EndSetup)
        → IsStatedWithin (delay end.incoming) device
        → (w : EndWires) (seal_floor : ℕ) (line : List Tick)
        → IsTwoWire (stated_rules device) end w
        → (gap : ℕ) (own others : List Tick) → IsOneOfSeveral gap end w own others
        → TellsApart gap w.to_device others device
        → ReadsAmong device end w (hears own w.device_wires) others seal_floor line }
    /// It holds for one that is deaf only when it may be, or never, as it hears the others.
    ensures deaf { (device : StatedDevice) (end : EndSetup)
        → IsStatedWithin (delay end.incoming) device
        → (w : EndWires) (seal_floor : ℕ) (line : List Tick)
        → IsTwoWire (stated_rules device) end w
        → (gap : ℕ) (others deaf : List Tick) → IsDeafAmong gap end w others deaf
        → TellsApart gap w.to_device (hears deaf others) device
        → ReadsAmong device end w (hears deaf w.device_wires) (hears deaf others) seal_floor line }
{}

/// A law of a two-wire box, for the rules of each protocol and each profile whose delay is long
/// enough for the header, after anything that was on its wires: noise, answers that came too late,
/// people who talked at once, an attacker. Once it has heard silence for long enough, it goes on as
/// a box that has just begun with the floors that its journals have reached.
///
/// Silence is long enough if the device's wires were silent for three ticks more than the delay of
/// what it sends, and for a trailer, the pause before it and the ticks that what a box decides takes
/// to leave; and the link for the delay of what it gets, a tick for each byte that a burst of the
/// protocol can lack, and those ticks. The gate must have heard the end of what the device said.
pub fn rested_boxes_go_on<R: LineRules>()
    /// It holds for whatever comes then, if the gate of a box that has just begun would let all
    /// through that its receiver returns, and one that asks doesn't wait longer behind an answer than
    /// for one.
    ensures { (end : EndSetup) (before : Before) (w : EndWires) (most : ℕ)
        → HasTags end.outgoing → IsTimely end.incoming R.rules → LackAtMost R.rules most
        → HasRested R.rules most end before
        → (end.side ≡ Asks → end.waits.pause ≤ end.waits.window)
        → IsTwoWire R.rules end w → GivesAll R.rules end w
        → GoesOn R.rules end before w }
{}

/// A law of two two-wire boxes, for the rules of each protocol and each profile whose delay is long
/// enough for the header: polls in turn are delivered again after any session whatever, once both
/// boxes have rested as `rested_boxes_go_on` says, if there are numbers, and the floors that both
/// have reached are near enough.
pub fn polls_are_delivered_again<R: LineRules>()
    /// It holds for polls in which all take turns.
    ensures delivered { (p : Polling) (start : ℕ) (polls : List Poll) (more most : ℕ)
        (before_a before_b : Before)
        → HasTags p.ab → 1 ≤ p.ab.word_len → HasTags p.ba → 1 ≤ p.ba.word_len
        → IsTimely p.ab R.rules → IsTimely p.ba R.rules → LackAtMost R.rules most
        → BothHaveRested R.rules most (polls_of p start polls more) before_a before_b
        → PollInTurn R.rules p start polls more
        → AreDeliveredThen R.rules (polls_of p start polls more) before_a before_b }
    /// It holds whenever both gates let all through, and nobody talks on any pair of wires while
    /// another does.
    ensures in_turn { (p : Polling) (most : ℕ) (before_a before_b : Before)
        → HasTags p.ab → 1 ≤ p.ab.word_len → HasTags p.ba → 1 ≤ p.ba.word_len
        → IsTimely p.ab R.rules → IsTimely p.ba R.rules → LackAtMost R.rules most
        → BothHaveRested R.rules most p before_a before_b → PollsInTurn R.rules p
        → AreDeliveredThen R.rules p before_a before_b }
{}
