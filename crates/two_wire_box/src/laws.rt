//! The laws of the steps of a two-wire box.
ghost use Rattle.std.specs.Prelude.{◌≡◌, ℕ, List, []};
ghost use Rattle.link_format.specs.Setup.{Setup};
ghost use Rattle.sequence_journal.specs.Journal.{journal_floor};
ghost use Rattle.two_wire.specs.Gate.{at_rest};
ghost use Rattle.two_wire.specs.declared.gate.Side.{Side};
ghost use Rattle.two_wire.specs.declared.gate.Waits.{Waits};
ghost use Rattle.two_wire_box.specs.Lines.{WireStep, EndState, TakesSteps, MakesWires};
ghost use Rattle.two_wire_box.specs.Steady.{HasDriven};
ghost use Rattle.two_wire_box.specs.declared.steady_end.SteadyEnd.{SteadyEnd};
ghost use Rattle.yasir_ticks.specs.declared.tick.Tick.TheVariants.{Silent};

use duplex_box::directions_are_apart;
use link_box::LinkBox;
use yasir_io::{SlotDisk, SteadySlots};

/// A law of the steps of a two-wire box that began at rest, whatever was on both pairs of wires: it
/// drove them as the definition of a two-wire box says, with what the definitions of both boxes make
/// of what was heard, one tick later.
pub fn steps_make_the_wires<S: LinkBox, C: LinkBox, X: SlotDisk, Y: SlotDisk>()
    ensures { (side : Side) (waits : Waits) (old new : EndState S C X Y)
        (steps : List (WireStep S.Note C.Note)) (sent_setup got_setup : Setup)
        → TakesSteps S.LinkBox C.LinkBox X.SlotDisk Y.SlotDisk side waits old steps new
        → old.gate ≡ at_rest → old.for_device ≡ Silent → old.for_link ≡ Silent
        → S.stands old.ways.outgoing.line_box (journal_floor old.ways.outgoing.journal) sent_setup []
        → C.stands old.ways.incoming.line_box (journal_floor old.ways.incoming.journal) got_setup []
        → MakesWires S.LinkBox C.LinkBox side waits sent_setup got_setup steps }
{
    directions_are_apart::<S, C, X, Y>();
}

/// The same law of a box over journals in memory, whatever it has taken.
pub fn steady_ends_make_the_wires<S: LinkBox, C: LinkBox>()
    ensures { (side : Side) (waits : Waits) (sent_setup got_setup : Setup) (value : SteadyEnd S C)
        (steps : List (WireStep S.Note C.Note))
        → HasDriven S.LinkBox C.LinkBox side waits sent_setup got_setup value steps
        → MakesWires S.LinkBox C.LinkBox side waits sent_setup got_setup steps }
{
    steps_make_the_wires::<S, C, SteadySlots, SteadySlots>();
}
