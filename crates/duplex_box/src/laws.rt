//! The laws of a pair of boxes: its two directions don't affect each other.
ghost use Rattle.std.specs.Prelude.{◌≡◌, List, ◌++◌, length, Option};
ghost use Rattle.yasir_ticks.specs.declared.tick.Tick.{Tick};
ghost use Rattle.link_format.specs.Setup.{Setup};
ghost use Rattle.sequence_journal.specs.Journal.{journal_floor};
ghost use Rattle.duplex_box.specs.Pairs.{OneWay, BothWays};
ghost use Rattle.duplex_box.specs.Turns.{Turn, Turns, MakesLine};
ghost use Rattle.duplex_box.specs.Turns.{ticks_from_device, ticks_from_link, ticks_to_link};
ghost use Rattle.duplex_box.specs.Turns.{ticks_to_device, notes_sealed, notes_checked};

use link_box::LinkBox;
use yasir_io::SlotDisk;

/// A law of the steps of a pair, whatever ticks come from the device and
/// from the link. In each direction they return the other line and the notes that the definition of
/// its box makes of the ticks of this direction only.
pub fn directions_are_apart<S: LinkBox, C: LinkBox, X: SlotDisk, Y: SlotDisk>()
    /// In the outgoing direction the ticks that leave on the link, and the notes, are what the
    /// definition of its box makes of the device's ticks.
    ensures outgoing { (old new : BothWays S C X Y) (turns : List (Turn S.Note C.Note))
        → Turns S.LinkBox C.LinkBox X.SlotDisk Y.SlotDisk old turns new
        → (setup : Setup) (line : List Tick)
        → S.stands old.outgoing.line_box (journal_floor old.outgoing.journal) setup line
        → MakesLine S.LinkBox X.SlotDisk old.outgoing new.outgoing setup line
        (ticks_from_device turns) (ticks_to_link turns)
        (notes_sealed turns) }
    /// In the incoming direction the ticks that leave for the device, and the notes, are what the
    /// definition of its box makes of the link's ticks.
    ensures incoming { (old new : BothWays S C X Y) (turns : List (Turn S.Note C.Note))
        → Turns S.LinkBox C.LinkBox X.SlotDisk Y.SlotDisk old turns new
        → (setup : Setup) (line : List Tick)
        → C.stands old.incoming.line_box (journal_floor old.incoming.journal) setup line
        → MakesLine C.LinkBox Y.SlotDisk old.incoming new.incoming setup line
        (ticks_from_link turns) (ticks_to_device turns)
        (notes_checked turns) }
{}

/// A law of one direction. Some ticks, with one note or none for each of them, followed by more
/// ticks, make of the line what all of them make of it together. So what steps make may be put
/// together as it comes.
pub fn lines_go_on<S: LinkBox, X: SlotDisk>()
    ensures { (old mid new : OneWay S X) (setup : Setup) (line : List Tick)
        (ticks answers more answers_to_more : List Tick) (notes notes_of_more : List (Option S.Note))
        → length notes ≡ length ticks
        → MakesLine S.LinkBox X.SlotDisk old mid setup line ticks answers notes
        → MakesLine S.LinkBox X.SlotDisk mid new setup (line ++ ticks) more answers_to_more
        notes_of_more
        → MakesLine S.LinkBox X.SlotDisk old new setup line (ticks ++ more)
        (answers ++ answers_to_more) (notes ++ notes_of_more) }
{}
