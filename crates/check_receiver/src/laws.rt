//! The law that the receiver's steps are steps of an uptime: no number passes twice.
ghost use Rattle.std.specs.Prelude.{◌≡◌, Result};
ghost use Rattle.sequence_journal.specs.declared.journal.Journal.{Journal};
ghost use Rattle.sequence_journal.specs.declared.journal.JournalFault.{JournalFault};
ghost use Rattle.sequence_journal.specs.Journal.{journal_floor, IsCrashSafe};
ghost use Rattle.sequence_journal.specs.Uptimes.{IsStepOf, last_from, numbers_answered};
ghost use Rattle.frame_ending.specs.declared.box_step.BoxStep.{BoxStep};
ghost use Rattle.link_box.specs.declared.check_note.CheckNote.{CheckNote};
ghost use Rattle.check_receiver.specs.Checkings.{CheckerKeepsJournal, numbers_passed_in};

use yasir_io::SlotDisk;

/// A call of the receiver's `step` is a step of an uptime, if the journal is crash-safe before it:
/// its number, if it has one, is that of the note that it returns, and a crash at any moment inside
/// it leaves no floor below the one before it. The next step goes on from the last number returned.
/// The calls that take runs have no disk.
pub fn steps_are_of_an_uptime<D: SlotDisk>()
    /// If the journal was crash-safe, the call is a step of an uptime, with the number of the note
    /// that it returns, or with none.
    ensures is_step { (old new : Journal) (before after : D)
        (result : Result (BoxStep CheckNote) JournalFault)
        → CheckerKeepsJournal D.SlotDisk old new before after result
        → IsCrashSafe old (D.told before) (D.may_leave before)
        → IsStepOf D.SlotDisk old before (record {
          numbers = numbers_answered (λ step. numbers_passed_in step.note) result;
          after = after;
        }) }
    /// The last number returned, or the floor before if there is none, is the journal's floor after
    /// the call.
    ensures goes_on { (old new : Journal) (before after : D)
        (result : Result (BoxStep CheckNote) JournalFault)
        → CheckerKeepsJournal D.SlotDisk old new before after result
        → last_from (journal_floor old) (numbers_answered (λ step. numbers_passed_in step.note) result)
        ≡ journal_floor new }
{}
