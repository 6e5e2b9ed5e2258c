//! Laws of the transmitter: it is causal, and its steps are steps of an uptime.
ghost use Rattle.std.specs.Prelude.{◌≡◌, ℕ, List, ◌++◌, Result};
ghost use Rattle.yasir_ticks.specs.declared.tick.Tick.{Tick};
ghost use Rattle.frame_ending.specs.Longer.{Begins, Extends};
ghost use Rattle.link_format.specs.NumberedFrame.{AreNumberedFrom};
ghost use Rattle.link_format.specs.Profile.{profile_of};
ghost use Rattle.link_format.specs.Setup.{Setup};
ghost use Rattle.sequence_journal.specs.declared.journal.Journal.{Journal};
ghost use Rattle.sequence_journal.specs.declared.journal.JournalFault.{JournalFault};
ghost use Rattle.sequence_journal.specs.Journal.{journal_floor, IsCrashSafe};
ghost use Rattle.sequence_journal.specs.Uptimes.{IsStepOf, last_from, numbers_answered};
ghost use Rattle.frame_ending.specs.declared.box_step.BoxStep.{BoxStep};
ghost use Rattle.link_box.specs.declared.seal_note.SealNote.{SealNote};
ghost use Rattle.seal_transmitter.specs.Answers.{SealerKeepsJournal, numbers_sealed_in};
ghost use Rattle.link_box.specs.Sealing.{sealer, at_floor, sealed};

use line_rules::LineRules;
use link_format::Mac;
use yasir_io::SlotDisk;

/// When a line of the device goes on, its notes, link line and sealed frames begin with those of
/// the line so far, and the sealed frames have the numbers after the floor, one after the other.
/// This is a law of the transmitter's definitions, for words of any length, any greatest number,
/// and each key, direction and floor.
pub fn longer_lines<R: LineRules, M: Mac>()
    /// The notes and the link line of a longer line begin with those of the line.
    ensures extends { (word_len limit : ℕ) (setup : Setup) (line more : List Tick)
        → Extends (sealer (profile_of R.LineRules M.Mac word_len limit setup) R.rules)
        (at_floor setup.floor) line more }
    /// The sealed frames of a longer line begin with those of the line.
    ensures kept { (word_len limit : ℕ) (setup : Setup) (line more : List Tick)
        → Begins
        (sealed (profile_of R.LineRules M.Mac word_len limit setup) R.rules setup.floor line)
        (sealed (profile_of R.LineRules M.Mac word_len limit setup) R.rules setup.floor
        (line ++ more)) }
    /// The sealed frames have the numbers after the floor, one after the other.
    ensures numbered { (word_len limit : ℕ) (setup : Setup) (line : List Tick)
        → AreNumberedFrom setup.floor
        (sealed (profile_of R.LineRules M.Mac word_len limit setup) R.rules setup.floor line) }
{}

/// A call of the transmitter's `step` is a step of an uptime, if the journal is crash-safe before
/// it: its number, if it has one, is that of the note that it returns, and a crash at any moment
/// inside it leaves no floor below the one before it. The next step goes on from the last number
/// returned. The calls that take runs have no disk.
pub fn steps_are_of_an_uptime<D: SlotDisk>()
    /// If the journal was crash-safe, the call is a step of an uptime, with the number of the note
    /// that it returns, or with none.
    ensures is_step { (old new : Journal) (before after : D)
        (result : Result (BoxStep SealNote) JournalFault)
        → SealerKeepsJournal D.SlotDisk old new before after result
        → IsCrashSafe old (D.told before) (D.may_leave before)
        → IsStepOf D.SlotDisk old before (record {
          numbers = numbers_answered (λ step. numbers_sealed_in step.note) result;
          after = after;
        }) }
    /// The last number returned, or the floor before if there is none, is the journal's floor after
    /// the call.
    ensures goes_on { (old new : Journal) (before after : D)
        (result : Result (BoxStep SealNote) JournalFault)
        → SealerKeepsJournal D.SlotDisk old new before after result
        → last_from (journal_floor old) (numbers_answered (λ step. numbers_sealed_in step.note) result)
        ≡ journal_floor new }
{}
