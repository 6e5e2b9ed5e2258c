//! Laws of what runs do.
ghost use Rattle.std.specs.Prelude.{◌≡◌, ◌≤◌, List, ℕ, Some, length};
ghost use Rattle.yasir_ticks.specs.declared.tick.Tick.{Tick};
ghost use Rattle.line_stamps.specs.declared.rate.Rate.{Rate};
ghost use Rattle.command_ends.specs.declared.status.Status.{Status};
ghost use Rattle.command_ends.specs.declared.status.Status.TheVariants.{Done};
ghost use Rattle.tick_drive.specs.Input.{max_bytes};
ghost use Rattle.line_capture.specs.Able.{IsTakeable};
ghost use Rattle.line_capture.specs.Formats.{format_of};
ghost use Rattle.line_capture.specs.Gives.{AreLinesOf, IsGiven};
ghost use Rattle.line_capture.specs.Inputs.{Told};
ghost use Rattle.line_capture.specs.TakenAgain.{taken_as, both_ways, TakesAgain};
ghost use Rattle.line_capture.specs.Takes.{CaptureHeld, TakesCapture};
ghost use Rattle.line_capture.specs.declared.outcome.Outcome.{Outcome};
ghost use Rattle.line_capture.specs.declared.outcome.Outcome.TheVariants.{Ended};
ghost use Rattle.line_capture.specs.declared.words.GiveForm.{GiveForm};
ghost use Rattle.line_capture.specs.declared.words.TakeForm.{TakeForm};

use capture_pcap::written_header;

/// A law of what runs do. If `give` made a capture of two lines of a tick text, and a run of `take`
/// reads it at the same rate, both ways by their times, and is done, then it writes the same ticks:
/// each byte is in the same tick, counted from the first byte of either line. A line ends after its
/// last byte, since a capture says nothing of the silence there.
pub fn what_was_given_is_taken()
    /// Let a run of `take` read what `give` made of two lines, at the same rate and both ways by
    /// their times. If it is done, it writes the same bytes in the same ticks, counted from the
    /// first byte of either line.
    ensures same { (form : GiveForm) (taken : TakeForm) (rate : Rate) (text : List ℕ)
        (a b : List Tick) (file : List ℕ) (in_before in_now : Told) (before now : CaptureHeld)
        (outcome : Outcome) → taken_as form ≡ Some taken → AreLinesOf form text a b
        → IsGiven form rate a b file → in_before.left ≡ Some file
        → TakesCapture (format_of taken) (both_ways rate) in_before in_now before now outcome
        → outcome ≡ Ended Done → TakesAgain a b before now }
    /// What `give` made is right for `take`, unless it is too long: no byte of it is refused.
    ensures right { (form : GiveForm) (taken : TakeForm) (rate : Rate) (text : List ℕ)
        (a b : List Tick) (file : List ℕ) → taken_as form ≡ Some taken → AreLinesOf form text a b
        → IsGiven form rate a b file → length file ≤ max_bytes
        → IsTakeable (format_of taken) (both_ways rate) (Some file) }
{
    written_header()
}
