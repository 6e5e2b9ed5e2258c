//! A run of the program: its words, and what they ask for.
ghost use Rattle.std.specs.Prelude.{◌≡◌, ◌↔◌, ◌≤◌, None, map, IfOk, IsErr};
ghost use Rattle.std.specs.String.{string_bytes};
ghost use Rattle.yasir_io.specs.Causes.{Rose};
ghost use Rattle.command_ends.specs.Causes.{SinkCause};
ghost use Rattle.command_ends.specs.Flushes.{FlushesAtEnd};
ghost use Rattle.command_ends.specs.Given.{words_after};
ghost use Rattle.command_ends.specs.Programs.{AsksFor};
ghost use Rattle.command_ends.specs.declared.status.Status.{Status};
ghost use Rattle.line_capture.specs.Formats.{format_of};
ghost use Rattle.line_capture.specs.Programs.{capture_outside, CaptureDoes, CaptureRuns, RunCauses};
ghost use Rattle.line_capture.specs.Endings.{EndsOverArgs};
ghost use Rattle.line_capture.specs.Outcomes.{status_in};
ghost use Rattle.line_capture.specs.Inputs.{told};
ghost use Rattle.line_capture.specs.Takes.{TakesCapture, held};
ghost use Rattle.line_capture.specs.Words.{IsCaptureCommand};
ghost use Rattle.line_capture.specs.declared.outcome.Outcome.{Outcome};

use crate::about::{HELP_PAGE, VERSION_LINE, print_alone};
use crate::give::{Giving, give};
use crate::outcome::Outcome;
use crate::take::{Taking, take};
use crate::usage::fault_text;
use crate::words::{Command, TakeForm, Usage, read_words};
use capture_pcap::PcapReader;
use capture_text::{Logic2Reader, SigrokReader, TextReader};
use command_ends::{NOT_GIVEN, Reasons, Status, words_after_name, write_fault_line};
use std::alloc::{AllocError, Global};
use std::env::Args;
use std::io;
use yasir_io::{Sink, Source, TellsReason};

// Takes a capture of this form.
fn take_form<S: Source, O: Sink, L: Sink>(
    alloc: Global,
    form: TakeForm,
    taking: Taking,
    input: &mut S,
    out: &mut O,
    log: &mut L,
) -> Outcome
    ensures takes { TakesCapture (format_of form) taking (told (S.left input.old) (S.faults input.old))
        (told (S.left input.new) (S.faults input.new))
        (held (O.held out.old) (L.held log.old)) (held (O.held out.new) (L.held log.new)) result }
    ensures sinks { SinkCause (O.faults out.old) (O.faults out.new) (L.faults log.old)
        (L.faults log.new) (status_in result) }
    ensures flushes { FlushesAtEnd O.Sink L.Sink out.old out.new log.old log.new (status_in result) }
    ensures input { S.faults input.old ≤ S.faults input.new }
    ensures read_failed { result ≡ Outcome.Ended Status.ReadFault
        → Rose (S.faults input.old) (S.faults input.new) }
{
    match form {
        TakeForm::Pcap => take::<PcapReader, S, O, L>(alloc, taking, input, out, log),
        TakeForm::Text => take::<TextReader, S, O, L>(alloc, taking, input, out, log),
        TakeForm::Logic2 => take::<Logic2Reader, S, O, L>(alloc, taking, input, out, log),
        TakeForm::Sigrok => take::<SigrokReader, S, O, L>(alloc, taking, input, out, log),
    }
}

// Does what was asked for, and nothing if the words fit no command. It doesn't write the fault
// line.
fn answer<S: Source, O: Sink, L: Sink>(
    alloc: Global,
    asked: Option<Command>,
    input: &mut S,
    out: &mut O,
    log: &mut L,
) -> Outcome
    ensures usage { (result ≡ Outcome.Ended Status.Usage) ↔ (asked ≡ None) }
    ensures does { CaptureDoes S.Source O.Sink L.Sink asked
        (capture_outside input.old out.old log.old) (capture_outside input.new out.new log.new) result }
    ensures sinks { SinkCause (O.faults out.old) (O.faults out.new) (L.faults log.old)
        (L.faults log.new) (status_in result) }
    ensures flushes { FlushesAtEnd O.Sink L.Sink out.old out.new log.old log.new (status_in result) }
    ensures input { S.faults input.old ≤ S.faults input.new }
    ensures read_failed { result ≡ Outcome.Ended Status.ReadFault
        → Rose (S.faults input.old) (S.faults input.new) }
{
    match asked {
        None => Outcome::Ended(Status::Usage),
        Some(
            Command::Take {
                form,
                rate,
                ways,
                spacing,
            },
        ) => {
            let taking = Taking {
                rate,
                ways,
                spacing,
            };
            take_form(alloc, form, taking, input, out, log)
        }
        Some(Command::Give { form, rate }) => give(alloc, Giving { form, rate }, input, out, log),
        Some(Command::Help) => print_alone(&HELP_PAGE, out, log),
        Some(Command::Version) => print_alone(&VERSION_LINE, out, log),
    }
}

// Returns the command that the words ask for, or `None` if they fit no command.
fn asked_by(words: &[String]) -> Option<Command>
    ensures { AsksFor IsCaptureCommand (map string_bytes words.now) result }
{
    match read_words(words) {
        Ok(command) => Some(command),
        Err(Usage) => None,
    }
}

/// The program: reads its words, those after the program's name, and does what they ask for. Last
/// of all it writes the fault line to the log, if there is one.
pub fn run<S: Source + TellsReason, O: Sink, L: Sink>(
    alloc: Global,
    words: &[String],
    input: &mut S,
    out: &mut O,
    log: &mut L,
) -> Outcome
    /// The outcome is `Usage` exactly if the words ask for no command.
    ensures usage { (result ≡ Outcome.Ended Status.Usage)
        ↔ AsksFor IsCaptureCommand (map string_bytes words.now) None }

    /// What was read and written is what the command's record says of the outcome, and after it
    /// comes the fault line, with the reason that the input tells, or with the words that fit. If the input is right, the outcome is done, unless something fails
    /// outside or there is no memory.
    ensures runs { CaptureRuns S.Source O.Sink L.Sink S.told_reason (map string_bytes words.now)
        (capture_outside input.old out.old log.old) (capture_outside input.new out.new log.new) result }

    /// The outcome is a fault of reading or of writing only if a count of such faults rose. If it
    /// is done, no write has failed, and `out` and the log were each flushed once, after all that
    /// was written.
    ensures causes { RunCauses S.Source O.Sink L.Sink (capture_outside input.old out.old log.old)
        (capture_outside input.new out.new log.new) result }
{
    let outcome = answer(alloc, asked_by(words), input, out, log);
    let reasons = Reasons {
        key: None,
        input: input.reason(),
        journal: None,
    };
    write_fault_line(log, fault_text(words, &reasons, &outcome).as_slice());
    outcome
}

/// Runs the program with the words after the first argument, which is its name. Returns the exit
/// status.
pub fn run_over_args<S: Source + TellsReason, O: Sink, L: Sink>(
    alloc: Global,
    args: io::Result<Args>,
    input: &mut S,
    out: &mut O,
    log: &mut L,
) -> u8
    /// If the system gives no words, the exit status is 13.
    ensures no_words { IsErr args → result ≡ 13 }
    /// If the system gives no words, the input, the output and the log are as they were.
    ensures untouched { IsErr args
        → capture_outside input.new out.new log.new ≡ capture_outside input.old out.old log.old }

    /// The exit status is that of the outcome of a run with these words, of which all holds that
    /// `run` promises; or it is that of no memory, and all is as it was.
    ensures ends { IfOk args (λ given. EndsOverArgs S.Source O.Sink L.Sink S.told_reason (words_after given)
        (capture_outside input.old out.old log.old) (capture_outside input.new out.new log.new) result) }
{
    let Ok(args) = args else {
        return NOT_GIVEN;
    };
    match words_after_name(alloc, args) {
        Ok(words) => run(alloc, words.as_slice(), input, out, log).exit_status(),
        Err(AllocError) => Status::NoMemory.exit_status(),
    }
}
