//! The command `audit`: judges a session by three recordings of it.
ghost use Rattle.std.specs.Prelude.{◌≡◌, ◌+◌, ◌≤◌, ◌++◌, List, Some, length};
ghost use Rattle.yasir_ticks.specs.declared.tick.Tick.{Tick};
ghost use Rattle.sequence_journal.specs.declared.numbers.TheConstants.{LIMIT};
ghost use Rattle.command_ends.specs.Causes.{InputCause, SinkCause};
ghost use Rattle.command_ends.specs.Ends.{outside_before, outside_after};
ghost use Rattle.command_ends.specs.Flushes.{FlushesAtEnd};
ghost use Rattle.session_audit.specs.Sessions.{IsSession, verdict_of_session};
ghost use Rattle.link_replay.specs.declared.words.Command.TheVariants.{Audit};
ghost use Rattle.link_replay.specs.AuditCommand.{Audits, AuditsItems, PrintsFinding, audited_verdict};
ghost use Rattle.link_replay.specs.AuditCommand.{counts_words, finding_status, finding_words};
ghost use Rattle.link_replay.specs.AuditCommand.{frame_or_none, frames_lines, verdict_text};
ghost use Rattle.link_replay.specs.Commands.{HasCauses};

use crate::words::Audited;
use command_ends::{
    Ends, KeyError, Status, Unclean, append_decimal, print_text, read_key, status_of,
    write_frame_line,
};
use session_audit::{Counts, Finding, ReadFrame, Session, Verdict, audit_input};
use std::alloc::Global;
use tick_drive::End;
use yasir_io::{Sink, SlotDisk, Source, TextRoom};

// Returns the session of the link that is audited, with this key.
fn session_of(asked: Audited, key: &[u8]) -> Session<'_>
    requires sent { asked.sent_floor ≤ LIMIT }
    requires got { asked.got_floor ≤ LIMIT }
    ensures right { IsSession result }
    ensures verdicts { (device link received : List Tick)
        → verdict_of_session result device link received
        ≡ audited_verdict asked key.now device link received }
{
    Session {
        proto: asked.proto,
        profile: asked.profile,
        dir: asked.dir,
        key,
        sent_floor: asked.sent_floor,
        got_floor: asked.got_floor,
        tolerance: asked.tolerance,
    }
}

/// Room for the text of a verdict: a line of at most 145 bytes and two lines of frames, each of at
/// most 622 bytes.
type VerdictText = TextRoom<2048>;

// Appends the words of what was found.
fn append_finding(text: &mut VerdictText, finding: &Finding)
    requires { length text.old.items + 100 ≤ 2048 }
    ensures words { text.new.items ≡ text.old.items ++ finding_words finding.now }
    ensures short { length text.new.items ≤ length text.old.items + 60 }
{
    match finding {
        Finding::Empty => text.append(b"empty"),
        Finding::Forged { number, start } => {
            text.append(b"forged ");
            append_decimal(text, *number);
            text.append(b" at ");
            append_decimal(text, *start);
        }
        Finding::Differs(difference) => {
            text.append(b"differs ");
            append_decimal(text, difference.place);
        }
        Finding::Clean => text.append(b"clean"),
    }
}

// Appends the words of the counts.
fn append_counts(text: &mut VerdictText, counts: Counts)
    requires { length text.old.items + 100 ≤ 2048 }
    ensures words { text.new.items ≡ text.old.items ++ counts_words counts }
    ensures short { length text.new.items ≤ length text.old.items + 90 }
{
    text.append(b" sealed ");
    append_decimal(text, u64::from(counts.sealed));
    text.append(b" passed ");
    append_decimal(text, u64::from(counts.passed));
    text.append(b" read ");
    append_decimal(text, u64::from(counts.read));
}

// Appends the line of a frame, or of none, which begins with this word.
fn append_frame(text: &mut VerdictText, word: &[u8], frame: &Option<ReadFrame>)
    requires room { length text.old.items + 700 ≤ 2048 }
    requires word { length word.now ≤ 8 }
    ensures line { text.new.items ≡ text.old.items ++ frame_or_none word.now frame.now }
    ensures short { length text.new.items ≤ length text.old.items + 622 }
{
    text.append(word);
    match frame {
        Some(frame) => write_frame_line(text, b" at ", frame.start(), frame.bytes()),
        None => text.append(b" none\n"),
    }
}

// Appends the lines of both frames of a difference, and nothing for any other finding.
fn append_frames(text: &mut VerdictText, finding: &Finding)
    requires { length text.old.items ≤ 200 }
    ensures { text.new.items ≡ text.old.items ++ frames_lines finding.now }
{
    match finding {
        Finding::Differs(difference) => {
            append_frame(text, b"expected", &difference.expected);
            append_frame(text, b"found", &difference.found);
        }
        Finding::Empty | Finding::Forged { .. } | Finding::Clean => {}
    }
}

// Returns the text of a verdict.
fn text_of(verdict: &Verdict) -> VerdictText
    ensures { result.items ≡ verdict_text verdict.now }
{
    let mut text = VerdictText::new();
    text.append(b"audit ");
    append_finding(&mut text, &verdict.finding);
    append_counts(&mut text, verdict.counts);
    text.append(b"\n");
    append_frames(&mut text, &verdict.finding);
    text
}

// Returns the status of an audit that found this.
fn finding_status(finding: &Finding) -> Status
    ensures { result ≡ finding_status finding.now }
{
    match finding {
        Finding::Empty => Status::Unclean(Unclean::Empty),
        Finding::Forged { .. } => Status::Unclean(Unclean::Forged),
        Finding::Differs(_) => Status::Unclean(Unclean::Differs),
        Finding::Clean => Status::Done,
    }
}

// Prints the text of a verdict. Returns the status of what was found, or `WriteFault`.
fn print_verdict<O: Sink, L: Sink>(verdict: &Verdict, out: &mut O, log: &mut L) -> Status
    ensures prints { PrintsFinding (verdict_text verdict.now) (O.held out.old) (O.held out.new)
        verdict.now.finding result }
    ensures log { L.held log.new ≡ L.held log.old }
    ensures sinks { SinkCause (O.faults out.old) (O.faults out.new) (L.faults log.old)
        (L.faults log.new) result }
    ensures flushes { FlushesAtEnd O.Sink L.Sink out.old out.new log.old log.new result }
{
    let text = text_of(verdict);
    match print_text(text.as_slice(), out, log) {
        Status::Done => finding_status(&verdict.finding),
        fault => fault,
    }
}

// Audits three recordings with this key, and prints the verdict if the input has ended well.
fn audit_keyed<K: Source, S: Source, O: Sink, L: Sink, D: SlotDisk>(
    alloc: Global,
    asked: Audited,
    key: &[u8],
    ends: Ends<K, S, O, L, D>,
) -> Status
    requires sent { asked.sent_floor ≤ LIMIT }
    requires got { asked.got_floor ≤ LIMIT }
    ensures prints { AuditsItems asked key.now (S.left ends.entry.input.now)
        (S.left (outside_after ends.exit).input) (O.held ends.entry.out.now)
        (O.held (outside_after ends.exit).out) result }
    ensures log { L.held (outside_after ends.exit).log ≡ L.held ends.entry.log.now }
    ensures key { (outside_after ends.exit).key ≡ ends.entry.key.now }
    ensures disk { (outside_after ends.exit).disk ≡ ends.entry.disk.now }
    ensures input { InputCause (S.faults ends.entry.input.now)
        (S.faults (outside_after ends.exit).input) result }
    ensures sinks { SinkCause (O.faults ends.entry.out.now)
        (O.faults (outside_after ends.exit).out) (L.faults ends.entry.log.now)
        (L.faults (outside_after ends.exit).log) result }
    ensures flushes { FlushesAtEnd O.Sink L.Sink ends.entry.out.now
        (outside_after ends.exit).out ends.entry.log.now (outside_after ends.exit).log result }
{
    let Ends {
        input,
        out,
        log,
        ..
    } = ends;
    let verdict = match audit_input(alloc, &session_of(asked, key), input) {
        Ok(verdict) => verdict,
        Err(End::Stopped(_)) => return Status::NoMemory,
        Err(end) => return status_of(end),
    };
    print_verdict(&verdict, out, log)
}

/// Judges a session that has ended by three recordings of it, and prints the verdict. Two marks
/// part the recordings in the input.
pub fn audit<K: Source, S: Source, O: Sink, L: Sink, D: SlotDisk>(
    alloc: Global,
    asked: Audited,
    ends: Ends<K, S, O, L, D>,
) -> Status
    requires sent { asked.sent_floor ≤ LIMIT }
    requires got { asked.got_floor ≤ LIMIT }
    ensures audits { Audits K.Source S.Source O.Sink L.Sink asked (outside_before ends.entry)
        (outside_after ends.exit) result }
    ensures causes { HasCauses K.Source S.Source O.Sink L.Sink D.SlotDisk
        (Some (Audit asked)) (outside_before ends.entry) (outside_after ends.exit) result }
{
    match read_key(ends.key) {
        Ok(key) => audit_keyed(alloc, asked, key.as_slice(), ends),
        Err(KeyError::Fault) => Status::ReadFault,
        Err(KeyError::Bad { place }) => Status::BadKey { place },
    }
}
