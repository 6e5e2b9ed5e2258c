//! The trace that sigrok-cli writes from its UART decoder, as Google Trace Events, one on each
//! line.
ghost use Rattle.std.specs.Prelude.{◌≡◌, true};
ghost use Rattle.capture_text.specs.Sigrok.{phase_text, time_text, row_text, name_text, byte_named};
ghost use Rattle.capture_text.specs.Sigrok.{what_named, event_phase, event_time, event_what};
ghost use Rattle.capture_text.specs.Sigrok.{trace_row, trace_name};
ghost use Rattle.capture_text.specs.Sigrok.{after_event, event_said, event_row, last_row, timed_event};

use crate::cut::{behind, front, skip};
use crate::decimal::time_at;
use crate::{Row, RowFault, RowForm, RowItem, Stage, What, hex_value};

/// The unit of the times of a trace, in nanoseconds.
const MICROSECOND: u64 = 1_000;

/// The trace of sigrok's UART decoder: a first line, one event on each line, and a last line.
#[derive(Clone, Copy, Debug, Drop)]
pub struct Sigrok {}

/// Returns the line of an event from its phase on.
fn phase_text(line: &[u8]) -> &[u8]
    ensures { result.now ≡ phase_text line.now }
{
    skip(b"{\"ph\": \"".as_slice(), line)
}

/// Returns the line of an event from its time on.
fn time_text(line: &[u8]) -> &[u8]
    ensures { result.now ≡ time_text line.now }
{
    skip(b", \"ts\": ".as_slice(), behind(b'"', phase_text(line)))
}

/// Returns the line of an event from the row of the decoder on.
fn row_text(line: &[u8]) -> &[u8]
    ensures { result.now ≡ row_text line.now }
{
    skip(
        b" \"pid\": \"uart-1\", \"tid\": \"".as_slice(),
        behind(b',', time_text(line)),
    )
}

/// Returns the line of an event from its name on.
fn name_text(line: &[u8]) -> &[u8]
    ensures { result.now ≡ name_text line.now }
{
    skip(b", \"name\": \"".as_slice(), behind(b'"', row_text(line)))
}

/// Returns the byte that two hex digits name, or `None` if the name isn't two hex digits.
fn byte_named(name: &[u8]) -> Option<u8>
    ensures { result ≡ byte_named name.now }
{
    match name {
        [high, low] => {
            let Some(high) = hex_value(*high) else {
                return None;
            };
            let Some(low) = hex_value(*low) else {
                return None;
            };
            Some(high * 16 + low)
        }
        _ => None,
    }
}

/// Returns what an event with this name says in this row of the decoder.
fn what_named(row: &[u8], name: &[u8]) -> Option<What>
    ensures { result ≡ what_named row.now name.now }
{
    if name == b"Frame error".as_slice() {
        return Some(What::Event(7));
    }
    if name == b"Parity error".as_slice() {
        return Some(What::Event(8));
    }
    if name == b"Break condition".as_slice() {
        return Some(What::Event(9));
    }
    if front(b' ', row) != row {
        return None;
    }
    match byte_named(name) {
        Some(byte) => Some(What::Byte(byte)),
        None => None,
    }
}

/// Returns what may follow an event whose line ends like this: another event if there is a comma,
/// otherwise the last line.
fn after_event(end: &[u8]) -> Option<Stage>
    ensures { result ≡ after_event end.now }
{
    if end == b"},".as_slice() {
        return Some(Stage::More);
    }
    if end == b"}".as_slice() {
        return Some(Stage::Last);
    }
    None
}

/// Joins the time of an event with what its name says, or refuses the event if either is missing.
fn timed_event(start: Option<u64>, what: Option<What>) -> Result<Option<RowItem>, RowFault>
    ensures { result ≡ timed_event start what }
{
    let Some(start) = start else {
        return Err(RowFault::Time);
    };
    match what {
        Some(what) => Ok(Some(RowItem { start, what })),
        None => Err(RowFault::Data),
    }
}

/// Returns the phase of an event, which says whether it begins or ends.
fn event_phase(line: &[u8]) -> &[u8]
    ensures { result.now ≡ event_phase line.now }
{
    front(b'"', phase_text(line))
}

/// Returns the time of an event, in nanoseconds.
fn event_time(line: &[u8]) -> Option<u64>
    ensures { result ≡ event_time line.now }
{
    time_at(MICROSECOND, front(b',', time_text(line)))
}

/// Returns what an event says by its row and its name.
fn event_what(line: &[u8]) -> Option<What>
    ensures { result ≡ event_what line.now }
{
    what_named(front(b'"', row_text(line)), front(b'"', name_text(line)))
}

/// Returns what the line of an event says: something if the event begins there, and nothing if it
/// ends.
fn event_said(line: &[u8]) -> Result<Option<RowItem>, RowFault>
    ensures { result ≡ event_said line.now }
{
    let phase = event_phase(line);
    if phase == b"E".as_slice() {
        return Ok(None);
    }
    if phase != b"B".as_slice() {
        return Err(RowFault::Line);
    }
    timed_event(event_time(line), event_what(line))
}

/// Returns what the line of an event means, or why it is refused.
fn event_row(line: &[u8]) -> Result<Row, RowFault>
    ensures { result ≡ event_row line.now }
{
    let Some(next) = after_event(behind(b'"', name_text(line))) else {
        return Err(RowFault::Line);
    };
    match event_said(line) {
        Ok(item) => Ok(Row { next, item }),
        Err(why) => Err(why),
    }
}

/// Returns what the last line means, or refuses any other line.
fn last_row(line: &[u8]) -> Result<Row, RowFault>
    ensures { result ≡ last_row line.now }
{
    if line == b"]}".as_slice() {
        Ok(Row {
            next: Stage::Done,
            item: None,
        })
    } else {
        Err(RowFault::Line)
    }
}

impl RowForm for Sigrok {
    ghost row_at = { trace_row };

    ghost name_of = { trace_name };

    ghost error_follows = { true };

    fn form() -> Sigrok {
        Sigrok {}
    }

    fn row(&self, stage: Stage, line: &[u8]) -> Result<Row, RowFault> {
        match stage {
            Stage::Start => {
                if line == b"{\"traceEvents\": [".as_slice() {
                    Ok(Row {
                        next: Stage::First,
                        item: None,
                    })
                } else {
                    Err(RowFault::Line)
                }
            }
            Stage::First => {
                if line == b"]}".as_slice() {
                    last_row(line)
                } else {
                    event_row(line)
                }
            }
            Stage::Rows | Stage::More => event_row(line),
            Stage::Last => last_row(line),
            Stage::Done => Err(RowFault::Line),
        }
    }

    fn name<'t>(&self, line: &'t [u8]) -> &'t [u8] {
        front(b' ', front(b'"', row_text(line)))
    }

    fn errors_follow() -> bool {
        true
    }
}
