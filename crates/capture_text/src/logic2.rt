//! The table that Saleae Logic 2 exports from its Async Serial analyzers.
ghost use Rattle.std.specs.Prelude.{◌≡◌, false};
ghost use Rattle.capture_text.specs.Logic2.{logic2_field, is_heading, byte_in, what_in, data_row, timed_row};
ghost use Rattle.capture_text.specs.Logic2.{row_time, data_text, row_what, logic2_row, logic2_name};

use crate::cut::{behind, front, unquoted};
use crate::decimal::time_at;
use crate::{Row, RowFault, RowForm, RowItem, Stage, What, hex_value};

/// The nanoseconds of a second.
const SECOND: u64 = 1_000_000_000;

/// The table that Logic 2 exports: a heading, and a row for each byte.
#[derive(Clone, Copy, Debug, Drop)]
pub struct Logic2 {}

/// Returns the first field of a text: what comes before its first comma, without quotes around it.
fn field(line: &[u8]) -> &[u8]
    ensures { result.now ≡ logic2_field line.now }
{
    unquoted(front(b',', line))
}

/// Whether a line is the heading: name, type, start_time, duration and data, and maybe error.
fn is_heading(line: &[u8]) -> bool
    ensures { result ≡ is_heading line.now }
{
    let kind = behind(b',', line);
    let start = behind(b',', kind);
    let duration = behind(b',', start);
    let data = behind(b',', duration);
    let error = field(behind(b',', data));
    if field(line) != b"name".as_slice() {
        return false;
    }
    if field(kind) != b"type".as_slice() {
        return false;
    }
    if field(start) != b"start_time".as_slice() {
        return false;
    }
    if field(duration) != b"duration".as_slice() {
        return false;
    }
    if field(data) != b"data".as_slice() {
        return false;
    }
    error.is_empty() || error == b"error".as_slice()
}

/// Returns the byte of a field such as `0x41`, or `None` if the field isn't written like this.
fn byte_in(text: &[u8]) -> Option<u8>
    ensures { result ≡ byte_in text.now }
{
    match text {
        [zero, x, high, low] => {
            if *zero != b'0' {
                return None;
            }
            if *x != b'x' {
                return None;
            }
            let Some(high) = hex_value(*high) else {
                return None;
            };
            let Some(low) = hex_value(*low) else {
                return None;
            };
            Some(high * 16 + low)
        }
        _ => None,
    }
}

/// Returns what a row says: its byte, or the error in place of it.
fn what_in(value: &[u8], error: &[u8]) -> Option<What>
    ensures { result ≡ what_in value.now error.now }
{
    if error == b"framing".as_slice() {
        return Some(What::Event(7));
    }
    if error == b"parity".as_slice() {
        return Some(What::Event(8));
    }
    if !error.is_empty() {
        return None;
    }
    match byte_in(value) {
        Some(byte) => Some(What::Byte(byte)),
        None => None,
    }
}

/// Joins the time of a row with what it says, or refuses the row if either is missing.
fn timed_row(start: Option<u64>, what: Option<What>) -> Result<Row, RowFault>
    ensures { result ≡ timed_row start what }
{
    let Some(start) = start else {
        return Err(RowFault::Time);
    };
    match what {
        Some(what) => Ok(Row {
            next: Stage::Rows,
            item: Some(RowItem { start, what }),
        }),
        None => Err(RowFault::Data),
    }
}

/// Returns the time of a row in nanoseconds, from its third field.
fn row_time(line: &[u8]) -> Option<u64>
    ensures { result ≡ row_time line.now }
{
    let start = behind(b',', behind(b',', line));
    time_at(SECOND, field(start))
}

/// Returns a row from its fifth field on.
fn data_text(line: &[u8]) -> &[u8]
    ensures { result.now ≡ data_text line.now }
{
    let start = behind(b',', behind(b',', line));
    behind(b',', behind(b',', start))
}

/// Returns what the fifth and the sixth field of a row say.
fn row_what(line: &[u8]) -> Option<What>
    ensures { result ≡ row_what line.now }
{
    let data = data_text(line);
    what_in(field(data), field(behind(b',', data)))
}

/// Returns what the row of a byte or an error means, or why it is refused.
fn data_row(line: &[u8]) -> Result<Row, RowFault>
    ensures { result ≡ data_row line.now }
{
    let kind = behind(b',', line);
    if field(kind) != b"data".as_slice() {
        return Err(RowFault::Line);
    }
    timed_row(row_time(line), row_what(line))
}

impl RowForm for Logic2 {
    ghost row_at = { logic2_row };

    ghost name_of = { logic2_name };

    ghost error_follows = { false };

    fn form() -> Logic2 {
        Logic2 {}
    }

    fn row(&self, stage: Stage, line: &[u8]) -> Result<Row, RowFault> {
        match stage {
            Stage::Start => {
                if is_heading(line) {
                    Ok(Row {
                        next: Stage::Rows,
                        item: None,
                    })
                } else {
                    Err(RowFault::Line)
                }
            }
            _ => data_row(line),
        }
    }

    fn name<'t>(&self, line: &'t [u8]) -> &'t [u8] {
        field(line)
    }

    fn errors_follow() -> bool {
        false
    }
}
