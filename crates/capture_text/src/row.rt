//! What a line of an export says, whatever its form.
ghost use Rattle.std.specs.Prelude.{◌≡◌, ◌≤◌, length};

use crate::RowFault;

/// Where in an export its reader is.
#[derive(Clone, Copy, Debug, PartialEq, Eq)]
pub enum Stage {
    /// Before its first line.
    Start,
    /// Rows may follow, and the export may end.
    Rows,
    /// A row or the last line follows.
    First,
    /// A row follows.
    More,
    /// The last line follows.
    Last,
    /// After its last line.
    Done,
}

/// What a row says of its channel.
#[derive(Clone, Copy, Debug, PartialEq, Eq)]
pub enum What {
    /// A byte.
    Byte(u8),
    /// An event with this number, as RTAC serial captures number them: 7 is a framing error, 8 a
    /// parity error and 9 a break.
    Event(u8),
}

/// What a row says, and its time in nanoseconds.
#[derive(Clone, Copy, Debug, PartialEq, Eq)]
pub struct RowItem {
    /// The time of the row, in nanoseconds.
    pub start: u64,
    /// What the row says of its channel.
    pub what: What,
}

/// What a line means: what may follow it, and what it says, if it says anything.
#[derive(Clone, Copy, Debug, PartialEq, Eq)]
pub struct Row {
    /// The stage after the line: what may follow it.
    pub next: Stage,
    /// What the line says, or `None` if it says nothing, as a heading does.
    pub item: Option<RowItem>,
}

/// A form of exports that have one row on each line.
pub trait RowForm: Drop {
    ghost use Rattle.std.specs.Prelude.{◌≡◌, ℕ, List, Result, Bool};
    ghost use Rattle.capture_text.specs.declared.row_fault.RowFault.{RowFault};
    ghost use Rattle.capture_text.specs.declared.row.Row.{Row};
    ghost use Rattle.capture_text.specs.declared.row.Stage.{Stage};

    /// What a line means at this stage, or why it is refused.
    ghost row_at: { Stage → List ℕ → Result Row RowFault };

    /// The name of a row's channel.
    ghost name_of: { List ℕ → List ℕ };

    /// Whether the row of an error follows the row of the byte with this error. If not, it takes the
    /// place of that row.
    ghost error_follows: { Bool };

    /// Returns the form. Every value of its type means the same.
    fn form() -> Self;

    /// Returns what a line means at this stage, or why it is refused.
    fn row(&self, stage: Stage, line: &[u8]) -> Result<Row, RowFault>
        ensures { result ≡ row_at stage line.now };

    /// Returns the name of a row's channel.
    fn name<'t>(&self, line: &'t [u8]) -> &'t [u8]
        ensures { result.now ≡ name_of line.now };

    /// Whether the row of an error follows the row of the byte with this error. If not, it takes
    /// the place of that row.
    fn errors_follow() -> bool
        ensures { result ≡ error_follows };
}
