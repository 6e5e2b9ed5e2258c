//! The command `vectors`: checks the tables of known answers.
ghost use Rattle.std.specs.Prelude.{◌≡◌, ◌+◌, ◌≤◌, ◌++◌, length, codes, Some};
ghost use Rattle.command_ends.specs.Ends.{outside_before, outside_after};
ghost use Rattle.link_replay.specs.declared.words.Command.TheVariants.{Vectors};
ghost use Rattle.link_replay.specs.Commands.{HasCauses};
ghost use Rattle.link_replay.specs.VectorsCommand.{table_line, table_lines, Tabulates};

use crate::commands::printing::print_alone;
use command_ends::{Ends, Line, Status, push_decimal};
use vectors::{Miss, crc_table, frames_table, hmac_table, user_table};
use yasir_io::{Sink, SlotDisk, Source};

// Appends the line of a table: its name, and how many rows it has if all are right, or else the
// first row that isn't.
fn push_table(line: &mut Line, name: &[u8], rows: u32, answer: Result<(), Miss>)
    requires name { length name.now ≤ 10 }
    requires room { length line.old.items ≤ 500 }
    ensures line { line.new.items ≡ line.old.items ++ table_line name.now rows answer }
    ensures short { length line.new.items ≤ length line.old.items + 40 }
{
    line.try_extend_from_slice(name).unwrap();
    match answer {
        Ok(()) => {
            line.push(b' ');
            push_decimal(line, u64::from(rows));
            line.try_extend_from_slice(b" ok\n").unwrap();
        }
        Err(miss) => {
            line.try_extend_from_slice(b" miss ").unwrap();
            push_decimal(line, u64::from(miss.row));
            line.push(b'\n');
        }
    }
}

// Returns the lines of all tables.
fn table_lines() -> Line
    ensures { result.items ≡ table_lines }
{
    let mut lines = Line::new();
    let (rows, answer) = crc_table();
    push_table(&mut lines, b"crc", rows, answer);
    let (rows, answer) = hmac_table();
    push_table(&mut lines, b"hmac", rows, answer);
    let (rows, answer) = frames_table();
    push_table(&mut lines, b"frames", rows, answer);
    let (rows, answer) = user_table();
    push_table(&mut lines, b"user", rows, answer);
    lines
}

/// Prints a line for each table of known answers.
pub fn print_tables<K: Source, S: Source, O: Sink, L: Sink, D: SlotDisk>(
    ends: Ends<K, S, O, L, D>,
) -> Status
    ensures tabulates { Tabulates O.Sink L.Sink (outside_before ends.entry)
        (outside_after ends.exit) result }
    ensures causes { HasCauses K.Source S.Source O.Sink L.Sink D.SlotDisk (Some Vectors)
        (outside_before ends.entry) (outside_after ends.exit) result }
{
    print_alone(table_lines().as_slice(), ends)
}
