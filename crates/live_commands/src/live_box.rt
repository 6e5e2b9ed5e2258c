//! A box over a live line. The line is tick text that comes in pieces. What the box makes of the
//! lines that have ended in a piece is handed on before the next piece is read.
ghost use Rattle.std.specs.Prelude.{◌≡◌, ◌<◌, ◌≤◌, [], length, Option, false};
ghost use Rattle.yasir_io.specs.Disks.{Slots};
ghost use Rattle.yasir_ticks.specs.Reader.{items_of_content};
ghost use Rattle.yasir_ticks.specs.TickRun.{run_ticks, run_items};
ghost use Rattle.yasir_ticks.specs.Ticks.{ticks_in, items_of_run};
ghost use Rattle.sequence_journal.specs.declared.link.LinkId.{LinkId};
ghost use Rattle.sequence_journal.specs.Journal.{journal_link, journal_floor, is_broken, Fits};
ghost use Rattle.link_format.specs.Setup.{setup_of};
ghost use Rattle.line_commands.specs.History.{History};
ghost use Rattle.live_commands.specs.AheadLines.{box_in, disk_in, floor_in, settled_in, most_in};
ghost use Rattle.live_commands.specs.AheadLines.{MayDrive};
ghost use Rattle.live_commands.specs.Filtering.{outside, Filters, IsClear};
ghost use Rattle.live_commands.specs.LiveLine.{IsReady, GiveAnswer, LineAnswer, LinesAnswer};
ghost use Rattle.live_commands.specs.LiveLine.{PieceAnswer, HearAnswer, FinishAnswer, Drives};
ghost use Rattle.live_commands.specs.LiveLine.{TakeLastAnswer, HandsBehind, has_stopped_in, live_of};
ghost use Rattle.live_commands.specs.LiveLine.{HearsLine, LowersBehind, is_lowered_at};
ghost use Rattle.line_commands.specs.ReplaysBox.{has_stopped};

use crate::ahead_lines::AheadLines;
use crate::filter::{hand_on_all, take_run};
use line_commands::{LineBox, LineReader, Port, ReadBytes, read_on};
use link_format::Dir;
use sequence_journal::{Journal, JournalFault};
use tick_drive::{End, Stop, TooMuch};
use yasir_io::{Failed, SlotDisk};
use yasir_ticks::{Content, Run, TickRun};

/// How many ticks of a live line are taken at most.
pub const MAX_LIVE_TICKS: u64 = 2_305_843_009_213_693_952;

/// After this many bytes of a live line nothing more is read.
pub const MAX_LIVE_BYTES: u64 = 4_611_686_018_427_387_904;

// How many bytes are read at once at most.
const PIECE: usize = 4096;

/// Returns the ticks of a line with this content. If it is a `+` line, these are its bytes.
pub fn run_of(content: Content, bytes: &[u8]) -> TickRun<'_>
    /// They are the ticks of the content's items.
    ensures { run_ticks result ≡ ticks_in (items_of_content content bytes.now) }
{
    match content {
        Content::NoTick | Content::OneMark => TickRun::Silence(0),
        Content::KeptBytes => TickRun::Bytes(bytes),
        Content::SilentTicks(ticks) => TickRun::Silence(ticks),
    }
}

// Returns the ticks of a last line.
fn run_of_last(last: &Run) -> TickRun<'_>
    ensures { run_ticks result ≡ ticks_in (items_of_run last.now) }
{
    match last {
        Run::Nothing | Run::Mark => TickRun::Silence(0),
        Run::Bytes(bytes) => TickRun::Bytes(bytes),
        Run::Silence(ticks) => TickRun::Silence(*ticks),
    }
}

// Whether calls that ended in this way stopped the box.
fn is_stopped(ended: &Result<(), End>) -> bool
    ensures { result ≡ has_stopped_in ended.now }
{
    match ended {
        Err(End::Stopped(_)) => true,
        Ok(()) | Err(End::Whole | End::Refused(_) | End::TooLong { .. } | End::ReadFault) => false,
    }
}

// Whether the floor of the disk is brought down behind a line that ended in this way.
fn is_lowered(end: &End) -> bool
    ensures { result ≡ is_lowered_at end.now }
{
    match end {
        End::Whole | End::Refused(_) | End::TooLong { .. } => true,
        End::ReadFault | End::Stopped(_) => false,
    }
}

/// A box on a live line, with its journal and its texts, and how many ticks it has taken.
#[derive(Drop)]
pub struct LiveBox<B> {
    lines: AheadLines<B>,
    ticks: u64,
}

impl<B: LineBox> LiveBox<B> {
    /// Returns a live box over this journal that has taken no tick. A settle writes a number that
    /// is `ahead` above the last one used.
    pub fn new(key: &[u8], dir: Dir, journal: Journal, ahead: u64) -> LiveBox<B>
        /// The widths of the box are ones that it can be made with.
        requires widths { B.widths_fit }
        /// The journal serves the link of a box of this direction.
        requires link { journal_link journal ≡ B.link_in dir }
        /// No call on the journal has failed.
        requires whole { is_broken journal ≡ false }
        /// It has counted 0 ticks.
        ensures none { result.ticks ≡ 0 }
        /// The box has taken 0 ticks.
        ensures taken { B.taken (box_in result.lines) ≡ 0 }
        /// The disk is taken to hold this journal.
        ensures journal { disk_in result.lines ≡ journal }
        /// A settle writes a number at most `ahead` above the last one used.
        ensures most { most_in result.lines ≡ ahead }
        /// Over a disk that holds this journal, the box may take ticks.
        ensures may { (told : Option Slots) → Fits journal told
            → MayDrive B.LinkBox B.line_of result.lines told }
        /// The disk was settled for the journal's floor.
        ensures settled { settled_in result.lines ≡ journal_floor journal }
        /// Over a disk that holds this journal, nothing waits to be handed on.
        ensures clear { (told : Option Slots) → Fits journal told → IsClear result.lines told }
        /// From any history on, all that the box makes of no tick has been handed on, over a disk
        /// that holds this journal.
        ensures filters { (history : History) (link : LinkId) (told : Option Slots)
            → journal_link journal ≡ link → Fits journal told
            → Filters B.LinkBox B.line_of result.lines history told (record {
              start = history;
              read = [];
              link = link;
              setup = setup_of key.now dir (journal_floor journal);
            }) [] }
    {
        LiveBox {
            lines: AheadLines::new(key, dir, journal, ahead),
            ticks: 0,
        }
    }

    // Gives a run to the box, unless its ticks together with those before are too many.
    fn give<P: Port, D: SlotDisk>(
        &mut self,
        port: &mut P,
        disk: &mut D,
        run: TickRun<'_>,
    ) -> Result<(), End>
        requires { IsReady B.LinkBox B.line_of D.SlotDisk self.old disk.old }
        ensures { GiveAnswer B.LinkBox B.line_of P.Port D.SlotDisk
            (live_of self.old port.old disk.old) (live_of self.new port.new disk.new)
            (run_items run.entry) result }
    {
        let sum = self.ticks + run.len() as u64;
        if sum > MAX_LIVE_TICKS {
            return Err(End::TooLong {
                what: TooMuch::Ticks,
                count: sum,
            });
        }
        match take_run(&mut self.lines, port, disk, run) {
            Ok(()) => {}
            Err(stop) => return Err(End::Stopped(stop)),
        }
        self.ticks = sum;
        Ok(())
    }

    // Reads the bytes of a piece up to the end of a line, or all of them, and gives the ticks of
    // that line to the box. Returns how many bytes were read.
    fn take_line<P: Port, D: SlotDisk>(
        &mut self,
        lines: &mut LineReader,
        port: &mut P,
        disk: &mut D,
        bytes: &[u8],
    ) -> Result<usize, End>
        requires some { 0 < length bytes.now }
        requires few { length bytes.now ≤ 65536 }
        requires ready { IsReady B.LinkBox B.line_of D.SlotDisk self.old disk.old }
        ensures { LineAnswer B.LinkBox B.line_of P.Port D.SlotDisk lines.old lines.new
            (live_of self.old port.old disk.old) (live_of self.new port.new disk.new) bytes.now
            result }
    {
        let ReadBytes { taken, content } = match lines.feed(bytes) {
            Ok(found) => found,
            Err(end) => return Err(end),
        };
        let run = run_of(content, lines.line_bytes());
        match self.give(port, disk, run) {
            Ok(()) => Ok(taken),
            Err(end) => Err(end),
        }
    }

    // Gives all lines that end in a piece to the box.
    fn take_lines<P: Port, D: SlotDisk>(
        &mut self,
        lines: &mut LineReader,
        port: &mut P,
        disk: &mut D,
        piece: &[u8],
    ) -> Result<(), End>
        requires few { length piece.now ≤ 65536 }
        requires ready { IsReady B.LinkBox B.line_of D.SlotDisk self.old disk.old }
        ensures { LinesAnswer B.LinkBox B.line_of P.Port D.SlotDisk lines.old lines.new
            (live_of self.old port.old disk.old) (live_of self.new port.new disk.new) piece.now
            result }
    {
        let mut following = piece;
        while !following.is_empty() {
            match self.take_line(lines, port, disk, following) {
                Ok(taken) => following = &following[taken..],
                Err(end) => return Err(end),
            }
        }
        Ok(())
    }

    // Hands on all that waits, unless calls that ended in this way stopped the box. Returns how
    // they ended, or why the box was stopped now.
    fn hand_behind<P: Port, D: SlotDisk>(
        &mut self,
        port: &mut P,
        disk: &mut D,
        ended: Result<(), End>,
    ) -> Result<(), End>
        requires { has_stopped_in ended ≡ false
            → MayDrive B.LinkBox B.line_of self.old.lines (D.told disk.old) }
        ensures { HandsBehind B.LinkBox B.line_of P.Port D.SlotDisk
            (live_of self.old port.old disk.old) (live_of self.new port.new disk.new) ended result }
    {
        if is_stopped(&ended) {
            return ended;
        }
        match hand_on_all(&mut self.lines, port, disk) {
            Ok(()) => ended,
            Err(stop) => Err(End::Stopped(stop)),
        }
    }

    // Gives all lines that end in a piece to the box, and hands on what it makes of them.
    fn take_piece<P: Port, D: SlotDisk>(
        &mut self,
        lines: &mut LineReader,
        port: &mut P,
        disk: &mut D,
        piece: &[u8],
    ) -> Result<(), End>
        requires few { length piece.now ≤ 65536 }
        requires ready { IsReady B.LinkBox B.line_of D.SlotDisk self.old disk.old }
        ensures { PieceAnswer B.LinkBox B.line_of P.Port D.SlotDisk lines.old lines.new
            (live_of self.old port.old disk.old) (live_of self.new port.new disk.new) piece.now
            result }
    {
        let taken = self.take_lines(lines, port, disk, piece);
        self.hand_behind(port, disk, taken)
    }

    // Reads the live line to its end. What the box makes of the lines of text that have ended is
    // handed on before each read.
    fn hear<P: Port, D: SlotDisk>(
        &mut self,
        lines: &mut LineReader,
        port: &mut P,
        disk: &mut D,
    ) -> Result<(), End>
        requires ready { IsReady B.LinkBox B.line_of D.SlotDisk self.old disk.old }
        requires clear { IsClear self.old.lines (D.told disk.old) }
        ensures { HearAnswer B.LinkBox B.line_of P.Port D.SlotDisk lines.old lines.new
            (live_of self.old port.old disk.old) (live_of self.new port.new disk.new) result }
    {
        let mut buffer = [0; PIECE];
        let mut bytes: u64 = 0;
        while bytes < MAX_LIVE_BYTES {
            let count = match read_on(port, &mut buffer) {
                Ok(count) => count,
                Err(Failed) => return Err(End::ReadFault),
            };
            if count == 0 {
                return Ok(());
            }
            match self.take_piece(lines, port, disk, &buffer[..count]) {
                Ok(()) => {}
                Err(end) => return Err(end),
            }
            bytes += count as u64;
        }
        Err(End::TooLong {
            what: TooMuch::Bytes,
            count: bytes,
        })
    }

    // Takes the last line of the live line, and then `rest` silent ticks.
    fn take_last<P: Port, D: SlotDisk>(
        &mut self,
        lines: LineReader,
        rest: u32,
        port: &mut P,
        disk: &mut D,
    ) -> Result<(), End>
        requires { IsReady B.LinkBox B.line_of D.SlotDisk self.old disk.old }
        ensures { TakeLastAnswer B.LinkBox B.line_of P.Port D.SlotDisk lines rest
            (live_of self.old port.old disk.old) (live_of self.new port.new disk.new) result }
    {
        let last = match lines.finish() {
            Ok(run) => run,
            Err(end) => return Err(end),
        };
        match self.give(port, disk, run_of_last(&last)) {
            Ok(()) => {}
            Err(end) => return Err(end),
        }
        match take_run(&mut self.lines, port, disk, TickRun::Silence(rest)) {
            Ok(()) => Ok(()),
            Err(stop) => Err(End::Stopped(stop)),
        }
    }

    // Takes the end of the live line, and then `rest` silent ticks, and hands on what the box makes
    // of them.
    fn finish<P: Port, D: SlotDisk>(
        &mut self,
        lines: LineReader,
        rest: u32,
        port: &mut P,
        disk: &mut D,
    ) -> Result<(), End>
        requires { IsReady B.LinkBox B.line_of D.SlotDisk self.old disk.old }
        ensures { FinishAnswer B.LinkBox B.line_of P.Port D.SlotDisk lines rest
            (live_of self.old port.old disk.old) (live_of self.new port.new disk.new) result }
    {
        let taken = self.take_last(lines, rest, port, disk);
        self.hand_behind(port, disk, taken)
    }

    // Hears a live line to its end, and then `rest` silent ticks.
    fn hear_line<P: Port, D: SlotDisk>(&mut self, rest: u32, port: &mut P, disk: &mut D) -> End
        requires ready { IsReady B.LinkBox B.line_of D.SlotDisk self.old disk.old }
        requires clear { IsClear self.old.lines (D.told disk.old) }
        ensures { HearsLine B.LinkBox B.line_of P.Port D.SlotDisk rest
            (live_of self.old port.old disk.old) (live_of self.new port.new disk.new) result }
    {
        let mut lines = LineReader::new();
        match self.hear(&mut lines, port, disk) {
            Ok(()) => {}
            Err(end) => return end,
        }
        match self.finish(lines, rest, port, disk) {
            Ok(()) => End::Whole,
            Err(end) => end,
        }
    }

    // Brings the floor of the disk down to the last number used, unless the line ended with a
    // fault. Returns how the line ended, or why the box was stopped now.
    fn lower_behind<D: SlotDisk>(&mut self, disk: &mut D, end: End) -> End
        requires { has_stopped end ≡ false → IsClear self.old.lines (D.told disk.old) }
        ensures { LowersBehind B.LinkBox B.line_of D.SlotDisk self.old self.new disk.old disk.new
            end result }
    {
        if is_lowered(&end) {
            return match self.lines.lower(disk) {
                Ok(()) => end,
                Err(JournalFault) => End::Stopped(Stop::JournalFault),
            };
        }
        end
    }

    /// Drives a live line to its end, and then `rest` silent ticks, into the box, which has taken
    /// no tick before. What the box makes of the lines of text that have ended is handed on before
    /// the next read. Behind the line the floor of the disk is brought down to the last number
    /// used.
    pub fn drive<P: Port, D: SlotDisk>(&mut self, rest: u32, port: &mut P, disk: &mut D) -> End
        /// The box has counted its ticks, at most 2^61, and may take more over this disk.
        requires ready { IsReady B.LinkBox B.line_of D.SlotDisk self.old disk.old }
        /// Nothing waits to be handed on.
        requires clear { IsClear self.old.lines (D.told disk.old) }
        /// The floor of the disk isn't above the last number for which it was settled.
        requires level { floor_in self.old.lines ≤ settled_in self.old.lines }
        ensures { Drives B.LinkBox B.line_of P.Port D.SlotDisk rest
            (live_of self.old port.old disk.old) (live_of self.new port.new disk.new) result }
    {
        let end = self.hear_line(rest, port, disk);
        self.lower_behind(disk, end)
    }
}
