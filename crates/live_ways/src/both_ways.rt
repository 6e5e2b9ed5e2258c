//! Both ways of a live line: one stream is read, and what the ways make of it is handed on.
ghost use Rattle.std.specs.Prelude.{◌≡◌, ℕ, List, ◌∷◌, [], ◌++◌, true, false};
ghost use Rattle.yasir_ticks.specs.Ticks.{silent};
ghost use Rattle.live_line.specs.WayText.{HasParted};
ghost use Rattle.live_line.specs.declared.ways.Way.{Way as OneWay};
ghost use Rattle.live_ways.specs.Driving.{HasReadNothing, IsLevel, MayLower, LowersBehind};
ghost use Rattle.live_ways.specs.Driving.{CloseAnswer, TakesMore, TakesEnd, HearsStream, Drives};
ghost use Rattle.live_ways.specs.BothDisks.{disk_on};
ghost use Rattle.live_ways.specs.Ends.{end_in, is_stopped_end, is_lowered_end};
ghost use Rattle.live_ways.specs.LiveLine.{line_at, lines_on, IsReadyLine, IsAbleLine, BytesAnswer};
ghost use Rattle.live_ways.specs.LiveLine.{HandsBoth, HandsBehind, PieceAnswer, HearAnswer};
ghost use Rattle.live_ways.specs.LiveLine.{HeardAt, HandedAt, StandsClear};
ghost use Rattle.live_ways.specs.Rests.{by_way, rest_on};
ghost use Rattle.live_ways.specs.WayEnds.{closed};

use crate::both_disks::BothDisks;
use crate::rests::Rests;
use crate::way_end::WayEnd;
use crate::way_reader::WayReader;
use line_commands::Port;
use live_commands::MAX_LIVE_BYTES;
use live_line::{BadWay, Way, WayBox, WayLines, Ways, read_ways};
use sequence_journal::JournalFault;
use tick_drive::Stop;
use yasir_io::{Failed, SlotDisk};
use yasir_ticks::TickRun;

// How many bytes are read at once at most.
const PIECE: usize = 4096;

// Whether calls that ended in this way stopped a way.
fn is_stopped(ended: &Result<(), WayEnd>) -> bool
    ensures { result ≡ is_stopped_end (end_in ended.now) }
{
    match ended {
        Err(WayEnd::Stopped(..)) => true,
        Ok(())
        | Err(
            WayEnd::Whole
            | WayEnd::Refused(..)
            | WayEnd::NoWay(_)
            | WayEnd::TooLong(..)
            | WayEnd::TooManyBytes(_)
            | WayEnd::ReadFault,
        ) => false,
    }
}

// Whether the floors of the disks are brought down behind a stream that ended in this way.
fn is_lowered(end: &WayEnd) -> bool
    ensures { result ≡ is_lowered_end end.now }
{
    match end {
        WayEnd::ReadFault | WayEnd::Stopped(..) => false,
        WayEnd::Whole
        | WayEnd::Refused(..)
        | WayEnd::NoWay(_)
        | WayEnd::TooLong(..)
        | WayEnd::TooManyBytes(_) => true,
    }
}

/// Both ways of a live line, and the reader that parts its stream.
#[derive(Drop)]
pub struct LiveLine<X, Y> {
    ways: Ways,
    outgoing: WayReader<X>,
    incoming: WayReader<Y>,
}

impl<X: WayBox, Y: WayBox> LiveLine<X, Y> {
    /// Returns both ways, of which nothing was read.
    pub fn new(outgoing: WayLines<X>, incoming: WayLines<Y>) -> LiveLine<X, Y>
        /// The outgoing way has these lines.
        ensures outgoing { lines_on result OneWay.Outgoing ≡ outgoing }
        /// The incoming way has these lines.
        ensures incoming { lines_on result OneWay.Incoming ≡ incoming }
        /// Nothing was read of a stream.
        ensures nothing { HasReadNothing result }
    {
        LiveLine {
            ways: Ways::new(),
            outgoing: WayReader::new(outgoing),
            incoming: WayReader::new(incoming),
        }
    }

    // Takes the next byte of the stream.
    fn take_byte<P: Port, D: SlotDisk>(
        &mut self,
        port: &mut P,
        disks: &mut BothDisks<D>,
        byte: u8,
    ) -> Result<(), WayEnd>
        requires { IsReadyLine X.WayBox Y.WayBox P.Port D.SlotDisk
            (line_at self.old port.old disks.old) }
        ensures { BytesAnswer X.WayBox Y.WayBox P.Port D.SlotDisk
            (line_at self.old port.old disks.old) (line_at self.new port.new disks.new)
            (byte ∷ []) result }
    {
        let line = self.ways.line();
        match self.ways.next(byte) {
            Ok(None) => Ok(()),
            Ok(Some(Way::Outgoing)) => {
                let sent = &mut disks.first;
                match self.outgoing.take_byte(Way::Outgoing, port, sent, byte) {
                    Ok(()) => Ok(()),
                    Err(fault) => Err(fault.end(Way::Outgoing, line)),
                }
            }
            Ok(Some(Way::Incoming)) => {
                let got = &mut disks.second;
                match self.incoming.take_byte(Way::Incoming, port, got, byte) {
                    Ok(()) => Ok(()),
                    Err(fault) => Err(fault.end(Way::Incoming, line)),
                }
            }
            Err(BadWay) => Err(WayEnd::NoWay(line)),
        }
    }

    // Takes the bytes of a piece of the stream.
    fn take_bytes<P: Port, D: SlotDisk>(
        &mut self,
        port: &mut P,
        disks: &mut BothDisks<D>,
        piece: &[u8],
    ) -> Result<(), WayEnd>
        requires { IsReadyLine X.WayBox Y.WayBox P.Port D.SlotDisk
            (line_at self.old port.old disks.old) }
        ensures { BytesAnswer X.WayBox Y.WayBox P.Port D.SlotDisk
            (line_at self.old port.old disks.old) (line_at self.new port.new disks.new)
            piece.now result }
    {
        let mut following = piece;
        while !following.is_empty() {
            match self.take_byte(port, disks, following[0]) {
                Ok(()) => following = &following[1..],
                Err(end) => return Err(end),
            }
        }
        Ok(())
    }

    // Hands on all that waits of both ways.
    fn hand_both<P: Port, D: SlotDisk>(
        &mut self,
        port: &mut P,
        disks: &mut BothDisks<D>,
    ) -> Result<(), WayEnd>
        requires { IsAbleLine X.WayBox Y.WayBox P.Port D.SlotDisk
            (line_at self.old port.old disks.old) }
        ensures { HandsBoth X.WayBox Y.WayBox P.Port D.SlotDisk
            (line_at self.old port.old disks.old) (line_at self.new port.new disks.new) result }
    {
        match self
            .outgoing
            .lines
            .hand_all(Way::Outgoing, port, &mut disks.first)
        {
            Ok(()) => {}
            Err(stop) => return Err(WayEnd::Stopped(Way::Outgoing, stop)),
        }
        match self
            .incoming
            .lines
            .hand_all(Way::Incoming, port, &mut disks.second)
        {
            Ok(()) => Ok(()),
            Err(stop) => Err(WayEnd::Stopped(Way::Incoming, stop)),
        }
    }

    // Hands on all that waits of both ways, unless calls that ended in this way stopped one. Returns
    // how they ended, or why a way was stopped now.
    fn hand_behind<P: Port, D: SlotDisk>(
        &mut self,
        port: &mut P,
        disks: &mut BothDisks<D>,
        ended: Result<(), WayEnd>,
    ) -> Result<(), WayEnd>
        requires { is_stopped_end (end_in ended) ≡ false → IsAbleLine X.WayBox Y.WayBox P.Port
            D.SlotDisk (line_at self.old port.old disks.old) }
        ensures { HandsBehind X.WayBox Y.WayBox P.Port D.SlotDisk
            (line_at self.old port.old disks.old) (line_at self.new port.new disks.new) ended
            result }
    {
        if is_stopped(&ended) {
            return ended;
        }
        match self.hand_both(port, disks) {
            Ok(()) => ended,
            Err(end) => Err(end),
        }
    }

    // Takes the bytes of a piece, and hands on what is made of the lines that have ended.
    fn take_piece<P: Port, D: SlotDisk>(
        &mut self,
        port: &mut P,
        disks: &mut BothDisks<D>,
        piece: &[u8],
    ) -> Result<(), WayEnd>
        requires { IsReadyLine X.WayBox Y.WayBox P.Port D.SlotDisk
            (line_at self.old port.old disks.old) }
        ensures { PieceAnswer X.WayBox Y.WayBox P.Port D.SlotDisk
            (line_at self.old port.old disks.old) (line_at self.new port.new disks.new)
            piece.now result }
    {
        let taken = self.take_bytes(port, disks, piece);
        self.hand_behind(port, disks, taken)
    }

    // Reads the stream to its end. What is made of the lines that have ended is handed on before
    // each read.
    fn hear<P: Port, D: SlotDisk>(
        &mut self,
        port: &mut P,
        disks: &mut BothDisks<D>,
    ) -> Result<(), WayEnd>
        requires { IsReadyLine X.WayBox Y.WayBox P.Port D.SlotDisk
            (line_at self.old port.old disks.old) }
        ensures { HearAnswer X.WayBox Y.WayBox P.Port D.SlotDisk
            (line_at self.old port.old disks.old) (line_at self.new port.new disks.new) result }
    {
        let mut buffer = [0; PIECE];
        let mut bytes: u64 = 0;
        while bytes < MAX_LIVE_BYTES {
            let count = match read_ways(port, &mut buffer) {
                Ok(count) => count,
                Err(Failed) => return Err(WayEnd::ReadFault),
            };
            if count == 0 {
                return Ok(());
            }
            match self.take_piece(port, disks, &buffer[..count]) {
                Ok(()) => {}
                Err(end) => return Err(end),
            }
            bytes += count as u64;
        }
        Err(WayEnd::TooManyBytes(bytes))
    }

    // Whether a line of the stream has begun and not ended: whether an LF may follow.
    fn is_open(&self) -> bool
        ensures open { result ≡ true → (stream : List ℕ) → HasParted self.now.ways stream
            → closed stream ≡ stream ++ 10 ∷ [] }
        ensures ended { result ≡ false → (stream : List ℕ) → HasParted self.now.ways stream
            → closed stream ≡ stream }
    {
        let mut ways = self.ways;
        match ways.next(b'\n') {
            Ok(_) => true,
            Err(BadWay) => false,
        }
    }

    // Ends a last line that hasn't ended, as an LF would.
    fn close<P: Port, D: SlotDisk>(
        &mut self,
        port: &mut P,
        disks: &mut BothDisks<D>,
    ) -> Result<(), WayEnd>
        requires { IsReadyLine X.WayBox Y.WayBox P.Port D.SlotDisk
            (line_at self.old port.old disks.old) }
        ensures { CloseAnswer X.WayBox Y.WayBox P.Port D.SlotDisk
            (line_at self.old port.old disks.old) (line_at self.new port.new disks.new) result }
    {
        if self.is_open() {
            return self.take_byte(port, disks, b'\n');
        }
        Ok(())
    }

    // Takes the silent ticks that follow the texts of both ways.
    fn take_rests<P: Port, D: SlotDisk>(
        &mut self,
        outgoing: u32,
        incoming: u32,
        port: &mut P,
        disks: &mut BothDisks<D>,
    ) -> Result<(), WayEnd>
        requires { IsReadyLine X.WayBox Y.WayBox P.Port D.SlotDisk
            (line_at self.old port.old disks.old) }
        ensures { TakesMore X.WayBox Y.WayBox P.Port D.SlotDisk
            (λ way. silent (by_way outgoing incoming way))
            (line_at self.old port.old disks.old) (line_at self.new port.new disks.new) result }
    {
        let rest = TickRun::Silence(outgoing);
        match self
            .outgoing
            .lines
            .take_run(Way::Outgoing, port, &mut disks.first, rest)
        {
            Ok(()) => {}
            Err(stop) => return Err(WayEnd::Stopped(Way::Outgoing, stop)),
        }
        let rest = TickRun::Silence(incoming);
        match self
            .incoming
            .lines
            .take_run(Way::Incoming, port, &mut disks.second, rest)
        {
            Ok(()) => Ok(()),
            Err(stop) => Err(WayEnd::Stopped(Way::Incoming, stop)),
        }
    }

    // Takes the end of the stream, and then the silent ticks that follow the texts of both ways.
    fn take_last<P: Port, D: SlotDisk>(
        &mut self,
        rests: Rests,
        port: &mut P,
        disks: &mut BothDisks<D>,
    ) -> Result<(), WayEnd>
        requires { IsReadyLine X.WayBox Y.WayBox P.Port D.SlotDisk
            (line_at self.old port.old disks.old) }
        ensures { TakesEnd X.WayBox Y.WayBox P.Port D.SlotDisk (rest_on rests)
            (HeardAt X.WayBox Y.WayBox P.Port D.SlotDisk (line_at self.new port.new disks.new))
            (line_at self.old port.old disks.old) (line_at self.new port.new disks.new)
            (end_in result) }
    {
        match self.close(port, disks) {
            Ok(()) => {}
            Err(end) => return Err(end),
        }
        self.take_rests(rests.outgoing, rests.incoming, port, disks)
    }

    // Takes the end of the stream and the silent ticks after it, and hands on what is made of them.
    fn finish<P: Port, D: SlotDisk>(
        &mut self,
        rests: Rests,
        port: &mut P,
        disks: &mut BothDisks<D>,
    ) -> Result<(), WayEnd>
        requires { IsReadyLine X.WayBox Y.WayBox P.Port D.SlotDisk
            (line_at self.old port.old disks.old) }
        ensures { TakesEnd X.WayBox Y.WayBox P.Port D.SlotDisk (rest_on rests)
            (HandedAt X.WayBox Y.WayBox P.Port D.SlotDisk (line_at self.new port.new disks.new))
            (line_at self.old port.old disks.old) (line_at self.new port.new disks.new)
            (end_in result) }
    {
        let taken = self.take_last(rests, port, disks);
        self.hand_behind(port, disks, taken)
    }

    // Reads the stream to its end, and takes the silent ticks that follow the texts of both ways.
    fn hear_stream<P: Port, D: SlotDisk>(
        &mut self,
        rests: Rests,
        port: &mut P,
        disks: &mut BothDisks<D>,
    ) -> WayEnd
        requires { IsReadyLine X.WayBox Y.WayBox P.Port D.SlotDisk
            (line_at self.old port.old disks.old) }
        ensures { HearsStream X.WayBox Y.WayBox P.Port D.SlotDisk (rest_on rests)
            (line_at self.old port.old disks.old) (line_at self.new port.new disks.new) result }
    {
        match self.hear(port, disks) {
            Ok(()) => {}
            Err(end) => return end,
        }
        match self.finish(rests, port, disks) {
            Ok(()) => WayEnd::Whole,
            Err(end) => end,
        }
    }

    // Brings the floors of both disks down to the last numbers used, unless a fault ended the
    // stream. Returns how it ended, or that a disk failed now.
    fn lower_behind<D: SlotDisk>(&mut self, disks: &mut BothDisks<D>, end: WayEnd) -> WayEnd
        requires { is_lowered_end end ≡ true → (way : OneWay) → MayLower D.SlotDisk
            (lines_on self.old way) (disk_on disks.old way) }
        ensures { LowersBehind D.SlotDisk self.old self.new disks.old disks.new end result }
    {
        if !is_lowered(&end) {
            return end;
        }
        match self.outgoing.lines.lower(&mut disks.first) {
            Ok(()) => {}
            Err(JournalFault) => return WayEnd::Stopped(Way::Outgoing, Stop::JournalFault),
        }
        match self.incoming.lines.lower(&mut disks.second) {
            Ok(()) => end,
            Err(JournalFault) => WayEnd::Stopped(Way::Incoming, Stop::JournalFault),
        }
    }

    /// Drives a stream of both ways, of which nothing was read, to its end, and then the silent
    /// ticks of `rests`, through both boxes. What they make of the lines that have ended is written
    /// and flushed before the next read. Behind the stream the floors of both disks are brought
    /// down to the last numbers used, unless a fault ended it.
    pub fn drive<P: Port, D: SlotDisk>(
        &mut self,
        rests: Rests,
        port: &mut P,
        disks: &mut BothDisks<D>,
    ) -> WayEnd
        /// Each way has counted its ticks, at most 2^61, and may take more over its disk.
        requires ready { IsReadyLine X.WayBox Y.WayBox P.Port D.SlotDisk
            (line_at self.old port.old disks.old) }
        /// The disk of each way holds the number for which it was settled.
        requires level { IsLevel self.old }
        /// What was read and handed on, what no crash at any moment leaves, and which object failed
        /// are what the record says of this end.
        ensures { Drives X.WayBox Y.WayBox P.Port D.SlotDisk (rest_on rests)
            (line_at self.old port.old disks.old) (line_at self.new port.new disks.new) result }
    {
        let end = self.hear_stream(rests, port, disks);
        self.lower_behind(disks, end)
    }
}
