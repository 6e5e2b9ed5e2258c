//! One way of a live line, with the reader of its text.
ghost use Rattle.std.specs.Prelude.{◌≡◌, ◌∷◌, []};
ghost use Rattle.line_commands.specs.Lines.{HasRead};
ghost use Rattle.live_ways.specs.WayReading.{IsReadyWay, ByteAnswer, way_at};

use crate::way_end::WayFault;
use line_commands::{LineReader, Port, ReadBytes};
use live_commands::{MAX_LIVE_TICKS, run_of};
use live_line::{Way, WayBox, WayLines};
use tick_drive::TooMuch;
use yasir_io::SlotDisk;

/// One way of a live line, with the reader of its text, and how many ticks it has taken.
#[derive(Drop)]
pub struct WayReader<X> {
    /// The reader of its text.
    pub(crate) reader: LineReader,
    /// The box, and what waits to be handed on.
    pub(crate) lines: WayLines<X>,
    /// How many ticks it has taken.
    pub(crate) ticks: u64,
}

impl<X: WayBox> WayReader<X> {
    /// Returns the reader of a way of which nothing was read.
    pub fn new(lines: WayLines<X>) -> WayReader<X>
        /// It has these lines.
        ensures lines { result.lines ≡ lines }
        /// It has read no text.
        ensures reads { HasRead result.reader [] }
        /// It has counted 0 ticks.
        ensures none { result.ticks ≡ 0 }
    {
        WayReader {
            reader: LineReader::new(),
            lines,
            ticks: 0,
        }
    }

    /// Takes the next byte of the text of the way. The ticks of a line that ends with it are taken.
    pub fn take_byte<P: Port, D: SlotDisk>(
        &mut self,
        way: Way,
        port: &mut P,
        disk: &mut D,
        byte: u8,
    ) -> Result<(), WayFault>
        /// It has counted its ticks, at most 2^61, and may take more.
        requires { IsReadyWay X.WayBox P.Port D.SlotDisk way self.old port.old disk.old }
        ensures { ByteAnswer X.WayBox P.Port D.SlotDisk way self.old self.new port.old port.new
            disk.old disk.new byte result }
    {
        let ReadBytes { content, .. } = match self.reader.feed(&[byte]) {
            Ok(found) => found,
            Err(end) => return Err(WayFault::of(end)),
        };
        let run = run_of(content, self.reader.line_bytes());
        let sum = self.ticks + run.len() as u64;
        if sum > MAX_LIVE_TICKS {
            return Err(WayFault::TooLong(TooMuch::Ticks, sum));
        }
        match self.lines.take_run(way, port, disk, run) {
            Ok(()) => {}
            Err(stop) => return Err(WayFault::Stopped(stop)),
        }
        self.ticks = sum;
        Ok(())
    }
}
