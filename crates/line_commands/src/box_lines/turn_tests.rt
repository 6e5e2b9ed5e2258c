//! How often the loops over a text call a box: each run is handed over whole, so that a line of the
//! text costs only a few calls. No contract says so.
ghost use Rattle.std.specs.Prelude.{◌≡◌, Some};
ghost use Rattle.yasir_io.specs.Steady.{steady_slots};
ghost use Rattle.link_format.specs.declared.dir.Dir.TheVariants.{Ab};
ghost use Rattle.sequence_journal.specs.Journal.{journal_link, Fits};

use super::BoxLines;
use crate::counted_box::{Calls, Counted};
use crate::driven_box::DrivenBox;
use crate::line_box::LineBox;
use check_receiver::Checker;
use link_format::{Dir, HmacSha1};
use rtu_frame::Rtu;
use seal_transmitter::Sealer;
use sequence_journal::{Journal, slot_of};
use std::alloc::Global;
use std::test::Fail;
use tick_drive::{End, drive};
use yasir_io::{MemSink, Plan, SteadySlots, SteadySource};

// Two lines of bytes, and two of silence, one of them as long as a line of silence may be.
const TEXT: &[u8] = b"+000102030405060708090a0b0c0d0e0f101112131415161718191a1b1c1d1e1f\n\
      -1000000\n\
      # no tick\n\
      +41\n\
      -40\n";

// Drives the text into a box over the journal that this disk holds, and returns the box.
fn driven_lines<B: LineBox>(
    alloc: Global,
    journal: Journal,
    disk: &mut SteadySlots,
) -> Result<BoxLines<B>, Fail>
    requires widths { B.widths_fit }
    requires link { journal_link journal ≡ B.link_in Ab }
    requires fits { Fits journal (Some (steady_slots disk.old)) }
{
    let mut lines: BoxLines<B> = BoxLines::new(&[0; 16], Dir::Ab, journal);
    let mut input = SteadySource::new(TEXT);
    let mut out = MemSink::with_room(alloc, 200, 512, Plan::new())?;
    let mut log = MemSink::with_room(alloc, 200, 512, Plan::new())?;
    let mut driven = DrivenBox::new(&mut lines, &mut out, &mut log, disk);
    match drive(0, &mut input, &mut driven) {
        End::Whole => Ok(lines),
        _ => Err(Fail::from("the text isn't whole")),
    }
}

// Returns how often a box is called while the text is driven into it.
fn calls_of<X: LineBox>(alloc: Global) -> Result<Calls, Fail>
    requires widths { X.widths_fit }
{
    let served = X::link(Dir::Ab);
    let mut disk = SteadySlots::new(slot_of(0, &served), [0; 24]);
    let journal = Journal::load(&mut disk, &served)?;
    let lines: BoxLines<Counted<X>> = driven_lines(alloc, journal, &mut disk)?;
    Ok(lines.line_box.calls)
}

// Each of the four lines with ticks is handed over at once. For both boxes the tick in which a
// burst is judged is a step of its own, and for the receiver also the tick in which a burst begins.
// All other ticks are taken in runs, which the transmitter forwards.
#[test]
fn a_line_of_text_costs_few_calls_of_the_box(rt: HostRuntime) -> Result<(), Fail> {
    let sealing = calls_of::<Sealer<Rtu, HmacSha1, 2>>(rt.alloc())?;
    assert!(rt; sealing.step <= 2, "{sealing:?}");
    assert!(rt; sealing.forward <= 10, "{sealing:?}");
    assert!(rt; sealing.pass <= 2, "{sealing:?}");
    let checking = calls_of::<Checker<Rtu, HmacSha1, 2, 18>>(rt.alloc())?;
    assert!(rt; checking.step <= 4, "{checking:?}");
    assert!(rt; checking.pass <= 14, "{checking:?}");
    Ok(())
}
