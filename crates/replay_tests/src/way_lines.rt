//! A test of one way of a live line: what goes out of a receiver with a spacer behind it, for a few
//! ticks.
use check_receiver::Checker;
use device_model::RtuDevice;
use line_commands::Streams;
use line_spacer::Spacer;
use link_box::LinkBox;
use link_format::{Dir, HmacSha1};
use live_line::{GuardedBox, Way, WayLines};
use rtu_frame::Rtu;
use sequence_journal::{Journal, slot_of};
use std::alloc::Global;
use std::test::Fail;
use yasir_io::{MemSink, MemSource, Plan, SteadySlots};
use yasir_ticks::Tick;

type Receiver = Checker<Rtu, HmacSha1, 2, 18>;

// A source with no byte, and two sinks with room for a few lines.
fn outside(alloc: Global) -> Result<Streams<MemSource<'static>, MemSink, MemSink>, Fail> {
    Ok(Streams {
        input: MemSource::new(b"".as_slice(), 1, Plan::new()),
        out: MemSink::with_room(alloc, 100, 512, Plan::new())?,
        log: MemSink::with_room(alloc, 100, 512, Plan::new())?,
    })
}

// What goes out of the receiver and the spacer behind it for a byte and a silent tick.
fn got_out(alloc: Global) -> Result<MemSink, Fail> {
    let served = Receiver::link(Dir::Ab);
    let mut disk = SteadySlots::new(slot_of(0, &served), [0; 24]);
    let journal = Journal::load(&mut disk, &served)?;
    let guarded = GuardedBox::<Receiver, Spacer<RtuDevice, 21>>::new(
        alloc,
        &[0; 16],
        Dir::Ab,
        &journal,
    )?;
    let mut lines = WayLines::new(guarded, journal, 0);
    let mut streams = outside(alloc)?;
    lines.take(Tick::Byte(0x41));
    if lines.has_room() {
        lines.take(Tick::Silent);
    }
    let _ = lines.hand_on(Way::Incoming, &mut streams, &mut disk);
    let Streams { out, .. } = streams;
    Ok(out)
}

#[test]
fn the_guarded_receiver_holds_the_ticks_of_its_way_back(rt: HostRuntime) -> Result<(), Fail> {
    assert_eq!(rt; got_out(rt.alloc())?.held(), b"<-2\n".as_slice());
    Ok(())
}
