//! How often a box is called while what it makes of a line is kept in memory: it takes silence and
//! bursts in runs, so that they cost only a few calls however long they are. No contract says so.
ghost use Rattle.std.specs.Prelude.{◌≡◌, ◌+◌, ◌≤◌, length, OnOk};
ghost use Rattle.yasir_ticks.specs.declared.TheConstants.{MAX_TICKS};
ghost use Rattle.line_commands.specs.KeptBox.{IsSteady, ticks_kept};

use super::KeptBox;
use crate::counted_box::{Calls, Counted};
use crate::line_box::LineBox;
use check_receiver::Checker;
use link_format::{Dir, HmacSha1};
use rtu_frame::Rtu;
use seal_transmitter::Sealer;
use std::alloc::Global;
use std::test::Fail;
use yasir_io::NoMemory;
use yasir_ticks::TickRun;

// Takes all of these bytes, one for each tick.
fn take_bytes<B: LineBox>(kept: &mut KeptBox<B>, bytes: &[u8]) -> Result<(), NoMemory>
    requires room { ticks_kept kept.old + length bytes.now ≤ MAX_TICKS }
    requires steady { IsSteady B.LinkBox B.line_of kept.old }
    ensures taken { OnOk result (ticks_kept kept.new ≡ ticks_kept kept.old + length bytes.now) }
    ensures steady { OnOk result (IsSteady B.LinkBox B.line_of kept.new) }
{
    let mut left = bytes;
    while !left.is_empty() {
        match kept.take_some(TickRun::Bytes(left)) {
            Ok(count) => left = &left[count..],
            Err(NoMemory) => return Err(NoMemory),
        }
    }
    Ok(())
}

// Takes `ticks` silent ticks.
fn take_silence<B: LineBox>(kept: &mut KeptBox<B>, ticks: u32) -> Result<(), NoMemory>
    requires room { ticks_kept kept.old + ticks ≤ MAX_TICKS }
    requires steady { IsSteady B.LinkBox B.line_of kept.old }
    ensures taken { OnOk result (ticks_kept kept.new ≡ ticks_kept kept.old + ticks) }
    ensures steady { OnOk result (IsSteady B.LinkBox B.line_of kept.new) }
{
    kept.wait(ticks)
}

// A burst that is no frame. It comes between two long silences.
const BURST: [u8; 500] = [0x41; 500];

// Returns how often a box is called when it takes the burst and the two silences.
fn calls_of<X: LineBox>(alloc: Global) -> Result<Calls, Fail>
    requires widths { X.widths_fit }
{
    let mut kept: KeptBox<Counted<X>> = KeptBox::new(alloc, &[0; 16], Dir::Ab);
    take_silence(&mut kept, 1_000_000)?;
    take_bytes(&mut kept, &BURST)?;
    take_silence(&mut kept, 2_000_000)?;
    Ok(kept.line_box.calls)
}

// The transmitter is asked eight times to forward: twice in the first silence, since a run has at
// most 999,999 silent ticks, once for the 256 live bytes of the burst, for the bytes after them,
// for the three silent ticks before the one that closes the burst, and for that tick, and twice in
// the silence after it. It forwards neither the bytes that aren't live nor the tick that closes the
// burst. So it is asked twice to pass, and this tick is a step of its own. The bounds leave no room
// for live bytes in runs of 64, with which it would be asked eleven times to forward. The receiver
// takes the first byte or two in steps of their own, and also a few ticks when the burst is judged.
#[test]
fn long_silence_and_long_bursts_cost_few_calls(rt: HostRuntime) -> Result<(), Fail> {
    let sealing = calls_of::<Sealer<Rtu, HmacSha1, 2>>(rt.alloc())?;
    assert!(rt; sealing.step <= 2, "{sealing:?}");
    assert!(rt; sealing.forward <= 8, "{sealing:?}");
    assert!(rt; sealing.pass <= 4, "{sealing:?}");
    let checking = calls_of::<Checker<Rtu, HmacSha1, 2, 18>>(rt.alloc())?;
    assert!(rt; checking.step <= 6, "{checking:?}");
    assert!(rt; checking.pass <= 30, "{checking:?}");
    Ok(())
}
