//! Lets a device hear runs of ticks, and keeps the frames that it reads in them.
ghost use Rattle.std.specs.Prelude.{◌≡◌, ℕ, ◌+◌, ◌<◌, ◌≤◌, List, ◌++◌, length, map, take, IfOk, OnOk};
ghost use Rattle.yasir_ticks.specs.Ticks.{silent};
ghost use Rattle.yasir_ticks.specs.declared.tick.Tick.{Tick};
ghost use Rattle.yasir_ticks.specs.declared.tick.Tick.TheVariants.{Byte};
ghost use Rattle.yasir_ticks.specs.declared.TheConstants.{MAX_TICKS};
ghost use Rattle.frame_ending.specs.Answered.{answered};
ghost use Rattle.device_model.specs.Frames.{FrameRead, frames_lent};
ghost use Rattle.session_lists.specs.FrameList.{Holds, list_len};
ghost use Rattle.session_lists.specs.ReplayLists.{Listens, kept_reads};

use crate::frame_list::FrameList;
use device_model::Device;
use yasir_io::NoMemory;

// Keeps the frame that a device lends, if it has read one.
#[inline]
pub(crate) fn keep_lent<V: Device>(
    device: &V,
    start: Option<u64>,
    frames: &mut FrameList<u64>,
) -> Result<(), NoMemory>
    ensures few { OnOk result (list_len frames.new ≤ list_len frames.old + 1) }
    ensures kept { OnOk result ((reads : List FrameRead) → Holds frames.old (kept_reads reads)
        → Holds frames.new (kept_reads (reads ++ frames_lent start (V.lent device.now)))) }
{
    match start {
        None => Ok(()),
        Some(start) => frames.push(start, device.frame_bytes()),
    }
}

// Lets a device hear these bytes, up to and including the first one in which it reads a frame, and
// keeps that frame. Returns how many bytes it heard.
pub(crate) fn hear_some<V: Device>(
    device: &mut V,
    frames: &mut FrameList<u64>,
    bytes: &[u8],
) -> Result<usize, NoMemory>
    requires { V.taken device.old + length bytes.now ≤ MAX_TICKS }
    ensures within { IfOk result (λ n. n ≤ length bytes.now) }
    ensures some { 0 < length bytes.now → IfOk result (λ n. 0 < n) }
    ensures taken { IfOk result (λ n. V.taken device.new ≡ V.taken device.old + n) }
    ensures few { 0 < length bytes.now
        → IfOk result (λ n. list_len frames.new ≤ list_len frames.old + n) }
    ensures ok { IfOk result (λ n. (line : List Tick)
        → Listens V.Device device.old frames.old line
        → Listens V.Device device.new frames.new (line ++ map Byte (take n bytes.now))) }
{
    let met = device.hear(bytes);
    match keep_lent(device, met.start, frames) {
        Ok(()) => Ok(met.taken),
        Err(NoMemory) => Err(NoMemory),
    }
}

// Lets a device hear up to `ticks` silent ticks. It stops after the first one in which it reads a
// frame, which is kept. Returns how many ticks it heard.
#[inline]
pub(crate) fn wait_some<V: Device>(
    device: &mut V,
    frames: &mut FrameList<u64>,
    ticks: usize,
) -> Result<usize, NoMemory>
    requires { V.taken device.old + ticks ≤ MAX_TICKS }
    ensures within { IfOk result (λ n. n ≤ ticks) }
    ensures some { 0 < ticks → IfOk result (λ n. 0 < n) }
    ensures taken { IfOk result (λ n. V.taken device.new ≡ V.taken device.old + n) }
    ensures few { 0 < ticks
        → IfOk result (λ n. list_len frames.new ≤ list_len frames.old + n) }
    ensures ok { IfOk result (λ n. (line : List Tick)
        → Listens V.Device device.old frames.old line
        → Listens V.Device device.new frames.new (line ++ silent n)) }
{
    let met = device.wait(ticks);
    match keep_lent(device, met.start, frames) {
        Ok(()) => Ok(met.taken),
        Err(NoMemory) => Err(NoMemory),
    }
}

// Lets a device hear all of these bytes, and keeps the frames that it reads.
fn hear_bytes<V: Device>(
    device: &mut V,
    frames: &mut FrameList<u64>,
    bytes: &[u8],
) -> Result<(), NoMemory>
    requires { V.taken device.old + length bytes.now ≤ MAX_TICKS }
    ensures taken { OnOk result (V.taken device.new ≡ V.taken device.old + length bytes.now) }
    ensures ok { OnOk result ((line : List Tick) → Listens V.Device device.old frames.old line
        → Listens V.Device device.new frames.new (line ++ map Byte bytes.now)) }
{
    let mut done = 0;
    while done < bytes.len() {
        match hear_some(device, frames, &bytes[done..]) {
            Ok(count) => done += count,
            Err(NoMemory) => return Err(NoMemory),
        }
    }
    Ok(())
}

// Lets a device hear `ticks` silent ticks, and keeps the frames that it reads.
#[inline(always)]
pub(crate) fn hear_silence<V: Device>(
    device: &mut V,
    frames: &mut FrameList<u64>,
    ticks: usize,
) -> Result<(), NoMemory>
    requires { V.taken device.old + ticks ≤ MAX_TICKS }
    ensures taken { OnOk result (V.taken device.new ≡ V.taken device.old + ticks) }
    ensures few { OnOk result (list_len frames.new ≤ list_len frames.old + ticks) }
    ensures ok { OnOk result ((line : List Tick) → Listens V.Device device.old frames.old line
        → Listens V.Device device.new frames.new (line ++ silent ticks)) }
{
    let mut done = 0;
    while done < ticks {
        match wait_some(device, frames, ticks - done) {
            Ok(count) => done += count,
            Err(NoMemory) => return Err(NoMemory),
        }
    }
    Ok(())
}

// Lets a device hear what a box sent for a run of `count` ticks. It is a function of its own so
// that silence, which is more frequent, needs no call.
#[inline(never)]
fn hear_run<V: Device>(
    device: &mut V,
    frames: &mut FrameList<u64>,
    count: usize,
    sent: &[u8],
) -> Result<(), NoMemory>
    requires { V.taken device.old + count ≤ MAX_TICKS }
    ensures taken { OnOk result (V.taken device.new ≡ V.taken device.old + count) }
    ensures ok { OnOk result ((line : List Tick) → length (answered count sent.now) ≡ count
        → Listens V.Device device.old frames.old line
        → Listens V.Device device.new frames.new (line ++ answered count sent.now)) }
{
    let heard = sent.len().min(count);
    match hear_bytes(device, frames, &sent[..heard]) {
        Ok(()) => hear_silence(device, frames, count - heard),
        Err(NoMemory) => Err(NoMemory),
    }
}

// Lets a device hear what a box sent for a run of `count` ticks: the bytes in `sent`, or silence if
// there are none.
#[inline(always)]
pub(crate) fn hear_answered<V: Device>(
    device: &mut V,
    frames: &mut FrameList<u64>,
    count: usize,
    sent: &[u8],
) -> Result<(), NoMemory>
    requires { V.taken device.old + count ≤ MAX_TICKS }
    ensures taken { OnOk result (V.taken device.new ≡ V.taken device.old + count) }
    ensures ok { OnOk result ((line : List Tick) → length (answered count sent.now) ≡ count
        → Listens V.Device device.old frames.old line
        → Listens V.Device device.new frames.new (line ++ answered count sent.now)) }
{
    if sent.is_empty() {
        return hear_silence(device, frames, count);
    }
    hear_run(device, frames, count, sent)
}
