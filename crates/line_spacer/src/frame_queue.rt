//! The queue of the frames that wait, whose bytes are stored one frame after the other.
ghost use Rattle.std.specs.Prelude.{◌≡◌, ◌<◌, ◌≤◌, ◌^◌, [], ◌∷◌, ◌++◌, length, take, IfOk, ◌==◌};

use circular_buffer::HeapCircularBuffer;
use std::alloc::Global;
use std::marker::Model;
use yasir_io::NoMemory;

/// How many bytes the longest frame has.
pub(crate) const LONGEST: usize = 292;

/// Copies a frame to the front of this room, and returns how many bytes it has.
pub(crate) fn fill_front(room: &mut [u8; LONGEST], frame: &[u8]) -> usize
    requires { length frame.now ≤ 292 }
    ensures size { result ≡ length frame.now }
    ensures front { take result room.new ≡ frame.now }
{
    let size = frame.len();
    room[..size].copy_from_slice(frame);
    size
}

/// Frames in the order in which they came, each of up to `LONGEST` bytes. They are stored one after
/// the other, so that only the bytes that a frame has are copied.
#[derive(Drop)]
pub(crate) struct FrameQueue {
    bytes: HeapCircularBuffer<u8>,
    lengths: HeapCircularBuffer<usize>,
}

impl Model for FrameQueue {
    ghost use Rattle.line_spacer.specs.FrameQueue.{FramesWaiting, cut_by, AreFrames};

    ghost Value = { FramesWaiting };

    ghost view = { λ q. record {
      frames = cut_by q.lengths.items q.bytes.items;
      capacity = q.lengths.capacity;
    } };

    ghost invariant = { λ q. AreFrames q.lengths.capacity q.bytes.capacity q.lengths.items
        q.bytes.items };
}

impl FrameQueue {
    ghost use Rattle.line_spacer.specs.FrameQueue.{bytes_of};

    /// A queue without frames, with room for `capacity` of them. It takes its memory here, and none
    /// later.
    pub(crate) fn with_capacity(alloc: Global, capacity: usize) -> Result<FrameQueue, NoMemory>
        ensures { IfOk result (λ q. (q.frames ≡ []) × (q.capacity ≡ capacity)) }
    {
        let Some(room) = capacity.checked_mul(LONGEST) else {
            return Err(NoMemory);
        };
        let Ok(bytes) = HeapCircularBuffer::with_capacity(alloc, room) else {
            return Err(NoMemory);
        };
        let Ok(lengths) = HeapCircularBuffer::with_capacity(alloc, capacity) else {
            return Err(NoMemory);
        };
        Ok(FrameQueue { bytes, lengths })
    }

    /// How many frames wait.
    #[inline]
    pub(crate) fn len(&self) -> usize
        ensures count { result ≡ length self.now.frames }
        ensures few { result < 2 ^ 63 }
    {
        self.lengths.len()
    }

    /// How many bytes the frames that wait have in all.
    #[inline]
    pub(crate) fn bytes_waiting(&self) -> usize
        ensures { result ≡ bytes_of self.now.frames }
    {
        self.bytes.len()
    }

    /// How many frames may wait.
    #[inline]
    pub(crate) fn capacity(&self) -> usize
        ensures { result ≡ self.now.capacity }
    {
        self.lengths.capacity()
    }

    /// Whether no frame waits.
    #[inline]
    pub(crate) fn is_empty(&self) -> bool
        ensures { result ≡ (length self.now.frames == 0) }
    {
        self.lengths.is_empty()
    }

    /// Adds a frame, for which there must be room.
    pub(crate) fn push_back(&mut self, frame: &[u8])
        requires room { length self.old.frames < self.old.capacity }
        requires few { length frame.now ≤ 292 }
        ensures frames { self.new.frames ≡ self.old.frames ++ frame.now ∷ [] }
        ensures capacity { self.new.capacity ≡ self.old.capacity }
    {
        let length = self.bytes.fill_from_slice(frame);
        self.lengths.push_back(length);
    }

    /// Moves the first frame to the front of this room, and returns how many bytes it has.
    pub(crate) fn pop_front(&mut self, room: &mut [u8; LONGEST]) -> usize
        requires some { 0 < length self.old.frames }
        ensures few { result ≤ 292 }
        ensures frames { self.old.frames ≡ take result room.new ∷ self.new.frames }
        ensures capacity { self.new.capacity ≡ self.old.capacity }
    {
        let Some(length) = self.lengths.pop_front() else {
            return 0;
        };
        self.bytes.read_into(&mut room[..length]);
        length
    }
}
