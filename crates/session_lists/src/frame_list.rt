//! Frames kept in memory, all their bytes in one buffer.
ghost use Rattle.std.specs.Prelude.{◌≡◌, ◌+◌, ◌<◌, ◌≤◌, ◌-◌, take, drop, List, [], ◌∷◌, ◌++◌};
ghost use Rattle.std.specs.Prelude.{length, OnOk, slice_index_or};
ghost use Rattle.session_lists.specs.FrameList.{KeptFrames, Holds, ListIsWhole, list_len, longest_frame};

use std::alloc::Global;
use yasir_io::NoMemory;

/// What is kept of a frame besides its bytes, and where its bytes end in the buffer of all frames.
#[derive(Clone, Copy)]
struct Entry<K> {
    head: K,
    end: usize,
}

/// Where the bytes of a frame are in the buffer of all frames: `start..end`.
struct Bounds {
    start: usize,
    end: usize,
}

/// Frames in memory, in the order in which they came, each with a head of its own. The bytes of all
/// frames are in one buffer, one frame after the other. If there was no memory for a frame, the
/// list isn't used again.
#[derive(Drop)]
pub struct FrameList<K> {
    entries: Vec<Entry<K>>,
    bytes: Vec<u8>,
}

impl<K: Copy + Drop> FrameList<K> {
    /// A list of no frames.
    pub fn new(alloc: Global) -> FrameList<K>
        ensures { Holds result [] }
    {
        FrameList {
            entries: Vec::new(alloc),
            bytes: Vec::new(alloc),
        }
    }

    /// Adds a frame at the end. It has at most as many bytes as the longest frame.
    #[inline(never)]
    pub fn push(&mut self, head: K, bytes: &[u8]) -> Result<(), NoMemory>
        /// The frame has at most as many bytes as the longest frame.
        requires { length bytes.now ≤ longest_frame }
        /// If there was memory, the list holds its frames as before, and then this one.
        ensures kept { OnOk result ((frames : List (KeptFrames K)) → Holds self.old frames
            → Holds self.new (frames ++ record { head = head; frame = bytes.now } ∷ [])) }
        /// If there was memory, the list has one frame more.
        ensures grows { OnOk result (list_len self.new ≡ list_len self.old + 1) }
    {
        let Ok(()) = self.bytes.extend_from_slice(bytes) else {
            return Err(NoMemory);
        };
        let entry = Entry {
            head,
            end: self.bytes.as_slice().len(),
        };
        match self.entries.push(entry) {
            Ok(()) => Ok(()),
            Err(_) => Err(NoMemory),
        }
    }

    /// How many frames there are.
    pub fn len(&self) -> usize
        /// It is the length of the list.
        ensures value { result ≡ list_len self.now }
        /// It is the number of frames that the list holds.
        ensures frames { (frames : List (KeptFrames K)) → Holds self.now frames → result ≡ length frames }
    {
        self.entries.as_slice().len()
    }

    /// The head of the frame at `index`, counted from 0.
    pub fn head(&self, index: usize) -> K
        /// There is a frame at this place.
        requires { index < list_len self.now }
        ensures { (frames : List (KeptFrames K)) (other : KeptFrames K) → Holds self.now frames
            → result ≡ (slice_index_or frames index other).head }
    {
        self.entries[index].head
    }

    /// The bytes of the frame at `index`, counted from 0.
    pub fn bytes(&self, index: usize) -> &[u8]
        /// There is a frame at this place.
        requires within { index < list_len self.now }
        /// No byte of a frame of the list is missing.
        requires whole { ListIsWhole self.now }
        /// They are the bytes of the frame at this place.
        ensures frame { (frames : List (KeptFrames K)) (other : KeptFrames K) → Holds self.now frames
            → result.now ≡ (slice_index_or frames index other).frame }
        /// There are at most as many as the longest frame has.
        ensures short { length result.now ≤ longest_frame }
    {
        let Bounds { start, end } = self.bounds(index);
        &self.bytes.as_slice()[start..end]
    }

    // Where the bytes of the frame at `index` are in the buffer.
    fn bounds(&self, index: usize) -> Bounds
        requires within { index < list_len self.now }
        requires whole { ListIsWhole self.now }
        ensures rise { result.start ≤ result.end }
        ensures end { result.end ≤ length self.now.bytes.items }
        ensures short { result.end ≤ result.start + longest_frame }
        ensures frame { (frames : List (KeptFrames K)) (other : KeptFrames K) → Holds self.now frames
            → take (result.end - result.start) (drop result.start self.now.bytes.items)
            ≡ (slice_index_or frames index other).frame }
    {
        let end = self.entries[index].end;
        if index == 0 {
            return Bounds { start: 0, end };
        }
        Bounds {
            start: self.entries[index - 1].end,
            end,
        }
    }
}
