//! The ticks of a period on the link, and how they are altered.
ghost use Rattle.std.specs.Prelude.{◌≡◌, ◌<◌, ◌≤◌, ◌++◌, length, take};
ghost use Rattle.trial_session.specs.Alterations.{altered};

use crate::Alteration;
use crate::marks::{bytes_in_front, overwrite};
use yasir_ticks::mark_runs::silence_in_front;
use yasir_ticks::{Tick, TickRun};

/// How many ticks each frame has for itself, on the device's line and on the link.
pub const PERIOD: usize = 640;

const HALF: usize = 320;

// The marks of a whole period of bytes, and of a whole period of silence.
const BYTES: [u8; PERIOD] = [1; PERIOD];

const SILENCE: [u8; PERIOD] = [0; PERIOD];

// Copies the first half of all places over the second half.
fn repeat_half(places: &mut [u8; 640])
    ensures half { places.new ≡ take 320 places.old ++ take 320 places.old }
    ensures long { length places.new ≡ 640 }
{
    let (first, second) = places.split_at_mut(HALF);
    second.copy_from_slice(first);
}

/// The link of a period, as far as it has been sent.
#[derive(Drop)]
pub struct Link {
    // The byte of each tick, and whether there is one: a mark that isn't 0.
    bytes: [u8; 640],
    marks: [u8; 640],
    // How many ticks are marked, which are at least those up to the last byte. The ticks after them
    // are silent, and their marks say nothing.
    marked: usize,
    len: usize,
    ghost within: { len ≤ 640 },
    ghost marked_within: { marked ≤ len },
    ghost byte_room: { length bytes ≡ 640 },
    ghost mark_room: { length marks ≡ 640 },
}

impl Link {
    ghost use Rattle.std.specs.Prelude.{◌+◌, [], ◌∷◌, map, drop, slice_index_or};
    ghost use Rattle.yasir_ticks.specs.Ticks.{silent};
    ghost use Rattle.yasir_ticks.specs.TickRun.{run_ticks};
    ghost use Rattle.yasir_ticks.specs.declared.tick.Tick.TheVariants.{Byte};
    ghost use Rattle.frame_ending.specs.Answered.{answered};
    ghost use Rattle.trial_session.specs.Links.{link_sent};

    /// A link on which nothing has been sent.
    pub fn new() -> Link
        ensures len { result.len ≡ 0 }
        ensures sent { link_sent result ≡ [] }
    {
        Link {
            bytes: [0; PERIOD],
            marks: [0; PERIOD],
            marked: 0,
            len: 0,
        }
    }

    /// Forgets all that has been sent.
    pub fn clear(&mut self)
        ensures len { self.new.len ≡ 0 }
        ensures sent { link_sent self.new ≡ [] }
    {
        self.marked = 0;
        self.len = 0;
    }

    // Marks all ticks that have been sent.
    #[inline]
    fn mark_all(&mut self)
        ensures marked { self.new.marked ≡ self.new.len }
        ensures len { self.new.len ≡ self.old.len }
        ensures sent { link_sent self.new ≡ link_sent self.old }
    {
        let behind = self.len - self.marked;
        overwrite(&mut self.marks, self.marked, &SILENCE[..behind]);
        self.marked = self.len;
    }

    // Sends these bytes.
    #[inline]
    fn add_bytes(&mut self, bytes: &[u8])
        requires { self.old.len + length bytes.now ≤ 640 }
        ensures len { self.new.len ≡ self.old.len + length bytes.now }
        ensures sent { link_sent self.new ≡ link_sent self.old ++ map Byte bytes.now }
    {
        let count = bytes.len();
        self.mark_all();
        overwrite(&mut self.bytes, self.len, bytes);
        overwrite(&mut self.marks, self.len, &BYTES[..count]);
        self.len += count;
        self.marked = self.len;
    }

    // Sends this many silent ticks.
    #[inline]
    fn add_silence(&mut self, ticks: usize)
        requires { self.old.len + ticks ≤ 640 }
        ensures len { self.new.len ≡ self.old.len + ticks }
        ensures sent { link_sent self.new ≡ link_sent self.old ++ silent ticks }
    {
        self.len += ticks;
    }

    /// Sends the answer to `count` ticks: as many bytes, or silence if `sent` is empty.
    #[inline]
    pub fn add(&mut self, count: usize, sent: &[u8])
        requires { self.old.len + count ≤ 640 }
        ensures len { self.new.len ≡ self.old.len + count }
        ensures sent { length (answered count sent.now) ≡ count
            → link_sent self.new ≡ link_sent self.old ++ answered count sent.now }
    {
        if sent.len() == count {
            self.add_bytes(sent);
        } else {
            self.add_silence(count);
        }
    }

    /// Sends a tick.
    #[inline]
    pub fn add_tick(&mut self, tick: Tick)
        requires { self.old.len < 640 }
        ensures len { self.new.len ≡ self.old.len + 1 }
        ensures sent { link_sent self.new ≡ link_sent self.old ++ tick ∷ [] }
    {
        match tick {
            Tick::Byte(byte) => self.add_bytes(&[byte]),
            Tick::Silent => self.add_silence(1),
        }
    }

    /// Sends a run.
    #[inline]
    pub fn add_run(&mut self, run: TickRun<'_>)
        requires { self.old.len + length (run_ticks run) ≤ 640 }
        ensures len { self.new.len ≡ self.old.len + length (run_ticks run.entry) }
        ensures sent { link_sent self.new ≡ link_sent self.old ++ run_ticks run.entry }
    {
        match run {
            TickRun::Bytes(bytes) => self.add_bytes(bytes),
            TickRun::Silence(ticks) => self.add_silence(ticks as usize),
        }
    }

    // Turns the bits of `value` in the byte at this place, or makes a silent tick there the byte
    // `value`.
    fn change(&mut self, place: usize, value: u8)
        requires whole { self.old.len ≡ 640 }
        requires within { place < 640 }
        ensures len { self.new.len ≡ 640 }
        ensures sent { link_sent self.new ≡ altered (Alteration.Change place value)
            (link_sent self.old) }
    {
        self.mark_all();
        if self.marks[place] == 0 {
            self.bytes[place] = value;
            self.marks[place] = 1;
        } else {
            self.bytes[place] ^= value;
        }
    }

    // Makes all ticks from a place on silent.
    fn silence_behind(&mut self, place: usize)
        requires whole { self.old.len ≡ 640 }
        requires within { place ≤ 640 }
        ensures len { self.new.len ≡ 640 }
        ensures sent { link_sent self.new ≡ altered (Alteration.CutOff place)
            (link_sent self.old) }
    {
        self.marked = self.marked.min(place);
    }

    // Copies the first half of the period over the second half.
    fn repeat(&mut self)
        requires { self.old.len ≡ 640 }
        ensures len { self.new.len ≡ 640 }
        ensures sent { link_sent self.new ≡ altered Alteration.Repeat (link_sent self.old) }
    {
        self.mark_all();
        repeat_half(&mut self.bytes);
        repeat_half(&mut self.marks);
    }

    /// Alters a whole period.
    pub fn alter(&mut self, alteration: Alteration)
        requires { self.old.len ≡ 640 }
        ensures len { self.new.len ≡ 640 }
        ensures sent { link_sent self.new ≡ altered alteration (link_sent self.old) }
    {
        match alteration {
            Alteration::Nothing => {}
            Alteration::Change { place, value } => {
                if place < PERIOD {
                    self.change(place, value);
                }
            }
            Alteration::Lose => self.silence_behind(0),
            Alteration::Repeat => self.repeat(),
            Alteration::CutOff { place } => self.silence_behind(place.min(PERIOD)),
        }
    }

    /// How many ticks are sent.
    pub fn len(&self) -> usize
        ensures { result ≡ self.now.len }
    {
        self.len
    }

    // How many of the ticks from a place on are silent, up to the first byte.
    #[inline]
    fn silence_from(&self, at: usize) -> usize
        requires { at < self.now.marked }
        ensures within { at + result ≤ self.now.marked }
        ensures silent { take result (drop at (link_sent self.now)) ≡ silent result }
        ensures all { result ≡ 0 → slice_index_or self.now.marks at 0 ≡ 0 → ⊥ }
    {
        silence_in_front(&self.marks[at..self.marked])
    }

    // The bytes from a place on, up to the first silent tick.
    #[inline]
    fn bytes_from(&self, at: usize) -> &[u8]
        requires { at < self.now.marked }
        ensures within { at + length result.now ≤ self.now.marked }
        ensures bytes { take (length result.now) (drop at (link_sent self.now))
            ≡ map Byte result.now }
        ensures all { length result.now ≡ 0 → slice_index_or self.now.marks at 0 ≡ 0 }
    {
        let count = bytes_in_front(&self.marks[at..self.marked]);
        &self.bytes[at..at + count]
    }

    /// The run from a place on: at least one tick, all of them bytes or all of them silent.
    #[inline]
    pub fn run_from(&self, at: usize) -> TickRun<'_>
        requires { at < self.now.len }
        ensures some { 0 < length (run_ticks result) }
        ensures within { at + length (run_ticks result) ≤ self.now.len }
        ensures ticks { take (length (run_ticks result)) (drop at (link_sent self.now))
            ≡ run_ticks result }
    {
        if self.marked <= at {
            return TickRun::Silence((self.len - at) as u32);
        }
        let silent = self.silence_from(at);
        if silent > 0 {
            return TickRun::Silence(silent as u32);
        }
        TickRun::Bytes(self.bytes_from(at))
    }
}
