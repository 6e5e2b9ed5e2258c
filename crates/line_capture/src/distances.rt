//! How far apart the bytes of a way are inside bursts, by which a wrong rate may be seen.
ghost use Rattle.std.specs.Prelude.{◌≡◌, ◌≤◌, length};
ghost use Rattle.line_capture.specs.Distances.{CountsDistances, CountsOne, both_ways, shortest};
ghost use Rattle.line_capture.specs.Distances.{greatest_count, commonest, distance_line};
ghost use Rattle.line_capture.specs.Distances.{rate_warning, distance_lines, more_if};

use crate::placing::count_next;
use command_ends::{Line, push_decimal};
use line_stamps::{CaptureByte, Placer, Timing};

/// How many bytes are one, two, three or four ticks behind the one before them. A burst ends with
/// the fourth silent tick, so these are the distances inside bursts. A count stops at 2^64 - 1.
#[derive(Clone, Copy, Debug, PartialEq, Eq)]
pub struct Distances {
    /// How many are in the tick after the one before.
    pub one: u64,
    /// How many are two ticks behind.
    pub two: u64,
    /// How many are three ticks behind.
    pub three: u64,
    /// How many are four ticks behind.
    pub four: u64,
}

// Returns one more, if this holds. The count stops at 2^64 - 1.
fn more_if(such: bool, count: u64) -> u64
    ensures { result ≡ more_if such count }
{
    if such { count.saturating_add(1) } else { count }
}

impl Distances {
    // Counts a distance, if it is inside a burst.
    fn count(&mut self, steps: u64)
        ensures { CountsOne self.old self.new steps }
    {
        self.one = more_if(steps == 1, self.one);
        self.two = more_if(steps == 2, self.two);
        self.three = more_if(steps == 3, self.three);
        self.four = more_if(steps == 4, self.four);
    }

    /// Returns the distances of two ways together.
    pub fn with(&self, other: &Distances) -> Distances
        ensures { result ≡ both_ways self.now other.now }
    {
        Distances {
            one: self.one.saturating_add(other.one),
            two: self.two.saturating_add(other.two),
            three: self.three.saturating_add(other.three),
            four: self.four.saturating_add(other.four),
        }
    }

    // Returns the shortest distance, if there is one.
    fn shortest(&self) -> Option<u64>
        ensures { result ≡ shortest self.now }
    {
        if self.one > 0 {
            return Some(1);
        }
        if self.two > 0 {
            return Some(2);
        }
        if self.three > 0 {
            return Some(3);
        }
        if self.four > 0 { Some(4) } else { None }
    }

    // Returns the count of the commonest distance.
    fn greatest(&self) -> u64
        ensures { result ≡ greatest_count self.now }
    {
        self.one.max(self.two).max(self.three.max(self.four))
    }

    // Returns the commonest distance, and of several the shortest.
    fn commonest(&self) -> u64
        ensures usual { result ≡ commonest self.now }
        ensures few { result ≤ 4 }
    {
        let greatest = self.greatest();
        if self.one == greatest {
            return 1;
        }
        if self.two == greatest {
            return 2;
        }
        if self.three == greatest { 3 } else { 4 }
    }

    /// Returns the lines that are written of the distances.
    pub fn lines(&self) -> Line
        /// They are the line of the shortest and the usual distance, and a warning if the usual one
        /// isn't 1.
        ensures lines { result.items ≡ distance_lines self.now }
        /// They have at most 160 bytes.
        ensures short { length result.items ≤ 160 }
    {
        let least = self.shortest();
        let usual = self.commonest();
        let mut lines = distance_line(least, usual);
        lines
            .try_extend_from_slice(rate_warning(least, usual))
            .unwrap();
        lines
    }
}

// Returns the line of the shortest distance, if there is one, and the usual one.
fn distance_line(least: Option<u64>, usual: u64) -> Line
    requires { usual ≤ 4 }
    ensures line { result.items ≡ distance_line least usual }
    ensures short { length result.items ≤ 100 }
{
    let mut line = Line::new();
    match least {
        None => line
            .try_extend_from_slice(b"distances inside bursts: none\n")
            .unwrap(),
        Some(least) => {
            line.try_extend_from_slice(b"distances inside bursts: shortest ")
                .unwrap();
            push_decimal(&mut line, least);
            line.try_extend_from_slice(b", usual ").unwrap();
            push_decimal(&mut line, usual);
            line.push(b'\n');
        }
    }
    line
}

// Returns the warning of bytes that are usually farther apart than a character.
fn rate_warning(least: Option<u64>, usual: u64) -> &'static [u8]
    ensures warning { result.now ≡ rate_warning least usual }
    ensures short { length result.now ≤ 60 }
{
    if least.is_none() {
        return b"";
    }
    if usual == 1 {
        return b"";
    }
    b"warning: the usual distance isn't 1: is the rate right?\n"
}

/// Returns how far apart the bytes of a way are, up to the first one that is early or late.
pub fn count_distances(timing: Timing, bytes: &[CaptureByte]) -> Distances
    ensures { CountsDistances timing bytes.now result }
{
    let mut placer = Placer::new(timing);
    let mut found = Distances {
        one: 0,
        two: 0,
        three: 0,
        four: 0,
    };
    for byte in bytes {
        let before = placer.ticks();
        if !count_next(&mut placer, *byte) {
            return found;
        }
        if before > 0 {
            found.count(placer.ticks().saturating_sub(before));
        }
    }
    found
}
