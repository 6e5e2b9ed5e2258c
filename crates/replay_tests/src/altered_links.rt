//! Links that are packets, whole or altered, with a burst behind them.
ghost use Rattle.std.specs.Prelude.{◌+◌, ◌<◌, ◌≤◌, length};

use crate::texts::add_times;
use std::alloc::{AllocError, Global};
use std::process::Abort;

// How many of the first letters are all silence or all bytes, at most `most`.
pub fn alike(link: &[u8], most: usize) -> usize
    ensures { result ≤ length link.now }
{
    let Some(first) = link.first() else {
        return 0;
    };
    for count in 0..link.len() {
        if count == most || (link[count] == b'.') != (*first == b'.') {
            return count;
        }
    }
    link.len()
}

// The letters from `place` on that are all silence or all bytes, at most `most`.
pub fn part_at<'a>(rt: &impl Abort, link: &'a [u8], place: usize, most: usize) -> &'a [u8]
    requires { place ≤ length link.now }
    ensures some { 0 < length result.now }
    ensures within { place + length result.now ≤ length link.now }
{
    let part = &link[place..];
    let part = &part[..alike(part, most)];
    assert!(rt; !part.is_empty());
    part
}

/// Silent ticks, and the bytes that come after them.
#[derive(Clone, Copy)]
pub struct Burst {
    pub pause: usize,
    pub count: usize,
}

/// Neither silent ticks nor bytes.
pub const NO_BURST: Burst = Burst { pause: 0, count: 0 };

/// What is made of a packet: its first `kept` ticks, with the one at place `wrong` altered if it is
/// among them, and the burst that follows.
#[derive(Clone, Copy)]
pub struct Altered {
    pub kept: usize,
    pub wrong: usize,
    pub burst: Burst,
}

/// The first `kept` ticks of a packet as they are, and the burst that follows.
pub fn front_with(kept: usize, burst: Burst) -> Altered {
    Altered {
        kept,
        wrong: kept,
        burst,
    }
}

// Adds the first `kept` ticks of the packet, with the one at place `wrong` altered if it is among
// them.
fn add_kept(
    link: &mut Vec<u8>,
    packet: &[u8],
    kept: usize,
    wrong: usize,
) -> Result<(), AllocError> {
    for (at, letter) in packet.iter().take(kept).enumerate() {
        link.push(if at == wrong { *letter ^ 1 } else { *letter })?;
    }
    Ok(())
}

// Adds the silent ticks and the bytes of a burst, and silence.
fn add_burst(link: &mut Vec<u8>, burst: Burst) -> Result<(), AllocError> {
    add_times(link, b".", burst.pause)?;
    add_times(link, b"A", burst.count)?;
    add_times(link, b".", 30)
}

// The ticks of an altered packet, the burst that follows, and silence.
pub fn link_of(alloc: Global, packet: &[u8], altered: &Altered) -> Result<Vec<u8>, AllocError> {
    let mut link = Vec::new(alloc);
    add_kept(&mut link, packet, altered.kept, altered.wrong)?;
    add_burst(&mut link, altered.burst)?;
    Ok(link)
}
