//! Carries a device's line through a transmitter, a link that nobody touches, and a receiver.
ghost use Rattle.std.specs.Prelude.{◌≡◌, ◌≤◌, [], length, IfOk, IfErr};
ghost use Rattle.yasir_ticks.specs.declared.TheConstants.{MAX_TICKS};
ghost use Rattle.yasir_io.specs.Causes.{Rose};
ghost use Rattle.link_format.specs.Setup.{Setup, setup_of};
ghost use Rattle.link_box.specs.Stepping.{ServesLink};
ghost use Rattle.link_box.specs.Walking.{other_line};
ghost use Rattle.sequence_journal.specs.Journal.{journal_floor};
ghost use Rattle.embed_boxes.specs.Carrying.{Carries};

use check_receiver::Checker;
use link_box::LinkBox;
use link_format::{Dir, HmacSha1};
use rtu_frame::Rtu;
use seal_transmitter::Sealer;
use sequence_journal::Journal;
use std::alloc::Global;
use yasir_io::{SlotDisk, SteadySlots};
use yasir_ticks::Tick;

/// The lines that the two boxes send.
#[derive(Drop)]
pub struct Carried {
    /// What the transmitter sends.
    pub link: Vec<Tick>,
    /// What the receiver sends to its device.
    pub received: Vec<Tick>,
}

/// Why a line isn't carried.
#[derive(Clone, Copy, Debug, PartialEq, Eq)]
pub enum NotCarried {
    /// There was no memory for the ticks.
    NoMemory,
    /// A journal failed, or wasn't new.
    Journal,
}

// Gives a box these ticks one by one, and returns the ticks of the other line.
fn pass_line<X: LinkBox, D: SlotDisk>(
    alloc: Global,
    line_box: &mut X,
    journal: &mut Journal,
    disk: &mut D,
    line: &[Tick],
) -> Result<Vec<Tick>, NotCarried>
    requires begun { X.taken line_box.old ≡ 0 }
    requires room { length line.now ≤ MAX_TICKS }
    requires serves { ServesLink (X.link_of line_box.old) journal.old (D.told disk.old) }
    ensures long { IfOk result (λ other. length other.items ≡ length line.now) }
    ensures other { IfOk result (λ other. (setup : Setup)
        → X.stands line_box.old (journal_floor journal.old) setup []
        → other.items ≡ other_line X.walking setup line.now) }
    // A journal fails only if a call to its disk does.
    ensures journal { result ≡ Err NotCarried.Journal
        → Rose (D.faults disk.old) (D.faults disk.new) }
{
    let mut other = Vec::new(alloc);
    for index in 0..line.len() {
        let Ok(step) = line_box.step(line[index], journal, disk) else {
            return Err(NotCarried::Journal);
        };
        let Ok(()) = other.push(step.tick) else {
            return Err(NotCarried::NoMemory);
        };
    }
    Ok(other)
}

// Makes a box with this key and a new journal in memory, and gives it these ticks. A firmware must
// give the box a disk that lasts.
fn through<X: LinkBox>(
    alloc: Global,
    key: &[u8],
    dir: Dir,
    line: &[Tick],
) -> Result<Vec<Tick>, NotCarried>
    requires widths { X.widths_fit }
    requires room { length line.now ≤ MAX_TICKS }
    ensures long { IfOk result (λ other. length other.items ≡ length line.now) }
    ensures other { IfOk result (λ other. other.items
        ≡ other_line X.walking (setup_of key.now dir 0) line.now) }
    ensures memory { IfErr result (λ why. why ≡ NotCarried.NoMemory) }
{
    let mut disk = SteadySlots::new([0; 24], [0; 24]);
    let link = X::link(dir);
    let Ok(mut journal) = Journal::init(&mut disk, &link) else {
        return Err(NotCarried::Journal);
    };
    let mut line_box = X::new(key, dir);
    match pass_line(alloc, &mut line_box, &mut journal, &mut disk, line) {
        Ok(other) => Ok(other),
        Err(why) => Err(why),
    }
}

/// Carries a device's line from a to b: a transmitter seals it, and a receiver checks the link.
/// Both have this key, which may have any length, and a new journal in memory, which never fails:
/// the only error is [`NotCarried::NoMemory`].
pub fn carry(alloc: Global, key: &[u8], line: &[Tick]) -> Result<Carried, NotCarried>
    /// The line has at most 2^62 ticks.
    requires { length line.now ≤ MAX_TICKS }
    /// If there was memory, the link is what the transmitter's definition makes of the line, and
    /// what is received is what the receiver's definition makes of this link. If the line's frames
    /// are spaced, with enough silence after them and enough numbers, it is received whole, 18
    /// ticks late.
    ensures carries { IfOk result (λ carried. Carries key.now line.now carried.link.items
        carried.received.items) }
    /// The only error is that there was no memory.
    ensures memory { IfErr result (λ why. why ≡ NotCarried.NoMemory) }
{
    let link = match through::<Sealer<Rtu, HmacSha1, 2>>(alloc, key, Dir::Ab, line) {
        Ok(link) => link,
        Err(why) => return Err(why),
    };
    match through::<Checker<Rtu, HmacSha1, 2, 18>>(alloc, key, Dir::Ab, link.as_slice()) {
        Ok(received) => Ok(Carried { link, received }),
        Err(why) => Err(why),
    }
}
