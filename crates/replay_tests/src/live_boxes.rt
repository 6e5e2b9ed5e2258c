//! The calls of a port, in their order, while a live line is driven through either box.
ghost use Rattle.std.specs.Prelude.{None};
ghost use Rattle.line_commands.specs.History.{untold};

use arrayvec::ArrayVec;
use check_receiver::Checker;
use line_commands::{LineBox, Output, Port};
use link_format::{Dir, HmacSha1};
use live_commands::LiveBox;
use rtu_frame::Rtu;
use seal_transmitter::Sealer;
use sequence_journal::{Journal, slot_of};
use std::test::Fail;
use tick_drive::End;
use yasir_io::{Failed, SteadySlots};

/// A port that gives one piece with each read, and keeps a text of its calls: `r` and what was
/// read, `o` or `l` and what was written to the line or to the log, and `O` or `L` for a flush.
#[derive(Drop)]
struct ToldPort<'a> {
    pieces: &'a [&'a [u8]],
    // how many pieces were read
    read: usize,
    calls: ArrayVec<u8, 256>,
}

impl<'a> Port for ToldPort<'a> {
    ghost history = { λ _. untold };

    ghost left = { λ _. None };

    ghost read_faults = { λ _. 0 };

    ghost write_faults = { λ _ to. 0 };

    fn read(&mut self, buf: &mut [u8]) -> Result<usize, Failed> {
        let _ = self.calls.try_push(b'r');
        if self.read >= self.pieces.len() {
            return Ok(0);
        }
        let piece = self.pieces[self.read];
        self.read += 1;
        let count = piece.len().min(buf.len());
        buf[..count].copy_from_slice(&piece[..count]);
        let _ = self.calls.try_extend_from_slice(&piece[..count]);
        Ok(count)
    }

    fn write(&mut self, to: Output, piece: &[u8]) -> Result<(), Failed> {
        let mark: u8 = match to {
            Output::Out => b'o',
            Output::Log => b'l',
        };
        let _ = self.calls.try_push(mark);
        let _ = self.calls.try_extend_from_slice(piece);
        Ok(())
    }

    fn flush(&mut self, to: Output) -> Result<(), Failed> {
        let mark: u8 = match to {
            Output::Out => b'O',
            Output::Log => b'L',
        };
        let _ = self.calls.try_push(mark);
        Ok(())
    }
}

/// Returns the calls of a port whose pieces and then `rest` silent ticks are driven through a box.
fn driven<X: LineBox>(pieces: &[&[u8]], rest: u32) -> Result<(ArrayVec<u8, 256>, End), Fail>
    requires widths { X.widths_fit }
{
    let served = X::link(Dir::Ab);
    let mut disk = SteadySlots::new(slot_of(0, &served), [0; 24]);
    let journal = Journal::load(&mut disk, &served)?;
    let mut live_box = LiveBox::<X>::new(&[0; 16], Dir::Ab, journal, 15);
    let mut port = ToldPort {
        pieces,
        read: 0,
        calls: ArrayVec::new(),
    };
    let end = live_box.drive(rest, &mut port, &mut disk);
    let ToldPort { calls, .. } = port;
    Ok((calls, end))
}

#[test]
fn the_transmitter_forwards_each_line_before_the_next_read(rt: HostRuntime) -> Result<(), Fail> {
    let pieces: [&[u8]; 3] = [b"+41\n", b"-1\n+4", b"2\n"];
    let (calls, end) = driven::<Sealer<Rtu, HmacSha1, 2>>(&pieces, 0)?;
    assert_eq!(rt;
        calls.as_slice(),
        b"r+41\no+41\nOr-1\n+4o-1\nOr2\no+42\nOr".as_slice()
    );
    assert_eq!(rt; end, End::Whole);
    Ok(())
}

#[test]
fn the_receiver_holds_each_line_back(rt: HostRuntime) -> Result<(), Fail> {
    let pieces: [&[u8]; 2] = [b"+41\n", b"-1\n"];
    let (calls, end) = driven::<Checker<Rtu, HmacSha1, 2, 18>>(&pieces, 2)?;
    assert_eq!(rt;
        calls.as_slice(),
        b"r+41\no-1\nOr-1\no-1\nOro-2\nO".as_slice()
    );
    assert_eq!(rt; end, End::Whole);
    Ok(())
}

#[test]
fn what_stands_before_a_refusal_is_handed_on(rt: HostRuntime) -> Result<(), Fail> {
    let pieces: [&[u8]; 1] = [b"+41\n-2\n?"];
    let (calls, end) = driven::<Sealer<Rtu, HmacSha1, 2>>(&pieces, 0)?;
    assert_eq!(rt; calls.as_slice(), b"r+41\n-2\n?o+41\n-2\nO".as_slice());
    assert!(rt; matches!(end, End::Refused(_)));
    Ok(())
}
