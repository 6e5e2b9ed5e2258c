//! A test of streams of two ways: what is of each way in a stream that comes in pieces.
use arrayvec::ArrayVec;
use live_line::{BadWay, Way, Ways};
use std::test::Fail;

/// The texts of both ways.
#[derive(Drop)]
struct WayTexts {
    outgoing: ArrayVec<u8, 64>,
    incoming: ArrayVec<u8, 64>,
}

// Parts the next bytes of a stream, and adds them to the texts of their ways.
fn add_piece(ways: &mut Ways, texts: &mut WayTexts, piece: &[u8]) -> Result<(), BadWay> {
    for byte in piece {
        let _ = match ways.next(*byte) {
            Ok(Some(Way::Outgoing)) => texts.outgoing.try_extend_from_slice(&[*byte]),
            Ok(Some(Way::Incoming)) => texts.incoming.try_extend_from_slice(&[*byte]),
            Ok(None) => Ok(()),
            Err(bad) => return Err(bad),
        };
    }
    Ok(())
}

/// The pieces of a stream, the texts of both ways, and whether the stream is right so far.
type Row = (&'static [&'static [u8]], &'static [u8], &'static [u8], bool);

const ROWS: [Row; 5] = [
    (
        &[b">+41\n<-2\n>-1\n<+0a\n"],
        b"+41\n-1\n",
        b"-2\n+0a\n",
        true,
    ),
    (
        &[b">", b"+4", b"1\n<-2\n>", b"-1"],
        b"+41\n-1",
        b"-2\n",
        true,
    ),
    (&[b"<\n>\n"], b"\n", b"\n", true),
    (&[b">+41\n-2\n"], b"+41\n", b"", false),
    (&[b"<+41\n", b"\n"], b"", b"+41\n", false),
];

// Whether the pieces of a row are parted as it says.
fn is_parted(row: &Row) -> bool {
    let (pieces, outgoing, incoming, right) = *row;
    let mut ways = Ways::new();
    let mut texts = WayTexts {
        outgoing: ArrayVec::new(),
        incoming: ArrayVec::new(),
    };
    let mut well = true;
    for piece in pieces {
        well = well && add_piece(&mut ways, &mut texts, piece).is_ok();
    }
    well == right && texts.outgoing.as_slice() == outgoing && texts.incoming.as_slice() == incoming
}

#[test]
fn each_line_is_of_the_way_of_its_letter(rt: HostRuntime) -> Result<(), Fail> {
    for row in &ROWS {
        assert!(rt; is_parted(row));
    }
    Ok(())
}
