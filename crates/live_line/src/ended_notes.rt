//! Boxes of which each note's line ends with an LF: the transmitter and the receiver.
use crate::way_box::EndedNotes;
use check_receiver::Checker;
use line_rules::LineRules;
use link_format::Mac;
use seal_transmitter::Sealer;

impl<R: LineRules, M: Mac, const B: usize> EndedNotes for Sealer<R, M, B> {
    ghost use Rattle.live_line.specs.NoteEnds.{seal-ends};

    ghost ended_line = { seal-ends };
}

impl<R: LineRules, M: Mac, const B: usize, const D: usize> EndedNotes for Checker<R, M, B, D> {
    ghost use Rattle.live_line.specs.NoteEnds.{check-ends};

    ghost ended_line = { check-ends };
}
