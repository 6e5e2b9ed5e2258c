//! A pair of boxes, one for each direction, stepped together under one key.
ghost use Rattle.std.specs.Prelude.{◌≡◌};

use link_box::LinkBox;
use link_format::Dir;
use sequence_journal::{Journal, JournalFault};
use yasir_io::SlotDisk;
use yasir_ticks::Tick;

/// In which direction a number wasn't committed.
#[derive(Clone, Copy, Debug, PartialEq, Eq)]
pub enum DuplexFault {
    /// The number of the frame that is sealed in the step: the journal of the outgoing direction
    /// failed.
    Outgoing,
    /// The number of the frame that passes in the step: the journal of the incoming direction
    /// failed.
    Incoming,
}

/// What a step of both directions returns.
#[derive(Clone, Copy, Debug, PartialEq, Eq)]
pub struct PairStep<A, B> {
    /// The tick that is sent on the link.
    pub link: Tick,
    /// The tick that is sent to the device.
    pub device: Tick,
    /// The note of the outgoing direction that falls into this step.
    pub sealed: Option<A>,
    /// The note of the incoming direction that falls into this step.
    pub checked: Option<B>,
}

/// A box of the outgoing direction of a line, and a box of the incoming one, under one key.
#[derive(Drop)]
pub struct BoxPair<S, C> {
    outgoing: Dir,
    sender: S,
    receiver: C,
}

impl<S: LinkBox, C: LinkBox> BoxPair<S, C> {
    ghost use Rattle.std.specs.Prelude.{◌≡◌, ℕ, []};
    ghost use Rattle.link_format.specs.Setup.{setup_of};
    ghost use Rattle.link_box.specs.Stepping.{MayStep};
    ghost use Rattle.link_format.specs.Directions.{opposite_of};
    ghost use Rattle.duplex_box.specs.Directions.{AreOfLine};
    ghost use Rattle.duplex_box.specs.Pairs.{outgoing_direction, outgoing_box, incoming_box};
    ghost use Rattle.duplex_box.specs.Pairs.{ways_of, StepsBoth};

    /// Returns two boxes that have taken no tick, for a key of any length: one for the line's
    /// direction `outgoing`, and one for its other direction.
    pub fn new(key: &[u8], outgoing: Dir) -> BoxPair<S, C>
        /// The widths of the transmitter are ones that it can be made with.
        requires outgoing_fits { S.widths_fit }
        /// The widths of the receiver are ones that it can be made with.
        requires incoming_fits { C.widths_fit }

        /// Its outgoing direction is this one.
        ensures direction { outgoing_direction result ≡ outgoing }
        /// The outgoing box has taken 0 ticks.
        ensures none_sent { S.taken (outgoing_box result) ≡ 0 }
        /// The incoming box has taken 0 ticks.
        ensures none_got { C.taken (incoming_box result) ≡ 0 }
        /// The outgoing box's link is that of its direction.
        ensures outgoing_link { S.link_of (outgoing_box result) ≡ S.link_in outgoing }
        /// The incoming box's link is that of the other direction.
        ensures incoming_link { C.link_of (incoming_box result)
            ≡ C.link_in (opposite_of outgoing) }
        /// The outgoing box begins with this key, at whatever floor its journal has.
        ensures sends { (floor : ℕ) → S.stands (outgoing_box result) floor
            (setup_of key.now outgoing floor) [] }
        /// The incoming box begins with this key, at whatever floor its journal has.
        ensures gets { (floor : ℕ) → C.stands (incoming_box result) floor
            (setup_of key.now (opposite_of outgoing) floor) [] }
    {
        BoxPair {
            outgoing,
            sender: S::new(key, outgoing),
            receiver: C::new(key, outgoing.opposite()),
        }
    }

    /// Returns the box of the outgoing direction.
    #[inline]
    pub fn sender(&self) -> &S
        ensures { result.now ≡ outgoing_box self.now }
    {
        &self.sender
    }

    /// Returns the box of the incoming direction.
    #[inline]
    pub fn receiver(&self) -> &C
        ensures { result.now ≡ incoming_box self.now }
    {
        &self.receiver
    }

    /// Takes the next tick of the device and the next tick of the link, the outgoing direction
    /// first, and returns the ticks that leave in both directions, with the notes that fall into
    /// this step. `sent` and `sent_disk` are the journal of the outgoing direction and its disk,
    /// and `got` and `got_disk` those of the incoming one, each as the steps before left it. Each
    /// journal serves the link of its box. Fewer than `MAX_TICKS` ticks were taken before in each
    /// direction.
    ///
    /// It fails if the number of a frame isn't committed. No step follows then.
    #[inline(always)]
    pub fn step<X: SlotDisk, Y: SlotDisk>(
        &mut self,
        from_device: Tick,
        from_link: Tick,
        sent: &mut Journal,
        sent_disk: &mut X,
        got: &mut Journal,
        got_disk: &mut Y,
    ) -> Result<PairStep<S::Note, C::Note>, DuplexFault>
        /// The journals serve the two directions of one line.
        requires journals { AreOfLine (outgoing_direction self.old) sent.old got.old }
        /// The outgoing box may take a tick, with this journal over its disk.
        requires outgoing { MayStep (S.link_of (outgoing_box self.old))
            (S.taken (outgoing_box self.old)) sent.old (X.told sent_disk.old) }
        /// The incoming box may take a tick, with this journal over its disk.
        requires incoming { MayStep (C.link_of (incoming_box self.old))
            (C.taken (incoming_box self.old)) got.old (Y.told got_disk.old) }

        /// Its outgoing direction stays.
        ensures direction { outgoing_direction self.new ≡ outgoing_direction self.old }
        /// Each box takes the tick of its own line and does what its step does. If the outgoing one
        /// fails, nothing of the incoming direction has changed. If the incoming one fails, the
        /// outgoing one has taken its tick.
        ensures steps { StepsBoth S.LinkBox C.LinkBox X.SlotDisk Y.SlotDisk from_device from_link
            (ways_of self.old sent.old sent_disk.old got.old got_disk.old)
            (ways_of self.new sent.new sent_disk.new got.new got_disk.new) result }
    {
        let sealed = match self.sender.step(from_device, sent, sent_disk) {
            Ok(step) => step,
            Err(JournalFault) => return Err(DuplexFault::Outgoing),
        };
        let checked = match self.receiver.step(from_link, got, got_disk) {
            Ok(step) => step,
            Err(JournalFault) => return Err(DuplexFault::Incoming),
        };
        Ok(PairStep {
            link: sealed.tick,
            device: checked.tick,
            sealed: sealed.note,
            checked: checked.note,
        })
    }
}
