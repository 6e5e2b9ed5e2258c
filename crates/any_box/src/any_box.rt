//! The eight boxes as one type, and the four spacers as another.
ghost use Rattle.std.specs.Prelude.{◌≡◌, ◌+◌, ◌≤◌, ◌<◌, ℕ, [], length, take, Some, IfOk};
ghost use Rattle.yasir_io.specs.Steady.{steady_slots};
ghost use Rattle.yasir_ticks.specs.TickRun.{run_ticks};
ghost use Rattle.yasir_ticks.specs.declared.TheConstants.{MAX_TICKS};
ghost use Rattle.frame_ending.specs.Answered.{answered};
ghost use Rattle.link_format.specs.Setup.{setup_of};
ghost use Rattle.sequence_journal.specs.Journal.{journal_link, journal_floor, Fits};
ghost use Rattle.any_box.specs.Commits.{CommitsOneOrNone};

use crate::any_note::AnyNote;
use crate::committing::{CommittingBox, step_any, take_any};
use crate::defined::{DefinedBox, DefinedSpacer};
use crate::forgetful::ForgetfulDevice;
use crate::kind::{Kind, Part, SpacerKind};
use check_receiver::Checker;
use command_ends::{Profile, Proto};
use device_model::{Device, RtuDevice};
use dnp_link_frame::Dnp;
use frame_ending::{BoxStep, RunBytes};
use line_rules::LineRules;
use line_spacer::{SpaceStep, Spacer};
use link_box::LinkBox;
use link_format::{Dir, HmacSha1, HmacSha256, Mac};
use rtu_frame::Rtu;
use seal_transmitter::Sealer;
use sequence_journal::Journal;
use std::alloc::Global;
use yasir_io::{NoMemory, SteadySlots};
use yasir_ticks::{MAX_TICKS, Tick, TickRun};

/// One of the eight boxes.
#[derive(Drop)]
pub enum AnyBox {
    /// A transmitter for Modbus RTU, with profile y18.
    RtuSealer18(Sealer<Rtu, HmacSha1, 2>),
    /// A transmitter for DNP3, with profile y18.
    DnpSealer18(Sealer<Dnp, HmacSha1, 2>),
    /// A transmitter for Modbus RTU, with profile y24.
    RtuSealer24(Sealer<Rtu, HmacSha256, 4>),
    /// A transmitter for DNP3, with profile y24.
    DnpSealer24(Sealer<Dnp, HmacSha256, 4>),
    /// A receiver for Modbus RTU, with profile y18.
    RtuChecker18(Checker<Rtu, HmacSha1, 2, 18>),
    /// A receiver for DNP3, with profile y18.
    DnpChecker18(Checker<Dnp, HmacSha1, 2, 18>),
    /// A receiver for Modbus RTU, with profile y24.
    RtuChecker24(Checker<Rtu, HmacSha256, 4, 24>),
    /// A receiver for DNP3, with profile y24.
    DnpChecker24(Checker<Dnp, HmacSha256, 4, 24>),
}

// Evaluates an expression with the box that is held, whichever of the eight it is.
macro_rules! with_box {
    ($held:expr, $line_box:ident => $call:expr) => {
        match $held {
            AnyBox::RtuSealer18($line_box) => $call,
            AnyBox::DnpSealer18($line_box) => $call,
            AnyBox::RtuSealer24($line_box) => $call,
            AnyBox::DnpSealer24($line_box) => $call,
            AnyBox::RtuChecker18($line_box) => $call,
            AnyBox::DnpChecker18($line_box) => $call,
            AnyBox::RtuChecker24($line_box) => $call,
            AnyBox::DnpChecker24($line_box) => $call,
        }
    };
}

impl DefinedBox for AnyBox {
    ghost use Rattle.any_box.specs.Boxes.{definition_of, AnyBoxStandsAt};

    ghost defined = { definition_of ⟦<Rtu as LineRules>⟧ ⟦<Dnp as LineRules>⟧
        ⟦<HmacSha1 as Mac>⟧ ⟦<HmacSha256 as Mac>⟧ };

    ghost stands = { AnyBoxStandsAt ⟦<Rtu as LineRules>⟧ ⟦<Dnp as LineRules>⟧
        ⟦<HmacSha1 as Mac>⟧ ⟦<HmacSha256 as Mac>⟧ };
}

impl AnyBox {
    ghost use Rattle.any_box.specs.Boxes.{box_kind, box_ticks_in, own_link, AnySteps, AnyTakesRun};
    ghost use Rattle.any_box.specs.Kinds.{link_for};

    /// Returns a box that has taken no tick, for a key of any length and a direction.
    pub(crate) fn new(kind: Kind, key: &[u8], dir: Dir) -> AnyBox
        ensures kind { box_kind result ≡ kind }
        ensures link { own_link result ≡ link_for kind dir }
        ensures taken { box_ticks_in result ≡ 0 }
        ensures stands { (floor : ℕ) → ⟦<AnyBox as DefinedBox>⟧.stands
            result floor (setup_of key.now dir floor) [] }
    {
        match (kind.part, kind.proto, kind.profile) {
            (Part::Sealer, Proto::Rtu, Profile::Y18) => AnyBox::RtuSealer18(Sealer::new(key, dir)),
            (Part::Sealer, Proto::Dnp3, Profile::Y18) => AnyBox::DnpSealer18(Sealer::new(key, dir)),
            (Part::Sealer, Proto::Rtu, Profile::Y24) => AnyBox::RtuSealer24(Sealer::new(key, dir)),
            (Part::Sealer, Proto::Dnp3, Profile::Y24) => AnyBox::DnpSealer24(Sealer::new(key, dir)),
            (Part::Checker, Proto::Rtu, Profile::Y18) => AnyBox::RtuChecker18(Checker::new(
                key, dir,
            )),
            (Part::Checker, Proto::Dnp3, Profile::Y18) => AnyBox::DnpChecker18(Checker::new(
                key, dir,
            )),
            (Part::Checker, Proto::Rtu, Profile::Y24) => AnyBox::RtuChecker24(Checker::new(
                key, dir,
            )),
            (Part::Checker, Proto::Dnp3, Profile::Y24) => AnyBox::DnpChecker24(Checker::new(
                key, dir,
            )),
        }
    }

    /// Takes the next tick, over slots in memory, which are the journal's. Fewer than `MAX_TICKS`
    /// ticks were taken before.
    pub(crate) fn step(
        &mut self,
        t: Tick,
        journal: &mut Journal,
        disk: &mut SteadySlots,
    ) -> BoxStep<AnyNote>
        requires room { box_ticks_in self.old < MAX_TICKS }
        requires of_link { journal_link journal.old ≡ own_link self.old }
        requires fits { Fits journal.old (Some (steady_slots disk.old)) }
        ensures steps { AnySteps ⟦<AnyBox as DefinedBox>⟧
            self.old (journal_floor journal.old) self.new (journal_floor journal.new)
            t result.tick result.note }
        ensures link { journal_link journal.new ≡ journal_link journal.old }
        ensures fits { Fits journal.new (Some (steady_slots disk.new)) }
        ensures commits { CommitsOneOrNone journal.old journal.new disk.old disk.new }
    {
        with_box!(self, line_box => step_any(line_box, t, journal, disk))
    }

    /// Takes the first of these ticks, as long as the box returns silence for all of them or bytes
    /// for all of them, without a note and without using a number, and returns how many. Puts the
    /// bytes that the box returns into `sent`, one for each tick, or none for silence. If none is
    /// taken, the caller goes on by `step`. There must be room for all of these ticks: the box
    /// takes at most `MAX_TICKS`.
    pub(crate) fn take_alike(&mut self, run: TickRun<'_>, sent: &mut RunBytes) -> usize
        requires room { box_ticks_in self.old + length (run_ticks run) ≤ MAX_TICKS }
        ensures within { result ≤ length (run_ticks run.entry) }
        ensures run { AnyTakesRun ⟦<AnyBox as DefinedBox>⟧
            self.old self.new (take result (run_ticks run.entry)) (answered result sent.new.items) }
    {
        with_box!(self, line_box => take_any(line_box, run, sent))
    }
}

/// One of the four spacers.
#[derive(Drop)]
pub enum AnySpacer {
    /// It reads Modbus RTU, and leaves 21 silent ticks or more, as y18 needs.
    RtuSpacer18(Spacer<RtuDevice, 21>),
    /// It reads DNP3, and leaves 21 silent ticks or more, as y18 needs.
    DnpSpacer18(Spacer<ForgetfulDevice<Dnp>, 21>),
    /// It reads Modbus RTU, and leaves 27 silent ticks or more, as y24 needs.
    RtuSpacer24(Spacer<RtuDevice, 27>),
    /// It reads DNP3, and leaves 27 silent ticks or more, as y24 needs.
    DnpSpacer24(Spacer<ForgetfulDevice<Dnp>, 27>),
}

impl DefinedSpacer for AnySpacer {
    ghost use Rattle.any_box.specs.Spacers.{spacer_ticks_in, AnySpacerStandsAt};

    ghost taken = { spacer_ticks_in ⟦<RtuDevice as Device>⟧ ⟦<ForgetfulDevice<Dnp> as Device>⟧ };

    ghost stands = { AnySpacerStandsAt ⟦<RtuDevice as Device>⟧ ⟦<ForgetfulDevice<Dnp> as Device>⟧ };
}

impl AnySpacer {
    ghost use Rattle.any_box.specs.Spacers.{spacer_kind, SpacerStepsOn};

    /// A spacer that has taken no tick, with room for `room` frames to wait. It takes its memory
    /// here, and none later.
    pub fn new(alloc: Global, kind: SpacerKind, room: usize) -> Result<AnySpacer, NoMemory>
        /// It has taken 0 ticks.
        ensures taken { IfOk result (λ spacer. ⟦<AnySpacer as DefinedSpacer>⟧.taken spacer ≡ 0) }
        /// It is of the kind that was asked for.
        ensures kind { IfOk result (λ spacer. spacer_kind spacer ≡ kind) }
        /// It begins with room for so many waiting frames, with no tick taken.
        ensures stands { IfOk result (λ spacer. ⟦<AnySpacer as DefinedSpacer>⟧.stands room spacer
            []) }
    {
        Ok(match (kind.proto, kind.profile) {
            (Proto::Rtu, Profile::Y18) => AnySpacer::RtuSpacer18(Spacer::new(alloc, room)?),
            (Proto::Dnp3, Profile::Y18) => AnySpacer::DnpSpacer18(Spacer::new(alloc, room)?),
            (Proto::Rtu, Profile::Y24) => AnySpacer::RtuSpacer24(Spacer::new(alloc, room)?),
            (Proto::Dnp3, Profile::Y24) => AnySpacer::DnpSpacer24(Spacer::new(alloc, room)?),
        })
    }

    /// Takes the next tick of the line, and returns the tick of the other line at the same place.
    /// If a frame is lost in this step, since too many wait, it also returns the tick of the
    /// frame's first byte. Fewer than `MAX_TICKS` ticks were taken before.
    pub fn step(&mut self, t: Tick) -> SpaceStep
        /// Fewer than 2^62 ticks were taken before.
        requires { ⟦<AnySpacer as DefinedSpacer>⟧.taken self.old < MAX_TICKS }
        /// One more tick is taken.
        ensures taken { ⟦<AnySpacer as DefinedSpacer>⟧.taken self.new
            ≡ ⟦<AnySpacer as DefinedSpacer>⟧.taken self.old + 1 }
        /// The tick that leaves, and the frame that is lost, are what the definition of the spaced
        /// line adds for this tick.
        ensures steps { SpacerStepsOn ⟦<AnySpacer as DefinedSpacer>⟧ self.old
            self.new t result }
    {
        match self {
            AnySpacer::RtuSpacer18(spacer) => spacer.step(t),
            AnySpacer::DnpSpacer18(spacer) => spacer.step(t),
            AnySpacer::RtuSpacer24(spacer) => spacer.step(t),
            AnySpacer::DnpSpacer24(spacer) => spacer.step(t),
        }
    }
}
