//! A session of polls, tick by tick.
ghost use Rattle.std.specs.Prelude.{◌≡◌, ◌≤◌, IfOk, List};
ghost use Rattle.link_format.specs.Setup.{Setup};
ghost use Rattle.link_box.specs.Walking.{other_line};
ghost use Rattle.link_format.specs.declared.dir.Dir.TheVariants.{Ab, Ba};
ghost use Rattle.two_wire_box.specs.Steady.{AreLinksOfLine};
ghost use Rattle.yasir_ticks.specs.declared.tick.Tick.{Tick};
ghost use Rattle.link_format.specs.Directions.{opposite_of};
ghost use Rattle.link_format.specs.declared.dir.Dir.{Dir as LinkDir};
ghost use Rattle.two_wire.specs.TwoWire.{EndWires};
ghost use Rattle.session_lists.specs.FrameList.{ListIsWhole};
ghost use Rattle.poll_session.specs.PollEnds.{HasPolled};
ghost use Rattle.poll_session.specs.Polled.{CountsWay, Polled, boxes_of};

use crate::attack::{Attack, Moment};
use crate::devices::Devices;
use crate::master::Master;
use crate::poll_end::PollEnd;
use crate::summary::{PollSummary, WayCounts};
use crate::unsealed::count_unsealed;
use device_model::Device;
use link_box::LinkBox;
use link_format::Dir;
use session_lists::{FrameBox, NoMemory};
use std::alloc::Global;
use trial_session::DrawnFrames;
use two_wire::{Side, Waits, drive};
use two_wire_box::steady_ends_make_the_wires;
use yasir_ticks::{MAX_TICKS, Tick};

/// How many ticks a session has at most for each request, before it ends.
const TICKS_A_POLL: u64 = 4096;

/// How many ticks follow the last request, so that it is answered.
const REST: u32 = 1024;

/// How many silent ticks come at most before an answer begins, and one.
const ANSWER_WINDOW: u32 = 41;

/// A session in progress: a master beside the box `a`, devices beside the box `b`, and an attacker
/// on the link between them.
#[derive(Drop)]
pub struct PollSession<S, C, X, Y, V> {
    a: PollEnd<S, C, X, Y, V>,
    b: PollEnd<S, C, X, Y, V>,
    master: Master,
    devices: Devices,
    attack: Attack,
    waits: Waits,
    delay: u64,
    ticks: u64,
}

// What is counted of the frames that are heard at one end and leave at the other one.
fn counts_of<S: LinkBox, C: LinkBox, X: FrameBox, Y: FrameBox, V: Device + Drop>(
    sent_by: &PollEnd<S, C, X, Y, V>,
    got_by: &PollEnd<S, C, X, Y, V>,
) -> WayCounts
    requires sealed_whole { ListIsWhole sent_by.now.watch.sealed }
    requires read_whole { ListIsWhole got_by.now.read }
    ensures { (sent_dir got_dir : LinkDir) (v w : EndWires)
        (others deaf more_others more_deaf : List Tick) → opposite_of got_dir ≡ sent_dir
        → HasPolled S.LinkBox C.LinkBox X.FrameBox Y.FrameBox V.Device sent_dir sent_by.now v others
        deaf
        → HasPolled S.LinkBox C.LinkBox X.FrameBox Y.FrameBox V.Device got_dir got_by.now w
        more_others more_deaf
        → CountsWay (boxes_of S.LinkBox X.FrameBox Y.FrameBox sent_dir) V.reads v w more_deaf
        result }
{
    WayCounts {
        sealed: sent_by.sealed().len() as u64,
        passed: got_by.passed().len() as u64,
        held: got_by.held(),
        read: got_by.read().len() as u64,
        unsealed: count_unsealed(sent_by.sealed(), got_by.read()),
    }
}

impl<S: LinkBox, C: LinkBox, X: FrameBox, Y: FrameBox, V: Device + Drop> PollSession<
    S,
    C,
    X,
    Y,
    V,
> {
    ghost use Rattle.std.specs.Prelude.{◌≡◌, ◌⊎◌, ◌+◌, ◌<◌, ◌≤◌, ℕ, List, OnOk};
    ghost use Rattle.yasir_ticks.specs.declared.tick.Tick.{Tick};
    ghost use Rattle.two_wire.specs.TwoWire.{EndWires};
    ghost use Rattle.session_lists.specs.FrameList.{ListIsWhole};
    ghost use Rattle.poll_session.specs.PollEnds.{HasPolled};
    ghost use Rattle.poll_session.specs.Polled.{CountsWay, boxes_of};
    ghost use Rattle.link_format.specs.declared.dir.Dir.TheVariants.{Ab, Ba};
    ghost use Rattle.two_wire_box.specs.Steady.{AreLinksOfLine};
    ghost use Rattle.poll_session.specs.Sessions.{IsSetUp, MayGoOnPolling, HasRunPolls};

    // A session before its first tick, with receivers that are this many ticks late.
    fn new<R: DrawnFrames>(
        alloc: Global,
        seed: u32,
        count: u32,
        delay: u32,
    ) -> PollSession<S, C, X, Y, V>
        requires outgoing_fits { S.widths_fit }
        requires incoming_fits { C.widths_fit }
        requires sealing { X.widths_fit }
        requires checking { Y.widths_fit }
        requires links_a { AreLinksOfLine Ab (S.link_in Ab) (C.link_in Ba) }
        requires links_b { AreLinksOfLine Ba (S.link_in Ba) (C.link_in Ab) }
        requires soon { delay ≤ 37 }
        ensures able { MayGoOnPolling S.LinkBox C.LinkBox X.FrameBox Y.FrameBox V.Device result }
        ensures ticks { result.ticks ≡ 0 }
        ensures set_up { IsSetUp result delay count }
        ensures run { HasRunPolls S.LinkBox C.LinkBox X.FrameBox Y.FrameBox V.Device R.drawing seed
            result }
    {
        let waits = Waits {
            window: 2 * delay + 45,
            pause: delay + 4,
        };
        let at_devices = Waits {
            window: ANSWER_WINDOW,
            pause: delay + 4,
        };
        PollSession {
            a: PollEnd::new(alloc, Dir::Ab, Side::Answers, waits),
            b: PollEnd::new(alloc, Dir::Ba, Side::Asks, at_devices),
            master: Master::new::<R>(seed, u64::from(count)),
            devices: Devices::new(seed ^ 0x5555_5555),
            attack: Attack::new(seed ^ 0x3333_3333),
            waits,
            delay: u64::from(delay),
            ticks: 0,
        }
    }

    // Runs one more tick.
    fn step<R: DrawnFrames>(&mut self) -> Result<(), NoMemory>
        requires able { MayGoOnPolling S.LinkBox C.LinkBox X.FrameBox Y.FrameBox V.Device self.old }
        requires room { self.old.ticks < MAX_TICKS }
        ensures able { OnOk result
            (MayGoOnPolling S.LinkBox C.LinkBox X.FrameBox Y.FrameBox V.Device self.new) }
        ensures ticks { OnOk result (self.new.ticks ≡ self.old.ticks + 1) }
        ensures set_up { OnOk result ((delay count : ℕ) → IsSetUp self.old delay count
            → IsSetUp self.new delay count) }
        ensures grows { OnOk result (self.old.master.asked ≤ self.new.master.asked) }
        ensures run { OnOk result ((seed : ℕ)
            → HasRunPolls S.LinkBox C.LinkBox X.FrameBox Y.FrameBox V.Device R.drawing seed self.old
            → HasRunPolls S.LinkBox C.LinkBox X.FrameBox Y.FrameBox V.Device R.drawing seed
            self.new) }
    {
        let on_link = drive(self.a.link_tick(), self.b.link_tick());
        let link = self.attack.turn(self.ticks, on_link);
        let question = self.master.wish(self.a.turn(), self.waits);
        let Ok(asked) = self.a.step(question, self.master.sleepy(), link) else {
            return Err(NoMemory);
        };
        let read = self.b.read().len();
        let answer = self.devices.wish(self.b.turn(), self.waits);
        let Ok(answered) = self.b.step(answer, self.devices.sleepy(), link) else {
            return Err(NoMemory);
        };
        let moment = Moment {
            now: self.ticks,
            delay: self.delay,
            pause: u64::from(self.waits.pause),
        };
        self.attack
            .on_request::<R>(asked.said, self.master.begins(), moment);
        self.attack
            .on_answer::<R>(answered.said, self.devices.begins(), moment);
        self.master.note::<R>(asked.said);
        self.devices.note::<R>(answered.said);
        let is_read = read < self.b.read().len();
        self.devices.hear::<R>(is_read);
        let reply = self.devices.reply(is_read, self.b.turn());
        self.attack.on_reply::<R>(reply, moment);
        self.ticks += 1;
        Ok(())
    }

    // Runs until the master has asked this many requests, or for so many ticks at most.
    fn ask_all<R: DrawnFrames>(&mut self, count: u64, most: u64) -> Result<(), NoMemory>
        requires able { MayGoOnPolling S.LinkBox C.LinkBox X.FrameBox Y.FrameBox V.Device self.old }
        requires begun { self.old.ticks ≡ 0 }
        requires few { most ≤ MAX_TICKS }
        ensures able { OnOk result
            (MayGoOnPolling S.LinkBox C.LinkBox X.FrameBox Y.FrameBox V.Device self.new) }
        ensures ticks { OnOk result (self.new.ticks ≤ most) }
        ensures set_up { OnOk result ((delay bound : ℕ) → IsSetUp self.old delay bound
            → IsSetUp self.new delay bound) }
        ensures ends { OnOk result ((count ≤ self.new.master.asked) ⊎ (self.new.ticks ≡ most)) }
        ensures run { OnOk result ((seed : ℕ)
            → HasRunPolls S.LinkBox C.LinkBox X.FrameBox Y.FrameBox V.Device R.drawing seed self.old
            → HasRunPolls S.LinkBox C.LinkBox X.FrameBox Y.FrameBox V.Device R.drawing seed
            self.new) }
    {
        while self.ticks < most && self.master.asked() < count {
            let Ok(()) = self.step::<R>() else {
                return Err(NoMemory);
            };
        }
        Ok(())
    }

    // Runs for so many ticks more, so that the last request is answered.
    fn run_out<R: DrawnFrames>(&mut self) -> Result<(), NoMemory>
        requires able { MayGoOnPolling S.LinkBox C.LinkBox X.FrameBox Y.FrameBox V.Device self.old }
        requires room { self.old.ticks + 1024 ≤ MAX_TICKS }
        ensures able { OnOk result
            (MayGoOnPolling S.LinkBox C.LinkBox X.FrameBox Y.FrameBox V.Device self.new) }
        ensures ticks { OnOk result (self.new.ticks ≡ self.old.ticks + 1024) }
        ensures set_up { OnOk result ((delay bound : ℕ) → IsSetUp self.old delay bound
            → IsSetUp self.new delay bound) }
        ensures grows { OnOk result (self.old.master.asked ≤ self.new.master.asked) }
        ensures run { OnOk result ((seed : ℕ)
            → HasRunPolls S.LinkBox C.LinkBox X.FrameBox Y.FrameBox V.Device R.drawing seed self.old
            → HasRunPolls S.LinkBox C.LinkBox X.FrameBox Y.FrameBox V.Device R.drawing seed
            self.new) }
    {
        for _ in 0..REST {
            let Ok(()) = self.step::<R>() else {
                return Err(NoMemory);
            };
        }
        Ok(())
    }

    // Returns what was counted.
    fn summary(&self) -> PollSummary
        requires sealed_a { ListIsWhole self.now.a.watch.sealed }
        requires sealed_b { ListIsWhole self.now.b.watch.sealed }
        requires read_a { ListIsWhole self.now.a.read }
        requires read_b { ListIsWhole self.now.b.read }
        ensures asked { result.asked ≡ self.now.master.asked }
        ensures requests { (v w : EndWires) (others deaf more_others more_deaf : List Tick)
            → HasPolled S.LinkBox C.LinkBox X.FrameBox Y.FrameBox V.Device Ab self.now.a v others
            deaf → HasPolled S.LinkBox C.LinkBox X.FrameBox Y.FrameBox V.Device Ba self.now.b w
            more_others more_deaf
            → CountsWay (boxes_of S.LinkBox X.FrameBox Y.FrameBox Ab) V.reads v w more_deaf
            result.requests }
        ensures answers { (v w : EndWires) (others deaf more_others more_deaf : List Tick)
            → HasPolled S.LinkBox C.LinkBox X.FrameBox Y.FrameBox V.Device Ba self.now.b v others
            deaf → HasPolled S.LinkBox C.LinkBox X.FrameBox Y.FrameBox V.Device Ab self.now.a w
            more_others more_deaf
            → CountsWay (boxes_of S.LinkBox X.FrameBox Y.FrameBox Ba) V.reads v w more_deaf
            result.answers }
    {
        PollSummary {
            asked: self.master.asked(),
            requests: counts_of(&self.a, &self.b),
            answers: counts_of(&self.b, &self.a),
        }
    }
}

/// Runs a session of at most `count` polls, whose frames are drawn from a seed by the protocol `R`.
/// The boxes at both ends are `S` and `C`, `X` and `Y` show what frames they number, and `V` reads
/// at each end. Receivers are `delay` ticks late.
pub fn try_polls<
    R: DrawnFrames,
    S: LinkBox,
    C: LinkBox,
    X: FrameBox,
    Y: FrameBox,
    V: Device + Drop,
>(alloc: Global, seed: u32, count: u32, delay: u32) -> Result<PollSummary, NoMemory>
    requires outgoing_fits { S.widths_fit }
    requires incoming_fits { C.widths_fit }
    requires sealing { X.widths_fit }
    requires checking { Y.widths_fit }
    requires links_a { AreLinksOfLine Ab (S.link_in Ab) (C.link_in Ba) }
    requires links_b { AreLinksOfLine Ba (S.link_in Ba) (C.link_in Ab) }
    requires same { (setup : Setup) (line : List Tick) → (Y.numbering setup).other_line line
        ≡ other_line C.walking setup line }
    requires soon { delay ≤ 37 }
    ensures { IfOk result (λ summary. Polled
        (boxes_of S.LinkBox X.FrameBox Y.FrameBox Ab)
        (boxes_of S.LinkBox X.FrameBox Y.FrameBox Ba) V.reads R.drawing delay seed count
        summary) }
{
    let mut session = PollSession::<S, C, X, Y, V>::new::<R>(alloc, seed, count, delay);
    let most = u64::from(count) * TICKS_A_POLL;
    let Ok(()) = session.ask_all::<R>(u64::from(count), most) else {
        return Err(NoMemory);
    };
    let Ok(()) = session.run_out::<R>() else {
        return Err(NoMemory);
    };
    steady_ends_make_the_wires::<S, C>();
    Ok(session.summary())
}
