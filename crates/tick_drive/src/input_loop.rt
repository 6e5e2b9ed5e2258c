//! The loop over an input: each line of its text goes to the consumer as a run of ticks.
ghost use Rattle.std.specs.Prelude.{◌≡◌, ℕ, ◌+◌, ◌≤◌, [], length};
ghost use Rattle.yasir_ticks.specs.Ticks.{items_of_run, ticks_in};
ghost use Rattle.yasir_ticks.specs.Reader.{items_of_content};
ghost use Rattle.yasir_ticks.specs.TickRun.{run_items};
ghost use Rattle.yasir_ticks.specs.declared.tick_run.TickRun.TheVariants.{Silence};
ghost use Rattle.yasir_ticks.specs.declared.place.Content.TheVariants.{SilentTicks, OneMark};
ghost use Rattle.yasir_ticks.specs.declared.TheConstants.{MAX_TICKS};
ghost use Rattle.tick_drive.specs.Input.{IsReadCause, is_read_fault, max_ticks};
ghost use Rattle.tick_drive.specs.Consumers.{MayTake, Gives};
ghost use Rattle.tick_drive.specs.Drive.{Drives, IsFresh, DriveHasRoom, HandAnswer};
ghost use Rattle.tick_drive.specs.Drive.{halted_end};

use crate::intake::Intake;
use crate::{Consumer, End, Stop, TooMuch};
use yasir_io::Source;
use yasir_ticks::{Content, Run, TickRun};

/// The most ticks of an input that are taken.
pub const MAX_INPUT_TICKS: u32 = 16_777_216;

// Why handing over lines stopped. It is small, so that a result stays in registers.
#[derive(Clone, Copy)]
enum Halt {
    // how many ticks there would be with those of the line, more than may be taken
    TooMany(u64),
    // the consumer stopped
    ByConsumer(Stop),
}

impl Halt {
    // Returns how the drive over the input ends then.
    fn end(self) -> End
        ensures { result ≡ halted_end self }
    {
        match self {
            Halt::TooMany(count) => End::TooLong {
                what: TooMuch::Ticks,
                count,
            },
            Halt::ByConsumer(stop) => End::Stopped(stop),
        }
    }
}

// Returns how many ticks a line with this content has. `bytes` are those of a `+` line.
#[inline(always)]
fn ticks_of(content: Content, bytes: &[u8]) -> u32
    requires { length bytes.now ≤ 32 }
    ensures { result ≡ length (ticks_in (items_of_content content bytes.now)) }
{
    match content {
        Content::NoTick | Content::OneMark => 0,
        Content::KeptBytes => bytes.len() as u32,
        Content::SilentTicks(n) => n,
    }
}

// Gives the ticks of a run to the consumer, in order. It isn't a function of the trait, since a
// hint to inline has no effect on a function that a trait provides.
#[inline(always)]
fn give_run<C: Consumer>(run: TickRun<'_>, consumer: &mut C) -> Result<(), Stop>
    requires { MayTake C.meaning consumer.old (run_items run) }
    ensures { Gives C.meaning consumer.old consumer.new (run_items run.entry) result }
{
    let mut left = run;
    while !left.is_empty() {
        match consumer.take_some(left) {
            Ok(count) => left = left.behind(count),
            Err(stop) => return Err(stop),
        }
    }
    Ok(())
}

// Gives silent ticks to the consumer. It is a function of its own, so that each kind of run is
// compiled by itself.
#[inline(never)]
fn give_silence<C: Consumer>(ticks: u32, consumer: &mut C) -> Result<(), Stop>
    requires { MayTake C.meaning consumer.old (run_items (Silence ticks)) }
    ensures { Gives C.meaning consumer.old consumer.new (run_items (Silence ticks)) result }
{
    give_run(TickRun::Silence(ticks), consumer)
}

// Gives a line with this content to the consumer.
#[inline(always)]
fn give<C: Consumer>(content: Content, bytes: &[u8], consumer: &mut C) -> Result<(), Stop>
    requires { MayTake C.meaning consumer.old (items_of_content content bytes.now) }
    ensures { Gives C.meaning consumer.old consumer.new (items_of_content content bytes.now)
        result }
{
    match content {
        Content::NoTick => Ok(()),
        Content::KeptBytes => give_run(TickRun::Bytes(bytes), consumer),
        Content::SilentTicks(ticks) => give_silence(ticks, consumer),
        Content::OneMark => consumer.take_mark(),
    }
}

// Hands a line with this content to the consumer, unless there are too many ticks with it. Returns
// the number of ticks up to its end.
#[inline(always)]
fn hand_content<C: Consumer>(
    ticks: u32,
    content: Content,
    bytes: &[u8],
    consumer: &mut C,
) -> Result<u32, Halt>
    requires within { ticks ≤ max_ticks }
    requires short { length bytes.now ≤ 32 }
    requires room { C.meaning.taken consumer.old + max_ticks ≤ MAX_TICKS + ticks }
    requires able { C.meaning.able consumer.old }
    ensures { HandAnswer C.meaning consumer.old consumer.new ticks
        (items_of_content content bytes.now) result }
{
    let sum = u64::from(ticks) + u64::from(ticks_of(content, bytes));
    if sum > u64::from(MAX_INPUT_TICKS) {
        return Err(Halt::TooMany(sum));
    }
    match give(content, bytes, consumer) {
        Ok(()) => Ok(sum as u32),
        Err(stop) => Err(Halt::ByConsumer(stop)),
    }
}

// Hands silent ticks to the consumer, unless there are too many ticks with them. Returns the number
// of ticks up to their end.
#[inline(always)]
fn hand_silence<C: Consumer>(ticks: u32, more: u32, consumer: &mut C) -> Result<u32, Halt>
    requires within { ticks ≤ max_ticks }
    requires room { C.meaning.taken consumer.old + max_ticks ≤ MAX_TICKS + ticks }
    requires able { C.meaning.able consumer.old }
    ensures { HandAnswer C.meaning consumer.old consumer.new ticks
        (items_of_content (SilentTicks more) []) result }
{
    let all = u64::from(ticks) + u64::from(ticks_of(Content::SilentTicks(more), &[]));
    if all > u64::from(MAX_INPUT_TICKS) {
        return Err(Halt::TooMany(all));
    }
    if let Err(stop) = give_silence(more, consumer) {
        return Err(Halt::ByConsumer(stop));
    }
    Ok(all as u32)
}

// Hands a mark to the consumer. Returns the number of ticks before it.
#[inline(always)]
fn hand_mark<C: Consumer>(ticks: u32, consumer: &mut C) -> Result<u32, Halt>
    requires within { ticks ≤ max_ticks }
    requires room { C.meaning.taken consumer.old + max_ticks ≤ MAX_TICKS + ticks }
    requires able { C.meaning.able consumer.old }
    ensures { HandAnswer C.meaning consumer.old consumer.new ticks (items_of_content OneMark [])
        result }
{
    if let Err(stop) = consumer.take_mark() {
        return Err(Halt::ByConsumer(stop));
    }
    Ok(ticks)
}

// Hands one line to the consumer, unless there are too many ticks with it. Returns the number of
// ticks up to its end. Each kind of line is compiled by itself, so that the kind is looked at only
// once. What takes bytes stands here once: the compiler drops a hint to inline a function that
// would grow very large.
#[inline(always)]
fn hand_over<C: Consumer>(
    ticks: u32,
    content: Content,
    bytes: &[u8],
    consumer: &mut C,
) -> Result<u32, Halt>
    requires within { ticks ≤ max_ticks }
    requires short { length bytes.now ≤ 32 }
    requires room { C.meaning.taken consumer.old + max_ticks ≤ MAX_TICKS + ticks }
    requires able { C.meaning.able consumer.old }
    ensures { HandAnswer C.meaning consumer.old consumer.new ticks
        (items_of_content content bytes.now) result }
{
    match content {
        Content::NoTick => Ok(ticks),
        Content::KeptBytes => hand_content(ticks, Content::KeptBytes, bytes, consumer),
        Content::SilentTicks(more) => hand_silence(ticks, more, consumer),
        Content::OneMark => hand_mark(ticks, consumer),
    }
}

// Hands a line to the consumer that isn't a usual one.
#[inline(never)]
fn hand_other<C: Consumer>(
    ticks: u32,
    content: Content,
    bytes: &[u8],
    consumer: &mut C,
) -> Result<u32, Halt>
    requires within { ticks ≤ max_ticks }
    requires short { length bytes.now ≤ 32 }
    requires room { C.meaning.taken consumer.old + max_ticks ≤ MAX_TICKS + ticks }
    requires able { C.meaning.able consumer.old }
    ensures { HandAnswer C.meaning consumer.old consumer.new ticks
        (items_of_content content bytes.now) result }
{
    hand_over(ticks, content, bytes, consumer)
}

// Hands the run of the last line to the consumer.
fn hand_last<C: Consumer>(ticks: u32, run: &Run, consumer: &mut C) -> Result<u32, Halt>
    requires within { ticks ≤ max_ticks }
    requires room { C.meaning.taken consumer.old + max_ticks ≤ MAX_TICKS + ticks }
    requires able { C.meaning.able consumer.old }
    ensures { HandAnswer C.meaning consumer.old consumer.new ticks (items_of_run run.now) result }
{
    match run {
        Run::Nothing => hand_other(ticks, Content::NoTick, &[], consumer),
        Run::Bytes(bytes) => hand_other(ticks, Content::KeptBytes, bytes, consumer),
        Run::Silence(n) => hand_other(ticks, Content::SilentTicks(*n), &[], consumer),
        Run::Mark => hand_other(ticks, Content::OneMark, &[], consumer),
    }
}

/// Drives an input, read as tick text with exactly `marks` marks, into a consumer, until one of the
/// two stops. The consumer may have counted ticks before, as long as it can count as many more as
/// an input may have.
pub fn drive_with_room<S: Source, C: Consumer>(marks: u8, input: &mut S, consumer: &mut C) -> End
    /// The consumer may be used, and may count as many more ticks as an input may have.
    requires { DriveHasRoom C.meaning consumer.old }
    /// The consumer was given exactly the ticks and marks that were taken of the input, in order,
    /// and the end says why no more were: the input's end, a refused byte, too many ticks or bytes,
    /// a failed read, or the consumer.
    ensures driven { Drives C.meaning marks 0 (S.left input.old) (S.left input.new) consumer.old
        consumer.new result }
    /// It ends with a failed read only if the input's count of faults rose.
    ensures read { IsReadCause (S.faults input.old) (S.faults input.new) (is_read_fault result) }
{
    let mut intake = Intake::new(marks);
    let mut ticks = 0;
    loop {
        if let Some(content) = intake.usual_line() {
            match hand_over(ticks, content, intake.line_bytes(), consumer) {
                Ok(sum) => ticks = sum,
                Err(halt) => return halt.end(),
            }
            continue;
        }
        let content = match intake.step(input) {
            Ok(Some(content)) => content,
            Ok(None) => break,
            Err(end) => return end,
        };
        if let Content::NoTick = content {
            continue;
        }
        let bytes = intake.line_bytes();
        match hand_other(ticks, content, bytes, consumer) {
            Ok(sum) => ticks = sum,
            Err(halt) => return halt.end(),
        }
    }
    let last = match intake.finish() {
        Ok(run) => run,
        Err(end) => return end,
    };
    match hand_last(ticks, &last, consumer) {
        Ok(_) => End::Whole,
        Err(halt) => halt.end(),
    }
}

/// Drives an input, read as tick text with exactly `marks` marks, into a consumer that has taken
/// nothing yet, until one of the two stops.
pub fn drive<S: Source, C: Consumer>(marks: u8, input: &mut S, consumer: &mut C) -> End
    /// The consumer has taken nothing, and may be used.
    requires fresh { IsFresh C.meaning consumer.old }
    /// The consumer was given exactly the ticks and marks that were taken of the input, in order,
    /// and the end says why no more were: the input's end, a refused byte, too many ticks or bytes,
    /// a failed read, or the consumer.
    ensures driven { Drives C.meaning marks 0 (S.left input.old) (S.left input.new) consumer.old
        consumer.new result }
    /// It ends with a failed read only if the input's count of faults rose.
    ensures read { IsReadCause (S.faults input.old) (S.faults input.new) (is_read_fault result) }
{
    drive_with_room(marks, input, consumer)
}

/// Drives an input, read as tick text with exactly `marks` marks, into a consumer that has taken
/// nothing yet. If the input was taken whole, gives the consumer `rest` silent ticks after it.
pub fn drive_to_rest<S: Source, C: Consumer>(
    marks: u8,
    rest: u32,
    input: &mut S,
    consumer: &mut C,
) -> End
    /// The consumer has taken nothing, and may be used.
    requires fresh { IsFresh C.meaning consumer.old }
    /// The consumer was given exactly the ticks and marks that were taken of the input, in order,
    /// and behind a whole input the silence of rest. The end says why no more were taken.
    ensures driven { Drives C.meaning marks rest (S.left input.old) (S.left input.new) consumer.old
        consumer.new result }
    /// It ends with a failed read only if the input's count of faults rose.
    ensures read { IsReadCause (S.faults input.old) (S.faults input.new) (is_read_fault result) }
{
    match drive(marks, input, consumer) {
        End::Whole => {}
        end => return end,
    }
    match give_silence(rest, consumer) {
        Ok(()) => End::Whole,
        Err(stop) => End::Stopped(stop),
    }
}
