//! The words of the program: which command they ask for, and which of them are paths.
ghost use Rattle.std.specs.Prelude.{◌≡◌, ◌⊎◌, ◌↔◌, ℕ, ◌^◌, ◌<◌, ◌≤◌, List, [], ◌∷◌};
ghost use Rattle.std.specs.Prelude.{None, IfOk, OnErr, IsTrue, map, codes, decimal};
ghost use Rattle.std.specs.String.{string_bytes};
ghost use Rattle.sequence_journal.specs.declared.numbers.TheConstants.{LIMIT};
ghost use Rattle.link_replay.specs.declared.words.Command.{Command};
ghost use Rattle.link_replay.specs.Words.{IsCommand, Asks};
ghost use Rattle.link_replay.specs.Words.{key_place, journal_place, second_place, AskForJournal};
ghost use Rattle.link_replay.specs.Words.{side_word, most_ticks, least_window, MayWait};
ghost use Rattle.link_replay.specs.Words.{AreLateWords, MayBeLate, range_word, six_with};
ghost use Rattle.session_audit.specs.declared.session.Tolerance.{Tolerance};

use command_ends::{Profile, Proto, Usage, read_dir, read_link, read_proto};
use link_format::Dir;
use sequence_journal::LIMIT;
use session_audit::Tolerance;
use two_wire::{Side, Waits};

/// The greatest count of frames in a trial, and of requests in a session of polls.
const MOST_FRAMES: u32 = 10_000;

/// The greatest number that fits into 32 bits.
const MOST_OF_32_BITS: u64 = 4_294_967_295;

/// The most ticks that a two-wire box may wait, or that a frame may be late in an audit.
const MOST_TICKS: u32 = 1_000_000;

/// The least PAUSE of a two-wire box: the silence that ends a frame.
const LEAST_PAUSE: u32 = 4;

/// The session that is audited: its link, the floors of its transmitter and receiver, and when the
/// frames that have passed may be read.
#[derive(Clone, Copy, Debug, PartialEq, Eq)]
pub struct Audited {
    /// The protocol of the link.
    pub proto: Proto,
    /// The profile of the link.
    pub profile: Profile,
    /// The direction of the link.
    pub dir: Dir,
    /// The transmitter's floor before the session: 0, or the number of a frame.
    pub sent_floor: u64,
    /// The receiver's floor before the session: 0, or the number of a frame.
    pub got_floor: u64,
    /// When the frames that have passed may be read.
    pub tolerance: Tolerance,
}

/// What the program is asked to do.
#[derive(Clone, Copy, Debug, PartialEq, Eq)]
pub enum Command {
    /// Makes a new journal for a link.
    Init(Proto, Profile, Dir),
    /// Prints the frames that a device reads from a line.
    Read(Proto),
    /// Checks the tables of known answers.
    Vectors,
    /// Seals the frames of a device's line on their way to the link.
    Seal(Proto, Profile, Dir),
    /// Checks the packets of a link, and sends on what passes.
    Check(Proto, Profile, Dir),
    /// Lists what is sealed of a device's line, and what passes and is read of a link.
    Replay(Proto, Profile, Dir),
    /// Tries a link with frames that are drawn: the first number is the seed, and the second one
    /// says how many frames.
    Trial(Proto, Profile, u32, u32),
    /// Polls devices over two wires at both ends of an attacked link. The first number is the seed,
    /// and the second one says how many requests are asked.
    Poll(Proto, Profile, u32, u32),
    /// Sends on the frames of a line with as much silence between them as the profile asks for.
    Space(Proto, Profile),
    /// Judges a session by three recordings.
    Audit(Audited),
    /// Seals a device's line in one direction, and checks a link in the other.
    Duplex(Proto, Profile, Dir),
    /// Runs a box between the wires to a device and those of a link, on each of which all take turns:
    /// for which side it speaks to its device, and how long is waited there.
    TwoWire(Proto, Profile, Dir, Side, Waits),
    /// Seals the frames of a device's live line on their way to the link.
    LiveSeal(Proto, Profile, Dir),
    /// Checks the packets of a live link, and sends on what passes.
    LiveCheck(Proto, Profile, Dir),
    /// Runs the box at one end of a live line, over both ways in one stream. The direction is that in
    /// which its device sends.
    LiveLine(Proto, Profile, Dir),
    /// Prints the page that lists the program's words.
    Help,
    /// Prints the program's name and version.
    Version,
}

/// The first six words, of a command that has so many.
#[derive(Clone, Copy)]
struct FirstSix<'a> {
    first: &'a str,
    second: &'a str,
    third: &'a str,
    fourth: &'a str,
    fifth: &'a str,
    sixth: &'a str,
}

// Reads a command of one word.
fn read_one(word: &str) -> Result<Command, Usage>
    ensures ok { IfOk result (λ command. IsCommand (word.now ∷ []) command) }
    ensures usage { OnErr result ((command : Command) → IsCommand (word.now ∷ []) command → ⊥) }
{
    match word {
        "vectors" => Ok(Command::Vectors),
        "help" | "--help" | "-h" => Ok(Command::Help),
        "version" | "--version" => Ok(Command::Version),
        _ => Err(Usage),
    }
}

// Reads a command of two words.
fn read_two(first: &str, second: &str) -> Result<Command, Usage>
    ensures ok { IfOk result (λ command. IsCommand (first.now ∷ second.now ∷ []) command) }
    ensures usage { OnErr result ((command : Command)
        → IsCommand (first.now ∷ second.now ∷ []) command → ⊥) }
{
    if first == "space" {
        let (proto, profile) = read_link(second)?;
        return Ok(Command::Space(proto, profile));
    }
    if first != "read" {
        return Err(Usage);
    }
    match read_proto(second) {
        Ok(proto) => Ok(Command::Read(proto)),
        Err(Usage) => Err(Usage),
    }
}

// Reads the words of `init`: a link, and the path of its journal, which must not be empty.
fn read_init(first: &str, second: &str, third: &str, path: &str) -> Result<Command, Usage>
    requires { first.now ≡ codes "init" }
    ensures ok { IfOk result (λ command.
        IsCommand (first.now ∷ second.now ∷ third.now ∷ path.now ∷ []) command) }
    ensures usage { OnErr result ((command : Command)
        → IsCommand (first.now ∷ second.now ∷ third.now ∷ path.now ∷ []) command → ⊥) }
{
    if path.is_empty() {
        return Err(Usage);
    }
    let (proto, profile) = read_link(second)?;
    let dir = read_dir(third)?;
    Ok(Command::Init(proto, profile, dir))
}

// Returns the number below 2^64 that a word spells in decimal digits without a leading zero.
fn read_wide(word: &str) -> Result<u64, Usage>
    ensures ok { IfOk result (λ n. word.now ≡ decimal n) }
    ensures wide { IfOk result (λ n. n < 2 ^ 64) }
    ensures usage { OnErr result ((n : ℕ) → n < 2 ^ 64 → word.now ≡ decimal n → ⊥) }
{
    let Ok(n) = word.parse::<u64>() else {
        return Err(Usage);
    };
    // `parse` takes other texts for the same number too
    let mut digits = itoa::Buffer::new();
    if digits.format(n) == word {
        Ok(n)
    } else {
        Err(Usage)
    }
}

// Returns the number below 2^32 that a word spells in decimal digits without a leading zero.
fn read_number(word: &str) -> Result<u32, Usage>
    ensures ok { IfOk result (λ n. word.now ≡ decimal n) }
    ensures small { IfOk result (λ n. n < 2 ^ 32) }
    ensures usage { OnErr result ((n : ℕ) → n < 2 ^ 32 → word.now ≡ decimal n → ⊥) }
{
    let n = read_wide(word)?;
    if n > MOST_OF_32_BITS {
        return Err(Usage);
    }
    Ok(n as u32)
}

// Returns the floor that a word spells in decimal digits without a leading zero: 0, or the number
// of a frame.
fn read_floor(word: &str) -> Result<u64, Usage>
    ensures ok { IfOk result (λ n. word.now ≡ decimal n) }
    ensures within { IfOk result (λ n. n ≤ LIMIT) }
    ensures usage { OnErr result ((n : ℕ) → n ≤ LIMIT → word.now ≡ decimal n → ⊥) }
{
    let n = read_wide(word)?;
    if n > LIMIT {
        return Err(Usage);
    }
    Ok(n)
}

// Reads the words of `trial` and `poll`: a link without a direction, a seed, and how many frames or
// requests.
fn read_drawn(first: &str, second: &str, seed: &str, count: &str) -> Result<Command, Usage>
    requires { (first.now ≡ codes "trial") ⊎ (first.now ≡ codes "poll") }
    ensures ok { IfOk result (λ command.
        IsCommand (first.now ∷ second.now ∷ seed.now ∷ count.now ∷ []) command) }
    ensures usage { OnErr result ((command : Command)
        → IsCommand (first.now ∷ second.now ∷ seed.now ∷ count.now ∷ []) command → ⊥) }
{
    let (proto, profile) = read_link(second)?;
    let seed = read_number(seed)?;
    let count = read_number(count)?;
    if count < 1 {
        return Err(Usage);
    }
    if count > MOST_FRAMES {
        return Err(Usage);
    }
    if first == "poll" {
        return Ok(Command::Poll(proto, profile, seed, count));
    }
    Ok(Command::Trial(proto, profile, seed, count))
}

// Reads the words of `replay`: a link, and the path of a key, which must not be empty.
fn read_replay(first: &str, second: &str, third: &str, key: &str) -> Result<Command, Usage>
    requires { first.now ≡ codes "replay" }
    ensures ok { IfOk result (λ command.
        IsCommand (first.now ∷ second.now ∷ third.now ∷ key.now ∷ []) command) }
    ensures usage { OnErr result ((command : Command)
        → IsCommand (first.now ∷ second.now ∷ third.now ∷ key.now ∷ []) command → ⊥) }
{
    if key.is_empty() {
        return Err(Usage);
    }
    let (proto, profile) = read_link(second)?;
    let dir = read_dir(third)?;
    Ok(Command::Replay(proto, profile, dir))
}

// Reads the words of `duplex`: a link, and the path of a key, which must not be empty.
fn read_duplex(first: &str, second: &str, third: &str, key: &str) -> Result<Command, Usage>
    requires { first.now ≡ codes "duplex" }
    ensures ok { IfOk result (λ command.
        IsCommand (first.now ∷ second.now ∷ third.now ∷ key.now ∷ []) command) }
    ensures usage { OnErr result ((command : Command)
        → IsCommand (first.now ∷ second.now ∷ third.now ∷ key.now ∷ []) command → ⊥) }
{
    if key.is_empty() {
        return Err(Usage);
    }
    let (proto, profile) = read_link(second)?;
    let dir = read_dir(third)?;
    Ok(Command::Duplex(proto, profile, dir))
}

// Reads a command of four words.
fn read_four(first: &str, second: &str, third: &str, fourth: &str) -> Result<Command, Usage>
    ensures ok { IfOk result (λ command.
        IsCommand (first.now ∷ second.now ∷ third.now ∷ fourth.now ∷ []) command) }
    ensures usage { OnErr result ((command : Command)
        → IsCommand (first.now ∷ second.now ∷ third.now ∷ fourth.now ∷ []) command → ⊥) }
{
    match first {
        "init" => read_init(first, second, third, fourth),
        "replay" => read_replay(first, second, third, fourth),
        "trial" | "poll" => read_drawn(first, second, third, fourth),
        "duplex" => read_duplex(first, second, third, fourth),
        _ => Err(Usage),
    }
}

// Reads a command of five words: a box, a link, and the paths of a key and a journal, which must
// not be empty.
fn read_five(
    first: &str,
    second: &str,
    third: &str,
    key: &str,
    path: &str,
) -> Result<Command, Usage>
    ensures ok { IfOk result (λ command.
        IsCommand (first.now ∷ second.now ∷ third.now ∷ key.now ∷ path.now ∷ []) command) }
    ensures usage { OnErr result ((command : Command)
        → IsCommand (first.now ∷ second.now ∷ third.now ∷ key.now ∷ path.now ∷ []) command → ⊥) }
{
    if key.is_empty() {
        return Err(Usage);
    }
    if path.is_empty() {
        return Err(Usage);
    }
    let (proto, profile) = read_link(second)?;
    let dir = read_dir(third)?;
    match first {
        "seal" => Ok(Command::Seal(proto, profile, dir)),
        "check" => Ok(Command::Check(proto, profile, dir)),
        _ => Err(Usage),
    }
}

// Reads the first six words of `audit`: a link, the path of a key, which must not be empty, and two
// floors. The tolerance is what the words behind them ask for.
fn read_audit(words: FirstSix<'_>, tolerance: Tolerance) -> Result<Command, Usage>
    requires audit { words.first.now ≡ codes "audit" }
    requires may { MayBeLate tolerance }
    ensures ok { IfOk result (λ command. (more : List (List ℕ)) → AreLateWords tolerance more
        → IsCommand (six_with words.entry more) command) }
    ensures usage { OnErr result ((command : Command) (more : List (List ℕ))
        → IsCommand (six_with words.entry more) command → ⊥) }
{
    if words.fourth.is_empty() {
        return Err(Usage);
    }
    let (proto, profile) = read_link(words.second)?;
    let dir = read_dir(words.third)?;
    let sent_floor = read_floor(words.fifth)?;
    let got_floor = read_floor(words.sixth)?;
    Ok(Command::Audit(Audited {
        proto,
        profile,
        dir,
        sent_floor,
        got_floor,
        tolerance,
    }))
}

// Returns how many ticks a frame may be late, by a word that spells the least and the most of them
// with two dots between.
fn read_range(word: &str, spaced: bool) -> Result<Tolerance, Usage>
    ensures ok { IfOk result (λ tolerance. word.now ≡ range_word tolerance) }
    ensures spaced { IfOk result (λ tolerance. tolerance.spaced ≡ spaced) }
    ensures may { IfOk result (λ tolerance. MayBeLate tolerance) }
    ensures usage { OnErr result ((tolerance : Tolerance) → MayBeLate tolerance
        → word.now ≡ range_word tolerance → ⊥) }
{
    let Some((least, rest)) = word.split_once('.') else {
        return Err(Usage);
    };
    let Some(most) = rest.strip_prefix('.') else {
        return Err(Usage);
    };
    let least = read_ticks(least)?;
    let most = read_ticks(most)?;
    if least > most {
        return Err(Usage);
    }
    Ok(Tolerance {
        least,
        most,
        spaced,
    })
}

// Returns the tolerance that a single word asks for.
fn read_late(word: &str) -> Result<Tolerance, Usage>
    ensures ok { IfOk result (λ tolerance. AreLateWords tolerance (word.now ∷ [])) }
    ensures may { IfOk result (λ tolerance. MayBeLate tolerance) }
    ensures usage { OnErr result ((tolerance : Tolerance) → MayBeLate tolerance
        → AreLateWords tolerance (word.now ∷ []) → ⊥) }
{
    if word == "spaced" {
        return Ok(Tolerance {
            least: 0,
            most: 0,
            spaced: true,
        });
    }
    read_range(word, false)
}

// Reads the words of `live`: a box, a link, and the paths of a key and a journal, which must not be
// empty.
fn read_live(words: FirstSix<'_>) -> Result<Command, Usage>
    requires { words.first.now ≡ codes "live" }
    ensures ok { IfOk result (λ command. IsCommand (six_with words.entry []) command) }
    ensures usage { OnErr result ((command : Command) → IsCommand (six_with words.entry []) command
        → ⊥) }
{
    if words.fifth.is_empty() {
        return Err(Usage);
    }
    if words.sixth.is_empty() {
        return Err(Usage);
    }
    let (proto, profile) = read_link(words.third)?;
    let dir = read_dir(words.fourth)?;
    match words.second {
        "seal" => Ok(Command::LiveSeal(proto, profile, dir)),
        "check" => Ok(Command::LiveCheck(proto, profile, dir)),
        _ => Err(Usage),
    }
}

// Reads the words of `live line`: a link, and the paths of a key and two journals, which must not be
// empty.
fn read_live_line(words: FirstSix<'_>, got: &str) -> Result<Command, Usage>
    requires { words.first.now ≡ codes "live" }
    ensures ok { IfOk result (λ command. IsCommand (six_with words.entry (got.now ∷ [])) command) }
    ensures usage { OnErr result ((command : Command)
        → IsCommand (six_with words.entry (got.now ∷ [])) command → ⊥) }
{
    if words.second != "line" {
        return Err(Usage);
    }
    if words.fifth.is_empty() {
        return Err(Usage);
    }
    if words.sixth.is_empty() {
        return Err(Usage);
    }
    if got.is_empty() {
        return Err(Usage);
    }
    let (proto, profile) = read_link(words.third)?;
    let dir = read_dir(words.fourth)?;
    Ok(Command::LiveLine(proto, profile, dir))
}

// Returns the side that a word names.
fn read_side(word: &str) -> Result<Side, Usage>
    ensures ok { IfOk result (λ side. word.now ≡ side_word side) }
    ensures usage { OnErr result ((side : Side) → word.now ≡ side_word side → ⊥) }
{
    match word {
        "asks" => Ok(Side::Asks),
        "answers" => Ok(Side::Answers),
        _ => Err(Usage),
    }
}

// Returns the ticks, at most 1,000,000, that a word spells in decimal digits without a leading zero.
fn read_ticks(word: &str) -> Result<u32, Usage>
    ensures ok { IfOk result (λ n. word.now ≡ decimal n) }
    ensures within { IfOk result (λ n. n ≤ most_ticks) }
    ensures usage { OnErr result ((n : ℕ) → n ≤ most_ticks → word.now ≡ decimal n → ⊥) }
{
    let n = read_number(word)?;
    if n > MOST_TICKS {
        return Err(Usage);
    }
    Ok(n)
}

// Returns the least WINDOW of a two-wire box with this PAUSE.
fn window_for(profile: Profile, side: Side, pause: u32) -> u32
    ensures { result ≡ least_window profile side pause }
{
    match side {
        Side::Asks => pause,
        Side::Answers => u32::from(profile.delay()) + 5,
    }
}

// Reads how long a two-wire box waits.
fn read_waits(profile: Profile, side: Side, window: &str, pause: &str) -> Result<Waits, Usage>
    ensures window { IfOk result (λ waits. window.now ≡ decimal waits.window) }
    ensures pause { IfOk result (λ waits. pause.now ≡ decimal waits.pause) }
    ensures may { IfOk result (λ waits. MayWait profile side waits) }
    ensures usage { OnErr result ((waits : Waits) → MayWait profile side waits
        → window.now ≡ decimal waits.window → pause.now ≡ decimal waits.pause → ⊥) }
{
    let window = read_ticks(window)?;
    let pause = read_ticks(pause)?;
    if pause < LEAST_PAUSE {
        return Err(Usage);
    }
    if window < window_for(profile, side, pause) {
        return Err(Usage);
    }
    Ok(Waits { window, pause })
}

// Reads the words of `two_wire`: a link, a side, how long is waited, and the path of a key, which
// must not be empty.
fn read_two_wire(words: FirstSix<'_>, key: &str) -> Result<Command, Usage>
    requires { words.first.now ≡ codes "two_wire" }
    ensures ok { IfOk result (λ command. IsCommand (six_with words.entry (key.now ∷ [])) command) }
    ensures usage { OnErr result ((command : Command)
        → IsCommand (six_with words.entry (key.now ∷ [])) command → ⊥) }
{
    if key.is_empty() {
        return Err(Usage);
    }
    let (proto, profile) = read_link(words.second)?;
    let dir = read_dir(words.third)?;
    let side = read_side(words.fourth)?;
    let waits = read_waits(profile, side, words.fifth, words.sixth)?;
    Ok(Command::TwoWire(proto, profile, dir, side, waits))
}

// Reads a command of six words.
fn read_six(words: FirstSix<'_>) -> Result<Command, Usage>
    ensures ok { IfOk result (λ command. IsCommand (six_with words.entry []) command) }
    ensures usage { OnErr result ((command : Command) → IsCommand (six_with words.entry []) command
        → ⊥) }
{
    match words.first {
        "audit" => read_audit(words, Tolerance::exact()),
        "live" => read_live(words),
        _ => Err(Usage),
    }
}

// Reads a command of seven words.
fn read_seven(words: FirstSix<'_>, seventh: &str) -> Result<Command, Usage>
    ensures ok { IfOk result (λ command.
        IsCommand (six_with words.entry (seventh.now ∷ [])) command) }
    ensures usage { OnErr result ((command : Command)
        → IsCommand (six_with words.entry (seventh.now ∷ [])) command → ⊥) }
{
    match words.first {
        "two_wire" => read_two_wire(words, seventh),
        "live" => read_live_line(words, seventh),
        "audit" => {
            let tolerance = read_late(seventh)?;
            read_audit(words, tolerance)
        }
        _ => Err(Usage),
    }
}

// Reads a command of eight words: `audit` with all of its words.
fn read_eight(words: FirstSix<'_>, seventh: &str, eighth: &str) -> Result<Command, Usage>
    ensures ok { IfOk result (λ command.
        IsCommand (six_with words.entry (seventh.now ∷ eighth.now ∷ [])) command) }
    ensures usage { OnErr result ((command : Command)
        → IsCommand (six_with words.entry (seventh.now ∷ eighth.now ∷ [])) command → ⊥) }
{
    if words.first != "audit" {
        return Err(Usage);
    }
    if eighth != "spaced" {
        return Err(Usage);
    }
    let tolerance = read_range(seventh, true)?;
    read_audit(words, tolerance)
}

// Reads a command of six words or more.
fn read_long(words: FirstSix<'_>, more: &[String]) -> Result<Command, Usage>
    ensures ok { IfOk result (λ command.
        IsCommand (six_with words.entry (map string_bytes more.now)) command) }
    ensures usage { OnErr result ((command : Command)
        → IsCommand (six_with words.entry (map string_bytes more.now)) command → ⊥) }
{
    match more {
        [] => read_six(words),
        [seventh] => read_seven(words, seventh.as_str()),
        [seventh, eighth] => read_eight(words, seventh.as_str(), eighth.as_str()),
        _ => Err(Usage),
    }
}

/// Returns the command that the words after the program's name ask for. Each word is compared byte
/// for byte.
pub fn read_words(words: &[String]) -> Result<Command, Usage>
    /// The words ask for the command that is returned.
    ensures ok { IfOk result (λ command. IsCommand (map string_bytes words.now) command) }
    /// If `Usage` is returned, the words ask for no command.
    ensures usage { OnErr result ((command : Command)
        → IsCommand (map string_bytes words.now) command → ⊥) }
{
    match words {
        [word] => read_one(word.as_str()),
        [first, second] => read_two(first.as_str(), second.as_str()),
        [first, second, third, fourth] => read_four(
            first.as_str(),
            second.as_str(),
            third.as_str(),
            fourth.as_str(),
        ),
        [first, second, third, key, path] => read_five(
            first.as_str(),
            second.as_str(),
            third.as_str(),
            key.as_str(),
            path.as_str(),
        ),
        [first, second, third, fourth, fifth, sixth, more @ ..] => {
            let six = FirstSix {
                first: first.as_str(),
                second: second.as_str(),
                third: third.as_str(),
                fourth: fourth.as_str(),
                fifth: fifth.as_str(),
                sixth: sixth.as_str(),
            };
            read_long(six, more)
        }
        _ => Err(Usage),
    }
}

/// Returns the place, counted from 0, of the word that is the path of the key's file, or `None` if
/// the words have no such path.
pub fn key_word(words: &[String]) -> Option<usize>
    /// If the words ask for a command, the place is that of the command's table.
    ensures place { (command : Command) → IsCommand (map string_bytes words.now) command
        → result ≡ key_place command }
    /// If the words ask for no command, it is `None`.
    ensures none { Asks (map string_bytes words.now) None → result ≡ None }
{
    match read_words(words) {
        Ok(Command::Init(..) | Command::Read(_) | Command::Vectors) => None,
        Ok(Command::Trial(..) | Command::Poll(..) | Command::Space(..)) => None,
        Ok(Command::Help | Command::Version) => None,
        Ok(Command::Seal(..)) => Some(3),
        Ok(Command::Check(..)) => Some(3),
        Ok(Command::Replay(..)) => Some(3),
        Ok(Command::Audit(..)) => Some(3),
        Ok(Command::Duplex(..)) => Some(3),
        Ok(Command::TwoWire(..)) => Some(6),
        Ok(Command::LiveSeal(..)) => Some(4),
        Ok(Command::LiveCheck(..)) => Some(4),
        Ok(Command::LiveLine(..)) => Some(4),
        Err(Usage) => None,
    }
}

/// Returns the place, counted from 0, of the word that is the path of the journal's file, or `None`
/// if the words have no such path.
pub fn journal_word(words: &[String]) -> Option<usize>
    /// If the words ask for a command, the place is that of the command's table.
    ensures place { (command : Command) → IsCommand (map string_bytes words.now) command
        → result ≡ journal_place command }
    /// If the words ask for no command, it is `None`.
    ensures none { Asks (map string_bytes words.now) None → result ≡ None }
{
    match read_words(words) {
        Ok(Command::Init(..)) => Some(3),
        Ok(Command::Seal(..)) => Some(4),
        Ok(Command::Check(..)) => Some(4),
        Ok(Command::Read(_) | Command::Vectors | Command::Help | Command::Version) => None,
        Ok(Command::Replay(..) | Command::Trial(..) | Command::Poll(..) | Command::Space(..)) =>
            None,
        Ok(Command::Audit(..)) => None,
        Ok(Command::Duplex(..) | Command::TwoWire(..)) => None,
        Ok(Command::LiveSeal(..)) => Some(5),
        Ok(Command::LiveCheck(..)) => Some(5),
        Ok(Command::LiveLine(..)) => Some(5),
        Err(Usage) => None,
    }
}

/// Returns the place, counted from 0, of the word that is the path of the second journal's file, or
/// `None` if the words have no such path. Only `live line` has one.
pub fn second_word(words: &[String]) -> Option<usize>
    /// If the words ask for a command, the place is that of the command's table.
    ensures place { (command : Command) → IsCommand (map string_bytes words.now) command
        → result ≡ second_place command }
    /// If the words ask for no command, it is `None`.
    ensures none { Asks (map string_bytes words.now) None → result ≡ None }
{
    match read_words(words) {
        Ok(Command::LiveLine(..)) => Some(6),
        _ => None,
    }
}

/// Whether a journal's file is made if it is missing. Only `init` makes one.
pub fn makes_journal(words: &[String]) -> bool
    ensures { IsTrue result ↔ AskForJournal (map string_bytes words.now) }
{
    match read_words(words) {
        Ok(Command::Init(..)) => true,
        Ok(Command::Read(_) | Command::Vectors | Command::Space(..)) => false,
        Ok(Command::Trial(..) | Command::Poll(..)) => false,
        Ok(Command::Help | Command::Version) => false,
        Ok(Command::Seal(..) | Command::Check(..) | Command::Replay(..)) => false,
        Ok(Command::Audit(..)) => false,
        Ok(Command::Duplex(..) | Command::TwoWire(..)) => false,
        Ok(Command::LiveSeal(..) | Command::LiveCheck(..) | Command::LiveLine(..)) => false,
        Err(Usage) => false,
    }
}
