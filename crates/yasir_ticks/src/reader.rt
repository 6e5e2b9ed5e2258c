//! The reader of tick text, byte by byte.
ghost use Rattle.std.specs.Prelude.{◌≡◌, ℕ, ◌+◌, ◌-◌, ◌*◌, ◌<◌, ◌≤◌, ◌^◌, ◌==◌, ◌++◌, ◌∷◌, []};
ghost use Rattle.std.specs.Prelude.{List, true, length, IsTrue, MatchResult, Some, if◌then◌else◌};
ghost use Rattle.hex.specs.Hex.{hex_digit_value, is_hex_digit};
ghost use Rattle.yasir_ticks.specs.Characters.{line_feed, carriage_return, percent_sign};
ghost use Rattle.yasir_ticks.specs.Place.{has_ticks, is_sound, is_foreign};

use crate::hex_digits::hex_value;
use crate::line_room::LineRoom;
use crate::place::{Content, Place};
use crate::{BadTicks, Run, TickFault};

/// The most bytes that a comment has after its `#`.
pub(crate) const MAX_COMMENT: u8 = 120;

/// The most silent ticks that one line represents.
const MAX_SILENCE: u64 = 1_000_000;

/// What a byte of a line results in: the content of the line that it ends, `None` if it ends none,
/// or why it is refused.
pub(crate) type Advance = Result<Option<Content>, TickFault>;

/// A reader of tick text, byte by byte. When a line ends, it is returned as a run.
#[derive(Drop)]
pub struct TickReader {
    pub(crate) line: u32,
    // how many marks may still begin
    pub(crate) left: u8,
    pub(crate) place: Place,
    pub(crate) bytes: LineRoom,
    ghost room: { is_sound place bytes.items ≡ true },
}

impl TickReader {
    ghost use Rattle.std.specs.Prelude.{◌≢◌, ◌⊎◌, OnOk, OnErr, IfOk, IfErr, ◌%◌, None, Err};
    ghost use Rattle.yasir_ticks.specs.declared.fault.TickFault.{TickFault};
    ghost use Rattle.yasir_ticks.specs.declared.fault.BadTicks.{BadTicks};
    ghost use Rattle.yasir_ticks.specs.Ticks.{Item, items_of_run};
    ghost use Rattle.yasir_ticks.specs.TickText.{IsTickText, BeginsTickText, IsRefusedAfter};
    ghost use Rattle.yasir_ticks.specs.TickText.{ended_items, line_after, fault_after};
    ghost use Rattle.yasir_ticks.specs.TickText.{fault_at_end};
    ghost use Rattle.yasir_ticks.specs.Reader.{StandsFor, HasRefused, reader_line};
    ghost use Rattle.yasir_ticks.specs.ReaderStep.{Advances, Steps, Stops, Closes, IsOpen};

    /// Returns a reader of a text with exactly `marks` marks.
    pub fn new(marks: u8) -> TickReader
        /// It has taken no byte of a text with this many marks.
        ensures stands { StandsFor result marks [] }
        /// Some right text with this many marks begins so.
        ensures begins { BeginsTickText marks [] }
        /// It is in line 1.
        ensures line { reader_line result ≡ 1 }
    {
        TickReader {
            line: 1,
            left: marks,
            place: Place::Start,
            bytes: LineRoom::new(),
        }
    }

    /// Returns the number of the line in which the reader is, counted from 1.
    pub fn line(&self) -> u32
        ensures { result ≡ reader_line self.now }
    {
        self.line
    }

    /// Returns what the line represents if it ends here, or why it can't end here.
    fn content(&self) -> Result<Content, TickFault>
        ensures ticks { IfOk result (λ content. has_ticks content self.now.bytes.items ≡ true) }
        ensures content { MatchResult result (Closes self.now.place self.now.bytes.items)
            (IsOpen self.now.place self.now.bytes.items) }
        ensures refused { (why : TickFault) → self.now.place ≡ Place.Refused why
            → result ≡ Err why }
    {
        match self.place {
            Place::Start | Place::Comment(_) => Ok(Content::NoTick),
            Place::Pairs => {
                if self.bytes.is_empty() {
                    Err(TickFault::Empty)
                } else {
                    Ok(Content::KeptBytes)
                }
            }
            Place::HalfPair(_) => Err(TickFault::Odd),
            Place::Minus => Err(TickFault::Empty),
            Place::Number(n) => Ok(Content::SilentTicks(n)),
            Place::Percent => Ok(Content::OneMark),
            Place::Returned(content) => Ok(content),
            Place::Refused(why) => Err(why),
        }
    }

    /// Goes to a place of the same line.
    #[inline]
    fn go(&mut self, place: Place) -> Advance
        requires { is_sound place self.old.bytes.items ≡ true }
        ensures ok { result ≡ Ok None }
        ensures place { self.new.place ≡ place }
        ensures bytes { self.new.bytes.items ≡ self.old.bytes.items }
        ensures line { self.new.line ≡ self.old.line }
        ensures left { self.new.left ≡ self.old.left }
    {
        self.place = place;
        Ok(None)
    }

    /// Refuses the text here, for good.
    fn refuse(&mut self, why: TickFault) -> Advance
        ensures err { result ≡ Err why }
        ensures place { self.new.place ≡ Place.Refused why }
        ensures line { self.new.line ≡ self.old.line }
    {
        self.place = Place::Refused(why);
        Err(why)
    }

    /// Ends the line at its LF.
    fn end_line(&mut self) -> Advance
        requires { reader_line self.old < 2 ^ 32 - 1 }
        ensures { Advances self.old line_feed result self.new }
    {
        match self.content() {
            Ok(content) => {
                self.line += 1;
                self.place = Place::Start;
                Ok(Some(content))
            }
            Err(why) => self.refuse(why),
        }
    }

    /// Ends the content at the CR that follows it.
    fn end_content(&mut self) -> Advance
        requires { is_foreign self.old.place carriage_return ≡ true }
        ensures { Advances self.old carriage_return result self.new }
    {
        match self.content() {
            Ok(content) => self.go(Place::Returned(content)),
            Err(why) => self.refuse(why),
        }
    }

    /// Takes a byte that is no part of a content: an LF, a CR, or one that may not come here.
    fn after_content(&mut self, b: u8) -> Advance
        requires foreign { is_foreign self.old.place b ≡ true }
        requires line { reader_line self.old < 2 ^ 32 - 1 }
        ensures { Advances self.old b result self.new }
    {
        match b {
            b'\n' => self.end_line(),
            b'\r' => self.end_content(),
            _ => self.refuse(TickFault::Char),
        }
    }

    fn at_start(&mut self, b: u8) -> Advance
        requires place { self.old.place ≡ Place.Start }
        requires line { reader_line self.old < 2 ^ 32 - 1 }
        ensures { Advances self.old b result self.new }
    {
        match b {
            b'+' => {
                self.bytes.clear();
                self.go(Place::Pairs)
            }
            b'-' => self.go(Place::Minus),
            b'#' => self.go(Place::Comment(0)),
            b'%' => self.begin_mark(),
            _ => self.after_content(b),
        }
    }

    /// Takes a `%` at the start of a line. It is refused if no mark is left.
    fn begin_mark(&mut self) -> Advance
        requires { self.old.place ≡ Place.Start }
        ensures { Advances self.old percent_sign result self.new }
    {
        if self.left > 0 {
            self.left -= 1;
            self.go(Place::Percent)
        } else {
            self.refuse(TickFault::Char)
        }
    }

    fn in_comment(&mut self, length: u8, b: u8) -> Advance
        requires place { self.old.place ≡ Place.Comment length }
        requires line { reader_line self.old < 2 ^ 32 - 1 }
        ensures { Advances self.old b result self.new }
    {
        if b == b'\n' {
            self.end_line()
        } else if length < MAX_COMMENT {
            self.go(Place::Comment(length + 1))
        } else {
            self.refuse(TickFault::Long)
        }
    }

    #[inline]
    fn in_pairs(&mut self, b: u8) -> Advance
        requires place { self.old.place ≡ Place.Pairs }
        requires line { reader_line self.old < 2 ^ 32 - 1 }
        ensures { Advances self.old b result self.new }
    {
        match hex_value(b) {
            Some(high) => {
                if self.bytes.is_full() {
                    self.refuse(TickFault::Long)
                } else {
                    self.go(Place::HalfPair(high))
                }
            }
            None => self.after_content(b),
        }
    }

    #[inline]
    fn in_half_pair(&mut self, high: u8, b: u8) -> Advance
        requires place { self.old.place ≡ Place.HalfPair high }
        requires line { reader_line self.old < 2 ^ 32 - 1 }
        ensures { Advances self.old b result self.new }
    {
        match hex_value(b) {
            Some(low) => {
                self.place = Place::Pairs;
                self.bytes.push(high * 16 + low);
                Ok(None)
            }
            None => self.after_content(b),
        }
    }

    fn after_minus(&mut self, b: u8) -> Advance
        requires place { self.old.place ≡ Place.Minus }
        requires line { reader_line self.old < 2 ^ 32 - 1 }
        ensures { Advances self.old b result self.new }
    {
        match b {
            b'1'..=b'9' => self.go(Place::Number(u32::from(b - b'0'))),
            b'0' => self.refuse(TickFault::Count),
            _ => self.after_content(b),
        }
    }

    fn in_number(&mut self, number: u32, b: u8) -> Advance
        requires place { self.old.place ≡ Place.Number number }
        requires line { reader_line self.old < 2 ^ 32 - 1 }
        ensures { Advances self.old b result self.new }
    {
        match b {
            b'0'..=b'9' => {
                let next = u64::from(number) * 10 + u64::from(b - b'0');
                if next <= MAX_SILENCE {
                    self.go(Place::Number(next as u32))
                } else {
                    self.refuse(TickFault::Count)
                }
            }
            _ => self.after_content(b),
        }
    }

    fn after_return(&mut self, content: Content, b: u8) -> Advance
        requires place { self.old.place ≡ Place.Returned content }
        requires line { reader_line self.old < 2 ^ 32 - 1 }
        ensures { Advances self.old b result self.new }
    {
        if b == b'\n' {
            self.end_line()
        } else {
            self.refuse(TickFault::Char)
        }
    }

    /// Moves past one byte, unless the text is refused.
    #[inline]
    pub(crate) fn advance(&mut self, b: u8) -> Advance
        requires { reader_line self.old < 2 ^ 32 - 1 }
        ensures step { Advances self.old b result self.new }
        ensures for_good { (why : TickFault) → self.old.place ≡ Place.Refused why
            → (result ≡ Err why) × (self.new ≡ self.old) }
    {
        match self.place {
            Place::Pairs => self.in_pairs(b),
            Place::HalfPair(high) => self.in_half_pair(high, b),
            Place::Start => self.at_start(b),
            Place::Minus => self.after_minus(b),
            Place::Number(number) => self.in_number(number, b),
            Place::Percent => self.after_content(b),
            Place::Comment(length) => self.in_comment(length, b),
            Place::Returned(content) => self.after_return(content, b),
            Place::Refused(why) => Err(why),
        }
    }

    /// Takes one byte, and returns the run of the line that it ends, or `Nothing`.
    #[inline]
    fn step(&mut self, b: u8) -> Result<Run, BadTicks>
        requires { reader_line self.old < 2 ^ 32 - 1 }
        ensures step { Steps self.old b result self.new }
        ensures for_good { (bad : BadTicks) → HasRefused self.old bad
            → (result ≡ Err bad) × (self.new ≡ self.old) }
    {
        match self.advance(b) {
            Ok(None) => Ok(Run::Nothing),
            Ok(Some(content)) => Ok(content.run(&self.bytes)),
            Err(why) => Err(BadTicks {
                line: self.line,
                why,
            }),
        }
    }

    /// Takes the next byte of the text, and returns the run of the line that this byte ends, or
    /// `Nothing`. After a refusal, each call returns the same refusal.
    #[inline]
    pub fn feed(&mut self, b: u8) -> Result<Run, BadTicks>
        /// Fewer than 2^32 - 1 lines were counted before.
        requires { reader_line self.old < 2 ^ 32 - 1 }
        /// A byte that isn't refused is taken after the text.
        ensures stands { (marks : ℕ) (text : List ℕ) → StandsFor self.old marks text
            → OnOk result (StandsFor self.new marks (text ++ b ∷ [])) }
        /// A byte isn't refused only if some right text begins with the text and this byte.
        ensures begins { (marks : ℕ) (text : List ℕ) → StandsFor self.old marks text
            → OnOk result (BeginsTickText marks (text ++ b ∷ [])) }
        /// The run is that of the line that ended, if one did.
        ensures run { (marks : ℕ) (text : List ℕ) → StandsFor self.old marks text
            → IfOk result (λ run. ended_items (text ++ b ∷ [])
            ≡ ended_items text ++ items_of_run run) }
        /// It is `Nothing` if no line with ticks or a mark ended.
        ensures nothing { IfOk result (λ run. items_of_run run ≡ [] → run ≡ Run.Nothing) }
        /// A byte is refused only if no right text begins with the text and this byte but one with
        /// the text does, and the line and the cause are right.
        ensures refused { (marks : ℕ) (text : List ℕ) → StandsFor self.old marks text
            → IfErr result (λ bad. IsRefusedAfter marks text b
            × (bad.line ≡ line_after text) × (bad.why ≡ fault_after text b)) }
        /// A byte that isn't refused counts a line exactly if it is an LF.
        ensures line { OnOk result (reader_line self.new
            ≡ (if b == line_feed then reader_line self.old + 1 else reader_line self.old)) }
        /// A refused byte counts no line.
        ensures line_kept { OnErr result (reader_line self.new ≡ reader_line self.old) }
        /// At most one line is counted.
        ensures line_by_one { reader_line self.new ≤ reader_line self.old + 1 }
        /// The reader remembers a refusal.
        ensures remembered { IfErr result (λ bad. HasRefused self.new bad) }
        /// After a refusal each call returns it, and changes nothing.
        ensures for_good { (bad : BadTicks) → HasRefused self.old bad
            → (result ≡ Err bad) × (self.new ≡ self.old) }
    {
        self.step(b)
    }

    /// Takes the end of the text, and returns the run of a last line without LF, or `Nothing`.
    pub fn finish(mut self) -> Result<Run, BadTicks>
        /// If the end is taken, the text is right, and represents the items of the lines that had
        /// ended and the run that is returned.
        ensures right { (marks : ℕ) (text : List ℕ) → StandsFor self marks text
            → IfOk result (λ run. IsTickText marks text (ended_items text ++ items_of_run run)) }
        /// It is `Nothing` if the last line has no tick and is no mark.
        ensures nothing { IfOk result (λ run. items_of_run run ≡ [] → run ≡ Run.Nothing) }
        /// If the end is refused, the text isn't right, and the line and the cause are.
        ensures refused { (marks : ℕ) (text : List ℕ) → StandsFor self marks text
            → IfErr result (λ bad. (¬ ((items : List Item) × IsTickText marks text items))
            × (bad.line ≡ line_after text) × (bad.why ≡ fault_at_end text)) }
        /// After a refusal it returns that refusal.
        ensures again { (bad : BadTicks) → HasRefused self bad → result ≡ Err bad }
    {
        self.stop()
    }

    /// Takes the end of the text.
    fn stop(&mut self) -> Result<Run, BadTicks>
        ensures stop { Stops self.old result }
        ensures again { (bad : BadTicks) → HasRefused self.old bad → result ≡ Err bad }
    {
        match self.content() {
            Ok(_) if self.left > 0 => Err(BadTicks {
                line: self.line,
                why: TickFault::Mark,
            }),
            Ok(content) => {
                self.place = Place::Start;
                Ok(content.run(&self.bytes))
            }
            Err(why) => Err(BadTicks {
                line: self.line,
                why,
            }),
        }
    }
}
