//! The words of the program: what it is asked to do.
ghost use Rattle.std.specs.Prelude.{◌≡◌, ℕ, List, [], ◌∷◌, ◌++◌, IfOk, OnErr, map, codes};
ghost use Rattle.std.specs.String.{string_bytes};
ghost use Rattle.line_stamps.specs.RateWords.{rate_word};
ghost use Rattle.line_stamps.specs.declared.rate.Rate.{Rate};
ghost use Rattle.line_stamps.specs.declared.timing.Spacing.{Spacing};
ghost use Rattle.line_stamps.specs.declared.timing.Spacing.TheVariants.{ByTime, ByRecord};
ghost use Rattle.line_capture.specs.declared.words.Command.{Command};
ghost use Rattle.line_capture.specs.declared.words.GiveForm.{GiveForm};
ghost use Rattle.line_capture.specs.declared.words.TakeForm.{TakeForm};
ghost use Rattle.line_capture.specs.declared.words.Ways.{Ways};
ghost use Rattle.line_capture.specs.Words.{IsCaptureCommand, take_form_word, give_form_word, ways_word};

use line_stamps::{Rate, Spacing};

/// The form of a capture that is read.
#[derive(Clone, Copy, Debug, PartialEq, Eq)]
pub enum TakeForm {
    /// A pcap or pcapng file of link type 250 (RTAC serial).
    Pcap,
    /// Lines of a time in seconds and the bytes of a record in hex digits.
    Text,
    /// The table that Saleae Logic 2 exports of its Async Serial analyzers.
    Logic2,
    /// The trace that sigrok-cli writes of its UART decoder.
    Sigrok,
}

/// The form of a capture that is written.
#[derive(Clone, Copy, Debug, PartialEq, Eq)]
pub enum GiveForm {
    /// A pcap file of link type 250 (RTAC serial), with times in nanoseconds.
    Pcap,
    /// Lines of a time in seconds and the bytes of a record in hex digits, of one way.
    Text,
    /// The levels of a line's wires, as a value change dump.
    Vcd,
}

/// Which ways of a line are taken.
#[derive(Clone, Copy, Debug, PartialEq, Eq)]
pub enum Ways {
    /// Way A only.
    A,
    /// Way B only.
    B,
    /// Both, way A first, with a mark between them.
    Both,
}

/// What the program is asked to do.
#[derive(Clone, Copy, Debug, PartialEq, Eq)]
pub enum Command {
    /// To read a capture and write tick text.
    Take {
        form: TakeForm,
        rate: Rate,
        ways: Ways,
        spacing: Spacing,
    },
    /// To read tick text and write a capture.
    Give {
        form: GiveForm,
        rate: Rate,
    },
    /// To print the page that lists the program's words.
    Help,
    /// To print the program's name and version.
    Version,
}

/// The words ask for no command.
#[derive(Clone, Copy, Debug, PartialEq, Eq)]
pub struct Usage;

// Returns the command that one word asks for.
fn read_one(word: &str) -> Result<Command, Usage>
    ensures ok { IfOk result (λ command. IsCaptureCommand (word.now ∷ []) command) }
    ensures usage { OnErr result ((command : Command)
        → IsCaptureCommand (word.now ∷ []) command → ⊥) }
{
    match word {
        "help" | "--help" | "-h" => Ok(Command::Help),
        "version" | "--version" => Ok(Command::Version),
        _ => Err(Usage),
    }
}

// Returns the form to take that a word names.
fn read_take_form(word: &str) -> Result<TakeForm, Usage>
    ensures ok { IfOk result (λ form. word.now ≡ take_form_word form) }
    ensures usage { OnErr result ((form : TakeForm) → word.now ≡ take_form_word form → ⊥) }
{
    match word {
        "pcap" => Ok(TakeForm::Pcap),
        "text" => Ok(TakeForm::Text),
        "logic2" => Ok(TakeForm::Logic2),
        "sigrok" => Ok(TakeForm::Sigrok),
        _ => Err(Usage),
    }
}

// Returns the form to give that a word names.
fn read_give_form(word: &str) -> Result<GiveForm, Usage>
    ensures ok { IfOk result (λ form. word.now ≡ give_form_word form) }
    ensures usage { OnErr result ((form : GiveForm) → word.now ≡ give_form_word form → ⊥) }
{
    match word {
        "pcap" => Ok(GiveForm::Pcap),
        "text" => Ok(GiveForm::Text),
        "vcd" => Ok(GiveForm::Vcd),
        _ => Err(Usage),
    }
}

// Returns the ways that a word names.
fn read_ways(word: &str) -> Result<Ways, Usage>
    ensures ok { IfOk result (λ ways. word.now ≡ ways_word ways) }
    ensures usage { OnErr result ((ways : Ways) → word.now ≡ ways_word ways → ⊥) }
{
    match word {
        "a" => Ok(Ways::A),
        "b" => Ok(Ways::B),
        "both" => Ok(Ways::Both),
        _ => Err(Usage),
    }
}

// Returns the rate that a word spells.
fn read_rate(word: &str) -> Result<Rate, Usage>
    ensures ok { IfOk result (λ rate. word.now ≡ rate_word rate) }
    ensures usage { OnErr result ((rate : Rate) → word.now ≡ rate_word rate → ⊥) }
{
    match Rate::read(word) {
        Some(rate) => Ok(rate),
        None => Err(Usage),
    }
}

// Returns what the three words after `take` name.
fn read_taken(form: &str, rate: &str, ways: &str) -> Result<(TakeForm, Rate, Ways), Usage>
    ensures form { IfOk result (λ taken. form.now ≡ take_form_word taken.0) }
    ensures rate { IfOk result (λ taken. rate.now ≡ rate_word taken.1) }
    ensures ways { IfOk result (λ taken. ways.now ≡ ways_word taken.2) }
    ensures usage { OnErr result ((f : TakeForm) (r : Rate) (w : Ways)
        → form.now ≡ take_form_word f → rate.now ≡ rate_word r → ways.now ≡ ways_word w → ⊥) }
{
    let form = read_take_form(form)?;
    let rate = read_rate(rate)?;
    let ways = read_ways(ways)?;
    Ok((form, rate, ways))
}

// Returns the command that three words ask for.
fn read_three(verb: &str, form: &str, rate: &str) -> Result<Command, Usage>
    ensures ok { IfOk result (λ command.
        IsCaptureCommand (verb.now ∷ form.now ∷ rate.now ∷ []) command) }
    ensures usage { OnErr result ((command : Command)
        → IsCaptureCommand (verb.now ∷ form.now ∷ rate.now ∷ []) command → ⊥) }
{
    if verb != "give" {
        return Err(Usage);
    }
    let form = match read_give_form(form) {
        Ok(form) => form,
        Err(Usage) => return Err(Usage),
    };
    match read_rate(rate) {
        Ok(rate) => Ok(Command::Give { form, rate }),
        Err(Usage) => Err(Usage),
    }
}

// Returns the command that four words ask for.
fn read_four(verb: &str, form: &str, rate: &str, ways: &str) -> Result<Command, Usage>
    ensures ok { IfOk result (λ command.
        IsCaptureCommand (verb.now ∷ form.now ∷ rate.now ∷ ways.now ∷ []) command) }
    ensures usage { OnErr result ((command : Command)
        → IsCaptureCommand (verb.now ∷ form.now ∷ rate.now ∷ ways.now ∷ []) command → ⊥) }
{
    if verb != "take" {
        return Err(Usage);
    }
    let spacing = Spacing::ByTime;
    match read_taken(form, rate, ways) {
        Ok((form, rate, ways)) => Ok(Command::Take {
            form,
            rate,
            ways,
            spacing,
        }),
        Err(Usage) => Err(Usage),
    }
}

// Returns the command that five words ask for.
fn read_five(verb: &str, form: &str, rate: &str, ways: &str, last: &str) -> Result<Command, Usage>
    ensures ok { IfOk result (λ command.
        IsCaptureCommand (verb.now ∷ form.now ∷ rate.now ∷ ways.now ∷ last.now ∷ []) command) }
    ensures usage { OnErr result ((command : Command)
        → IsCaptureCommand (verb.now ∷ form.now ∷ rate.now ∷ ways.now ∷ last.now ∷ []) command → ⊥) }
{
    if verb != "take" {
        return Err(Usage);
    }
    if last != "frames" {
        return Err(Usage);
    }
    let spacing = Spacing::ByRecord;
    match read_taken(form, rate, ways) {
        Ok((form, rate, ways)) => Ok(Command::Take {
            form,
            rate,
            ways,
            spacing,
        }),
        Err(Usage) => Err(Usage),
    }
}

/// Returns the command that the words after the program's name ask for. Words are compared byte for
/// byte.
pub fn read_words(words: &[String]) -> Result<Command, Usage>
    /// The words ask for the command that is returned.
    ensures ok { IfOk result (λ command. IsCaptureCommand (map string_bytes words.now) command) }
    /// If `Usage` is returned, the words ask for no command.
    ensures usage { OnErr result ((command : Command)
        → IsCaptureCommand (map string_bytes words.now) command → ⊥) }
{
    match words {
        [word] => read_one(word.as_str()),
        [verb, form, rate] => read_three(verb.as_str(), form.as_str(), rate.as_str()),
        [verb, form, rate, ways] => {
            read_four(verb.as_str(), form.as_str(), rate.as_str(), ways.as_str())
        }
        [verb, form, rate, ways, last] => read_five(
            verb.as_str(),
            form.as_str(),
            rate.as_str(),
            ways.as_str(),
            last.as_str(),
        ),
        _ => Err(Usage),
    }
}
