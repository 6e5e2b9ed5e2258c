//! The word of a rate, such as `9600x11`.

ghost use Rattle.std.specs.Prelude.{◌≡◌, ◌≢◌, ◌<◌, ◌≤◌, ◌^◌, ℕ, List, [], ◌∷◌, ◌++◌, IfSome};
ghost use Rattle.std.specs.Prelude.{IfNone};
ghost use Rattle.std.specs.Prelude.{decimal};
ghost use Rattle.line_stamps.specs.declared.rate.Rate.{Rate};
ghost use Rattle.line_stamps.specs.RateWords.{rate_word};

use crate::rate::{FASTEST, Rate, SLOWEST};

// Returns what comes before the last letter of a word, if it ends with this letter.
fn in_front_of(word: &str, letter: char) -> Option<&str>
    requires { letter < 128 }
    ensures some { IfSome result (λ x. word.now ≡ x.now ++ letter ∷ []) }
    ensures none { IfNone result ((front : List ℕ) → word.now ≢ front ++ letter ∷ []) }
{
    word.strip_suffix(letter)
}

// Returns the number that a word spells in decimal digits without a leading zero, if it spells one.
fn number_in(word: &str) -> Option<u32>
    ensures some { IfSome result (λ n. word.now ≡ decimal n) }
    ensures none { IfNone result ((n : ℕ) → n < 2 ^ 32 → word.now ≡ decimal n → ⊥) }
{
    let Ok(n) = word.parse::<u32>() else {
        return None;
    };
    // `parse` also reads other texts as this number
    let mut digits = itoa::Buffer::new();
    if digits.format(n) == word {
        Some(n)
    } else {
        None
    }
}

// Returns what comes before `x1` and this digit in a word that ends with them.
fn baud_word(word: &str, digit: char) -> Option<&str>
    requires { digit < 128 }
    ensures some { IfSome result (λ x. word.now ≡ x.now ++ 120 ∷ 49 ∷ digit ∷ []) }
    ensures none { IfNone result
        ((front : List ℕ) → word.now ≢ front ++ 120 ∷ 49 ∷ digit ∷ []) }
{
    let Some(longer) = in_front_of(word, digit) else {
        return None;
    };
    let Some(shorter) = in_front_of(longer, '1') else {
        return None;
    };
    in_front_of(shorter, 'x')
}

// Returns the rate with the baud that a word spells and with these bits, if there is one.
fn rate_of(baud: &str, bits: u8) -> Option<Rate>
    requires fewest { 10 ≤ bits }
    requires most { bits ≤ 11 }
    ensures baud { IfSome result (λ rate. baud.now ≡ decimal rate.baud) }
    ensures bits { IfSome result (λ rate. rate.bits ≡ bits) }
    ensures none { IfNone result
        ((n : ℕ) → 300 ≤ n → n ≤ 115200 → baud.now ≡ decimal n → ⊥) }
{
    let baud = number_in(baud)?;
    if baud < SLOWEST {
        return None;
    }
    if baud > FASTEST {
        return None;
    }
    Some(Rate { baud, bits })
}

impl Rate {
    /// Returns the rate that a word spells, if it spells one: the baud in decimal digits without a
    /// leading zero, an `x`, and the bits of a character.
    pub fn read(word: &str) -> Option<Rate>
        /// The word spells the rate that is returned.
        ensures some { IfSome result (λ rate. word.now ≡ rate_word rate) }
        /// If none is returned, the word spells no rate.
        ensures none { IfNone result ((rate : Rate) → word.now ≢ rate_word rate) }
    {
        if let Some(baud) = baud_word(word, '0') {
            return rate_of(baud, 10);
        }
        let Some(baud) = baud_word(word, '1') else {
            return None;
        };
        rate_of(baud, 11)
    }
}
