//! The reader of a key's text: 32 to 128 hex digits, and at most one line ending.
ghost use Rattle.std.specs.Prelude.{◌≡◌, ◌⊎◌, ℕ, ◌%◌, ◌≤◌, List, length, take, slice_index, true};
ghost use Rattle.std.specs.Prelude.{false, Ok, OnErr, IfOk, IfErr};
ghost use Rattle.std.specs.List.{AllPass};
ghost use Rattle.hex.specs.Hex.{decode_of, is_hex_digit};
ghost use Rattle.yasir_io.specs.Causes.{HasCause};
ghost use Rattle.command_ends.specs.declared.key_text.KeyError.TheVariants.{Fault, Bad};
ghost use Rattle.command_ends.specs.KeyText.{IsKeyMet, IsCutShort, IsKeyText, IsNoKey, IsKeyEnding};
ghost use Rattle.command_ends.specs.KeyText.{IsLongestFront, BeginsEnding, KeyCause};

use arrayvec::ArrayVec;
use yasir_io::{Failed, Source};

/// A key of the program: 16 to 64 bytes, if `read_key` returned it.
pub type Key = ArrayVec<u8, 64>;

/// Why no key was read.
#[derive(Clone, Copy, Debug, PartialEq, Eq)]
pub enum KeyError {
    /// A read failed.
    Fault,
    /// The text isn't a key text. `place` is the length of its longest front that begins some key
    /// text.
    Bad { place: u32 },
}

/// How many bytes of a source are read at most: one more than the longest key text has.
const MAX_TEXT: usize = 131;

/// What was read of a source.
type KeyText = ArrayVec<u8, MAX_TEXT>;

/// How many digits a key has at least.
const MIN_DIGITS: usize = 32;

/// How many digits a key has at most.
const MAX_DIGITS: usize = 128;

// Returns these bytes as a text.
fn text_of(bytes: &[u8]) -> KeyText
    requires { length bytes.now ≤ 131 }
    ensures { result.items ≡ bytes.now }
{
    let mut text = KeyText::new();
    text.try_extend_from_slice(bytes).unwrap();
    text
}

// Reads the text of a source: its bytes up to the end, or the first 131. No byte after these is
// taken.
fn read_text<K: Source>(source: &mut K) -> Result<KeyText, Failed>
    ensures met { IfOk result (λ text. IsKeyMet (K.left source.old) (K.left source.new)
        text.items) }
    ensures cut { OnErr result (IsCutShort (K.left source.old) (K.left source.new)) }
    ensures cause { HasCause (K.faults source.old) (K.faults source.new) result }
{
    let mut bytes = [0u8; MAX_TEXT];
    let mut len = 0;
    while len < MAX_TEXT {
        let n = source.read(&mut bytes[len..])?;
        if n == 0 {
            return Ok(text_of(&bytes[..len]));
        }
        len += n;
    }
    Ok(text_of(&bytes))
}

// Returns how many hex digits are at the front of a text, at most as many as the longest key has.
fn digit_count(text: &[u8]) -> usize
    ensures within { result ≤ length text.now }
    ensures few { result ≤ 128 }
    ensures digits { AllPass is_hex_digit (take result text.now) }
    ensures stops { (result ≡ length text.now)
        ⊎ ((result ≡ 128) ⊎ (is_hex_digit (slice_index text.now result) ≡ false)) }
{
    let most = text.len().min(MAX_DIGITS);
    for place in 0..most {
        if !text[place].is_ascii_hexdigit() {
            return place;
        }
    }
    most
}

// Returns how many bytes at the front of these begin some ending.
fn begun_ending(following: &[u8]) -> usize
    ensures { IsLongestFront BeginsEnding following.now result }
{
    if following.is_empty() {
        return 0;
    }
    if following[0] == b'\n' {
        return 1;
    }
    if following[0] != b'\r' {
        return 0;
    }
    if following.len() == 1 {
        return 1;
    }
    if following[1] == b'\n' { 2 } else { 1 }
}

fn is_ending(following: &[u8]) -> bool
    ensures yes { result ≡ true → IsKeyEnding following.now }
    ensures no { result ≡ false → IsKeyEnding following.now → ⊥ }
{
    if following.is_empty() {
        return true;
    }
    if following == b"\n".as_slice() {
        return true;
    }
    following == b"\r\n".as_slice()
}

// Returns the bytes that the digits of a key spell.
fn decode(digits: &[u8]) -> Key
    requires digits { AllPass is_hex_digit digits.now }
    requires even { length digits.now % 2 ≡ 0 }
    requires few { length digits.now ≤ 128 }
    ensures { decode_of digits.now ≡ Ok result.items }
{
    let mut bytes = [0u8; MAX_DIGITS / 2];
    let spelled = &mut bytes[..digits.len() / 2];
    hex::decode_to_slice(digits, spelled).unwrap();
    let mut key = Key::new();
    key.try_extend_from_slice(spelled).unwrap();
    key
}

// Returns the key of a key text, or the place at which a text that isn't one is refused.
fn key_of(text: &[u8]) -> Result<Key, u32>
    requires { length text.now ≤ 131 }
    ensures key { IfOk result (λ key. IsKeyText text.now key.items) }
    ensures bad { IfErr result (λ place. IsNoKey text.now place) }
{
    let count = digit_count(text);
    let (digits, following) = text.split_at(count);
    if count < MIN_DIGITS || count % 2 == 1 {
        return Err(count as u32);
    }
    if !is_ending(following) {
        return Err((count + begun_ending(following)) as u32);
    }
    Ok(decode(digits))
}

/// Reads the key text of a source: its bytes up to the end, or the first 131. No byte after these
/// is taken. A key text is an even count of hex digits of either case, 32 to 128, followed by
/// nothing, LF, or CR LF, as the profile says.
pub fn read_key<K: Source>(source: &mut K) -> Result<Key, KeyError>
    /// The key is that of the text that was met: all that the source had left, or its first 131
    /// bytes.
    ensures key { IfOk result (λ key. (text : List ℕ)
        × IsKeyMet (K.left source.old) (K.left source.new) text × IsKeyText text key.items) }
    /// If the text is refused, it is no key text, and the place is the length of its longest
    /// beginning that begins a key text.
    ensures bad { IfErr result (λ error. (place : ℕ) → error ≡ Bad place → (text : List ℕ)
        × IsKeyMet (K.left source.old) (K.left source.new) text × IsNoKey text place) }
    /// A read that fails is the last one, and fewer than 131 bytes were taken before.
    ensures fault { IfErr result (λ error. error ≡ Fault
        → IsCutShort (K.left source.old) (K.left source.new)) }
    /// The source's count of faults rose if a read failed, and is as it was otherwise.
    ensures cause { KeyCause (K.faults source.old) (K.faults source.new) result }
    /// The source's count of faults never falls.
    ensures never_falls { K.faults source.old ≤ K.faults source.new }
{
    let text = match read_text(source) {
        Ok(text) => text,
        Err(Failed) => return Err(KeyError::Fault),
    };
    match key_of(text.as_slice()) {
        Ok(key) => Ok(key),
        Err(place) => Err(KeyError::Bad { place }),
    }
}
