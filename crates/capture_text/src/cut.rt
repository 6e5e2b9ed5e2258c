//! Parts of a line: before and after a byte, after a literal, within quotes.
ghost use Rattle.std.specs.Prelude.{◌≡◌, ◌<◌, length, IfSome};
ghost use Rattle.capture_text.specs.Parts.{place_of_part, front, behind, skip, unquoted};

use memchr::memchr;

/// Returns the first place of a byte in a text, or `None` if it isn't there.
#[inline]
pub fn place_of(byte: u8, text: &[u8]) -> Option<usize>
    ensures place { result ≡ place_of_part byte text.now }
    ensures within { IfSome result (λ k. k < length text.now) }
{
    memchr(byte, text)
}

/// Returns what comes before the first such byte, or the whole text if there is none.
pub fn front(byte: u8, text: &[u8]) -> &[u8]
    ensures { result.now ≡ front byte text.now }
{
    match place_of(byte, text) {
        Some(at) => &text[..at],
        None => text,
    }
}

/// Returns what comes after the first such byte, or nothing if there is none.
pub fn behind(byte: u8, text: &[u8]) -> &[u8]
    ensures { result.now ≡ behind byte text.now }
{
    match place_of(byte, text) {
        Some(at) => &text[at + 1..],
        None => &text[text.len()..],
    }
}

/// Returns what comes after a literal at the start of a text, or nothing if the text doesn't start
/// with it.
pub fn skip<'t>(literal: &[u8], text: &'t [u8]) -> &'t [u8]
    ensures { result.now ≡ skip literal.now text.now }
{
    if text.len() < literal.len() {
        return &text[text.len()..];
    }
    if &text[..literal.len()] == literal {
        &text[literal.len()..]
    } else {
        &text[text.len()..]
    }
}

/// Returns a text without the quotes around it, if it has both.
pub fn unquoted(text: &[u8]) -> &[u8]
    ensures { result.now ≡ unquoted text.now }
{
    if text.len() < 2 {
        return text;
    }
    if text[0] != b'"' {
        return text;
    }
    if text[text.len() - 1] != b'"' {
        return text;
    }
    &text[1..text.len() - 1]
}
