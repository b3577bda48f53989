//! Cuts a text into lines, and a line into words.

ghost use Rattle.std.specs.Prelude.{◌≡◌, ◌==◌, ◌+◌, ◌<◌, ◌∷◌, IfSome, length};
ghost use Rattle.std.specs.Option.{option_copied, option_map};
ghost use Rattle.std.specs.List.{position};
ghost use Rattle.text_words.specs.Bytes.{cut_at, words_left, words_of};

use memchr::memchr;

/// What comes before the first LF, and what comes after it. A line may be long, so the search for LF goes by many bytes
/// at a time.
pub fn cut_line(text: &[u8]) -> Option<(&[u8], &[u8])>
    ensures parts { option_map (λ x. (x.0.now, x.1.now)) result ≡ cut_at 10 text.now }
    ensures shorter { IfSome result (λ x. length x.0.now + length x.1.now < length text.now) }
{
    let index = memchr(b'\n', text)?;
    Some((&text[..index], &text[index + 1..]))
}

// The place of the first `at`. It is mostly near: the search goes byte by byte.
#[inline]
fn place_of(bytes: &[u8], at: u8) -> Option<usize>
    ensures { result ≡ position (λ byte. byte == at) bytes.now }
{
    bytes.iter().position(|byte| *byte == at)
}

/// What comes before the first `at`, and what comes after it.
#[inline]
pub fn cut(bytes: &[u8], at: u8) -> Option<(&[u8], &[u8])>
    ensures { option_map (λ x. (x.0.now, x.1.now)) result ≡ cut_at at bytes.now }
{
    let place = place_of(bytes, at)?;
    Some((&bytes[..place], &bytes[place + 1..]))
}

/// The first word of a line, and what comes after the space that ends it.
#[inline]
pub(crate) fn front(line: &[u8]) -> (&[u8], Option<&[u8]>)
    ensures { words_of line.now ≡ result.0.now ∷ words_left (option_copied result.1) }
{
    // Most words of a certificate have one letter.
    if let [letter, b' ', others @ ..] = line
        && *letter != b' '
    {
        return (&line[..1], Some(others));
    }
    match cut(line, b' ') {
        None => (line, None),
        Some((word, others)) => (word, Some(others)),
    }
}

/// What comes after this word and the space that ends it. `None` where the line begins with something else, or ends
/// with the word.
#[inline]
pub(crate) fn after_word<'a>(line: &'a [u8], word: &[u8]) -> Option<&'a [u8]>
    ensures { IfSome result (λ others. words_of line.now ≡ word.now ∷ words_of others.now) }
{
    match line.strip_prefix(word)? {
        [b' ', others @ ..] if place_of(word, b' ').is_none() => Some(others),
        _ => None,
    }
}
