//! Lines of counted parts are read.

ghost use Rattle.std.specs.Prelude.{◌≡◌, ◌<◌, ◌≤◌, ◌^◌, ◌++◌, ◌∷◌, ℕ, List, MatchOption, codes, decimal};
ghost use Rattle.std.specs.Prelude.{◌≢◌};
ghost use Rattle.count_totals.specs.Lines.{IsInRange, IsLine, part_words};
ghost use Rattle.count_totals.specs.declared.lines.CountedPart.{CountedPart};
ghost use Rattle.count_totals.specs.declared.lines.Line.{Line};
ghost use Rattle.count_totals.specs.declared.lines.Line.TheVariants as lines;
ghost use Rattle.hex.specs.Hex.{encode_lower};

use crate::MOST_PARTS;
use crate::lines::{CountedPart, Line, SplitLine};
use hex::FromHex;
use itoa::Buffer;
use std::str;
use text_words::cut;

/// The line that stands there, without its end; none where it is not one that a count of a part prints, to the byte.
pub fn read_line(text: &[u8]) -> Option<Line>
    ensures { MatchOption result ((line : Line) → IsLine text.now line → ⊥) (IsLine text.now) }
{
    if let Some(rest) = behind(text, b"puzzle ") {
        return puzzle_line(rest);
    }
    if let Some(rest) = behind(text, b"split ") {
        return split_line(rest);
    }
    part_line(behind(text, b"part ")?)
}

// What stands behind this word; none where something else stands there.
fn behind<'a>(text: &'a [u8], word: &[u8]) -> Option<&'a [u8]>
    ensures { MatchOption result ((rest : List ℕ) → text.now ≢ word.now ++ rest) (λ rest. text.now ≡ word.now ++ rest.now) }
{
    text.strip_prefix(word)
}

// The line of a puzzle that has this behind its first word.
fn puzzle_line(rest: &[u8]) -> Option<Line>
    ensures { MatchOption result ((line : Line) → IsLine (codes "puzzle " ++ rest.now) line → ⊥)
        (IsLine (codes "puzzle " ++ rest.now)) }
{
    Some(Line::Puzzle(digest(rest)?))
}

// The line of a split that has this behind its first word.
fn split_line(rest: &[u8]) -> Option<Line>
    ensures { MatchOption result ((line : Line) → IsLine (codes "split " ++ rest.now) line → ⊥)
        (IsLine (codes "split " ++ rest.now)) }
{
    let (branches, hash) = two_numbers(rest, b' ')?;
    Some(Line::Split(SplitLine { branches, hash }))
}

// The line of a part that has this behind its first word.
fn part_line(rest: &[u8]) -> Option<Line>
    ensures { MatchOption result ((line : Line) → IsLine (codes "part " ++ rest.now) line → ⊥)
        (IsLine (codes "part " ++ rest.now)) }
{
    Some(Line::Part(part(rest)?))
}

// The digest that stands there, in hexadecimal digits.
fn digest(text: &[u8]) -> Option<[u8; 32]>
    ensures { MatchOption result ((digest : List ℕ) → IsInRange (lines.Puzzle digest) → text.now ≡ encode_lower digest → ⊥)
        (λ digest. text.now ≡ encode_lower digest) }
{
    let Ok(digest) = <[u8; 32] as FromHex>::from_hex(text) else {
        return None;
    };
    let mut digits = [0u8; 64];
    let Ok(()) = hex::encode_to_slice(digest.as_slice(), &mut digits) else {
        return None;
    };
    if text == digits.as_slice() {
        Some(digest)
    } else {
        None
    }
}

// The number that stands there in decimal digits, without a zero before them, up to `most`.
fn number(text: &[u8], most: u64) -> Option<u64>
    ensures { MatchOption result ((n : ℕ) → n ≤ most → text.now ≡ decimal n → ⊥)
        (λ n. (n ≤ most) × (text.now ≡ decimal n)) }
{
    let Ok(digits) = str::from_utf8(text) else {
        return None;
    };
    let Ok(number) = digits.parse::<u64>() else {
        return None;
    };
    let mut buffer = Buffer::new();
    if number > most || buffer.format(number).as_bytes() != text {
        return None;
    }
    Some(number)
}

// Two numbers with this byte between them.
fn two_numbers(text: &[u8], between: u8) -> Option<(u64, u64)>
    requires { between < 48 }
    ensures { MatchOption result
        ((m n : ℕ) → m < 2 ^ 64 → n < 2 ^ 64 → text.now ≡ decimal m ++ between ∷ decimal n → ⊥)
        (λ x. (x.0 < 2 ^ 64) × (x.1 < 2 ^ 64) × (text.now ≡ decimal x.0 ++ between ∷ decimal x.1)) }
{
    let (first, second) = cut(text, between)?;
    Some((number(first, u64::MAX)?, number(second, u64::MAX)?))
}

// The part whose words stand there.
fn part(text: &[u8]) -> Option<CountedPart>
    ensures { MatchOption result
        ((part : CountedPart) → IsInRange (lines.Part part) → text.now ≡ part_words part → ⊥)
        (λ part. IsInRange (lines.Part part) × (text.now ≡ part_words part)) }
{
    let (word, rest) = cut(text, b' ')?;
    let (number_in, parts) = two_numbers(word, b'/')?;
    if number_in == 0 || number_in > parts || parts > u64::from(MOST_PARTS) {
        return None;
    }
    let count = behind(rest, b"arrangements ")?;
    Some(CountedPart {
        number: number_in as u32,
        parts: parts as u32,
        count: number(count, u64::MAX)?,
    })
}
