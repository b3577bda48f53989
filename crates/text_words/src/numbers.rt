//! Numbers of decimal digits.

ghost use Rattle.std.specs.Prelude.{◌≡◌, ◌+◌, ◌++◌, ◌<◌, ◌≤◌, ◌^◌, ◌∷◌, ℕ, List, false, min, true};
ghost use Rattle.std.specs.Prelude.{IfErr, IfOk, IfSome, OnOk};
ghost use Rattle.std.specs.Str.Parse.{digits_value};
ghost use Rattle.text_words.specs.Bytes.{words_of};
ghost use Rattle.text_words.specs.PlainWords.{Judges, is_number, number_in};

use crate::faults::TextKind;

// What a number says, or `ceiling` where that is more. Number, where the word is none.
fn number_up_to(word: &[u8], ceiling: u32) -> Result<u32, TextKind>
    ensures number { OnOk result (is_number word.now ≡ true) }
    ensures value { IfOk result (λ n. n ≡ min (digits_value 10 word.now) ceiling) }
    ensures other { IfErr result (λ kind. (is_number word.now ≡ false) × (kind ≡ TextKind.Number)) }
{
    if word.is_empty() || (word[0] == b'0' && word.len() > 1) {
        return Err(TextKind::Number);
    }
    let mut value = 0u64;
    for byte in word {
        if !byte.is_ascii_digit() {
            return Err(TextKind::Number);
        }
        value = (value * 10 + u64::from(*byte - b'0')).min(u64::from(ceiling));
    }
    Ok(value as u32)
}

/// A number from `least` to `most`. An `Err` is `Limit` where it is outside, however many digits it has.
#[tactic(auto, unfolding(crate::specs::PlainWords::number_in))]
pub(crate) fn number_word(word: &[u8], least: u32, most: u32) -> Result<u32, TextKind>
    requires { most + 1 < 2 ^ 32 }
    ensures within { IfOk result (λ n. (least ≤ n) × (n ≤ most)) }
    ensures judges { Judges (λ n. n) result (number_in least most word.now) }
{
    let value = number_up_to(word, most + 1)?;
    if value < least || value > most {
        return Err(TextKind::Limit);
    }
    Ok(value)
}

/// The number of one or two digits that bytes begin with, and what comes after it. `None` where they begin with
/// something else.
#[inline]
pub(crate) fn short_digits(bytes: &[u8]) -> Option<(u8, &[u8])>
    ensures digits { IfSome result (λ x. (word : List ℕ) × (bytes.now ≡ word ++ x.1.now)
        × (is_number word ≡ true) × (digits_value 10 word ≡ x.0)) }
    ensures small { IfSome result (λ x. x.0 < 100) }
{
    if let [tens @ b'1'..=b'9', ones @ b'0'..=b'9', after @ ..] = bytes {
        return Some(((tens - b'0') * 10 + (ones - b'0'), after));
    }
    if let [ones @ b'0'..=b'9', after @ ..] = bytes {
        return Some((ones - b'0', after));
    }
    None
}

/// The number of one or two digits that a line begins with, and what comes after the space that ends it. `None` where
/// the line begins with something else, or ends with the number.
#[inline]
pub(crate) fn short_number(line: &[u8]) -> Option<(u32, &[u8])>
    ensures { IfSome result (λ x. (word : List ℕ) × (words_of line.now ≡ word ∷ words_of x.1.now)
        × (is_number word ≡ true) × (digits_value 10 word ≡ x.0)) }
{
    let (number, after) = short_digits(line)?;
    let [b' ', others @ ..] = after else {
        return None;
    };
    Some((u32::from(number), others))
}
