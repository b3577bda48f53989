//! Writes words and lines, one after the other.

ghost use Rattle.std.specs.Prelude.{◌≡◌, ◌++◌, ◌∷◌, [], ◌<◌, decimal, OnOk};
ghost use Rattle.text_words.specs.Spelling.{colour_character, count_words, end_lines, placement_word, text_of};

use itoa::Buffer;
use match_limits::MOST_COLOURS;
use match_puzzle::Placement;
use std::alloc::AllocError;

/// Returns the character of a colour: `0` to `9`, then `a` to `z`.
pub fn character(colour: u8) -> u8
    requires { colour < MOST_COLOURS }
    ensures { result ≡ colour_character colour }
{
    if colour < 10 {
        b'0' + colour
    } else {
        b'a' + (colour - 10)
    }
}

/// Returns the character of a colour, for a sentence; `?` for a number of 36 or more.
pub fn letter(colour: u32) -> char {
    if colour < u32::from(MOST_COLOURS) {
        char::from(character(colour as u8))
    } else {
        '?'
    }
}

/// Writes a number in decimal. An error comes where memory is refused.
pub fn put_number(text: &mut Vec<u8>, number: u64) -> Result<(), AllocError>
    ensures { OnOk result (text.new.items ≡ text.old.items ++ decimal number) }
{
    let mut buffer = Buffer::new();
    text.extend_from_slice(buffer.format(number).as_bytes())?;
    Ok(())
}

/// Writes a placement: the tile, a dot and the turn. An error comes where memory is refused.
pub fn put_placement(text: &mut Vec<u8>, placement: Placement) -> Result<(), AllocError>
    ensures { OnOk result (text.new.items ≡ text.old.items ++ placement_word placement) }
{
    put_number(text, u64::from(placement.tile))?;
    text.push(b'.')?;
    put_number(text, u64::from(placement.turn))?;
    Ok(())
}

/// Writes a line of these words and a number after them. An error comes where memory is refused.
#[tactic(auto, unfolding(crate::specs::Spelling::text_of, crate::specs::Spelling::line_text))]
pub fn put_number_line(text: &mut Vec<u8>, words: &[u8], number: u64) -> Result<(), AllocError>
    ensures { OnOk result (text.new.items ≡ text.old.items ++ text_of (count_words words.now number ∷ [])) }
{
    text.extend_from_slice(words)?;
    text.push(b' ')?;
    put_number(text, number)?;
    text.push(b'\n')?;
    Ok(())
}

/// Writes the last line, `end`. An error comes where memory is refused.
#[tactic(auto, unfolding(crate::specs::Spelling::text_of, crate::specs::Spelling::line_text))]
pub fn put_end(text: &mut Vec<u8>) -> Result<(), AllocError>
    ensures { OnOk result (text.new.items ≡ text.old.items ++ text_of end_lines) }
{
    text.extend_from_slice(b"end\n")?;
    Ok(())
}
