//! Judges single words of puzzles: returns their value, or what is wrong with them.

ghost use Rattle.std.specs.Prelude.{◌≡◌, ◌<◌, ◌∷◌, [], ◌⊎◌, ℕ, List, All, IfOk, IfSome, Ok, map, take};
ghost use Rattle.std.specs.List.{list_all, AllByRecursion};
ghost use Rattle.match_board.specs.Tile.{word as tile_colours};
ghost use Rattle.match_limits.specs.declared.ranges.Ranges.{Ranges as RangesOf};
ghost use Rattle.match_limits.specs.Ranges.{AreRanges};
ghost use Rattle.text_words.specs.Bytes.{words_of};
ghost use Rattle.text_words.specs.PlainWords.{Judges, or_word};
ghost use Rattle.text_words.specs.Words.{colour_in, colour_of, colours_in, is_cell, is_mark, marks_in};
ghost use Rattle.text_words.specs.Words.{clue_in, clue_with, pair_in, placement_in, rule_in, tile_in};
ghost use Rattle.text_words.specs.Within.{IsRuleWithin};
ghost use Rattle.match_board.specs.Clues.{clue_of};

use crate::cuts::cut;
use crate::faults::TextKind;
use crate::numbers::{number_word, short_digits};
use match_board::{Clue, Tile};
use match_limits::{LAST_TURN, MOST_COLOURS, Ranges, SIDES};
use match_puzzle::{Pair, Placement};

// The colour with this character.
fn colour(character: u8) -> Result<u8, TextKind>
    ensures judges { Judges (λ n. n) result (or_word (colour_of character)) }
    ensures few { IfOk result (λ n. n < MOST_COLOURS) }
{
    match character {
        b'0'..=b'9' => Ok(character - b'0'),
        b'a'..=b'z' => Ok(character - b'a' + 10),
        _ => Err(TextKind::Word),
    }
}

/// Reads a colour, 0 to 35.
#[tactic(auto, unfolding(crate::specs::Words::colour_in))]
pub fn colour_word(word: &[u8]) -> Result<u8, TextKind>
    ensures judges { Judges (λ n. n) result (colour_in word.now) }
    ensures few { IfOk result (λ n. n < MOST_COLOURS) }
{
    match word {
        [character] => colour(*character),
        _ => Err(TextKind::Word),
    }
}

fn are_marks(word: &[u8]) -> bool
    ensures { result ≡ list_all is_mark word.now }
{
    word.iter().all(|byte| *byte == b'#' || *byte == b'.')
}

/// Checks a row of a shape: `width` characters, each `#` for a cell or `.` for a place without one. `Word` comes where
/// it is anything else.
#[tactic(auto, unfolding(crate::specs::Words::marks_in))]
pub fn row_word(word: &[u8], width: u16) -> Result<(), TextKind>
    ensures { Judges (λ _. map is_cell word.now) result (marks_in width word.now) }
{
    if word.len() != usize::from(width) {
        return Err(TextKind::Word);
    }
    if !are_marks(word) {
        return Err(TextKind::Word);
    }
    Ok(())
}

/// Reads what is asked of a border pair: a colour, or nothing (`-`).
#[tactic(auto, unfolding(crate::specs::Words::rule_in))]
pub fn rule_word(word: &[u8]) -> Result<Option<u8>, TextKind>
    ensures { Judges (λ rule. rule) result (rule_in word.now) }
{
    if word == b"-".as_slice() {
        return Ok(None);
    }
    Ok(Some(colour_word(word)?))
}

// The tile with these colours.
fn tile_of(colours: [u8; 4], sides: u8) -> Tile
    requires sides { (sides ≡ 3) ⊎ (sides ≡ 4) }
    requires colours { All (λ c. c < MOST_COLOURS) (take sides colours) }
    ensures { tile_colours result ≡ take sides colours }
{
    let Ok(tile) = Tile::new(colours, sides) else {
        unreachable!();
    };
    tile
}

// A tile of three sides, or of four.
fn triangle(characters: [u8; 3]) -> Result<Tile, TextKind>
    ensures { Judges tile_colours result (colours_in characters) }
{
    let [first, second, third] = characters;
    let colours = [colour(first)?, colour(second)?, colour(third)?, 0];
    Ok(tile_of(colours, 3))
}

fn square(characters: [u8; 4]) -> Result<Tile, TextKind>
    ensures { Judges tile_colours result (colours_in characters) }
{
    let [first, second, third, fourth] = characters;
    let colours = [
        colour(first)?,
        colour(second)?,
        colour(third)?,
        colour(fourth)?,
    ];
    Ok(tile_of(colours, 4))
}

/// Reads a tile's three or four colours, a character for each side.
#[tactic(auto, unfolding(crate::specs::Words::tile_in))]
pub fn tile_word(word: &[u8]) -> Result<Tile, TextKind>
    ensures { Judges tile_colours result (tile_in word.now) }
{
    match word {
        [first, second, third] => triangle([*first, *second, *third]),
        [first, second, third, fourth] => square([*first, *second, *third, *fourth]),
        _ => Err(TextKind::Word),
    }
}

// What a character asks of a side: a colour, or nothing.
#[tactic(auto, unfolding(crate::specs::Words::rule_in, crate::specs::Words::colour_in))]
fn ask(character: u8) -> Result<Option<u8>, TextKind>
    ensures judges { Judges (λ rule. rule) result (rule_in (character ∷ [])) }
    ensures few { IfOk result IsRuleWithin }
{
    match character {
        b'-' => Ok(None),
        _ => Ok(Some(colour(character)?)),
    }
}

// The clue that asks the first `sides` of these of a cell.
fn clue_asking(cell: u16, asks: [Option<u8>; SIDES], sides: u8) -> Clue
    requires sides { (sides ≡ 3) ⊎ (sides ≡ 4) }
    requires asks { AllByRecursion IsRuleWithin (take sides asks) }
    ensures { clue_of result ≡ record { cell = cell; asks = take sides asks } }
{
    let Ok(clue) = Clue::new(cell, asks, sides) else {
        unreachable!();
    };
    clue
}

// A clue of three sides, or of four.
#[tactic(auto, unfolding(crate::specs::Words::clue_with))]
fn triangle_clue(cell: u16, characters: [u8; 3]) -> Result<Clue, TextKind>
    ensures { Judges clue_of result (clue_with cell characters) }
{
    let [first, second, third] = characters;
    let asks = [ask(first)?, ask(second)?, ask(third)?, None];
    Ok(clue_asking(cell, asks, 3))
}

#[tactic(auto, unfolding(crate::specs::Words::clue_with))]
fn square_clue(cell: u16, characters: [u8; 4]) -> Result<Clue, TextKind>
    ensures { Judges clue_of result (clue_with cell characters) }
{
    let [first, second, third, fourth] = characters;
    let asks = [ask(first)?, ask(second)?, ask(third)?, ask(fourth)?];
    Ok(clue_asking(cell, asks, 4))
}

/// Reads a clue of a cell: what is asked of its three or four sides, a character for each.
#[tactic(auto, unfolding(crate::specs::Words::clue_in))]
pub fn clue_word(word: &[u8], cell: u16) -> Result<Clue, TextKind>
    ensures { Judges clue_of result (clue_in cell word.now) }
{
    match word {
        [first, second, third] => triangle_clue(cell, [*first, *second, *third]),
        [first, second, third, fourth] => square_clue(cell, [*first, *second, *third, *fourth]),
        _ => Err(TextKind::Word),
    }
}

/// Reads a tile and its turn, with a dot between.
#[tactic(auto, unfolding(crate::specs::Words::placement_in))]
pub fn placement_word(word: &[u8], ranges: &Ranges) -> Result<Placement, TextKind>
    ensures { Judges (λ p. p) result (placement_in ranges.now word.now) }
{
    let Some((tile, turn)) = cut(word, b'.') else {
        return Err(TextKind::Word);
    };
    let tile = number_word(tile, 0, u32::from(ranges.last_cell))? as u16;
    let turn = number_word(turn, 0, u32::from(LAST_TURN))? as u8;
    Ok(Placement { tile, turn })
}

/// Returns the placement that the line begins with, of a tile below 100, and what follows the space that ends it. Such
/// a tile is in every range. `None` where the line begins with something else, or ends after the placement.
#[inline]
pub fn short_placement(line: &[u8]) -> Option<(Placement, &[u8])>
    ensures { IfSome result (λ x. (word : List ℕ) × (words_of line.now ≡ word ∷ words_of x.1.now)
        × ((ranges : RangesOf) → AreRanges ranges → placement_in ranges word ≡ Ok x.0)) }
{
    let (tile, after) = short_digits(line)?;
    let [b'.', turn @ b'0'..=b'3', b' ', others @ ..] = after else {
        return None;
    };
    let placement = Placement {
        tile: u16::from(tile),
        turn: turn - b'0',
    };
    Some((placement, others))
}

/// Reads a cell and a placement there, with a colon between.
#[tactic(auto, unfolding(crate::specs::Words::pair_in))]
pub fn pair_word(word: &[u8], ranges: &Ranges) -> Result<Pair, TextKind>
    ensures { Judges (λ p. p) result (pair_in ranges.now word.now) }
{
    let Some((cell, placed)) = cut(word, b':') else {
        return Err(TextKind::Word);
    };
    let Some((tile, turn)) = cut(placed, b'.') else {
        return Err(TextKind::Word);
    };
    let last = u32::from(ranges.last_cell);
    let cell = number_word(cell, 0, last)? as u16;
    let tile = number_word(tile, 0, last)? as u16;
    let turn = number_word(turn, 0, u32::from(LAST_TURN))? as u8;
    Ok(Pair {
        cell,
        placement: Placement { tile, turn },
    })
}
