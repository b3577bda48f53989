//! What a picture says to who can't see it.

ghost use Rattle.std.specs.Prelude.{◌<◌, All, length};

use match_puzzle::{Arrangement, Placement, Puzzle};
use std::alloc::{AllocError, Global};
use text_words::character;

// What is said first where tiles may not be turned.
fn turns_said(puzzle: &Puzzle) -> &'static str {
    if puzzle.turns() {
        ""
    } else {
        "Tiles may not be turned. "
    }
}

/// Each tile with its colours.
pub fn describe_tiles(alloc: Global, puzzle: &Puzzle) -> Result<String, AllocError> {
    let mut text = String::new(alloc);
    text.push_str(turns_said(puzzle))?;
    text.push_str("Its tiles:")?;
    for tile in puzzle.tiles() {
        text.push(' ')?;
        for side in 0..tile.sides() {
            text.push(char::from(character(tile.shows(0, side))))?;
        }
    }
    Ok(text)
}

/// Each cell's tile with its turns and the colours that it shows.
pub fn describe_arrangement(
    alloc: Global,
    puzzle: &Puzzle,
    placements: &[Placement],
) -> Result<String, AllocError>
    requires { All (λ x. x.tile < length puzzle.now.words) placements.now }
{
    let mut text = String::new(alloc);
    text.push_str(turns_said(puzzle))?;
    text.push_str("By cell the tile, its turns and its colours:")?;
    let mut before = "";
    for placement in placements {
        let Placement { tile, turn } = *placement;
        let word = word_shown(alloc, puzzle, *placement)?;
        let described = format!(in alloc; "{before} {tile}.{turn} {word}")?;
        text.push_str(&described)?;
        before = ",";
    }
    Ok(text)
}

// The colours that the placed tile shows.
fn word_shown(alloc: Global, puzzle: &Puzzle, placement: Placement) -> Result<String, AllocError>
    requires { placement.tile < length puzzle.now.words }
{
    let mut word = String::new(alloc);
    for side in 0..puzzle.board().sides() {
        word.push(char::from(character(puzzle.colour(placement, side))))?;
    }
    Ok(word)
}

/// Each of these arrangements, numbered from `first` on.
pub fn describe_list(
    alloc: Global,
    puzzle: &Puzzle,
    arrangements: &[Arrangement],
    first: u32,
) -> Result<String, AllocError> {
    let mut text = String::new(alloc);
    text.push_str(turns_said(puzzle))?;
    text.push_str("By arrangement and cell the tile and its turns:")?;
    let mut before = " ";
    let mut number = first;
    for arrangement in arrangements {
        let brief = describe_briefly(alloc, number, arrangement.placements())?;
        text.push_str(before)?;
        text.push_str(&brief)?;
        before = ", ";
        number = number.saturating_add(1);
    }
    Ok(text)
}

// Each cell's tile with its turns, of one of several arrangements.
fn describe_briefly(
    alloc: Global,
    number: u32,
    placements: &[Placement],
) -> Result<String, AllocError> {
    let mut text = format!(in alloc; "{number}:")?;
    for placement in placements {
        let Placement { tile, turn } = *placement;
        let described = format!(in alloc; " {tile}.{turn}")?;
        text.push_str(&described)?;
    }
    Ok(text)
}
