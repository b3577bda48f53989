//! How an arrangement is printed.

ghost use Rattle.std.specs.Prelude.{◌≡◌, ◌<◌, ◌++◌, IfOk, OnOk, length};
ghost use Rattle.match_puzzle.specs.Arrangement.{IsArrangement};
ghost use Rattle.text_words.specs.Spelling.{line_text, tile_word};
ghost use Rattle.match_report.specs.BoardText.{colours_shown, cell_words, board_text};

use match_puzzle::{Placement, Puzzle};
use std::alloc::{AllocError, Global};
use text_words::{character, put_number, put_placement};

// The colours that the placed tile shows, as a tile's word.
fn put_shown(text: &mut Vec<u8>, puzzle: &Puzzle, placement: Placement) -> Result<(), AllocError>
    requires { placement.tile < length puzzle.now.words }
    ensures { OnOk result (text.new.items ≡ text.old.items ++ tile_word (colours_shown puzzle.now placement)) }
{
    for side in 0..puzzle.board().sides() {
        text.push(character(puzzle.colour(placement, side)))?;
    }
    Ok(())
}

#[tactic(auto, unfolding(text_words::specs::Spelling::line_text))]
fn put_cell(
    text: &mut Vec<u8>,
    puzzle: &Puzzle,
    cell: u16,
    placement: Placement,
) -> Result<(), AllocError>
    requires { placement.tile < length puzzle.now.words }
    ensures { OnOk result (text.new.items ≡ text.old.items ++ line_text (cell_words puzzle.now (cell, placement))) }
{
    put_number(text, u64::from(cell))?;
    text.push(b' ')?;
    put_placement(text, placement)?;
    text.push(b' ')?;
    put_shown(text, puzzle, placement)?;
    text.push(b'\n')?;
    Ok(())
}

/// Writes an arrangement of the puzzle as it lies on the board. Each cell, in order, has a line with its number, the
/// tile there with its turn, and the colours that it shows on sides 0, 1 and so on: `0 2.2 020`.
///
/// An `Err` comes only where memory is refused.
pub fn write_board(
    alloc: Global,
    puzzle: &Puzzle,
    arrangement: &[Placement],
) -> Result<Vec<u8>, AllocError>
    requires { IsArrangement puzzle.now arrangement.now }
    ensures { IfOk result (λ text. text.items ≡ board_text puzzle.now arrangement.now) }
{
    let mut text = Vec::new(alloc);
    for cell in 0..puzzle.board().cells() {
        put_cell(&mut text, puzzle, cell, arrangement[usize::from(cell)])?;
    }
    Ok(text)
}
