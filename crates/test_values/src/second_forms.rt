//! Puzzles in their second form.

use crate::fixtures::{CORNER_SHAPE, MATED_PAIR, SIX_TRIANGLES};
use match_board::{Board, BoardFault};
use match_puzzle::Puzzle;
use match_text::write_puzzle;
use std::alloc::Global;
use std::test::Fail;
use test_samples::{SQUARE_OF_FOUR, puzzle_of};

const SQUARE_OF_FOUR_AS_A_SHAPE: &[u8] =
    b"match 2\nboard shape 2 2\nrow ##\nrow ##\nturns no\nborder one 5\nmates\ntiles 4\ntile 5135\ntile 5541\ntile 3255\ntile 4552\nend\n";

// Whether the puzzles have the same mates, turns, tiles and colours.
fn is_alike(puzzle: &Puzzle, second: &Puzzle) -> bool {
    second.mates() == puzzle.mates()
        && second.turns() == puzzle.turns()
        && second.tiles() == puzzle.tiles()
        && second.colours() == puzzle.colours()
}

// Whether the puzzle's second form has this board, and all else is as it was.
fn has_second_form(alloc: Global, puzzle: &Puzzle, board: Board) -> Result<bool, Fail> {
    let second = puzzle.second_form(alloc)?;
    Ok(*second.board() == board && second.version() == 2 && is_alike(puzzle, &second))
}

// Whether the second form of the text's puzzle has this board, and `sizes` are its numbers of cells and outer sides.
fn is_in_second_form(
    alloc: Global,
    text: &[u8],
    board: Result<Board, BoardFault>,
    sizes: (u16, u16),
) -> Result<bool, Fail> {
    let board = board?;
    if (board.cells(), board.border_len()) != sizes {
        return Ok(false);
    }
    let puzzle = puzzle_of(alloc, text)?;
    has_second_form(alloc, &puzzle, board)
}

// What is written of the puzzle's second form.
fn second_text(alloc: Global, puzzle: &Puzzle) -> Result<Vec<u8>, Fail> {
    let second = puzzle.second_form(alloc)?;
    Ok(write_puzzle(alloc, &second)?)
}

// Whether this is written of that of the text's puzzle.
fn is_written(alloc: Global, text: &[u8], wanted: &[u8]) -> Result<bool, Fail> {
    let puzzle = puzzle_of(alloc, text)?;
    let written = second_text(alloc, &puzzle)?;
    Ok(written.as_slice() == wanted)
}

#[test]
fn second_forms_of_puzzles(rt: HostRuntime) -> Result<(), Fail> {
    let alloc = rt.alloc();
    let rows = [
        (SQUARE_OF_FOUR, Board::shape(2, 2, &[true; 4]), (4, 8)),
        (SIX_TRIANGLES, Board::hexagon(1), (6, 6)),
        (MATED_PAIR, Board::shape(2, 1, &[true; 2]), (2, 6)),
        (
            CORNER_SHAPE,
            Board::shape(2, 2, &[true, true, true, false]),
            (3, 8),
        ),
    ];
    for (text, board, sizes) in rows.iter() {
        assert!(rt;
            is_in_second_form(alloc, text, *board, *sizes)?,
            "{sizes:?}"
        );
    }
    assert!(rt; is_written(alloc, SQUARE_OF_FOUR, SQUARE_OF_FOUR_AS_A_SHAPE)?);
    Ok(())
}
