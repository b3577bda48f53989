//! What is seen of a cell.

ghost use Rattle.std.specs.Prelude.{◌≡◌, ◌<◌, ℕ, slice_index};
ghost use Rattle.match_board.specs.Board.{cell_count, side_count};
ghost use Rattle.match_puzzle.specs.Puzzle.{IsPuzzle, IsLegal, colour_of};
ghost use Rattle.text_words.specs.Spelling.{colour_character};
ghost use Rattle.show_text.specs.Face.{IsFace, IsRuleSign};

use match_limits::SIDES;
use match_puzzle::{Partial, Placement, Puzzle};
use text_words::character;

/// What a drawing shows of a cell: its number, whether it is marked, its tile if it is filled, and a sign at each side.
#[derive(Clone, Copy)]
pub struct Face {
    pub cell: u16,
    pub marked: bool,
    pub tile: Option<u16>,
    pub signs: [u8; SIDES],
}

/// What a drawing shows of the cell, where `mark` is the number of the marked cell.
pub fn face_of(partial: &Partial<'_>, cell: u16, mark: Option<u16>) -> Face
    requires { cell < cell_count partial.now.puzzle.board }
    ensures cell { result.cell ≡ cell }
    ensures face { IsFace partial.now mark result }
{
    let marked = mark == Some(cell);
    let puzzle = partial.puzzle();
    match partial.at(cell) {
        Some(placement) => Face {
            cell,
            marked,
            tile: Some(placement.tile),
            signs: signs_shown(puzzle, placement),
        },
        None => Face {
            cell,
            marked,
            tile: None,
            signs: signs_asked(puzzle, cell),
        },
    }
}

// The colours that the placed tile shows.
fn signs_shown(puzzle: &Puzzle, placement: Placement) -> [u8; SIDES]
    requires { IsLegal puzzle.now placement }
    ensures { (side : ℕ) → side < side_count puzzle.now.board
        → slice_index result side ≡ colour_character (colour_of puzzle.now placement side) }
{
    let mut signs = [b' '; SIDES];
    for side in 0..puzzle.board().sides() {
        signs[usize::from(side)] = character(puzzle.colour(placement, side));
    }
    signs
}

// The colours that the border and a clue ask of the cell.
fn signs_asked(puzzle: &Puzzle, cell: u16) -> [u8; SIDES]
    requires { cell < cell_count puzzle.now.board }
    ensures { (side : ℕ) → side < side_count puzzle.now.board
        → IsRuleSign puzzle.now cell side (slice_index result side) }
{
    let mut signs = [b' '; SIDES];
    for side in 0..puzzle.board().sides() {
        signs[usize::from(side)] = sign_asked(puzzle, cell, side);
    }
    signs
}

// The colour that the border or a clue asks of the side, or a space.
fn sign_asked(puzzle: &Puzzle, cell: u16, side: u8) -> u8
    requires cell { cell < cell_count puzzle.now.board }
    requires side { side < side_count puzzle.now.board }
    requires puzzle { IsPuzzle puzzle.now }
    ensures { IsRuleSign puzzle.now cell side result }
{
    match puzzle.rule(cell, side) {
        Some(colour) => character(colour),
        None => b' ',
    }
}
