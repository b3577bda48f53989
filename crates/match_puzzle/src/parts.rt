//! What a puzzle is made of.

ghost use Rattle.std.specs.Prelude.{MatchBool, MatchOption, length};
ghost use Rattle.match_board.specs.Board.{cell_count, IsBoard};
ghost use Rattle.match_limits.specs.First.{IsFirst};
ghost use Rattle.match_puzzle.specs.Parts.{AreParts, task_of_parts};
ghost use Rattle.match_puzzle.specs.Puzzle.{AreEnough, IsPuzzle};
ghost use Rattle.match_puzzle.specs.PuzzleFaults.{PuzzleFails, puzzle_rank};

use crate::clue_faults::broken_clue;
use crate::faults::PuzzleFault;
use crate::rules::Rules;
use crate::tables::odd_tile;
use match_board::{Board, Tile, broken_mate};
use match_limits::MOST_TILES;

/// What a puzzle is made of.
#[derive(Clone, Copy)]
pub(crate) struct PuzzleParts<'r, 't> {
    pub(crate) board: Board,
    pub(crate) rules: &'r Rules<'r>,
    pub(crate) version: u8,
    pub(crate) tiles: &'t [Tile],
}

impl PuzzleParts<'_, '_> {
    /// What is wrong with the puzzle of these parts.
    pub(crate) fn fault(&self) -> Option<PuzzleFault>
        requires { AreParts self.now }
        ensures { MatchOption result (IsPuzzle (task_of_parts self.now))
            (IsFirst puzzle_rank (PuzzleFails (task_of_parts self.now))) }
    {
        let board = &self.board;
        let rules = self.rules;
        if board.sides() == 3 && !rules.turns {
            return Some(PuzzleFault::FixedTriangles);
        }
        if !self.are_enough() {
            return Some(PuzzleFault::TileCount);
        }
        if let Some(tile) = odd_tile(board, self.tiles) {
            return Some(PuzzleFault::TileSides(tile));
        }
        if let Some(place) = rules.border.bad_colour() {
            return Some(PuzzleFault::BadColour(place));
        }
        if !rules.border.is_as_long_as(board) {
            return Some(PuzzleFault::BorderLength);
        }
        if let Some(place) = broken_mate(rules.mates) {
            return Some(PuzzleFault::Mates(place));
        }
        if let Some(number) = broken_clue(board, rules) {
            return Some(PuzzleFault::Clue(number));
        }
        None
    }

    // Whether there are as many tiles as cells; in version 3 at least as many, and no more than there are numbers for.
    fn are_enough(&self) -> bool
        ensures enough { MatchBool result
            (AreEnough self.now.version (cell_count self.now.board) (length self.now.tiles.now))
            (AreEnough self.now.version (cell_count self.now.board) (length self.now.tiles.now) → ⊥) }
        ensures board { IsBoard self.now.board }
    {
        let cells = usize::from(self.board.cells());
        if self.version < 3 {
            self.tiles.len() == cells
        } else {
            cells <= self.tiles.len() && self.tiles.len() <= usize::from(MOST_TILES)
        }
    }
}
