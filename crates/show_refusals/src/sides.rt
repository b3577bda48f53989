//! Sides of cells, what is at them, and turns of tiles.

ghost use Rattle.std.specs.Prelude.{◌<◌, IfSome};
ghost use Rattle.match_board.specs.Board.{cell_count, side_count};
ghost use Rattle.match_limits.specs.declared.TheConstants.{MOST_COLOURS};

use match_board::{Clue, Figure};
use match_puzzle::{Placement, Puzzle};

// A side of a cell, as faults name it.
#[derive(Clone, Copy)]
pub(crate) struct CellSide {
    pub(crate) cell: u32,
    pub(crate) side: u32,
}

impl CellSide {
    // What the side is called: by the points of the compass on squares, by its number on triangles.
    pub(crate) fn name(self, puzzle: &Puzzle) -> &'static str {
        let is_of_square = match puzzle.board().figure() {
            Figure::Rectangle { .. } | Figure::Shape { .. } => true,
            Figure::Triangle { .. } | Figure::Hexagon { .. } => false,
        };
        match (is_of_square, self.side) {
            (true, 0) => "north side",
            (true, 1) => "east side",
            (true, 2) => "south side",
            (true, _) => "west side",
            (false, 0) => "side 0",
            (false, 1) => "side 1",
            (false, _) => "side 2",
        }
    }

    // Its cell and its number, if the board has it.
    fn on_board(self, puzzle: &Puzzle) -> Option<(u16, u8)>
        ensures { IfSome result
            (λ at. (at.0 < cell_count puzzle.now.board) × (at.1 < side_count puzzle.now.board)) }
    {
        let cell = u16::try_from(self.cell).ok()?;
        let side = u8::try_from(self.side).ok()?;
        let board = puzzle.board();
        if cell < board.cells() && side < board.sides() {
            Some((cell, side))
        } else {
            None
        }
    }

    // What the border or a clue asks of it.
    pub(crate) fn rule(self, puzzle: &Puzzle) -> Option<u8> {
        let (cell, side) = self.on_board(puzzle)?;
        puzzle.rule(cell, side)
    }

    // Whether a clue asks it for a colour.
    pub(crate) fn is_clued(self, puzzle: &Puzzle) -> bool {
        for clue in puzzle.clues() {
            if u32::from(clue.cell()) == self.cell && asks_side(clue, self.side) {
                return true;
            }
        }
        false
    }

    // The side that it meets.
    pub(crate) fn met(self, puzzle: &Puzzle) -> Option<CellSide> {
        let (cell, side) = self.on_board(puzzle)?;
        let (cell, side) = puzzle.meets(cell, side)?;
        Some(CellSide {
            cell: u32::from(cell),
            side: u32::from(side),
        })
    }

    // The colour that is shown there.
    pub(crate) fn shown(self, puzzle: &Puzzle, placements: &[Placement]) -> Option<u8>
        ensures { IfSome result (λ colour. colour < MOST_COLOURS) }
    {
        let (cell, side) = self.on_board(puzzle)?;
        let placement = *placements.get(usize::from(cell))?;
        if puzzle.legal(placement) {
            Some(puzzle.colour(placement, side))
        } else {
            None
        }
    }
}

// Whether the clue asks the side with this number for a colour.
fn asks_side(clue: &Clue, side: u32) -> bool {
    match u8::try_from(side) {
        Ok(side) if side < clue.sides() => clue.asks(side).is_some(),
        _ => false,
    }
}

// Why a tile of the puzzle may not have a turn.
pub(crate) fn why_not_turned(puzzle: &Puzzle) -> &'static str {
    if puzzle.turns() {
        "after which it looks as after a lower turn"
    } else {
        "and tiles are not turned"
    }
}
