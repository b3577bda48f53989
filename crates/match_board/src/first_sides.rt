//! The first side of a board that a test finds.

ghost use Rattle.std.specs.Prelude.{◌<◌, ℕ, true, false, MatchOption};
ghost use Rattle.match_board.specs.Board.{side_count};
ghost use Rattle.match_board.specs.FirstSides.{ArePassed, AreAskable, IsFirstSide};

use crate::boards::Board;

/// The first side that passes the test, with its cell: sides are tested by cell, then by number. `None` where none
/// passes.
///
/// Each side is tested once, up to the one that is found.
pub fn first_side<F: Fn(u16, u8) -> bool>(board: &Board, test: F) -> Option<(u16, u8)>
    requires { AreAskable board.now (F.post test) (F.pre test) }
    ensures { MatchOption result (ArePassed board.now (F.post test)) (IsFirstSide board.now (F.post test)) }
{
    for cell in 0..board.cells() {
        if let Some(side) = first_side_at(board, cell, &test) {
            return Some((cell, side));
        }
    }
    None
}

// The first side of the cell of which the test says yes.
fn first_side_at<F: Fn(u16, u8) -> bool>(board: &Board, cell: u16, test: &F) -> Option<u8>
    requires { (side : ℕ) → side < side_count board.now → F.pre test.now cell side }
    ensures { MatchOption result
        ((side : ℕ) → side < side_count board.now → F.post test.now cell side false)
        (λ found. (found < side_count board.now) × F.post test.now cell found true
        × ((side : ℕ) → side < found → F.post test.now cell side false)) }
{
    for side in 0..board.sides() {
        if test(cell, side) {
            return Some(side);
        }
    }
    None
}
