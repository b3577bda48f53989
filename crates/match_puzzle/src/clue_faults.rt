//! Clues that a puzzle can't have.

ghost use Rattle.std.specs.Prelude.{◌≡◌, ◌≢◌, ◌⊎◌, ◌<◌, ◌≤◌, ◌^◌, ℕ, List, MatchBool, MatchOption, Some, length};
ghost use Rattle.match_board.specs.Board.{cell_count, side_count, IsBoard};
ghost use Rattle.match_board.specs.declared.tiles.Tile.{Tile as BoardTile};
ghost use Rattle.match_board.specs.Borders.{rule_of, IsAsLongAsBorder};
ghost use Rattle.match_board.specs.Clues.{clue_of};
ghost use Rattle.match_limits.specs.First.{IsLeast};
ghost use Rattle.match_puzzle.specs.Puzzle.{AreClues, task_by};
ghost use Rattle.match_puzzle.specs.PuzzleFaults.{BreaksCluesAt, DefiesBorder};
ghost use Rattle.match_puzzle.specs.Tables.{IsNextNumber};

use crate::rules::Rules;
use match_board::{Board, Border, Clue};

/// The first clue that the puzzle of this board and these rules can't have, by its number.
pub(crate) fn broken_clue(board: &Board, rules: &Rules<'_>) -> Option<u32>
    requires border { IsAsLongAsBorder board.now (rule_of rules.now.border.now) }
    requires clues { length rules.now.clues.now < 2 ^ 32 }
    ensures { (version : ℕ) (tiles : List BoardTile) → MatchOption result
        (AreClues (task_by board.now rules.now version tiles))
        (IsLeast (BreaksCluesAt (task_by board.now rules.now version tiles))) }
{
    let cells = board.cells();
    let clues = rules.clues;
    let mut least = 0;
    let mut passed = 0;
    let mut number = 0;
    for (place, clue) in clues.iter().enumerate() {
        if is_misplaced(clue, least, cells, board.sides()) {
            return Some(place as u32);
        }
        let cell = clue.cell();
        number = number_at(board, passed, cell, number);
        if defies_border(board, rules.border, clue, number) {
            return Some(place as u32);
        }
        passed = cell;
        least = cell + 1;
    }
    None
}

// Whether the clue's cell is before cell `least`, or isn't one of the `cells` cells, or the clue hasn't `sides` sides.
fn is_misplaced(clue: &Clue, least: u16, cells: u16, sides: u8) -> bool
    ensures { MatchBool result
        (((clue_of clue.now).cell < least) ⊎ (cells ≤ (clue_of clue.now).cell)
        ⊎ (length (clue_of clue.now).asks ≢ sides))
        ((least ≤ (clue_of clue.now).cell) × ((clue_of clue.now).cell < cells)
        × (length (clue_of clue.now).asks ≡ sides)) }
{
    clue.cell() < least || clue.cell() >= cells || clue.sides() != sides
}

// How many border pairs come before the cell, where `number` come before the cell `earlier`.
fn number_at(board: &Board, earlier: u16, cell: u16, number: u16) -> u16
    requires board { IsBoard board.now }
    requires order { earlier ≤ cell }
    requires cell { cell < cell_count board.now }
    requires number { IsNextNumber board.now (earlier, 0) number }
    ensures { IsNextNumber board.now (cell, 0) result }
{
    let mut count = number;
    for passed in earlier..cell {
        count += board.border_sides(passed);
    }
    count
}

// Whether the border asks a side of the clue's cell for another colour. `number` border pairs come before the cell.
fn defies_border(board: &Board, border: &Border, clue: &Clue, number: u16) -> bool
    requires board { IsBoard board.now }
    requires cell { (clue_of clue.now).cell < cell_count board.now }
    requires sides { length (clue_of clue.now).asks ≡ side_count board.now }
    requires border { IsAsLongAsBorder board.now (rule_of border.now) }
    requires number { IsNextNumber board.now ((clue_of clue.now).cell, 0) number }
    ensures { MatchBool result
        (DefiesBorder board.now (rule_of border.now) (clue_of clue.now))
        (DefiesBorder board.now (rule_of border.now) (clue_of clue.now) → ⊥) }
{
    let mut count = number;
    for side in 0..board.sides() {
        if board.is_border(clue.cell(), side) {
            if are_other(border.rule_at(count), clue.asks(side)) {
                return true;
            }
            count += 1;
        }
    }
    false
}

// Whether these are two colours.
fn are_other(one: Option<u8>, other: Option<u8>) -> bool
    ensures { MatchBool result
        ((colour : ℕ) × (second : ℕ) × (one ≡ Some colour) × (other ≡ Some second) × (colour ≢ second))
        ((colour second : ℕ) → one ≡ Some colour → other ≡ Some second → colour ≡ second) }
{
    match (one, other) {
        (Some(colour), Some(second)) => colour != second,
        _ => false,
    }
}
