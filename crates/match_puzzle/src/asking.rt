//! What cells ask of those that they meet.

ghost use Rattle.std.specs.Prelude.{◌≡◌, ◌⊎◌, ◌<◌, ◌≤◌, ◌+◌, ◌*◌, ℕ, IfOk, None, Some, length, slice_get};
ghost use Rattle.std.specs.Prelude.{slice_index, slice_index_or};
ghost use Rattle.match_puzzle.specs.Puzzle.{Task, IsPuzzle};
ghost use Rattle.match_puzzle.specs.Prefix.{empty_prefix};
ghost use Rattle.match_puzzle.specs.Tables.{AreSides, Begins, IsInTable, rule_on};
ghost use Rattle.match_puzzle.specs.PlacementSets.{JoinsTo};
ghost use Rattle.match_puzzle.specs.declared.tables.Side.TheVariants as kinds;
ghost use Rattle.match_puzzle.specs.Partials.{AreAsking};

use crate::placement_sets::{ANY_COLOUR, NO_COLOUR};
use crate::tables::{CellSides, FIRST_PLACE, Side};
use match_limits::{MOST_CELLS, SIDES};
use std::alloc::{AllocError, Global};

/// What is asked where nothing stands, on cells with these sides: each colour at its own place, and behind them any;
/// then, four sides to a cell, what a clue asks of the side that is met, or any.
pub(crate) fn beginning(alloc: Global, table: &[CellSides]) -> Result<Vec<u8>, AllocError>
    requires few { length table.now ≤ MOST_CELLS }
    requires sides { (p : Task) × IsPuzzle p × AreSides p table.now }
    ensures { IfOk result (λ v. (p : Task) → IsPuzzle p → AreSides p table.now
        → AreAsking p (empty_prefix p) v.items) }
{
    let mut asks = nothing_asked(alloc, table.len())?;
    for cell in 0..table.len() {
        let begins = beginning_at(table, &table[cell].sides);
        put(&mut asks, cell as u16, begins);
    }
    Ok(asks)
}

// What is asked on a board of `cells` cells where nothing is placed and there are no clues.
fn nothing_asked(alloc: Global, cells: usize) -> Result<Vec<u8>, AllocError>
    requires { cells ≤ MOST_CELLS }
    ensures long { IfOk result (λ v. length v.items ≡ FIRST_PLACE + 4 * cells) }
    ensures colours { IfOk result (λ v. (colour : ℕ) → colour < ANY_COLOUR → slice_index v.items colour ≡ colour) }
    ensures any { IfOk result (λ v. (place : ℕ) → ANY_COLOUR ≤ place → place < FIRST_PLACE + 4 * cells
        → slice_index v.items place ≡ ANY_COLOUR) }
{
    let mut asks = vec![in alloc; ANY_COLOUR; FIRST_PLACE + SIDES * cells]?;
    for colour in 0..ANY_COLOUR {
        asks[usize::from(colour)] = colour;
    }
    Ok(asks)
}

// What a cell with these sides asks of those that it meets, where nothing stands there.
fn beginning_at(table: &[CellSides], sides: &[Side; SIDES]) -> [u8; SIDES]
    requires { (side : ℕ) (x : Side) → side < 4 → slice_get sides.now side ≡ Some x → IsInTable table.now x }
    ensures { (side : ℕ) (x : Side) → side < 4 → slice_get sides.now side ≡ Some x
        → Begins table.now x (slice_index result side) }
{
    [
        beginning_of(table, sides[0]),
        beginning_of(table, sides[1]),
        beginning_of(table, sides[2]),
        beginning_of(table, sides[3]),
    ]
}

// What the side asks of the one that it meets, where nothing stands: what a clue asks of that one, or any.
fn beginning_of(table: &[CellSides], side: Side) -> u8
    requires { IsInTable table.now side }
    ensures { Begins table.now side result }
{
    match side {
        Side::Border(_) => ANY_COLOUR,
        Side::Edge { cell, side, .. } => rule_in(table, cell, side).unwrap_or(ANY_COLOUR),
    }
}

// The rule of the side of the cell.
fn rule_in(table: &[CellSides], cell: u16, side: u8) -> Option<u8>
    requires cell { cell < length table.now }
    requires side { side < 4 }
    ensures { (sides : CellSides) × (slice_get table.now cell ≡ Some sides)
        × (result ≡ rule_on (slice_index_or sides.sides side (kinds.Border None))) }
{
    table[usize::from(cell)].sides[usize::from(side)].rule()
}

/// Puts down what the four sides of the cell ask.
pub(crate) fn put(asks: &mut Vec<u8>, cell: u16, colours: [u8; SIDES])
    requires { FIRST_PLACE + 4 * cell + 4 ≤ length asks.old.items }
    ensures long { length asks.new.items ≡ length asks.old.items }
    ensures colours { (side : ℕ) → side < 4
        → slice_index asks.new.items (FIRST_PLACE + 4 * cell + side) ≡ slice_index colours side }
    ensures others { (place : ℕ) → (place < FIRST_PLACE + 4 * cell) ⊎ (FIRST_PLACE + 4 * cell + 4 ≤ place)
        → slice_index asks.new.items place ≡ slice_index asks.old.items place }
{
    let first = FIRST_PLACE + SIDES * usize::from(cell);
    asks[first..first + SIDES].copy_from_slice(&colours);
}

/// The four numbers from this place on.
pub(crate) fn four_from(asks: &[u8], place: usize) -> [u8; SIDES]
    requires { place + 4 ≤ length asks.now }
    ensures { (side : ℕ) → side < 4 → slice_index result side ≡ slice_index asks.now (place + side) }
{
    [
        asks[place],
        asks[place + 1],
        asks[place + 2],
        asks[place + 3],
    ]
}

/// What is asked of the sides that meet those of a cell: by clues, and by the tile at the cell. It is `NO_COLOUR` at a
/// side of which these ask two colours. Few puzzles have clues, so this is kept out of the walk's code.
#[cold]
#[inline(never)]
pub(crate) fn both_asked(begins: [u8; SIDES], placed: [u8; SIDES]) -> [u8; SIDES]
    ensures { (side : ℕ) → side < 4
        → JoinsTo (slice_index begins side) (slice_index placed side) (slice_index result side) }
{
    [
        joined(begins[0], placed[0]),
        joined(begins[1], placed[1]),
        joined(begins[2], placed[2]),
        joined(begins[3], placed[3]),
    ]
}

// What is asked for by both.
fn joined(begins: u8, placed: u8) -> u8
    ensures { JoinsTo begins placed result }
{
    if begins == ANY_COLOUR || begins == placed {
        placed
    } else {
        NO_COLOUR
    }
}
